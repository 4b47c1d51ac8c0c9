// Records and bodies in words, and from words.
//
//     let draft = Draft::read(heap, pieces)?;
//     let listing = Listing::of(heap, reading, words)?;
//     for line in lines(heap, reading, &listing)? { .. }
//
// `number` and `pieces` read numbers, `draft` a body and a vector, `asked` how a log or a body is to be read; `misread` says
// why a line cannot be read. `show` has bodies in words, and `told` what is told of a log and of a body.
#![tactic(auto)]

pub mod asked;
pub mod draft;
pub mod misread;
pub mod number;
pub mod pieces;
pub mod show;
pub mod told;
