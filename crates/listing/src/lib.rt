// What stands on a chip: the records of a log, and what a kind of work says of a body.
//
//     let listing = Listing::of(heap, reading, words)?;
//     let judgement = judged(heap, Chosen::Commands, 256, &body)?;
//
// `chosen` is a kind of work that is chosen by its name when the program runs, `records` has the records of a log one behind
// the other, `judgement` what a kind of work says of a body alone, and `field` which field of a command is too wide.
#![tactic(auto)]

pub mod chosen;
pub mod field;
pub mod judgement;
pub mod records;
