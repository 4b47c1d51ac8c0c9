// Words of a log and vectors of log places.
//
//     let both = join([4, 2, 0, 0, 0, 0, 0, 0], [3, 7, 0, 0, 0, 0, 0, 0]);
//     if reached(both, ends) { .. }
//
// `format` has the numbers of the format, `word` a word's kind and payload, `kind` the kinds of words, `vector` the vectors.
#![tactic(auto)]

pub mod format;
pub mod kind;
pub mod vector;
pub mod word;
