// Kinds of work: what a logged body does to the table of readings.
//
//     Values.judge(&body, 256)?;
//     Values.run(&body, &mut table);
//
// `kind` has the trait with its law, `values` the kind of work whose bodies are new values; `name` is a cell that a body
// names, `fault` why a body is bad, `table` reads and writes a table at any cell, `limits` has the numbers that all share.
#![tactic(auto)]

pub mod fault;
pub mod kind;
pub mod limits;
pub mod name;
pub mod table;
pub mod values;
