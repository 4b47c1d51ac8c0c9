// Commands: the kind of work whose bodies are an operation with its sender and number, cells, and an amount.
//
//     Commands.judge(&body, 256)?;
//     Commands.run(&body, &mut table);
//
// `commands` has the bodies and the kind of work, `operation` what a command does.
#![tactic(auto)]

pub mod commands;
pub mod operation;
