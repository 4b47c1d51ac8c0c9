// Runs a script of calls of chips and records, from a file or from standard input, and prints an answer for each.
#![tactic(auto)]

mod answer;
mod cause;
mod held;
mod image;
mod script;
mod shelf;

use cause::{Cause, Stop};
use held::{Joins, Two};
use shelf::Shelf;
use std::io::Input;
use std::process::ExitCode;
use std::{env, fs};

fn run_line<C: Joins>(
    rt: &HostRuntime,
    shelf: &mut Shelf<C>,
    number: u64,
    line: &str,
) -> Result<(), Stop> {
    answer_line(rt, shelf, line).map_err(|cause| Stop::InLine(number, cause))
}

fn answer_line<C: Joins>(rt: &HostRuntime, shelf: &mut Shelf<C>, line: &str) -> Result<(), Cause> {
    let Some(command) = script::parse(rt.alloc(), line)? else {
        return Ok(());
    };
    for reply in shelf.run(rt, command)? {
        println!(rt; "{reply}").map_err(Cause::Output)?;
    }
    Ok(())
}

fn run_file<C: Joins>(rt: &HostRuntime, shelf: &mut Shelf<C>, file: &str) -> Result<(), Stop> {
    let text = fs::read_to_string(rt, file).try_map_err(|error| Ok(Cause::Unread(
        String::from_str(rt.alloc(), file)?,
        error,
    )))?;
    for (number, line) in (1u64..).zip(text.lines()) {
        run_line(rt, shelf, number, line)?;
    }
    Ok(())
}

// Beside the lines of a file, since those of a text cannot fail and those of the input can.
fn run_input<C: Joins>(rt: &HostRuntime, shelf: &mut Shelf<C>) -> Result<(), Stop> {
    for (number, line) in (1u64..).zip(rt.stdin().lines(rt.alloc())) {
        let line = line.map_err(|error| Stop::InLine(number, Cause::Input(error)))?;
        run_line(rt, shelf, number, line.as_str())?;
    }
    Ok(())
}

fn run_script<C: Joins>(rt: &HostRuntime) -> Result<(), Stop> {
    let mut args = env::args(rt).map_err(Cause::Input)?.skip(1);
    let script = args.next();
    if args.next().is_some() {
        return Err(Stop::Outside(Cause::Shape("triplog [SCRIPT]")));
    }
    let mut shelf: Shelf<C> = Shelf::new(rt.alloc());
    match script {
        Some(file) if file.as_str() != "-" => run_file(rt, &mut shelf, file.as_str()),
        _ => run_input(rt, &mut shelf),
    }
}

fn main(rt: HostRuntime) -> ExitCode {
    match run_script::<Two>(&rt) {
        Ok(()) => ExitCode::SUCCESS,
        Err(stop) => {
            // Where standard error cannot be written, the exit status still says it.
            let _ = eprintln!(rt; "triplog: {stop}");
            ExitCode::FAILURE
        }
    }
}
