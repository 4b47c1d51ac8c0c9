// Bodies in words.
use commands::commands::Command;
use commands::operation::Operation;
use listing::chosen::Chosen;
use std::fmt;

// A well-formed body, shown as its kind of work has it.
#[derive(Clone, Copy)]
pub struct BodyText<'a> {
    pub kind: Chosen,
    pub body: &'a [u32],
}

impl fmt::Display for BodyText<'_> {
    fn fmt<W: fmt::Write>(&self, f: &mut fmt::Formatter<W>) -> fmt::Result {
        match self.kind {
            Chosen::Values => show_values(self.body, f),
            Chosen::Commands => show_command(self.body, f),
        }
    }
}

fn show_values<W: fmt::Write>(body: &[u32], f: &mut fmt::Formatter<W>) -> fmt::Result {
    let (pairs, _) = body.as_chunks::<2>();
    for (index, [cell, value]) in pairs.iter().enumerate() {
        let before = if index == 0 { "SET" } else { "," };
        write!(f, "{before} cell {cell} to {value}")?;
    }
    Ok(())
}

fn show_command<W: fmt::Write>(body: &[u32], f: &mut fmt::Formatter<W>) -> fmt::Result {
    let Command {
        operation,
        sender,
        number,
        a,
        b,
        c,
        spare: _,
        amount,
    } = Command::of(body);
    match Operation::try_from(operation) {
        Ok(Operation::Add) => write!(f, "ADD {amount} to cell {a}")?,
        Ok(Operation::Close) => write!(f, "CLOSE cell {a} into cell {b}")?,
        Ok(Operation::Latch) => write!(
            f,
            "LATCH cell {a} into cell {c} if cell {b} is at least {amount}"
        )?,
        Err(_) => write!(f, "unknown operation {operation}")?,
    }
    write!(f, ", sender {sender}, number {number}")
}
