// The field of a command that has more than its bits.
ghost use Rattle.std.specs.Prelude.{◌≡◌, IfErr};
ghost use Rattle.listing.specs.Fields.{first_wide, encoded, Wide};

use commands::commands::{Command, SENDER_STEP, SENDERS};
use thiserror::Error;

#[derive(Clone, Copy, PartialEq, Eq, Debug, Error)]
pub enum Field {
    #[error("the operation is above 7")]
    Operation,
    #[error("the sender is above 7")]
    Sender,
    #[error("the number is above 8388607")]
    Number,
    #[error("a cell is above 255")]
    Cell,
    // the bits above the cells
    #[error("the spare bits are above 31")]
    Spare,
    #[error("the amount is above 536870911")]
    Amount,
}

// The payloads of a command, or its first field that does not fit.
pub fn payloads(command: Command) -> Result<[u32; 3], Field>
    ensures value { result ≡ encoded command }
    ensures wide { IfErr result (Wide command) }
{
    command.body().ok_or_else(|| wide_field(command))
}

// The first field with more than its bits; of a command that has none, the last.
fn wide_field(command: Command) -> Field
    ensures { result ≡ first_wide command }
{
    if command.operation >= 8 {
        Field::Operation
    } else if command.sender >= SENDERS {
        Field::Sender
    } else if command.number >= SENDER_STEP {
        Field::Number
    } else if command.a >= 256 || command.b >= 256 || command.c >= 256 {
        Field::Cell
    } else if command.spare >= 32 {
        Field::Spare
    } else {
        Field::Amount
    }
}
