// Why a body is no well-formed one.
ghost use Rattle.std.specs.Prelude.{◌≡◌};
ghost use Rattle.work.specs.Faults.{cause_of};

use thiserror::Error;

#[derive(Clone, Copy, PartialEq, Eq, Debug, Error)]
pub enum BodyFault {
    #[error("a wrong number of payloads, or a payload of more than 29 bits")]
    Length,
    #[error("no such operation")]
    Operation,
    #[error("the sender's number is 0")]
    NumberZero,
    #[error("a field that the operation does not use is not 0")]
    UnusedField,
    #[error("a cell that the table lacks or keeps for the senders")]
    NoSuchCell,
    #[error("cells that do not rise, or are not apart")]
    CellOrder,
}

// The number that is printed for a fault. Of two that hold, the lesser is answered.
impl From<BodyFault> for u8 {
    ghost from_gives = { λ fault n. n ≡ cause_of fault };

    fn from(fault: BodyFault) -> u8 {
        match fault {
            BodyFault::Length => 1,
            BodyFault::Operation => 2,
            BodyFault::NumberZero => 3,
            BodyFault::UnusedField => 4,
            BodyFault::NoSuchCell => 5,
            BodyFault::CellOrder => 6,
        }
    }
}
