// Why a script stops.
use staging::fault::StageFault;
use std::alloc::AllocError;
use std::io;
use thiserror::Error;
use wording::misread::Misread;

// An enum and no anyhow::Error, which keeps only so many bytes of a text: a name may be of any length.
#[derive(Debug, Drop, Error)]
pub enum Cause {
    #[error("no memory is left")]
    Memory(#[from(alloc)] AllocError),
    // the form that the line should have
    #[error("write it as: {0}")]
    Shape(&'static str),
    #[error("there is no call '{0}'")]
    UnknownCall(String),
    // a number or a part of a record that cannot be read
    #[error(transparent)]
    Misread(#[from] Misread),
    #[error("no chip is named '{0}'")]
    UnknownName(String),
    #[error("a chip is named '{0}' already")]
    TakenName(String),
    #[error("'{0}' cannot be paired with itself")]
    PairedWithItself(String),
    #[error("a pair of pairs cannot be paired again")]
    TooDeep,
    // the call makes only so many stores
    #[error("that is more than the stores of the call, {0}")]
    FewStores(usize),
    // how many files were named, and how many memories there are
    #[error("files named: {0}, memories of the chip: {1}")]
    FileCount(usize, usize),
    #[error("'{0}' cannot be read: {1}")]
    Unread(String, io::Error),
    #[error("'{0}' cannot be written: {1}")]
    Unwritten(String, io::Error),
    // the size of an image is no multiple of four
    #[error("the size of '{0}' is no multiple of four bytes")]
    Ragged(String),
    // a chip of this program that cannot be mounted again
    #[error("a chip cannot be mounted again")]
    Unmountable,
    #[error("the input cannot be read: {0}")]
    Input(io::Error),
    #[error("the answer cannot be printed: {0}")]
    Output(io::Error),
}

// By hand, since the two faults are two causes.
impl From<StageFault> for Cause {
    fn from(fault: StageFault) -> Cause {
        match fault {
            StageFault::Memory => Cause::Memory(AllocError),
            StageFault::Refused(_) => Cause::Unmountable,
        }
    }
}

// A cause, with the line of the script that it stands in, if it is one of a line.
#[derive(Debug, Drop, Error)]
pub enum Stop {
    #[error("line {0}: {1}")]
    InLine(u64, Cause),
    #[error(transparent)]
    Outside(#[from] Cause),
}
