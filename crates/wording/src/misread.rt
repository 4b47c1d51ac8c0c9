// Why the pieces of a line cannot be read.
use listing::field::Field;
use std::alloc::AllocError;
use thiserror::Error;

#[derive(Debug, Drop, Error)]
pub enum Misread {
    #[error("no memory is left")]
    Memory(#[from(alloc)] AllocError),
    // the form that the pieces should have
    #[error("write it as: {0}")]
    Shape(&'static str),
    #[error("'{0}' is not a number")]
    NotANumber(String),
    #[error("'{0}' is not a word of 32 bits")]
    NotAWord(String),
    // no body begins like this
    #[error("a body begins with add, close, latch, set or raw")]
    NoBody,
    #[error(transparent)]
    Wide(#[from] Field),
    #[error("'{0}' is no kind of work: values or commands")]
    UnknownWork(String),
    // how many chips a unit should have
    #[error("a unit has 1 to 8 chips, not {0}")]
    ChipCount(u32),
    // a chip, and how many chips there are
    #[error("chip {0} is not one of {1} chips, counted from 0")]
    NoSuchChip(u32, u32),
}
