// What can be wrong with the words of a log.
ghost use Rattle.std.specs.Prelude.{◌≡◌};
ghost use Rattle.logs.specs.Faults.{cause_of};
ghost use Rattle.logs.specs.declared.fault.Cause.TheVariants.{Body};
ghost use Rattle.logs.specs.declared.fault.Stop.TheVariants.{Fault};

use thiserror::Error;
use work::fault::BodyFault;

#[derive(Clone, Copy, PartialEq, Eq, Debug, Error)]
pub enum Cause {
    #[error("a word of a kind that no record has")]
    UnknownKind,
    #[error("no head where a record should begin")]
    NoHead,
    #[error("a head with too many vector words, with no or too many body words, or with a stray bit")]
    BadHead,
    #[error("no vector word where one should stand")]
    NoEntry,
    #[error("a vector word whose chip is missing or does not rise, or whose place is 0")]
    BadEntry,
    #[error("a vector word for the log's own chip that lies past the record's start")]
    OwnEntry,
    #[error("no body word where one should stand")]
    NoPayload,
    #[error("the body is bad, cause {number}: {fault}", number = u8::from(*.0), fault = .0)]
    Body(BodyFault),
}

impl From<Cause> for u8 {
    ghost from_gives = { λ cause n. n ≡ cause_of cause };

    fn from(cause: Cause) -> u8 {
        match cause {
            Cause::UnknownKind => 1,
            Cause::NoHead => 2,
            Cause::BadHead => 3,
            Cause::NoEntry => 4,
            Cause::BadEntry => 5,
            Cause::OwnEntry => 6,
            Cause::NoPayload => 7,
            Cause::Body(_) => 8,
        }
    }
}

// By hand, and so the next: clauses name what a `?` makes, and of what a derive writes they cannot.
impl From<BodyFault> for Cause {
    ghost from_gives = { λ fault r. r ≡ Body fault };

    fn from(fault: BodyFault) -> Cause {
        Cause::Body(fault)
    }
}

// Where a log is unsound, and why.
#[derive(Clone, Copy, PartialEq, Eq, Debug, Error)]
#[error("chip {chip}, place {place}, cause {number}: {cause}", number = u8::from(*.cause))]
pub struct RecordFault {
    pub chip: u32,
    pub place: usize,
    pub cause: Cause,
}

// Why no record is read. Of the shape of an Option, but an error that `?` raises for either reason: the names say which.
#[derive(Clone, Copy, PartialEq, Eq, Debug, Error)]
pub enum Stop {
    #[error("the words run out")]
    RunsOut,
    #[error(transparent)]
    Fault(RecordFault),
}

impl From<RecordFault> for Stop {
    ghost from_gives = { λ fault r. r ≡ Fault fault };

    fn from(fault: RecordFault) -> Stop {
        Stop::Fault(fault)
    }
}
