// Why a stage of a call cannot be shown.
ghost use Rattle.std.specs.Prelude.{◌≡◌};
ghost use Rattle.staging.specs.declared.fault.StageFault.TheVariants.{Memory, Refused as RefusedBy};

use chip::refusal::{Refusal, Unmounted};
use std::alloc::{AllocError, AllocFailed};
use thiserror::Error;

#[derive(Clone, Copy, PartialEq, Eq, Debug, Error)]
pub enum StageFault {
    #[error("no memory is left")]
    Memory,
    // a mount refused what a memory held
    #[error("{0}")]
    Refused(Refusal),
}

// By hand, since clauses name the fault that a `?` makes, and of what a derive writes they cannot.
impl From<AllocError> for StageFault {
    ghost from_gives = { λ _ r. r ≡ Memory };

    fn from(_e: AllocError) -> StageFault {
        StageFault::Memory
    }
}

impl<T: Drop> From<AllocFailed<T>> for StageFault {
    ghost from_gives = { λ _ r. r ≡ Memory };

    fn from(_e: AllocFailed<T>) -> StageFault {
        StageFault::Memory
    }
}

impl From<Refusal> for StageFault {
    ghost from_gives = { λ e r. r ≡ RefusedBy e };

    fn from(e: Refusal) -> StageFault {
        StageFault::Refused(e)
    }
}

impl<M: Drop> From<Unmounted<M>> for StageFault {
    ghost from_gives = { λ e r. r ≡ RefusedBy e.refusal };

    fn from(e: Unmounted<M>) -> StageFault {
        StageFault::Refused(e.refusal)
    }
}
