// Why a call of a chip is refused.
ghost use Rattle.std.specs.Prelude.{◌≡◌};
ghost use Rattle.chip.specs.Refusals.{number_of};
ghost use Rattle.chip.specs.declared.refusal.Refusal.TheVariants.{UnfitMemory};

use thiserror::Error;

#[derive(Clone, Copy, PartialEq, Eq, Debug, Error)]
pub enum Refusal {
    #[error("the memory is not one that such a chip leaves")]
    UnfitMemory,
    #[error("the two capacities are more than 1048576 together")]
    PairTooLarge,
    #[error("the second chip has words and the first has room")]
    FirstNotFull,
    #[error("the blank word cannot be appended")]
    BlankWord,
    #[error("the chip is full")]
    ChipFull,
    #[error("no word stands at that place")]
    NoSuchWord,
}

// The number of a refusal, as it is printed.
impl From<Refusal> for u8 {
    ghost from_gives = { λ refusal number. number ≡ number_of refusal };

    fn from(refusal: Refusal) -> u8 {
        match refusal {
            Refusal::UnfitMemory => 1,
            Refusal::PairTooLarge => 2,
            Refusal::FirstNotFull => 3,
            Refusal::BlankWord => 4,
            Refusal::ChipFull => 5,
            Refusal::NoSuchWord => 6,
        }
    }
}

// A memory that was refused at its mount.
#[derive(Drop)]
pub struct Unmounted<M> {
    pub memory: M,
    pub refusal: Refusal,
}

impl<M> Unmounted<M> {
    // A memory that no chip of the kind could have left.
    pub fn unfit(memory: M) -> Unmounted<M>
        ensures memory { result.memory ≡ memory }
        ensures refusal { result.refusal ≡ UnfitMemory }
    {
        Unmounted {
            memory,
            refusal: Refusal::UnfitMemory,
        }
    }
}
