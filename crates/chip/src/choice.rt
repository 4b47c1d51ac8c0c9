// One of two kinds of chip is a chip, so that a program can choose the kind when it runs.
ghost use Rattle.std.specs.Prelude.{ℕ, List};
ghost use Rattle.either.specs.Either.{either};
ghost use Rattle.chip.specs.Choice.{EitherPasses, either_joined};
ghost use Rattle.std.proofs.Common.{rules};

use crate::chip::Chip;
use crate::refusal::Refusal;
use either::{Either, for_both};

impl<A: Chip, B: Chip> Chip for Either<A, B> {
    ghost accepted = { either A.Chip.accepted B.Chip.accepted };

    ghost settled = { either A.Chip.settled B.Chip.settled };

    ghost room = { either A.Chip.room B.Chip.room };

    ghost early = { either A.Chip.early B.Chip.early };

    ghost left = { either A.Chip.left B.Chip.left };

    ghost passes = { EitherPasses A.Chip.passes B.Chip.passes };

    ghost bounded = { Prim.search rules };

    ghost keeps = { Prim.search rules };

    ghost rests = { Prim.search rules };

    ghost joins = { either_joined A.Chip.passes B.Chip.passes A.Chip.joins B.Chip.joins };

    ghost gapless = { Prim.search rules };

    fn capacity(&self) -> u32 {
        for_both!(self, chip => chip.capacity())
    }

    fn count(&self) -> u32 {
        for_both!(self, chip => chip.count())
    }

    fn read_word(&self, place: u32) -> Result<u32, Refusal> {
        for_both!(self, chip => chip.read_word(place))
    }

    fn append(&mut self, word: u32) -> Result<(), Refusal> {
        for_both!(self, chip => chip.append(word))
    }

    fn settle(&mut self) {
        for_both!(self, chip => chip.settle())
    }

    // Matches, since no proof is made for a `map` by a variant of this type: its other parameter is not named there.
    fn cut(self) -> Result<Either<A, B>, Either<A, B>> {
        match self {
            Either::Left(chip) => match chip.cut() {
                Ok(chip) => Ok(Either::Left(chip)),
                Err(chip) => Err(Either::Left(chip)),
            },
            Either::Right(chip) => match chip.cut() {
                Ok(chip) => Ok(Either::Right(chip)),
                Err(chip) => Err(Either::Right(chip)),
            },
        }
    }
}
