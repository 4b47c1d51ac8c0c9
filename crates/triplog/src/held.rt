// A chip of any shape that the program can hold, over memories that note their stores.
use crate::answer::{Answer, Outcome};
use crate::cause::Cause;
use crate::script::{Call, Kind};
use chip::chip::Chip;
use chip::count::CountChip;
use chip::page::PageChip;
use chip::refusal::Unmounted;
use either::Either;
use pair::pair::{Pair, Unpaired};
use staging::fault::StageFault;
use staging::staged::Staged;
use staging::traced::Traced;
use std::alloc::{AllocError, Global};

pub type One = Either<PageChip<Traced>, CountChip<Traced>>;

pub type OneOrTwo<C> = Either<C, Pair<C, C>>;

pub type Two = OneOrTwo<One>;

// Chips of one type, of which two make a pair. The program is written over such a type, and not over the one
// that it uses, since what is to be proved of a function grows with the types that it names.
pub trait Joins: Staged {
    fn mount(kind: Kind, memory: Traced) -> Result<Self, Unmounted<Traced>>;

    // Two chips that could be held at a lower type are paired there, so that the pair can be paired again.
    fn join(first: Self, second: Self) -> Result<OneOrTwo<Self>, Unpaired<Self, Self>>;
}

impl Joins for One {
    fn mount(kind: Kind, memory: Traced) -> Result<One, Unmounted<Traced>> {
        match kind {
            Kind::Page => PageChip::mount(memory).map(Either::Left),
            Kind::Count => CountChip::mount(memory).map(Either::Right),
        }
    }

    fn join(first: One, second: One) -> Result<OneOrTwo<One>, Unpaired<One, One>> {
        joined(first, second)
    }
}

impl<C: Joins> Joins for OneOrTwo<C> {
    fn mount(kind: Kind, memory: Traced) -> Result<OneOrTwo<C>, Unmounted<Traced>> {
        C::mount(kind, memory).map(Either::Left)
    }

    fn join(
        first: OneOrTwo<C>,
        second: OneOrTwo<C>,
    ) -> Result<OneOrTwo<OneOrTwo<C>>, Unpaired<OneOrTwo<C>, OneOrTwo<C>>> {
        match (first, second) {
            (Either::Left(first), Either::Left(second)) => C::join(first, second)
                .map(Either::Left)
                .map_err(|Unpaired {
                    first,
                    second,
                    refusal,
                }| Unpaired {
                    first: Either::Left(first),
                    second: Either::Left(second),
                    refusal,
                }),
            (first, second) => joined(first, second),
        }
    }
}

fn joined<C: Staged>(first: C, second: C) -> Result<OneOrTwo<C>, Unpaired<C, C>> {
    Pair::new(first, second).map(Either::Right)
}

// A chip, or a pair of such chips, behind a box, since a value of that type is large. Its functions match where a chip has to be
// given back: a chip is no value that a `map_err` could let go.
pub struct Held<C: Joins> {
    chip: Box<OneOrTwo<C>>,
}

impl<C: Joins> Drop for Held<C> {
    fn drop(self) {
        let Held { chip } = self;
        Box::into_inner(chip).discard();
    }
}

impl<C: Joins> Held<C> {
    fn boxed(heap: Global, chip: OneOrTwo<C>) -> Result<Held<C>, AllocError> {
        match Box::new(heap, chip) {
            Ok(chip) => Ok(Held { chip }),
            Err(back) => {
                back.value.discard();
                Err(AllocError)
            }
        }
    }

    pub fn mounted(heap: Global, kind: Kind, memory: Traced) -> Result<Held<C>, StageFault> {
        let chip = C::mount(kind, memory)?;
        Ok(Held::boxed(heap, Either::Left(chip))?)
    }

    // Two chips that are refused as a pair stay as they were.
    pub fn paired(
        heap: Global,
        first: Held<C>,
        second: Held<C>,
    ) -> Result<Result<Held<C>, Unpaired<Held<C>, Held<C>>>, Cause> {
        let Held { chip: first } = first;
        let Held { chip: second } = second;
        match (Box::into_inner(first), Box::into_inner(second)) {
            (Either::Left(first), Either::Left(second)) => match C::join(first, second) {
                Ok(chip) => Ok(Ok(Held::boxed(heap, chip)?)),
                Err(back) => Ok(Err(Held::unpaired(heap, back)?)),
            },
            (first, second) => {
                first.discard();
                second.discard();
                Err(Cause::TooDeep)
            }
        }
    }

    fn unpaired(
        heap: Global,
        back: Unpaired<C, C>,
    ) -> Result<Unpaired<Held<C>, Held<C>>, AllocError> {
        let Unpaired {
            first,
            second,
            refusal,
        } = back;
        match Held::boxed(heap, Either::Left(first)) {
            Ok(first) => Ok(Unpaired {
                first,
                second: Held::boxed(heap, Either::Left(second))?,
                refusal,
            }),
            Err(error) => {
                second.discard();
                Err(error)
            }
        }
    }

    pub fn make(&mut self, call: Call) -> Outcome {
        match call {
            Call::Append(word) => self.chip.append(word)?,
            Call::Settle => self.chip.settle(),
        }
        Ok(Answer::Done)
    }

    pub fn level(&self) -> Answer {
        Answer::Level(self.chip.count(), self.chip.capacity())
    }

    pub fn count(&self) -> u32 {
        self.chip.count()
    }

    pub fn capacity(&self) -> u32 {
        self.chip.capacity()
    }

    pub fn read(&self, place: u64) -> Outcome {
        // No chip has so many words, so a place past this one gets the same answer.
        let place = u32::try_from(place).unwrap_or(u32::MAX);
        Ok(Answer::Word(self.chip.read_word(place)?))
    }

    pub fn words(&self, heap: Global) -> Result<Vec<u32>, StageFault> {
        (0..self.chip.count())
            .map(|place| self.chip.read_word(place).map_err(StageFault::Refused))
            .try_collect(heap)
    }

    pub fn stores(&self, heap: Global) -> Result<Vec<usize>, StageFault> {
        let mut counts = Vec::new(heap);
        self.chip.note_stores(&mut counts)?;
        Ok(counts)
    }

    pub fn images(&self, heap: Global) -> Result<Vec<Vec<u32>>, StageFault> {
        let mut images = Vec::new(heap);
        self.chip.copy_images(heap, &mut images)?;
        Ok(images)
    }

    pub fn remounted(&self, heap: Global, counts: &[usize]) -> Result<Held<C>, StageFault> {
        Ok(Held::boxed(heap, self.chip.remounted(heap, counts)?)?)
    }

    // The power goes and comes back. No chip is refused then.
    pub fn cut(self, heap: Global) -> Result<Held<C>, AllocError> {
        let Held { chip } = self;
        Held::boxed(heap, Box::into_inner(chip).cut().unwrap())
    }
}
