// The records of a log, one behind the other.
ghost use Rattle.std.specs.Prelude.{◌≡◌, ◌<◌, [], IfOk, MatchResult};
ghost use Rattle.listing.specs.declared.records.Ending.TheVariants.{Damaged};
ghost use Rattle.listing.specs.Listings.{Listed, Stands};

use crate::chosen::Chosen;
use logs::fault::RecordFault;
use logs::reader::read;
use logs::record::{Origin, Record};
use std::alloc::{AllocError, Global};
use std::fmt;

// How a log is read: its kind of work, the number of cells, and its chip among the chips of a unit. The chips stand here and
// not in an `Origin`, which names a start too and is made anew for each record.
#[derive(Clone, Copy, PartialEq, Eq, Debug)]
pub struct Reading {
    pub kind: Chosen,
    pub cells: u32,
    pub chips: u32,
    pub chip: u32,
}

// Where the records end.
#[derive(Clone, Copy, PartialEq, Eq, Debug)]
pub enum Ending {
    AllRead,
    // the words run out in the record that starts at this place
    RunsOut(usize),
    // a place of more than 32 bits, where no record is read; no chip has so many words
    TooFar(usize),
    Damaged(RecordFault),
}

impl From<RecordFault> for Ending {
    ghost from_gives = { λ fault ending. ending ≡ Damaged fault };

    fn from(fault: RecordFault) -> Ending {
        Ending::Damaged(fault)
    }
}

impl fmt::Display for Ending {
    fn fmt<W: fmt::Write>(&self, f: &mut fmt::Formatter<W>) -> fmt::Result {
        match self {
            Ending::AllRead => write!(f, "all words read"),
            Ending::RunsOut(place) => write!(f, "the words from place {place} on run out"),
            Ending::TooFar(place) => write!(f, "place {place} is too far to be read"),
            Ending::Damaged(damage) => write!(f, "damaged at {damage}"),
        }
    }
}

#[derive(Drop)]
pub struct Listing {
    pub records: Vec<Record>,
    pub ending: Ending,
}

impl Reading {
    // The record that starts at a place, or why none does.
    fn record_at(self, start: usize, words: &[u32]) -> Result<Record, Ending>
        ensures stands { MatchResult result (Stands self words.now start) (Listed self words.now start []) }
        ensures behind { IfOk result (λ r. start < r.end) }
    {
        if start >= words.len() {
            return Err(Ending::AllRead);
        }
        let Ok(place) = u32::try_from(start) else {
            return Err(Ending::TooFar(start));
        };
        let origin = Origin {
            chips: self.chips,
            chip: self.chip,
            start: place,
        };
        let record = read(&self.kind, self.cells, origin, &words[start..])?;
        record.ok_or(Ending::RunsOut(start))
    }
}

impl Listing {
    pub fn of(heap: Global, reading: Reading, words: &[u32]) -> Result<Listing, AllocError>
        ensures { IfOk result (λ l. Listed reading words.now 0 l.records.items l.ending) }
    {
        let mut records = Vec::new(heap);
        // No range and no chain: where the next record starts is known only once this one is read.
        let mut start = 0;
        loop {
            match reading.record_at(start, words) {
                Ok(record) => {
                    start = record.end;
                    records.push(record)?;
                }
                Err(ending) => return Ok(Listing { records, ending }),
            }
        }
    }
}
