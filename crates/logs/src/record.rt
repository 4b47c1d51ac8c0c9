// A record as it is read, and where it stands.
ghost use Rattle.std.specs.Prelude.{◌≡◌, ◌≤◌, length, take};
ghost use Rattle.logs.specs.Reading.{in_body};

use crate::fixed_list::FixedList;
use std::fmt;
use std::ops::DerefSlice;
use vector::format::PAYLOADS_OF_A_BODY;

// The chip of a log among the chips of a unit, and the place at which a record starts.
#[derive(Clone, Copy, PartialEq, Eq, Debug)]
pub struct Origin {
    pub chips: u32,
    pub chip: u32,
    pub start: u32,
}

// How many vector words and body words follow a head.
#[derive(Clone, Copy, PartialEq, Eq, Debug)]
pub struct Head {
    pub entries: u32,
    pub payloads: u32,
}

// One place of a vector.
#[derive(Clone, Copy, PartialEq, Eq, Debug)]
pub struct Entry {
    pub chip: u32,
    pub place: u32,
}

// The payloads of a body while they are read.
pub(crate) type Payloads = FixedList<PAYLOADS_OF_A_BODY>;

// A body of up to 16 payloads; the array is 0 behind them. The kit's `ArrayVec` is no `Copy`, and a record is handed on by value.
#[derive(Clone, Copy, PartialEq, Eq)]
pub struct Body {
    pub payloads: [u32; PAYLOADS_OF_A_BODY],
    pub count: usize,
}

impl Body {
    pub(crate) fn of(payloads: Payloads) -> Body
        ensures { result ≡ in_body payloads.items }
    {
        let FixedList {
            cells: payloads,
            len: count,
        } = payloads;
        Body { payloads, count }
    }

    pub fn as_slice(&self) -> &[u32]
        ensures value { result.now ≡ take self.now.count self.now.payloads }
        ensures fits { length result.now ≤ 16 }
    {
        &self.payloads[..self.count.min(PAYLOADS_OF_A_BODY)]
    }

    pub fn len(&self) -> usize
        ensures { result ≡ length (take self.now.count self.now.payloads) }
    {
        self.as_slice().len()
    }
}

impl DerefSlice for Body {
    type Elem = u32;

    ghost deref_gives = { λ body xs. (xs ≡ take body.count body.payloads) × (length xs ≤ 16) };

    fn deref(&self) -> &[u32] {
        self.as_slice()
    }
}

impl fmt::Debug for Body {
    fn fmt<W: fmt::Write>(&self, f: &mut fmt::Formatter<W>) -> fmt::Result {
        fmt::Debug::fmt(self.as_slice(), f)
    }
}

#[derive(Clone, Copy, PartialEq, Eq, Debug)]
pub struct Record {
    // the place behind its last word
    pub end: usize,
    pub vector: [u32; 8],
    pub body: Body,
}
