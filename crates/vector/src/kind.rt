// What a word of a log is for.
ghost use Rattle.std.specs.Prelude.{◌≡◌};
ghost use Rattle.vector.specs.Kinds.{kind_in, number_of_kind};

use crate::word::kind;

#[derive(Clone, Copy, PartialEq, Eq, Debug)]
pub enum Kind {
    Head,
    Entry,
    Body,
}

impl Kind {
    // The kind of a word; none if its number is no kind's, so that the word is unsound. No `TryFrom`: a word has more in it
    // than its kind, and what is wrong with it is the reader's to say.
    pub fn of(word: u32) -> Option<Kind>
        ensures { result ≡ kind_in word }
    {
        match kind(word) {
            0 => Some(Kind::Head),
            1 => Some(Kind::Entry),
            2 => Some(Kind::Body),
            _ => None,
        }
    }
}

// Part of the format: the numbers of the kinds.
impl From<Kind> for u32 {
    ghost from_gives = { λ kind n. n ≡ number_of_kind kind };

    fn from(kind: Kind) -> u32 {
        match kind {
            Kind::Head => 0,
            Kind::Entry => 1,
            Kind::Body => 2,
        }
    }
}
