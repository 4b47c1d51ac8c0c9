// A word of a log: a kind in its top three bits and a payload in the other 29.
ghost use Rattle.std.specs.Prelude.{◌≡◌};
ghost use Rattle.vector.specs.Format.{kind_of, payload_of};

use crate::format::PAYLOADS;

// The number of a word's kind, whether it is one that words have or not.
pub fn kind(word: u32) -> u32
    ensures { result ≡ kind_of word }
{
    word / PAYLOADS
}

pub fn payload(word: u32) -> u32
    ensures { result ≡ payload_of word }
{
    word % PAYLOADS
}
