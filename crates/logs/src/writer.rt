// The writer lays out the words of a record: a head, a word for each entry of the vector that is not 0, in rising chip
// number, and a word for each payload of the body.
ghost use Rattle.std.specs.Prelude.{◌≡◌, ◌+◌, ◌≤◌, true, not, ◌++◌, map, length, take, is_ok, ◌==◌};
ghost use Rattle.work.specs.Kinds.{fit_payloads};
ghost use Rattle.logs.specs.RoundTrip.{ReadsBack};
ghost use Rattle.logs.specs.Words.{body_word, entry_words, record_words, fit_places, in_words, write_answer};

use crate::fixed_list::FixedList;
use std::fmt;
use std::ops::DerefSlice;
use thiserror::Error;
use vector::format::{BODY_STEP, PAYLOADS, PAYLOADS_OF_A_BODY, PLACES, WORDS_OF_A_RECORD};
use vector::kind::Kind;
use work::table::payloads_fit;

// The words of one record while they are laid out.
type Laid = FixedList<WORDS_OF_A_RECORD>;

// The words of one record; the array is 0 behind them.
#[derive(Clone, Copy, PartialEq, Eq)]
pub struct Words {
    pub words: [u32; WORDS_OF_A_RECORD],
    pub count: usize,
}

impl Words {
    fn of(words: Laid) -> Words
        ensures { result ≡ in_words words.items }
    {
        let FixedList {
            cells: words,
            len: count,
        } = words;
        Words { words, count }
    }

    pub fn as_slice(&self) -> &[u32]
        ensures value { result.now ≡ take self.now.count self.now.words }
        ensures fits { length result.now ≤ 25 }
    {
        &self.words[..self.count.min(WORDS_OF_A_RECORD)]
    }

    pub fn len(&self) -> usize
        ensures { result ≡ length (take self.now.count self.now.words) }
    {
        self.as_slice().len()
    }
}

impl DerefSlice for Words {
    type Elem = u32;

    ghost deref_gives = { λ words xs. (xs ≡ take words.count words.words) × (length xs ≤ 25) };

    fn deref(&self) -> &[u32] {
        self.as_slice()
    }
}

impl fmt::Debug for Words {
    fn fmt<W: fmt::Write>(&self, f: &mut fmt::Formatter<W>) -> fmt::Result {
        fmt::Debug::fmt(self.as_slice(), f)
    }
}

// Why a vector and a body are no record.
#[derive(Clone, Copy, PartialEq, Eq, Debug, Error)]
pub enum Unwritable {
    #[error("a body has 1 to 16 payloads")]
    BodyLength,
    #[error("a payload has at most 29 bits")]
    WidePayload,
    #[error("a place has at most 26 bits")]
    FarPlace,
}

fn places_fit(vector: [u32; 8]) -> bool
    ensures { result ≡ fit_places vector }
{
    vector.iter().all(|&place| place < PLACES)
}

// Whether a place of a vector has a word.
fn has_word(place: u32) -> bool
    ensures { result ≡ not (place == 0) }
{
    place != 0
}

// How many vector words a vector has.
#[tactic(auto, using(crate::proofs::WriterLaws::entry_words_counted))]
fn entries(vector: [u32; 8]) -> u32
    ensures count { result ≡ length (entry_words 0 vector) }
    ensures few { result ≤ 8 }
{
    vector.iter().filter(|&&place| has_word(place)).count() as u32
}

fn push_entries(words: &mut Laid, vector: [u32; 8])
    requires room { length words.old.items ≤ 17 }
    requires places { fit_places vector ≡ true }
    ensures { words.new.items ≡ words.old.items ++ entry_words 0 vector }
{
    for (chip, &place) in vector.iter().enumerate() {
        if has_word(place) {
            words.push(u32::from(Kind::Entry) * PAYLOADS + chip as u32 * PLACES + place);
        }
    }
}

#[tactic(auto, using(crate::proofs::WriterLaws::payload_fits))]
fn push_payloads(words: &mut Laid, body: &[u32])
    requires room { length words.old.items + length body.now ≤ 25 }
    requires payloads { fit_payloads body.now ≡ true }
    ensures { words.new.items ≡ words.old.items ++ map body_word body.now }
{
    for payload in body {
        words.push(u32::from(Kind::Body) * PAYLOADS + payload);
    }
}

// The words of a record that can be written.
fn laid_out(vector: [u32; 8], body: &[u32]) -> Words
    requires few { length body.now ≤ 16 }
    requires places { fit_places vector ≡ true }
    requires payloads { fit_payloads body.now ≡ true }
    ensures { result ≡ in_words (record_words vector body.now) }
{
    let mut words = Laid::new();
    words.push(entries(vector) + BODY_STEP * body.len() as u32);
    push_entries(&mut words, vector);
    push_payloads(&mut words, body);
    Words::of(words)
}

// The words of a record. Read again, they are its vector and its body.
#[tactic(auto, using(crate::proofs::ReadBack::written_reads_back))]
pub fn write(vector: [u32; 8], body: &[u32]) -> Result<Words, Unwritable>
    ensures answer { result ≡ write_answer vector body.now }
    ensures reads_back { is_ok result ≡ true → ReadsBack vector body.now }
{
    if body.is_empty() || body.len() > PAYLOADS_OF_A_BODY {
        return Err(Unwritable::BodyLength);
    }
    if !payloads_fit(body) {
        return Err(Unwritable::WidePayload);
    }
    if !places_fit(vector) {
        return Err(Unwritable::FarPlace);
    }
    Ok(laid_out(vector, body))
}
