// The reader takes the words of one record in turn, and stops at the first that is unsound.
ghost use Rattle.std.specs.Prelude.{◌≡◌, ◌≤◌, Ok, OnOk};
ghost use Rattle.vector.specs.Format.{payload_of};
ghost use Rattle.vector.specs.Kinds.{number_of_kind};
ghost use Rattle.logs.specs.RoundTrip.{OnlyWritten};
ghost use Rattle.logs.specs.Reading.{and_then, of_kind, fault_of, head_of, entry_of, payload_in, body_fault, parts_read, record_read, read_answer, in_record};

use crate::fault::{Cause, RecordFault, Stop};
use crate::record::{Body, Entry, Head, Origin, Payloads, Record};
use vector::format::{BODY_STEP, CHIPS, PAYLOADS_OF_A_BODY, PLACES};
use vector::kind::Kind;
use vector::word::payload;
use work::kind::Work;

fn fault_of(origin: Origin, place: usize, cause: Cause) -> RecordFault
    ensures { result ≡ fault_of origin place cause }
{
    RecordFault {
        chip: origin.chip,
        place,
        cause,
    }
}

// The payload of a word of this kind; a word of another kind is `none`.
fn payload_of_kind(word: u32, expected: Kind, none: Cause) -> Result<u32, Cause>
    ensures { result ≡ of_kind (number_of_kind expected) none word (Ok (payload_of word)) }
{
    match Kind::of(word) {
        None => Err(Cause::UnknownKind),
        Some(kind) if kind == expected => Ok(payload(word)),
        Some(_) => Err(none),
    }
}

// What a word says as a head.
fn head_in(word: u32) -> Result<Head, Cause>
    ensures { result ≡ head_of word }
{
    let payload = payload_of_kind(word, Kind::Head, Cause::NoHead)?;
    let entries = payload % BODY_STEP;
    let payloads = payload / BODY_STEP;
    if entries <= CHIPS as u32 && payloads > 0 && payloads <= PAYLOADS_OF_A_BODY as u32 {
        Ok(Head { entries, payloads })
    } else {
        Err(Cause::BadHead)
    }
}

// What a word says as a vector word whose chip is `low` or a later one.
fn entry_in(origin: Origin, low: u32, word: u32) -> Result<Entry, Cause>
    ensures { result ≡ entry_of origin low word }
{
    let payload = payload_of_kind(word, Kind::Entry, Cause::NoEntry)?;
    let chip = payload / PLACES;
    let place = payload % PLACES;
    if chip < low || chip >= origin.chips || place == 0 {
        return Err(Cause::BadEntry);
    }
    if chip == origin.chip && place > origin.start {
        return Err(Cause::OwnEntry);
    }
    Ok(Entry { chip, place })
}

// A reader borrows the log's words from a record's start on, and knows how many of them it has passed.
#[derive(Drop)]
pub struct Reader<'a> {
    words: &'a [u32],
    origin: Origin,
    at: usize,
}

impl<'a> Reader<'a> {
    ghost use Rattle.logs.specs.Readers.{next_of, IsPart, vector_of, body_of, moved, passed};

    pub fn new(origin: Origin, words: &'a [u32]) -> Reader<'a>
        ensures words { result.words.now ≡ words.now }
        ensures origin { result.origin ≡ origin }
        ensures at { result.at ≡ 0 }
    {
        Reader {
            words,
            origin,
            at: 0,
        }
    }

    // Passes the next word if it is judged sound; else it is a fault there.
    fn part<T, F: FnOnce(u32) -> Result<T, Cause>>(&mut self, judge: F) -> Result<T, Stop>
        requires { F.IsAlwaysCallable judge }
        ensures answer { IsPart self.old (F.post judge) result }
        ensures after { self.new ≡ passed self.old result }
    {
        let word = *self.words.get(self.at).ok_or(Stop::RunsOut)?;
        let place = self.origin.start as usize + self.at;
        let part = judge(word).map_err(|cause| fault_of(self.origin, place, cause))?;
        self.at += 1;
        Ok(part)
    }

    pub fn head(&mut self) -> Result<Head, Stop>
        ensures answer { result ≡ next_of self.old head_of }
        ensures after { self.new ≡ passed self.old result }
    {
        self.part(head_in)
    }

    // The next vector word, whose chip has to be `low` or a later one.
    pub fn entry(&mut self, low: u32) -> Result<Entry, Stop>
        ensures answer { result ≡ next_of self.old (entry_of self.old.origin low) }
        ensures after { self.new ≡ passed self.old result }
    {
        let origin = self.origin;
        self.part(|word| entry_in(origin, low, word))
    }

    // The payload of the next body word.
    pub fn payload(&mut self) -> Result<u32, Stop>
        ensures answer { result ≡ next_of self.old payload_in }
        ensures after { self.new ≡ passed self.old result }
    {
        self.part(|word| payload_of_kind(word, Kind::Body, Cause::NoPayload))
    }

    // The vector of so many vector words.
    fn vector(&mut self, count: u32) -> Result<[u32; 8], Stop>
        ensures answer { result ≡ vector_of self.old count }
        ensures after { OnOk result (self.new ≡ moved self.old count) }
    {
        let mut vector = [0; 8];
        let mut low = 0;
        for _ in 0..count {
            let entry = self.entry(low)?;
            vector[entry.chip as usize] = entry.place;
            low = entry.chip + 1;
        }
        Ok(vector)
    }

    // The body of so many body words.
    fn body(&mut self, count: u32) -> Result<Body, Stop>
        requires { count ≤ 16 }
        ensures answer { result ≡ body_of self.old count }
        ensures after { OnOk result (self.new ≡ moved self.old count) }
    {
        let mut body = Payloads::new();
        for _ in 0..count {
            body.push(self.payload()?);
        }
        Ok(Body::of(body))
    }
}

// The parts of the record at the front of the words, its body not judged yet.
fn read_parts(origin: Origin, words: &[u32]) -> Result<Record, Stop>
    ensures { result ≡ and_then (parts_read origin words.now) (λ f. Ok (in_record f)) }
{
    let mut reader = Reader::new(origin, words);
    let head = reader.head()?;
    let vector = reader.vector(head.entries)?;
    let body = reader.body(head.payloads)?;
    Ok(Record {
        end: origin.start as usize + reader.at,
        vector,
        body,
    })
}

// A bad body is a fault of its record.
fn judge_body<W: Work>(work: &W, cells: u32, body: &[u32]) -> Result<(), Cause>
    ensures { result ≡ body_fault ((W.Work.kind work.now).judged body.now cells) }
{
    work.judge(body, cells)?;
    Ok(())
}

// The record at the front of the words, or why there is none. The fault of a body stands at the record's head.
fn read_record<W: Work>(work: &W, cells: u32, origin: Origin, words: &[u32]) -> Result<Record, Stop>
    ensures { result ≡ and_then (record_read (W.Work.kind work.now) cells origin words.now) (λ f. Ok (in_record f)) }
{
    let record = read_parts(origin, words)?;
    let head = origin.start as usize;
    judge_body(work, cells, &record.body).map_err(|cause| fault_of(origin, head, cause))?;
    Ok(record)
}

// What a log has where a record should start: a record, none since the words run out, or a fault.
// The kind of work and the number of cells come apart, as judge takes them: a struct of both would be taken apart at once.
#[tactic(auto, using(crate::proofs::WrittenOnly::only_written))]
pub fn read<W: Work>(
    work: &W,
    cells: u32,
    origin: Origin,
    words: &[u32],
) -> Result<Option<Record>, RecordFault>
    ensures answer { result ≡ read_answer (W.Work.kind work.now) cells origin words.now }
    ensures only_written { OnlyWritten (W.Work.kind work.now) cells origin words.now }
{
    match read_record(work, cells, origin, words) {
        Ok(record) => Ok(Some(record)),
        Err(Stop::RunsOut) => Ok(None),
        Err(Stop::Fault(fault)) => Err(fault),
    }
}
