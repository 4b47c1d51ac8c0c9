// The lines of a script.
use crate::cause::Cause;
use listing::records::Reading;
use std::alloc::Global;
use std::fmt;
use wording::asked::{Question, RECORDS_FORM, read_reading};
use wording::draft::Draft;
use wording::number::{number, word};

#[derive(Clone, Copy)]
pub enum Kind {
    Page,
    Count,
}

// What a new chip is mounted on.
#[derive(Drop)]
pub enum Source {
    // a memory of so many words that nothing was written to
    Words(u64),
    Image(String),
}

// A call that can store words.
#[derive(Clone, Copy)]
pub enum Call {
    Append(u32),
    Settle,
}

#[derive(Drop)]
pub enum Command {
    Mount(Kind, String, Source),
    Pair(String, String, String),
    Make(Call, String),
    Read(String, u64),
    Length(String),
    Capacity(String),
    Words(String),
    Save(String, Vec<String>),
    Cut,
    CutAfter(u64, Call, String),
    Cuts(Call, String),
    Record(Draft),
    Records(String, Reading),
    Work(Question),
}

impl fmt::Display for Kind {
    fn fmt<W: fmt::Write>(&self, f: &mut fmt::Formatter<W>) -> fmt::Result {
        match self {
            Kind::Page => write!(f, "page"),
            Kind::Count => write!(f, "count"),
        }
    }
}

impl fmt::Display for Call {
    fn fmt<W: fmt::Write>(&self, f: &mut fmt::Formatter<W>) -> fmt::Result {
        match self {
            Call::Append(_) => write!(f, "append"),
            Call::Settle => write!(f, "settle"),
        }
    }
}

// As the answer repeats it: the call and the chip, without what it is given.
impl fmt::Display for Command {
    fn fmt<W: fmt::Write>(&self, f: &mut fmt::Formatter<W>) -> fmt::Result {
        match self {
            Command::Mount(kind, name, _) => write!(f, "{kind} {name}"),
            Command::Pair(name, _, _) => write!(f, "pair {name}"),
            Command::Make(call, name) => write!(f, "{call} {name}"),
            Command::Read(name, place) => write!(f, "read {name} {place}"),
            Command::Length(name) => write!(f, "length {name}"),
            Command::Capacity(name) => write!(f, "capacity {name}"),
            Command::Words(name) => write!(f, "words {name}"),
            Command::Save(name, _) => write!(f, "save {name}"),
            Command::Cut => write!(f, "cut"),
            Command::CutAfter(stores, call, name) => write!(f, "cut after {stores} {call} {name}"),
            Command::Cuts(call, name) => write!(f, "cuts {call} {name}"),
            Command::Record(_) => write!(f, "record"),
            Command::Records(name, _) => write!(f, "records {name}"),
            Command::Work(_) => write!(f, "work"),
        }
    }
}

// The command of a line; none where it is blank or only a comment, and then nothing is collected.
pub fn parse(heap: Global, line: &str) -> Result<Option<Command>, Cause> {
    let mut pieces = line.split_whitespace();
    let verb = match pieces.next() {
        Some(verb) if !begins_comment(verb) => verb,
        _ => return Ok(None),
    };
    let rest: Vec<String> = pieces
        .take_while(|piece| !begins_comment(piece))
        .map(|piece| String::from_str(heap, piece))
        .try_collect(heap)?;
    Ok(Some(parse_command(heap, verb, rest.as_slice())?))
}

fn begins_comment(piece: &str) -> bool {
    piece.starts_with('#')
}

fn parse_command(heap: Global, verb: &str, rest: &[String]) -> Result<Command, Cause> {
    match verb {
        "page" => parse_mount(heap, Kind::Page, rest),
        "count" => parse_mount(heap, Kind::Count, rest),
        "append" | "settle" => {
            let (call, name) = parse_call(heap, verb, rest)?;
            Ok(Command::Make(call, name))
        }
        "cut" => parse_cut(heap, rest),
        "cuts" => parse_cuts(heap, rest),
        "record" => Ok(Command::Record(Draft::read(heap, rest)?)),
        "work" => Ok(Command::Work(Question::read(heap, rest)?)),
        _ => parse_named(heap, verb, rest),
    }
}

fn parse_mount(heap: Global, kind: Kind, rest: &[String]) -> Result<Command, Cause> {
    let (name, source) = match rest {
        [name, words] => (name, Source::Words(number(heap, words.as_str())?)),
        [name, from, file] if from.as_str() == "from" => (name, Source::Image(file.clone()?)),
        _ => return Err(Cause::Shape(mount_form(kind))),
    };
    Ok(Command::Mount(kind, name.clone()?, source))
}

fn mount_form(kind: Kind) -> &'static str {
    match kind {
        Kind::Page => "page NAME WORDS, or page NAME from FILE",
        Kind::Count => "count NAME WORDS, or count NAME from FILE",
    }
}

fn parse_call(heap: Global, verb: &str, rest: &[String]) -> Result<(Call, String), Cause> {
    match (verb, rest) {
        ("append", [name, text]) => Ok((Call::Append(word(heap, text.as_str())?), name.clone()?)),
        ("append", _) => Err(Cause::Shape("append NAME WORD")),
        ("settle", [name]) => Ok((Call::Settle, name.clone()?)),
        ("settle", _) => Err(Cause::Shape("settle NAME")),
        _ => Err(Cause::Shape("append NAME WORD, or settle NAME")),
    }
}

fn parse_cut(heap: Global, rest: &[String]) -> Result<Command, Cause> {
    match rest {
        [] => Ok(Command::Cut),
        [after, stores, verb, more @ ..] if after.as_str() == "after" => {
            let stores = number(heap, stores.as_str())?;
            let (call, name) = parse_call(heap, verb.as_str(), more)?;
            Ok(Command::CutAfter(stores, call, name))
        }
        _ => Err(Cause::Shape(
            "cut, or cut after STORES append NAME WORD, or cut after STORES settle NAME",
        )),
    }
}

fn parse_cuts(heap: Global, rest: &[String]) -> Result<Command, Cause> {
    let [verb, more @ ..] = rest else {
        return Err(Cause::Shape("cuts append NAME WORD, or cuts settle NAME"));
    };
    let (call, name) = parse_call(heap, verb.as_str(), more)?;
    Ok(Command::Cuts(call, name))
}

// A call that begins with a name and stores nothing.
fn parse_named(heap: Global, verb: &str, rest: &[String]) -> Result<Command, Cause> {
    match (verb, rest) {
        ("pair", [name, first, second]) => Ok(Command::Pair(
            name.clone()?,
            first.clone()?,
            second.clone()?,
        )),
        ("pair", _) => Err(Cause::Shape("pair NAME FIRST SECOND")),
        ("read", [name, place]) => Ok(Command::Read(name.clone()?, number(heap, place.as_str())?)),
        ("read", _) => Err(Cause::Shape("read NAME PLACE")),
        ("length", [name]) => Ok(Command::Length(name.clone()?)),
        ("length", _) => Err(Cause::Shape("length NAME")),
        ("capacity", [name]) => Ok(Command::Capacity(name.clone()?)),
        ("capacity", _) => Err(Cause::Shape("capacity NAME")),
        ("words", [name]) => Ok(Command::Words(name.clone()?)),
        ("words", _) => Err(Cause::Shape("words NAME")),
        ("save", [name, files @ ..]) if !files.is_empty() => {
            let files = files.iter().map(|file| file.clone()).try_collect(heap)?;
            Ok(Command::Save(name.clone()?, files))
        }
        ("save", _) => Err(Cause::Shape("save NAME FILE..")),
        ("records", [name, reading @ ..]) => Ok(Command::Records(
            name.clone()?,
            read_reading(heap, reading)?,
        )),
        ("records", []) => Err(Cause::Shape(RECORDS_FORM)),
        _ => Err(Cause::UnknownCall(String::from_str(heap, verb)?)),
    }
}
