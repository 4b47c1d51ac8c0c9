// What the calls of a script answer, and how it is printed.
use chip::refusal::Refusal;
use logs::writer::Unwritable;
use std::fmt;
use thiserror::Error;

#[derive(Drop)]
pub enum Answer {
    Done,
    // how many words are accepted, of how many there is room for
    Level(u32, u32),
    Word(u32),
    Number(u32),
    Words(Vec<u32>),
    Files(usize),
    NoChips,
    Text(String),
}

// Why a call does nothing; the script goes on.
#[derive(Clone, Copy, Debug, Error)]
pub enum Denial {
    #[error("refused {number}: {refusal}", number = u8::from(*.0), refusal = .0)]
    Refused(#[from] Refusal),
    #[error("not written: {0}")]
    NotWritten(#[from] Unwritable),
}

pub type Outcome = Result<Answer, Denial>;

// What is told of a call, and the call.
#[derive(Drop)]
pub struct Reply {
    pub call: String,
    pub answer: Outcome,
}

fn show_words<W: fmt::Write>(words: &[u32], f: &mut fmt::Formatter<W>) -> fmt::Result {
    let [first, rest @ ..] = words else {
        return write!(f, "none");
    };
    write!(f, "{first:08x}")?;
    for word in rest {
        write!(f, " {word:08x}")?;
    }
    Ok(())
}

impl fmt::Display for Answer {
    fn fmt<W: fmt::Write>(&self, f: &mut fmt::Formatter<W>) -> fmt::Result {
        match self {
            Answer::Done => write!(f, "ok"),
            Answer::Level(words, room) => write!(f, "{words} of {room} words"),
            Answer::Word(word) => write!(f, "{word:08x}"),
            Answer::Number(number) => write!(f, "{number}"),
            Answer::Words(words) => show_words(words.as_slice(), f),
            Answer::Files(files) => write!(f, "{files} written"),
            Answer::NoChips => write!(f, "no chips"),
            Answer::Text(text) => write!(f, "{text}"),
        }
    }
}

impl fmt::Display for Reply {
    fn fmt<W: fmt::Write>(&self, f: &mut fmt::Formatter<W>) -> fmt::Result {
        let call = &self.call;
        match &self.answer {
            Ok(answer) => write!(f, "{call}: {answer}"),
            Err(denial) => write!(f, "{call}: {denial}"),
        }
    }
}
