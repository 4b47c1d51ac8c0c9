// What is told of a log and of a body.
use crate::show::BodyText;
use listing::judgement::Judgement;
use listing::records::{Listing, Reading};
use logs::record::Record;
use std::alloc::{AllocError, Global};
use std::fmt;
use vector::format::CHIPS;
use work::name::Name;

// A line for each record, and one for where they end.
pub fn lines(heap: Global, reading: Reading, listing: &Listing) -> Result<Vec<String>, AllocError> {
    let mut lines: Vec<String> = listing
        .records
        .iter()
        .map(|record| record_line(heap, reading, record))
        .try_collect(heap)?;
    let ending = listing.ending;
    let line = match listing.records.len() {
        1 => format!(in heap; "1 record, {ending}")?,
        count => format!(in heap; "{count} records, {ending}")?,
    };
    lines.push(line)?;
    Ok(lines)
}

// Only the places of the unit's chips are told.
fn record_line(heap: Global, reading: Reading, record: &Record) -> Result<String, AllocError> {
    let end = record.end;
    let chips = CHIPS.min(reading.chips as usize);
    let places = &record.vector[..chips];
    let body = BodyText {
        kind: reading.kind,
        body: record.body.as_slice(),
    };
    format!(in heap; "end {end}, vector {places:?}, {body}")
}

// A judgement, shown in words.
#[derive(Clone, Copy)]
pub struct JudgementText<'a> {
    pub judgement: &'a Judgement,
}

impl fmt::Display for JudgementText<'_> {
    fn fmt<W: fmt::Write>(&self, f: &mut fmt::Formatter<W>) -> fmt::Result {
        match self.judgement {
            Ok(names) => {
                write!(f, "well formed, names cells")?;
                show_names(names.as_slice(), f)
            }
            Err(fault) => {
                let number = u8::from(*fault);
                write!(f, "cause {number}: {fault}")
            }
        }
    }
}

fn show_names<W: fmt::Write>(names: &[Name], f: &mut fmt::Formatter<W>) -> fmt::Result {
    for (index, name) in names.iter().enumerate() {
        let before = if index == 0 { "" } else { "," };
        write!(f, "{before} {name}")?;
    }
    Ok(())
}
