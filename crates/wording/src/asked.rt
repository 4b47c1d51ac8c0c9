// What a line asks of a log or a body: the kind of work, and where it stands.
use crate::draft::read_body;
use crate::misread::Misread;
use crate::number::word;
use crate::pieces::fields_at;
use listing::chosen::Chosen;
use listing::records::Reading;
use std::alloc::Global;
use vector::format::CHIPS;

const MARKS: &str = "cells CELLS chip CHIP of CHIPS";

pub const RECORDS_FORM: &str = "records NAME KIND cells CELLS chip CHIP of CHIPS";

const WORK_FORM: &str = "work KIND cells CELLS BODY..";

// A body that is to be judged at a number of cells.
#[derive(Drop)]
pub struct Question {
    pub kind: Chosen,
    pub cells: u32,
    pub body: Vec<u32>,
}

fn read_kind(heap: Global, text: &str) -> Result<Chosen, Misread> {
    text.parse().try_map_err(|_| Ok(Misread::UnknownWork(String::from_str(heap, text)?)))
}

impl Question {
    pub fn read(heap: Global, pieces: &[String]) -> Result<Question, Misread> {
        let [kind, mark, cells, body @ ..] = pieces else {
            return Err(Misread::Shape(WORK_FORM));
        };
        if mark.as_str() != "cells" {
            return Err(Misread::Shape(WORK_FORM));
        }
        Ok(Question {
            kind: read_kind(heap, kind.as_str())?,
            cells: word(heap, cells.as_str())?,
            body: read_body(heap, body)?,
        })
    }
}

// How a log is to be read.
pub fn read_reading(heap: Global, pieces: &[String]) -> Result<Reading, Misread> {
    let [kind, rest @ ..] = pieces else {
        return Err(Misread::Shape(RECORDS_FORM));
    };
    let kind = read_kind(heap, kind.as_str())?;
    let [cells, chip, chips] = fields_at::<3>(heap, MARKS, RECORDS_FORM, rest)?;
    if chips == 0 || chips as usize > CHIPS {
        return Err(Misread::ChipCount(chips));
    }
    if chip >= chips {
        return Err(Misread::NoSuchChip(chip, chips));
    }
    Ok(Reading {
        kind,
        cells,
        chips,
        chip,
    })
}
