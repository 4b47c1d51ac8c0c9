// A record's body and vector, read from the pieces of a line.
use crate::misread::Misread;
use crate::number::word;
use crate::pieces::{fields_at, words};
use commands::commands::Command;
use commands::operation::Operation;
use listing::field::payloads;
use std::alloc::Global;
use vector::format::CHIPS;

const ADD_FORM: &str = "add AMOUNT to A sender S number N";

const CLOSE_FORM: &str = "close A into B sender S number N";

const LATCH_FORM: &str = "latch A into C if B at least AMOUNT sender S number N";

const SET_FORM: &str = "set CELL VALUE [CELL VALUE]..";

const VECTOR_FORM: &str = "vector PLACE [PLACE].., with up to eight places";

// What a record is written from.
#[derive(Drop)]
pub struct Draft {
    pub vector: [u32; CHIPS],
    pub body: Vec<u32>,
}

impl Draft {
    // A body, and a vector if there is one; else all its places are 0.
    pub fn read(heap: Global, pieces: &[String]) -> Result<Draft, Misread> {
        match pieces.iter().position(|piece| piece.as_str() == "vector") {
            Some(mark) => Ok(Draft {
                body: read_body(heap, &pieces[..mark])?,
                vector: read_vector(heap, &pieces[mark + 1..])?,
            }),
            None => Ok(Draft {
                body: read_body(heap, pieces)?,
                vector: [0; CHIPS],
            }),
        }
    }
}

fn read_vector(heap: Global, pieces: &[String]) -> Result<[u32; CHIPS], Misread> {
    if pieces.is_empty() || pieces.len() > CHIPS {
        return Err(Misread::Shape(VECTOR_FORM));
    }
    let mut vector = [0; CHIPS];
    for (place, piece) in vector.iter_mut().zip(pieces) {
        *place = word(heap, piece.as_str())?;
    }
    Ok(vector)
}

// The payloads of a body.
pub fn read_body(heap: Global, pieces: &[String]) -> Result<Vec<u32>, Misread> {
    let [verb, rest @ ..] = pieces else {
        return Err(Misread::NoBody);
    };
    match verb.as_str() {
        "set" if rest.is_empty() || rest.len() % 2 == 1 => Err(Misread::Shape(SET_FORM)),
        "set" | "raw" => words(heap, rest),
        verb => {
            let command = read_command(heap, verb, pieces)?;
            Ok(payloads(command)?.to_vec(heap)?)
        }
    }
}

fn read_command(heap: Global, verb: &str, pieces: &[String]) -> Result<Command, Misread> {
    match verb {
        "add" => {
            let [amount, a, sender, number] = fields_at::<4>(heap, ADD_FORM, ADD_FORM, pieces)?;
            Ok(Command {
                operation: u32::from(Operation::Add),
                sender,
                number,
                a,
                amount,
                ..Command::default()
            })
        }
        "close" => {
            let [a, b, sender, number] = fields_at::<4>(heap, CLOSE_FORM, CLOSE_FORM, pieces)?;
            Ok(Command {
                operation: u32::from(Operation::Close),
                sender,
                number,
                a,
                b,
                ..Command::default()
            })
        }
        "latch" => {
            let [a, c, b, amount, sender, number] = fields_at::<6>(
                heap, LATCH_FORM, LATCH_FORM, pieces,
            )?;
            Ok(Command {
                operation: u32::from(Operation::Latch),
                sender,
                number,
                a,
                b,
                c,
                amount,
                ..Command::default()
            })
        }
        _ => Err(Misread::NoBody),
    }
}
