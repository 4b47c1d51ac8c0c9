// Records of a log: a head, the words of a vector and the words of a body.
//
//     let words = write([4, 0, 0, 0, 0, 0, 0, 0], &body)?;
//     let origin = Origin { chips: 2, chip: 1, start: 0 };
//     match read(&Commands, 256, origin, log)? {
//         Some(record) => { .. record.end .. }
//         None => { .. the words run out .. }
//     }
//
// `writer` lays a record out, `reader` goes through the words of one, `record` has what is read, `fault` what can be wrong
// with a log's words.
#![tactic(auto)]

pub mod fault;
mod fixed_list;
pub mod reader;
pub mod record;
pub mod writer;
