// What a mount finds if the power goes inside a call, after any of its stores.
//
// A chip over `Traced` memories is a `Staged` chip: its memories note what each store replaced. Around a call,
//
//     chip.note_stores(&mut before)?;
//     chip.append(word);
//     chip.note_stores(&mut after)?;
//     let counts = counts_at(heap, before.as_slice(), after.as_slice(), 3)?;
//     let found = chip.remounted(heap, counts.as_slice())?;
//
// and `found` is the chip that a mount makes of what the memories held after the third store of that Append.
#![tactic(auto)]

pub mod fault;
pub mod moment;
pub mod staged;
pub mod traced;
