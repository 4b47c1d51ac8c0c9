// Chips: logs of 32-bit words that keep what they have settled when the power goes.
//
// A chip is mounted on a memory, and words are appended and settled:
//
//     let mut chip = PageChip::mount(Ram::new(words))?;
//     chip.append(0x30)?;
//     chip.settle();
//     let first = chip.read_word(0)?;
//
// `memory` has the trait of a word memory and `ram` one in RAM; `chip` has the trait of a chip with its laws; `page` and
// `count` implement it, and `choice` implements it for one of two kinds of chip. `refusal` has the refusals and their
// numbers, `words` the numbers that every chip shares.
#![tactic(auto)]

pub mod chip;
pub mod choice;
pub mod count;
pub mod memory;
pub mod page;
pub mod ram;
pub mod refusal;
pub mod words;
