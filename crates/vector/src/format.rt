// The numbers of the log format, for the code of every crate. specs/Format.antt has those that contracts cite by name.

// A word is a kind in its top three bits and a payload in the 29 below: how many payloads there are.
pub const PAYLOADS: u32 = 0x2000_0000;

// A head counts its vector words in the low four bits and its body words in the next five; all higher bits are clear.
pub const BODY_STEP: u32 = 16;

// A vector word has its place in the low 26 bits and its chip in the three above.
pub const PLACES: u32 = 0x0400_0000;

// The most chips, so the places of a vector and the most vector words of a record.
pub const CHIPS: usize = 8;

// The most body words of a record.
pub const PAYLOADS_OF_A_BODY: usize = 16;

// The most words of a record: a head, 8 vector words and 16 body words.
pub const WORDS_OF_A_RECORD: usize = 25;
