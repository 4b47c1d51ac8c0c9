// The numbers that every chip shares.

// What a word reads as before it is programmed. It cannot be appended.
pub const BLANK: u32 = 0xffff_ffff;

// The most words that a chip has room for.
pub const MOST: usize = 1_048_576;

// The words of a page, which are programmed together.
pub const PAGE: usize = 16;
