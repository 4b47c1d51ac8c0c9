// The numbers that all kinds of work share.

// The largest value of a cell.
pub const TOP: u32 = 0x1fff_ffff;
