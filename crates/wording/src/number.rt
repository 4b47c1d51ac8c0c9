// Numbers as a line has them: decimal, or hexadecimal behind 0x.
use crate::misread::Misread;
use std::alloc::Global;

pub fn word(heap: Global, text: &str) -> Result<u32, Misread> {
    u32::try_from(number(heap, text)?).try_map_err(|_| Ok(Misread::NotAWord(String::from_str(
        heap, text,
    )?)))
}

pub fn number(heap: Global, text: &str) -> Result<u64, Misread> {
    value(text).try_ok_or_else(|| Ok(Misread::NotANumber(String::from_str(heap, text)?)))
}

// The number that digits say, in base 16 behind 0x and else in base 10.
pub fn value(text: &str) -> Option<u64> {
    let (digits, base) = match text.strip_prefix("0x") {
        Some(digits) => (digits, 16),
        None => (text, 10),
    };
    // A number has no sign, and the library's reads one.
    if digits.starts_with('+') {
        return None;
    }
    u64::from_str_radix(digits, base).ok()
}
