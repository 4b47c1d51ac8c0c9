// Numbers among the pieces of a line.
use crate::misread::Misread;
use crate::number::word;
use std::alloc::Global;

pub fn words(heap: Global, pieces: &[String]) -> Result<Vec<u32>, Misread> {
    pieces
        .iter()
        .map(|piece| word(heap, piece.as_str()))
        .try_collect(heap)
}

// The numbers that stand where the marks have a name in capitals; all other pieces have to be those of the marks. `form` is what
// the line should look like: the marks, or more where they are only its end.
pub fn numbers_at(
    heap: Global,
    marks: &str,
    form: &'static str,
    pieces: &[String],
) -> Result<Vec<u32>, Misread> {
    let mut numbers = Vec::new(heap);
    for (mark, piece) in marks.split_whitespace().zip(pieces) {
        if is_name(mark) {
            numbers.push(word(heap, piece.as_str())?)?;
        } else if piece.as_str() != mark {
            return Err(Misread::Shape(form));
        }
    }
    if pieces.len() != marks.split_whitespace().count() {
        return Err(Misread::Shape(form));
    }
    Ok(numbers)
}

// The same of marks with N names.
pub(crate) fn fields_at<const N: usize>(
    heap: Global,
    marks: &str,
    form: &'static str,
    pieces: &[String],
) -> Result<[u32; N], Misread> {
    let numbers = numbers_at(heap, marks, form, pieces)?;
    <[u32; N]>::try_from(numbers).map_err(|_| Misread::Shape(form))
}

fn is_name(mark: &str) -> bool {
    mark.starts_with(|c: char| c.is_ascii_uppercase())
}
