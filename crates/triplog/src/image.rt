// Image files: the words of a memory as little-endian bytes, four to a word.
use crate::cause::Cause;
use std::alloc::{AllocError, Global};
use std::fs;

pub fn bytes_of(heap: Global, words: &[u32]) -> Result<Vec<[u8; 4]>, AllocError> {
    words.iter().map(|word| word.to_le_bytes()).collect(heap)
}

pub fn read(rt: &HostRuntime, file: &str) -> Result<Vec<u32>, Cause> {
    let heap = rt.alloc();
    let bytes = fs::read(rt, file).try_map_err(|error| Ok(Cause::Unread(
        String::from_str(heap, file)?,
        error,
    )))?;
    let (fours, rest) = bytes.as_chunks::<4>();
    if !rest.is_empty() {
        return Err(Cause::Ragged(String::from_str(heap, file)?));
    }
    Ok(
        fours
            .iter()
            .map(|four| u32::from_le_bytes(*four))
            .collect(heap)?,
    )
}

// Writes each image to the file of its place. All are written beside their files first, so that none is
// left half written.
pub fn write_all(rt: &HostRuntime, files: &[String], images: &[Vec<u32>]) -> Result<(), Cause> {
    for (file, image) in files.iter().zip(images.iter()) {
        write_part(rt, file.as_str(), image.as_slice())?;
    }
    for file in files {
        put_in_place(rt, file.as_str())?;
    }
    Ok(())
}

fn write_part(rt: &HostRuntime, file: &str, image: &[u32]) -> Result<(), Cause> {
    let heap = rt.alloc();
    let part = format!(in heap; "{file}.part")?;
    let fours = bytes_of(heap, image)?;
    fs::write(rt, part.as_str(), fours.as_flattened()).map_err(|error| Cause::Unwritten(
        part, error,
    ))
}

fn put_in_place(rt: &HostRuntime, file: &str) -> Result<(), Cause> {
    let heap = rt.alloc();
    let part = format!(in heap; "{file}.part")?;
    fs::rename(rt, part.as_str(), file).try_map_err(|error| Ok(Cause::Unwritten(
        String::from_str(heap, file)?,
        error,
    )))
}
