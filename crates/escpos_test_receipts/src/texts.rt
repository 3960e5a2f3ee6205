//! Long texts, made of parts.

use std::alloc::{AllocError, Global};

/// A first part, a part that comes so many times, and a last one. The error is out of memory.
pub fn joined(
    alloc: Global,
    [first, part, last]: [&str; 3],
    count: usize,
) -> Result<Vec<u8>, AllocError> {
    let mut text = Vec::new(alloc);
    text.extend_from_slice(first.as_bytes())?;
    for _ in 0..count {
        text.extend_from_slice(part.as_bytes())?;
    }
    text.extend_from_slice(last.as_bytes())?;
    Ok(text)
}

/// A text, with this byte after it up to a length. The error is out of memory.
pub fn filled(alloc: Global, first: &[u8], byte: u8, length: usize) -> Result<Vec<u8>, AllocError> {
    let mut text = Vec::new(alloc);
    text.extend_from_slice(first)?;
    text.resize(length, byte)?;
    Ok(text)
}
