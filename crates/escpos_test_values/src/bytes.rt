//! Bytes of a stream.

use escpos_command::MarkId;
use std::alloc::{AllocError, Global};

/// Bytes in three parts: a first one, a byte so many times, and a last one.
pub type Stream<'a> = (&'a [u8], u8, usize, &'a [u8]);

/// The bytes of these parts. The error is out of memory.
pub fn bytes_of(alloc: Global, (first, byte, times, last): Stream) -> Result<Vec<u8>, AllocError> {
    let mut bytes = Vec::new(alloc);
    bytes.extend_from_slice(first)?;
    bytes.resize(first.len().saturating_add(times), byte)?;
    bytes.extend_from_slice(last)?;
    Ok(bytes)
}

/// Appends the bytes of the mark of this number; `None` if there is no such mark, or an allocation fails.
pub fn append_mark(bytes: &mut Vec<u8>, number: u32) -> Option<()> {
    let id = MarkId::of_number(number)?;
    bytes.extend_from_slice(b"\x1D(H\x06\x0000").ok()?;
    bytes.extend_from_slice(&id.bytes()).ok()
}

/// The bytes of the marks of these numbers; `None` if one is no mark's number, or an allocation fails.
pub fn marks(alloc: Global, numbers: &[u32]) -> Option<Vec<u8>> {
    let mut bytes = Vec::new(alloc);
    for number in numbers {
        append_mark(&mut bytes, *number)?;
    }
    Some(bytes)
}
