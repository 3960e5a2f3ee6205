//! Rows of dots as bytes: eight dots a byte, the leftmost in the highest bit, 1 for black.

ghost use Rattle.std.specs.Prelude.{◌≡◌, ◌+◌, ◌*◌, ◌≤◌, ◌<◌, ◌++◌, length, OnOk, IfOk};
ghost use Rattle.escpos_image.specs.Packing.{bit, packed_byte, row_bytes, row_packed, packed_row, packed_rows};

use crate::dots::DotPicture;
use crate::header::GREATEST;
use std::alloc::{AllocError, Global};

/// The bytes in a row of so many dots.
pub fn row_bytes(width: usize) -> usize
    requires { width ≤ GREATEST }
    ensures { result ≡ row_bytes width }
{
    (width + 7) / 8
}

/// The bytes of so many rows, from this one on.
pub fn packed_rows(
    alloc: Global,
    picture: &DotPicture,
    first: usize,
    rows: usize,
) -> Result<Vec<u8>, AllocError>
    requires inside { first + rows ≤ picture.now.height }
    requires few { picture.now.height ≤ GREATEST }
    ensures { IfOk result (λ bytes. bytes.items ≡ packed_rows picture.now first rows) }
{
    let mut bytes = Vec::new(alloc);
    for j in first..first + rows {
        put_row(picture, j, &mut bytes)?;
    }
    Ok(bytes)
}

// Appends the bytes of row j.
#[tactic(auto, unfolding(crate::specs::Packing::packed_row))]
fn put_row(picture: &DotPicture, j: usize, bytes: &mut Vec<u8>) -> Result<(), AllocError>
    requires { j < picture.now.height }
    ensures { OnOk result (bytes.new.items ≡ bytes.old.items ++ packed_row picture.now j) }
{
    let width = picture.width();
    let start = j * width;
    let row = &picture.dots()[start..start + width];
    put_packed(row, row_bytes(width), bytes)
}

// Appends the first bytes of a row.
fn put_packed(row: &[bool], count: usize, bytes: &mut Vec<u8>) -> Result<(), AllocError>
    requires { count ≤ GREATEST }
    ensures { OnOk result (bytes.new.items ≡ bytes.old.items ++ row_packed row.now count) }
{
    for k in 0..count {
        bytes.push(packed_byte(row, k))?;
    }
    Ok(())
}

// Byte k of a row.
#[tactic(auto, unfolding(crate::specs::Packing::packed_byte))]
fn packed_byte(row: &[bool], k: usize) -> u8
    requires { k ≤ GREATEST }
    ensures { result ≡ packed_byte row.now k }
{
    let start = 8 * k;
    let left = 8 * bit(row, start)
        + 4 * bit(row, start + 1)
        + 2 * bit(row, start + 2)
        + bit(row, start + 3);
    let right = 8 * bit(row, start + 4)
        + 4 * bit(row, start + 5)
        + 2 * bit(row, start + 6)
        + bit(row, start + 7);
    16 * left + right
}

// Dot i of a row, 1 for black.
fn bit(row: &[bool], i: usize) -> u8
    ensures value { result ≡ bit row.now i }
    ensures small { result ≤ 1 }
{
    if i < row.len() && row[i] { 1 } else { 0 }
}
