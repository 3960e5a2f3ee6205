//! A picture as entries of a receipt's text in JSON.

ghost use Rattle.std.specs.Prelude.{◌≡◌, ◌+◌, ◌*◌, ◌≤◌, ◌<◌, ◌++◌, length, OnOk, IfOk, decimal};
ghost use Rattle.escpos_image.specs.Entries.{band_count, band_rows, raster_entry, line_end, entry_line, entries_text};

use crate::blackening::blacken;
use crate::dots::DotPicture;
use crate::header::GREATEST;
use crate::packing::{packed_rows, row_bytes};
use escpos_command::HIGHEST;
use itoa::Buffer;
use std::alloc::{AllocError, Global};

impl DotPicture {
    /// The picture as entries of a receipt's text in JSON, each a raster of at most 4,095 rows, in order: an entry a line, with a
    /// comma after each but the last. In a byte that would end a real-time command, which a printer would carry out, one white dot is
    /// black.
    ///
    /// A receipt takes them if the picture is at most 1,024 dots wide. Fails only if an allocation does.
    #[tactic(auto, unfolding(crate::specs::Entries::entries_text))]
    pub fn entries(&self, alloc: Global) -> Result<Vec<u8>, AllocError>
        ensures { IfOk result (λ text. text.items ≡ entries_text self.now) }
    {
        let mut text = Vec::new(alloc);
        for b in 0..band_count(self.height()) {
            put_entry(alloc, self, b, &mut text)?;
        }
        Ok(text)
    }
}

// Appends the entry of band b and the end of its line.
#[tactic(auto, unfolding(crate::specs::Entries::entry_line))]
fn put_entry(
    alloc: Global,
    picture: &DotPicture,
    b: usize,
    text: &mut Vec<u8>,
) -> Result<(), AllocError>
    requires { b < band_count picture.now.height }
    ensures { OnOk result (text.new.items ≡ text.old.items ++ entry_line picture.now b) }
{
    let rows = band_rows(picture.height(), b);
    let mut dots = packed_rows(alloc, picture, b * usize::from(HIGHEST), rows)?;
    blacken(rows, &mut dots);
    put_raster(
        alloc,
        row_bytes(picture.width()),
        rows,
        dots.as_slice(),
        text,
    )?;
    text.extend_from_slice(line_end(band_count(picture.height()), b))?;
    Ok(())
}

// Appends a raster of `x` bytes a row and `y` rows.
#[tactic(auto, unfolding(crate::specs::Entries::raster_entry))]
fn put_raster(
    alloc: Global,
    x: usize,
    y: usize,
    dots: &[u8],
    text: &mut Vec<u8>,
) -> Result<(), AllocError>
    ensures { OnOk result (text.new.items ≡ text.old.items ++ raster_entry x y dots.now) }
{
    let digits = hex::encode(alloc, dots)?;
    text.extend_from_slice(b"{\"raster\":{\"scale\":\"normal\",\"x\":")?;
    put_number(x, text)?;
    text.extend_from_slice(b",\"y\":")?;
    put_number(y, text)?;
    text.extend_from_slice(b",\"dots\":\"")?;
    text.extend_from_slice(digits.as_bytes())?;
    text.extend_from_slice(b"\"}}")?;
    Ok(())
}

// Appends a number in decimal.
fn put_number(number: usize, text: &mut Vec<u8>) -> Result<(), AllocError>
    ensures { OnOk result (text.new.items ≡ text.old.items ++ decimal number) }
{
    let mut buffer = Buffer::new();
    text.extend_from_slice(buffer.format(number).as_bytes())
}

// How many bands so many rows make.
fn band_count(rows: usize) -> usize
    requires { rows ≤ GREATEST }
    ensures { result ≡ band_count rows }
{
    (rows + (usize::from(HIGHEST) - 1)) / usize::from(HIGHEST)
}

// How many rows band b has, of so many in all.
fn band_rows(rows: usize, b: usize) -> usize
    requires few { rows ≤ GREATEST }
    requires inside { b < band_count rows }
    ensures value { result ≡ band_rows rows b }
    ensures within { b * HIGHEST + result ≤ rows }
    ensures most { result ≤ HIGHEST }
    ensures some { 1 ≤ result }
{
    usize::from(HIGHEST).min(rows - b * usize::from(HIGHEST))
}

// What ends the line of entry b of so many.
fn line_end(count: usize, b: usize) -> &'static [u8]
    requires { b < count }
    ensures { result.now ≡ line_end count b }
{
    if b + 1 == count { b"\n" } else { b",\n" }
}
