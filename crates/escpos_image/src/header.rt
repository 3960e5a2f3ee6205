//! The header of a picture: its format, its size, the greatest sample value, and where the samples begin.

ghost use Rattle.std.specs.Prelude.{◌≡◌, ◌+◌, ◌≤◌, length, IfOk, IfErr, IfSome};
ghost use Rattle.escpos_image.specs.Faults.{IsPlaced};
ghost use Rattle.escpos_image.specs.Headers.{format_numbered, format_of, layout_of, is_colour, has_maximum, is_plain, field_at, size_at, maximum_at, samples_start, header_of, IsHeader, IsField};

use crate::fault::ImageFault;
use crate::scan::{Number, is_blank, number_at};

/// The greatest width, height and sample value.
pub const GREATEST: usize = 65_535;

const _: () = prove!(GREATEST == 65_535);

/// The formats P1 to P6. Of the plain ones the samples are written as text.
#[derive(Clone, Copy, Debug, PartialEq, Eq)]
pub enum Format {
    /// P1.
    PlainBitmap,
    /// P2.
    PlainGray,
    /// P3.
    PlainColour,
    /// P4.
    RawBitmap,
    /// P5.
    RawGray,
    /// P6.
    RawColour,
}

/// How samples are written.
#[derive(Clone, Copy, Debug, PartialEq, Eq)]
pub enum Layout {
    /// Each as a digit, 1 for black, after a gap that may be empty.
    Digits,
    /// Each as a number in decimal, after a gap.
    Numbers,
    /// Each as a bit, 1 for black, the highest of a byte first; rows begin with a byte.
    Bits,
    /// Each as a byte.
    Bytes,
    /// Each as two bytes, the more significant first.
    Pairs,
}

/// What the samples of a picture mean, and where they begin.
#[derive(Clone, Copy, Debug, PartialEq, Eq)]
pub struct Header {
    /// How they are written.
    pub layout: Layout,
    /// Whether three of them, red, green and blue, are one dot.
    pub is_colour: bool,
    /// The dots in each row, 1 to 65,535.
    pub width: usize,
    /// The rows, 1 to 65,535.
    pub height: usize,
    /// The value that stands for white, or for all light of a colour: 1 to 65,535.
    pub maximum: usize,
    /// The place after the header.
    pub start: usize,
}

/// Reads the header of a picture.
pub fn read_header(bytes: &[u8]) -> Result<Header, ImageFault>
    ensures value { result ≡ header_of bytes.now }
    ensures in_range { IfOk result (λ header. IsHeader header) }
    ensures within { IfOk result (λ header. header.start ≤ length bytes.now) }
    ensures placed { IfErr result (IsPlaced bytes.now) }
{
    let Some(format) = format_of(bytes) else {
        return Err(ImageFault::NotPicture);
    };
    let width = size_at(bytes, 2)?;
    let height = size_at(bytes, width.end)?;
    let maximum = maximum_at(format, bytes, height.end)?;
    let start = samples_start(format, bytes, maximum.end)?;
    Ok(Header {
        layout: layout_of(format, maximum.value),
        is_colour: is_colour(format),
        width: width.value,
        height: height.value,
        maximum: maximum.value,
        start,
    })
}

// The format that the first two bytes name.
fn format_of(bytes: &[u8]) -> Option<Format>
    ensures value { result ≡ format_of bytes.now }
    ensures within { IfSome result (λ _. 2 ≤ length bytes.now) }
{
    if bytes.len() < 2 || bytes[0] != b'P' {
        return None;
    }
    format_numbered(bytes[1])
}

// The format with this digit.
fn format_numbered(digit: u8) -> Option<Format>
    ensures { result ≡ format_numbered digit }
{
    match digit {
        b'1' => Some(Format::PlainBitmap),
        b'2' => Some(Format::PlainGray),
        b'3' => Some(Format::PlainColour),
        b'4' => Some(Format::RawBitmap),
        b'5' => Some(Format::RawGray),
        b'6' => Some(Format::RawColour),
        _ => None,
    }
}

// How the samples are written, where this is the greatest.
fn layout_of(format: Format, maximum: usize) -> Layout
    ensures { result ≡ layout_of format maximum }
{
    match format {
        Format::PlainBitmap => Layout::Digits,
        Format::PlainGray | Format::PlainColour => Layout::Numbers,
        Format::RawBitmap => Layout::Bits,
        Format::RawGray | Format::RawColour => {
            if maximum < 256 {
                Layout::Bytes
            } else {
                Layout::Pairs
            }
        }
    }
}

// Whether three samples are one dot.
fn is_colour(format: Format) -> bool
    ensures { result ≡ is_colour format }
{
    matches!(format, Format::PlainColour | Format::RawColour)
}

// Whether the header names the greatest sample value.
fn has_maximum(format: Format) -> bool
    ensures { result ≡ has_maximum format }
{
    !matches!(format, Format::PlainBitmap | Format::RawBitmap)
}

// Whether the samples are text.
fn is_plain(format: Format) -> bool
    ensures { result ≡ is_plain format }
{
    matches!(
        format,
        Format::PlainBitmap | Format::PlainGray | Format::PlainColour
    )
}

// The number after the gap at this place.
fn field_at(bytes: &[u8], at: usize) -> Result<Number, ImageFault>
    requires { at ≤ length bytes.now }
    ensures value { result ≡ field_at bytes.now at }
    ensures within { IfOk result (λ number. number.end ≤ length bytes.now) }
    ensures placed { IfErr result (IsPlaced bytes.now) }
{
    let number = number_at(bytes, at);
    if number.start == bytes.len() {
        return Err(ImageFault::CutShort { at: number.start });
    }
    if number.start == at || number.end == number.start {
        return Err(ImageFault::BadHeader { at: number.start });
    }
    Ok(number)
}

// The width or height after the gap at this place.
fn size_at(bytes: &[u8], at: usize) -> Result<Number, ImageFault>
    requires { at ≤ length bytes.now }
    ensures value { result ≡ size_at bytes.now at }
    ensures field { IfOk result (IsField bytes.now) }
    ensures placed { IfErr result (IsPlaced bytes.now) }
{
    let number = field_at(bytes, at)?;
    if !matches!(number.value, 1..=GREATEST) {
        return Err(ImageFault::BadSize { at: number.start });
    }
    Ok(number)
}

// The greatest sample value after the gap at this place, or 1 where the header of the format names none.
fn maximum_at(format: Format, bytes: &[u8], at: usize) -> Result<Number, ImageFault>
    requires { at ≤ length bytes.now }
    ensures value { result ≡ maximum_at format bytes.now at }
    ensures field { IfOk result (IsField bytes.now) }
    ensures placed { IfErr result (IsPlaced bytes.now) }
{
    if !has_maximum(format) {
        return Ok(Number {
            start: at,
            end: at,
            value: 1,
        });
    }
    let number = field_at(bytes, at)?;
    if !matches!(number.value, 1..=GREATEST) {
        return Err(ImageFault::BadMaximum { at: number.start });
    }
    Ok(number)
}

// Where the samples begin, if the last number of the header ends here: one blank comes before those that aren't text.
fn samples_start(format: Format, bytes: &[u8], at: usize) -> Result<usize, ImageFault>
    requires { at ≤ length bytes.now }
    ensures value { result ≡ samples_start format bytes.now at }
    ensures within { IfOk result (λ start. start ≤ length bytes.now) }
    ensures placed { IfErr result (IsPlaced bytes.now) }
{
    if is_plain(format) {
        return Ok(at);
    }
    if at == bytes.len() {
        return Err(ImageFault::CutShort { at });
    }
    if !is_blank(bytes[at]) {
        return Err(ImageFault::BadHeader { at });
    }
    Ok(at + 1)
}
