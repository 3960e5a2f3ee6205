//! The samples of a picture, one after another, and the dots that they make.

ghost use Rattle.std.specs.Prelude.{◌≡◌, ◌+◌, ◌*◌, ◌/◌, ◌≤◌, ◌<◌, length, IfOk, IfErr};
ghost use Rattle.escpos_image.specs.Faults.{IsPlaced};
ghost use Rattle.escpos_image.specs.declared.fault.ImageFault.TheVariants.{BadSample};
ghost use Rattle.escpos_image.specs.Headers.{IsHeader};
ghost use Rattle.escpos_image.specs.Samples.{gray, checked, digit_at, plain_at, bit_at, bit_of, after_bit, byte_at, pair_at, sample_at, luma, colour_at, dot_at};

use crate::fault::ImageFault;
use crate::header::{GREATEST, Header, Layout};
use crate::scan::{gap_length, number_at};

/// The gray value of white.
pub const WHITE: usize = 255;

const _: () = prove!(WHITE == 255);

/// The weights of red, green and blue in a gray value, by Rec. 601, and their sum.
const RED: usize = 299;

const GREEN: usize = 587;

const BLUE: usize = 114;

const ALL_COLOURS: usize = 1000;

const _: () = prove!(RED == 299 && GREEN == 587 && BLUE == 114 && ALL_COLOURS == 1000);

/// A value, of a sample or of a dot, and the place after it.
#[derive(Clone, Copy, Debug, PartialEq, Eq)]
pub struct Sample {
    /// The value.
    pub value: usize,
    /// The place where the next one begins.
    pub next: usize,
}

/// The gray value, 0 for black to 255 for white, of the dot at this place, which stands in this column.
#[tactic(auto, unfolding(crate::specs::Samples::dot_at))]
pub fn dot_at(header: &Header, bytes: &[u8], at: usize, column: usize) -> Result<Sample, ImageFault>
    requires header { IsHeader header.now }
    requires within { at ≤ length bytes.now }
    ensures value { result ≡ dot_at header.now bytes.now at column }
    ensures gray { IfOk result (λ dot. dot.value ≤ WHITE) }
    ensures next { IfOk result (λ dot. dot.next ≤ length bytes.now) }
    ensures placed { IfErr result (IsPlaced bytes.now) }
{
    if header.is_colour {
        return colour_at(header, bytes, at, column);
    }
    let sample = sample_at(header, bytes, at, column)?;
    Ok(Sample {
        value: gray(header.maximum, sample.value),
        next: sample.next,
    })
}

// The gray value of a dot of three samples.
fn colour_at(header: &Header, bytes: &[u8], at: usize, column: usize) -> Result<Sample, ImageFault>
    requires header { IsHeader header.now }
    requires within { at ≤ length bytes.now }
    ensures value { result ≡ colour_at header.now bytes.now at column }
    ensures gray { IfOk result (λ dot. dot.value ≤ WHITE) }
    ensures next { IfOk result (λ dot. dot.next ≤ length bytes.now) }
    ensures placed { IfErr result (IsPlaced bytes.now) }
{
    let red = sample_at(header, bytes, at, column)?;
    let green = sample_at(header, bytes, red.next, column)?;
    let blue = sample_at(header, bytes, green.next, column)?;
    Ok(Sample {
        value: gray(
            ALL_COLOURS * header.maximum,
            luma(red.value, green.value, blue.value),
        ),
        next: blue.next,
    })
}

// How light three samples are together.
fn luma(red: usize, green: usize, blue: usize) -> usize
    requires red { red ≤ GREATEST }
    requires green { green ≤ GREATEST }
    requires blue { blue ≤ GREATEST }
    ensures { result ≡ luma red green blue }
{
    RED * red + GREEN * green + BLUE * blue
}

// The gray value of so much light, where `most` is white.
fn gray(most: usize, light: usize) -> usize
    requires some { 0 < most }
    requires few { most ≤ ALL_COLOURS * GREATEST }
    requires within { light ≤ most }
    ensures value { result ≡ gray most light }
    ensures range { result ≤ WHITE }
{
    WHITE * light / most
}

// The sample at this place, of a dot in this column.
#[tactic(auto, unfolding(crate::specs::Samples::sample_at))]
fn sample_at(header: &Header, bytes: &[u8], at: usize, column: usize) -> Result<Sample, ImageFault>
    requires header { IsHeader header.now }
    requires within { at ≤ length bytes.now }
    ensures value { result ≡ sample_at header.now bytes.now at column }
    ensures most { IfOk result (λ sample. sample.value ≤ header.now.maximum) }
    ensures next { IfOk result (λ sample. sample.next ≤ length bytes.now) }
    ensures placed { IfErr result (IsPlaced bytes.now) }
{
    match header.layout {
        Layout::Digits => digit_at(bytes, at),
        Layout::Numbers => plain_at(header.maximum, bytes, at),
        Layout::Bits => bit_at(header.width, bytes, at, column),
        Layout::Bytes => byte_at(header.maximum, bytes, at),
        Layout::Pairs => pair_at(header.maximum, bytes, at),
    }
}

// The sample of a plain bitmap: 1 is black.
fn digit_at(bytes: &[u8], at: usize) -> Result<Sample, ImageFault>
    requires { at ≤ length bytes.now }
    ensures value { result ≡ digit_at bytes.now at }
    ensures most { IfOk result (λ sample. sample.value ≤ 1) }
    ensures next { IfOk result (λ sample. sample.next ≤ length bytes.now) }
    ensures placed { IfErr result (IsPlaced bytes.now) }
{
    let start = at + gap_length(&bytes[at..]);
    if start == bytes.len() {
        return Err(ImageFault::CutShort { at: start });
    }
    let next = start + 1;
    match bytes[start] {
        b'0' => Ok(Sample { value: 1, next }),
        b'1' => Ok(Sample { value: 0, next }),
        _ => Err(ImageFault::BadSample { at: start }),
    }
}

// The sample that is written as a number.
fn plain_at(maximum: usize, bytes: &[u8], at: usize) -> Result<Sample, ImageFault>
    requires { at ≤ length bytes.now }
    ensures value { result ≡ plain_at maximum bytes.now at }
    ensures most { IfOk result (λ sample. sample.value ≤ maximum) }
    ensures next { IfOk result (λ sample. sample.next ≤ length bytes.now) }
    ensures placed { IfErr result (IsPlaced bytes.now) }
{
    let number = number_at(bytes, at);
    if number.start == bytes.len() {
        return Err(ImageFault::CutShort { at: number.start });
    }
    if number.start == at || number.end == number.start {
        return Err(ImageFault::BadSample { at: number.start });
    }
    checked(maximum, number.start, number.value, number.end)
}

// The sample that is a bit, 1 for black, of a dot in this column.
fn bit_at(width: usize, bytes: &[u8], at: usize, column: usize) -> Result<Sample, ImageFault>
    requires { at ≤ length bytes.now }
    ensures value { result ≡ bit_at width bytes.now at column }
    ensures most { IfOk result (λ sample. sample.value ≤ 1) }
    ensures next { IfOk result (λ sample. sample.next ≤ length bytes.now) }
    ensures placed { IfErr result (IsPlaced bytes.now) }
{
    if at == bytes.len() {
        return Err(ImageFault::CutShort { at });
    }
    Ok(Sample {
        value: 1 - bit_of(bytes[at], column),
        next: after_bit(width, at, column),
    })
}

// The bit of a dot in this column, in its byte.
fn bit_of(byte: u8, column: usize) -> usize
    ensures value { result ≡ bit_of byte column }
    ensures bit { result ≤ 1 }
{
    usize::from(byte >> (7 - column % 8)) % 2
}

// The place of the next dot's byte: a byte ends with its lowest bit or with its row.
fn after_bit(width: usize, at: usize, column: usize) -> usize
    requires few { at < usize.MAX }
    ensures value { result ≡ after_bit width at column }
    ensures within { result ≤ at + 1 }
{
    if column % 8 == 7 || column >= width.saturating_sub(1) {
        at + 1
    } else {
        at
    }
}

// The sample that is a byte.
fn byte_at(maximum: usize, bytes: &[u8], at: usize) -> Result<Sample, ImageFault>
    requires { at ≤ length bytes.now }
    ensures value { result ≡ byte_at maximum bytes.now at }
    ensures most { IfOk result (λ sample. sample.value ≤ maximum) }
    ensures next { IfOk result (λ sample. sample.next ≤ length bytes.now) }
    ensures placed { IfErr result (IsPlaced bytes.now) }
{
    if at == bytes.len() {
        return Err(ImageFault::CutShort { at });
    }
    checked(maximum, at, usize::from(bytes[at]), at + 1)
}

// The sample that is two bytes.
fn pair_at(maximum: usize, bytes: &[u8], at: usize) -> Result<Sample, ImageFault>
    requires { at ≤ length bytes.now }
    ensures value { result ≡ pair_at maximum bytes.now at }
    ensures most { IfOk result (λ sample. sample.value ≤ maximum) }
    ensures next { IfOk result (λ sample. sample.next ≤ length bytes.now) }
    ensures placed { IfErr result (IsPlaced bytes.now) }
{
    if bytes.len() - at < 2 {
        return Err(ImageFault::CutShort { at: bytes.len() });
    }
    let value = 256 * usize::from(bytes[at]) + usize::from(bytes[at + 1]);
    checked(maximum, at, value, at + 2)
}

// The sample at this place, unless it is above the greatest value.
fn checked(maximum: usize, at: usize, value: usize, next: usize) -> Result<Sample, ImageFault>
    ensures value { result ≡ checked maximum at value next }
    ensures most { IfOk result (λ sample. sample.value ≤ maximum) }
    ensures next { IfOk result (λ sample. sample.next ≡ next) }
    ensures placed { IfErr result (λ fault. fault ≡ BadSample at) }
{
    if value > maximum {
        return Err(ImageFault::BadSample { at });
    }
    Ok(Sample { value, next })
}
