//! Bytes from hexadecimal text as a person writes it: digits of either case, with blanks anywhere.

ghost use Rattle.std.specs.Prelude.{◌≡◌, ◌≢◌, ◌+◌, ◌-◌, ◌<◌, ◌≤◌, [], ◌∷◌, length, drop, slice_index, Ok, None, IfOk, IfSome, IsErr};
ghost use Rattle.hex.specs.Hex.{decode_of};
ghost use Rattle.escpos_job_parts.specs.Hexadecimal.{IsHexadecimal, digits_of};
ghost use Rattle.escpos_job_parts.specs.DigitValues.{IsPair, value_of};

use thiserror::Error;

/// A text that isn't hexadecimal: a byte is neither a digit nor a blank, or the number of digits is odd.
#[derive(Clone, Copy, Debug, Drop, PartialEq, Eq, Error)]
#[error("the text isn't hexadecimal")]
pub struct NotHexadecimal;

// The value of a blank in the table below, and that of a byte that is no digit either.
const BLANK: u8 = 16;

const NONE: u8 = 17;

const _: () = prove!(BLANK == 16);

const _: () = prove!(NONE == 17);

// The value of each byte as a digit.
static VALUES: [u8; 256] = [
    17, 17, 17, 17, 17, 17, 17, 17, 17, 16, 16, 17, 17, 16, 17, 17, 17, 17, 17, 17, 17, 17, 17, 17,
    17, 17, 17, 17, 17, 17, 17, 17, 16, 17, 17, 17, 17, 17, 17, 17, 17, 17, 17, 17, 17, 17, 17, 17,
    0, 1, 2, 3, 4, 5, 6, 7, 8, 9, 17, 17, 17, 17, 17, 17, 17, 10, 11, 12, 13, 14, 15, 17, 17, 17,
    17, 17, 17, 17, 17, 17, 17, 17, 17, 17, 17, 17, 17, 17, 17, 17, 17, 17, 17, 17, 17, 17, 17, 10,
    11, 12, 13, 14, 15, 17, 17, 17, 17, 17, 17, 17, 17, 17, 17, 17, 17, 17, 17, 17, 17, 17, 17, 17,
    17, 17, 17, 17, 17, 17, 17, 17, 17, 17, 17, 17, 17, 17, 17, 17, 17, 17, 17, 17, 17, 17, 17, 17,
    17, 17, 17, 17, 17, 17, 17, 17, 17, 17, 17, 17, 17, 17, 17, 17, 17, 17, 17, 17, 17, 17, 17, 17,
    17, 17, 17, 17, 17, 17, 17, 17, 17, 17, 17, 17, 17, 17, 17, 17, 17, 17, 17, 17, 17, 17, 17, 17,
    17, 17, 17, 17, 17, 17, 17, 17, 17, 17, 17, 17, 17, 17, 17, 17, 17, 17, 17, 17, 17, 17, 17, 17,
    17, 17, 17, 17, 17, 17, 17, 17, 17, 17, 17, 17, 17, 17, 17, 17, 17, 17, 17, 17, 17, 17, 17, 17,
    17, 17, 17, 17, 17, 17, 17, 17, 17, 17, 17, 17, 17, 17,
];

/// The bytes that the text writes; spaces, tabs, CR and LF are left out. They are written over the text: nothing is
/// allocated.
pub fn bytes_of(mut text: Vec<u8>) -> Result<Vec<u8>, NotHexadecimal>
    ensures bytes { IfOk result (λ v. IsHexadecimal text.items v.items) }
    ensures refused { IsErr result → IsErr (decode_of (digits_of text.items)) }
{
    let mut read = 0;
    let mut written = 0;
    loop {
        if let Some(byte) = side_by_side(&text, read) {
            text[written] = byte;
            written += 1;
            read += 2;
            continue;
        }
        match next_byte(&text, read) {
            Ok(Some((byte, after))) => {
                text[written] = byte;
                written += 1;
                read = after;
            }
            Ok(None) => break,
            Err(fault) => return Err(fault),
        }
    }
    text.truncate(written);
    Ok(text)
}

// The byte of the two digits that stand at the place `from`, side by side. Nearly everywhere they do.
#[inline]
fn side_by_side(text: &[u8], from: usize) -> Option<u8>
    requires { from ≤ length text.now }
    ensures { IfSome result (λ byte. (from + 2 ≤ length text.now) × IsPair byte (digits_of (drop from text.now)) (digits_of (drop (from + 2) text.now))) }
{
    if from + 1 < text.len() {
        let high = value_of(text[from]);
        let low = value_of(text[from + 1]);
        if high <= 15 && low <= 15 {
            return Some(high * 16 + low);
        }
    }
    None
}

// The byte of the next two digits and the place after them, from the place `from` on; nothing if only blanks are left.
#[inline(never)]
fn next_byte(text: &[u8], from: usize) -> Result<Option<(u8, usize)>, NotHexadecimal>
    requires { from ≤ length text.now }
    ensures byte { IfOk result (λ next. IfSome next (λ found. (from < found.1) × (found.1 ≤ length text.now) × IsPair found.0 (digits_of (drop from text.now)) (digits_of (drop found.1 text.now)))) }
    ensures none { result ≡ Ok None → digits_of (drop from text.now) ≡ [] }
    ensures refused { IsErr result → IsErr (decode_of (digits_of (drop from text.now))) }
{
    let Some((high, after_high)) = next_digit(text, from) else {
        return Ok(None);
    };
    let Some((low, after_low)) = next_digit(text, after_high) else {
        return Err(NotHexadecimal);
    };
    if high > 15 || low > 15 {
        return Err(NotHexadecimal);
    }
    Ok(Some((high * 16 + low, after_low)))
}

// The value of the next digit and the place after it, from the place `from` on.
#[inline(never)]
fn next_digit(text: &[u8], from: usize) -> Option<(u8, usize)>
    requires { from ≤ length text.now }
    ensures place { IfSome result (λ found. (from < found.1) × (found.1 ≤ length text.now)) }
    ensures value { IfSome result (λ found. (found.0 ≡ value_of (slice_index text.now (found.1 - 1))) × (found.0 ≢ BLANK)) }
    ensures digits { IfSome result (λ found. digits_of (drop from text.now) ≡ slice_index text.now (found.1 - 1) ∷ digits_of (drop found.1 text.now)) }
    ensures none { result ≡ None → digits_of (drop from text.now) ≡ [] }
{
    let mut at = from;
    while at < text.len() {
        let value = value_of(text[at]);
        at += 1;
        if value != BLANK {
            return Some((value, at));
        }
    }
    None
}

// The value of a byte as a digit.
#[inline]
fn value_of(byte: u8) -> u8
    ensures { result ≡ value_of byte }
{
    VALUES[byte as usize]
}
