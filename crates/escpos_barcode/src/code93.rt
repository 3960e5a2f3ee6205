//! CODE93: a symbol for each of 43 characters, two for each other byte, and two check characters. (AIM BC5.)

ghost use Rattle.std.specs.Prelude.{◌≡◌, ◌≤◌, ◌<◌, ◌+◌, ◌*◌, ◌%◌, ◌++◌, ◌∷◌, [], length, nat_lt, is_some};
ghost use Rattle.std.specs.List.{list_all};
ghost use Rattle.escpos_barcode.specs.Code93.{own_value, shift_value, first_letter, shifted_values, byte_values, code93_values, is_code93_content, weighted_sum, check_character, with_both};
ghost use Rattle.escpos_barcode.specs.Elements.{code93, code93_bars};
ghost use Rattle.escpos_barcode.specs.Pen.{draw, attempt};

use crate::code128::MOST_BYTES;
use crate::pen::Pen;
use crate::tables::code93_pattern;
use arrayvec::ArrayVec;

// The most values that a content has with its check characters.
const MOST_SYMBOLS: usize = 514;

const _: () = prove!(MOST_SYMBOLS == 2 * MOST_BYTES + 2);

// The value of the character that starts and stops.
const START: u8 = 47;

const _: () = prove!(START == 47);

/// Draws a content of bytes below 128 with its check characters. `false`: it is empty or has another byte, and nothing is drawn.
pub fn draw_code93(pen: &mut Pen, content: &[u8]) -> bool
    requires { length content.now ≤ MOST_BYTES }
    ensures answer { result ≡ is_some (code93 content.now) }
    ensures drawn { pen.new ≡ attempt pen.old (code93 content.now) }
{
    if !is_code93_content(content) {
        return false;
    }
    draw_checked(pen, checked_values(content).as_slice());
    true
}

// Draws values that have their check characters.
fn draw_checked(pen: &mut Pen, values: &[u8])
    ensures { pen.new ≡ draw pen.old (code93_bars values.now) }
{
    pen.draw(code93_pattern(START));
    for value in values {
        pen.draw(code93_pattern(*value));
    }
    pen.draw(code93_pattern(START));
    pen.draw(&[1]);
}

// Whether it is not empty and CODE93 has all its bytes.
fn is_code93_content(content: &[u8]) -> bool
    ensures { result ≡ is_code93_content content.now }
{
    !content.is_empty() && all_below_128(content)
}

fn all_below_128(content: &[u8]) -> bool
    ensures { result ≡ list_all (λ b. nat_lt b 0x80) content.now }
{
    content.iter().all(|byte| *byte < 0x80)
}

// The values of a content and its check characters.
fn checked_values(content: &[u8]) -> ArrayVec<u8, MOST_SYMBOLS>
    requires { length content.now ≤ MOST_BYTES }
    ensures { result.items ≡ with_both (code93_values content.now) }
{
    let mut values = values_of(content);
    let first = check_character(20, values.as_slice());
    values.push(first);
    let second = check_character(15, values.as_slice());
    values.push(second);
    values
}

// The values of a content.
fn values_of(content: &[u8]) -> ArrayVec<u8, MOST_SYMBOLS>
    requires { length content.now ≤ MOST_BYTES }
    ensures values { result.items ≡ code93_values content.now }
    ensures few { length result.items + 2 ≤ MOST_SYMBOLS }
{
    let mut values = ArrayVec::new();
    for byte in content {
        append_byte(&mut values, *byte);
    }
    values
}

// Appends the values of a byte.
fn append_byte(values: &mut ArrayVec<u8, MOST_SYMBOLS>, byte: u8)
    requires { length values.old.items + 2 ≤ MOST_SYMBOLS }
    ensures values { values.new.items ≡ values.old.items ++ byte_values byte }
    ensures few { length values.new.items ≤ length values.old.items + 2 }
{
    match own_value(byte) {
        Some(value) => values.push(value),
        None => append_shifted(values, byte / 32, byte % 32),
    }
}

// The value of a character that stands for itself.
fn own_value(byte: u8) -> Option<u8>
    ensures { result ≡ own_value byte }
{
    match byte {
        b'0'..=b'9' => Some(byte - b'0'),
        b'A'..=b'Z' => Some(byte - b'A' + 10),
        b'-' => Some(36),
        b'.' => Some(37),
        b' ' => Some(38),
        b'$' => Some(39),
        b'/' => Some(40),
        b'+' => Some(41),
        b'%' => Some(42),
        _ => None,
    }
}

// Appends a shift character and a letter, for the byte at this place of a column of 32 bytes.
fn append_shifted(values: &mut ArrayVec<u8, MOST_SYMBOLS>, column: u8, place: u8)
    requires room { length values.old.items + 2 ≤ MOST_SYMBOLS }
    requires column { column < 8 }
    requires place { place < 32 }
    ensures values { values.new.items ≡ values.old.items ++ shifted_values column place }
    ensures few { length values.new.items ≤ length values.old.items + 2 }
{
    if place >= 27 {
        values.push(44);
        values.push(5 * column + place - 17);
    } else if place == 0 {
        values.push(44);
        values.push(first_letter(column));
    } else {
        values.push(shift_value(column));
        values.push(place + 9);
    }
}

// The letter for the first byte of a column.
fn first_letter(column: u8) -> u8
    requires { column < 8 }
    ensures { result ≡ first_letter column }
{
    if column == 0 { 30 } else { column + 29 }
}

// The shift character of a column.
fn shift_value(column: u8) -> u8
    ensures { result ≡ shift_value column }
{
    match column {
        0 => 43,
        1 => 45,
        _ => 46,
    }
}

// The value of a check character, in which values weigh up to `most`.
fn check_character(most: usize, values: &[u8]) -> u8
    requires some { 0 < most }
    requires few { most ≤ 20 }
    requires short { length values.now ≤ MOST_SYMBOLS }
    ensures { result ≡ check_character most values.now }
{
    (weighted_sum(most, values) % 47) as u8
}

// The values with their weights: one more than there are values after it, and from `most` on from 1 again.
fn weighted_sum(most: usize, values: &[u8]) -> usize
    requires some { 0 < most }
    requires few { most ≤ 20 }
    requires short { length values.now ≤ MOST_SYMBOLS }
    ensures { result ≡ weighted_sum most values.now }
{
    let mut sum = 0;
    for (place, value) in values.iter().enumerate() {
        sum += weighted(most, values.len() - 1 - place, *value);
    }
    sum
}

// A value with so many others after it.
fn weighted(most: usize, following: usize, value: u8) -> usize
    requires some { 0 < most }
    requires few { most ≤ 20 }
    ensures weighted { result ≡ (following % most + 1) * value }
    ensures small { result ≤ 5100 }
{
    (following % most + 1) * usize::from(value)
}
