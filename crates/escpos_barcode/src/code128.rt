//! CODE128: three code sets, and a check character. (ISO/IEC 15417.)
//!
//! A content names its code set after a brace, `{A`, `{B` or `{C`; further braces change it, and stand before SHIFT and
//! function characters. (Reference: GS k.)

ghost use Rattle.std.specs.Prelude.{◌≡◌, ◌≤◌, ◌<◌, ◌+◌, ◌*◌, [], ◌∷◌, false, length, is_some, MatchOption, None, Some};
ghost use Rattle.escpos_barcode.specs.Code128.{escaped, characters, is_byte, is_shift, set_after, shifted, byte_value, code_value, value_in, value_shifted, values_after, start_value, started, code128_values, weighted, check_value};
ghost use Rattle.std.specs.List.{list_any};
ghost use Rattle.escpos_barcode.specs.Chains.{joined};
ghost use Rattle.escpos_barcode.specs.Elements.{code128, code128_elements};
ghost use Rattle.escpos_barcode.specs.Pen.{draw, attempt};

use crate::pen::Pen;
use crate::tables::code128_pattern;
use arrayvec::ArrayVec;

/// The most bytes that a content has, with a check digit that is added.
pub const MOST_BYTES: usize = 256;

const _: () = prove!(MOST_BYTES == 256);

/// More values than any content has.
pub const MOST_VALUES: usize = 1024;

const _: () = prove!(MOST_VALUES == 1024);

/// A code set, in which values stand for characters.
#[derive(Clone, Copy, Debug)]
pub enum CodeSet {
    /// Upper-case letters and control characters, bytes 0 to 95.
    A,
    /// Bytes 32 to 127.
    B,
    /// Two digits, which the content has as a byte 0 to 99.
    C,
}

/// A character of a content.
#[derive(Clone, Copy, Debug)]
pub enum Character {
    /// Data.
    Byte(u8),
    /// FNC1.
    Function1,
    /// FNC2.
    Function2,
    /// FNC3.
    Function3,
    /// FNC4.
    Function4,
    /// SHIFT: the next character stands in the other one of sets A and B.
    Shift,
    /// What follows stands in this code set.
    Code(CodeSet),
}

impl Default for Character {
    ghost use Rattle.escpos_barcode.specs.declared.code128.Character.TheVariants.{Byte};

    ghost is_default = { λ c. c ≡ Byte 0 };

    // `ArrayVec` fills its unused places with it.
    fn default() -> Self {
        Character::Byte(0)
    }
}

/// Draws a content. `false`: it can't be spelled, and nothing is drawn.
pub fn draw_code128(pen: &mut Pen, content: &[u8]) -> bool
    requires { length content.now ≤ MOST_BYTES }
    ensures answer { result ≡ is_some (code128 content.now) }
    ensures drawn { pen.new ≡ attempt pen.old (code128 content.now) }
{
    let Some(values) = values_of(content) else {
        return false;
    };
    draw_values(pen, values.as_slice());
    true
}

/// Draws values, the check character and the stop character.
pub fn draw_values(pen: &mut Pen, values: &[u8])
    requires { length values.now ≤ MOST_VALUES }
    ensures { pen.new ≡ draw pen.old (code128_elements values.now) }
{
    for value in values {
        pen.draw(code128_pattern(*value));
    }
    pen.draw(code128_pattern(check_value(values)));
    pen.draw(code128_pattern(106));
    pen.draw(&[2]);
}

// The values of a content, from the start character on.
fn values_of(content: &[u8]) -> Option<ArrayVec<u8, MOST_VALUES>>
    requires { length content.now ≤ MOST_BYTES }
    ensures { MatchOption result (code128_values content.now ≡ None) (λ values. code128_values content.now ≡ Some values.items) }
{
    started(characters(content)?.as_slice())
}

/// The characters of a content. `None`: a brace stands before a byte that means nothing there, or last.
pub fn characters(content: &[u8]) -> Option<ArrayVec<Character, MOST_BYTES>>
    requires { length content.now ≤ MOST_BYTES }
    ensures { MatchOption result (characters content.now ≡ None) (λ found. characters content.now ≡ Some found.items) }
{
    let mut found = ArrayVec::new();
    let mut after_brace = false;
    for byte in content {
        if after_brace {
            found.push(escaped(*byte)?);
            after_brace = false;
        } else if *byte == b'{' {
            after_brace = true;
        } else {
            found.push(Character::Byte(*byte));
        }
    }
    if after_brace { None } else { Some(found) }
}

// What the byte after a brace says.
fn escaped(byte: u8) -> Option<Character>
    ensures { result ≡ escaped byte }
{
    match byte {
        b'{' => Some(Character::Byte(b'{')),
        b'S' => Some(Character::Shift),
        b'1' => Some(Character::Function1),
        b'2' => Some(Character::Function2),
        b'3' => Some(Character::Function3),
        b'4' => Some(Character::Function4),
        b'A' => Some(Character::Code(CodeSet::A)),
        b'B' => Some(Character::Code(CodeSet::B)),
        b'C' => Some(Character::Code(CodeSet::C)),
        _ => None,
    }
}

/// The values of characters, of which the first names a code set and at least one is data. `None`: they aren't that, or a code set
/// lacks a character that stands in it.
pub fn started(characters: &[Character]) -> Option<ArrayVec<u8, MOST_VALUES>>
    requires { length characters.now ≤ MOST_VALUES }
    ensures { MatchOption result (started characters.now ≡ None) (λ values. started characters.now ≡ Some values.items) }
{
    match characters {
        [Character::Code(set), more @ ..] => {
            if has_data(more) {
                values_from(*set, more)
            } else {
                None
            }
        }
        _ => None,
    }
}

// Whether one of the characters is data.
fn has_data(characters: &[Character]) -> bool
    ensures { result ≡ list_any is_byte characters.now }
{
    characters.iter().any(|character| character.is_byte())
}

// The start character of a code set and the values of characters that stand in it.
fn values_from(start: CodeSet, characters: &[Character]) -> Option<ArrayVec<u8, MOST_VALUES>>
    requires { length characters.now < MOST_VALUES }
    ensures { MatchOption result
        (values_after start false characters.now ≡ None)
        (λ values. joined (start_value start ∷ []) (values_after start false characters.now) ≡ Some values.items) }
{
    let mut values = ArrayVec::new();
    values.push(start.start_value());
    let mut set = start;
    let mut after_shift = false;
    for character in characters {
        if after_shift {
            values.push(set.value_shifted(*character)?);
            after_shift = false;
        } else {
            values.push(set.value_in(*character)?);
            after_shift = character.is_shift();
            set = set.after(*character);
        }
    }
    if after_shift { None } else { Some(values) }
}

impl Character {
    // Whether it is data.
    fn is_byte(self) -> bool
        ensures { result ≡ is_byte self }
    {
        matches!(self, Character::Byte(_))
    }

    fn is_shift(self) -> bool
        ensures { result ≡ is_shift self }
    {
        matches!(self, Character::Shift)
    }
}

impl CodeSet {
    // The value of its start character.
    fn start_value(self) -> u8
        ensures { result ≡ start_value self }
    {
        match self {
            CodeSet::A => 103,
            CodeSet::B => 104,
            CodeSet::C => 105,
        }
    }

    /// The code set in which what follows a character of this one stands.
    pub fn after(self, character: Character) -> CodeSet
        ensures { result ≡ set_after self character }
    {
        match character {
            Character::Code(next) => next,
            _ => self,
        }
    }

    // The value of a character, if this set has it.
    fn value_in(self, character: Character) -> Option<u8>
        ensures { result ≡ value_in self character }
    {
        match (self, character) {
            (set, Character::Byte(byte)) => set.byte_value(byte),
            (set, Character::Code(next)) => set.code_value(next),
            (_, Character::Function1) => Some(102),
            (CodeSet::C, _) => None,
            (_, Character::Function2) => Some(97),
            (_, Character::Function3) => Some(96),
            (_, Character::Shift) => Some(98),
            (CodeSet::A, Character::Function4) => Some(101),
            (CodeSet::B, Character::Function4) => Some(100),
        }
    }

    fn byte_value(self, byte: u8) -> Option<u8>
        ensures { result ≡ byte_value self byte }
    {
        match (self, byte) {
            (CodeSet::A, 0..=0x1F) => Some(byte + 64),
            (CodeSet::A, 0x20..=0x5F) => Some(byte - 32),
            (CodeSet::B, 0x20..=0x7F) => Some(byte - 32),
            (CodeSet::C, 0..=99) => Some(byte),
            _ => None,
        }
    }

    // The value of a change to another set.
    fn code_value(self, next: CodeSet) -> Option<u8>
        ensures { result ≡ code_value self next }
    {
        match (self, next) {
            (CodeSet::A, CodeSet::A) | (CodeSet::B, CodeSet::B) | (CodeSet::C, CodeSet::C) => None,
            (_, CodeSet::A) => Some(101),
            (_, CodeSet::B) => Some(100),
            (_, CodeSet::C) => Some(99),
        }
    }

    // The value of a character after SHIFT: data of the other set.
    fn value_shifted(self, character: Character) -> Option<u8>
        ensures { result ≡ value_shifted self character }
    {
        if character.is_byte() {
            self.shifted().value_in(character)
        } else {
            None
        }
    }

    fn shifted(self) -> CodeSet
        ensures { result ≡ shifted self }
    {
        match self {
            CodeSet::A => CodeSet::B,
            CodeSet::B => CodeSet::A,
            CodeSet::C => CodeSet::C,
        }
    }
}

// The value of the check character.
fn check_value(values: &[u8]) -> u8
    requires { length values.now ≤ MOST_VALUES }
    ensures { result ≡ check_value values.now }
{
    match values {
        [] => 0,
        [start, more @ ..] => (weighted_sum(*start, more) % 103) as u8,
    }
}

// The start character and the values after it, of which the first weighs 1, the next 2, and so on.
fn weighted_sum(start: u8, values: &[u8]) -> usize
    requires { length values.now < MOST_VALUES }
    ensures { result ≡ start + weighted 1 values.now }
{
    let mut sum = usize::from(start);
    for (place, value) in values.iter().enumerate() {
        sum += weight(place, *value);
    }
    sum
}

// A value with the weight of its place, counted from 0.
fn weight(place: usize, value: u8) -> usize
    requires { place < MOST_VALUES }
    ensures weight { result ≡ (place + 1) * value }
    ensures small { result ≤ 261120 }
{
    (place + 1) * usize::from(value)
}
