//! The human readable interpretation: what stands as text beside the bars. (Reference: GS H.)

ghost use Rattle.std.specs.Prelude.{◌≡◌, ◌≤◌, ◌+◌, ◌++◌, map, flat_map, length};
ghost use Rattle.escpos_barcode.specs.Elements.{upce_parts, short_form};
ghost use Rattle.escpos_barcode.specs.Shown.{shown, shown_character, shown_characters, shown_part, printable};
ghost use Rattle.escpos_barcode.specs.declared.code128.CodeSet.TheVariants as set;

use crate::code128::{Character, CodeSet, MOST_BYTES, characters};
use crate::gs1::{Part, gs1_parts};
use crate::upce::seven_digits;
use arrayvec::ArrayVec;
use escpos_command::Symbology;
use std::marker::Model;

/// The most bytes that an interpretation has: two digits for each byte in code set C of CODE128.
pub const MOST_SHOWN: usize = 512;

const _: () = prove!(MOST_SHOWN == 512);

/// The text that stands beside the bars: bytes 20 to 7E, at most 512. They are part of the value itself, so they allocate
/// nothing.
#[derive(Debug, Drop)]
pub struct Interpretation {
    text: ArrayVec<u8, MOST_SHOWN>,
}

impl Model for Interpretation {
    ghost use Rattle.std.specs.Prelude.{List, ℕ};

    ghost Value = { List ℕ };

    ghost view = { λ i. i.text.items };
}

impl Interpretation {
    /// The text as a slice.
    pub fn as_slice(&self) -> &[u8]
        ensures text { result.now ≡ self.now }
        ensures few { length result.now ≤ MOST_SHOWN }
    {
        self.text.as_slice()
    }
}

/// The interpretation of a content with the check digit that is added to it.
pub fn shown(symbology: Symbology, content: &[u8]) -> Interpretation
    requires { length content.now ≤ MOST_BYTES }
    ensures { result ≡ shown symbology content.now }
{
    let text = match symbology {
        Symbology::UpcE => printed_upce(content),
        Symbology::Code128 => match characters(content) {
            Some(found) => shown_characters(found.as_slice()),
            None => ArrayVec::new(),
        },
        Symbology::Gs1Code128 => match gs1_parts(content) {
            Some(parts) => shown_parts(parts.as_slice()),
            None => ArrayVec::new(),
        },
        _ => printed(content),
    };
    Interpretation { text }
}

// The bytes, with a space for each that isn't printable.
fn printed(content: &[u8]) -> ArrayVec<u8, MOST_SHOWN>
    requires { length content.now ≤ MOST_SHOWN }
    ensures { result.items ≡ map printable content.now }
{
    let mut text = ArrayVec::new();
    for byte in content {
        text.push(printable(*byte));
    }
    text
}

// The number system, the six digits and the check digit of UPC-E.
fn printed_upce(content: &[u8]) -> ArrayVec<u8, MOST_SHOWN>
    requires { length content.now ≤ MOST_SHOWN }
    ensures { result.items ≡ map printable (short_form content.now (upce_parts content.now)) }
{
    match seven_digits(content) {
        Some(seven) => {
            let [a, b, c, d, e, f, check] = seven;
            printed(&[b'0', a, b, c, d, e, f, check])
        }
        None => printed(content),
    }
}

// The data of CODE128.
fn shown_characters(characters: &[Character]) -> ArrayVec<u8, MOST_SHOWN>
    requires { length characters.now ≤ MOST_BYTES }
    ensures { result.items ≡ shown_characters set.B characters.now }
{
    let mut text = ArrayVec::new();
    let mut set = CodeSet::B;
    for character in characters {
        append_character(&mut text, set, *character);
        set = set.after(*character);
    }
    text
}

// The data of GS1-128, and what is only shown.
fn shown_parts(parts: &[Part]) -> ArrayVec<u8, MOST_SHOWN>
    requires { length parts.now ≤ MOST_BYTES }
    ensures { result.items ≡ flat_map shown_part parts.now }
{
    let mut text = ArrayVec::new();
    for part in parts {
        match part {
            Part::Data(byte) | Part::Shown(byte) => text.push(printable(*byte)),
            Part::Function1 | Part::Function3 => text.push(b' '),
            Part::CheckDigit => {}
        }
    }
    text
}

// Appends a character that stands in a code set: its data, a space for a function, and nothing for a shift or a code set.
fn append_character(text: &mut ArrayVec<u8, MOST_SHOWN>, set: CodeSet, character: Character)
    requires { length text.old.items + 2 ≤ MOST_SHOWN }
    ensures text { text.new.items ≡ text.old.items ++ shown_character set character }
    ensures short { length text.new.items ≤ length text.old.items + 2 }
{
    match (set, character) {
        (CodeSet::C, Character::Byte(byte)) => {
            text.push(b'0' + byte / 10 % 10);
            text.push(b'0' + byte % 10);
        }
        (_, Character::Byte(byte)) => text.push(printable(byte)),
        (
            _,
            Character::Function1
            | Character::Function2
            | Character::Function3
            | Character::Function4,
        ) => text.push(b' '),
        (_, Character::Shift | Character::Code(_)) => {}
    }
}

// The byte itself, or a space if it isn't printable.
fn printable(byte: u8) -> u8
    ensures { result ≡ printable byte }
{
    if matches!(byte, 0x20..=0x7E) {
        byte
    } else {
        b' '
    }
}
