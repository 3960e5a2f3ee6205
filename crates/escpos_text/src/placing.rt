//! Where a character stands: the code table to be in force, and the byte.

ghost use Rattle.std.specs.Prelude.{◌≡◌, ◌==◌, ℕ, [], ◌∷◌, option_to_list, if◌then◌else◌};
ghost use Rattle.escpos_text.specs.Writing.{first_answer, place_in, place_among, in_reach, place_for, placed};

use crate::encoding::{Encoding, TextFault};
use crate::reading::byte_for;

/// Where a character stands.
#[derive(Clone, Copy, Debug)]
pub struct Place {
    /// The code table.
    pub table: u8,
    /// The byte.
    pub byte: u8,
}

// Where a table has a character.
fn place_in(set: u8, table: u8, character: char) -> Option<Place>
    ensures { result ≡ place_in set character table }
{
    match byte_for(set, table, character) {
        Some(byte) => Some(Place { table, byte }),
        None => None,
    }
}

// The first of these tables that has a character.
fn place_among(set: u8, tables: &[u8], character: char) -> Option<Place>
    ensures { result ≡ place_among set tables.now character }
{
    for table in tables {
        match place_in(set, *table, character) {
            Some(place) => return Some(place),
            None => {}
        }
    }
    None
}

// The table in force if it has a character, otherwise the first of the choice that has it.
fn place_in_reach(encoding: &Encoding, character: char) -> Option<Place>
    ensures { result ≡ place_among encoding.now.set (in_reach encoding.now) character }
{
    match place_in(encoding.set, encoding.table, character) {
        Some(place) => Some(place),
        None => place_among(encoding.set, encoding.choice.tables(), character),
    }
}

// Where a space stands, if the character is U+00A0.
fn place_of_space(encoding: &Encoding, character: char) -> Option<Place>
    ensures { result ≡ first_answer (place_among encoding.now.set (in_reach encoding.now)) (if character == 0xA0 then 0x20 ∷ [] else []) }
{
    if character == '\u{A0}' {
        place_in_reach(encoding, ' ')
    } else {
        None
    }
}

// Where the replacement stands, if there is one.
fn place_of_replacement(encoding: &Encoding) -> Option<Place>
    ensures { result ≡ first_answer (place_among encoding.now.set (in_reach encoding.now)) (option_to_list encoding.now.replacement) }
{
    match encoding.replacement {
        Some(replacement) => place_in_reach(encoding, replacement.character()),
        None => None,
    }
}

// Where what is shown for a character stands.
fn place_for(encoding: &Encoding, character: char) -> Option<Place>
    ensures { result ≡ place_for encoding.now character }
{
    match place_in_reach(encoding, character) {
        Some(place) => Some(place),
        None => match place_of_space(encoding, character) {
            Some(place) => Some(place),
            None => place_of_replacement(encoding),
        },
    }
}

/// Where what is shown for a character stands; `Control` below 20 hexadecimal, and `NoCharacter` if nothing can be shown for it.
pub fn find_place(encoding: &Encoding, character: char) -> Result<Place, TextFault>
    ensures { result ≡ placed encoding.now character }
{
    if character < ' ' {
        return Err(TextFault::Control(character));
    }
    match place_for(encoding, character) {
        Some(place) => Ok(place),
        None => Err(TextFault::NoCharacter(character)),
    }
}
