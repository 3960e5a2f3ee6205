//! What a byte prints, and which byte prints a character.

ghost use Rattle.std.specs.Prelude.{◌≡◌, ◌<◌, ◌≤◌, ℕ};
ghost use Rattle.escpos_text.specs.Reading.{reads, reads_low, reads_high, byte_for, IsLowest};
ghost use Rattle.escpos_text.specs.HighBytes.{IsLowestHigh};

use crate::sets::{character_in, exchanged_byte, exchanged_place, place_in_set};
use crate::tables::{place_of, table_of};

/// The character that a printer prints for a byte, where this international character set and this code table are in force;
/// `None` for control codes, for a place that the table leaves open, from 80 on in a table that isn't known, and for the twelve
/// bytes that a set exchanges where the set is above 17. (Reference: ESC R, ESC t.)
pub fn reads(set: u8, table: u8, byte: u8) -> Option<char>
    ensures { result ≡ reads set table byte }
{
    if byte < 0x80 {
        low_character(set, byte)
    } else {
        high_character(table, byte)
    }
}

/// The lowest byte that prints a character, where this international character set and this code table are in force; `None` if
/// no byte does.
pub fn byte_for(set: u8, table: u8, character: char) -> Option<u8>
    ensures value { result ≡ byte_for set table character }
    ensures lowest { IsLowest 256 (reads set table) character result }
{
    match low_byte(set, character) {
        Some(byte) => Some(byte),
        None => high_byte(table, character),
    }
}

// The character of a byte below 80.
#[tactic(auto, unfolding(crate::specs::Reading::reads_low))]
fn low_character(set: u8, byte: u8) -> Option<char>
    requires { byte < 0x80 }
    ensures { result ≡ reads_low set byte }
{
    match exchanged_place(byte) {
        Some(place) => character_in(set, place),
        None if byte >= 0x20 && byte <= 0x7E => Some(char::from(byte)),
        None => None,
    }
}

// The character of a byte from 80 on.
#[tactic(auto, unfolding(crate::specs::Reading::reads_high))]
fn high_character(table: u8, byte: u8) -> Option<char>
    requires { 0x80 ≤ byte }
    ensures { result ≡ reads_high table byte }
{
    match table_of(table) {
        Some(characters) => match characters[usize::from(byte - 0x80)] {
            '\0' => None,
            character => Some(character),
        },
        None => None,
    }
}

// The lowest byte below 80 that prints a character.
fn low_byte(set: u8, character: char) -> Option<u8>
    ensures { IsLowest 0x80 (reads_low set) character result }
{
    if character < '\u{80}' {
        own_byte(set, character)
    } else {
        exchanged_for(set, character)
    }
}

// A character of ASCII is printed by its own byte or, below 80, by none.
fn own_byte(set: u8, character: char) -> Option<u8>
    requires { character < 0x80 }
    ensures { IsLowest 0x80 (reads_low set) character result }
{
    let byte = character as u8;
    if low_character(set, byte) == Some(character) {
        Some(byte)
    } else {
        None
    }
}

// Any other character is printed by one of the twelve bytes that a set exchanges or, below 80, by none.
fn exchanged_for(set: u8, character: char) -> Option<u8>
    requires { 0x80 ≤ character }
    ensures { IsLowest 0x80 (reads_low set) character result }
{
    if set == 0 {
        // Set 0 is ASCII.
        return None;
    }
    match place_in_set(set, character) {
        Some(place) => Some(exchanged_byte(place)),
        None => None,
    }
}

// The lowest byte from 80 on that prints a character.
fn high_byte(table: u8, character: char) -> Option<u8>
    ensures { IsLowestHigh table character result }
{
    if character == '\0' {
        return None;
    }
    match place_of(table, character) {
        Some(place) => Some(place + 0x80),
        None => None,
    }
}
