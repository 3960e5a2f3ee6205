//! Writing a text as the bytes of commands: characters and, where another code table has to be in force, ESC t.

ghost use Rattle.std.specs.Prelude.{◌≡◌, ◌++◌, ◌∷◌, [], ℕ, List, chars, OnOk, OnErr, MatchResult, Ok};
ghost use Rattle.unicode_normalization.specs.Forms.{nfc};
ghost use Rattle.escpos_command.specs.declared.command.Command.{Command};
ghost use Rattle.escpos_command.specs.CommandTable.{AreCommands, spell};
ghost use Rattle.escpos_text.specs.Writing.{placed, commands_for, written, Writes, WritesOne, IsRefused};

use crate::encoding::{Encoding, TextFault};
use crate::placing::{Place, find_place};
use crate::plain::is_surely_plain;
use escpos_command::ESC;
use std::alloc::{AllocError, Global};
use unicode_normalization::{QuickCheck, is_nfc_quick, to_nfc};

/// Appends the bytes that print a text, in its normal form NFC: for each character its byte in the code table in force if that has
/// it; otherwise ESC t, which selects the first table of the choice that has it, and its byte there. Where none has it, a space is
/// printed for U+00A0, and the replacement for any other. The last table that was selected is in force then.
///
/// The error is `Control` at a control code of ASCII, below 20 hexadecimal; `NoCharacter` at a character of which nothing can be
/// shown; or a failed allocation. The first bad character decides. After an error `out` and `encoding` are as they were.
pub fn write_text(
    alloc: Global,
    encoding: &mut Encoding,
    text: &str,
    out: &mut Vec<u8>,
) -> Result<(), TextFault>
    ensures written { OnOk result (Writes encoding.old (nfc (chars text.now)) out.old.items out.new.items encoding.new) }
    ensures refused { MatchResult result (λ _. Unit {0}) (IsRefused (written encoding.old (nfc (chars text.now)))) }
    ensures kept { OnErr result (out.new.items ≡ out.old.items) }
    ensures still_in_force { OnErr result (encoding.new ≡ encoding.old) }
    ensures in_range { (commands : List Command) → written encoding.old (nfc (chars text.now)) ≡ Ok commands → AreCommands commands }
{
    // Proof only: the tables of the choice are bytes.
    let _ = encoding.choice.tables();
    let start = out.len();
    let table = encoding.table;
    let outcome = write_normalized(alloc, encoding, text, out);
    if outcome.is_err() {
        out.truncate(start);
        encoding.table = table;
    }
    outcome
}

// The same, but that some bytes may stand there after an error, and another table may be in force.
fn write_normalized(
    alloc: Global,
    encoding: &mut Encoding,
    text: &str,
    out: &mut Vec<u8>,
) -> Result<(), TextFault>
    ensures written { OnOk result (Writes encoding.old (nfc (chars text.now)) out.old.items out.new.items encoding.new) }
    ensures refused { MatchResult result (λ _. Unit {0}) (IsRefused (written encoding.old (nfc (chars text.now)))) }
    ensures begun { (more : List ℕ) × (out.new.items ≡ out.old.items ++ more) }
    ensures but_for_table { (table : ℕ) × (encoding.new ≡ record encoding.old { table = table }) }
{
    match is_nfc_quick(text.chars()) {
        QuickCheck::Yes => write_chars(encoding, text, out),
        _ => {
            let Ok(composed) = to_nfc(alloc, text) else {
                return Err(TextFault::Memory);
            };
            write_chars(encoding, composed.as_str(), out)
        }
    }
}

// Appends the bytes of a text as it is.
fn write_chars(encoding: &mut Encoding, text: &str, out: &mut Vec<u8>) -> Result<(), TextFault>
    ensures written { OnOk result (Writes encoding.old (chars text.now) out.old.items out.new.items encoding.new) }
    ensures refused { MatchResult result (λ _. Unit {0}) (IsRefused (written encoding.old (chars text.now))) }
    ensures begun { (more : List ℕ) × (out.new.items ≡ out.old.items ++ more) }
    ensures but_for_table { (table : ℕ) × (encoding.new ≡ record encoding.old { table = table }) }
{
    for character in text.chars() {
        match write_char(encoding, character, out) {
            Ok(()) => {}
            Err(fault) => return Err(fault),
        }
    }
    Ok(())
}

/// Appends the bytes that print these characters as they are, without bringing them into a normal form; otherwise as `write_text`.
///
/// The error is `Control` at a control code of ASCII, below 20 hexadecimal; `NoCharacter` at a character of which nothing can be
/// shown; or a failed allocation. The first bad character decides. After an error `out` and `encoding` are as they were.
pub fn write_characters(
    encoding: &mut Encoding,
    characters: &[char],
    out: &mut Vec<u8>,
) -> Result<(), TextFault>
    ensures written { OnOk result (Writes encoding.old characters.now out.old.items out.new.items encoding.new) }
    ensures refused { MatchResult result (λ _. Unit {0}) (IsRefused (written encoding.old characters.now)) }
    ensures kept { OnErr result (out.new.items ≡ out.old.items) }
    ensures still_in_force { OnErr result (encoding.new ≡ encoding.old) }
{
    let length = out.len();
    let in_force = encoding.table;
    let outcome = write_slice(encoding, characters, out);
    if outcome.is_err() {
        out.truncate(length);
        encoding.table = in_force;
    }
    outcome
}

// The same, but that some bytes may stand there after an error, and another table may be in force.
fn write_slice(
    encoding: &mut Encoding,
    characters: &[char],
    out: &mut Vec<u8>,
) -> Result<(), TextFault>
    ensures written { OnOk result (Writes encoding.old characters.now out.old.items out.new.items encoding.new) }
    ensures refused { MatchResult result (λ _. Unit {0}) (IsRefused (written encoding.old characters.now)) }
    ensures begun { (more : List ℕ) × (out.new.items ≡ out.old.items ++ more) }
    ensures but_for_table { (table : ℕ) × (encoding.new ≡ record encoding.old { table = table }) }
{
    for character in characters {
        match write_char(encoding, *character, out) {
            Ok(()) => {}
            Err(fault) => return Err(fault),
        }
    }
    Ok(())
}

// Appends the bytes of a character.
fn write_char(encoding: &mut Encoding, character: char, out: &mut Vec<u8>) -> Result<(), TextFault>
    ensures written { OnOk result (WritesOne encoding.old character out.old.items out.new.items encoding.new) }
    ensures refused { MatchResult result (λ _. Unit {0}) (IsRefused (placed encoding.old character)) }
    ensures kept { OnErr result (out.new.items ≡ out.old.items) }
    ensures still_in_force { OnErr result (encoding.new ≡ encoding.old) }
{
    if is_surely_plain(encoding.set, character) {
        match put_byte(character as u8, out) {
            Ok(()) => Ok(()),
            Err(_) => Err(TextFault::Memory),
        }
    } else {
        write_placed(encoding, character, out)
    }
}

// Appends a byte.
fn put_byte(byte: u8, out: &mut Vec<u8>) -> Result<(), AllocError>
    ensures ok { OnOk result (out.new.items ≡ out.old.items ++ byte ∷ []) }
    ensures err { OnErr result (out.new.items ≡ out.old.items) }
{
    out.push(byte)?;
    Ok(())
}

// Appends the bytes of a character where it stands.
fn write_placed(
    encoding: &mut Encoding,
    character: char,
    out: &mut Vec<u8>,
) -> Result<(), TextFault>
    ensures written { OnOk result (WritesOne encoding.old character out.old.items out.new.items encoding.new) }
    ensures refused { MatchResult result (λ _. Unit {0}) (IsRefused (placed encoding.old character)) }
    ensures kept { OnErr result (out.new.items ≡ out.old.items) }
    ensures still_in_force { OnErr result (encoding.new ≡ encoding.old) }
{
    match find_place(encoding, character) {
        Ok(place) => match put_place(encoding.table, place, out) {
            Ok(()) => {
                encoding.table = place.table;
                Ok(())
            }
            Err(_) => Err(TextFault::Memory),
        },
        Err(fault) => Err(fault),
    }
}

// Appends the byte of a place, with ESC t before it if its table isn't in force.
#[tactic(auto, unfolding(escpos_command::specs::SettingTable::table))]
fn put_place(table: u8, place: Place, out: &mut Vec<u8>) -> Result<(), AllocError>
    ensures ok { OnOk result (out.new.items ≡ out.old.items ++ spell (commands_for table place)) }
    ensures err { OnErr result (out.new.items ≡ out.old.items) }
{
    if place.table == table {
        return put_byte(place.byte, out);
    }
    out.extend_from_slice(&[ESC, b't', place.table, place.byte])
}
