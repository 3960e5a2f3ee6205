//! Receipts of one line, and one with every member.

use escpos_command::Command;
use escpos_receipt::{JsonError, Receipt};
use std::alloc::Global;

/// The text of a receipt, and its line.
pub const S: (&[u8], &[u8]) = (b"[{\"line\":\"Hi\"}]", b"Hi");

/// The same of another line.
pub const A: (&[u8], &[u8]) = (b"[{\"line\":\"A\"}]", b"A");

/// The same of a third.
pub const B: (&[u8], &[u8]) = (b"[{\"line\":\"B\"}]", b"B");

/// What a host puts out of mark 0, `S` and mark 1.
pub const SENT: &[u8] = b"\x1D(H\x06\x00000000\x1B@Hi\n\x1D(H\x06\x00000001";

/// A receipt with every member.
pub const EVERY_MEMBER: &[u8] = b"\
[{\"align\":\"center\"},{\"size\":[2,2]},{\"mode\":8},{\"line\":\"Kolatennis\"},
{\"size\":[1,1]},{\"bold\":true},{\"strike\":true},{\"reverse\":true},{\"underline\":1},{\"font\":\"B\"},{\"table\":16},
{\"charset\":2},{\"spacing\":48},
{\"text\":\"Total\"},{\"feed\":1},{\"spacing\":\"default\"},{\"upside\":true},{\"units\":4},{\"bar_height\":80},{\"bar_width\":2},
{\"hri\":\"below\"},{\"hri_font\":\"B\"},
{\"bars\":{\"kind\":\"ean13\",\"content\":\"400638133393\"}},
{\"raster\":{\"scale\":\"normal\",\"x\":2,\"y\":2,\"dots\":\"f00fF00F\"}},
{\"qr\":{\"content\":\"K\",\"size\":4,\"level\":\"M\"}},
{\"pulse\":{\"pin\":0,\"on\":25,\"off\":250}},{\"cut\":\"partial\"},
{\"feed_cut\":{\"kind\":\"full\",\"feed\":3}}]
";

/// The receipt that a text describes, or why there is none, with nothing of what the contract says of that.
pub fn read_receipt(alloc: Global, text: &[u8]) -> Result<Receipt, JsonError> {
    Receipt::from_json(alloc, text)
}

/// The receipt `S`. Where it can't be read, it is read a second time.
pub fn receipt_at_last(alloc: Global) -> Result<Receipt, JsonError> {
    let (text, _) = S;
    match read_receipt(alloc, text) {
        Ok(receipt) => Ok(receipt),
        Err(_) => read_receipt(alloc, text),
    }
}

// Whether this command is this character in the line.
fn is_character(command: &Command, byte: u8) -> bool {
    match command {
        Command::Char(character) => character.byte() == byte,
        _ => false,
    }
}

/// Whether these commands are the characters of a line, and its end.
pub fn are_line(commands: &[Command], line: &[u8]) -> bool {
    let [characters @ .., Command::LineFeed] = commands else {
        return false;
    };
    for (command, byte) in characters.iter().zip(line) {
        if !is_character(command, *byte) {
            return false;
        }
    }
    characters.len() == line.len()
}

/// Whether receipts have these lines.
pub fn have_lines(receipts: &[Receipt], lines: &[&[u8]]) -> bool {
    for (receipt, line) in receipts.iter().zip(lines) {
        if !are_line(receipt.commands(), line) {
            return false;
        }
    }
    receipts.len() == lines.len()
}
