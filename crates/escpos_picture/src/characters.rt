//! Printed bytes as characters of the document.

ghost use Rattle.std.specs.Prelude.{◌≡◌, ◌+◌, ◌*◌, ◌≤◌, ◌<◌, ◌++◌, length, flat_map, get_or, encode_utf8};
ghost use Rattle.escpos_picture.specs.Characters.{replacement, character, escaped, character_text, byte_text};

use escpos_io::{GATHERED_BYTES, Gather};
use escpos_text::reads;

/// The most bytes that a printed byte takes as text: those of `&quot;`.
pub const CHARACTER_BYTES: usize = 6;

const _: () = prove!(CHARACTER_BYTES == 6);

// What stands for a byte that is no character.
const REPLACEMENT: char = '\u{FFFD}';

/// Appends a byte that is printed with this character set and this code table.
#[inline]
pub fn append_byte(gather: &mut Gather, set: u8, table: u8, byte: u8)
    requires { length gather.old.kept + CHARACTER_BYTES ≤ GATHERED_BYTES }
    ensures kept { gather.new.kept ≡ gather.old.kept ++ byte_text set table byte }
    ensures same_count { gather.new.written ≡ gather.old.written }
    ensures short { length (byte_text set table byte) ≤ CHARACTER_BYTES }
{
    append_character(gather, character(set, table, byte));
}

// The character of a byte.
#[inline]
fn character(set: u8, table: u8, byte: u8) -> char
    ensures { result ≡ character set table byte }
{
    reads(set, table, byte).unwrap_or(REPLACEMENT)
}

// Appends a character.
#[inline]
fn append_character(gather: &mut Gather, character: char)
    requires { length gather.old.kept + CHARACTER_BYTES ≤ GATHERED_BYTES }
    ensures kept { gather.new.kept ≡ gather.old.kept ++ character_text character }
    ensures same_count { gather.new.written ≡ gather.old.written }
    ensures short { length (character_text character) ≤ CHARACTER_BYTES }
{
    match character {
        '&' => gather.extend(b"&amp;"),
        '<' => gather.extend(b"&lt;"),
        '>' => gather.extend(b"&gt;"),
        '"' => gather.extend(b"&quot;"),
        '\'' => gather.extend(b"&apos;"),
        _ => append_plain(gather, character),
    }
}

// Appends a character that means nothing in a document.
#[inline]
fn append_plain(gather: &mut Gather, character: char)
    requires room { length gather.old.kept + CHARACTER_BYTES ≤ GATHERED_BYTES }
    ensures kept { gather.new.kept ≡ gather.old.kept ++ encode_utf8 character }
    ensures same_count { gather.new.written ≡ gather.old.written }
    ensures short { length (encode_utf8 character) ≤ CHARACTER_BYTES }
{
    let mut room = [0; 4];
    let text = character.encode_utf8(&mut room);
    gather.extend(text.as_bytes());
}
