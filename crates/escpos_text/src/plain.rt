//! Texts whose bytes print themselves by every code table.

ghost use Rattle.std.specs.Prelude.{◌≡◌, ◌==◌, ◌&&◌, not, chars, map, position, IfNone, Ok};
ghost use Rattle.unicode_normalization.specs.Forms.{nfc};
ghost use Rattle.escpos_command.specs.declared.command.Command.TheVariants as kind;
ghost use Rattle.escpos_text.specs.declared.encoding.Encoding.{Encoding as TheEncoding};
ghost use Rattle.escpos_text.specs.PlainTexts.{is_printed, is_unexchanged, is_ascii, is_plain};
ghost use Rattle.escpos_text.specs.Writing.{written};

use crate::sets::exchanged_place;

/// The first byte of a text that isn't plain: one that isn't a printed character of ASCII, 20 to 7E hexadecimal, or that this
/// international character set may exchange. A text of plain bytes alone prints as it is, whatever tables are in force or chosen.
pub fn first_not_plain(set: u8, text: &[u8]) -> Option<usize>
    ensures place { result ≡ position (λ b. not (is_plain set b)) text.now }
    ensures plain { IfNone result ((encoding : TheEncoding) → encoding.set ≡ set
        → written encoding (nfc (chars text.now)) ≡ Ok (map (λ b. kind.Char b) text.now)) }
{
    if is_ascii(set) {
        first_not_printed(text)
    } else {
        first_exchanged(text)
    }
}

// The first byte that isn't a printed character of ASCII.
fn first_not_printed(text: &[u8]) -> Option<usize>
    ensures { result ≡ position (λ b. not (is_printed b)) text.now }
{
    text.iter().position(|b| !matches!(*b, 0x20..=0x7E))
}

// The first byte that isn't a printed character of ASCII, or that a set exchanges.
fn first_exchanged(text: &[u8]) -> Option<usize>
    ensures { result ≡ position (λ b. not (is_unexchanged b)) text.now }
{
    text.iter().position(|b| !is_unexchanged(*b))
}

fn is_unexchanged(byte: u8) -> bool
    ensures { result ≡ is_unexchanged byte }
{
    if byte < 0x20 || byte > 0x7E {
        return false;
    }
    match exchanged_place(byte) {
        Some(_) => false,
        None => true,
    }
}

// Whether a set is ASCII.
fn is_ascii(set: u8) -> bool
    ensures { result ≡ is_ascii set }
{
    set == 0 || set == 17
}

/// Whether a character is one of ASCII's in set 0: it is plain then.
pub fn is_surely_plain(set: u8, character: char) -> bool
    ensures { result ≡ (set == 0 && is_printed character) }
{
    set == 0 && character >= ' ' && character <= '~'
}
