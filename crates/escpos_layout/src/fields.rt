//! Appending the bytes of rows, in the way of `lines`.

ghost use Rattle.std.specs.Prelude.{◌∷◌, []};
ghost use Rattle.escpos_text.specs.Writing.{written};
ghost use Rattle.escpos_layout.specs.Layouts.{with_blanks, field_text, row};
ghost use Rattle.escpos_layout.specs.Writing.{lines_written, Ends};

use crate::lines::{end_line, put_repeated, put_text};
use crate::row::{Field, Side};
use escpos_text::{Encoding, TextFault, laws};

/// Appends fields side by side on one line.
pub fn put_row(
    encoding: &mut Encoding,
    fields: &[Field],
    out: &mut Vec<u8>,
) -> Result<(), TextFault>
    ensures { Ends (lines_written encoding.old (row fields.now ∷ [])) encoding.old out.old.items out.new.items encoding.new result }
{
    match put_fields(encoding, fields, out) {
        Ok(()) => end_line(out),
        Err(fault) => Err(fault),
    }
}

// Appends the text of the fields.
fn put_fields(encoding: &mut Encoding, fields: &[Field], out: &mut Vec<u8>) -> Result<(), TextFault>
    ensures { Ends (written encoding.old (row fields.now)) encoding.old out.old.items out.new.items encoding.new result }
{
    laws::joined();
    for field in fields {
        match put_field(encoding, field, out) {
            Ok(()) => {}
            Err(fault) => return Err(fault),
        }
    }
    Ok(())
}

// Appends the text of a field.
fn put_field(encoding: &mut Encoding, field: &Field, out: &mut Vec<u8>) -> Result<(), TextFault>
    ensures { Ends (written encoding.old (field_text field.now)) encoding.old out.old.items out.new.items encoding.new result }
{
    let text = field.text.as_slice();
    if text.len() <= field.width {
        put_placed(encoding, text, field.width - text.len(), field.side, out)
    } else {
        put_text(encoding, &text[..field.width], out)
    }
}

// Appends a text with so many blanks after or before it.
fn put_placed(
    encoding: &mut Encoding,
    text: &[char],
    blanks: usize,
    side: Side,
    out: &mut Vec<u8>,
) -> Result<(), TextFault>
    ensures { Ends (written encoding.old (with_blanks side blanks text.now)) encoding.old out.old.items out.new.items encoding.new result }
{
    laws::joined();
    match side {
        Side::Left => match put_text(encoding, text, out) {
            Ok(()) => put_repeated(encoding, ' ', blanks, out),
            Err(fault) => Err(fault),
        },
        Side::Right => match put_repeated(encoding, ' ', blanks, out) {
            Ok(()) => put_text(encoding, text, out),
            Err(fault) => Err(fault),
        },
    }
}
