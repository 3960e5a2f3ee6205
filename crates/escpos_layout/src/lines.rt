//! Appending the bytes of lines: the text of each in the encoding in force, and LF. After an error some bytes may stand there, and
//! another code table may be in force; `writing` mends that. The lines of wrapped texts are left to `wrapped`.

ghost use Rattle.std.specs.Prelude.{◌≡◌, [], ◌∷◌, ◌++◌, replicate, OnOk, OnErr, IfErr};
ghost use Rattle.escpos_text.specs.declared.encoding.TextFault.TheVariants.{Memory};
ghost use Rattle.escpos_text.specs.Writing.{written};
ghost use Rattle.escpos_layout.specs.Layouts.{between, alone, fit_together, together, rule};
ghost use Rattle.escpos_layout.specs.Writing.{lines_written, Ends};

use crate::columns::Columns;
use crate::row::Side;
use escpos_command::LF;
use escpos_text::{Encoding, TextFault, laws, write_characters};

/// Appends characters as they are.
pub fn put_text(encoding: &mut Encoding, text: &[char], out: &mut Vec<u8>) -> Result<(), TextFault>
    ensures { Ends (written encoding.old text.now) encoding.old out.old.items out.new.items encoding.new result }
{
    write_characters(encoding, text, out)
}

/// Appends a character so many times.
pub fn put_repeated(
    encoding: &mut Encoding,
    character: char,
    count: usize,
    out: &mut Vec<u8>,
) -> Result<(), TextFault>
    ensures { Ends (written encoding.old (replicate count character)) encoding.old out.old.items out.new.items encoding.new result }
{
    laws::joined();
    for _ in 0..count {
        match put_text(encoding, &[character], out) {
            Ok(()) => {}
            Err(fault) => return Err(fault),
        }
    }
    Ok(())
}

/// Appends LF.
pub fn end_line(out: &mut Vec<u8>) -> Result<(), TextFault>
    ensures ended { OnOk result (out.new.items ≡ out.old.items ++ LF ∷ []) }
    ensures kept { OnErr result (out.new.items ≡ out.old.items) }
    ensures memory { IfErr result (λ fault. fault ≡ Memory) }
{
    match out.push(LF) {
        Ok(()) => Ok(()),
        Err(_) => Err(TextFault::Memory),
    }
}

/// Appends a line with text at its beginning and at its end, without LF.
fn put_between(
    encoding: &mut Encoding,
    columns: Columns,
    left: &[char],
    right: &[char],
    out: &mut Vec<u8>,
) -> Result<(), TextFault>
    ensures { Ends (written encoding.old (between columns left.now right.now)) encoding.old out.old.items out.new.items encoding.new result }
{
    laws::joined();
    match put_text(encoding, left, out) {
        Ok(()) => {}
        Err(fault) => return Err(fault),
    }
    if right.is_empty() {
        return Ok(());
    }
    let blanks = columns
        .count()
        .saturating_sub(left.len())
        .saturating_sub(right.len());
    match put_repeated(encoding, ' ', blanks, out) {
        Ok(()) => {}
        Err(fault) => return Err(fault),
    }
    put_text(encoding, right, out)
}

/// Appends a line with text at its beginning and at its end.
pub fn put_line(
    encoding: &mut Encoding,
    columns: Columns,
    left: &[char],
    right: &[char],
    out: &mut Vec<u8>,
) -> Result<(), TextFault>
    ensures { Ends (lines_written encoding.old (between columns left.now right.now ∷ [])) encoding.old out.old.items out.new.items encoding.new result }
{
    match put_between(encoding, columns, left, right, out) {
        Ok(()) => end_line(out),
        Err(fault) => Err(fault),
    }
}

/// Appends a line with one text, at this side.
pub fn put_alone(
    encoding: &mut Encoding,
    columns: Columns,
    side: Side,
    text: &[char],
    out: &mut Vec<u8>,
) -> Result<(), TextFault>
    ensures { Ends (lines_written encoding.old (alone side columns text.now ∷ [])) encoding.old out.old.items out.new.items encoding.new result }
{
    match side {
        Side::Left => put_line(encoding, columns, text, &[], out),
        Side::Right => put_line(encoding, columns, &[], text, out),
    }
}

/// Appends two texts, on one line if they fit.
pub fn put_together(
    encoding: &mut Encoding,
    columns: Columns,
    left: &[char],
    right: &[char],
    out: &mut Vec<u8>,
) -> Result<(), TextFault>
    ensures { Ends (lines_written encoding.old (together columns left.now right.now)) encoding.old out.old.items out.new.items encoding.new result }
{
    if fit_together(columns, left, right) {
        return put_line(encoding, columns, left, right, out);
    }
    match put_line(encoding, columns, left, &[], out) {
        Ok(()) => put_line(encoding, columns, &[], right, out),
        Err(fault) => Err(fault),
    }
}

// Whether two texts stand on one line.
fn fit_together(columns: Columns, left: &[char], right: &[char]) -> bool
    ensures { result ≡ fit_together columns left.now right.now }
{
    if left.is_empty() || right.is_empty() {
        return true;
    }
    let count = columns.count();
    left.len() < count && right.len() < count - left.len()
}

/// Appends a line full of a character.
pub fn put_rule(
    encoding: &mut Encoding,
    columns: Columns,
    character: char,
    out: &mut Vec<u8>,
) -> Result<(), TextFault>
    ensures { Ends (lines_written encoding.old (rule columns character ∷ [])) encoding.old out.old.items out.new.items encoding.new result }
{
    match put_repeated(encoding, character, columns.count(), out) {
        Ok(()) => end_line(out),
        Err(fault) => Err(fault),
    }
}
