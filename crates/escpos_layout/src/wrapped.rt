//! Appending the bytes of wrapped texts, in the way of `lines`.

ghost use Rattle.std.specs.Prelude.{[], ◌∷◌, map};
ghost use Rattle.escpos_layout.specs.Begun.{EndBeforeLast};
ghost use Rattle.escpos_layout.specs.Layouts.{alone, joined_lines, pair};
ghost use Rattle.escpos_layout.specs.Wrapping.{wrap};
ghost use Rattle.escpos_layout.specs.Writing.{lines_written, Ends};

use crate::breaking::{Line, line_from};
use crate::columns::Columns;
use crate::lines::{put_alone, put_together};
use crate::row::Side;
use escpos_text::{Encoding, TextFault};

/// Appends the lines of a text, each at this side.
pub fn put_wrapped(
    encoding: &mut Encoding,
    columns: Columns,
    side: Side,
    text: &[char],
    out: &mut Vec<u8>,
) -> Result<(), TextFault>
    ensures { Ends (lines_written encoding.old (map (alone side columns) (wrap columns text.now))) encoding.old out.old.items out.new.items encoding.new result }
{
    match put_all_but_last(encoding, columns, side, text, out) {
        Ok(last) => put_alone(encoding, columns, side, &text[last.start..last.end], out),
        Err(fault) => Err(fault),
    }
}

/// Appends text on the left and text on the right.
pub fn put_pair(
    encoding: &mut Encoding,
    columns: Columns,
    left: &[char],
    right: &[char],
    out: &mut Vec<u8>,
) -> Result<(), TextFault>
    ensures { Ends (lines_written encoding.old (pair columns left.now right.now)) encoding.old out.old.items out.new.items encoding.new result }
{
    match put_all_but_last(encoding, columns, Side::Left, left, out) {
        Ok(last) => put_after_left(encoding, columns, &left[last.start..last.end], right, out),
        Err(fault) => Err(fault),
    }
}

// Appends text on the right, whose first line stands together with the last line on the left if they fit.
fn put_after_left(
    encoding: &mut Encoding,
    columns: Columns,
    left: &[char],
    right: &[char],
    out: &mut Vec<u8>,
) -> Result<(), TextFault>
    ensures { Ends (lines_written encoding.old (joined_lines columns (left.now ∷ []) (wrap columns right.now))) encoding.old out.old.items out.new.items encoding.new result }
{
    let first = line_from(columns, right, 0);
    match put_together(encoding, columns, left, &right[..first.end], out) {
        Ok(()) => {}
        Err(fault) => return Err(fault),
    }
    if first.next < right.len() {
        let (_, rest) = right.split_at(first.next);
        put_wrapped(encoding, columns, Side::Right, rest, out)
    } else {
        Ok(())
    }
}

// Appends all lines of a text but the last, which it returns.
fn put_all_but_last(
    encoding: &mut Encoding,
    columns: Columns,
    side: Side,
    text: &[char],
    out: &mut Vec<u8>,
) -> Result<Line, TextFault>
    ensures { EndBeforeLast side columns text.now encoding.old out.old.items out.new.items encoding.new result }
{
    let mut line = line_from(columns, text, 0);
    while line.next < text.len() {
        match put_alone(encoding, columns, side, &text[line.start..line.end], out) {
            Ok(()) => {}
            Err(fault) => return Err(fault),
        }
        line = line_from(columns, text, line.next);
    }
    Ok(line)
}
