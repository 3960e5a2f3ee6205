//! Writing layouts. After an error nothing was appended, and the encoding is as it was.

ghost use Rattle.std.specs.Prelude.{◌≡◌, ◌∷◌, [], List, OnOk, OnErr, MatchResult, Ok};
ghost use Rattle.escpos_command.specs.declared.command.Command.{Command};
ghost use Rattle.escpos_command.specs.CommandTable.{AreCommands};
ghost use Rattle.escpos_text.specs.Writing.{IsRefused};
ghost use Rattle.escpos_layout.specs.Layouts.{pair, row, rule};
ghost use Rattle.escpos_layout.specs.Wrapping.{wrap};
ghost use Rattle.escpos_layout.specs.Writing.{lines_written, WritesLines};

use crate::columns::Columns;
use crate::fields::put_row;
use crate::lines::put_rule;
use crate::row::{Field, Side};
use crate::wrapped::{put_pair, put_wrapped};
use escpos_text::{Encoding, TextFault, laws};

/// Appends the bytes that print a text in lines of at most so many characters, each with LF after it. A text that fits on a line is
/// printed as it is, and the empty text as an empty line. Otherwise a line is broken as late as it can be at blanks (U+0020), none of
/// which are printed there; a word that is longer than a line begins on a line of its own and is cut after a whole line. Blanks that
/// begin the text are printed, but for those at which its first line is broken. The text is in NFC. The last code table that was
/// selected is in force then.
///
/// The error is `Control` at a control code of ASCII, below 20 hexadecimal; `NoCharacter` at a character of which nothing can be
/// shown; or a failed allocation. The first bad character of the lines decides. After an error `out` and `encoding` are as they
/// were.
pub fn write_wrapped(
    encoding: &mut Encoding,
    columns: Columns,
    text: &[char],
    out: &mut Vec<u8>,
) -> Result<(), TextFault>
    ensures written { OnOk result (WritesLines encoding.old (wrap columns text.now) out.old.items out.new.items encoding.new) }
    ensures refused { MatchResult result (λ _. Unit {0}) (IsRefused (lines_written encoding.old (wrap columns text.now))) }
    ensures kept { OnErr result (out.new.items ≡ out.old.items) }
    ensures still_in_force { OnErr result (encoding.new ≡ encoding.old) }
    ensures in_range { (commands : List Command) → lines_written encoding.old (wrap columns text.now) ≡ Ok commands → AreCommands commands }
{
    // Proof only: the tables of the choice are bytes.
    let _ = encoding.choice.tables();
    laws::spelled();
    let start = out.len();
    let table = encoding.table;
    let outcome = put_wrapped(encoding, columns, Side::Left, text, out);
    if outcome.is_err() {
        out.truncate(start);
        encoding.table = table;
    }
    outcome
}

/// Appends the bytes that print a text on the left and a text on the right, which ends at the end of the line. They stand on one
/// line if they fit there with a blank between them, or if one of them is empty. Otherwise each is broken into lines as
/// `write_wrapped` does, the lines on the right each end at the line's end, and the last line on the left and the first on the right
/// stand on one line if they fit. No blanks are printed after the left text if there is nothing on the right. The texts are in NFC.
///
/// Errors are those of `write_wrapped`.
pub fn write_pair(
    encoding: &mut Encoding,
    columns: Columns,
    left: &[char],
    right: &[char],
    out: &mut Vec<u8>,
) -> Result<(), TextFault>
    ensures written { OnOk result (WritesLines encoding.old (pair columns left.now right.now) out.old.items out.new.items encoding.new) }
    ensures refused { MatchResult result (λ _. Unit {0}) (IsRefused (lines_written encoding.old (pair columns left.now right.now))) }
    ensures kept { OnErr result (out.new.items ≡ out.old.items) }
    ensures still_in_force { OnErr result (encoding.new ≡ encoding.old) }
    ensures in_range { (commands : List Command) → lines_written encoding.old (pair columns left.now right.now) ≡ Ok commands → AreCommands commands }
{
    // Proof only: the tables of the choice are bytes.
    let _ = encoding.choice.tables();
    laws::spelled();
    let start = out.len();
    let table = encoding.table;
    let outcome = put_pair(encoding, columns, left, right, out);
    if outcome.is_err() {
        out.truncate(start);
        encoding.table = table;
    }
    outcome
}

/// Appends the bytes that print fields side by side on one line. Whether they fit on it, `fits_line` says.
///
/// Errors are those of `write_wrapped`.
pub fn write_row(
    encoding: &mut Encoding,
    fields: &[Field],
    out: &mut Vec<u8>,
) -> Result<(), TextFault>
    ensures written { OnOk result (WritesLines encoding.old (row fields.now ∷ []) out.old.items out.new.items encoding.new) }
    ensures refused { MatchResult result (λ _. Unit {0}) (IsRefused (lines_written encoding.old (row fields.now ∷ []))) }
    ensures kept { OnErr result (out.new.items ≡ out.old.items) }
    ensures still_in_force { OnErr result (encoding.new ≡ encoding.old) }
    ensures in_range { (commands : List Command) → lines_written encoding.old (row fields.now ∷ []) ≡ Ok commands → AreCommands commands }
{
    // Proof only: the tables of the choice are bytes.
    let _ = encoding.choice.tables();
    laws::spelled();
    let start = out.len();
    let table = encoding.table;
    let outcome = put_row(encoding, fields, out);
    if outcome.is_err() {
        out.truncate(start);
        encoding.table = table;
    }
    outcome
}

/// Appends the bytes that print a line full of a character.
///
/// Errors are those of `write_wrapped`.
pub fn write_rule(
    encoding: &mut Encoding,
    columns: Columns,
    character: char,
    out: &mut Vec<u8>,
) -> Result<(), TextFault>
    ensures written { OnOk result (WritesLines encoding.old (rule columns character ∷ []) out.old.items out.new.items encoding.new) }
    ensures refused { MatchResult result (λ _. Unit {0}) (IsRefused (lines_written encoding.old (rule columns character ∷ []))) }
    ensures kept { OnErr result (out.new.items ≡ out.old.items) }
    ensures still_in_force { OnErr result (encoding.new ≡ encoding.old) }
    ensures in_range { (commands : List Command) → lines_written encoding.old (rule columns character ∷ []) ≡ Ok commands → AreCommands commands }
{
    // Proof only: the tables of the choice are bytes.
    let _ = encoding.choice.tables();
    laws::spelled();
    let start = out.len();
    let table = encoding.table;
    let outcome = put_rule(encoding, columns, character, out);
    if outcome.is_err() {
        out.truncate(start);
        encoding.table = table;
    }
    outcome
}
