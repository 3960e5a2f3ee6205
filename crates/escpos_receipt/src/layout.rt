//! Layouts: the lines of `pair`, `row`, `rule` and `wrap`, as text to be sent.
//!
//! The definition is `lines_of` in `specs/Entries.antt`; what the lines of each layout are, and how they are written, is escpos_layout's.

ghost use Rattle.std.specs.Prelude.{◌≡◌, ◌≢◌, ◌++◌, ◌∷◌, [], Ok, Err, Some, None, IfOk, IfErr, OnOk, chars, option_map};
ghost use Rattle.unicode_normalization.specs.Forms.{nfc};
ghost use Rattle.serde_json.specs.View.{view};
ghost use Rattle.escpos_receipt.specs.Entries.{columns_in, composed_in, field_in, laid_out, line_ended, lines_of, row_fields, side_in, two_values};
ghost use Rattle.escpos_receipt.specs.EntryCommands.{with_commands};
ghost use Rattle.escpos_command.specs.CommandTable.{spell};
ghost use Rattle.escpos_receipt.specs.Layouts.{IsLaidOut, IsNoLayout};

use crate::entry::EntryFault;
use crate::in_force::InForce;
use crate::member::Member;
use crate::spelled_text::SpelledText;
use escpos_command::LF;
use escpos_layout::{
    Characters, Columns, Field, Side, fits_line, write_pair, write_row, write_rule, write_wrapped,
};
use escpos_text::{Encoding, TextFault};
use serde_json::Value;
use std::alloc::{AllocError, Global};
use unicode_normalization::slice::extend_nfc;

/// The lines of a layout with this value, where this is in force, and leaves the encoding that is in force after them. Text that is in
/// the line is ended first.
pub fn layout_in<'a>(
    alloc: Global,
    in_force: &mut InForce,
    member: Member,
    value: &Value,
) -> Result<SpelledText<'a>, EntryFault>
    ensures lines { IfOk result (λ text. laid_out in_force.old (lines_of (columns_in in_force.old.line) member (view value.now)) ≡ Ok text) }
    ensures next { IfOk result (λ text. in_force.new.encoding ≡ with_commands in_force.old.encoding text) }
    ensures line { in_force.new.line ≡ in_force.old.line }
    ensures refused { IfErr result (λ fault. fault ≢ EntryFault.Memory
        → laid_out in_force.old (lines_of (columns_in in_force.old.line) member (view value.now)) ≡ Err fault) }
{
    let columns = in_force.line.columns();
    let mut bytes = line_ended(alloc, in_force.line.in_line)?;
    match put_layout(
        alloc,
        &mut in_force.encoding,
        columns,
        member,
        value,
        &mut bytes,
    ) {
        Ok(()) => Ok(SpelledText::made(bytes)),
        Err(fault) => Err(fault),
    }
}

// The bytes that end the line, if there is text in it.
fn line_ended(alloc: Global, in_line: bool) -> Result<Vec<u8>, AllocError>
    ensures { IfOk result (λ bytes. bytes.items ≡ spell (line_ended in_line)) }
{
    let mut bytes = Vec::new(alloc);
    if in_line {
        push(LF, &mut bytes)?;
    }
    Ok(bytes)
}

// Appends the lines of a layout.
fn put_layout(
    alloc: Global,
    encoding: &mut Encoding,
    columns: Columns,
    member: Member,
    value: &Value,
    out: &mut Vec<u8>,
) -> Result<(), EntryFault>
    ensures lines { OnOk result (IsLaidOut (lines_of columns member (view value.now)) encoding.old out.old.items out.new.items encoding.new) }
    ensures refused { IfErr result (IsNoLayout (lines_of columns member (view value.now)) encoding.old) }
{
    match member {
        Member::Pair => put_pair(alloc, encoding, columns, value, out),
        Member::Row => put_row(alloc, encoding, columns, value, out),
        Member::Rule => put_rule(alloc, encoding, columns, value, out),
        Member::Wrap => put_wrapped(alloc, encoding, columns, value, out),
        _ => Err(EntryFault::BadShape),
    }
}

// Appends a text on the left and a text on the right.
fn put_pair(
    alloc: Global,
    encoding: &mut Encoding,
    columns: Columns,
    value: &Value,
    out: &mut Vec<u8>,
) -> Result<(), EntryFault>
    ensures lines { OnOk result (IsLaidOut (lines_of columns Member.Pair (view value.now)) encoding.old out.old.items out.new.items encoding.new) }
    ensures refused { IfErr result (IsNoLayout (lines_of columns Member.Pair (view value.now)) encoding.old) }
{
    let (left, right) = two_values(value).ok_or(EntryFault::BadShape)?;
    let left = composed_in(alloc, left)?;
    let right = composed_in(alloc, right)?;
    match write_pair(encoding, columns, left.as_slice(), right.as_slice(), out) {
        Ok(()) => Ok(()),
        Err(fault) => Err(EntryFault::of_text(fault)),
    }
}

// Appends texts in fields side by side.
fn put_row(
    alloc: Global,
    encoding: &mut Encoding,
    columns: Columns,
    value: &Value,
    out: &mut Vec<u8>,
) -> Result<(), EntryFault>
    ensures lines { OnOk result (IsLaidOut (lines_of columns Member.Row (view value.now)) encoding.old out.old.items out.new.items encoding.new) }
    ensures refused { IfErr result (IsNoLayout (lines_of columns Member.Row (view value.now)) encoding.old) }
{
    let fields = fields_in(alloc, value)?;
    if !fits_line(&fields, columns) {
        return Err(EntryFault::BadShape);
    }
    match write_row(encoding, &fields, out) {
        Ok(()) => Ok(()),
        Err(fault) => Err(EntryFault::of_text(fault)),
    }
}

// Appends a line full of a character.
fn put_rule(
    alloc: Global,
    encoding: &mut Encoding,
    columns: Columns,
    value: &Value,
    out: &mut Vec<u8>,
) -> Result<(), EntryFault>
    ensures lines { OnOk result (IsLaidOut (lines_of columns Member.Rule (view value.now)) encoding.old out.old.items out.new.items encoding.new) }
    ensures refused { IfErr result (IsNoLayout (lines_of columns Member.Rule (view value.now)) encoding.old) }
{
    let text = composed_in(alloc, value)?;
    let [character] = text.as_slice() else {
        return Err(EntryFault::BadShape);
    };
    match write_rule(encoding, columns, *character, out) {
        Ok(()) => Ok(()),
        Err(fault) => Err(EntryFault::of_text(fault)),
    }
}

// Appends a text in lines that are broken at blanks.
fn put_wrapped(
    alloc: Global,
    encoding: &mut Encoding,
    columns: Columns,
    value: &Value,
    out: &mut Vec<u8>,
) -> Result<(), EntryFault>
    ensures lines { OnOk result (IsLaidOut (lines_of columns Member.Wrap (view value.now)) encoding.old out.old.items out.new.items encoding.new) }
    ensures refused { IfErr result (IsNoLayout (lines_of columns Member.Wrap (view value.now)) encoding.old) }
{
    let text = composed_in(alloc, value)?;
    match write_wrapped(encoding, columns, text.as_slice(), out) {
        Ok(()) => Ok(()),
        Err(fault) => Err(EntryFault::of_text(fault)),
    }
}

// The characters of a string in its composed form.
fn composed_in(alloc: Global, value: &Value) -> Result<Characters, EntryFault>
    ensures text { IfOk result (λ text. composed_in (view value.now) ≡ Some text) }
    ensures refused { IfErr result (λ fault. fault ≢ EntryFault.Memory → (fault ≡ EntryFault.BadShape) × (composed_in (view value.now) ≡ None)) }
{
    let Some(text) = value.as_str() else {
        return Err(EntryFault::BadShape);
    };
    match composed(alloc, text) {
        Ok(text) => Ok(text),
        Err(_) => Err(EntryFault::Memory),
    }
}

// The characters of a text in its composed form.
fn composed(alloc: Global, text: &str) -> Result<Characters, AllocError>
    ensures { IfOk result (λ composed. composed ≡ nfc (chars text.now)) }
{
    let mut given = Vec::new(alloc);
    for character in text.chars() {
        push(character, &mut given)?;
    }
    let mut composed = Vec::new(alloc);
    extend_nfc(&mut composed, &given)?;
    Ok(Characters::new(composed))
}

// The two values of an array of two.
fn two_values(value: &Value) -> Option<(&Value, &Value)>
    ensures { option_map (λ p. (view p.0.now, view p.1.now)) result ≡ two_values (view value.now) }
{
    let values = value.as_array()?.as_slice();
    if values.len() != 2 {
        return None;
    }
    Some((&values[0], &values[1]))
}

// The fields of a row.
fn fields_in(alloc: Global, value: &Value) -> Result<Vec<Field>, EntryFault>
    ensures fields { IfOk result (λ fields. row_fields (view value.now) ≡ Some fields.items) }
    ensures refused { IfErr result (λ fault. fault ≢ EntryFault.Memory → (fault ≡ EntryFault.BadShape) × (row_fields (view value.now) ≡ None)) }
{
    let values = value.as_array().ok_or(EntryFault::BadShape)?.as_slice();
    let mut fields = Vec::new(alloc);
    for value in values {
        let field = field_in(alloc, value)?;
        push(field, &mut fields)?;
    }
    Ok(fields)
}

// A field of a row.
fn field_in(alloc: Global, value: &Value) -> Result<Field, EntryFault>
    ensures field { IfOk result (λ field. field_in (view value.now) ≡ Some field) }
    ensures refused { IfErr result (λ fault. fault ≢ EntryFault.Memory → (fault ≡ EntryFault.BadShape) × (field_in (view value.now) ≡ None)) }
{
    let (text, number) = two_values(value).ok_or(EntryFault::BadShape)?;
    let (side, width) = side_in(number).ok_or(EntryFault::BadShape)?;
    let text = composed_in(alloc, text)?;
    Ok(Field { text, width, side })
}

// The side of a field's text, and the width of the field.
fn side_in(value: &Value) -> Option<(Side, usize)>
    ensures { result ≡ side_in (view value.now) }
{
    let number = value.as_i64()?;
    let width = usize::try_from(number.unsigned_abs()).ok()?;
    Some(if number < 0 {
        (Side::Right, width)
    } else {
        (Side::Left, width)
    })
}

// Appends a value.
fn push<X: Drop>(value: X, list: &mut Vec<X>) -> Result<(), AllocError>
    ensures { OnOk result (list.new.items ≡ list.old.items ++ value ∷ []) }
{
    list.push(value)?;
    Ok(())
}
