//! An entry as a row of the table, and back.

ghost use Rattle.std.specs.Prelude.{◌≡◌, ◌≢◌, ◌+◌, ◌<◌, ◌^◌, ℕ, Option, List, length, All, pos, None, Some, IfOk, IfSome, IsTrue};
ghost use Rattle.sqlite.specs.declared.types.Value.TheVariants.{Null, Int, Blob as Bytes};
ghost use Rattle.sqlite.specs.Order.{column};
ghost use Rattle.sqlite.specs.Value.{owned};
ghost use Rattle.escpos_command.specs.LineWidths.{is_line_width};
ghost use Rattle.escpos_text.specs.Replacements.{is_replacement};
ghost use Rattle.escpos_till.specs.declared.entry.Entry.{Entry as EntryValue};
ghost use Rattle.escpos_till.specs.Keys.{IsKey};
ghost use Rattle.escpos_store.specs.Table.{kind_of, number_of, next_of, content_of, replacement_number, row_of, rows_from, width_number, IsReal};

use escpos_command::{LineWidth, USUAL_LINE_DOTS};
use escpos_receipt::ReceiptOptions;
use escpos_text::Replacement;
use escpos_till::{Content, Entry, ReceiptKey, ReceiptNumber};
use sqlite::Row;
use sqlite::types::ValueRef;
use std::alloc::{AllocError, Global};

/// A number as an id; `None` past 2^63.
pub fn id(number: usize) -> Option<ValueRef<'static>>
    ensures id { IfSome result (λ id. owned id ≡ Int (pos number)) }
    ensures given { number < 2 ^ 63 → result ≢ None }
{
    Some(ValueRef::Int(i64::try_from(number).ok()?))
}

/// The kind: 1 for Queued, 2 for Tried, 3 for Recorded, 4 for Raised, 5 for Cancelled, 6 for Key, 7 for Renewed, 8 for Earlier.
pub fn kind(entry: &Entry) -> ValueRef<'static>
    ensures { owned result ≡ Int (pos (kind_of entry.now)) }
{
    ValueRef::Int(match entry {
        Entry::Queued { .. } => 1,
        Entry::Tried { .. } => 2,
        Entry::Recorded { .. } => 3,
        Entry::Raised { .. } => 4,
        Entry::Cancelled { .. } => 5,
        Entry::Key { .. } => 6,
        Entry::Renewed { .. } => 7,
        Entry::Earlier { .. } => 8,
    })
}

/// The receipt's number, or the last one of an older ledger; in an entry by which a receipt is taken the width of its lines, in one by which
/// the next mark number is raised what is heard of marks, and 0 in an entry that has none of these; `None` past 2^63.
pub fn number(entry: &Entry) -> Option<ValueRef<'static>>
    ensures number { IfSome result (λ number. owned number ≡ Int (pos (number_of entry.now))) }
    ensures given { number_of entry.now < 2 ^ 63 → result ≢ None }
{
    let number = match entry {
        Entry::Queued { content } => width_number(content.options.width),
        Entry::Key { .. } => 0,
        Entry::Tried { number, .. }
        | Entry::Recorded { number, .. }
        | Entry::Cancelled { number }
        | Entry::Earlier { number, .. } => number.get(),
        Entry::Raised { heard, .. } => *heard as usize,
        Entry::Renewed { last, .. } => *last as usize,
    };
    Some(ValueRef::Int(i64::try_from(number).ok()?))
}

// The dots of a line, and 0 for the usual 512.
fn width_number(width: LineWidth) -> usize
    ensures { result ≡ width_number width }
{
    let dots = width.dots();
    if dots == USUAL_LINE_DOTS {
        0
    } else {
        usize::from(dots)
    }
}

/// The mark number that is free afterwards; in an entry by which a receipt is taken its replacement, in one by which it is recorded or a ledger
/// goes on what is heard of marks, and 0 in an entry that has none of these.
pub fn next(entry: &Entry) -> ValueRef<'static>
    ensures { owned result ≡ Int (pos (next_of entry.now)) }
{
    ValueRef::Int(match entry {
        Entry::Queued { content } => replacement_number(content.options.replacement),
        Entry::Cancelled { .. } | Entry::Key { .. } | Entry::Earlier { .. } => 0,
        Entry::Tried { next, .. } | Entry::Raised { next, .. } => i64::from(*next),
        Entry::Recorded { heard, .. } | Entry::Renewed { heard, .. } => i64::from(*heard),
    })
}

// The code of a replacement and 1, and 0 where there is none.
fn replacement_number(replacement: Option<Replacement>) -> i64
    ensures { result ≡ pos (replacement_number replacement) }
{
    match replacement {
        None => 0,
        Some(replacement) => i64::from(u32::from(replacement.character())) + 1,
    }
}

/// The receipt's text, or its key; NULL in an entry that has neither.
pub fn content(entry: &Entry) -> ValueRef<'_>
    ensures { owned result ≡ content_of entry.now }
{
    match entry {
        Entry::Queued { content } => ValueRef::Blob(content.bytes()),
        Entry::Key { key } | Entry::Earlier { key, .. } => ValueRef::Blob(key.bytes()),
        Entry::Tried { .. }
        | Entry::Recorded { .. }
        | Entry::Raised { .. }
        | Entry::Cancelled { .. }
        | Entry::Renewed { .. } => ValueRef::Null,
    }
}

/// The entries that these rows are, with the ids 1, 2, 3 and so on; `None` if they are no such rows.
pub fn entries_of(alloc: Global, rows: &[Row]) -> Result<Option<Vec<Entry>>, AllocError>
    ensures entries { IfOk result (λ found. IfSome found (λ entries. rows.now ≡ rows_from 1 entries.items)) }
    ensures none { IfOk result (λ found. found ≡ None → (entries : List EntryValue) → All IsReal entries → rows.now ≢ rows_from 1 entries) }
{
    let mut entries = Vec::new(alloc);
    for row in rows {
        let Some(entry) = entry_of(alloc, row, entries.len())? else {
            return Ok(None);
        };
        entries.push(entry)?;
    }
    Ok(Some(entries))
}

// The entry that comes after so many others, if the row is one.
fn entry_of(alloc: Global, row: &Row, before: usize) -> Result<Option<Entry>, AllocError>
    ensures entry { IfOk result (λ found. IfSome found (λ entry. row.now ≡ row_of (1 + before) entry)) }
    ensures none { IfOk result (λ found. found ≡ None → (entry : EntryValue) → IsReal entry → row.now ≢ row_of (1 + before) entry) }
{
    let (Some(id), Some(kind), Some(number), Some(next)) = (
        unsigned(row, 0),
        unsigned(row, 1),
        unsigned(row, 2),
        unsigned(row, 3),
    ) else {
        return Ok(None);
    };
    if row.column_count() != 5 || id.checked_sub(1) != Some(before as u64) {
        return Ok(None);
    }
    match row.get_ref(4) {
        Ok(ValueRef::Blob(bytes)) => entry_with_content(alloc, kind, number, next, bytes),
        Ok(ValueRef::Null) => Ok(entry_without_content(kind, number, next)),
        _ => Ok(None),
    }
}

fn entry_with_content(
    alloc: Global,
    kind: u64,
    number: u64,
    next: u64,
    bytes: &[u8],
) -> Result<Option<Entry>, AllocError>
    ensures entry { IfOk result (λ found. IfSome found (λ entry. (kind_of entry ≡ kind) × (number_of entry ≡ number) × (next_of entry ≡ next)
        × (content_of entry ≡ Bytes bytes.now))) }
    ensures none { IfOk result (λ found. found ≡ None → (entry : EntryValue) → IsReal entry → kind_of entry ≡ kind → number_of entry ≡ number
        → next_of entry ≡ next → content_of entry ≢ Bytes bytes.now) }
{
    match kind {
        1 => queued(alloc, number, next, bytes),
        6 if number == 0 && next == 0 => Ok(keyed(bytes)),
        8 if next == 0 => Ok(earlier(number, bytes)),
        _ => Ok(None),
    }
}

// The entry that says this key, if it is one.
fn keyed(bytes: &[u8]) -> Option<Entry>
    ensures entry { IfSome result (λ entry. entry ≡ Entry.Key bytes.now) }
    ensures none { result ≡ None → ¬ IsKey bytes.now }
{
    match ReceiptKey::new(bytes) {
        Some(key) => Some(Entry::Key { key }),
        None => None,
    }
}

// The entry that says that this receipt of an older ledger came with this key, if it is one.
fn earlier(number: u64, bytes: &[u8]) -> Option<Entry>
    ensures entry { IfSome result (λ entry. entry ≡ Entry.Earlier number bytes.now) }
    ensures none { result ≡ None → 0 < number → ¬ IsKey bytes.now }
{
    match (receipt_number(number), ReceiptKey::new(bytes)) {
        (Some(number), Some(key)) => Some(Entry::Earlier { number, key }),
        _ => None,
    }
}

// The entry by which a receipt with this text is taken, whose options these numbers are.
fn queued(alloc: Global, number: u64, next: u64, bytes: &[u8]) -> Result<Option<Entry>, AllocError>
    ensures entry { IfOk result (λ found. IfSome found (λ entry. (kind_of entry ≡ 1) × (number_of entry ≡ number) × (next_of entry ≡ next)
        × (content_of entry ≡ Bytes bytes.now))) }
    ensures none { IfOk result (λ found. found ≡ None → (entry : EntryValue) → IsReal entry → kind_of entry ≡ 1 → number_of entry ≡ number
        → next_of entry ≢ next) }
{
    let (Some(width), Some(replacement)) = (width_of(number), replacement_of(next)) else {
        return Ok(None);
    };
    Ok(Some(Entry::Queued {
        content: Content::with_options(bytes.to_vec(alloc)?, ReceiptOptions { width, replacement }),
    }))
}

// The width that has this number.
fn width_of(number: u64) -> Option<LineWidth>
    ensures width { IfSome result (λ width. width_number width ≡ number) }
    ensures none { result ≡ None → (dots : ℕ) → IsTrue (is_line_width dots) → width_number dots ≢ number }
{
    match u16::try_from(number) {
        Ok(0) => Some(LineWidth::usual()),
        Ok(USUAL_LINE_DOTS) | Err(_) => None,
        Ok(dots) => LineWidth::new(dots),
    }
}

// The replacement that has this number, which may be none.
fn replacement_of(number: u64) -> Option<Option<Replacement>>
    ensures replacement { IfSome result (λ replacement. replacement_number replacement ≡ number) }
    ensures none { result ≡ None → (replacement : Option ℕ) → IfSome replacement (λ code. IsTrue (is_replacement code))
        → replacement_number replacement ≢ number }
{
    let Some(code) = number.checked_sub(1) else {
        return Some(None);
    };
    let replacement = Replacement::new(u8::try_from(code).ok()?)?;
    Some(Some(replacement))
}

fn entry_without_content(kind: u64, number: u64, next: u64) -> Option<Entry>
    ensures entry { IfSome result (λ entry. (kind_of entry ≡ kind) × (number_of entry ≡ number) × (next_of entry ≡ next) × (content_of entry ≡ Null)) }
    ensures none { result ≡ None → (entry : EntryValue) → IsReal entry → kind_of entry ≡ kind → number_of entry ≡ number → next_of entry ≡ next → content_of entry ≢ Null }
{
    match kind {
        2 => Some(Entry::Tried {
            number: receipt_number(number)?,
            next: u32::try_from(next).ok()?,
        }),
        3 => Some(Entry::Recorded {
            number: receipt_number(number)?,
            heard: u32::try_from(next).ok()?,
        }),
        4 => Some(Entry::Raised {
            next: u32::try_from(next).ok()?,
            heard: u32::try_from(number).ok()?,
        }),
        5 if next == 0 => Some(Entry::Cancelled {
            number: receipt_number(number)?,
        }),
        7 => Some(Entry::Renewed {
            last: u32::try_from(number).ok()?,
            heard: u32::try_from(next).ok()?,
        }),
        _ => None,
    }
}

fn receipt_number(number: u64) -> Option<ReceiptNumber>
    ensures number { IfSome result (λ found. found ≡ number) }
    ensures given { 0 < number → result ≢ None }
{
    ReceiptNumber::new(usize::try_from(number).ok()?)
}

// The number in a column, if it has one that isn't negative.
fn unsigned(row: &Row, at: usize) -> Option<u64>
    ensures number { IfSome result (λ n. column row.now at ≡ Int (pos n)) }
    ensures none { result ≡ None → at < length row.now → (n : ℕ) → column row.now at ≢ Int (pos n) }
{
    match row.get_ref(at) {
        Ok(ValueRef::Int(n)) => u64::try_from(n).ok(),
        _ => None,
    }
}
