//! An entry of a till's ledger as a line of text, and back.
//!
//! A line is a word, a blank, fields in hexadecimal, and LF. It has no other LF, so it is one line of a file, or one row of a table.
//!
//!   Word      | Fields
//!   queued    | the width of a line in 4 digits, the replacement in 2 (00 for none), the receipt's text
//!   tried     | the receipt's number in 16 digits, the next mark number in 8
//!   recorded  | the receipt's number in 16 digits, what is heard of marks in 8 (none in lines of before)
//!   raised    | the next mark number in 8 digits, what is heard of marks in 8 (none in lines of before)
//!   cancelled | the receipt's number in 16 digits
//!   key       | the key of the receipt that the next line takes
//!   renewed   | the last number of an older ledger in 8 digits, what is heard of marks in 8
//!   earlier   | the number of a receipt of the older ledger in 16 digits, its key

ghost use Rattle.std.specs.Prelude.{◌≡◌, ◌++◌, [], ◌∷◌, Option, Some, None, option_map, IfOk, OnOk, IsErrOf};
ghost use Rattle.std.specs.Int.{w16, w32, w64, to_be_bytes};
ghost use Rattle.escpos_till.specs.declared.entry.Entry.{Entry as EntryValue};
ghost use Rattle.escpos_c.specs.TillLines.{IsReal, after, bytes_in, cancelled_of, earlier_in, earlier_of, ended_line, entry_in, fields, heard_in, key_in, line_of, mark_in, number_in, queued_in, raised_in, recorded_in, renewed_in, replacement_byte, replacement_in, tried_in, width_in, word};

use escpos_command::{LF, LineWidth};
use escpos_receipt::ReceiptOptions;
use escpos_text::Replacement;
use escpos_till::{Content, Entry, ReceiptKey, ReceiptNumber};
use hex::FromHexError;
use std::alloc::{AllocError, Global};

/// Why a line gives no entry.
#[derive(Clone, Copy, Debug, PartialEq, Eq)]
pub enum NoEntry {
    /// It is the line of none.
    Damaged,
    /// Out of memory.
    Memory,
}

/// The line of an entry, with its LF.
pub fn line_of(alloc: Global, entry: &Entry) -> Result<Vec<u8>, AllocError>
    ensures { IfOk result (λ line. line.items ≡ ended_line entry.now) }
{
    let fields = fields(alloc, entry)?;
    let digits = hex::encode(alloc, fields.as_slice())?;
    let mut line = Vec::new(alloc);
    line.extend_from_slice(word(entry))?;
    line.extend_from_slice(digits.as_bytes())?;
    line.push(LF)?;
    Ok(line)
}

// The word of an entry, and a blank.
fn word(entry: &Entry) -> &'static [u8]
    ensures { result.now ≡ word entry.now }
{
    match entry {
        Entry::Queued { .. } => b"queued ",
        Entry::Tried { .. } => b"tried ",
        Entry::Recorded { .. } => b"recorded ",
        Entry::Raised { .. } => b"raised ",
        Entry::Cancelled { .. } => b"cancelled ",
        Entry::Key { .. } => b"key ",
        Entry::Renewed { .. } => b"renewed ",
        Entry::Earlier { .. } => b"earlier ",
    }
}

// The bytes of an entry's fields.
fn fields(alloc: Global, entry: &Entry) -> Result<Vec<u8>, AllocError>
    ensures { IfOk result (λ bytes. bytes.items ≡ fields entry.now) }
{
    let mut bytes = Vec::new(alloc);
    match entry {
        Entry::Queued { content } => {
            bytes.extend_from_slice(&content.options.width.dots().to_be_bytes())?;
            bytes.push(replacement_byte(content.options.replacement))?;
            bytes.extend_from_slice(content.bytes())?;
        }
        Entry::Tried { number, next } => {
            bytes.extend_from_slice(&number.get().to_be_bytes())?;
            bytes.extend_from_slice(&next.to_be_bytes())?;
        }
        Entry::Recorded { number, heard } => {
            bytes.extend_from_slice(&number.get().to_be_bytes())?;
            bytes.extend_from_slice(&heard.to_be_bytes())?;
        }
        Entry::Raised { next, heard } => {
            bytes.extend_from_slice(&next.to_be_bytes())?;
            bytes.extend_from_slice(&heard.to_be_bytes())?;
        }
        Entry::Cancelled { number } => bytes.extend_from_slice(&number.get().to_be_bytes())?,
        Entry::Key { key } => bytes.extend_from_slice(key.bytes())?,
        Entry::Renewed { last, heard } => {
            bytes.extend_from_slice(&last.to_be_bytes())?;
            bytes.extend_from_slice(&heard.to_be_bytes())?;
        }
        Entry::Earlier { number, key } => {
            bytes.extend_from_slice(&number.get().to_be_bytes())?;
            bytes.extend_from_slice(key.bytes())?;
        }
    }
    Ok(bytes)
}

// The byte of a replacement, and 0 for none.
fn replacement_byte(replacement: Option<Replacement>) -> u8
    ensures { result ≡ replacement_byte replacement }
{
    match replacement {
        None => 0,
        Some(replacement) => u32::from(replacement.character()) as u8,
    }
}

/// The entry that a line, without its LF, is.
pub fn entry_in(alloc: Global, line: &[u8]) -> Result<Entry, NoEntry>
    ensures entry { IfOk result (λ entry. entry_in line.now ≡ Some entry) }
    ensures damaged { IsErrOf result NoEntry.Damaged → entry_in line.now ≡ None }
{
    if let Some(digits) = after(b"queued ", line) {
        return queued_in(alloc, &bytes_in(alloc, digits)?);
    }
    if let Some(digits) = after(b"tried ", line) {
        return tried_in(&bytes_in(alloc, digits)?).ok_or(NoEntry::Damaged);
    }
    if let Some(digits) = after(b"recorded ", line) {
        return recorded_in(&bytes_in(alloc, digits)?).ok_or(NoEntry::Damaged);
    }
    if let Some(digits) = after(b"raised ", line) {
        return raised_in(&bytes_in(alloc, digits)?).ok_or(NoEntry::Damaged);
    }
    if let Some(digits) = after(b"cancelled ", line) {
        return cancelled_in(&bytes_in(alloc, digits)?).ok_or(NoEntry::Damaged);
    }
    if let Some(digits) = after(b"key ", line) {
        return key_in(&bytes_in(alloc, digits)?).ok_or(NoEntry::Damaged);
    }
    if let Some(digits) = after(b"renewed ", line) {
        return renewed_in(&bytes_in(alloc, digits)?).ok_or(NoEntry::Damaged);
    }
    if let Some(digits) = after(b"earlier ", line) {
        return earlier_in(&bytes_in(alloc, digits)?).ok_or(NoEntry::Damaged);
    }
    Err(NoEntry::Damaged)
}

// What stands after this word.
fn after<'a>(word: &[u8], line: &'a [u8]) -> Option<&'a [u8]>
    ensures { option_map (λ rest. rest.now) result ≡ after word.now line.now }
{
    match word {
        [] => Some(line),
        [first, word @ ..] => match line {
            [byte, line @ ..] if *first == *byte => after(word, line),
            _ => None,
        },
    }
}

// The bytes that these digits stand for.
fn bytes_in(alloc: Global, digits: &[u8]) -> Result<Vec<u8>, NoEntry>
    ensures bytes { IfOk result (λ bytes. bytes_in digits.now ≡ Some bytes.items) }
    ensures damaged { IsErrOf result NoEntry.Damaged → bytes_in digits.now ≡ None }
{
    match hex::decode(alloc, digits) {
        Ok(bytes) => Ok(bytes),
        Err(FromHexError::OutOfMemory) => Err(NoEntry::Memory),
        Err(_) => Err(NoEntry::Damaged),
    }
}

// The entry by which a receipt is taken, from its fields.
fn queued_in(alloc: Global, bytes: &[u8]) -> Result<Entry, NoEntry>
    ensures entry { IfOk result (λ entry. queued_in bytes.now ≡ Some entry) }
    ensures damaged { IsErrOf result NoEntry.Damaged → queued_in bytes.now ≡ None }
{
    let [high, low, code, text @ ..] = bytes else {
        return Err(NoEntry::Damaged);
    };
    let (Some(width), Some(replacement)) = (width_in(*high, *low), replacement_in(*code)) else {
        return Err(NoEntry::Damaged);
    };
    match text.to_vec(alloc) {
        Ok(text) => Ok(Entry::Queued {
            content: Content::with_options(text, ReceiptOptions { width, replacement }),
        }),
        Err(_) => Err(NoEntry::Memory),
    }
}

// The width that these bytes are.
fn width_in(high: u8, low: u8) -> Option<LineWidth>
    ensures { result ≡ width_in (high ∷ low ∷ []) }
{
    LineWidth::new(u16::from_be_bytes([high, low]))
}

// The replacement that this byte is, 0 for none.
fn replacement_in(byte: u8) -> Option<Option<Replacement>>
    ensures { result ≡ replacement_in byte }
{
    if byte == 0 {
        return Some(None);
    }
    match Replacement::new(byte) {
        Some(replacement) => Some(Some(replacement)),
        None => None,
    }
}

// The entry by which a receipt is tried, from its fields.
fn tried_in(bytes: &[u8]) -> Option<Entry>
    ensures { result ≡ tried_in bytes.now }
{
    if bytes.len() < 8 {
        return None;
    }
    let (number, next) = bytes.split_at(8);
    match (number_in(number), mark_in(next)) {
        (Some(number), Some(next)) => Some(Entry::Tried { number, next }),
        _ => None,
    }
}

// The entry by which a receipt is recorded, from its fields.
fn recorded_in(bytes: &[u8]) -> Option<Entry>
    ensures { result ≡ recorded_in bytes.now }
{
    if bytes.len() < 8 {
        return None;
    }
    let (number, heard) = bytes.split_at(8);
    match (number_in(number), heard_in(heard)) {
        (Some(number), Some(heard)) => Some(Entry::Recorded { number, heard }),
        _ => None,
    }
}

// What is heard of marks, by these bytes; 0 where there are none.
fn heard_in(bytes: &[u8]) -> Option<u32>
    ensures { result ≡ heard_in bytes.now }
{
    if bytes.is_empty() {
        Some(0)
    } else {
        mark_in(bytes)
    }
}

// The entry by which the next mark number is raised, from its fields.
fn raised_in(bytes: &[u8]) -> Option<Entry>
    ensures { result ≡ raised_in bytes.now }
{
    if bytes.len() < 4 {
        return None;
    }
    let (next, heard) = bytes.split_at(4);
    match (mark_in(next), heard_in(heard)) {
        (Some(next), Some(heard)) => Some(Entry::Raised { next, heard }),
        _ => None,
    }
}

// The entry by which a receipt is cancelled, from its fields.
fn cancelled_in(bytes: &[u8]) -> Option<Entry>
    ensures { result ≡ cancelled_of (number_in bytes.now) }
{
    match number_in(bytes) {
        Some(number) => Some(Entry::Cancelled { number }),
        None => None,
    }
}

// The entry by which a key is said, from its field.
fn key_in(bytes: &[u8]) -> Option<Entry>
    ensures { result ≡ key_in bytes.now }
{
    match ReceiptKey::new(bytes) {
        Some(key) => Some(Entry::Key { key }),
        None => None,
    }
}

// The entry by which a ledger goes on from an older one, from its fields.
fn renewed_in(bytes: &[u8]) -> Option<Entry>
    ensures { result ≡ renewed_in bytes.now }
{
    if bytes.len() < 4 {
        return None;
    }
    let (last, heard) = bytes.split_at(4);
    match (mark_in(last), mark_in(heard)) {
        (Some(last), Some(heard)) => Some(Entry::Renewed { last, heard }),
        _ => None,
    }
}

// The entry by which the key of a receipt of an older ledger is said, from its fields.
fn earlier_in(bytes: &[u8]) -> Option<Entry>
    ensures { result ≡ earlier_in bytes.now }
{
    if bytes.len() < 8 {
        return None;
    }
    let (number, key) = bytes.split_at(8);
    match number_in(number) {
        Some(number) => earlier_of(number, key),
        None => None,
    }
}

// The entry by which this key of a receipt of an older ledger is said.
fn earlier_of(number: ReceiptNumber, bytes: &[u8]) -> Option<Entry>
    ensures { result ≡ earlier_of (Some number) bytes.now }
{
    match ReceiptKey::new(bytes) {
        Some(key) => Some(Entry::Earlier { number, key }),
        None => None,
    }
}

// The number of a receipt that these bytes are.
fn number_in(bytes: &[u8]) -> Option<ReceiptNumber>
    ensures { result ≡ number_in bytes.now }
{
    match <[u8; 8]>::try_from(bytes) {
        Ok(bytes) => ReceiptNumber::new(usize::from_be_bytes(bytes)),
        Err(_) => None,
    }
}

// The mark number that these bytes are.
fn mark_in(bytes: &[u8]) -> Option<u32>
    ensures { result ≡ mark_in bytes.now }
{
    match <[u8; 4]>::try_from(bytes) {
        Ok(bytes) => Some(u32::from_be_bytes(bytes)),
        Err(_) => None,
    }
}

/// Proof only: the line of an entry gives the entry back.
pub fn line_read_back()
    ensures { (entry : EntryValue) → IsReal entry → entry_in (line_of entry) ≡ Some entry }
{}
