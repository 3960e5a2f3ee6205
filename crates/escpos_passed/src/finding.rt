//! Whether a command that is passed over begins some bytes.

ghost use Rattle.std.specs.Prelude.{◌≡◌, ◌≢◌, ◌≤◌, ◌<◌, [], ◌∷◌, ◌++◌, length, take};
ghost use Rattle.escpos_passed.specs.Table.{prefix_bytes, allows, is_graphics, is_long_graphics, may_allow};
ghost use Rattle.escpos_passed.specs.Finding.{IsFound, IsFoundIn, IsTried, IsAfter};

use crate::length::whole_length;
use crate::table::{Except, Prefix, Row, TABLE};

/// What begins some bytes.
#[derive(Clone, Copy, Debug, PartialEq, Eq)]
pub enum Found {
    /// A command that is passed over: its row of the table, and how many bytes it has.
    Whole { row: Row, length: usize },
    /// All the bytes are the start of such a command, of which more is to come.
    Part,
    /// No such command.
    Nothing,
}

/// Looks for a command that is passed over at the start of `bytes`. Allocates nothing.
pub fn find(bytes: &[u8]) -> Found
    requires begun { bytes.now ≢ [] }
    ensures { IsFound result bytes.now }
{
    find_in(&TABLE, bytes)
}

fn find_in(rows: &[Row], bytes: &[u8]) -> Found
    requires begun { bytes.now ≢ [] }
    ensures { IsFoundIn result rows.now bytes.now }
{
    let mut at = 0;
    while at < rows.len() {
        let row = rows[at];
        match try_row(&row, bytes) {
            Tried::Whole(length) => return Found::Whole { row, length },
            Tried::Part => return Found::Part,
            Tried::Nothing => at += 1,
        }
    }
    Found::Nothing
}

// What a command of one row is to some bytes.
#[derive(Clone, Copy, Debug, PartialEq, Eq)]
enum Tried {
    Whole(usize),
    Part,
    Nothing,
}

fn try_row(row: &Row, bytes: &[u8]) -> Tried
    requires begun { bytes.now ≢ [] }
    ensures { IsTried result row.now bytes.now }
{
    let rest = match after_prefix(row.prefix, bytes) {
        After::Rest(rest) => rest,
        After::Start => return Tried::Part,
        After::Other => return Tried::Nothing,
    };
    if !may_allow(row.except, rest) {
        return Tried::Nothing;
    }
    match whole_length(row.form, rest) {
        Some(length) if length <= rest.len() => {
            if allows(row.except, &rest[..length]) {
                Tried::Whole(bytes.len() - rest.len() + length)
            } else {
                Tried::Nothing
            }
        }
        _ => Tried::Part,
    }
}

// What stands after some wanted bytes.
enum After<'a> {
    // The bytes begin with those that are wanted, and this is the rest.
    Rest(&'a [u8]),
    // They end within those that are wanted.
    Start,
    // They differ.
    Other,
}

fn after_prefix(prefix: Prefix, bytes: &[u8]) -> After<'_>
    ensures { IsAfter result (prefix_bytes prefix) bytes.now }
{
    match prefix {
        Prefix::One(first) => after_byte(first, bytes),
        Prefix::Two(first, second) => after_two(first, second, bytes),
        Prefix::Three(first, second, third) => after_three(first, second, third, bytes),
        Prefix::With(first, second, parameter) => after_three(first, second, parameter, bytes),
    }
}

fn after_three(first: u8, second: u8, third: u8, bytes: &[u8]) -> After<'_>
    ensures { IsAfter result (first ∷ second ∷ third ∷ []) bytes.now }
{
    match after_two(first, second, bytes) {
        After::Rest(rest) => after_byte(third, rest),
        After::Start => After::Start,
        After::Other => After::Other,
    }
}

fn after_two(first: u8, second: u8, bytes: &[u8]) -> After<'_>
    ensures { IsAfter result (first ∷ second ∷ []) bytes.now }
{
    match after_byte(first, bytes) {
        After::Rest(rest) => after_byte(second, rest),
        After::Start => After::Start,
        After::Other => After::Other,
    }
}

fn after_byte(wanted: u8, bytes: &[u8]) -> After<'_>
    ensures { IsAfter result (wanted ∷ []) bytes.now }
{
    match bytes {
        [] => After::Start,
        [byte, rest @ ..] if *byte == wanted => After::Rest(rest),
        _ => After::Other,
    }
}

// The bytes after a prefix have a function, and it isn't an excepted one, if there is one.
fn allows(except: Option<Except>, bytes: &[u8]) -> bool
    ensures { result ≡ allows except bytes.now }
{
    match (except, bytes) {
        (None, _) => true,
        (Some(Except::First(code)), [_, _, byte, ..]) => *byte != code,
        (Some(Except::Graphics), [_, _, m, function, ..]) => !is_graphics(*m, *function),
        (Some(Except::LongGraphics), [_, _, _, _, m, function, ..]) => {
            !is_long_graphics(*m, *function)
        }
        _ => false,
    }
}

// The same, where the function may still come.
fn may_allow(except: Option<Except>, bytes: &[u8]) -> bool
    ensures { result ≡ may_allow except bytes.now }
{
    match (except, bytes) {
        (Some(Except::First(code)), [_, _, byte, ..]) => *byte != code,
        (Some(Except::Graphics), [_, _, m, function, ..]) => !is_graphics(*m, *function),
        (Some(Except::LongGraphics), [_, _, _, _, m, function, ..]) => {
            !is_long_graphics(*m, *function)
        }
        _ => true,
    }
}

// Whether these two bytes are a function of GS ( L that is taken.
fn is_graphics(m: u8, function: u8) -> bool
    ensures { result ≡ is_graphics m function }
{
    m == 0x30 && matches!(function, 0x02 | 0x32 | 0x70)
}

// Whether these two bytes are a function of GS 8 L that is taken.
fn is_long_graphics(m: u8, function: u8) -> bool
    ensures { result ≡ is_long_graphics m function }
{
    m == 0x30 && function == 0x70
}
