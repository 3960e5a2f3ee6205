//! Where a text is broken into lines.

ghost use Rattle.std.specs.Prelude.{◌≡◌, ◌+◌, ◌≤◌, ◌<◌, length, drop, take, true, false};
ghost use Rattle.std.specs.List.{prefix_len};
ghost use Rattle.escpos_layout.specs.Wrapping.{is_blank, end_without, line_end, next_line};

use crate::columns::Columns;

/// A line of a text.
#[derive(Clone, Copy)]
pub struct Line {
    /// The place of its first character.
    pub start: usize,
    /// The place after its last character.
    pub end: usize,
    /// Where the next line begins, after the blanks at which this one was broken.
    pub next: usize,
}

/// The line of a text that begins at a place.
pub fn line_from(columns: Columns, text: &[char], start: usize) -> Line
    requires { start ≤ length text.now }
    ensures start { result.start ≡ start }
    ensures end { result.end ≡ start + line_end columns (drop start text.now) }
    ensures next { result.next ≡ start + next_line columns (drop start text.now) }
    ensures in_text { (result.end ≤ result.next) × (result.next ≤ length text.now) }
    ensures some { 1 ≤ columns }
    ensures goes_on { start < length text.now → start < result.next }
{
    let (_, rest) = text.split_at(start);
    let end = line_end(columns, rest);
    let next = after_blanks(rest, end);
    Line {
        start,
        end: start + end,
        next: start + next,
    }
}

// How many characters the first line of a text has.
fn line_end(columns: Columns, text: &[char]) -> usize
    ensures place { result ≡ line_end columns text.now }
    ensures in_text { result ≤ length text.now }
    ensures some { 1 ≤ columns }
{
    let count = columns.count();
    if text.len() <= count {
        return text.len();
    }
    let words = end_without(text, count + 1, false);
    if words == 0 {
        count
    } else {
        end_without(text, words, true)
    }
}

// Where the blanks begin that end a text at a place, or where the characters begin that are none.
fn end_without(text: &[char], end: usize, blanks: bool) -> usize
    requires { end ≤ length text.now }
    ensures place { result ≡ end_without blanks end text.now }
    ensures in_text { result ≤ end }
{
    let mut at = end;
    while at > 0 && (text[at - 1] == ' ') == blanks {
        at -= 1;
    }
    at
}

// The place after the blanks that begin at a place.
fn after_blanks(text: &[char], start: usize) -> usize
    requires { start ≤ length text.now }
    ensures place { result ≡ start + prefix_len is_blank (drop start text.now) }
    ensures in_text { result ≤ length text.now }
{
    let mut at = start;
    while at < text.len() && text[at] == ' ' {
        at += 1;
    }
    at
}
