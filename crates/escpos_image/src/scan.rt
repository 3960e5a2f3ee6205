//! Numbers in decimal and the gaps before them: blanks, and comments from `#` to the end of the line.

ghost use Rattle.std.specs.Prelude.{◌≡◌, ◌+◌, ◌≤◌, ◌==◌, ◌||◌, length, min, false};
ghost use Rattle.std.specs.List.{prefix_len};
ghost use Rattle.escpos_image.specs.Scan.{is_blank, ends_line, is_digit, gap_length, decimal_value, number_at};

/// What stands for every number above 65,535: no size and no sample value is greater.
pub const TOO_GREAT: usize = 65_536;

const _: () = prove!(TOO_GREAT == 65_536);

/// A run of digits, from `start` up to `end`, which may be empty.
#[derive(Clone, Copy, Debug, PartialEq, Eq)]
pub struct Number {
    /// The place of its first digit.
    pub start: usize,
    /// The place after its last digit.
    pub end: usize,
    /// What it says, or `TOO_GREAT` if that is more.
    pub value: usize,
}

/// The digits that follow the gap at this place; both may be empty.
pub fn number_at(bytes: &[u8], at: usize) -> Number
    requires { at ≤ length bytes.now }
    ensures value { result ≡ number_at bytes.now at }
    ensures gap { at ≤ result.start }
    ensures digits { result.start ≤ result.end }
    ensures within { result.end ≤ length bytes.now }
{
    let start = at + gap_length(&bytes[at..]);
    let end = start + digit_count(&bytes[start..]);
    Number {
        start,
        end,
        value: value_of(&bytes[start..end]),
    }
}

/// How many bytes of blanks and comments come first.
pub fn gap_length(rest: &[u8]) -> usize
    ensures value { result ≡ gap_length false rest.now }
    ensures within { result ≤ length rest.now }
{
    let mut in_comment = false;
    for (i, byte) in rest.iter().enumerate() {
        if in_comment {
            in_comment = !ends_line(*byte);
        } else if *byte == b'#' {
            in_comment = true;
        } else if !is_blank(*byte) {
            return i;
        }
    }
    rest.len()
}

/// Whether the byte is a blank: a space, a tab, or an end of a line.
pub fn is_blank(byte: u8) -> bool
    ensures { result ≡ is_blank byte }
{
    byte == b' ' || byte == b'\t' || ends_line(byte)
}

// Whether the byte ends a line.
fn ends_line(byte: u8) -> bool
    ensures { result ≡ ends_line byte }
{
    byte == b'\n' || byte == b'\r'
}

// How many digits come first.
fn digit_count(rest: &[u8]) -> usize
    ensures value { result ≡ prefix_len is_digit rest.now }
    ensures within { result ≤ length rest.now }
{
    for (i, byte) in rest.iter().enumerate() {
        if !matches!(*byte, b'0'..=b'9') {
            return i;
        }
    }
    rest.len()
}

// What digits say in decimal, or `TOO_GREAT` if that is more.
fn value_of(digits: &[u8]) -> usize
    ensures { result ≡ min TOO_GREAT (decimal_value digits.now) }
{
    let mut value = 0;
    for digit in digits {
        value = (10 * value + usize::from(digit.saturating_sub(b'0'))).min(TOO_GREAT);
    }
    value
}
