//! The lines of the help that say which commands only set something: one for each row of their table.

ghost use Rattle.std.specs.Prelude.{◌≡◌, ◌+◌, ◌<◌, ◌≤◌, ◌++◌, ℕ, Option, length, OnOk, IfErr, IsTrue};
ghost use Rattle.std.specs.Io.KnownBytes.{Appends};
ghost use Rattle.std.specs.List.{flat_map};
ghost use Rattle.escpos_help.specs.Help.{digit, digits, letters, second_letters, setting_line, setting_lines, third_digits};

use arrayvec::ArrayVec;
use escpos_command::{ESC, FS, GS, Row, TABLE};
use escpos_io::{ByteOut, Device, put_all};

// More bytes than a line has.
const LINE_BYTES: usize = 64;

const _: () = prove!(LINE_BYTES == 64);

/// Prints the lines of all rows. On `Err` the output has failed.
pub(crate) fn put_settings<W: ByteOut>(output: &mut W) -> Result<(), Device>
    ensures all { OnOk result (Appends (W.written output.old) (W.written output.new) setting_lines) }
    ensures failed { IfErr result (λ _. IsTrue (W.failed output.new)) }
    ensures not_failed { OnOk result (¬ IsTrue (W.failed output.old) → ¬ IsTrue (W.failed output.new)) }
{
    put_rows(&TABLE, output)
}

// Prints the lines of these rows.
fn put_rows<W: ByteOut>(rows: &[Row], output: &mut W) -> Result<(), Device>
    ensures all { OnOk result (Appends (W.written output.old) (W.written output.new) (flat_map setting_line rows.now)) }
    ensures failed { IfErr result (λ _. IsTrue (W.failed output.new)) }
    ensures not_failed { OnOk result (¬ IsTrue (W.failed output.old) → ¬ IsTrue (W.failed output.new)) }
{
    for row in rows {
        put_all(&line_of(row), output)?;
    }
    Ok(())
}

// The line of a row.
#[tactic(auto, unfolding(crate::specs::Help::setting_line))]
fn line_of(row: &Row) -> ArrayVec<u8, LINE_BYTES>
    ensures { result.items ≡ setting_line row.now }
{
    let mut line = ArrayVec::new();
    add(&mut line, b"          ");
    add(&mut line, &digits(row.first));
    add(&mut line, b" ");
    add(&mut line, &digits(row.second));
    add(&mut line, &third_digits(row.third));
    add(&mut line, b"  ");
    add(&mut line, &letters(row));
    add(&mut line, b"taken: ");
    add(&mut line, row.kind.name().as_bytes());
    add(&mut line, b"\n");
    line
}

fn add(line: &mut ArrayVec<u8, LINE_BYTES>, bytes: &[u8])
    requires { length line.old.items + length bytes.now ≤ LINE_BYTES }
    ensures { line.new.items ≡ line.old.items ++ bytes.now }
{
    line.try_extend_from_slice(bytes).unwrap();
}

// The digits of a byte.
fn digits(byte: u8) -> [u8; 2]
    ensures { result ≡ digits byte }
{
    [digit(byte / 16), digit(byte % 16)]
}

// A digit.
fn digit(value: u8) -> u8
    requires { value < 16 }
    ensures { result ≡ digit value }
{
    if value < 10 {
        b'0' + value
    } else {
        b'A' + (value - 10)
    }
}

// The digits of a third byte, or as many spaces.
fn third_digits(third: Option<u8>) -> [u8; 3]
    ensures { result ≡ third_digits third }
{
    match third {
        None => *b"   ",
        Some(byte) => {
            let [high, low] = digits(byte);
            [b' ', high, low]
        }
    }
}

// The letters of a prefix.
fn letters(row: &Row) -> [u8; 8]
    ensures { result ≡ letters row.now }
{
    let [second, space, third, last] = second_letters(row.second, row.third);
    match row.first {
        ESC => [b'E', b'S', b'C', b' ', second, space, third, last],
        FS => [b'F', b'S', b' ', second, space, third, last, b' '],
        GS => [b'G', b'S', b' ', second, space, third, last, b' '],
        _ => [b'?', b' ', b' ', second, space, third, last, b' '],
    }
}

// The letters of a second byte and a third. A space is written SP.
fn second_letters(second: u8, third: Option<u8>) -> [u8; 4]
    ensures { result ≡ second_letters second third }
{
    match third {
        None if second == b' ' => *b"SP  ",
        None => [second, b' ', b' ', b' '],
        Some(third) => [second, b' ', third, b' '],
    }
}
