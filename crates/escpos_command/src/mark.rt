//! The id of a mark, and the numbers that a host gives its marks.
//!
//! A mark is the process ID request GS ( H, function 48. Its id is any four printing characters; a host numbers its marks,
//! and writes the number as four base-36 digits.

ghost use Rattle.std.specs.Prelude.{◌≡◌, ◌≢◌, ◌<◌, ℕ, IsTrue, MatchOption};
ghost use Rattle.std.specs.Option.{SomeIff};
ghost use Rattle.escpos_command.specs.Parameters.{is_mark_byte, is_mark_id};
ghost use Rattle.escpos_command.specs.Digits.{mark_count, mark_of, digit_character};

use std::marker::Model;

/// The four id bytes of a mark, each 32 to 126. (Reference: GS ( H, function 48.)
#[derive(Clone, Copy, Debug, PartialEq, Eq)]
pub struct MarkId {
    bytes: [u8; 4],
}

impl Model for MarkId {
    ghost use Rattle.std.specs.Prelude.{List, ℕ, IsTrue};
    ghost use Rattle.escpos_command.specs.Parameters.{is_mark_id};

    ghost Value = { List ℕ };

    ghost view = { λ m. m.bytes };

    ghost invariant = { λ m. IsTrue (is_mark_id m.bytes) };

    ghost inverse = { λ id. record { bytes = id } };
}

impl MarkId {
    /// The id of these bytes; `None` where one of them isn't 32 to 126.
    pub fn new(bytes: [u8; 4]) -> Option<Self>
        ensures { SomeIff result (IsTrue (is_mark_id bytes)) bytes }
    {
        let [first, second, third, fourth] = bytes;
        if is_mark_byte(first)
            && is_mark_byte(second)
            && is_mark_byte(third)
            && is_mark_byte(fourth)
        {
            Some(MarkId { bytes })
        } else {
            None
        }
    }

    /// The id of mark number `number`; `None` from 1,679,616.
    pub fn of_number(number: u32) -> Option<Self>
        ensures { SomeIff result (number < mark_count) (mark_of number) }
    {
        if number >= 36 * 36 * 36 * 36 {
            return None;
        }
        Some(MarkId {
            bytes: [
                digit_character(number / (36 * 36 * 36)),
                digit_character(number / (36 * 36) % 36),
                digit_character(number / 36 % 36),
                digit_character(number % 36),
            ],
        })
    }

    /// The number whose id this is; `None` where a byte isn't a base-36 digit 0-9, A-Z.
    pub fn number(self) -> Option<u32>
        ensures { MatchOption result
            ((n : ℕ) → n < mark_count → mark_of n ≢ self)
            (λ n. (n < mark_count) × (mark_of n ≡ self)) }
    {
        let [first, second, third, fourth] = self.bytes;
        let first = digit_value(first)?;
        let second = digit_value(second)?;
        let third = digit_value(third)?;
        let fourth = digit_value(fourth)?;
        Some(((first * 36 + second) * 36 + third) * 36 + fourth)
    }

    /// The four bytes as sent, d1 to d4.
    pub fn bytes(self) -> [u8; 4]
        ensures kept { result ≡ self }
        ensures range { IsTrue (is_mark_id result) }
    {
        self.bytes
    }
}

/// Whether a byte is a printing ASCII character, 32 to 126, as each byte of an id is.
pub fn is_mark_byte(byte: u8) -> bool
    ensures { result ≡ is_mark_byte byte }
{
    32 <= byte && byte <= 126
}

// The character of a base-36 digit.
fn digit_character(digit: u32) -> u8
    requires { digit < 36 }
    ensures { result ≡ digit_character digit }
{
    if digit < 10 {
        b'0' + digit as u8
    } else {
        b'A' + (digit as u8 - 10)
    }
}

// The base-36 digit of a character.
fn digit_value(byte: u8) -> Option<u32>
    ensures { MatchOption result
        ((d : ℕ) → d < 36 → digit_character d ≢ byte)
        (λ d. (d < 36) × (digit_character d ≡ byte)) }
{
    match byte {
        b'0'..=b'9' => Some(u32::from(byte - b'0')),
        b'A'..=b'Z' => Some(u32::from(byte - b'A') + 10),
        _ => None,
    }
}
