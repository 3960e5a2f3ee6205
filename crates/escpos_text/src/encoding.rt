//! What is in force where a text is written, and why a text is refused.

ghost use Rattle.std.specs.Prelude.{◌≡◌, ◌≤◌, IsTrue, None, Some};
ghost use Rattle.std.specs.Option.{SomeIff};
ghost use Rattle.escpos_text.specs.Replacements.{is_replacement};
ghost use Rattle.escpos_text.specs.Choices.{usual_tables};

use crate::choice::Choice;
use std::marker::Model;

/// What is printed for a character that no table in reach has: a character of ASCII, 20 to 7E hexadecimal.
#[derive(Clone, Copy, Debug, PartialEq, Eq)]
pub struct Replacement {
    byte: u8,
}

impl Model for Replacement {
    ghost use Rattle.std.specs.Prelude.{ℕ, IsTrue};
    ghost use Rattle.escpos_text.specs.Replacements.{is_replacement};

    ghost Value = { ℕ };

    ghost view = { λ replacement. replacement.byte };

    ghost invariant = { λ replacement. IsTrue (is_replacement replacement.byte) };

    ghost inverse = { λ n. record { byte = n } };
}

impl Replacement {
    /// The replacement by this character; `None` unless it is one of ASCII's, 20 to 7E hexadecimal.
    pub fn new(byte: u8) -> Option<Self>
        ensures { SomeIff result (IsTrue (is_replacement byte)) byte }
    {
        if byte >= 0x20 && byte <= 0x7E {
            Some(Replacement { byte })
        } else {
            None
        }
    }

    /// The character.
    pub fn character(self) -> char
        ensures kept { result ≡ self }
        ensures range { IsTrue (is_replacement result) }
    {
        char::from(self.byte)
    }
}

/// What is in force where a text is written.
#[derive(Clone, Copy, Debug, PartialEq, Eq)]
pub struct Encoding {
    /// The international character set. (Reference: ESC R.)
    pub set: u8,
    /// The code table. (Reference: ESC t.)
    pub table: u8,
    /// The tables that the text may select.
    pub choice: Choice,
    /// What is printed for a character that no table in reach has; without it such a text is refused.
    pub replacement: Option<Replacement>,
}

impl Encoding {
    /// What is in force after ESC @: set 0 and table 0; the usual choice and no replacement.
    pub fn new() -> Self
        ensures { result ≡ record { set = 0; table = 0; choice = usual_tables; replacement = None } }
    {
        Encoding {
            set: 0,
            table: 0,
            choice: Choice::usual(),
            replacement: None,
        }
    }
}

/// Why a text isn't written.
#[derive(Clone, Copy, Debug, PartialEq, Eq)]
pub enum TextFault {
    /// A control code of ASCII, below 20 hexadecimal.
    Control(char),
    /// Neither the table in force nor one of the choice has this character, nor what may be shown for it.
    NoCharacter(char),
    /// Out of memory.
    Memory,
}
