//! The parameter of a character: its byte.

ghost use Rattle.std.specs.Prelude.{◌≡◌, ℕ, IsTrue};
ghost use Rattle.std.specs.Option.{SomeIff};
ghost use Rattle.escpos_command.specs.Parameters.{is_character};

use std::marker::Model;

/// A character, 20 to FF hexadecimal. Which picture it stands for is left to the code table in force.
/// (Reference: "Printing characters".)
#[derive(Clone, Copy, Debug, PartialEq, Eq)]
pub struct Character {
    byte: u8,
}

impl Model for Character {
    ghost Value = { ℕ };

    ghost view = { λ p. p.byte };

    ghost invariant = { λ p. IsTrue (is_character p.byte) };

    ghost inverse = { λ n. record { byte = n } };
}

impl Character {
    /// The character of this byte; `None` below 20 hexadecimal.
    pub fn new(byte: u8) -> Option<Self>
        ensures { SomeIff result (IsTrue (is_character byte)) byte }
    {
        if byte >= 0x20 {
            Some(Character { byte })
        } else {
            None
        }
    }

    /// The byte as sent, 20 to FF hexadecimal.
    pub fn byte(self) -> u8
        ensures kept { result ≡ self }
        ensures range { IsTrue (is_character result) }
    {
        self.byte
    }
}
