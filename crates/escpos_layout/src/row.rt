//! The fields of a row.

ghost use Rattle.std.specs.Prelude.{◌≡◌, ◌≤◌, ◌↔◌, IsTrue};
ghost use Rattle.std.specs.List.{AllByRecursion};
ghost use Rattle.escpos_layout.specs.Layouts.{FitsLine};

use crate::columns::Columns;
use std::marker::Model;

/// At which side of its field, or of a line, a text stands.
#[derive(Clone, Copy, Debug, PartialEq, Eq)]
pub enum Side {
    Left,
    Right,
}

/// The characters of a text, in NFC. The model is their list.
#[derive(Debug, Drop)]
pub struct Characters {
    characters: Vec<char>,
}

impl Model for Characters {
    ghost use Rattle.std.specs.Prelude.{ℕ, List};

    ghost Value = { List ℕ };

    ghost view = { λ text. text.characters.items };
}

impl Characters {
    /// These characters.
    pub fn new(characters: Vec<char>) -> Self
        ensures { result ≡ characters.items }
    {
        Characters { characters }
    }

    /// The characters, in order.
    pub fn as_slice(&self) -> &[char]
        ensures { result.now ≡ self.now }
    {
        self.characters.as_slice()
    }
}

/// A text in so many columns of a row.
#[derive(Debug, Drop)]
pub struct Field {
    /// The text. Characters that don't fit into the field aren't printed.
    pub text: Characters,
    /// How many characters the field has.
    pub width: usize,
    /// At which side of the field the text stands.
    pub side: Side,
}

/// Whether fields side by side fit on a line: none has a width of 0, and together they have at most as many characters as the line.
pub fn fits_line(fields: &[Field], columns: Columns) -> bool
    ensures { IsTrue result ↔ FitsLine columns fields.now }
{
    let mut left = columns.count();
    for field in fields {
        if field.width == 0 || field.width > left {
            return false;
        }
        left -= field.width;
    }
    true
}
