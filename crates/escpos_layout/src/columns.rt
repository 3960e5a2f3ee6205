//! How many characters a line has.

ghost use Rattle.std.specs.Prelude.{◌≡◌, ◌≤◌, ℕ};
ghost use Rattle.std.specs.Option.{SomeIff};
ghost use Rattle.escpos_layout.specs.Columns.{columns_of};

use escpos_command::LineWidth;
use escpos_paper::Style;
use std::marker::Model;

/// How many characters a line has, at least 1: a character wider than the line has a row of its own.
#[derive(Clone, Copy, Debug, PartialEq, Eq)]
pub struct Columns {
    count: usize,
}

impl Model for Columns {
    ghost use Rattle.std.specs.Prelude.{ℕ, ◌≤◌};

    ghost Value = { ℕ };

    ghost view = { λ columns. columns.count };

    ghost invariant = { λ columns. 1 ≤ columns.count };

    ghost inverse = { λ n. record { count = n } };
}

impl Columns {
    /// A line of so many characters; `None` for 0.
    pub fn new(count: usize) -> Option<Self>
        ensures { SomeIff result (1 ≤ count) count }
    {
        if count >= 1 {
            Some(Columns { count })
        } else {
            None
        }
    }

    /// How many characters of this style a line of this width has.
    pub fn of(width: LineWidth, style: &Style) -> Self
        ensures { result ≡ columns_of width style.now }
    {
        match (width.dots() as usize).checked_div(style.dots()) {
            Some(count) if count >= 1 => Columns { count },
            _ => Columns { count: 1 },
        }
    }

    /// How many they are.
    pub fn count(self) -> usize
        ensures kept { result ≡ self }
        ensures least { 1 ≤ result }
    {
        self.count
    }
}
