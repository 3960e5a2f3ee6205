//! Positions in a line, and the columns of tab stops.

ghost use Rattle.std.specs.Prelude.{◌≡◌, ◌≤◌, length, IsTrue, IsOk, MatchResult, false};
ghost use Rattle.escpos_command.specs.Parameters.{is_tab_stops, is_word, rises_from};
ghost use Rattle.escpos_command.specs.Positions.{position_prefix};

use crate::content::Bytes;
use std::marker::Model;

/// What a number of dots is a position of.
#[derive(Clone, Copy, Debug, PartialEq, Eq)]
pub enum PositionKind {
    /// Where the next character stands, from the beginning of the line. (Reference: ESC $.)
    Absolute,
    /// Where the next character stands, from where it would stand: to the right, or for a number of 32,768 or more as much less than
    /// 65,536 to the left. (Reference: ESC \\.)
    Relative,
    /// The left margin. (Reference: GS L.)
    LeftMargin,
    /// The width of the printing area. (Reference: GS W.)
    AreaWidth,
}

impl PositionKind {
    /// The bytes that the command begins with.
    pub fn prefix(self) -> &'static [u8]
        ensures letters { result.now ≡ position_prefix self }
        ensures short { length result.now ≤ 2 }
    {
        match self {
            PositionKind::Absolute => b"\x1B$",
            PositionKind::Relative => b"\x1B\\",
            PositionKind::LeftMargin => b"\x1DL",
            PositionKind::AreaWidth => b"\x1DW",
        }
    }
}

/// A position, as sent. (Reference: ESC $, ESC \\, GS L, GS W.)
#[derive(Clone, Copy, Debug, PartialEq, Eq)]
pub struct Position {
    kind: PositionKind,
    units: u16,
}

impl Model for Position {
    ghost use Rattle.std.specs.Prelude.{ℕ, IsTrue};
    ghost use Rattle.escpos_command.specs.Parameters.{is_word};
    ghost use Rattle.escpos_command.specs.declared.parameter.position.PositionKind.{PositionKind};

    ghost Value = { PositionKind × ℕ };

    ghost view = { λ p. (p.kind, p.units) };

    ghost invariant = { λ p. IsTrue (is_word p.units) };

    ghost inverse = { λ v. record { kind = v.0; units = v.1 } };
}

impl Position {
    /// The position of this kind and this many motion units, each a dot.
    pub fn new(kind: PositionKind, units: u16) -> Self
        ensures { result ≡ (kind, units) }
    {
        Position { kind, units }
    }

    /// What it is a position of.
    pub fn kind(self) -> PositionKind
        ensures { result ≡ self.0 }
    {
        self.kind
    }

    /// The number as sent, 0 to 65,535.
    pub fn units(self) -> u16
        ensures kept { result ≡ self.1 }
        ensures range { IsTrue (is_word result) }
    {
        self.units
    }
}

/// The columns of tab stops: at most 32, each 1 to 255 and greater than the one before. (Reference: ESC D.)
#[derive(Clone, Debug, Drop)]
pub struct TabStops {
    columns: Bytes,
}

impl Model for TabStops {
    ghost use Rattle.std.specs.Prelude.{List, ℕ, IsTrue};
    ghost use Rattle.escpos_command.specs.Parameters.{is_tab_stops};

    ghost Value = { List ℕ };

    ghost view = { λ t. t.columns };

    ghost invariant = { λ t. IsTrue (is_tab_stops t.columns) };
}

impl TabStops {
    /// The tab stops at these columns. `Err` returns the bytes, where they don't rise from 1 on or are more than 32. Allocates nothing.
    pub fn new(columns: Vec<u8>) -> Result<Self, Vec<u8>>
        ensures result { MatchResult result
            (λ stops. (stops ≡ columns.items) × IsTrue (is_tab_stops stops))
            (λ back. (back ≡ columns) × (is_tab_stops columns.items ≡ false)) }
        ensures exact { IsTrue (is_tab_stops columns.items) → IsOk result }
    {
        if columns.len() > 32 || !rises_from(0, &columns) {
            return Err(columns);
        }
        Ok(TabStops {
            columns: Bytes::new(columns),
        })
    }

    /// The columns.
    pub fn as_slice(&self) -> &[u8]
        ensures columns { result.now ≡ self.now }
        ensures range { IsTrue (is_tab_stops self.now) }
        ensures few { length result.now ≤ 32 }
    {
        self.columns.as_slice()
    }

    /// Gives the columns away. Allocates nothing.
    pub fn into_columns(self) -> Bytes
        ensures { result ≡ self }
    {
        self.columns
    }
}

// Whether bytes rise, from one that is greater than the number before them.
fn rises_from(before: u8, bytes: &[u8]) -> bool
    ensures { result ≡ rises_from before bytes.now }
{
    let mut last = before;
    for byte in bytes {
        if *byte <= last {
            return false;
        }
        last = *byte;
    }
    true
}

impl PartialEq for TabStops {
    ghost use Rattle.std.specs.Prelude.{nat_eq};
    ghost use Rattle.std.specs.Cmp.Lexicographic.{pointwise, nat_list_eq_equiv};
    ghost use Rattle.std.specs.Cmp.{partial_equiv_from_equiv};

    ghost eq = { pointwise nat_eq };

    ghost laws = { partial_equiv_from_equiv nat_list_eq_equiv };

    fn eq(&self, other: &TabStops) -> bool {
        self.as_slice() == other.as_slice()
    }
}

impl Eq for TabStops {
    ghost use Rattle.std.specs.Cmp.Lexicographic.{nat_list_eq_equiv};

    ghost laws = { nat_list_eq_equiv };
}
