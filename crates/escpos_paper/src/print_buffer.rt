//! The line that isn't printed yet.
//!
//! Beside its cells it keeps how many dots they take, where they end and how far they reach, so that one addition decides whether one
//! more cell fits. How wide the printing area is, is a parameter here. A cell alone may be wider than any line.

ghost use Rattle.std.specs.Prelude.{◌≡◌, ◌≢◌, ◌↔◌, ◌+◌, ◌*◌, ◌≤◌, IsTrue, IsFalse, ℕ, List, None, [], ◌∷◌, ◌++◌, length, map};
ghost use Rattle.escpos_command.specs.declared.line_width.TheConstants.{MOST_LINE_DOTS};
ghost use Rattle.escpos_paper.specs.Cells.{cell, moved_to, next_place, nothing_placed, place_after};
ghost use Rattle.escpos_paper.specs.Cells as moves;
ghost use Rattle.escpos_paper.specs.Rows.{fits};
ghost use Rattle.escpos_paper.specs.Steps.{has_room, with_next};
ghost use Rattle.escpos_paper.specs.PowerOn.{is_clear};
ghost use Rattle.escpos_paper.specs.Styles.{is_empty};

use crate::cell::{Cell, Cells};
use crate::stops::Stops;
use crate::style::Style;
use escpos_command::MOST_LINE_DOTS;
use std::marker::Model;

/// Cells that fit into the widest line, and where the next one stands, if it doesn't follow the last.
#[derive(Drop)]
pub struct PrintBuffer {
    cells: Cells,
    used: usize,
    end: usize,
    reach: usize,
    moved: Option<u16>,
}

impl Model for PrintBuffer {
    ghost use Rattle.std.specs.Prelude.{length, ◌*◌, ◌≤◌, ◌≡◌, IsTrue};
    ghost use Rattle.escpos_command.specs.declared.line_width.TheConstants.{MOST_LINE_DOTS};
    ghost use Rattle.escpos_paper.specs.Cells.{Placed, dots, end_of, reach_of};
    ghost use Rattle.escpos_paper.specs.Rows.{fits};

    ghost Value = { Placed };

    ghost view = { λ l. record { cells = l.cells; moved = l.moved } };

    ghost invariant = { λ l. (l.used ≡ dots l.cells) × (l.end ≡ end_of l.cells) × (l.reach ≡ reach_of l.cells) × IsTrue (fits MOST_LINE_DOTS l.cells)
        × (9 * length l.cells ≤ l.used) × (l.used ≤ 4096) × (l.end ≤ 4096) };
}

impl PrintBuffer {
    pub fn new() -> Self
        ensures { result ≡ nothing_placed }
    {
        PrintBuffer {
            cells: Cells::new(),
            used: 0,
            end: 0,
            reach: 0,
            moved: None,
        }
    }

    /// Whether the line has no cell.
    pub fn is_empty(&self) -> bool
        ensures { result ≡ is_empty self.now.cells }
    {
        self.cells.as_slice().is_empty()
    }

    /// Whether the line has no cell, and the next one stands at its beginning.
    pub fn is_clear(&self) -> bool
        ensures value { result ≡ is_clear self.now }
        ensures clear { IsTrue result ↔ (self.now ≡ nothing_placed) }
    {
        self.moved.is_none() && self.is_empty()
    }

    /// Whether the next cell follows the last.
    #[inline]
    pub fn follows(&self) -> bool
        ensures { IsTrue result → self.now.moved ≡ None }
    {
        self.moved.is_none()
    }

    // The dot at which the next cell stands.
    #[inline]
    fn next(&self) -> usize
        ensures value { result ≡ next_place self.now }
        ensures small { result ≤ 65535 }
    {
        match self.moved {
            Some(moved) => usize::from(moved),
            None => self.end,
        }
    }

    /// Whether the cell fits where the next one stands, in a printing area of this width. It does if it stands alone at its beginning.
    pub fn has_room_for(&self, area: usize, cell: &Cell) -> bool
        requires narrow { area ≤ MOST_LINE_DOTS }
        ensures { result ≡ has_room area self.now cell.now }
    {
        if self.moved.is_none() && self.is_empty() {
            return true;
        }
        let dots = cell.dots();
        let reaches = self.reach.max(self.next() + dots) <= area;
        let few = self.used + dots <= MOST_LINE_DOTS as usize;
        reaches & few
    }

    /// How many characters of the style fit after the others in a printing area of this width. One fits if there is none before it.
    pub fn room_for(&self, area: usize, style: &Style) -> usize
        requires narrow { area ≤ MOST_LINE_DOTS }
        requires visible { (1 ≤ style.now.width) × (1 ≤ style.now.height) }
        requires follows { self.now.moved ≡ None }
        ensures fit { (text : List ℕ) → 1 ≤ length text → length text ≤ result
            → IsTrue (fits area (self.now.cells ++ map (cell style.now) text)) }
        ensures none { result ≡ 0 → (byte : ℕ) → IsFalse (fits area (self.now.cells ++ cell style.now byte ∷ [])) }
    {
        let dots = style.dots();
        let all = (MOST_LINE_DOTS as usize).saturating_sub(self.used) / dots;
        let room = (area.saturating_sub(self.end) / dots).min(all);
        if self.is_empty() {
            return room.max(1);
        }
        if self.reach > area {
            return 0;
        }
        room
    }

    /// Puts characters of one style after the others, where together they must fit into the widest line.
    pub fn extend(&mut self, style: Style, text: &[u8])
        requires some { 1 ≤ length text.now }
        requires follows { self.old.moved ≡ None }
        requires room { IsTrue (fits MOST_LINE_DOTS (self.old.cells ++ map (cell style) text.now)) }
        requires visible { (1 ≤ style.width) × (1 ≤ style.height) }
        requires small { (style.width ≤ 8) × (style.height ≤ 8) }
        ensures { self.new ≡ record { cells = self.old.cells ++ map (cell style) text.now; moved = None } }
    {
        let dots = style.dots() * text.len();
        self.used += dots;
        self.end += dots;
        self.reach = self.reach.max(self.end);
        self.cells.extend(&style.cell(b' '), text);
    }

    /// Puts a cell where the next one stands; it must fit into the widest line there.
    pub fn push(&mut self, cell: Cell)
        requires room { IsTrue (has_room MOST_LINE_DOTS self.old cell) }
        requires visible { (1 ≤ cell.style.width) × (1 ≤ cell.style.height) }
        requires small { (cell.style.width ≤ 8) × (cell.style.height ≤ 8) }
        ensures { self.new ≡ record { cells = with_next self.old cell; moved = None } }
    {
        let dots = cell.dots();
        let right = self.next() + dots;
        self.used += dots;
        self.end = right;
        self.reach = self.reach.max(right);
        self.cells.push(Cell {
            moved: self.moved,
            ..cell
        });
        self.moved = None;
    }

    // The next cell stands at this dot.
    fn place(&mut self, dot: usize)
        requires { dot ≤ 65535 }
        ensures { self.new ≡ moved_to self.old dot }
    {
        self.moved = if dot == self.end {
            None
        } else {
            Some(dot as u16)
        };
    }

    /// Moves the place of the next cell to a dot of a printing area of this width. Here and below, what would leave the area moves nothing.
    pub fn go_to(&mut self, area: usize, dot: u16)
        ensures { self.new ≡ moved_to self.old (place_after area (next_place self.old) (moves.to dot)) }
    {
        let at = self.next();
        let dot = usize::from(dot);
        self.place(if dot <= area { dot } else { at });
    }

    /// Moves it to the right.
    pub fn go_right(&mut self, area: usize, dots: u16)
        requires narrow { area ≤ MOST_LINE_DOTS }
        ensures { self.new ≡ moved_to self.old (place_after area (next_place self.old) (moves.right dots)) }
    {
        let at = self.next();
        let dot = at + usize::from(dots);
        self.place(if dot <= area { dot } else { at });
    }

    /// Moves it to the left.
    pub fn go_left(&mut self, area: usize, dots: u16)
        ensures { self.new ≡ moved_to self.old (place_after area (next_place self.old) (moves.left dots)) }
    {
        let at = self.next();
        self.place(at.checked_sub(usize::from(dots)).unwrap_or(at));
    }

    /// Moves it to the next tab stop, if there is one.
    pub fn go_to_stop(&mut self, area: usize, stops: &Stops)
        requires narrow { area ≤ MOST_LINE_DOTS }
        ensures { self.new ≡ moved_to self.old (place_after area (next_place self.old) (moves.stop stops.now)) }
    {
        let at = self.next();
        let dot = stops.after(at).unwrap_or(at);
        self.place(if dot <= area { dot } else { at });
    }

    /// The next cell follows the last.
    pub fn follow(&mut self)
        ensures { self.new ≡ record { cells = self.old.cells; moved = None } }
    {
        self.moved = None;
    }

    /// Takes the cells out, and leaves the line empty.
    pub fn take(&mut self) -> Cells
        ensures taken { result ≡ self.old.cells }
        ensures left { self.new ≡ nothing_placed }
    {
        self.used = 0;
        self.end = 0;
        self.reach = 0;
        self.moved = None;
        self.cells.take()
    }
}
