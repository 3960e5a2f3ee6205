//! The cells of a line: characters with the styles that they are printed in.

ghost use Rattle.std.specs.Prelude.{◌≡◌, ◌+◌, ◌<◌, ◌≤◌, [], ◌∷◌, ◌++◌, length, map, take, None, IsTrue};
ghost use Rattle.escpos_paper.specs.Cells.{BeginIn, IsRun, cell_dots, cell};
ghost use Rattle.escpos_paper.specs.Dots.{face_dots, face_rows};
ghost use Rattle.escpos_paper.specs.Styles.{power_on};

use crate::style::Style;
use escpos_command::FontFace;
use std::fmt;
use std::marker::Model;

/// The most cells that a line has: those of font B at width 1 in a line of 1,024 dots.
pub const LINE_CELLS: usize = 113;

const _: () = prove!(LINE_CELLS == 113);

/// A character in a line.
#[derive(Clone, Copy, Debug, PartialEq, Eq)]
pub struct Cell {
    /// The character as sent.
    pub byte: u8,
    /// How it is printed: the style that was set when it came.
    pub style: Style,
    /// The dot of its left edge, from the left end of the printing area, where it doesn't follow the cell before it.
    pub moved: Option<u16>,
}

impl Cell {
    /// How wide the cell is, in dots.
    pub fn dots(&self) -> usize
        ensures value { result ≡ cell_dots self.now }
        ensures small { result ≤ 100_000 }
        ensures narrow { self.now.style.width ≤ 8 → self.now.style.height ≤ 8 → result ≤ 2232 }
    {
        self.style.dots()
    }
}

/// How wide a character of the font is at width 1, in dots.
pub fn face_dots(face: FontFace) -> usize
    ensures value { result ≡ face_dots face }
    ensures small { result ≤ 12 }
{
    match face {
        FontFace::A => 12,
        FontFace::B => 9,
    }
}

/// How high a character of the font is, in dots.
pub fn face_rows(face: FontFace) -> usize
    ensures value { result ≡ face_rows face }
    ensures small { result ≤ 24 }
{
    match face {
        FontFace::A => 24,
        FontFace::B => 17,
    }
}

impl Default for Cell {
    ghost is_default = { λ x. x ≡ cell power_on 0x20 };

    // A space as a printer just switched on prints it. It stands in the places of a row that aren't used.
    fn default() -> Self {
        Style::power_on().cell(b' ')
    }
}

/// The cells of a row, in order: at most 113. They are part of the value itself, so they allocate nothing.
///
/// An array and its length, where `ArrayVec` would write all of its places anew whenever a line is taken out. The length takes a byte: an item
/// that has more than 2,048 is cleared a byte at a time.
#[derive(Drop)]
pub struct Cells {
    cells: [Cell; LINE_CELLS],
    len: u8,
    // So many of the first cells are known to be in one style, each but the first right after the one before it: the text of these is their bytes.
    run: u8,
}

impl Model for Cells {
    ghost use Rattle.std.specs.Prelude.{List, length, take, ◌≡◌, ◌≤◌};
    ghost use Rattle.escpos_paper.specs.Cells.{IsRun};
    ghost use Rattle.escpos_paper.specs.declared.cell.TheConstants.{LINE_CELLS};
    ghost use Rattle.escpos_paper.specs.declared.cell.Cell.{Cell};

    ghost Value = { List Cell };

    ghost view = { λ c. take c.len c.cells };

    ghost invariant = { λ c. (length c.cells ≡ LINE_CELLS) × (c.len ≤ LINE_CELLS) × (c.run ≤ c.len) × IsRun (take c.run (take c.len c.cells)) };
}

impl Cells {
    /// No cells.
    pub fn new() -> Self
        ensures { result ≡ [] }
    {
        Cells {
            cells: [Cell::default(); LINE_CELLS],
            len: 0,
            run: 0,
        }
    }

    /// Puts a cell after the others. There must be room.
    pub fn push(&mut self, cell: Cell)
        requires { length self.old < LINE_CELLS }
        ensures { self.new ≡ self.old ++ cell ∷ [] }
    {
        self.cells[usize::from(self.len)] = cell;
        self.len += 1;
    }

    /// Puts characters of one style after the others: cells like this one, each with its byte. There must be room.
    // Not inlined, so that the cell is copied as a whole and not field by field.
    #[inline(never)]
    pub fn extend(&mut self, like: &Cell, text: &[u8])
        requires room { length self.old + length text.now ≤ LINE_CELLS }
        requires follows { like.now.moved ≡ None }
        ensures { self.new ≡ self.old ++ map (cell like.now.style) text.now }
    {
        let is_run = self.continues(&like.style);
        let mut next = *like;
        for byte in text {
            next.byte = *byte;
            self.push(next);
        }
        if is_run {
            self.run = self.len;
        }
    }

    // Whether all of the cells are known to be a run that a character of this style continues.
    #[inline]
    fn continues(&self, style: &Style) -> bool
        ensures { IsTrue result → IsRun self.now × BeginIn style.now self.now }
    {
        self.run == self.len && (self.len == 0 || self.cells[0].style.is_same(style))
    }

    /// How many of the first cells are known to be a run: one style, and all but the first right after the one before.
    pub fn run(&self) -> usize
        ensures few { result ≤ length self.now }
        ensures run { IsRun (take result self.now) }
    {
        usize::from(self.run)
    }

    /// The cells as a slice.
    pub fn as_slice(&self) -> &[Cell]
        ensures cells { result.now ≡ self.now }
        ensures few { length result.now ≤ LINE_CELLS }
    {
        &self.cells[..usize::from(self.len)]
    }

    /// Takes the cells out, and leaves none.
    pub fn take(&mut self) -> Self
        ensures taken { result ≡ self.old }
        ensures left { self.new ≡ [] }
    {
        let (len, run) = (self.len, self.run);
        self.len = 0;
        self.run = 0;
        Cells {
            cells: self.cells,
            len,
            run,
        }
    }
}

impl fmt::Debug for Cells {
    fn fmt<W: fmt::Write>(&self, f: &mut fmt::Formatter<W>) -> fmt::Result {
        f.debug_list().entries(self.as_slice()).finish()
    }
}
