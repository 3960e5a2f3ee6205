//! Graphics: pictures that a printer stores and prints later. (Reference: GS ( L and GS 8 L, functions 112 and 50.)
//!
//! `specs/Graphics.antt` defines which they are. The length says how many bytes of dots are sent. It need not be that of the size:
//! such graphics are read, and a printer doesn't store them.

ghost use Rattle.std.specs.Prelude.{◌≡◌, ◌≤◌, ◌+◌, IsTrue, IsOk, MatchResult};
ghost use Rattle.escpos_command.specs.Graphics.{stored_picture, is_graphics, is_graphics_width, widest_graphics, row_bytes, dot_bytes, has_its_dots, counted_before, fits_form, form_number, IsGraphicsFault, counts_dots, is_graphics_length, is_long_length, long_length};
ghost use Rattle.escpos_command.specs.Meanings.{scale_by};
ghost use Rattle.escpos_command.specs.Parameters.{is_graphics_factor};
ghost use Rattle.escpos_command.specs.Rasters.{widest, highest};

use crate::content::Bytes;
use crate::parameter::{Scale, scale_by};
use crate::raster::is_height;
use std::marker::Model;

/// The most dots in a row of graphics.
pub const WIDEST_GRAPHICS: u16 = 1024;

/// How many bytes the length of graphics counts besides the dots.
pub const COUNTED_BEFORE: u32 = 10;

const _: () = prove!(WIDEST_GRAPHICS == 1024 && COUNTED_BEFORE == 10);

/// How graphics are sent. (Reference: GS ( L and GS 8 L.)
#[derive(Clone, Copy, Debug, PartialEq, Eq)]
pub enum GraphicsForm {
    /// GS ( L: with a length of two bytes.
    Short,
    /// GS 8 L: with a length of four bytes.
    Long,
}

impl GraphicsForm {
    // A number of its own.
    fn number(self) -> u8
        ensures { result ≡ form_number self }
    {
        match self {
            GraphicsForm::Short => 0,
            GraphicsForm::Long => 1,
        }
    }
}

/// What stands before the dots of graphics.
#[derive(Clone, Copy, Debug, PartialEq, Eq)]
pub struct GraphicsHead {
    pub form: GraphicsForm,
    /// The byte bx: 1, or 2 to print each dot twice as wide.
    pub across: u8,
    /// The byte by: 1, or 2 to print each dot twice as high.
    pub down: u8,
    /// The dots in each row, 1 to 1,024.
    pub width: u16,
    /// The rows, 1 to 4,095.
    pub height: u16,
}

/// Why bytes aren't graphics: the first reason that applies.
#[derive(Clone, Copy, Debug, PartialEq, Eq)]
pub enum GraphicsFault {
    /// 1: a factor is neither 1 nor 2.
    Factor,
    /// 2: a row has no dot, or more than 1,024.
    Width,
    /// 3: there is no row, or more than 4,095.
    Height,
    /// 4: there are no dots, or more bytes of them than the form counts: 65,525, or 524,160 in the long form.
    Length,
}

/// A picture of 1 to 1,024 dots by 1 to 4,095 rows, to be stored, with dots in any number that its form counts. (Reference: GS ( L and GS 8 L, function 112.)
#[derive(Clone, Debug, Drop)]
pub struct Graphics {
    head: GraphicsHead,
    dots: Bytes,
}

impl Model for Graphics {
    ghost use Rattle.std.specs.Prelude.{IsTrue};
    ghost use Rattle.escpos_command.specs.Graphics.{StoredPicture, stored_picture, is_graphics};

    ghost Value = { StoredPicture };

    ghost view = { λ g. stored_picture g.head g.dots };

    ghost invariant = { λ g. IsTrue (is_graphics (stored_picture g.head g.dots)) };
}

impl Graphics {
    /// Graphics of these dots, row by row from the top: eight to a byte, the highest bit leftmost, each row in whole bytes. Allocates
    /// nothing.
    ///
    /// `Err` returns the dots, with the first reason that applies.
    pub fn new(head: GraphicsHead, dots: Vec<u8>) -> Result<Self, (GraphicsFault, Vec<u8>)>
        ensures result { MatchResult result
            (λ graphics. (graphics ≡ stored_picture head dots.items) × IsTrue (is_graphics graphics))
            (λ refusal. IsGraphicsFault refusal.0 (stored_picture head dots.items) × (refusal.1 ≡ dots)) }
        ensures exact { IsTrue (is_graphics (stored_picture head dots.items)) → IsOk result }
    {
        if !is_graphics_factor(head.across) || !is_graphics_factor(head.down) {
            return Err((GraphicsFault::Factor, dots));
        }
        if !is_graphics_width(head.width) {
            return Err((GraphicsFault::Width, dots));
        }
        if !is_height(head.height) {
            return Err((GraphicsFault::Height, dots));
        }
        if dots.is_empty() || !fits_form(head.form, dots.len()) {
            return Err((GraphicsFault::Length, dots));
        }
        Ok(Graphics {
            head,
            dots: Bytes::new(dots),
        })
    }

    /// What stands before the dots.
    pub fn head(&self) -> GraphicsHead
        ensures head { result ≡ self.now.head }
        ensures range { IsTrue (is_graphics self.now) }
    {
        self.head
    }

    /// How each dot is printed.
    pub fn scale(&self) -> Scale
        ensures { result ≡ scale_by self.now.head.across self.now.head.down }
    {
        scale_by(self.head.across, self.head.down)
    }

    /// The bytes in each row, 1 to 128.
    pub fn row_bytes(&self) -> u16
        ensures value { result ≡ row_bytes self.now.head.width }
        ensures most { result ≤ widest }
    {
        row_bytes(self.head.width)
    }

    /// The dots, row by row from the top, eight to a byte.
    pub fn dots(&self) -> &[u8]
        ensures dots { result.now ≡ self.now.dots }
        ensures range { IsTrue (is_graphics self.now) }
    {
        self.dots.as_slice()
    }

    /// Whether there are as many bytes of dots as the size says. A printer stores no others.
    pub fn has_its_dots(&self) -> bool
        ensures { result ≡ has_its_dots self.now }
    {
        self.dots().len() == dot_bytes(self.head) as usize
    }

    /// Gives the dots away. Allocates nothing.
    pub fn into_dots(self) -> Bytes
        ensures { result ≡ self.dots }
    {
        self.dots
    }
}

/// Whether it is a factor of dots: 1 or 2.
pub fn is_graphics_factor(byte: u8) -> bool
    ensures { result ≡ is_graphics_factor byte }
{
    matches!(byte, 1 | 2)
}

/// Whether a row may have this many dots: 1 to 1,024.
pub fn is_graphics_width(width: u16) -> bool
    ensures { result ≡ is_graphics_width width }
{
    matches!(width, 1..=WIDEST_GRAPHICS)
}

// The bytes of a row of this many dots.
fn row_bytes(width: u16) -> u16
    requires { width ≤ widest_graphics }
    ensures value { result ≡ row_bytes width }
    ensures most { result ≤ widest }
{
    (width + 7) / 8
}

// The bytes of dots that the size says, at most 524,160.
fn dot_bytes(head: GraphicsHead) -> u32
    requires width { head.width ≤ widest_graphics }
    requires height { head.height ≤ highest }
    ensures { result ≡ dot_bytes head }
{
    u32::from(row_bytes(head.width)) * u32::from(head.height)
}

// Whether the form counts this many bytes of dots.
fn fits_form(form: GraphicsForm, count: usize) -> bool
    ensures { result ≡ fits_form form (count + counted_before) }
{
    match form {
        GraphicsForm::Short => count <= 65_525,
        GraphicsForm::Long => count <= 524_160,
    }
}

/// Whether a function of GS ( L may have this length: 2 for a print, and otherwise one that counts dots, 11 or more.
pub fn is_graphics_length(length: u32) -> bool
    ensures { result ≡ is_graphics_length length }
{
    length == 2 || counts_dots(length)
}

/// Whether function 112 of GS 8 L may have this length: 11 to 524,170.
pub fn is_long_length(length: u32) -> bool
    ensures { result ≡ is_long_length length }
{
    counts_dots(length) && length <= 524_170
}

// Whether a length counts a byte of dots.
fn counts_dots(length: u32) -> bool
    ensures { result ≡ counts_dots length }
{
    length > COUNTED_BEFORE
}

/// The number of the first three bytes of a length of four.
pub fn long_length(first: u8, second: u8, third: u8) -> u32
    ensures { result ≡ long_length first second third }
{
    u32::from(first) + 256 * u32::from(second) + 65_536 * u32::from(third)
}

impl PartialEq for Graphics {
    ghost use Rattle.std.specs.Cmp.{partial_equiv_from_equiv};
    ghost use Rattle.escpos_command.specs.Graphics.{same_graphics, same_graphics_equiv};

    ghost eq = { same_graphics };

    ghost laws = { partial_equiv_from_equiv same_graphics_equiv };

    fn eq(&self, other: &Graphics) -> bool {
        self.head.form.number() == other.head.form.number()
            && self.head.across == other.head.across
            && self.head.down == other.head.down
            && self.head.width == other.head.width
            && self.head.height == other.head.height
            && self.dots() == other.dots()
    }
}

impl Eq for Graphics {
    ghost use Rattle.escpos_command.specs.Graphics.{same_graphics_equiv};

    ghost laws = { same_graphics_equiv };
}
