//! Rasters: pictures made of dots. (Reference: GS v 0.)

ghost use Rattle.std.specs.Prelude.{◌≡◌, ◌≤◌, ℕ, IsTrue, IsOk, MatchResult};
ghost use Rattle.escpos_command.specs.Rasters.{picture, is_raster, is_width, is_height, widest, highest, IsRasterFault};
ghost use Rattle.escpos_command.specs.Parameters.{is_one_of_four};
ghost use Rattle.escpos_command.specs.Meanings.{choice, scale_of};

use crate::content::Bytes;
use crate::parameter::{Scale, choice, scale_of};
use std::marker::Model;

/// The most bytes in a row of a raster, eight dots each.
pub const WIDEST: u16 = 128;

/// The most rows of a raster.
pub const HIGHEST: u16 = 4095;

const _: () = prove!(WIDEST == 128 && HIGHEST == 4095);

/// Why bytes aren't a raster: the first reason that applies.
#[derive(Clone, Copy, Debug, PartialEq, Eq)]
pub enum RasterFault {
    /// 1: no scale has this byte.
    Scale,
    /// 2: a row has no byte, or more than 128.
    Width,
    /// 3: there is no row, or more than 4,095.
    Height,
    /// 4: the bytes of dots aren't as many as width times height.
    Length,
}

/// A picture of 1 to 128 bytes by 1 to 4,095 rows. (Reference: GS v 0.)
#[derive(Clone, Debug, Drop)]
pub struct Raster {
    mode: u8,
    width: u16,
    height: u16,
    dots: Bytes,
}

impl Model for Raster {
    ghost use Rattle.std.specs.Prelude.{IsTrue};
    ghost use Rattle.escpos_command.specs.Rasters.{Picture, picture, is_raster};

    ghost Value = { Picture };

    ghost view = { λ r. picture r.mode r.width r.height r.dots };

    ghost invariant = { λ r. IsTrue (is_raster (picture r.mode r.width r.height r.dots)) };
}

impl Raster {
    /// A raster of these dots: `width` bytes to a row, the highest bit of each leftmost, `height` rows from the top. `mode`
    /// is the byte m of its scale: 0 and 48 normal, 1 and 49 wide, 2 and 50 tall, 3 and 51 both. Allocates nothing.
    ///
    /// `Err` returns the dots, with the first reason that applies.
    pub fn new(
        mode: u8,
        width: u16,
        height: u16,
        dots: Vec<u8>,
    ) -> Result<Self, (RasterFault, Vec<u8>)>
        ensures result { MatchResult result
            (λ raster. (raster ≡ picture mode width height dots.items) × IsTrue (is_raster raster))
            (λ refusal. IsRasterFault refusal.0 (picture mode width height dots.items) × (refusal.1 ≡ dots)) }
        ensures exact { IsTrue (is_raster (picture mode width height dots.items)) → IsOk result }
    {
        if !is_scale(mode) {
            return Err((RasterFault::Scale, dots));
        }
        if !is_width(width) {
            return Err((RasterFault::Width, dots));
        }
        if !is_height(height) {
            return Err((RasterFault::Height, dots));
        }
        if dots.len() != width as usize * height as usize {
            return Err((RasterFault::Length, dots));
        }
        Ok(Raster {
            mode,
            width,
            height,
            dots: Bytes::new(dots),
        })
    }

    /// The byte of the scale as sent: 0 to 3 or 48 to 51.
    pub fn mode(&self) -> u8
        ensures { result ≡ self.now.scale }
    {
        self.mode
    }

    /// How each dot is printed.
    pub fn scale(&self) -> Scale
        ensures { result ≡ scale_of (choice self.now.scale) }
    {
        scale_of(choice(self.mode))
    }

    /// The bytes in each row, 1 to 128.
    pub fn width(&self) -> u16
        ensures value { result ≡ self.now.width }
        ensures most { result ≤ widest }
    {
        self.width
    }

    /// The rows, 1 to 4,095.
    pub fn height(&self) -> u16
        ensures value { result ≡ self.now.height }
        ensures most { result ≤ highest }
    {
        self.height
    }

    /// The dots, row by row from the top, eight to a byte.
    pub fn dots(&self) -> &[u8]
        ensures dots { result.now ≡ self.now.dots }
        ensures range { IsTrue (is_raster self.now) }
    {
        self.dots.as_slice()
    }

    /// Gives the dots away. Allocates nothing.
    pub fn into_dots(self) -> Bytes
        ensures { result ≡ self.dots }
    {
        self.dots
    }
}

/// Whether the byte is that of a scale: 0 to 3 or 48 to 51.
pub fn is_scale(byte: u8) -> bool
    ensures { result ≡ is_one_of_four byte }
{
    matches!(byte, 0..=3 | 48..=51)
}

/// Whether a row may have this many bytes: 1 to 128.
pub fn is_width(width: u16) -> bool
    ensures { result ≡ is_width width }
{
    matches!(width, 1..=WIDEST)
}

/// Whether a raster may have this many rows: 1 to 4,095.
pub fn is_height(height: u16) -> bool
    ensures { result ≡ is_height height }
{
    matches!(height, 1..=HIGHEST)
}

impl PartialEq for Raster {
    ghost use Rattle.std.specs.Prelude.{nat_eq, ◌&&◌};
    ghost use Rattle.std.specs.Cmp.Lexicographic.{pointwise};
    ghost use Rattle.std.specs.Cmp.Rules.{comparing};
    ghost use Rattle.std.proofs.Common.{rules};

    ghost eq = { λ a b. nat_eq a.scale b.scale && nat_eq a.width b.width && nat_eq a.height b.height && pointwise nat_eq a.dots b.dots };

    ghost laws = { Prim.search (comparing, rules) };

    fn eq(&self, other: &Raster) -> bool {
        self.mode == other.mode
            && self.width == other.width
            && self.height == other.height
            && self.dots == other.dots
    }
}

impl Eq for Raster {
    ghost use Rattle.std.specs.Cmp.Rules.{comparing};
    ghost use Rattle.std.proofs.Common.{rules};

    ghost laws = { Prim.search (comparing, rules) };
}
