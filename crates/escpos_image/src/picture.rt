//! A gray picture, as it is read from the bytes of a PBM, PGM or PPM picture.

ghost use Rattle.std.specs.Prelude.{◌≡◌, ◌+◌, ◌*◌, ◌≤◌, ◌<◌, ◌++◌, ◌∷◌, [], length, Ok, IfOk, IfErr, OnOk, MatchResult};
ghost use Rattle.escpos_image.specs.Faults.{IsPlacedError};
ghost use Rattle.escpos_image.specs.Grays.{IsGrays, grays_of};
ghost use Rattle.escpos_image.specs.Headers.{IsHeader};
ghost use Rattle.escpos_image.specs.Scaling.{scaled};
ghost use Rattle.escpos_image.specs.Pictures.{column_after, dots_of, picture_of, IsErrorOf};

use crate::fault::{ImageError, ImageFault};
use crate::header::{Header, read_header};
use crate::samples::dot_at;
use crate::scaling::{scaled_grays, scaled_height};
use escpos_command::LineWidth;
use std::alloc::{AllocError, Global};
use std::marker::Model;

/// A gray picture of 1 to 65,535 dots by 1 to 65,535 rows. The model has its gray values, 0 for black to 255 for white, row by row.
#[derive(Drop)]
pub struct GrayPicture {
    width: usize,
    height: usize,
    grays: Vec<u8>,
}

impl Model for GrayPicture {
    ghost use Rattle.escpos_image.specs.Grays.{Grays, grays_of, IsGrays};

    ghost Value = { Grays };

    ghost view = { λ p. grays_of p.width p.height p.grays.items };

    ghost invariant = { λ p. IsGrays (grays_of p.width p.height p.grays.items) };
}

impl GrayPicture {
    /// Reads a PBM, PGM or PPM picture, P1 to P6. What comes after its last sample is left unread. Exactly one blank, and no comment,
    /// comes before samples that aren't text.
    ///
    /// A dot takes a byte of memory. The error is the first fault of the bytes, or a failed allocation.
    #[tactic(auto, unfolding(crate::specs::Pictures::picture_of))]
    pub fn read(alloc: Global, bytes: &[u8]) -> Result<GrayPicture, ImageError>
        ensures picture { MatchResult result (λ picture. picture_of bytes.now ≡ Ok picture) (IsErrorOf (picture_of bytes.now)) }
        ensures whole { IfOk result (λ picture. IsGrays picture) }
        ensures placed { IfErr result (IsPlacedError bytes.now) }
    {
        let header = read_header(bytes)?;
        let grays = read_dots(alloc, &header, bytes)?;
        Ok(GrayPicture {
            width: header.width,
            height: header.height,
            grays,
        })
    }

    /// The picture scaled down to this width, its height in proportion; a picture that is no wider stays as it is.
    ///
    /// Fails only if an allocation does.
    #[tactic(auto, unfolding(crate::specs::Scaling::scaled))]
    pub fn scaled(self, alloc: Global, width: LineWidth) -> Result<GrayPicture, AllocError>
        ensures picture { IfOk result (λ picture. picture ≡ scaled self width) }
        ensures narrow { IfOk result (λ picture. picture.width ≤ width) }
        ensures whole { IfOk result (λ picture. IsGrays picture) }
    {
        let wide = usize::from(width.dots());
        if self.width <= wide {
            return Ok(self);
        }
        let high = scaled_height(self.width, self.height, wide);
        let grays = scaled_grays(alloc, &self, wide, high)?;
        Ok(GrayPicture {
            width: wide,
            height: high,
            grays,
        })
    }

    /// The dots in each row, 1 to 65,535.
    pub fn width(&self) -> usize
        ensures value { result ≡ self.now.width }
        ensures whole { IsGrays self.now }
    {
        self.width
    }

    /// The rows, 1 to 65,535.
    pub fn height(&self) -> usize
        ensures value { result ≡ self.now.height }
        ensures whole { IsGrays self.now }
    {
        self.height
    }

    /// The gray values, 0 for black to 255 for white, row by row from the top.
    pub fn grays(&self) -> &[u8]
        ensures value { result.now ≡ self.now.grays }
        ensures whole { IsGrays self.now }
    {
        self.grays.as_slice()
    }
}

// Reads the dots of a picture with this header.
fn read_dots(alloc: Global, header: &Header, bytes: &[u8]) -> Result<Vec<u8>, ImageError>
    requires header { IsHeader header.now }
    requires within { header.now.start ≤ length bytes.now }
    ensures value { MatchResult result (λ grays. dots_of header.now bytes.now ≡ Ok grays.items) (IsErrorOf (dots_of header.now bytes.now)) }
    ensures placed { IfErr result (IsPlacedError bytes.now) }
    ensures whole { IfOk result (λ grays. length grays.items ≡ header.now.width * header.now.height) }
{
    let mut grays = Vec::new(alloc);
    let mut at = header.start;
    let mut column = 0;
    let mut left = header.width * header.height;
    while left > 0 {
        let dot = dot_at(header, bytes, at, column)?;
        put_gray(dot.value as u8, &mut grays)?;
        at = dot.next;
        column = column_after(header.width, column);
        left -= 1;
    }
    Ok(grays)
}

// Appends a gray value.
fn put_gray(gray: u8, grays: &mut Vec<u8>) -> Result<(), AllocError>
    ensures { OnOk result (grays.new.items ≡ grays.old.items ++ gray ∷ []) }
{
    grays.push(gray)?;
    Ok(())
}

// The column after this one: the first after the last.
fn column_after(width: usize, column: usize) -> usize
    requires { column < width }
    ensures value { result ≡ column_after width column }
    ensures within { result < width }
{
    if column + 1 == width { 0 } else { column + 1 }
}
