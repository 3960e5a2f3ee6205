//! A picture of black and white dots.

ghost use Rattle.std.specs.Prelude.{◌≡◌, IfOk};
ghost use Rattle.escpos_image.specs.DotRows.{IsDotRows};
ghost use Rattle.escpos_image.specs.Shading.{below, shaded};

use crate::diffusion::diffused;
use crate::picture::GrayPicture;
use std::alloc::{AllocError, Global};
use std::marker::Model;

/// A picture of 1 to 65,535 dots by 1 to 65,535 rows. The model has its dots, true for black, row by row.
#[derive(Drop)]
pub struct DotPicture {
    width: usize,
    height: usize,
    dots: Vec<bool>,
}

impl Model for DotPicture {
    ghost use Rattle.escpos_image.specs.DotRows.{DotRows, dot_rows, IsDotRows};

    ghost Value = { DotRows };

    ghost view = { λ p. dot_rows p.width p.height p.dots.items };

    ghost invariant = { λ p. IsDotRows (dot_rows p.width p.height p.dots.items) };
}

impl DotPicture {
    /// The dots of a gray picture: black where the gray value is below the threshold, or, where none is given, by Floyd and
    /// Steinberg's error diffusion.
    ///
    /// Fails only if an allocation does.
    #[tactic(auto, unfolding(crate::specs::Shading::shaded))]
    pub fn shaded(
        alloc: Global,
        picture: &GrayPicture,
        threshold: Option<u8>,
    ) -> Result<DotPicture, AllocError>
        ensures { IfOk result (λ dots. dots ≡ shaded threshold picture.now) }
    {
        let dots = match threshold {
            Some(threshold) => below(alloc, picture.grays(), threshold)?,
            None => diffused(alloc, picture)?,
        };
        Ok(DotPicture {
            width: picture.width(),
            height: picture.height(),
            dots,
        })
    }

    /// The dots in each row, 1 to 65,535.
    pub fn width(&self) -> usize
        ensures value { result ≡ self.now.width }
        ensures whole { IsDotRows self.now }
    {
        self.width
    }

    /// The rows, 1 to 65,535.
    pub fn height(&self) -> usize
        ensures value { result ≡ self.now.height }
        ensures whole { IsDotRows self.now }
    {
        self.height
    }

    /// The dots, true for black, row by row from the top.
    pub fn dots(&self) -> &[bool]
        ensures value { result.now ≡ self.now.dots }
        ensures whole { IsDotRows self.now }
    {
        self.dots.as_slice()
    }
}

// Which gray values are below the threshold.
fn below(alloc: Global, grays: &[u8], threshold: u8) -> Result<Vec<bool>, AllocError>
    ensures { IfOk result (λ dots. dots.items ≡ below threshold grays.now) }
{
    grays.iter().map(|gray| *gray < threshold).collect(alloc)
}
