//! From the bytes of a picture to the entries of a receipt.

ghost use Rattle.std.specs.Prelude.{◌≡◌, Ok, IfErr, MatchResult};
ghost use Rattle.escpos_image.specs.Faults.{IsPlacedError};
ghost use Rattle.escpos_image.specs.Pictures.{IsErrorOf};
ghost use Rattle.escpos_image.specs.Whole.{image_text};

use crate::dots::DotPicture;
use crate::fault::ImageError;
use crate::picture::GrayPicture;
use escpos_command::LineWidth;
use std::alloc::Global;

/// The entries of a receipt's text in JSON that print the PBM, PGM or PPM picture with these bytes: scaled down to the width of the
/// line if it is wider, and black where its gray value is below the threshold, or, where none is given, by error diffusion.
///
/// Besides the result, each dot of the picture takes a byte of memory, each dot that is printed two, and an entry about three times its dots'
/// bytes. The error is the first fault of the bytes, or a failed allocation.
pub fn image_entries(
    alloc: Global,
    bytes: &[u8],
    width: LineWidth,
    threshold: Option<u8>,
) -> Result<Vec<u8>, ImageError>
    ensures text { MatchResult result (λ text. image_text width threshold bytes.now ≡ Ok text.items) (IsErrorOf (image_text width threshold bytes.now)) }
    ensures placed { IfErr result (IsPlacedError bytes.now) }
{
    let picture = GrayPicture::read(alloc, bytes)?;
    let scaled = picture.scaled(alloc, width)?;
    let dots = DotPicture::shaded(alloc, &scaled, threshold)?;
    Ok(dots.entries(alloc)?)
}
