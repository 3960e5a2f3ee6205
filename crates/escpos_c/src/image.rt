//! A picture as the entries of a receipt's text.

ghost use Rattle.std.specs.Prelude.{◌≡◌, MatchOption};
ghost use Rattle.escpos_c.specs.Buffer.{GivesNone};
ghost use Rattle.escpos_c.specs.Given.{line_dots, threshold_of};
ghost use Rattle.escpos_c.specs.ImageCalls.{AnswersImage};

use crate::buffer::{answer, give_none};
use crate::options::line_width;
use escpos_command::LineWidth;
use escpos_io::{MemoryIn, Outgoing};
use escpos_stream_jobs::image::image;
use std::alloc::Global;

/// Makes a PBM, PGM or PPM picture the entries of a receipt's text, in lines of this many dots, as `image --width D --threshold T`
/// does. Width 0 stands for 512 dots, and threshold 0 for none: error diffusion.
#[unsafe(no_mangle)]
pub extern "C" fn escpos_image(
    alloc: Global,
    width: u16,
    threshold: u8,
    bytes: &[u8],
    out: &mut [u8],
    written: &mut usize,
) -> i32
    ensures { MatchOption (line_dots width) (GivesNone result out.old out.new written.new)
        (λ dots. AnswersImage dots (threshold_of threshold) bytes.now result out.old out.new written.new) }
{
    match line_width(width) {
        Some(line) => entries(alloc, line, threshold_of(threshold), bytes, out, written),
        None => give_none(written),
    }
}

// The threshold, where 0 stands for none.
fn threshold_of(threshold: u8) -> Option<u8>
    ensures { result ≡ threshold_of threshold }
{
    match threshold {
        0 => None,
        _ => Some(threshold),
    }
}

// Makes a picture the entries of a receipt's text, in lines of this width.
fn entries(
    alloc: Global,
    width: LineWidth,
    threshold: Option<u8>,
    bytes: &[u8],
    out: &mut [u8],
    written: &mut usize,
) -> i32
    ensures { AnswersImage width threshold bytes.now result out.old out.new written.new }
{
    let mut input = MemoryIn::new(bytes, usize::MAX);
    let mut text = Outgoing::new(Vec::new(alloc));
    let status = image(alloc, width, threshold, &mut input, &mut text);
    answer(status, &text.into_inner(), out, written).number()
}
