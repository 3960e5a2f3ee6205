//! Calls that keep nothing: a stream as a listing, as its paper in two texts, as a picture.
//!
//! Those of the paper come twice: in lines of 512 dots, and in lines of as many as the caller says.

ghost use Rattle.std.specs.Prelude.{MatchOption, false};
ghost use Rattle.escpos_command.specs.declared.line_width.TheConstants.{USUAL_LINE_DOTS};
ghost use Rattle.escpos_stream_jobs.specs.Report.{IsText};
ghost use Rattle.escpos_stream_jobs.specs.Check.{listing_shape};
ghost use Rattle.escpos_stream_jobs.specs.Render.{paper_shape, plain_shape};
ghost use Rattle.escpos_stream_jobs.specs.Draw.{IsPicture};
ghost use Rattle.escpos_c.specs.Buffer.{GivesNone};
ghost use Rattle.escpos_c.specs.Given.{line_dots};
ghost use Rattle.escpos_c.specs.TextCalls.{AnswersText};

use crate::buffer::{answer_within, give_none};
use crate::limited_text::LimitedText;
use crate::options::line_width;
use escpos_command::LineWidth;
use escpos_io::MemoryIn;
use escpos_job_parts::form::Form;
use escpos_stream_jobs::check::check;
use escpos_stream_jobs::draw::draw;
use escpos_stream_jobs::render::{render, render_text};
use std::alloc::Global;

/// Lists the commands of a stream, as `check --raw` does.
#[unsafe(no_mangle)]
pub extern "C" fn escpos_listing(
    alloc: Global,
    bytes: &[u8],
    out: &mut [u8],
    written: &mut usize,
) -> i32
    ensures { AnswersText (IsText listing_shape false) bytes.now result out.old out.new written.new }
{
    let mut input = MemoryIn::new(bytes, usize::MAX);
    let mut text = LimitedText::new(alloc);
    let status = check(alloc, Form::Raw, false, &mut input, &mut text);
    answer_within(status, &text, out, written).number()
}

/// Prints what a stream prints as text, as `render --raw` does.
#[unsafe(no_mangle)]
pub extern "C" fn escpos_paper(
    alloc: Global,
    bytes: &[u8],
    out: &mut [u8],
    written: &mut usize,
) -> i32
    ensures { AnswersText (IsText (paper_shape USUAL_LINE_DOTS) false) bytes.now result out.old out.new written.new }
{
    paper(alloc, LineWidth::usual(), bytes, out, written)
}

/// The same in lines of this many dots, as `render --raw --width D` does; 0 stands for 512.
#[unsafe(no_mangle)]
pub extern "C" fn escpos_paper_at(
    alloc: Global,
    width: u16,
    bytes: &[u8],
    out: &mut [u8],
    written: &mut usize,
) -> i32
    ensures { MatchOption (line_dots width) (GivesNone result out.old out.new written.new)
        (λ dots. AnswersText (IsText (paper_shape dots) false) bytes.now result out.old out.new written.new) }
{
    match line_width(width) {
        Some(line) => paper(alloc, line, bytes, out, written),
        None => give_none(written),
    }
}

/// Prints what a stream prints as plain text, as `render --raw --text` does.
#[unsafe(no_mangle)]
pub extern "C" fn escpos_paper_text(
    alloc: Global,
    bytes: &[u8],
    out: &mut [u8],
    written: &mut usize,
) -> i32
    ensures { AnswersText (IsText (plain_shape USUAL_LINE_DOTS) false) bytes.now result out.old out.new written.new }
{
    paper_text(alloc, LineWidth::usual(), bytes, out, written)
}

/// The same in lines of this many dots, as `render --raw --text --width D` does; 0 stands for 512.
#[unsafe(no_mangle)]
pub extern "C" fn escpos_paper_text_at(
    alloc: Global,
    width: u16,
    bytes: &[u8],
    out: &mut [u8],
    written: &mut usize,
) -> i32
    ensures { MatchOption (line_dots width) (GivesNone result out.old out.new written.new)
        (λ dots. AnswersText (IsText (plain_shape dots) false) bytes.now result out.old out.new written.new) }
{
    match line_width(width) {
        Some(line) => paper_text(alloc, line, bytes, out, written),
        None => give_none(written),
    }
}

/// Prints what a stream prints as a picture, as `draw --raw` does.
#[unsafe(no_mangle)]
pub extern "C" fn escpos_picture(
    alloc: Global,
    bytes: &[u8],
    out: &mut [u8],
    written: &mut usize,
) -> i32
    ensures { AnswersText (IsPicture USUAL_LINE_DOTS false) bytes.now result out.old out.new written.new }
{
    picture(alloc, LineWidth::usual(), bytes, out, written)
}

/// The same in lines of this many dots, as `draw --raw --width D` does; 0 stands for 512.
#[unsafe(no_mangle)]
pub extern "C" fn escpos_picture_at(
    alloc: Global,
    width: u16,
    bytes: &[u8],
    out: &mut [u8],
    written: &mut usize,
) -> i32
    ensures { MatchOption (line_dots width) (GivesNone result out.old out.new written.new)
        (λ dots. AnswersText (IsPicture dots false) bytes.now result out.old out.new written.new) }
{
    match line_width(width) {
        Some(line) => picture(alloc, line, bytes, out, written),
        None => give_none(written),
    }
}

// Prints what a stream prints as text, in lines of this width.
fn paper(alloc: Global, width: LineWidth, bytes: &[u8], out: &mut [u8], written: &mut usize) -> i32
    ensures { AnswersText (IsText (paper_shape width) false) bytes.now result out.old out.new written.new }
{
    let mut input = MemoryIn::new(bytes, usize::MAX);
    let mut text = LimitedText::new(alloc);
    let status = render(alloc, Form::Raw, false, width, &mut input, &mut text);
    answer_within(status, &text, out, written).number()
}

// Prints what a stream prints as plain text, in lines of this width.
fn paper_text(
    alloc: Global,
    width: LineWidth,
    bytes: &[u8],
    out: &mut [u8],
    written: &mut usize,
) -> i32
    ensures { AnswersText (IsText (plain_shape width) false) bytes.now result out.old out.new written.new }
{
    let mut input = MemoryIn::new(bytes, usize::MAX);
    let mut text = LimitedText::new(alloc);
    let status = render_text(alloc, Form::Raw, false, width, &mut input, &mut text);
    answer_within(status, &text, out, written).number()
}

// Prints what a stream prints as a picture, in lines of this width.
fn picture(
    alloc: Global,
    width: LineWidth,
    bytes: &[u8],
    out: &mut [u8],
    written: &mut usize,
) -> i32
    ensures { AnswersText (IsPicture width false) bytes.now result out.old out.new written.new }
{
    let mut input = MemoryIn::new(bytes, usize::MAX);
    let mut text = LimitedText::new(alloc);
    let status = draw(alloc, Form::Raw, false, width, &mut input, &mut text);
    answer_within(status, &text, out, written).number()
}
