//! What comes before the items of a document and after them.

ghost use Rattle.std.specs.Prelude.{◌≡◌, ◌+◌, ◌≤◌, ◌++◌, length};
ghost use Rattle.escpos_picture.specs.Document.{paper_width, paper_height, document_height, style_sheet, root_tag, paper_tag, head, last_tag};

use crate::numbers::{append_between, append_quarters};
use crate::pen::{DEEPEST, MARGIN};
use escpos_command::LineWidth;
use escpos_io::{GATHERED_BYTES, Gather};

/// The most bytes that come before the items.
pub const HEAD_BYTES: usize = 1536;

const _: () = prove!(HEAD_BYTES == 1536);

/// The most bytes that come before a line under the paper.
pub const LAST_TAG_BYTES: usize = 64;

const _: () = prove!(LAST_TAG_BYTES == 64);

// The style sheet, and the beginning of the clip of rasters: dots beyond the line aren't printed.
const STYLE_SHEET: &[u8] =
    b"<style type=\"text/css\">\n.paper{fill:#fff}\ntext{font-family:\"DejaVu Sans Mono\",Menlo,Consolas,monospace;font-size:20px;white-space:pre}\n.B{font-size:15px}\n.bold{font-weight:bold}\n.white{fill:#fff}\n.second{fill:#c00}\n.middle{text-anchor:middle}\n.bars path,.raster path{stroke:#000;shape-rendering:crispEdges}\n.raster{clip-path:url(#line)}\n.box,.cut circle,.cut path{fill:none;stroke:#000;stroke-width:2}\n.dashes{stroke-dasharray:8 6}\n.last{fill:#a00}\n</style>\n<clipPath id=\"line\"><path d=\"M0 0h";

// The end of that clip.
const CLIP_END: &[u8] = b"v8190H0z\"/></clipPath>\n";

/// Appends all that comes before the items, on lines of this width, where the pen is at the place `down` after them, and a line comes under the paper if
/// `has_last`.
#[tactic(auto, unfolding(crate::specs::Document::head))]
pub fn append_head(gather: &mut Gather, width: LineWidth, down: usize, has_last: bool)
    requires small { down ≤ DEEPEST }
    requires room { length gather.old.kept + HEAD_BYTES ≤ GATHERED_BYTES }
    ensures kept { gather.new.kept ≡ gather.old.kept ++ head width down has_last }
    ensures same_count { gather.new.written ≡ gather.old.written }
{
    let wide = paper_width(width);
    append_root_tag(gather, wide, document_height(down, has_last));
    append_style_sheet(gather, width);
    append_paper_tag(gather, wide, paper_height(down));
}

/// Appends the tag before a line under the paper, where the pen is at the place `down` after the items.
#[tactic(auto, unfolding(crate::specs::Document::last_tag))]
pub fn append_last_tag(gather: &mut Gather, down: usize)
    requires small { down ≤ DEEPEST }
    requires room { length gather.old.kept + LAST_TAG_BYTES ≤ GATHERED_BYTES }
    ensures kept { gather.new.kept ≡ gather.old.kept ++ last_tag down }
    ensures same_count { gather.new.written ≡ gather.old.written }
{
    gather.extend(b"<text class=\"last\" x=\"32\" y=\"");
    append_quarters(gather, paper_height(down) + 104);
    gather.extend(b"\">");
}

// The width of the paper, in dots.
fn paper_width(width: LineWidth) -> usize
    ensures { result ≡ paper_width width }
{
    usize::from(width.dots()) + 2 * MARGIN
}

// The height of the paper, in quarters of a dot.
fn paper_height(down: usize) -> usize
    requires { down ≤ DEEPEST }
    ensures value { result ≡ paper_height down }
    ensures small { result ≤ DEEPEST + 256 }
{
    8 * MARGIN + down
}

// The height of the document, in quarters of a dot.
fn document_height(down: usize, has_last: bool) -> usize
    requires { down ≤ DEEPEST }
    ensures { result ≡ document_height down has_last }
{
    if has_last {
        paper_height(down) + 160
    } else {
        paper_height(down)
    }
}

// Appends the tag that begins the document.
#[tactic(auto, unfolding(crate::specs::Document::root_tag))]
fn append_root_tag(gather: &mut Gather, width: usize, height: usize)
    requires { length gather.old.kept + 256 ≤ GATHERED_BYTES }
    ensures kept { gather.new.kept ≡ gather.old.kept ++ root_tag width height }
    ensures same_count { gather.new.written ≡ gather.old.written }
    ensures short { length gather.new.kept ≤ length gather.old.kept + 256 }
{
    append_between(
        gather,
        b"<svg xmlns=\"http://www.w3.org/2000/svg\" version=\"1.1\" width=\"",
        width,
        b"\" height=\"",
    );
    append_quarters(gather, height);
    append_between(gather, b"\" viewBox=\"0 0 ", width, b" ");
    append_quarters(gather, height);
    gather.extend(b"\" xml:space=\"preserve\">\n");
}

// Appends how the classes of items and texts look.
#[tactic(auto, unfolding(crate::specs::Document::style_sheet))]
fn append_style_sheet(gather: &mut Gather, width: LineWidth)
    requires { length gather.old.kept + 1024 ≤ GATHERED_BYTES }
    ensures kept { gather.new.kept ≡ gather.old.kept ++ style_sheet width }
    ensures same_count { gather.new.written ≡ gather.old.written }
    ensures short { length gather.new.kept ≤ length gather.old.kept + 1024 }
{
    append_between(gather, STYLE_SHEET, usize::from(width.dots()), CLIP_END);
}

// Appends the paper itself.
#[tactic(auto, unfolding(crate::specs::Document::paper_tag))]
fn append_paper_tag(gather: &mut Gather, width: usize, height: usize)
    requires { length gather.old.kept + 128 ≤ GATHERED_BYTES }
    ensures kept { gather.new.kept ≡ gather.old.kept ++ paper_tag width height }
    ensures same_count { gather.new.written ≡ gather.old.written }
    ensures short { length gather.new.kept ≤ length gather.old.kept + 128 }
{
    append_between(
        gather,
        b"<rect class=\"paper\" width=\"",
        width,
        b"\" height=\"",
    );
    append_quarters(gather, height);
    gather.extend(b"\"/>\n");
}
