//! Cuts.

ghost use Rattle.std.specs.Prelude.{◌≡◌, ◌+◌, ◌≤◌, ◌++◌, length};
ghost use Rattle.escpos_picture.specs.Groups.{cut_place, cut_line, cut_drawing};

use crate::numbers::{append_between, append_quarters};
use crate::pen::{DEEPEST, MARGIN};
use escpos_command::LineWidth;
use escpos_io::{GATHERED_BYTES, Gather};

/// The most bytes that a cut takes.
pub const CUT_BYTES: usize = 384;

const _: () = prove!(CUT_BYTES == 384);

/// Appends a cut whose upper edge, or that of the feed before it, is this many quarters of a dot down the paper.
pub fn append_cut(
    gather: &mut Gather,
    width: LineWidth,
    partial: bool,
    feed: Option<u8>,
    down: usize,
)
    requires small { down ≤ DEEPEST }
    requires room { length gather.old.kept + CUT_BYTES ≤ GATHERED_BYTES }
    ensures kept { gather.new.kept ≡ gather.old.kept ++ cut_drawing width down partial feed }
    ensures same_count { gather.new.written ≡ gather.old.written }
{
    gather.extend(b"<g class=\"cut\" transform=\"translate(0,");
    append_quarters(gather, 4 * MARGIN + down + cut_place(feed));
    gather.extend(
        b")\"><circle cx=\"8\" cy=\"6\" r=\"4\"/><circle cx=\"8\" cy=\"18\" r=\"4\"/><path d=\"M11 9L28 18M11 15L28 6\"/><path class=\"dashes\" d=\"",
    );
    append_cut_line(gather, width, partial);
    gather.extend(b"\"/></g>\n");
}

// How far down the cut is under its feed's upper edge, in quarters of a dot.
fn cut_place(feed: Option<u8>) -> usize
    ensures value { result ≡ cut_place feed }
    ensures small { result ≤ 510 }
{
    if let Some(units) = feed {
        2 * usize::from(units)
    } else {
        0
    }
}

// Appends the dashed line.
fn append_cut_line(gather: &mut Gather, width: LineWidth, partial: bool)
    requires room { length gather.old.kept + 80 ≤ GATHERED_BYTES }
    ensures kept { gather.new.kept ≡ gather.old.kept ++ cut_line width partial }
    ensures same_count { gather.new.written ≡ gather.old.written }
    ensures short { length gather.new.kept ≤ length gather.old.kept + 80 }
{
    let dots = usize::from(width.dots());
    if partial {
        append_between(gather, b"M32 12H", (dots / 2 + 16).max(MARGIN), b"M");
        append_between(gather, b"", dots / 2 + 48, b" 12H");
        append_between(gather, b"", dots + 2 * MARGIN, b"");
    } else {
        append_between(gather, b"M32 12H", dots + 2 * MARGIN, b"");
    }
}
