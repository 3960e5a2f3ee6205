//! The lines of text above and below a barcode. (Reference: GS H, GS f.)

ghost use Rattle.std.specs.Prelude.{◌≡◌, ◌+◌, ◌*◌, ◌≤◌, ◌++◌, length};
ghost use Rattle.escpos_command.specs.declared.line_width.TheConstants.{MOST_LINE_DOTS};
ghost use Rattle.escpos_picture.specs.Rows.{characters_text};
ghost use Rattle.escpos_picture.specs.BarItems.{stands_above, stands_below, label_class, label_place, label_tag, label, bars_top, label_above, label_below};

use crate::characters::append_byte;
use crate::numbers::{append_between, append_quarters};
use crate::pen::face_height;
use escpos_command::{FontFace, HriPosition};
use escpos_io::{GATHERED_BYTES, Gather};
use escpos_paper::{BarStyle, face_dots};

/// The most bytes that a line of text takes: a barcode's text has at most 512 characters.
pub const LABEL_BYTES: usize = 3328;

const _: () = prove!(LABEL_BYTES == 3328);

// Whether a line of text stands above the bars.
fn stands_above(place: HriPosition) -> bool
    ensures { result ≡ stands_above place }
{
    matches!(place, HriPosition::Above | HriPosition::Both)
}

// Whether a line of text stands below the bars.
fn stands_below(place: HriPosition) -> bool
    ensures { result ≡ stands_below place }
{
    matches!(place, HriPosition::Below | HriPosition::Both)
}

/// How far under the upper edge of a barcode its bars begin, in dots.
pub fn bars_top(style: &BarStyle) -> usize
    ensures value { result ≡ bars_top style.now }
    ensures small { result ≤ 24 }
{
    if stands_above(style.place) {
        face_height(style.hri_font)
    } else {
        0
    }
}

/// Appends the line of text above bars that are this wide, if there is one.
#[tactic(auto, unfolding(crate::specs::BarItems::label_above))]
pub fn append_label_above(gather: &mut Gather, style: &BarStyle, width: usize, text: &[u8])
    requires narrow { width ≤ MOST_LINE_DOTS }
    requires few { length text.now ≤ 512 }
    requires room { length gather.old.kept + LABEL_BYTES ≤ GATHERED_BYTES }
    ensures kept { gather.new.kept ≡ gather.old.kept ++ label_above style.now width text.now }
    ensures same_count { gather.new.written ≡ gather.old.written }
    ensures short { length gather.new.kept ≤ length gather.old.kept + LABEL_BYTES }
{
    if stands_above(style.place) {
        append_label(
            gather,
            style.hri_font,
            width,
            3 * face_height(style.hri_font),
            text,
        );
    }
}

/// Appends the line of text below bars that are this wide, if there is one.
#[tactic(auto, unfolding(crate::specs::BarItems::label_below))]
pub fn append_label_below(gather: &mut Gather, style: &BarStyle, width: usize, text: &[u8])
    requires narrow { width ≤ MOST_LINE_DOTS }
    requires few { length text.now ≤ 512 }
    requires room { length gather.old.kept + LABEL_BYTES ≤ GATHERED_BYTES }
    ensures kept { gather.new.kept ≡ gather.old.kept ++ label_below style.now width text.now }
    ensures same_count { gather.new.written ≡ gather.old.written }
    ensures short { length gather.new.kept ≤ length gather.old.kept + LABEL_BYTES }
{
    if stands_below(style.place) {
        let base = 4 * (bars_top(style) + usize::from(style.height))
            + 3 * face_height(style.hri_font);
        append_label(gather, style.hri_font, width, base, text);
    }
}

// Appends a line of text in the middle of something so wide, whose base line is so many quarters of a dot down.
#[tactic(auto, unfolding(crate::specs::BarItems::label))]
fn append_label(gather: &mut Gather, face: FontFace, width: usize, base: usize, text: &[u8])
    requires narrow { width ≤ MOST_LINE_DOTS }
    requires few { length text.now ≤ 512 }
    requires room { length gather.old.kept + LABEL_BYTES ≤ GATHERED_BYTES }
    ensures kept { gather.new.kept ≡ gather.old.kept ++ label face width base text.now }
    ensures same_count { gather.new.written ≡ gather.old.written }
    ensures short { length gather.new.kept ≤ length gather.old.kept + LABEL_BYTES }
{
    append_label_tag(gather, face, width, base, text.len());
    append_characters(gather, text);
    gather.extend(b"</text>");
}

// Appends the tag before a line of so many characters.
#[tactic(auto, unfolding(crate::specs::BarItems::label_tag))]
fn append_label_tag(gather: &mut Gather, face: FontFace, width: usize, base: usize, count: usize)
    requires narrow { width ≤ MOST_LINE_DOTS }
    requires few { count ≤ 512 }
    requires room { length gather.old.kept + 160 ≤ GATHERED_BYTES }
    ensures kept { gather.new.kept ≡ gather.old.kept ++ label_tag face width base count }
    ensures same_count { gather.new.written ≡ gather.old.written }
    ensures short { length gather.new.kept ≤ length gather.old.kept + 160 }
{
    gather.extend(b"<text class=\"");
    gather.extend(label_class(face));
    append_label_place(gather, width, base);
    append_between(gather, b"\" textLength=\"", face_dots(face) * count, b"\">");
}

// Appends the place of a line of text.
#[tactic(auto, unfolding(crate::specs::BarItems::label_place))]
fn append_label_place(gather: &mut Gather, width: usize, base: usize)
    requires narrow { width ≤ MOST_LINE_DOTS }
    requires room { length gather.old.kept + 60 ≤ GATHERED_BYTES }
    ensures kept { gather.new.kept ≡ gather.old.kept ++ label_place width base }
    ensures same_count { gather.new.written ≡ gather.old.written }
    ensures short { length gather.new.kept ≤ length gather.old.kept + 60 }
{
    gather.extend(b"\" x=\"");
    append_quarters(gather, 2 * width);
    gather.extend(b"\" y=\"");
    append_quarters(gather, base);
}

fn label_class(face: FontFace) -> &'static [u8]
    ensures class { result.now ≡ label_class face }
    ensures short { length result.now ≤ 8 }
{
    match face {
        FontFace::A => b"middle",
        FontFace::B => b"middle B",
    }
}

/// Appends the characters of a text, printed with code table 0.
pub fn append_characters(gather: &mut Gather, text: &[u8])
    requires { length gather.old.kept + 6 * length text.now ≤ GATHERED_BYTES }
    ensures kept { gather.new.kept ≡ gather.old.kept ++ characters_text 0 0 text.now }
    ensures same_count { gather.new.written ≡ gather.old.written }
    ensures short { length gather.new.kept ≤ length gather.old.kept + 6 * length text.now }
{
    for byte in text {
        append_byte(gather, 0, 0, *byte);
    }
}
