//! An item as a group of the document.

ghost use Rattle.std.specs.Prelude.{◌≡◌, ◌≤◌, OnOk, OnErr};
ghost use Rattle.escpos_io.specs.Giving.{IsGiven};
ghost use Rattle.escpos_io.specs.Putting.{passage};
ghost use Rattle.escpos_picture.specs.Places.{place_after, place_after_all};
ghost use Rattle.escpos_picture.specs.Groups.{drawing, drawings, drawing_at, cut_drawing};

use crate::bars::{Symbol, put_bars};
use crate::cut::{CUT_BYTES, append_cut};
use crate::pen::{DEEPEST, Pen};
use crate::qr::put_qr;
use crate::raster::{Frame, put_raster};
use crate::row::put_row;
use escpos_command::LineWidth;
use escpos_io::{ByteOut, Device, Gather};
use escpos_paper::{BarStyle, Item};

/// Gives the drawings of items one under another, the first at the place of the pen, and goes on to the place under the last.
///
/// On `Err` the sink has failed, and took exactly the first `written` of all bytes ever given to the gather, as long as these are
/// few enough to be counted; the pen is at the item that wasn't given.
pub fn put_items<W: ByteOut>(
    gather: &mut Gather,
    pen: &mut Pen,
    items: &[Item],
    writer: &mut W,
) -> Result<(), Device>
    ensures given { IsGiven result (passage (W.written writer.old) (W.written writer.new) (W.failed writer.old) (W.failed writer.new))
        gather.old gather.new (drawings pen.old items.now) }
    ensures place { OnOk result (pen.new ≡ place_after_all pen.old items.now) }
{
    for item in items {
        put_item(gather, pen, item, writer)?;
    }
    Ok(())
}

/// Gives the drawing of an item at the place of the pen, and goes on to the place under it.
///
/// On `Err` the sink has failed, and took exactly the first `written` of all bytes ever given to the gather, as long as these are
/// few enough to be counted; the pen is where it was.
#[tactic(auto, unfolding(crate::specs::Groups::drawing))]
pub fn put_item<W: ByteOut>(
    gather: &mut Gather,
    pen: &mut Pen,
    item: &Item,
    writer: &mut W,
) -> Result<(), Device>
    ensures given { IsGiven result (passage (W.written writer.old) (W.written writer.new) (W.failed writer.old) (W.failed writer.new))
        gather.old gather.new (drawing pen.old item.now) }
    ensures place { OnOk result (pen.new ≡ place_after pen.old item.now) }
    ensures stays { OnErr result (pen.new ≡ pen.old) }
{
    put_drawing(gather, pen.line_width(), pen.down(), item, writer)?;
    pen.pass(item);
    Ok(())
}

// Gives the drawing of an item on a line of this width that begins this many quarters of a dot down the paper.
fn put_drawing<W: ByteOut>(
    gather: &mut Gather,
    width: LineWidth,
    down: usize,
    item: &Item,
    writer: &mut W,
) -> Result<(), Device>
    requires { down ≤ DEEPEST }
    ensures { IsGiven result (passage (W.written writer.old) (W.written writer.new) (W.failed writer.old) (W.failed writer.new))
        gather.old gather.new (drawing_at width down item.now) }
{
    match item {
        Item::Row {
            align,
            upside_down,
            cells,
        } => put_row(gather, width, *align, *upside_down, cells, down, writer),
        Item::Feed { .. } => gather.put(b"<g class=\"feed\"/>\n", writer),
        Item::FeedUnits(_) => gather.put(b"<g class=\"units\"/>\n", writer),
        Item::Bars {
            align,
            symbology,
            height,
            module,
            place,
            hri_font,
            content,
            added,
        } => {
            let symbol = Symbol {
                align: *align,
                symbology: *symbology,
                style: BarStyle {
                    height: *height,
                    module_width: *module,
                    place: *place,
                    hri_font: *hri_font,
                },
                added: *added,
            };
            put_bars(gather, width, &symbol, content.as_slice(), down, writer)
        }
        Item::Raster {
            align,
            scale,
            x,
            y,
            dots,
        } => {
            let frame = Frame {
                align: *align,
                scale: *scale,
                x: *x,
                y: *y,
            };
            put_raster(gather, width, &frame, dots, down, writer)
        }
        Item::Qr {
            align,
            size,
            level,
            content,
            ..
        } => put_qr(
            gather,
            width,
            *align,
            *size,
            *level,
            content.as_slice(),
            down,
            writer,
        ),
        Item::Cut { partial, feed } => put_cut(gather, width, *partial, *feed, down, writer),
    }
}

// Gives a cut.
fn put_cut<W: ByteOut>(
    gather: &mut Gather,
    width: LineWidth,
    partial: bool,
    feed: Option<u8>,
    down: usize,
    writer: &mut W,
) -> Result<(), Device>
    requires { down ≤ DEEPEST }
    ensures { IsGiven result (passage (W.written writer.old) (W.written writer.new) (W.failed writer.old) (W.failed writer.new))
        gather.old gather.new (cut_drawing width down partial feed) }
{
    gather.room(CUT_BYTES, writer)?;
    append_cut(gather, width, partial, feed, down);
    Ok(())
}
