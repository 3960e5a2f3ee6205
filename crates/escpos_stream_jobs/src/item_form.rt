//! How an item on paper is written as a line of text: with the style of each cell, or as the characters that a reader sees.

ghost use Rattle.escpos_io.specs.Giving.{IsPiecePut};
ghost use Rattle.escpos_io.specs.Putting.{passage};

use escpos_io::{ByteOut, Device, Gather, Piece};
use escpos_paper::Item;
use escpos_plain::put_plain_item;

/// How an item is written.
pub trait ItemForm {
    ghost use Rattle.std.specs.Prelude.{ℕ, List};
    ghost use Rattle.escpos_paper.specs.declared.item.Item.{Item as printed};

    // The line of an item.
    ghost text: { printed → List ℕ };

    /// Gives the line of an item to `gather`, which puts what it has no room for into `writer`.
    fn put<W: ByteOut>(item: &Item, gather: &mut Gather, writer: &mut W) -> Result<(), Device>
        ensures { IsPiecePut result (passage (W.written writer.old) (W.written writer.new) (W.failed writer.old) (W.failed writer.new))
            gather.old gather.new (text item.now) };
}

/// With the style of each cell, and its byte as it was sent.
pub struct Styled;

impl ItemForm for Styled {
    ghost use Rattle.escpos_paper.specs.ItemsText.{item_text};

    ghost text = { item_text };

    fn put<W: ByteOut>(item: &Item, gather: &mut Gather, writer: &mut W) -> Result<(), Device> {
        item.put(gather, writer)
    }
}

/// The characters that the cells show.
pub struct Plain;

impl ItemForm for Plain {
    ghost use Rattle.escpos_plain.specs.PlainText.{plain_text};

    ghost text = { plain_text };

    fn put<W: ByteOut>(item: &Item, gather: &mut Gather, writer: &mut W) -> Result<(), Device> {
        put_plain_item(item, gather, writer)
    }
}
