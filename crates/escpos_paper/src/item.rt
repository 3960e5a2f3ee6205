//! What is printed on paper.

use crate::cell::Cells;
use crate::content::{Content, Dots, QrContent};
use crate::style::Placing;
use escpos_command::{Correction, FontFace, HriPosition, Scale, Symbology};

/// One item of the paper, from top to bottom.
#[derive(Debug, Drop)]
pub enum Item {
    /// A printed line.
    Row {
        align: Placing,
        upside_down: bool,
        cells: Cells,
    },
    /// A feed of this many lines, of a spacing in motion units; `None` is the default.
    Feed {
        lines: u8,
        spacing: Option<u8>,
    },
    /// A feed of this many motion units.
    FeedUnits(u8),
    /// A barcode.
    Bars {
        align: Placing,
        symbology: Symbology,
        /// The height in dots, 1 to 255.
        height: u8,
        /// The width of a module in dots, 2 to 6.
        module: u8,
        /// Where the human readable interpretation stands.
        place: HriPosition,
        hri_font: FontFace,
        /// The content as sent.
        content: Content,
        /// The check digit, 0 to 9, where the symbology has one and the content came without it.
        added: Option<u8>,
    },
    /// A picture made of dots: a raster, or graphics that were stored.
    Raster {
        align: Placing,
        scale: Scale,
        /// The bytes in each row, 1 to 128.
        x: u16,
        /// The rows, 1 to 4,095.
        y: u16,
        /// The dots, row by row from the top, eight to a byte, the highest bit leftmost.
        dots: Dots,
    },
    /// A QR code.
    Qr {
        align: Placing,
        /// The model, 1 or 2.
        model: u8,
        /// The size of a module in dots, 1 to 16.
        size: u8,
        level: Correction,
        /// The content as stored.
        content: QrContent,
    },
    /// A cut, with one point left uncut if `partial`. If there is a `feed`, the paper is fed by this many motion units
    /// before it.
    Cut {
        partial: bool,
        feed: Option<u8>,
    },
}
