//! The bytes that a barcode, a raster or a QR code brings onto the paper. Those of barcodes, rasters and graphics are moved there from the
//! command and not copied; a QR code may be printed again, so the paper gets a copy.

ghost use Rattle.std.specs.Prelude.{◌≡◌, ◌≤◌, length};
ghost use Rattle.escpos_command.specs.QrCodes.{most_qr_data};

use escpos_command::{Bars, Bytes, Graphics, Raster};
use std::marker::Model;

#[cfg(test)]
mod tests;

/// The most bytes that the content of a barcode has.
pub const CONTENT_BYTES: usize = 255;

const _: () = prove!(CONTENT_BYTES == 255);

/// The most bytes that the dots of a raster have: 128 to a row, and 4,095 rows.
pub const DOT_BYTES: usize = 524_160;

const _: () = prove!(DOT_BYTES == 524_160);

/// The content of a barcode: at most 255 bytes.
#[derive(Debug, Drop)]
pub struct Content {
    bytes: Bytes,
}

impl Model for Content {
    ghost use Rattle.std.specs.Prelude.{List, ℕ, ◌≤◌, length};
    ghost use Rattle.escpos_paper.specs.declared.content.TheConstants.{CONTENT_BYTES};

    ghost Value = { List ℕ };

    ghost view = { λ c. c.bytes };

    ghost invariant = { λ c. length c.bytes ≤ CONTENT_BYTES };
}

impl Content {
    /// The content of a barcode. Allocates nothing.
    pub fn of(bars: Bars) -> Self
        ensures { result ≡ bars.content }
    {
        // Proof only: the content of a barcode has at most 255 bytes.
        let _ = bars.content();
        Content {
            bytes: bars.into_content(),
        }
    }

    /// The content as a slice.
    pub fn as_slice(&self) -> &[u8]
        ensures content { result.now ≡ self.now }
        ensures few { length result.now ≤ CONTENT_BYTES }
    {
        self.bytes.as_slice()
    }
}

/// The dots of a raster or of graphics, row by row from the top, eight to a byte: at most 524,160 bytes.
#[derive(Debug, Drop)]
pub struct Dots {
    dots: Bytes,
}

impl Model for Dots {
    ghost use Rattle.std.specs.Prelude.{List, ℕ, ◌≤◌, length};
    ghost use Rattle.escpos_paper.specs.declared.content.TheConstants.{DOT_BYTES};

    ghost Value = { List ℕ };

    ghost view = { λ d. d.dots };

    ghost invariant = { λ d. length d.dots ≤ DOT_BYTES };
}

impl Dots {
    /// The dots of a raster. Allocates nothing.
    pub fn of(raster: Raster) -> Self
        ensures { result ≡ raster.dots }
    {
        // Proof only: the raster is in range, so its dots have at most 524,160 bytes.
        let _ = raster.dots();
        Dots {
            dots: raster.into_dots(),
        }
    }

    /// The dots of graphics. Allocates nothing.
    pub fn of_graphics(graphics: Graphics) -> Self
        ensures { result ≡ graphics.dots }
    {
        // Proof only: the graphics are in range, so their dots have at most 524,160 bytes.
        let _ = graphics.dots();
        Dots {
            dots: graphics.into_dots(),
        }
    }

    /// The dots as a slice.
    pub fn as_slice(&self) -> &[u8]
        ensures dots { result.now ≡ self.now }
        ensures few { length result.now ≤ DOT_BYTES }
    {
        self.dots.as_slice()
    }
}

/// The content of a QR code: at most 7,089 bytes.
#[derive(Debug, Drop)]
pub struct QrContent {
    bytes: Bytes,
}

impl Model for QrContent {
    ghost use Rattle.std.specs.Prelude.{List, ℕ, ◌≤◌, length};
    ghost use Rattle.escpos_command.specs.QrCodes.{most_qr_data};

    ghost Value = { List ℕ };

    ghost view = { λ c. c.bytes };

    ghost invariant = { λ c. length c.bytes ≤ most_qr_data };
}

impl QrContent {
    /// These bytes as the content of a QR code. Allocates nothing.
    pub fn of(bytes: Vec<u8>) -> Self
        requires { length bytes.items ≤ most_qr_data }
        ensures { result ≡ bytes.items }
    {
        QrContent {
            bytes: Bytes::new(bytes),
        }
    }

    /// The content as a slice.
    pub fn as_slice(&self) -> &[u8]
        ensures content { result.now ≡ self.now }
        ensures few { length result.now ≤ most_qr_data }
    {
        self.bytes.as_slice()
    }
}
