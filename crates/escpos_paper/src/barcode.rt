//! Barcodes, rasters and graphics as items of the paper. Their bytes are moved there, not copied.

ghost use Rattle.std.specs.Prelude.{◌≡◌};
ghost use Rattle.escpos_paper.specs.CheckDigit.{lacks_check_digit, added_digit};
ghost use Rattle.escpos_paper.specs.Printed.{bars_item, graphics_item, raster_item};

use crate::content::{Content, Dots};
use crate::digits::check_digit_of;
use crate::item::Item;
use crate::style::{BarStyle, Placing};
use escpos_command::{Bars, Graphics, Raster, Symbology};

/// A barcode in these settings, with the check digit that its content lacks.
pub fn bars_item(align: Placing, style: BarStyle, bars: Bars) -> Item
    ensures { result ≡ bars_item align style bars }
{
    Item::Bars {
        align,
        symbology: bars.symbology(),
        height: style.height,
        module: style.module_width,
        place: style.place,
        hri_font: style.hri_font,
        added: added_digit(&bars),
        content: Content::of(bars),
    }
}

/// A raster.
pub fn raster_item(align: Placing, raster: Raster) -> Item
    ensures { result ≡ raster_item align raster }
{
    Item::Raster {
        align,
        scale: raster.scale(),
        x: raster.width(),
        y: raster.height(),
        dots: Dots::of(raster),
    }
}

/// Graphics.
pub fn graphics_item(align: Placing, graphics: Graphics) -> Item
    ensures { result ≡ graphics_item align graphics }
{
    Item::Raster {
        align,
        scale: graphics.scale(),
        x: graphics.row_bytes(),
        y: graphics.head().height,
        dots: Dots::of_graphics(graphics),
    }
}

/// The check digit that the content of a barcode lacks, which a printer adds to it. Allocates nothing.
pub fn added_digit(bars: &Bars) -> Option<u8>
    ensures { result ≡ added_digit bars.now.symbology bars.now.content }
{
    let content = bars.content();
    if lacks_check_digit(bars.symbology(), content.len()) {
        Some(check_digit_of(bars.symbology(), content))
    } else {
        None
    }
}

// Whether a content of this many bytes has no check digit, though its symbology has one.
fn lacks_check_digit(symbology: Symbology, length: usize) -> bool
    ensures { result ≡ lacks_check_digit symbology length }
{
    matches!(
        (symbology, length),
        (Symbology::UpcA, 11)
            | (Symbology::UpcE, 6 | 7 | 11)
            | (Symbology::Ean13, 12)
            | (Symbology::Ean8, 7)
    )
}
