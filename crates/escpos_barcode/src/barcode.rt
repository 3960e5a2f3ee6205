//! A barcode's runs and its human readable interpretation.

ghost use Rattle.std.specs.Prelude.{◌≡◌, ◌≤◌, length, is_some};
ghost use Rattle.escpos_barcode.specs.Drawn.{is_module, drawn, with_added};
ghost use Rattle.escpos_barcode.specs.Elements.{elements};
ghost use Rattle.escpos_barcode.specs.Pen.{attempt};
ghost use Rattle.escpos_barcode.specs.Shown.{shown};

use crate::code93::draw_code93;
use crate::code128::{MOST_BYTES, draw_code128};
use crate::gs1::draw_gs1;
use crate::itf::draw_itf;
use crate::pen::{Pen, Runs};
use crate::spaced::{draw_codabar, draw_code39};
use crate::text::{Interpretation, shown};
use crate::upc::{draw_ean8, draw_ean13, draw_upca};
use crate::upce::draw_upce;
use arrayvec::ArrayVec;
use escpos_command::{LineWidth, Symbology};

/// The bars and spaces of a barcode on a line of this width: its symbology, its module width in dots, its content as sent, at most 255 bytes, and
/// the check digit that is added to it. Allocates nothing.
///
/// `None`: not scannable. The module width isn't 2 to 6, or the symbology has no such content, or it doesn't fit on the line.
pub fn runs(
    width: LineWidth,
    symbology: Symbology,
    module_width: u8,
    content: &[u8],
    added: Option<u8>,
) -> Option<Runs>
    requires { length content.now ≤ 255 }
    ensures { result ≡ drawn width symbology module_width (with_added content.now added) }
{
    if !is_module(module_width) {
        return None;
    }
    let whole = with_added(content, added);
    let mut pen = Pen::new(width, symbology, module_width);
    if draw(&mut pen, symbology, whole.as_slice()) {
        pen.finish()
    } else {
        None
    }
}

// Whether a module may be this many dots wide.
fn is_module(module_width: u8) -> bool
    ensures { result ≡ is_module module_width }
{
    matches!(module_width, 2..=6)
}

// Draws a content. `false`: the symbology has no such content, and nothing is drawn.
fn draw(pen: &mut Pen, symbology: Symbology, content: &[u8]) -> bool
    requires { length content.now ≤ MOST_BYTES }
    ensures answer { result ≡ is_some (elements symbology content.now) }
    ensures drawn { pen.new ≡ attempt pen.old (elements symbology content.now) }
{
    match symbology {
        Symbology::UpcA => draw_upca(pen, content),
        Symbology::UpcE => draw_upce(pen, content),
        Symbology::Ean13 => draw_ean13(pen, content),
        Symbology::Ean8 => draw_ean8(pen, content),
        Symbology::Code39 => draw_code39(pen, content),
        Symbology::Itf => draw_itf(pen, content),
        Symbology::Codabar => draw_codabar(pen, content),
        Symbology::Code93 => draw_code93(pen, content),
        Symbology::Code128 => draw_code128(pen, content),
        Symbology::Gs1Code128 => draw_gs1(pen, content),
    }
}

// A content with the check digit that is added to it.
fn with_added(content: &[u8], added: Option<u8>) -> ArrayVec<u8, MOST_BYTES>
    requires { length content.now ≤ 255 }
    ensures { result.items ≡ with_added content.now added }
{
    let mut whole = ArrayVec::new();
    whole.try_extend_from_slice(content).unwrap();
    if let Some(number) = added {
        whole.push(b'0' + number % 10);
    }
    whole
}

/// What stands as text beside the bars of this content and the check digit that is added to it. (Reference: GS H.) It is the
/// content, with a space for each byte that isn't printable; in UPC-E the eight digits that are drawn; in CODE128 only the data, and in its code set C two
/// digits for each byte; in GS1-128 also its parentheses, and the check digits in place of their asterisks. Allocates nothing.
///
/// A content that can't be spelled is shown by the same rule: nothing, where a content of CODE128 or GS1-128 has a brace with no meaning,
/// or one of GS1-128 a check digit of nothing.
pub fn interpretation(symbology: Symbology, content: &[u8], added: Option<u8>) -> Interpretation
    requires { length content.now ≤ 255 }
    ensures { result ≡ shown symbology (with_added content.now added) }
{
    let whole = with_added(content, added);
    shown(symbology, whole.as_slice())
}
