//! The states of barcodes and rasters: their modes and sizes, and their contents and dots.

ghost use Rattle.std.specs.Prelude.{ℕ, List, [], ◌≡◌, ◌<◌, ◌&&◌, nat_lt, IsTrue};
ghost use Rattle.escpos_command.specs.Rasters.{is_width};
ghost use Rattle.escpos_command.specs.Tree.{plain_byte};
ghost use Rattle.escpos_decode.specs.State.{NextIs};
ghost use Rattle.escpos_decode.specs.declared.state.State.TheVariants as state;
ghost use Rattle.escpos_decode.specs.declared.state.Next.TheVariants as next;

use crate::state::{Ending, Next, State};
use escpos_command::{
    Form, Symbology, is_codabar, is_codabar_end, is_code39, is_digit, is_height, is_scale, is_width,
};

/// The mode of a barcode, which shows its form and its symbology.
pub fn bars_mode(byte: u8) -> Next
    ensures { (read : List ℕ) → NextIs result state.BarsMode read byte }
{
    match byte {
        0 => form_a(Symbology::UpcA, 12),
        1 => Next::To(State::UpceFirst),
        2 => form_a(Symbology::Ean13, 13),
        3 => form_a(Symbology::Ean8, 8),
        4 => form_a(Symbology::Code39, 255),
        5 => form_a(Symbology::Itf, 254),
        6 => Next::To(State::CodabarFirst),
        65 => form_b(Symbology::UpcA),
        66 => form_b(Symbology::UpcE),
        67 => form_b(Symbology::Ean13),
        68 => form_b(Symbology::Ean8),
        69 => form_b(Symbology::Code39),
        70 => form_b(Symbology::Itf),
        71 => form_b(Symbology::Codabar),
        72 => form_b(Symbology::Code93),
        73 => form_b(Symbology::Code128),
        74 => form_b(Symbology::Gs1Code128),
        _ => Next::Refused,
    }
}

fn form_a(symbology: Symbology, most: u8) -> Next
    ensures { result ≡ next.To (state.PlainContent symbology most) }
{
    Next::To(State::PlainContent { symbology, most })
}

fn form_b(symbology: Symbology) -> Next
    ensures { result ≡ next.To (state.ContentLength symbology) }
{
    Next::To(State::ContentLength { symbology })
}

/// A byte of a content of form A that allows the same bytes at all places, or the 00 after it.
pub fn plain(symbology: Symbology, most: u8, content: &[u8], byte: u8) -> Next
    ensures { NextIs result (state.PlainContent symbology most) content.now byte }
{
    if byte == 0 {
        return if symbology.has_length(content.len()) {
            Next::Closes(Ending::Bars(Form::A, symbology))
        } else {
            Next::Refused
        };
    }
    if is_one_more(most, is_plain(symbology, byte)) {
        Next::Grow(State::PlainContent {
            symbology,
            most: most - 1,
        })
    } else {
        Next::Refused
    }
}

// Whether such a symbology allows the byte at all places.
fn is_plain(symbology: Symbology, byte: u8) -> bool
    ensures { result ≡ plain_byte symbology byte }
{
    match symbology {
        Symbology::Code39 => is_code39(byte),
        _ => is_digit(byte),
    }
}

// Whether a byte passes and one more may follow.
fn is_one_more(most: u8, passes: bool) -> bool
    ensures { result ≡ (nat_lt 0 most && passes) }
{
    most > 0 && passes
}

/// The first byte of a content of UPC-E in form A. Content of more than six digits begins with 0.
pub fn upce_first(byte: u8) -> Next
    ensures { NextIs result state.UpceFirst [] byte }
{
    if byte == b'0' {
        Next::Grow(State::PlainContent {
            symbology: Symbology::UpcE,
            most: 11,
        })
    } else if is_digit(byte) {
        Next::Grow(State::PlainContent {
            symbology: Symbology::UpcE,
            most: 5,
        })
    } else {
        Next::Refused
    }
}

/// The first byte of a content of CODABAR in form A.
pub fn codabar_first(byte: u8) -> Next
    ensures { NextIs result state.CodabarFirst [] byte }
{
    if is_codabar_end(byte) {
        Next::Grow(State::CodabarContent { most: 253 })
    } else {
        Next::Refused
    }
}

/// A byte of such a content after the first.
pub fn codabar(most: u8, byte: u8) -> Next
    ensures { (read : List ℕ) → NextIs result (state.CodabarContent most) read byte }
{
    if is_codabar_end(byte) {
        Next::Grow(State::CodabarEnd)
    } else if is_one_more(most, is_codabar(byte)) {
        Next::Grow(State::CodabarContent { most: most - 1 })
    } else {
        Next::Refused
    }
}

/// The 00 after such a content.
pub fn codabar_end(byte: u8) -> Next
    ensures { (read : List ℕ) → NextIs result state.CodabarEnd read byte }
{
    if byte == 0 {
        Next::Closes(Ending::Bars(Form::A, Symbology::Codabar))
    } else {
        Next::Refused
    }
}

/// A column of tab stops, greater than the one before it, or the 00 after them.
pub fn tab_stop(most: u8, before: u8, byte: u8) -> Next
    ensures { (read : List ℕ) → NextIs result (state.TabStops most before) read byte }
{
    if byte == 0 {
        return Next::Closes(Ending::TabStops);
    }
    if is_one_more(most, byte > before) {
        Next::Grow(State::TabStops {
            most: most - 1,
            before: byte,
        })
    } else {
        Next::Refused
    }
}

/// The length of a content of form B.
pub fn length(symbology: Symbology, byte: u8) -> Next
    ensures { (read : List ℕ) → NextIs result (state.ContentLength symbology) read byte }
{
    if symbology.has_length(byte as usize) {
        Next::Room(
            State::Content {
                symbology,
                length: byte,
                wanted: byte,
            },
            byte as usize,
        )
    } else {
        Next::Refused
    }
}

/// A byte of a content of form B.
pub fn counted(symbology: Symbology, length: u8, wanted: u8, content: &[u8], byte: u8) -> Next
    requires { 0 < wanted }
    ensures { NextIs result (state.Content symbology length wanted) content.now byte }
{
    if !symbology.allows(length as usize, content.len(), byte) {
        return Next::Refused;
    }
    if wanted == 1 {
        Next::Last(Ending::Bars(Form::B, symbology))
    } else {
        Next::Keep(State::Content {
            symbology,
            length,
            wanted: wanted - 1,
        })
    }
}

/// The scale of a raster.
pub fn raster_scale(byte: u8) -> Next
    ensures { (read : List ℕ) → NextIs result state.RasterScale read byte }
{
    if is_scale(byte) {
        Next::To(State::RasterWidth { scale: byte })
    } else {
        Next::Refused
    }
}

/// The low byte of a raster's width.
pub fn raster_width(scale: u8, byte: u8) -> Next
    ensures { (read : List ℕ) → NextIs result (state.RasterWidth scale) read byte }
{
    if is_width(u16::from(byte)) {
        Next::To(State::RasterWidthHigh { scale, width: byte })
    } else {
        Next::Refused
    }
}

/// The high byte of a raster's height.
pub fn raster_height(scale: u8, width: u8, low: u8, byte: u8) -> Next
    requires { IsTrue (is_width width) }
    ensures { (read : List ℕ) → NextIs result (state.RasterHeightHigh scale width low) read byte }
{
    let height = u16::from_le_bytes([low, byte]);
    if !is_height(height) {
        return Next::Refused;
    }
    let wanted = u32::from(width) * u32::from(height);
    Next::Room(
        State::Dots {
            scale,
            width,
            height,
            wanted,
        },
        wanted as usize,
    )
}

/// A byte of the dots of a raster.
pub fn dots(scale: u8, width: u8, height: u16, wanted: u32, byte: u8) -> Next
    requires { 0 < wanted }
    ensures { (read : List ℕ) → NextIs result (state.Dots scale width height wanted) read byte }
{
    if wanted == 1 {
        Next::Last(Ending::Raster {
            scale,
            width,
            height,
        })
    } else {
        Next::Keep(State::Dots {
            scale,
            width,
            height,
            wanted: wanted - 1,
        })
    }
}
