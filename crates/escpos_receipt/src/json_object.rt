//! Members whose value has several parts or forms: sizes, line spacings, pulses, cuts after a feed, barcodes and rasters.
//!
//! Each function returns what the definition of the same name in `specs/Entries.antt` gives.

ghost use Rattle.std.specs.Prelude.{◌≡◌, ◌≢◌, Some, None, IfOk, IfErr, option_map};
ghost use Rattle.serde_json.specs.View.{view};
ghost use Rattle.escpos_receipt.specs.Entries.{bars_in, feed_cut_in, pulse_in, raster_in, size_and_digits, size_in, spacing_in, symbology_and_content};

use crate::entry::EntryFault;
use crate::json_names::{CUTS, SCALES, SYMBOLOGIES};
use crate::json_value::{byte_in, choice_in, field, number_in};
use escpos_command::{
    Bars, Command, Cut, Form, HIGHEST, Pulse, Raster, Setting, SettingKind, Symbology, WIDEST,
};
use hex::FromHexError;
use serde_json::Value;
use std::alloc::Global;

/// The byte of a size: its width and its height, each 1 to 8.
pub fn size_in(value: &Value) -> Option<u8>
    ensures { result ≡ size_in (view value.now) }
{
    let [width, height] = value.as_array()?.as_slice() else {
        return None;
    };
    let width = byte_in(width, 1, 8)?;
    let height = byte_in(height, 1, 8)?;
    Some(16 * (width - 1) + (height - 1))
}

/// A line spacing: 0 to 255 motion units, or the default.
#[tactic(auto, unfolding(escpos_command::specs::SettingTable::table))]
pub fn spacing_in(value: &Value) -> Option<Command>
    ensures { result ≡ spacing_in (view value.now) }
{
    if let Some(name) = value.as_str() {
        if name != "default" {
            return None;
        }
        return Some(Command::Set(Setting::new(SettingKind::DefaultSpacing, None)?));
    }
    Command::set(SettingKind::LineSpacing, byte_in(value, 0, 255)?)
}

/// A pulse: its pin, and how long it is on and off.
pub fn pulse_in(value: &Value) -> Option<Pulse>
    ensures { result ≡ pulse_in (view value.now) }
{
    let pin = byte_in(field(value, 3, "pin")?, 0, 1)?;
    let on = byte_in(field(value, 3, "on")?, 0, 255)?;
    let off = byte_in(field(value, 3, "off")?, 0, 255)?;
    Pulse::new(pin, on, off)
}

// The mode of a full cut after a feed; that of a partial one is the next number.
const FEED_CUT: u8 = 65;

const _: () = prove!(FEED_CUT == 65);

/// A cut after a feed: its kind, and the motion units of the feed.
pub fn feed_cut_in(value: &Value) -> Option<Cut>
    ensures { result ≡ feed_cut_in (view value.now) }
{
    let cut = choice_in(field(value, 2, "kind")?, &CUTS)?;
    let units = byte_in(field(value, 2, "feed")?, 0, 255)?;
    Cut::with_feed(FEED_CUT.checked_add(cut)?, units)
}

/// A barcode in form B.
pub fn bars_in(alloc: Global, value: &Value) -> Result<Command, EntryFault>
    ensures command { IfOk result (λ command. bars_in (view value.now) ≡ Some command) }
    ensures refused { IfErr result (λ fault. fault ≢ EntryFault.Memory → (fault ≡ EntryFault.BadShape) × (bars_in (view value.now) ≡ None)) }
{
    let (symbology, text) = symbology_and_content(value).ok_or(EntryFault::BadShape)?;
    let mut content = Vec::new(alloc);
    content.extend_from_slice(text.as_bytes())?;
    match Bars::new(Form::B, symbology, content) {
        Ok(bars) => Ok(Command::Bars(bars)),
        Err(_) => Err(EntryFault::BadShape),
    }
}

// The symbology and the content of a barcode.
fn symbology_and_content(value: &Value) -> Option<(Symbology, &str)>
    ensures { option_map (λ p. (p.0, p.1.now)) result ≡ symbology_and_content (view value.now) }
{
    let symbology = choice_in(field(value, 2, "kind")?, &SYMBOLOGIES)?;
    let content = field(value, 2, "content")?.as_str()?;
    Some((symbology, content))
}

/// A raster.
pub fn raster_in(alloc: Global, value: &Value) -> Result<Command, EntryFault>
    ensures command { IfOk result (λ command. raster_in (view value.now) ≡ Some command) }
    ensures refused { IfErr result (λ fault. fault ≢ EntryFault.Memory → (fault ≡ EntryFault.BadShape) × (raster_in (view value.now) ≡ None)) }
{
    let (mode, width, height, digits) = size_and_digits(value).ok_or(EntryFault::BadShape)?;
    let dots = match hex::decode(alloc, digits.as_bytes()) {
        Ok(dots) => dots,
        Err(FromHexError::OutOfMemory) => return Err(EntryFault::Memory),
        Err(_) => return Err(EntryFault::BadShape),
    };
    match Raster::new(mode, width, height, dots) {
        Ok(raster) => Ok(Command::Raster(raster)),
        Err(_) => Err(EntryFault::BadShape),
    }
}

// The scale of a raster, its width and height, and its dots in hexadecimal.
fn size_and_digits(value: &Value) -> Option<(u8, u16, u16, &str)>
    ensures { option_map (λ p. (p.0, p.1, p.2, p.3.now)) result ≡ size_and_digits (view value.now) }
{
    let scale = choice_in(field(value, 4, "scale")?, &SCALES)?;
    let width = number_in(field(value, 4, "x")?, 1, WIDEST)?;
    let height = number_in(field(value, 4, "y")?, 1, HIGHEST)?;
    let digits = field(value, 4, "dots")?.as_str()?;
    Some((scale, width, height, digits))
}
