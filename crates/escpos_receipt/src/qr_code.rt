//! QR codes of a receipt's text: a module size, a level of error correction and a content.
//!
//! Each function returns what the definition of the same name in `specs/Entries.antt` gives.

ghost use Rattle.std.specs.Prelude.{◌≡◌, ◌≢◌, Some, None, IfOk, IfErr, option_map};
ghost use Rattle.serde_json.specs.View.{view};
ghost use Rattle.escpos_receipt.specs.Entries.{qr_commands, qr_in, qr_parts};

use crate::entry::EntryFault;
use crate::json_names::LEVELS;
use crate::json_value::{byte_in, choice_in, field};
use escpos_command::{QrData, QrLevel, QrSize};
use serde_json::Value;
use std::alloc::Global;

/// A QR code that is to be printed, with the model that the printer has set.
#[derive(Drop)]
pub struct QrCode {
    /// The size of its modules.
    pub size: QrSize,
    /// Its level of error correction.
    pub level: QrLevel,
    /// Its data.
    pub stored: QrData,
}

/// The QR code of a value.
pub fn qr_in(alloc: Global, value: &Value) -> Result<QrCode, EntryFault>
    ensures commands { IfOk result (λ code. qr_in (view value.now) ≡ Some (qr_commands code.size code.level code.stored)) }
    ensures refused { IfErr result (λ fault. fault ≢ EntryFault.Memory → (fault ≡ EntryFault.BadShape) × (qr_in (view value.now) ≡ None)) }
{
    let Some((size, level, text)) = qr_parts(value) else {
        return Err(EntryFault::BadShape);
    };
    let mut content = Vec::new(alloc);
    content.extend_from_slice(text.as_bytes())?;
    match QrData::new(content) {
        Ok(stored) => Ok(QrCode {
            size,
            level,
            stored,
        }),
        Err(_) => Err(EntryFault::BadShape),
    }
}

// The module size, the level of error correction and the content.
fn qr_parts(value: &Value) -> Option<(QrSize, QrLevel, &str)>
    ensures { option_map (λ p. (p.0, p.1, p.2.now)) result ≡ qr_parts (view value.now) }
{
    let size = QrSize::new(byte_in(field(value, 3, "size")?, 1, 16)?)?;
    let level = QrLevel::new(choice_in(field(value, 3, "level")?, &LEVELS)?)?;
    let content = field(value, 3, "content")?.as_str()?;
    Some((size, level, content))
}
