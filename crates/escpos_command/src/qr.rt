//! The data of QR codes. (Reference: GS ( k.)

ghost use Rattle.std.specs.Prelude.{◌≡◌, ◌≤◌, length, IsTrue, IsOk, MatchResult, false};
ghost use Rattle.escpos_command.specs.QrCodes.{is_qr_data, most_qr_data};

use crate::content::Bytes;
use std::marker::Model;

/// The most bytes that a QR code holds.
pub const MOST_QR_DATA: usize = 7089;

const _: () = prove!(MOST_QR_DATA == 7089);

/// The data of a QR code: 1 to 7,089 bytes.
#[derive(Clone, Debug, Drop)]
pub struct QrData {
    bytes: Bytes,
}

impl Model for QrData {
    ghost use Rattle.std.specs.Prelude.{List, ℕ, IsTrue};
    ghost use Rattle.escpos_command.specs.QrCodes.{is_qr_data};

    ghost Value = { List ℕ };

    ghost view = { λ d. d.bytes };

    ghost invariant = { λ d. IsTrue (is_qr_data d.bytes) };
}

impl QrData {
    /// The data of these bytes. `Err` returns the bytes, where they are none or more than 7,089. Allocates nothing.
    pub fn new(bytes: Vec<u8>) -> Result<Self, Vec<u8>>
        ensures result { MatchResult result
            (λ stored. (stored ≡ bytes.items) × IsTrue (is_qr_data stored))
            (λ back. (back ≡ bytes) × (is_qr_data bytes.items ≡ false)) }
        ensures exact { IsTrue (is_qr_data bytes.items) → IsOk result }
    {
        if bytes.is_empty() || bytes.len() > MOST_QR_DATA {
            return Err(bytes);
        }
        Ok(QrData {
            bytes: Bytes::new(bytes),
        })
    }

    /// The bytes.
    pub fn as_slice(&self) -> &[u8]
        ensures stored { result.now ≡ self.now }
        ensures range { IsTrue (is_qr_data self.now) }
        ensures few { length result.now ≤ most_qr_data }
    {
        self.bytes.as_slice()
    }

    /// Gives the bytes away. Allocates nothing.
    pub fn into_bytes(self) -> Bytes
        ensures { result ≡ self }
    {
        self.bytes
    }
}

impl PartialEq for QrData {
    ghost use Rattle.std.specs.Prelude.{nat_eq};
    ghost use Rattle.std.specs.Cmp.Lexicographic.{pointwise, nat_list_eq_equiv};
    ghost use Rattle.std.specs.Cmp.{partial_equiv_from_equiv};

    ghost eq = { pointwise nat_eq };

    ghost laws = { partial_equiv_from_equiv nat_list_eq_equiv };

    fn eq(&self, other: &QrData) -> bool {
        self.as_slice() == other.as_slice()
    }
}

impl Eq for QrData {
    ghost use Rattle.std.specs.Cmp.Lexicographic.{nat_list_eq_equiv};

    ghost laws = { nat_list_eq_equiv };
}
