//! The key of a receipt, by which a till that lost the answer may ask again.
//!
//! A receipt that comes with a key which a ledger has is the same one. Which receipt has which key is defined in
//! `specs/Entries.antt`.

ghost use Rattle.std.specs.Prelude.{◌≡◌, ◌↔◌, IsTrue};
ghost use Rattle.std.specs.Option.{SomeIff};
ghost use Rattle.escpos_till.specs.Keys.{IsKey, is_key_character};

use arrayvec::ArrayVec;
use std::marker::Model;

/// The most characters of a key.
pub const KEY_CHARACTERS: usize = 64;

const _: () = prove!(KEY_CHARACTERS == 64);

/// The key of a receipt: 1 to 64 characters, each 21 to 7E hexadecimal. The model is the list of their bytes.
#[derive(Debug, PartialEq, Eq, Hash, Drop)]
pub struct ReceiptKey {
    bytes: ArrayVec<u8, KEY_CHARACTERS>,
}

impl Model for ReceiptKey {
    ghost use Rattle.std.specs.Prelude.{ℕ, List};
    ghost use Rattle.escpos_till.specs.Keys.{IsKey};

    ghost Value = { List ℕ };

    ghost view = { λ k. k.bytes.items };

    ghost invariant = { λ k. IsKey k.bytes.items };

    ghost inverse = { λ v. record { bytes = record { items = v } } };
}

impl ReceiptKey {
    /// The key of these bytes; `None` if there is none, or there are more than 64, or one of them isn't 21 to 7E.
    pub fn new(bytes: &[u8]) -> Option<Self>
        ensures { SomeIff result (IsKey bytes.now) bytes.now }
    {
        let plain = !bytes.is_empty() && bytes.iter().all(|byte| is_key_character(*byte));
        match ArrayVec::try_from(bytes) {
            Ok(bytes) if plain => Some(ReceiptKey { bytes }),
            _ => None,
        }
    }

    /// Its bytes, each of which is a character.
    pub fn bytes(&self) -> &[u8]
        ensures same { result.now ≡ self.now }
        ensures is { IsKey result.now }
    {
        self.bytes.as_slice()
    }

    /// Whether this is that key.
    pub fn is_same(&self, other: &ReceiptKey) -> bool
        ensures { IsTrue result ↔ self.now ≡ other.now }
    {
        self.bytes() == other.bytes()
    }

    /// The same key once more.
    pub fn copy(&self) -> Self
        ensures { result ≡ self.now }
    {
        ReceiptKey::new(self.bytes()).unwrap()
    }
}

// Whether a key may have the character.
fn is_key_character(byte: u8) -> bool
    ensures { result ≡ is_key_character byte }
{
    matches!(byte, 0x21..=0x7E)
}
