//! The bytes that a command carries, any number of them: the content of a barcode, or the dots of a raster.

ghost use Rattle.std.specs.Prelude.{IsTrue};
ghost use Rattle.std.specs.List.{list_all};
ghost use Rattle.escpos_command.specs.Parameters.{is_byte};

use std::alloc::AllocError;
use std::marker::Model;

/// Bytes on the heap, whose model is their list. They move from a list to a command and on to the paper, and no step of
/// that copies them or allocates.
#[derive(Debug, Drop)]
pub struct Bytes {
    bytes: Vec<u8>,
}

impl Model for Bytes {
    ghost use Rattle.std.specs.Prelude.{List, ℕ, IsTrue};
    ghost use Rattle.std.specs.List.{list_all};
    ghost use Rattle.escpos_command.specs.Parameters.{is_byte};

    ghost Value = { List ℕ };

    ghost view = { λ b. b.bytes.items };

    ghost invariant = { λ b. IsTrue (list_all is_byte b.bytes.items) };
}

impl Bytes {
    ghost use Rattle.std.specs.Prelude.{◌≡◌, length, IsTrue};
    ghost use Rattle.std.specs.List.{list_all};
    ghost use Rattle.escpos_command.specs.Parameters.{is_byte};

    /// These bytes. Allocates nothing.
    pub fn new(bytes: Vec<u8>) -> Self
        ensures same { result ≡ bytes.items }
        ensures bytes { IsTrue (list_all is_byte result) }
    {
        // Proof only: each element is a byte.
        are_bytes(&bytes);
        Bytes { bytes }
    }

    /// The bytes. Allocates nothing.
    pub fn as_slice(&self) -> &[u8]
        ensures { result.now ≡ self.now }
    {
        self.bytes.as_slice()
    }

    /// How many there are.
    pub fn len(&self) -> usize
        ensures { result ≡ length self.now }
    {
        self.bytes.len()
    }

    /// Returns the list of the bytes. Allocates nothing.
    pub fn into_vec(self) -> Vec<u8>
        ensures { result.items ≡ self }
    {
        self.bytes
    }
}

// Proof only: gives the caller this fact: each u8 is a byte.
fn are_bytes(bytes: &[u8])
    ensures { IsTrue (list_all is_byte bytes.now) }
{}

impl Clone for Bytes {
    ghost use Rattle.std.specs.Prelude.{◌≡◌};

    ghost is_clone = { λ bytes copy. copy ≡ bytes };

    fn clone(&self) -> Result<Bytes, AllocError> {
        Ok(Bytes {
            bytes: self.bytes.clone()?,
        })
    }
}

impl PartialEq for Bytes {
    ghost use Rattle.std.specs.Prelude.{nat_eq};
    ghost use Rattle.std.specs.Cmp.Lexicographic.{pointwise, nat_list_eq_equiv};
    ghost use Rattle.std.specs.Cmp.{partial_equiv_from_equiv};

    ghost eq = { pointwise nat_eq };

    ghost laws = { partial_equiv_from_equiv nat_list_eq_equiv };

    fn eq(&self, other: &Bytes) -> bool {
        self.as_slice() == other.as_slice()
    }
}

impl Eq for Bytes {
    ghost use Rattle.std.specs.Cmp.Lexicographic.{nat_list_eq_equiv};

    ghost laws = { nat_list_eq_equiv };
}
