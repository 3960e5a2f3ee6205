//! The keys of receipts, each with its receipt's number.

ghost use Rattle.std.specs.Prelude.{◌≡◌, ◌≤◌, ◌<◌, ◌++◌, ◌∷◌, [], ◌↔◌, ℕ, IsTrue, MatchOption, OnOk, Some, length, slice_get};
ghost use Rattle.escpos_till.specs.Keyed.{ListsKey, ListsNumber};

use crate::key::ReceiptKey;
use crate::number::ReceiptNumber;
use indexmap::IndexMap;
use std::alloc::{AllocError, Global};
use std::marker::Model;

/// The keys of receipts, in order, each with its receipt's number.
#[derive(Drop)]
pub struct Keys {
    map: IndexMap<ReceiptKey, ReceiptNumber>,
}

impl Model for Keys {
    ghost use Rattle.std.specs.Prelude.{◌+◌, length};
    ghost use Rattle.escpos_till.specs.Keyed.{KeyTable};
    ghost use Rattle.indexmap.specs.IndexMap.{spare};

    ghost Value = { KeyTable };

    ghost view = { λ k. record { items = k.map.entries; cap = length k.map.entries + spare k.map } };
}

impl Keys {
    /// No keys. Allocates nothing.
    pub(crate) fn new(alloc: Global) -> Self
        ensures { result.items ≡ [] }
    {
        Keys {
            map: IndexMap::new(alloc),
        }
    }

    /// Makes room for one more.
    pub(crate) fn reserve(&mut self) -> Result<(), AllocError>
        ensures room { OnOk result (length self.new.items < self.new.cap) }
        ensures same { self.new.items ≡ self.old.items }
    {
        self.map.reserve(1)
    }

    /// The number that stands with a key among these; `None` if the key isn't among them.
    pub(crate) fn number_with(&self, key: &ReceiptKey) -> Option<ReceiptNumber>
        ensures { MatchOption result ((number : ℕ) → ListsKey self.now.items key.now number → ⊥) (λ number. ListsKey self.now.items key.now number) }
    {
        self.map.get(key).copied()
    }

    /// How many there are.
    pub(crate) fn len(&self) -> usize
        ensures { result ≡ length self.now.items }
    {
        self.map.len()
    }

    /// The key at a place, with its receipt's number.
    pub(crate) fn at(&self, place: usize) -> (&ReceiptKey, ReceiptNumber)
        requires { place < length self.now.items }
        ensures { slice_get self.now.items place ≡ Some (result.0.now, result.1) }
    {
        match self.map.get_index(place) {
            Some((key, number)) => (key, *number),
            None => unreachable!(),
        }
    }

    /// Whether a key stands with this number among these.
    pub(crate) fn has_number(&self, number: ReceiptNumber) -> bool
        ensures { IsTrue result ↔ ListsNumber self.now.items number }
    {
        for place in 0..self.len() {
            let (_, other) = self.at(place);
            if is_same(other, number) {
                return true;
            }
        }
        false
    }

    /// Adds the key of a receipt, which has none so far.
    pub(crate) fn push_reserved(&mut self, key: ReceiptKey, number: ReceiptNumber)
        requires room { length self.old.items < self.old.cap }
        requires new { (number : ℕ) → ListsKey self.old.items key number → ⊥ }
        ensures { self.new.items ≡ self.old.items ++ (key, number) ∷ [] }
    {
        let _ = self.map.insert(key, number);
    }
}

// Whether these are the number of one receipt.
fn is_same(one: ReceiptNumber, other: ReceiptNumber) -> bool
    ensures { IsTrue result ↔ one ≡ other }
{
    one == other
}

// Whether a key stands among these with this number.
pub(crate) fn is_listed(keys: &Keys, key: &ReceiptKey, number: ReceiptNumber) -> bool
    ensures { IsTrue result → ListsKey keys.now.items key.now number }
{
    match keys.number_with(key) {
        Some(other) => other == number,
        None => false,
    }
}
