//! The number of a receipt.

ghost use Rattle.std.specs.Prelude.{◌≡◌, ℕ, ◌<◌, Some, None};
ghost use Rattle.std.specs.Option.{SomeIff};

use std::marker::Model;

/// The number of a receipt: the first one that a ledger takes has number 1, the next one 2, and so on.
#[derive(Clone, Copy, Debug, PartialEq, Eq)]
pub struct ReceiptNumber {
    number: usize,
}

impl Model for ReceiptNumber {
    ghost Value = { ℕ };

    ghost view = { λ n. n.number };

    ghost invariant = { λ n. 0 < n.number };

    ghost inverse = { λ n. record { number = n } };
}

impl ReceiptNumber {
    /// The number of a receipt; `None` for 0.
    pub fn new(number: usize) -> Option<Self>
        ensures { SomeIff result (0 < number) number }
    {
        if number == 0 {
            None
        } else {
            Some(ReceiptNumber { number })
        }
    }

    /// The number, from 1.
    pub fn get(self) -> usize
        ensures value { result ≡ self }
        ensures from_one { 0 < result }
    {
        self.number
    }
}
