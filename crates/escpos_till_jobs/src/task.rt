//! What a till may ask the program to do with its ledger.

ghost use Rattle.std.specs.Prelude.{◌≡◌, None, Some};
ghost use Rattle.escpos_till_jobs.specs.Performing.{OfRenew, UnlessRenew};

use crate::deliver::Delivery;
use escpos_command::LineWidth;
use escpos_receipt::ReceiptOptions;
use escpos_till::{ReceiptKey, ReceiptNumber};
use std::marker::Model;

/// The path of a ledger's file. The model is the list of its bytes.
#[derive(Debug, Drop)]
pub struct LedgerPath<'a> {
    text: &'a str,
}

impl<'a> Model for LedgerPath<'a> {
    ghost use Rattle.std.specs.Prelude.{ℕ, List};

    ghost Value = { List ℕ };

    ghost view = { λ p. p.text.now };
}

impl<'a> LedgerPath<'a> {
    /// The path with this text.
    pub fn new(text: &'a str) -> Self
        ensures { result ≡ text.now }
    {
        LedgerPath { text }
    }

    /// Its text.
    pub fn text(&self) -> &'a str
        ensures { result.now ≡ self.now }
    {
        self.text
    }
}

/// What a till asks for.
#[derive(Debug, Drop)]
pub enum TillTask<'a> {
    /// Take a receipt into this ledger. Its text is read with these options. If it comes with a key that a receipt of the ledger has, it is
    /// that receipt.
    Queue {
        ledger: LedgerPath<'a>,
        options: ReceiptOptions,
        key: Option<ReceiptKey>,
    },
    /// Take a stream of bytes, as another library makes it, into this ledger, as a receipt for lines of this width, which may come with a
    /// key.
    QueueRaw {
        ledger: LedgerPath<'a>,
        width: LineWidth,
        key: Option<ReceiptKey>,
    },
    /// Take the receipt of this ledger that has this number once more.
    QueueAgain {
        ledger: LedgerPath<'a>,
        number: ReceiptNumber,
    },
    /// Deliver the receipts of this ledger that wait, where no wait lasts longer than `wait` seconds, if that is given.
    Deliver {
        ledger: LedgerPath<'a>,
        delivery: Delivery<'a>,
        wait: Option<u32>,
    },
    /// Cancel the receipt of this ledger that has this number.
    Cancel {
        ledger: LedgerPath<'a>,
        number: ReceiptNumber,
    },
    /// Renew this ledger: a new one, at this other path, goes on from it.
    Renew {
        ledger: LedgerPath<'a>,
        new: LedgerPath<'a>,
    },
    /// List where the receipts of this ledger stand, once its next mark number was raised to `first`, if that is given.
    List {
        ledger: LedgerPath<'a>,
        first: Option<u32>,
    },
}

impl<'a> TillTask<'a> {
    /// Where the ledger is that the task renews; `None` if it renews none.
    pub fn renewed_path(&self) -> Option<LedgerPath<'a>>
        ensures renewal { OfRenew (λ path new. result ≡ Some path) self.now }
        ensures none { UnlessRenew (result ≡ None) self.now }
    {
        match self {
            TillTask::Renew { ledger, .. } => Some(LedgerPath::new(ledger.text())),
            _ => None,
        }
    }
}
