//! What a ledger has: entries, which are only ever added.
//!
//! What a list of entries says is defined in `specs/Entries.antt`, and which lists are ledgers.

ghost use Rattle.std.specs.Prelude.{◌≡◌, ◌↔◌, ℕ, List, IfOk, IsTrue};
ghost use Rattle.escpos_till.specs.declared.entry.Content.{Content};
ghost use Rattle.escpos_till.specs.declared.entry.Entry.{Entry};
ghost use Rattle.escpos_till.specs.Contents.{content_with, plain};

use crate::key::ReceiptKey;
use crate::number::ReceiptNumber;
use escpos_receipt::ReceiptOptions;
use std::alloc::{AllocError, Global};
use std::marker::Model;

/// A text as it was given. The model is the list of its bytes.
#[derive(Debug, Drop)]
pub struct Text {
    bytes: Vec<u8>,
}

impl Model for Text {
    ghost use Rattle.std.specs.Prelude.{ℕ, List};

    ghost Value = { List ℕ };

    ghost view = { λ t. t.bytes.items };
}

impl Text {
    /// The text with these bytes. Allocates nothing.
    pub fn new(bytes: Vec<u8>) -> Self
        ensures { result ≡ bytes.items }
    {
        Text { bytes }
    }

    /// The bytes. Allocates nothing.
    pub fn bytes(&self) -> &[u8]
        ensures { result.now ≡ self.now }
    {
        self.bytes.as_slice()
    }

    /// Whether this is that text.
    pub fn is_same(&self, other: &Text) -> bool
        ensures { IsTrue result ↔ self.now ≡ other.now }
    {
        self.bytes() == other.bytes()
    }

    /// The same text once more. The error is out of memory.
    pub fn copy(&self, alloc: Global) -> Result<Self, AllocError>
        ensures { IfOk result (λ text. text ≡ self.now) }
    {
        Ok(Text {
            bytes: self.bytes.as_slice().to_vec(alloc)?,
        })
    }
}

/// What a till was given of a receipt.
#[derive(Debug, Drop)]
pub struct Content {
    /// The receipt's text in JSON; or the bytes of another library, which begin with ESC @.
    pub text: Text,
    /// The options that the text is read with.
    pub options: ReceiptOptions,
}

impl Content {
    /// The text with these bytes, which is read with the usual options. Allocates nothing.
    pub fn new(bytes: Vec<u8>) -> Self
        ensures { result ≡ plain bytes.items }
    {
        Content::with_options(bytes, ReceiptOptions::usual())
    }

    /// The text with these bytes, which is read with these options. Allocates nothing.
    pub fn with_options(bytes: Vec<u8>, options: ReceiptOptions) -> Self
        ensures { result ≡ content_with options bytes.items }
    {
        Content {
            text: Text::new(bytes),
            options,
        }
    }

    /// The bytes of the text. Allocates nothing.
    pub fn bytes(&self) -> &[u8]
        ensures { result.now ≡ self.now.text }
    {
        self.text.bytes()
    }

    /// Whether this is that content.
    pub fn is_same(&self, other: &Content) -> bool
        ensures { IsTrue result ↔ self.now ≡ other.now }
    {
        self.options == other.options && self.text.is_same(&other.text)
    }

    /// The same content once more. The error is out of memory.
    pub fn copy(&self, alloc: Global) -> Result<Self, AllocError>
        ensures { IfOk result (λ content. content ≡ self.now) }
    {
        Ok(Content {
            text: self.text.copy(alloc)?,
            options: self.options,
        })
    }
}

/// One entry of a ledger.
#[derive(Debug, Drop)]
pub enum Entry {
    /// A receipt is taken; it has the next receipt number.
    Queued {
        content: Content,
    },
    /// The receipt is about to be sent, with mark numbers below `next`: the first that is free afterwards.
    Tried {
        number: ReceiptNumber,
        next: u32,
    },
    /// The answer to the receipt's closing mark has come: it is printed. No mark with a number below `heard` can be answered any more; 0 stands
    /// for the number after the closing mark of the receipt's last try, as in files of before.
    Recorded {
        number: ReceiptNumber,
        heard: u32,
    },
    /// The next mark number is this one, since those below it were used elsewhere. No mark with a number below `heard` can be answered any
    /// more: that is `next` where that is so, and 0, which says nothing, otherwise.
    Raised {
        next: u32,
        heard: u32,
    },
    /// The receipt is cancelled: it waits no more, and isn't sent again.
    Cancelled {
        number: ReceiptNumber,
    },
    /// The receipt that the next entry takes comes with this key. If the next entry takes none, the key is void.
    Key {
        key: ReceiptKey,
    },
    /// The ledger goes on from an older one, which has taken the receipts with numbers up to `last`. They are over. No mark with a number below
    /// `heard` can be answered any more.
    Renewed {
        last: u32,
        heard: u32,
    },
    /// The receipt with this number, which the older ledger has taken, came with this key.
    Earlier {
        number: ReceiptNumber,
        key: ReceiptKey,
    },
}

impl Entry {
    /// Whether this is that entry.
    pub fn is_same(&self, other: &Entry) -> bool
        ensures { IsTrue result ↔ self.now ≡ other.now }
    {
        match (self, other) {
            (Entry::Queued { content }, Entry::Queued { content: other }) => content.is_same(other),
            (
                Entry::Tried { number, next },
                Entry::Tried {
                    number: other,
                    next: last,
                },
            ) => number == other && next == last,
            (
                Entry::Recorded { number, heard },
                Entry::Recorded {
                    number: other,
                    heard: mark,
                },
            ) => number == other && heard == mark,
            (
                Entry::Raised { next, heard },
                Entry::Raised {
                    next: other,
                    heard: mark,
                },
            ) => next == other && heard == mark,
            (Entry::Cancelled { number }, Entry::Cancelled { number: other }) => number == other,
            (Entry::Key { key }, Entry::Key { key: other }) => key.is_same(other),
            (
                Entry::Renewed { last, heard },
                Entry::Renewed {
                    last: other,
                    heard: mark,
                },
            ) => last == other && heard == mark,
            (
                Entry::Earlier { number, key },
                Entry::Earlier {
                    number: other,
                    key: other_key,
                },
            ) => number == other && key.is_same(other_key),
            _ => false,
        }
    }

    /// The same entry once more. The error is out of memory.
    pub fn copy(&self, alloc: Global) -> Result<Self, AllocError>
        ensures { IfOk result (λ entry. entry ≡ self.now) }
    {
        match self {
            Entry::Queued { content } => Ok(Entry::Queued {
                content: content.copy(alloc)?,
            }),
            Entry::Tried { number, next } => Ok(Entry::Tried {
                number: *number,
                next: *next,
            }),
            Entry::Recorded { number, heard } => Ok(Entry::Recorded {
                number: *number,
                heard: *heard,
            }),
            Entry::Raised { next, heard } => Ok(Entry::Raised {
                next: *next,
                heard: *heard,
            }),
            Entry::Cancelled { number } => Ok(Entry::Cancelled { number: *number }),
            Entry::Key { key } => Ok(Entry::Key { key: key.copy() }),
            Entry::Renewed { last, heard } => Ok(Entry::Renewed {
                last: *last,
                heard: *heard,
            }),
            Entry::Earlier { number, key } => Ok(Entry::Earlier {
                number: *number,
                key: key.copy(),
            }),
        }
    }
}
