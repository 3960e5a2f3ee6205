//! What may happen to a till, and why it doesn't.

ghost use Rattle.std.specs.Prelude.{◌≡◌};

use escpos_host::SendFault;
use escpos_link::Event;
use escpos_till::{
    Entry, ReceiptContent, ReceiptKey, ReceiptNumber, StoreFault, Text, TillRefusal,
};
use std::marker::Model;

/// Entries that others add to a ledger. The model is their list.
#[derive(Debug, Drop)]
pub struct OthersEntries {
    entries: Vec<Entry>,
}

impl Model for OthersEntries {
    ghost use Rattle.std.specs.Prelude.{List};
    ghost use Rattle.escpos_till.specs.declared.entry.Entry.{Entry};

    ghost Value = { List Entry };

    ghost view = { λ o. o.entries.items };
}

impl OthersEntries {
    /// These entries. Allocates nothing.
    pub fn new(entries: Vec<Entry>) -> Self
        ensures { result ≡ entries.items }
    {
        OthersEntries { entries }
    }

    /// The entries. Allocates nothing.
    pub fn as_slice(&self) -> &[Entry]
        ensures { result.now ≡ self.now }
    {
        self.entries.as_slice()
    }
}

/// What may happen. `specs/World.antt` says what it does.
#[derive(Debug, Drop)]
pub enum Happening {
    /// The till is switched on: a machine is made of the entries that are there.
    Start,
    /// The machine takes a receipt, which comes with this key or with none; or, if a receipt has the key, it has that one's number to tell.
    Queue {
        receipt: ReceiptContent,
        key: Option<ReceiptKey>,
    },
    /// The machine raises the next mark number to this one.
    Raise(u32),
    /// The machine cancels the receipt with this number, which waits.
    Cancel(ReceiptNumber),
    /// The machine delivers the first receipt that waits, over a link with so many opening marks, on which at most `most` bytes of answers
    /// are read. `copy` is the text of a line that is put before a receipt that was tried before. If `further` is true, those that wait
    /// after it are sent over the same link.
    Deliver {
        openings: u32,
        most: u32,
        copy: Option<Text>,
        further: bool,
    },
    /// The machine refuses a call.
    Refuse,
    /// The store keeps the entry that the machine asks for.
    Keep,
    /// The store fails, and has the entry.
    FailWith(StoreFault),
    /// The store fails, and doesn't have the entry.
    FailWithout(StoreFault),
    /// The store fails, and has the two entries that are to be kept together.
    FailWithBoth(StoreFault),
    /// Others have added these entries before the one that the machine asks for, and it learns that.
    Learn(OthersEntries),
    /// The same, and the machine fails, since it can't learn it.
    FailLearning {
        others: OthersEntries,
        why: StoreFault,
    },
    /// There is a link.
    Connect,
    /// There is no link.
    Miss,
    /// Bytes are taken out of the machine, at most so many, and put on the link.
    Put(usize),
    /// Bytes are taken out, at most `most`, no more than `fewer` of them are put, and the link has ended for this reason.
    Break {
        most: usize,
        fewer: usize,
        why: SendFault,
    },
    /// The machine is given the first bytes on their way to it, at most so many.
    Hear(usize),
    /// The link has ended for this reason.
    End(SendFault),
    /// The link is given up.
    HangUp,
    /// The till's owner is told news while a receipt is being sent: that the one before is recorded, or that the printer prints nothing for now.
    News,
    /// The till's owner is told a note.
    Tell,
    /// Something happens at the printer's end of the wire.
    OnWire(Event),
    /// A link is opened, and given up with nothing on it.
    Idle,
    /// The till is switched off, whatever it was doing.
    Crash,
}

/// Why something doesn't happen. All is as it was then, except after `Machine` and `Memory`: `specs/Instead.antt` says what these leave.
#[derive(Clone, Copy, Debug, PartialEq, Eq)]
pub enum NotPossible {
    /// The till is switched off.
    SwitchedOff,
    /// The till is switched on already.
    SwitchedOn,
    /// The till has a link.
    Linked,
    /// The machine doesn't ask for that.
    NotAsked,
    /// The text for the line of a copy isn't 1 to 42 characters, each 20 to 7E hexadecimal.
    NotCopyText,
    /// It doesn't happen at the printer's end.
    NotAtPrinter,
    /// A `Till` is alone with its ledger: nobody else adds entries to it.
    Alone,
    /// A `Till` keeps one entry after the other.
    OneByOne,
    /// The machine refuses the call.
    Machine(TillRefusal),
    /// Out of memory.
    Memory,
}
