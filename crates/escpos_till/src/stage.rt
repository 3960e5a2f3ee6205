//! Where a till's machine stands, what it asks for there, and what follows.
//!
//! How it comes from one stage to the next is left to `machine`.

ghost use Rattle.std.specs.Prelude.{◌≡◌};
ghost use Rattle.escpos_till.specs.Machine.{after_news, ended_by, first_talk, news_of};

use crate::entry::{Content, Entry};
use crate::further::Further;
use crate::note::TillNote;
use crate::number::ReceiptNumber;
use crate::pause::Paused;
use escpos_host::SendFault;
use escpos_receipt::Receipt;

/// What a machine asks for.
#[derive(Debug, Drop)]
pub enum Action<'a> {
    /// Nothing: it is at rest, or has failed.
    Nothing,
    /// This entry is to be kept, so that it outlives a crash. Then it is told `appended`.
    Append(&'a Entry),
    /// A link to the printer is to be opened. Then it is told `connected`.
    Connect,
    /// The bytes that `take_out` gives are to be put. If they can't be, it is told `link_ended`.
    Put,
    /// Answers are to be read, at most so many bytes. Then it is told `came`, or `link_ended`.
    Wait(u32),
    /// The link is to be given up. Then it is told `hung_up`.
    HangUp,
    /// Its owner is to be told this. Then it is told `told`.
    Tell(TillNote),
}

/// A receipt that is to be sent.
#[derive(Drop)]
pub struct Due {
    /// Its number.
    pub number: ReceiptNumber,
    /// What is sent of it.
    pub receipt: Receipt,
    /// How many opening marks are put; 0 counts as 1.
    pub openings: u32,
    /// How many bytes of answers are read at most.
    pub most: u32,
    /// How the receipts after it are sent over the same link, if they are to be.
    pub further: Option<Further>,
}

/// A receipt that is being sent.
#[derive(Drop)]
pub struct Talk {
    /// Its number.
    pub number: ReceiptNumber,
    /// What is sent of it; `None` once the host has it.
    pub receipt: Option<Receipt>,
    /// How many bytes of answers may still be read.
    pub left: u32,
    /// What the printer has told of its condition.
    pub paused: Paused,
    /// How the receipts after it are sent over the same link, if they are to be.
    pub further: Option<Further>,
    /// The receipt before it, which is recorded, if the machine's owner is still to be told of that.
    pub recorded: Option<ReceiptNumber>,
}

/// What follows once an entry is kept.
#[derive(Drop)]
pub enum Then {
    /// A receipt is taken.
    Queued,
    /// A receipt with this content is to be taken: its entry is kept next.
    Take(Content),
    /// The next mark number is raised.
    Raised,
    /// A receipt is cancelled that was tried so often.
    Cancelled {
        number: ReceiptNumber,
        tried: usize,
    },
    /// A receipt is sent.
    Send(Due),
    /// A receipt is recorded.
    Recorded(ReceiptNumber),
    /// A receipt is recorded, and by that entry, which is kept next, the one is tried that is sent over the same link.
    GoOn {
        recorded: ReceiptNumber,
        tried: Entry,
        due: Due,
    },
    /// A receipt is sent over the link of the one before, which is recorded.
    SendNext {
        recorded: ReceiptNumber,
        due: Due,
    },
}

/// Where a machine stands.
#[derive(Drop)]
pub enum Stage {
    AtRest,
    Connecting(Due),
    Keeping { entry: Entry, then: Then },
    Talking(Talk),
    HangingUp(TillNote),
    Telling(TillNote),
    Failed,
}

impl Talk {
    /// A talk that begins.
    pub(crate) fn first(due: Due) -> Self
        ensures { result ≡ first_talk due }
    {
        Talk {
            number: due.number,
            receipt: Some(due.receipt),
            left: due.most,
            paused: Paused::not(),
            further: due.further,
            recorded: None,
        }
    }

    // What the machine's owner is to be told, if there is something.
    pub(crate) fn news(&self) -> Option<TillNote>
        ensures { result ≡ news_of self.now }
    {
        if let Some(recorded) = self.recorded {
            return Some(TillNote::Recorded(recorded));
        }
        match self.paused {
            Paused {
                why: Some(why),
                is_news: true,
            } => Some(TillNote::Paused {
                number: self.number,
                why,
            }),
            _ => None,
        }
    }

    // Its owner knows what was news.
    pub(crate) fn told(&mut self)
        ensures { self.new ≡ after_news self.old.recorded self.old }
    {
        if self.recorded.is_some() {
            self.recorded = None;
        } else {
            self.paused.is_news = false;
        }
    }

    // What its end means: a printer that pauses was waited for as long as may be.
    pub(crate) fn ended(&self, why: SendFault) -> TillNote
        ensures { result ≡ ended_by self.now why }
    {
        match (why, self.paused.why) {
            (SendFault::TimedOut, Some(why)) => TillNote::StillPaused {
                number: self.number,
                why,
            },
            _ => TillNote::Waiting {
                number: self.number,
                why,
            },
        }
    }
}
