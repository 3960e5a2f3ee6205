//! The machine of a till with one printer: everything that a till does, over values alone.
//!
//! A machine reads no file and no socket. It asks for one thing at a time, and is told what came of it; what it asks for is
//! done by its owner, which is a small loop (`driver`). It knows what its ledger's entries say, without having them, and it
//! has the host of the link that it talks over. Whatever crashes, a new machine is made from the entries that are left.
//!
//!   Stage      | It asks for                | It is told           | Next
//!   AtRest     | nothing                    | queue, raise, cancel | Keeping an entry; Telling, if a receipt's key is known
//!              |                            | deliver              | Connecting
//!   Connecting | a link to the printer      | connected, or not    | Keeping that it is tried; Telling
//!   Keeping    | an entry to be kept; with  | appended             | Keeping the entry after it; Telling; Talking; HangingUp
//!              | another one, if one is to  |                      |
//!              | be (asks_with)             |                      |
//!   Talking    | its owner to be told that  | told                 | Talking
//!              | the receipt before is      | take_out             | Talking
//!              | recorded, and that the     | came                 | Talking; Keeping that it is recorded; HangingUp
//!              | printer pauses; bytes to   | link_ended           | HangingUp
//!              | be put, while there are    |                      |
//!              | some; then for answers     |                      |
//!   HangingUp  | the link to be given up    | hung_up              | Telling
//!   Telling    | its owner to be told       | told                 | AtRest; Failed where the store couldn't keep an entry
//!   Failed     | nothing                    | nothing              | Failed: a new machine is made from the entries
//!
//! Before a byte of a receipt goes out, an entry is kept that says that it is tried, with the mark numbers that its link may
//! use; and a receipt is recorded only where the host has recorded it. Where the next receipt goes over the same link, both are kept as
//! one. `specs/Machine.antt` says what each call does.

ghost use Rattle.std.specs.Prelude.{◌≡◌, ◌≢◌, ◌↔◌, ◌-◌, ◌++◌, ◌<◌, ◌≤◌, List, length, take, drop, min, option_map, Ok, IfOk, IfErr, MatchOption, OnOk, IsErrOf, IsTrue};
ghost use Rattle.escpos_till.specs.declared.entry.Entry.{Entry};
ghost use Rattle.escpos_till.specs.Entries.{IsLedger, earlier, states as states_of};
ghost use Rattle.escpos_till.specs.Book.{IsBookOf, Notes};
ghost use Rattle.escpos_till.specs.declared.stage.Due.{Due};
ghost use Rattle.escpos_host.specs.Machine.{IsSound};
ghost use Rattle.escpos_till.specs.Delivers.{marks_taken};
ghost use Rattle.escpos_till.specs.Learning.{FailsToLearn, IfKeeping, Learned, LearnsAll};
ghost use Rattle.escpos_till.specs.declared.stage.Talk.{Talk};
ghost use Rattle.escpos_till.specs.Machine.{Asks, AsksIn, Came, Cancels, Delivers, Ended, EndsFinally, Fits, Follows, IsKnown, IsLinked, IsNew, IsNext, IsPausing, IsStarted, Kept, MayTry, Queues, Raises, RefusesAny, RefusesCancel, RefusesDeliver, RefusesRaise, Rests, SameEntries, SendsReceipt, Unsure, connected, entry_with_at, further_of, hung_up, lost, news_of, not_connected, put, taking, told};

use crate::book::{Book, MOST_ENTRIES, NoBook};
use crate::copy::CopyText;
use crate::entry::{Content, Entry};
use crate::following::{
    following, fresh_host, further_of, last_first, lost, marks_taken, raised, reserve_next, taking,
};
use crate::key::ReceiptKey;
use crate::learning::{learn, revised};
use crate::note::{NoMachine, TillNote, TillRefusal};
use crate::number::ReceiptNumber;
use crate::receipt_content::ReceiptContent;
use crate::stage::{Action, Due, Stage, Talk, Then};
use crate::state::ReceiptState;
use crate::store::StoreFault;
use crate::talking::{less, turned};
use escpos_host::{Host, SendFault};
use escpos_receipt::{JsonError, Receipt};
use std::alloc::Global;
use std::marker::Model;
use std::mem::replace;

/// The machine of a till with one printer.
#[derive(Drop)]
pub struct TillMachine {
    alloc: Global,
    book: Book,
    host: Host,
    stage: Stage,
}

impl Model for TillMachine {
    ghost use Rattle.escpos_till.specs.Machine.{IsMachine, MachineView};

    ghost Value = { MachineView };

    ghost view = { λ m. record { book = m.book; host = m.host; stage = m.stage } };

    ghost invariant = { λ m. IsMachine (record { book = m.book; host = m.host; stage = m.stage }) };
}

impl TillMachine {
    /// A machine at rest, of these entries. The errors are `Damaged` if they are no ledger, and `Memory`.
    pub fn open(alloc: Global, entries: &[Entry]) -> Result<Self, NoMachine>
        ensures book { IfOk result (λ machine. IsBookOf machine.book entries.now) }
        ensures started { IfOk result (λ machine. IsStarted machine) }
        ensures ledger { IfOk result (λ _. IsLedger entries.now) }
        ensures damaged { IsErrOf result NoMachine.Damaged → ¬ IsLedger entries.now }
    {
        match Book::of(alloc, entries) {
            Ok(book) => Ok(TillMachine {
                alloc,
                host: fresh_host(alloc, book.next, book.heard),
                book,
                stage: Stage::AtRest,
            }),
            Err(NoBook::Damaged) => Err(NoMachine::Damaged),
            Err(NoBook::Memory) => Err(NoMachine::Memory),
        }
    }

    /// What it asks for.
    pub fn asks(&self) -> Action<'_>
        ensures { Asks self.now self.now.stage result }
    {
        match &self.stage {
            Stage::AtRest | Stage::Failed => Action::Nothing,
            Stage::Connecting(_) => Action::Connect,
            Stage::Keeping { entry, .. } => Action::Append(entry),
            Stage::Talking(talk) => self.asks_in(talk),
            Stage::HangingUp(_) => Action::HangUp,
            Stage::Telling(note) => Action::Tell(*note),
        }
    }

    /// The entry that is to be kept together with the one that it asks for, so that a crash leaves both or neither. Where both are kept, it is told
    /// `appended` twice. They may also be kept one after the other.
    pub fn asks_with(&self) -> Option<&Entry>
        ensures { option_map (λ e. e.now) result ≡ entry_with_at self.now.stage }
    {
        match &self.stage {
            Stage::Keeping {
                then: Then::GoOn { tried, .. },
                ..
            } => Some(tried),
            _ => None,
        }
    }

    // What it asks for while it talks.
    fn asks_in(&self, talk: &Talk) -> Action<'_>
        ensures { AsksIn self.now.host (news_of talk.now) talk.now.left result }
    {
        if let Some(note) = talk.news() {
            return Action::Tell(note);
        }
        if self.host.has_out() {
            Action::Put
        } else {
            Action::Wait(talk.left)
        }
    }

    /// Whether the printer says that it prints nothing for now. Then its owner waits longer for it.
    pub fn is_paused(&self) -> bool
        ensures { IsTrue result ↔ IsPausing self.now.stage }
    {
        match &self.stage {
            Stage::Talking(talk) => talk.paused.why.is_some(),
            _ => false,
        }
    }

    /// Whether it asks for nothing.
    pub fn rests(&self) -> bool
        ensures { IsTrue result ↔ Rests self.now.stage }
    {
        matches!(self.stage, Stage::AtRest | Stage::Failed)
    }

    /// Whether it talks: it asks for bytes to be put, or for answers.
    pub fn talks(&self) -> bool
        ensures { IsTrue result ↔ ((talk : Talk) × (self.now.stage ≡ Stage.Talking talk)) }
    {
        matches!(self.stage, Stage::Talking(_))
    }

    /// Whether it is on a link: it talks, or is to keep what it has heard, or that the next receipt is tried over the same link.
    pub fn is_linked(&self) -> bool
        ensures { IsTrue result ↔ IsLinked self.now.stage }
    {
        match &self.stage {
            Stage::Talking(_) => true,
            Stage::Keeping { then, .. } => matches!(
                then,
                Then::Recorded(_) | Then::GoOn { .. } | Then::SendNext { .. }
            ),
            _ => false,
        }
    }

    /// Takes a receipt: it is to be kept. If it comes with a key, that is to be kept before it; but if the ledger has a receipt with
    /// this key, that is the one, whatever became of it: its number is told, and nothing is to be kept. What the two say isn't compared.
    ///
    /// The errors are `Busy`, `Failed` and `Memory`, and return the receipt.
    pub fn queue(
        &mut self,
        receipt: ReceiptContent,
        key: Option<ReceiptKey>,
    ) -> Result<(), (TillRefusal, ReceiptContent)>
        ensures queues { OnOk result (Queues self.old receipt key self.new) }
        ensures refused { IfErr result (λ refusal. RefusesAny self.old refusal.0 × SameEntries self.old self.new) }
        ensures returned { IfErr result (λ refusal. refusal.1 ≡ receipt) }
    {
        if let Err(why) = self.check_rest() {
            return Err((why, receipt));
        }
        if let Some(number) = self.known(&key) {
            self.stage = Stage::Telling(TillNote::Queued(number));
            return Ok(());
        }
        if self.book.count >= MOST_ENTRIES - 1 || self.book.reserve().is_err() {
            return Err((TillRefusal::Memory, receipt));
        }
        self.stage = taking(&self.book, key, receipt.into_content());
        Ok(())
    }

    // The number of the receipt that has this key, if there is a key, and a receipt that has it.
    fn known(&self, key: &Option<ReceiptKey>) -> Option<ReceiptNumber>
        ensures { MatchOption result (IsNew self.now.book key.now) (λ number. IsKnown self.now.book key.now number) }
    {
        match key {
            Some(key) => self.book.number_of(key),
            None => None,
        }
    }

    /// Raises the next mark number to this one, since those below it were used elsewhere: that is to be kept.
    ///
    /// The errors are `Busy`, `Failed`, `Memory`, `MarkReused` if the next number is higher, and `MarkTooHigh` if fewer numbers than
    /// a try takes would be left.
    pub fn raise(&mut self, first: u32) -> Result<(), TillRefusal>
        ensures raises { OnOk result (Raises self.old first self.new) }
        ensures refused { IfErr result (λ why. RefusesRaise self.old first why × (self.new ≡ self.old)) }
    {
        self.check_rest()?;
        let next = self.book.next;
        if first < next {
            return Err(TillRefusal::MarkReused { next });
        }
        let last = last_first(&self.book);
        if first > last {
            return Err(TillRefusal::MarkTooHigh { last });
        }
        if self.book.count >= MOST_ENTRIES {
            return Err(TillRefusal::Memory);
        }
        self.stage = Stage::Keeping {
            entry: raised(&self.book, first),
            then: Then::Raised,
        };
        Ok(())
    }

    /// Cancels a receipt that waits: that is to be kept. Then it waits no more.
    ///
    /// The errors are `Busy`, `Failed`, `Memory`, `NotTaken`, `Earlier`, `Recorded` and `Cancelled`.
    pub fn cancel(&mut self, number: ReceiptNumber) -> Result<(), TillRefusal>
        ensures cancels { OnOk result (Cancels self.old number self.new) }
        ensures refused { IfErr result (λ why. RefusesCancel self.old number why × (self.new ≡ self.old)) }
    {
        self.check_rest()?;
        let tried = match self.book.state(number) {
            Some(ReceiptState::Waiting { tried }) => tried,
            Some(ReceiptState::Recorded { .. }) => return Err(TillRefusal::Recorded(number)),
            Some(ReceiptState::Cancelled { .. }) => return Err(TillRefusal::Cancelled(number)),
            None if self.book.is_earlier(number) => return Err(TillRefusal::Earlier(number)),
            None => return Err(TillRefusal::NotTaken(number)),
        };
        if self.book.count >= MOST_ENTRIES {
            return Err(TillRefusal::Memory);
        }
        self.stage = Stage::Keeping {
            entry: Entry::Cancelled { number },
            then: Then::Cancelled { number, tried },
        };
        Ok(())
    }

    /// Delivers the first receipt that waits, over a link with so many opening marks (0 counts as 1), on which at most `most` bytes of
    /// answers are read. `copy` is the text of a line that is put before a receipt that was tried before. If `further` is true, the receipts
    /// that wait after it are sent over the same link, one after another, each with at most `most` bytes of answers: that one is recorded is
    /// told then while the next one is being sent. A receipt that can't go over that link waits, and ends the call: that the one before is
    /// recorded is told at the end.
    ///
    /// The errors are `Busy`, `Failed`, `Memory`, `NothingWaits`, `NoReceipt` and `MarksUsedUp`.
    pub fn deliver(
        &mut self,
        openings: u32,
        copy: Option<&CopyText<'_>>,
        most: u32,
        further: bool,
    ) -> Result<(), TillRefusal>
        ensures delivers { OnOk result (Delivers self.old openings most (option_map (λ t. t.now) copy.entry) further self.new) }
        ensures refused { IfErr result (λ why. RefusesDeliver self.old openings why × SameEntries self.old self.new) }
    {
        let due = self.next_due(openings, copy, most, further)?;
        if self.book.reserve_try().is_err() {
            return Err(TillRefusal::Memory);
        }
        self.stage = Stage::Connecting(due);
        Ok(())
    }

    // The first receipt that waits, as it is to be sent.
    fn next_due(
        &self,
        openings: u32,
        copy: Option<&CopyText<'_>>,
        most: u32,
        further: bool,
    ) -> Result<Due, TillRefusal>
        ensures rest { IfOk result (λ _. self.now.stage ≡ Stage.AtRest) }
        ensures further { IfOk result (λ due. due.further ≡ further_of further most (option_map (λ t. t.now) copy.entry)) }
        ensures next { IfOk result (λ due. IsNext self.now.book openings most (option_map (λ t. t.now) copy.entry) due) }
        ensures fits { IfOk result (λ due. (entries : List Entry) → IsBookOf self.now.book entries → MayTry entries due) }
        ensures refused { IfErr result (λ why. RefusesDeliver self.now openings why) }
    {
        self.check_rest()?;
        let Some(first) = self.book.first_waiting() else {
            return Err(TillRefusal::NothingWaits);
        };
        let number = first.number;
        let receipt = match first.to_send(self.alloc, copy) {
            Ok(receipt) => receipt,
            Err(JsonError::Refused(why)) => return Err(TillRefusal::NoReceipt { number, why }),
            Err(JsonError::Memory) => return Err(TillRefusal::Memory),
        };
        if !self.book.has_marks(openings) {
            return Err(TillRefusal::MarksUsedUp { number });
        }
        if self.book.count >= MOST_ENTRIES - 1 {
            return Err(TillRefusal::Memory);
        }
        Ok(Due {
            number,
            receipt,
            openings,
            most,
            further: further_of(further, most, copy),
        })
    }

    // Refuses a call of a machine that isn't at rest.
    fn check_rest(&self) -> Result<(), TillRefusal>
        ensures rest { OnOk result (self.now.stage ≡ Stage.AtRest) }
        ensures refused { IfErr result (λ why. RefusesAny self.now why) }
    {
        match self.stage {
            Stage::AtRest => Ok(()),
            Stage::Failed => Err(TillRefusal::Failed),
            _ => Err(TillRefusal::Busy),
        }
    }

    /// Whether the entry that it asked for is kept. It isn't known if the store failed: then the machine fails.
    pub fn appended(&mut self, kept: Result<(), StoreFault>)
        ensures kept { kept ≡ Ok tt → Kept self.old.stage self.old self.new }
        ensures unsure { IfErr kept (λ why. Unsure self.old.stage why self.old self.new) }
    {
        match replace(&mut self.stage, Stage::AtRest) {
            Stage::Keeping { entry, then } => match kept {
                Ok(()) => self.follow(entry, then),
                Err(why) => {
                    self.host.link_down();
                    self.stage = lost(then, why);
                }
            },
            other => self.stage = other,
        }
    }

    // The entry is kept, and this follows.
    fn follow(&mut self, entry: Entry, then: Then)
        requires fits { (entries : List Entry) × IsBookOf self.old.book entries × IsLedger entries × Fits self.old.book entries (Stage.Keeping entry then) }
        ensures book { Notes self.old.book entry self.new.book }
        ensures follows { Follows then self.old.host self.old.book.next self.new.book self.new.host self.new.stage }
    {
        let first = self.book.next;
        self.book.note(entry);
        reserve_next(&mut self.book, &then);
        self.stage = following(self.alloc, &self.book, &mut self.host, first, then);
    }

    /// Learns that others have added these entries before the one that it asked for, which isn't kept. Others may take receipts, raise the
    /// next mark number and cancel receipts. Then it asks for what is to be kept now: the try of a receipt with the mark numbers that are free
    /// now, or that a receipt is recorded; or, where a receipt is cancelled, it gives the link up and tells that.
    ///
    /// It fails where they aren't such entries, where an allocation fails, and where it delivers nothing: nobody else may add entries then. The
    /// error says why, and the machine tells it too.
    pub fn learned(&mut self, others: &[Entry]) -> Result<(), StoreFault>
        ensures learned { Learned self.old.stage others.now self.old self.new }
        ensures all { OnOk result (IfKeeping self.old.stage (λ next. LearnsAll next others.now self.old self.new)) }
        ensures fails { IfErr result (λ why. IfKeeping self.old.stage (λ next. FailsToLearn next others.now why self.old self.new)) }
    {
        match replace(&mut self.stage, Stage::AtRest) {
            Stage::Keeping { entry, then } => self.learn(others, &entry, then),
            other => {
                self.stage = other;
                Ok(())
            }
        }
    }

    // The same for a machine that was to keep an entry, after which this follows.
    fn learn(&mut self, others: &[Entry], _entry: &Entry, then: Then) -> Result<(), StoreFault>
        requires fits { (entries : List Entry) × IsBookOf self.old.book entries × IsLedger entries × Fits self.old.book entries (Stage.Keeping _entry.now then) }
        ensures all { OnOk result (LearnsAll then others.now self.old self.new) }
        ensures fails { IfErr result (λ why. FailsToLearn then others.now why self.old self.new) }
    {
        if let Err(why) = learn(self.alloc, &mut self.book, others, &then) {
            self.host.link_down();
            self.stage = lost(then, why);
            return Err(why);
        }
        self.stage = revised(self.alloc, &self.book, &mut self.host, then);
        Ok(())
    }

    /// Whether there is a link.
    pub fn connected(&mut self, is: bool)
        ensures connected { IsTrue is → self.new ≡ connected self.old.stage self.old }
        ensures not_connected { ¬ IsTrue is → self.new ≡ not_connected self.old.stage self.old }
    {
        self.stage = match replace(&mut self.stage, Stage::AtRest) {
            Stage::Connecting(due) if is => Stage::Keeping {
                entry: Entry::Tried {
                    number: due.number,
                    next: self.book.next + marks_taken(due.openings),
                },
                then: Then::Send(due),
            },
            Stage::Connecting(due) => Stage::Telling(TillNote::NoLink(due.number)),
            other => other,
        };
    }

    /// Moves the next bytes that are to be put to the start of `room`, as many as there are and fit, and returns their number. The
    /// rest of `room` is unchanged.
    pub fn take_out(&mut self, room: &mut [u8]) -> usize
        ensures taken { self.new ≡ put self.old.stage result self.old }
        ensures copied { room.new ≡ take result self.old.host.out ++ drop result room.old }
        ensures count { (talk : Talk) → self.old.stage ≡ Stage.Talking talk → result ≡ min (length room.old) (length self.old.host.out) }
        ensures none { ((talk : Talk) → self.old.stage ≢ Stage.Talking talk) → result ≡ 0 }
    {
        match self.stage {
            Stage::Talking(_) => self.host.take_out(room),
            _ => 0,
        }
    }

    /// Hears bytes of answers up to the first event, and returns how many it took. The others are kept: for as long as it asks for `Put`
    /// or `Wait` then, it is given them again before any that came later, and else they are dropped. Where it asks for `Tell`, `told` is called
    /// first: otherwise the owner may never be told that a receipt is recorded.
    pub fn came(&mut self, bytes: &[u8]) -> usize
        ensures came { Came self.old.stage bytes.now result self.old self.new }
        ensures within { result ≤ length bytes.now }
    {
        match replace(&mut self.stage, Stage::AtRest) {
            Stage::Talking(talk) => {
                let heard = self.host.heard(bytes);
                let left = less(talk.left, heard.consumed);
                let all = heard.consumed == bytes.len();
                self.stage = turned(
                    self.alloc,
                    &self.book,
                    &mut self.host,
                    heard.event,
                    talk,
                    left,
                    all,
                );
                heard.consumed
            }
            other => {
                self.stage = other;
                bytes.len()
            }
        }
    }

    /// The link has ended, failed, or was waited for as long as may be: where the printer says that it prints nothing, that is told. Where it asks for
    /// `Tell`, `told` is called first: otherwise the owner isn't told that a receipt is recorded.
    pub fn link_ended(&mut self, why: SendFault)
        ensures { Ended self.old.stage why self.old self.new }
    {
        match replace(&mut self.stage, Stage::AtRest) {
            Stage::Talking(talk) => {
                self.host.link_down();
                self.stage = Stage::HangingUp(talk.ended(why));
            }
            other => self.stage = other,
        }
    }

    /// The link is given up.
    pub fn hung_up(&mut self)
        ensures { self.new ≡ hung_up self.old.stage self.old }
    {
        if let Stage::HangingUp(note) = self.stage {
            self.stage = Stage::Telling(note);
        }
    }

    /// Its owner knows what it was to be told.
    pub fn told(&mut self)
        ensures { self.new ≡ told self.old.stage self.old }
    {
        match &mut self.stage {
            Stage::Telling(TillNote::NotKept(_)) => self.stage = Stage::Failed,
            Stage::Telling(_) => self.stage = Stage::AtRest,
            Stage::Talking(talk) => talk.told(),
            _ => {}
        }
    }

    /// Proof only: gives the caller these facts: what holds of every host holds of the machine's, what is to be sent is a receipt, and what
    /// is told at the end is what came of a call.
    pub fn is_sound(&self)
        ensures note { EndsFinally self.now.stage }
        ensures host { IsSound self.now.host }
        ensures receipt { SendsReceipt self.now.stage }
    {
        self.host.is_sound();
        if let Stage::Connecting(due) = &self.stage {
            let _ = due.receipt.commands();
        }
    }

    /// Where the receipts stand, in the order of their numbers.
    pub fn states(&self) -> &[ReceiptState]
        ensures { (entries : List Entry) → IsBookOf self.now.book entries → result.now ≡ states_of entries }
    {
        self.book.states.as_slice()
    }

    /// The number of the last receipt that an older ledger has taken; 0 if there is none. The receipts of this ledger have the numbers after it.
    pub fn earlier(&self) -> u32
        ensures book { result ≡ self.now.book.earlier }
        ensures entries { (entries : List Entry) → IsBookOf self.now.book entries → result ≡ earlier entries }
    {
        self.book.earlier
    }

    /// The next mark number.
    pub fn next_mark(&self) -> u32
        ensures { result ≡ self.now.book.next }
    {
        self.book.next
    }
}
