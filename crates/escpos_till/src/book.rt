//! What a till knows of its ledger: where the receipts stand, the contents of those that wait, the keys, and the next mark number.
//!
//! `specs/Book.antt` says what it is of the entries.

ghost use Rattle.std.specs.Prelude.{◌≡◌, ◌⊎◌, ℕ, ◌+◌, ◌-◌, ◌^◌, ◌<◌, ◌≤◌, ◌↔◌, List, [], ◌∷◌, ◌++◌, length, slice_get, Some, IsTrue, OnOk, IfOk, IfSome, IsErrOf, MatchOption};
ghost use Rattle.escpos_till.specs.declared.entry.Content.{Content};
ghost use Rattle.escpos_till.specs.declared.entry.Entry.{Entry};
ghost use Rattle.escpos_till.specs.declared.entry.Entry.TheVariants as entry_kind;
ghost use Rattle.escpos_till.specs.declared.state.ReceiptState.{ReceiptState};
ghost use Rattle.escpos_till.specs.declared.state.ReceiptState.TheVariants as state_kind;
ghost use Rattle.escpos_till.specs.States.{IsEnded};
ghost use Rattle.escpos_till.specs.Contents.{content_with};
ghost use Rattle.escpos_till.specs.Book.{HasRoom, HasTryRoom, IsBookOf, NeedsNoRoom, Notes, StandsAt};
ghost use Rattle.escpos_till.specs.Entries.{HasKey, heard_said, IsLedger, MayFollow, Waits, earlier, last_number, state_of, times_tried, waiting};
ghost use Rattle.escpos_till.specs.Delivers.{FirstWaits, marks_taken};
ghost use Rattle.escpos_till.specs.Machine.{mark_limit};
ghost use Rattle.escpos_till.specs.Learning.{FollowAll, NotesAll};

use crate::entry::{Content, Entry};
use crate::key::ReceiptKey;
use crate::keyed::Keys;
use crate::number::ReceiptNumber;
use crate::state::{
    ReceiptState, first_besides, first_waiting_from, once_cancelled, one_try_more, tries_in,
};
use crate::tries::{Try, end_of_tries, limit_from};
use crate::waiting::WaitingReceipt;
use std::alloc::{AllocError, Global};

/// No more entries than these are taken.
pub(crate) const MOST_ENTRIES: usize = 4_611_686_018_427_387_904;

const _: () = prove!(MOST_ENTRIES == 4_611_686_018_427_387_904);

/// Why there is no book of some entries.
#[derive(Clone, Copy)]
pub(crate) enum NoBook {
    /// They aren't a ledger.
    Damaged,
    /// Out of memory.
    Memory,
}

/// What a till knows of its ledger.
#[derive(Drop)]
pub struct Book {
    /// The number of the last receipt that an older ledger has taken; 0 if there is none.
    pub(crate) earlier: u32,
    /// Where the receipts stand.
    pub(crate) states: Vec<ReceiptState>,
    /// The contents of those that wait; an empty one for each of the others.
    pub(crate) contents: Vec<Content>,
    /// The place of the first that waits; past the end if none does.
    pub(crate) first_waiting: usize,
    /// How many are recorded.
    pub(crate) recorded: usize,
    /// All tries of receipts, in order.
    pub(crate) tries: Vec<Try>,
    /// The keys of receipts, each with its receipt's number.
    pub(crate) keys: Keys,
    /// The key that the last entry says, if it says one.
    pub(crate) last_key: Option<ReceiptKey>,
    /// The next mark number.
    pub(crate) next: u32,
    /// No mark with a number below this one can be answered any more.
    pub(crate) heard: u32,
    /// How many entries there are.
    pub(crate) count: usize,
}

impl Book {
    /// The book of no entries. Allocates nothing.
    #[tactic(auto, using(crate::proofs::KeyLemmas::no_keys))]
    pub(crate) fn new(alloc: Global) -> Self
        ensures { IsBookOf result [] }
    {
        Book {
            earlier: 0,
            states: Vec::new(alloc),
            contents: Vec::new(alloc),
            first_waiting: 0,
            recorded: 0,
            tries: Vec::new(alloc),
            keys: Keys::new(alloc),
            last_key: None,
            next: 0,
            heard: 0,
            count: 0,
        }
    }

    /// The book of these entries.
    pub(crate) fn of(alloc: Global, entries: &[Entry]) -> Result<Self, NoBook>
        ensures book { IfOk result (λ book. IsBookOf book entries.now) }
        ensures ledger { IfOk result (λ _. IsLedger entries.now) }
        ensures damaged { IsErrOf result NoBook.Damaged → ¬ IsLedger entries.now }
    {
        let mut book = Book::new(alloc);
        match book.take_in(alloc, entries) {
            Ok(()) => Ok(book),
            Err(why) => Err(why),
        }
    }

    /// The number of the receipt that was taken last.
    pub(crate) fn last_number(&self) -> ReceiptNumber
        requires { 0 < length self.now.states.items }
        ensures { result ≡ self.now.earlier + length self.now.states.items }
    {
        ReceiptNumber::new(self.earlier as usize + self.states.len()).unwrap()
    }

    /// Whether an older ledger has taken the receipt with this number.
    pub(crate) fn is_earlier(&self, number: ReceiptNumber) -> bool
        ensures from_one { 0 < number }
        ensures older { IsTrue result → number ≤ self.now.earlier }
        ensures here { ¬ IsTrue result → self.now.earlier < number }
        ensures entries { (entries : List Entry) → IsBookOf self.now entries → IsTrue result ↔ number ≤ earlier entries }
    {
        number.get() <= self.earlier as usize
    }

    // The place of a receipt that was taken here.
    fn place(&self, number: ReceiptNumber) -> usize
        requires { self.now.earlier < number }
        ensures { result ≡ number - (1 + self.now.earlier) }
    {
        number.get() - (1 + self.earlier as usize)
    }

    /// Where a receipt stands; `None` if it was never taken, or an older ledger has taken it.
    pub(crate) fn state(&self, number: ReceiptNumber) -> Option<ReceiptState>
        ensures stands { (entries : List Entry) → IsBookOf self.now entries → MatchOption result
            ((number ≤ earlier entries) ⊎ (last_number entries < number)) (λ state. state ≡ state_of entries number) }
        ensures waits { (entries : List Entry) (tried : ℕ) → IsBookOf self.now entries → result ≡ Some (state_kind.Waiting tried)
            → Waits entries number × (times_tried entries number ≡ tried) }
    {
        if self.is_earlier(number) {
            return None;
        }
        let place = self.place(number);
        if place < self.states.len() {
            Some(self.states[place])
        } else {
            None
        }
    }

    /// How often a receipt was tried, if it waits; `None` if it was never taken here, or waits no more.
    pub(crate) fn tried(&self, number: ReceiptNumber) -> Option<usize>
        ensures { (entries : List Entry) → IsBookOf self.now entries → MatchOption result
            (¬ Waits entries number) (λ tried. Waits entries number × (times_tried entries number ≡ tried)) }
    {
        if self.is_earlier(number) {
            return None;
        }
        let place = self.place(number);
        if place < self.states.len() {
            tries_in(self.states[place])
        } else {
            None
        }
    }

    /// The number of the receipt that has this key; `None` if none has it.
    pub(crate) fn number_of(&self, key: &ReceiptKey) -> Option<ReceiptNumber>
        ensures { (entries : List Entry) → IsBookOf self.now entries → MatchOption result
            ((number : ℕ) → HasKey entries key.now number → ⊥) (λ number. HasKey entries key.now number) }
    {
        self.keys.number_with(key)
    }

    // Whether no receipt has this key.
    fn is_new(&self, key: &ReceiptKey) -> bool
        ensures { (entries : List Entry) → IsBookOf self.now entries → IsTrue result ↔ ((number : ℕ) → HasKey entries key.now number → ⊥) }
    {
        match self.number_of(key) {
            Some(_) => false,
            None => true,
        }
    }

    // Whether an entry may say that this receipt of an older ledger came with this key.
    fn may_have(&self, number: ReceiptNumber, key: &ReceiptKey) -> bool
        ensures { (entries : List Entry) → IsBookOf self.now entries → IsTrue result ↔ MayFollow entries (entry_kind.Earlier number key.now) }
    {
        may_be_said(
            self.is_earlier(number),
            self.is_new(key),
            self.has_key(number),
        )
    }

    // Whether a receipt has this number that has a key.
    fn has_key(&self, number: ReceiptNumber) -> bool
        ensures { (entries : List Entry) → IsBookOf self.now entries → IsTrue result ↔ ((key : List ℕ) × HasKey entries key number) }
    {
        self.keys.has_number(number)
    }

    /// Whether an entry may come after those that this is the book of.
    pub(crate) fn may_follow(&self, entry: &Entry) -> bool
        ensures { (entries : List Entry) → IsBookOf self.now entries → IsTrue result ↔ MayFollow entries entry.now }
    {
        match entry {
            Entry::Queued { .. } => true,
            Entry::Tried { number, next } => self.may_try(*number, *next),
            Entry::Recorded { number, heard } => self.may_record(*number, *heard),
            Entry::Raised { next, heard } => self.may_raise(*next, *heard),
            Entry::Cancelled { number } => self.tried(*number).is_some(),
            Entry::Key { key } => self.is_new(key),
            Entry::Renewed { .. } => self.count == 0,
            Entry::Earlier { number, key } => self.may_have(*number, key),
        }
    }

    // Whether a receipt may be tried with mark numbers below this one.
    fn may_try(&self, number: ReceiptNumber, next: u32) -> bool
        ensures { (entries : List Entry) → IsBookOf self.now entries → IsTrue result ↔ MayFollow entries (entry_kind.Tried number next) }
    {
        self.tried(number).is_some() && self.next < next && next <= self.mark_limit()
    }

    // Whether a receipt may be recorded, where no mark below that number can be answered any more.
    fn may_record(&self, number: ReceiptNumber, heard: u32) -> bool
        ensures { (entries : List Entry) → IsBookOf self.now entries → IsTrue result ↔ MayFollow entries (entry_kind.Recorded number heard) }
    {
        matches!(self.tried(number), Some(tried) if 0 < tried) && heard <= self.next
    }

    // Whether the next mark number may be raised to this one, and what is heard to that.
    fn may_raise(&self, next: u32, heard: u32) -> bool
        ensures { (entries : List Entry) → IsBookOf self.now entries → IsTrue result ↔ MayFollow entries (entry_kind.Raised next heard) }
    {
        self.next <= next && (heard == 0 || (heard == next && self.heard == self.next))
    }

    /// The numbers of the marks that may be put are below this one: no two marks that may still be answered have one id.
    pub(crate) fn mark_limit(&self) -> u32
        ensures { result ≡ mark_limit self.now }
    {
        limit_from(self.heard)
    }

    /// Whether there are numbers for the marks of a try with so many opening marks.
    pub(crate) fn has_marks(&self, openings: u32) -> bool
        ensures { IsTrue result ↔ self.now.next + marks_taken openings ≤ mark_limit self.now }
    {
        let marks = openings.max(1) as u64 + 1;
        self.next as u64 + marks <= self.mark_limit() as u64
    }

    // What an entry says of marks that can't be answered any more, which says that a receipt is recorded.
    fn said(&self, number: ReceiptNumber, heard: u32) -> u32
        ensures { (entries : List Entry) → IsBookOf self.now entries → IsLedger entries → result ≡ heard_said entries (entry_kind.Recorded number heard) }
    {
        if heard == 0 {
            end_of_tries(&self.tries, number)
        } else {
            heard
        }
    }

    /// The first receipt that waits; `None` if none does.
    pub(crate) fn first_waiting(&self) -> Option<WaitingReceipt<'_>>
        requires { (entries : List Entry) × IsBookOf self.now entries }
        ensures waits { (entries : List Entry) → IsBookOf self.now entries → IfSome result (λ first. Waits entries first.number) }
        ensures first { (entries : List Entry) → IsBookOf self.now entries → MatchOption result
            (waiting entries ≡ []) (λ first. FirstWaits entries first.number (content_with first.options first.content.now) first.tried) }
    {
        self.waiting_at(self.first_waiting)
    }

    /// The first receipt that waits but for this one: that would be the first once this one is recorded. `None` if none does.
    pub(crate) fn first_besides(&self, number: ReceiptNumber) -> Option<WaitingReceipt<'_>>
        requires { (entries : List Entry) × IsBookOf self.now entries }
        ensures first { (entries : List Entry) (heard : ℕ) → IsBookOf self.now entries → MayFollow entries (entry_kind.Recorded number heard) → IfSome result (λ first.
            FirstWaits (entries ++ entry_kind.Recorded number heard ∷ []) first.number (content_with first.options first.content.now) first.tried
            × Waits (entries ++ entry_kind.Recorded number heard ∷ []) first.number) }
    {
        let place = number.get().saturating_sub(1 + self.earlier as usize);
        self.waiting_at(first_besides(&self.states, self.first_waiting, place))
    }

    // The receipt at this place, which waits, unless the place is past the end.
    fn waiting_at(&self, place: usize) -> Option<WaitingReceipt<'_>>
        requires waits { (s : ReceiptState) → slice_get self.now.states.items place ≡ Some s → IsEnded s → ⊥ }
        requires contents { length self.now.contents.items ≡ length self.now.states.items }
        ensures { MatchOption result (length self.now.states.items ≤ place) (λ first. StandsAt self.now place first.number (content_with first.options first.content.now) first.tried) }
    {
        if place >= self.states.len() {
            return None;
        }
        let ReceiptState::Waiting { tried } = self.states[place] else {
            unreachable!()
        };
        let content = &self.contents[place];
        Some(WaitingReceipt {
            number: ReceiptNumber::new(self.earlier as usize + place + 1).unwrap(),
            content: content.bytes(),
            options: content.options,
            tried,
        })
    }

    /// Makes room for one more receipt, with a key.
    pub(crate) fn reserve(&mut self) -> Result<(), AllocError>
        ensures room { OnOk result (HasRoom self.new) }
        ensures same { (entries : List Entry) → IsBookOf self.old entries → IsBookOf self.new entries }
    {
        self.states.reserve(1)?;
        self.contents.reserve(1)?;
        self.keys.reserve()
    }

    /// Whether there is room for one more try.
    pub(crate) fn has_try_room(&self) -> bool
        ensures { IsTrue result → HasTryRoom self.now }
    {
        self.tries.len() < self.tries.capacity()
    }

    /// Makes room for one more try.
    pub(crate) fn reserve_try(&mut self) -> Result<(), AllocError>
        ensures room { OnOk result (HasTryRoom self.new) }
        ensures kept { HasRoom self.old → HasRoom self.new }
        ensures same { (entries : List Entry) → IsBookOf self.old entries → IsBookOf self.new entries }
        ensures states { self.new.states ≡ self.old.states }
        ensures next { self.new.next ≡ self.old.next }
    {
        self.tries.reserve(1)
    }
}

impl Book {
    /// Takes more entries into account, one after another. At `Err` some of them are.
    pub(crate) fn take_in(&mut self, alloc: Global, more: &[Entry]) -> Result<(), NoBook>
        requires { (entries : List Entry) × IsBookOf self.old entries × IsLedger entries }
        ensures all { OnOk result (NotesAll self.old more.now self.new) }
        ensures some { (entries : List Entry) × IsBookOf self.new entries × IsLedger entries }
        ensures damaged { IsErrOf result NoBook.Damaged → (entries : List Entry) → IsBookOf self.old entries → IsLedger entries → ¬ FollowAll entries more.now }
    {
        for entry in more {
            if !self.may_follow(entry) {
                return Err(NoBook::Damaged);
            }
            if self.count >= MOST_ENTRIES {
                return Err(NoBook::Memory);
            }
            let Ok(entry) = entry.copy(alloc) else {
                return Err(NoBook::Memory);
            };
            if self.reserve().is_err() || self.reserve_try().is_err() {
                return Err(NoBook::Memory);
            }
            self.note(entry);
        }
        Ok(())
    }

    /// Takes one more entry into account.
    pub(crate) fn note(&mut self, entry: Entry)
        requires follows { (entries : List Entry) × IsBookOf self.old entries × IsLedger entries × MayFollow entries entry × (length entries < 2 ^ 63) }
        requires room { (content : Content) → entry ≡ entry_kind.Queued content → HasRoom self.old }
        requires key_room { (number : ℕ) (key : List ℕ) → entry ≡ entry_kind.Earlier number key → HasRoom self.old }
        requires try_room { (number next : ℕ) → entry ≡ entry_kind.Tried number next → HasTryRoom self.old }
        ensures notes { Notes self.old entry self.new }
        ensures room { NeedsNoRoom entry → HasRoom self.old → HasRoom self.new }
        ensures try_room { (number heard : ℕ) → entry ≡ entry_kind.Recorded number heard → HasTryRoom self.old → HasTryRoom self.new }
    {
        match entry {
            Entry::Queued { content } => self.note_queued(content),
            Entry::Tried { number, next } => {
                let place = self.place(number);
                self.states[place] = one_try_more(self.states[place]);
                self.tries.push_reserved(Try {
                    number,
                    closing: next - 1,
                });
                self.next = next;
                self.last_key = None;
                self.count += 1;
            }
            Entry::Recorded { number, heard } => self.note_recorded(number, heard),
            Entry::Raised { next, heard } => {
                self.next = next;
                self.heard = self.heard.max(heard);
                self.last_key = None;
                self.count += 1;
            }
            Entry::Cancelled { number } => self.note_cancelled(number),
            Entry::Key { key } => {
                self.last_key = Some(key);
                self.count += 1;
            }
            Entry::Renewed { last, heard } => {
                self.earlier = last;
                self.heard = self.heard.max(heard);
                self.last_key = None;
                self.count += 1;
            }
            Entry::Earlier { number, key } => {
                self.keys.push_reserved(key, number);
                self.last_key = None;
                self.count += 1;
            }
        }
    }

    // Takes into account that a receipt is taken, with the key that the entry before said, if it said one.
    fn note_queued(&mut self, content: Content)
        requires follows { (entries : List Entry) × IsBookOf self.old entries × IsLedger entries × (length entries < 2 ^ 63) }
        requires room { HasRoom self.old }
        ensures { Notes self.old (entry_kind.Queued content) self.new }
    {
        self.states
            .push_reserved(ReceiptState::Waiting { tried: 0 });
        self.contents.push_reserved(content);
        self.count += 1;
        if let Some(key) = self.last_key.take() {
            let number = self.last_number();
            self.keys.push_reserved(key, number);
        }
    }

    // Takes into account that a receipt is recorded, and that no mark below that number can be answered any more; 0 stands for the number after
    // the closing mark of the receipt's last try.
    fn note_recorded(&mut self, number: ReceiptNumber, heard: u32)
        requires follows { (entries : List Entry) × IsBookOf self.old entries × IsLedger entries × MayFollow entries (entry_kind.Recorded number heard) × (length entries < 2 ^ 63) }
        ensures notes { Notes self.old (entry_kind.Recorded number heard) self.new }
        ensures try_room { HasTryRoom self.old → HasTryRoom self.new }
    {
        self.heard = self.heard.max(self.said(number, heard));
        let place = self.place(number);
        self.states[place] = ReceiptState::Recorded {
            place: self.recorded,
        };
        self.contents[place] = Content::new(Vec::new(*self.contents.allocator()));
        self.recorded += 1;
        self.first_waiting = first_waiting_from(&self.states, self.first_waiting);
        self.last_key = None;
        self.count += 1;
    }

    // Takes into account that a receipt is cancelled.
    fn note_cancelled(&mut self, number: ReceiptNumber)
        requires follows { (entries : List Entry) × IsBookOf self.old entries × IsLedger entries × MayFollow entries (entry_kind.Cancelled number) × (length entries < 2 ^ 63) }
        ensures { Notes self.old (entry_kind.Cancelled number) self.new }
    {
        let place = self.place(number);
        self.states[place] = once_cancelled(self.states[place]);
        self.contents[place] = Content::new(Vec::new(*self.contents.allocator()));
        self.first_waiting = first_waiting_from(&self.states, self.first_waiting);
        self.last_key = None;
        self.count += 1;
    }
}

// Whether a key may be said of a receipt of an older ledger: it is one of those, the key is new, and the receipt has none.
fn may_be_said(is_earlier: bool, is_new: bool, is_keyed: bool) -> bool
    ensures { IsTrue result ↔ (IsTrue is_earlier × IsTrue is_new × ¬ IsTrue is_keyed) }
{
    is_earlier && is_new && !is_keyed
}
