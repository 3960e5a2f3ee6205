//! The host: what it may say on a link, and when a receipt is recorded as printed.
//!
//! Everything that changes a host is in this module. The protocol is `specs/Machine.antt`; `outbox` keeps what is to be put
//! out, and `answer_reader` reads answers.

ghost use Rattle.std.specs.Prelude.{◌≡◌, ◌≢◌, ◌+◌, ◌-◌, ◌<◌, ◌≤◌, ◌↔◌, min, not, List, [], ◌∷◌, ◌++◌, length, take, drop, slice_get, slice_index, Ok, Err, OnOk, IfErr, IsTrue, IsOk, MatchOption, ℕ};
ghost use Rattle.std.specs.Option.{SomeIff};
ghost use Rattle.escpos_host.specs.Counted.{id_of};
ghost use Rattle.escpos_command.specs.declared.answer.Answer.TheVariants as answer;
ghost use Rattle.escpos_host.specs.Kept.{HasIdAmong, IsPlaceOf};
ghost use Rattle.escpos_host.specs.Heard.{HearsByte, IsHeard, IsMarkFrom, IsNumberOf, Turns};
ghost use Rattle.escpos_host.specs.Machine.{HostView, InFlight, Down, Opening, Open, HasMark, IsOpening, IsSound, RefusesAsk, RefusesLinkUp, RefusesNudge, RefusesSubmit, asked, error_number, gone_down, limit_from, linked, linked_by, linked_reporting, mark_limit, most_in_flight, nudged, receipts_of, reports_asked, state_of, submitted, taken_out, handed_out, with_left};

use crate::answer_reader::{AnswerReader, NoAnswer};
use crate::counted::{MARK_COUNT, id_of_count, number_from};
use crate::outbox::{Out, OutPart};
use arrayvec::ArrayVec;
use escpos_command::{Answer, AutomaticStatus, MarkId, StatusKind};
use escpos_receipt::Receipt;
use std::alloc::Global;
use std::marker::Model;
use std::mem;

/// The most receipts that may be in flight on a link.
pub const MOST_IN_FLIGHT: usize = 4;

const _: () = prove!(MOST_IN_FLIGHT == 4);

/// Where a host stands with its link.
#[derive(Clone, Copy, Debug, PartialEq, Eq)]
pub enum HostState {
    /// There is no link.
    Down,
    /// Opening marks were put out, and none of them is answered yet.
    Opening,
    /// The link is open, and no receipt is in flight.
    Ready,
    /// The link is open, and one to four receipts are in flight.
    Sending,
}

/// Why a call of a host is refused. A refused call leaves the host as it was.
#[derive(Clone, Copy, Debug, PartialEq, Eq)]
pub enum HostError {
    /// 1: the host isn't in a state for this call.
    NotReady,
    /// 2: no number for a mark is left: 1,679,616 marks are out since the last one whose answer was heard, or the next number is
    /// 4,294,967,295.
    MarksUsedUp,
    /// 3: there is a link already.
    AlreadyUp,
    /// 4: out of memory.
    Memory,
    /// 6: four receipts are in flight.
    InFlightFull,
}

impl HostError {
    /// The number that programs print.
    pub fn number(self) -> u8
        ensures { result ≡ error_number self }
    {
        match self {
            HostError::NotReady => 1,
            HostError::MarksUsedUp => 2,
            HostError::AlreadyUp => 3,
            HostError::Memory => 4,
            HostError::InFlightFull => 6,
        }
    }

    ghost use Rattle.escpos_host.specs.Refusals.{error_name};

    /// The name that programs print.
    pub fn name(self) -> &'static str
        ensures value { result.now ≡ error_name self }
        ensures short { length result.now ≤ 12 }
    {
        match self {
            HostError::NotReady => "NotReady",
            HostError::MarksUsedUp => "MarksUsedUp",
            HostError::AlreadyUp => "AlreadyUp",
            HostError::Memory => "Memory",
            HostError::InFlightFull => "InFlightFull",
        }
    }
}

/// What a host hears.
#[derive(Clone, Copy, Debug, PartialEq, Eq)]
pub enum HostEvent {
    /// Nothing that matters.
    None,
    /// An opening mark of this link was answered.
    Opened,
    /// A closing mark was answered: that of a receipt in flight, or before an opening mark is answered that of a receipt that is
    /// left. So its receipt is printed, and so are those that were submitted before it. All of them are recorded, in the order
    /// in which they were submitted; the last one is the record with this number, counted from 0.
    Recorded(usize),
    /// No opening mark of this link is answered yet, and a mark with this id is, which is neither one of them nor the closing mark
    /// of a receipt that is left. An older link put it out, and everything that it put before that mark is done.
    Late(MarkId),
    /// The printer sent this status byte. (Reference: DLE EOT.)
    Status(u8),
    /// The printer sent unasked what its condition is. (Reference: GS a.)
    Condition(AutomaticStatus),
    /// The byte at this place fits no answer. The link is given up.
    BadAnswer { at: usize },
}

/// How far a piece of answers was heard.
#[derive(Clone, Copy, Debug, PartialEq, Eq)]
pub struct Heard {
    /// How many bytes were taken.
    pub consumed: usize,
    /// The event that they end with.
    pub event: HostEvent,
}

// What a host does with its link: nothing, open it with the marks from this number on, or use it.
#[derive(Clone, Copy, Debug, PartialEq, Eq)]
enum Stage {
    Down,
    Opening { first: u32 },
    Open,
}

/// A host: the receipts that it has recorded, and what it says and hears on a link.
#[derive(Drop)]
pub struct Host {
    // those that are recorded, then those that are in flight, then those that are left
    receipts: Vec<Receipt>,
    recorded: usize,
    stage: Stage,
    // the numbers of the closing marks of the receipts in flight, and of those that are left
    closing: ArrayVec<u32, MOST_IN_FLIGHT>,
    left: ArrayVec<u32, MOST_IN_FLIGHT>,
    // the number of the next mark, and the number after the last mark whose answer was heard
    next: u32,
    oldest: u32,
    out: Out,
    reader: AnswerReader,
}

impl Model for Host {
    ghost use Rattle.escpos_host.specs.Machine.{HostView};
    ghost use Rattle.escpos_host.specs.Kept.{IsConsistent, view_of};

    ghost Value = { HostView };

    ghost view = { λ h. view_of h.stage h.receipts.items h.recorded h.closing.items h.left.items h.out h.reader h.next h.oldest };

    ghost invariant = { λ h. IsConsistent h.stage h.receipts.items h.recorded h.closing.items h.left.items h.out h.reader };
}

impl Host {
    /// A host with no link and no record, whose first mark will have this number. It takes it that no mark with a lower number can be
    /// answered any more: where one can, and so many marks are put that its id comes round, use `resume`. Allocates nothing.
    pub fn new(alloc: Global, first_mark: u32) -> Self
        ensures { result ≡ record { phase = Down; out = []; half = []; next = first_mark; heard = first_mark; records = []; left = [] } }
    {
        Host::resume(alloc, first_mark, first_mark, Vec::new(alloc))
    }

    /// A host that goes on after a restart, with these records, with this number for its next mark, which must be one that the host
    /// has never used, and with its `oldest_mark` of before: whoever restarts a host must know from its own records a number that
    /// isn't more than that. One that is more than `first_mark` counts as `first_mark`. Allocates nothing.
    pub fn resume(alloc: Global, first_mark: u32, oldest_mark: u32, records: Vec<Receipt>) -> Self
        ensures { result ≡ record { phase = Down; out = []; half = []; next = first_mark; heard = min oldest_mark first_mark; records = records.items; left = [] } }
    {
        Host {
            recorded: records.len(),
            receipts: records,
            stage: Stage::Down,
            closing: ArrayVec::new(),
            left: ArrayVec::new(),
            next: first_mark,
            oldest: oldest_mark.min(first_mark),
            out: Out::new(alloc),
            reader: AnswerReader::new(),
        }
    }

    /// Where the host stands with its link. Allocates nothing.
    pub fn state(&self) -> HostState
        ensures { result ≡ state_of self.now.phase }
    {
        match self.stage {
            Stage::Down => HostState::Down,
            Stage::Opening { .. } => HostState::Opening,
            Stage::Open if self.closing.is_empty() => HostState::Ready,
            Stage::Open => HostState::Sending,
        }
    }

    /// The receipts that are recorded as printed, in order. Allocates nothing.
    pub fn records(&self) -> &[Receipt]
        ensures { result.now ≡ self.now.records }
    {
        &self.receipts[..self.recorded]
    }

    /// The number of the next mark. Allocates nothing.
    pub fn next_mark(&self) -> u32
        ensures { result ≡ self.now.next }
    {
        let Host { next, .. } = self;
        *next
    }

    /// The number after the last mark whose answer was heard: no mark with a lower number can be answered any more. Allocates nothing.
    pub fn oldest_mark(&self) -> u32
        ensures { result ≡ self.now.heard }
    {
        let Host { oldest, .. } = self;
        *oldest
    }

    /// How many marks the host may put out until it hears the answer to another one. Allocates nothing.
    pub fn marks_left(&self) -> u32
        ensures { result ≡ mark_limit self.now - self.now.next }
    {
        self.oldest
            .saturating_add(MARK_COUNT)
            .saturating_sub(self.next)
    }

    /// Whether there are bytes to take out. Allocates nothing.
    pub fn has_out(&self) -> bool
        ensures { IsTrue result ↔ (self.now.out ≢ []) }
    {
        !self.out.is_empty()
    }

    /// Proof only: gives the caller these facts: with no link there is nothing to take out, and no half answer; at most four
    /// receipts are in flight, and at most four are left.
    pub fn is_sound(&self)
        ensures { IsSound self.now }
    {
        // Proof only: the host's invariant.
        let _ = self.closing.len();
        let _ = self.left.len();
        self.reader.is_sound();
    }

    /// Opens a link: puts one opening mark out. What is left stays: until an opening mark is answered, an answer to the closing
    /// mark of a receipt that is left records it.
    pub fn link_up(&mut self) -> Result<(), HostError>
        ensures up { OnOk result ((self.old.phase ≡ Down) × HasMark self.old × (self.new ≡ linked self.old)) }
        ensures refused { IfErr result (λ why. RefusesLinkUp why self.old × (self.new ≡ self.old)) }
    {
        self.open(false)
    }

    /// Opens a link as `link_up` does, and puts a request for automatic status out before the opening mark, so that the printer tells
    /// each change of its condition but the drawer's. (Reference: GS a.)
    pub fn link_up_reporting(&mut self) -> Result<(), HostError>
        ensures up { OnOk result ((self.old.phase ≡ Down) × HasMark self.old × (self.new ≡ linked_reporting self.old)) }
        ensures refused { IfErr result (λ why. RefusesLinkUp why self.old × (self.new ≡ self.old)) }
    {
        self.open(true)
    }

    // Opens a link, with a request for automatic status or without.
    pub(crate) fn open(&mut self, reporting: bool) -> Result<(), HostError>
        ensures up { OnOk result ((self.old.phase ≡ Down) × HasMark self.old × (self.new ≡ linked_by reporting self.old)) }
        ensures refused { IfErr result (λ why. RefusesLinkUp why self.old × (self.new ≡ self.old)) }
    {
        let Stage::Down = self.stage else {
            return Err(HostError::AlreadyUp);
        };
        let Some(mark) = mark_to_put(self.next, self.oldest) else {
            return Err(HostError::MarksUsedUp);
        };
        if self.out.push(OutPart::opening(mark, reporting)).is_err() {
            return Err(HostError::Memory);
        }
        self.stage = Stage::Opening { first: self.next };
        self.next += 1;
        Ok(())
    }

    /// Puts one more opening mark out; possible while none is answered.
    pub fn nudge(&mut self) -> Result<(), HostError>
        ensures nudged { OnOk result (IsOpening self.old.phase × HasMark self.old × (self.new ≡ nudged self.old)) }
        ensures refused { IfErr result (λ why. RefusesNudge why self.old × (self.new ≡ self.old)) }
    {
        let Stage::Opening { .. } = self.stage else {
            return Err(HostError::NotReady);
        };
        let Some(mark) = mark_to_put(self.next, self.oldest) else {
            return Err(HostError::MarksUsedUp);
        };
        if self.out.push(OutPart::Mark(mark)).is_err() {
            return Err(HostError::Memory);
        }
        self.next += 1;
        Ok(())
    }

    /// Puts a receipt out, after Init and before its closing mark; possible while fewer than four are in flight.
    ///
    /// `Err` returns the receipt.
    pub fn submit(&mut self, receipt: Receipt) -> Result<(), (HostError, Receipt)>
        ensures submitted { OnOk result ((flight : List InFlight) × (self.old.phase ≡ Open flight) × (length flight < most_in_flight)
            × HasMark self.old × (self.new ≡ submitted self.old flight receipt)) }
        ensures refused { IfErr result (λ refusal. RefusesSubmit refusal.0 self.old × (refusal.1 ≡ receipt) × (self.new ≡ self.old)) }
    {
        let Stage::Open = self.stage else {
            return Err((HostError::NotReady, receipt));
        };
        if self.closing.is_full() {
            return Err((HostError::InFlightFull, receipt));
        }
        let Some(closing) = mark_to_put(self.next, self.oldest) else {
            return Err((HostError::MarksUsedUp, receipt));
        };
        let place = self.recorded + self.closing.len();
        if let Err(failed) = self.receipts.insert(place, receipt) {
            return Err((HostError::Memory, failed.value));
        }
        if self.out.push(OutPart::Receipt { place, closing }).is_err() {
            return Err((HostError::Memory, self.receipts.remove(place)));
        }
        self.closing.push(self.next);
        self.next += 1;
        Ok(())
    }

    /// Puts a status request out; possible while no receipt is in flight.
    pub fn ask(&mut self, kind: StatusKind) -> Result<(), HostError>
        ensures asked { OnOk result ((self.old.phase ≡ Open []) × (self.new ≡ asked self.old kind)) }
        ensures refused { IfErr result (λ why. RefusesAsk why self.old × (self.new ≡ self.old)) }
    {
        if self.state() != HostState::Ready {
            return Err(HostError::NotReady);
        }
        if self.out.push(OutPart::Ask(kind)).is_err() {
            return Err(HostError::Memory);
        }
        Ok(())
    }

    /// Puts a request for automatic status out; possible while no receipt is in flight. From then on the printer tells each change of
    /// its condition but the drawer's. (Reference: GS a.)
    pub fn ask_reports(&mut self) -> Result<(), HostError>
        ensures asked { OnOk result ((self.old.phase ≡ Open []) × (self.new ≡ reports_asked self.old)) }
        ensures refused { IfErr result (λ why. RefusesAsk why self.old × (self.new ≡ self.old)) }
    {
        if self.state() != HostState::Ready {
            return Err(HostError::NotReady);
        }
        if self.out.push(OutPart::AskReports).is_err() {
            return Err(HostError::Memory);
        }
        Ok(())
    }

    /// Moves the next bytes to the start of `out`, as many as there are and fit, and returns their number. The rest of
    /// `out` is unchanged. Allocates nothing.
    pub fn take_out(&mut self, out: &mut [u8]) -> usize
        ensures count { result ≡ min (length out.old) (length self.old.out) }
        ensures copied { out.new ≡ take result self.old.out ++ drop result out.old }
        ensures taken { self.new ≡ taken_out self.old result }
    {
        if let Stage::Down = self.stage {
            return 0;
        }
        let put = self.recorded + self.closing.len();
        self.out.take_out(&self.receipts[..put], out)
    }

    /// Hears bytes of answers, up to the first event. With no link all of them are taken and ignored. Allocates nothing.
    pub fn heard(&mut self, bytes: &[u8]) -> Heard
        ensures down { self.old.phase ≡ Down → (result.consumed ≡ length bytes.now) × (result.event ≡ HostEvent.None) × (self.new ≡ self.old) }
        ensures up { self.old.phase ≢ Down → IsHeard self.old bytes.now result.consumed result.event self.new }
    {
        if let Stage::Down = self.stage {
            return Heard {
                consumed: bytes.len(),
                event: HostEvent::None,
            };
        }
        // Proof only: the reader holds nothing or a half answer.
        self.reader.is_sound();
        for (at, byte) in bytes.iter().enumerate() {
            match self.hear_byte(*byte, at) {
                HostEvent::None => {}
                HostEvent::BadAnswer { at: place } => {
                    return Heard {
                        consumed: at,
                        event: HostEvent::BadAnswer { at: place },
                    };
                }
                event => {
                    return Heard {
                        consumed: at + 1,
                        event,
                    };
                }
            }
        }
        Heard {
            consumed: bytes.len(),
            event: HostEvent::None,
        }
    }

    // Hears one byte, which stands at this place of its piece.
    fn hear_byte(&mut self, byte: u8, at: usize) -> HostEvent
        requires { self.old.phase ≢ Down }
        ensures { HearsByte self.old byte at result self.new }
    {
        match self.reader.push(byte) {
            Ok(None) => HostEvent::None,
            Ok(Some(answer)) => self.hear_answer(answer),
            Err(NoAnswer) => {
                self.link_down();
                HostEvent::BadAnswer { at }
            }
        }
    }

    // Hears an answer.
    fn hear_answer(&mut self, answer: Answer) -> HostEvent
        requires { self.old.phase ≢ Down }
        ensures { Turns self.old answer result self.new }
    {
        match answer {
            Answer::Status(byte) => HostEvent::Status(byte),
            Answer::Condition(block) => HostEvent::Condition(block),
            Answer::Mark(id) => self.hear_mark(id),
        }
    }

    // Hears the answer to a mark.
    fn hear_mark(&mut self, id: MarkId) -> HostEvent
        requires { self.old.phase ≢ Down }
        ensures { Turns self.old (answer.Mark id) result self.new }
    {
        match self.stage {
            Stage::Opening { first } => match number_of(id, first, self.next) {
                Some(number) => {
                    self.stage = Stage::Open;
                    self.oldest = number + 1;
                    HostEvent::Opened
                }
                None => self.hear_older(id, first),
            },
            Stage::Open => self.hear_closing(id),
            Stage::Down => HostEvent::None,
        }
    }

    // Hears the answer to a mark of an older link, before an opening mark is answered.
    fn hear_older(&mut self, id: MarkId, first: u32) -> HostEvent
        requires { (self.old.phase ≡ Opening first) × (IsMarkFrom first self.old.next id → ⊥) }
        ensures { Turns self.old (answer.Mark id) result self.new }
    {
        match place_of(self.left.as_slice(), id, self.oldest) {
            Some(place) => {
                self.oldest = remove_first(&mut self.left, place) + 1;
                self.recorded += place + 1;
                HostEvent::Recorded(self.recorded - 1)
            }
            None => {
                if let Some(number) = number_of(id, self.oldest, first) {
                    self.oldest = number + 1;
                }
                HostEvent::Late(id)
            }
        }
    }

    // Hears the answer to a mark while the link is open.
    fn hear_closing(&mut self, id: MarkId) -> HostEvent
        requires { (flight : List InFlight) × (self.old.phase ≡ Open flight) }
        ensures { Turns self.old (answer.Mark id) result self.new }
    {
        match place_of(self.closing.as_slice(), id, 0) {
            Some(place) => {
                self.oldest = remove_first(&mut self.closing, place) + 1;
                self.recorded += place + 1;
                HostEvent::Recorded(self.recorded - 1)
            }
            None => HostEvent::None,
        }
    }

    /// Gives the link up: what wasn't taken out and the half answer are dropped. If the link was open, what was in flight is left,
    /// in place of what was left before; otherwise what was left stays. With no link nothing changes. Allocates nothing.
    pub fn link_down(&mut self)
        ensures up { self.old.phase ≢ Down → self.new ≡ gone_down self.old }
        ensures down { self.old.phase ≡ Down → self.new ≡ self.old }
    {
        if let Stage::Down = self.stage {
            return;
        }
        if let Stage::Open = self.stage {
            self.receipts.truncate(self.recorded + self.closing.len());
            mem::swap(&mut self.left, &mut self.closing);
            self.closing.clear();
        }
        self.stage = Stage::Down;
        self.out.clear();
        self.reader.clear();
    }

    /// Returns the receipts that are left, one by one in the order in which they were submitted: those that were in flight when
    /// the last link that was open was lost, and that no late answer has recorded since. A receipt that is returned is the
    /// caller's: the host doesn't record it any more. Allocates nothing.
    pub fn take_left(&mut self) -> Option<Receipt>
        ensures receipt { result ≡ slice_get (receipts_of self.old.left) 0 }
        ensures rest { self.new ≡ handed_out self.old }
    {
        if self.left.is_empty() {
            return None;
        }
        let _ = self.left.remove(0);
        Some(self.receipts.remove(self.recorded + self.closing.len()))
    }

    // Drops the receipts that are left.
    pub(crate) fn drop_left(&mut self)
        ensures { self.new ≡ with_left self.old [] }
    {
        self.receipts.truncate(self.recorded + self.closing.len());
        self.left.clear();
    }

    /// Ends the host, and returns the receipts that are recorded. Allocates nothing.
    pub fn into_records(self) -> Vec<Receipt>
        ensures { result.items ≡ self.records }
    {
        let mut records = self.receipts;
        records.truncate(self.recorded);
        records
    }
}

// The id of the mark that has this number, where all marks below the oldest are answered; `None` if its id may be out, or no number is
// left.
fn mark_to_put(number: u32, oldest: u32) -> Option<MarkId>
    ensures { SomeIff result (number < limit_from oldest) (id_of number) }
{
    if number < oldest.saturating_add(MARK_COUNT) {
        Some(id_of_count(number))
    } else {
        None
    }
}

// Which of the marks with the numbers from `first` up to `next` has this id.
fn number_of(id: MarkId, first: u32, next: u32) -> Option<u32>
    ensures { MatchOption result (IsMarkFrom first next id → ⊥) (λ n. IsNumberOf first next id n) }
{
    match number_from(id, first) {
        Some(number) if number < next => Some(number),
        _ => None,
    }
}

// The place of the first of these numbers, from `least` on, whose mark has this id.
fn place_of(numbers: &[u32], id: MarkId, least: u32) -> Option<usize>
    ensures { MatchOption result (HasIdAmong least numbers.now id → ⊥) (λ place. IsPlaceOf least numbers.now id place) }
{
    for (place, number) in numbers.iter().enumerate() {
        if least <= *number && is_id_of(*number, id) {
            return Some(place);
        }
    }
    None
}

// Removes the numbers up to this place, and returns the one at it.
fn remove_first(numbers: &mut ArrayVec<u32, MOST_IN_FLIGHT>, place: usize) -> u32
    requires { place < length numbers.old.items }
    ensures rest { numbers.new.items ≡ drop (place + 1) numbers.old.items }
    ensures number { result ≡ slice_index numbers.old.items place }
{
    for _ in 0..place {
        let _ = numbers.remove(0);
    }
    numbers.remove(0)
}

// Whether the mark with this number has this id.
fn is_id_of(number: u32, id: MarkId) -> bool
    ensures { IsTrue result ↔ (id_of number ≡ id) }
{
    id_of_count(number) == id
}
