//! The line: a host and a wire, and what each event does to them.
//!
//! Everything that an event does to both ends is in this module: one function for each event that isn't a call of one of them
//! alone. What holds for a line at all times is left to `sim`.

ghost use Rattle.std.specs.Prelude.{ℕ, ◌≡◌, ◌≢◌, ◌+◌, ◌<◌, ◌≤◌, min, List, [], ◌∷◌, ◌++◌, length, take, drop, None, IfOk, IfErr, IfSome, IsTrue, OnOk, OnErr, ◌↔◌};
ghost use Rattle.escpos_host.specs.declared.host.HostEvent.{HostEvent};
ghost use Rattle.escpos_host.specs.Heard.{HearsAll, last_of};
ghost use Rattle.escpos_host.specs.Machine.{HostView, IsSound, Down};
ghost use Rattle.escpos_paper.specs.Page.{SheetIs};
ghost use Rattle.escpos_link.specs.Refusals.{of_host};
ghost use Rattle.escpos_link.specs.Straight.{HasMarks, IsAtRest, IsSilent, Undisturbed, all_bytes};
ghost use Rattle.escpos_link.specs.EventTable.{After, IsRefused, hung_up, linked_up, moved, off_link, restarted, told_at, with_host};
ghost use Rattle.escpos_link.specs.Resumed.{RefusesResume, resumed};

use crate::event::{Event, Note, Refusal, Refused};
use crate::wire::Wire;
use escpos_command::{LineWidth, StatusKind};
use escpos_host::{Host, HostError, HostEvent, HostState, Receipt, laws};
use escpos_printer::Condition;
use std::alloc::{AllocError, Global};
use std::marker::Model;
use std::mem::replace;

/// A host, and the wire that it is at the end of.
#[derive(Drop)]
pub struct Line {
    /// The host.
    pub host: Host,
    /// The printer, and what lies between it and the host.
    pub wire: Wire,
    // for the host, each time that it is made anew
    alloc: Global,
}

impl Model for Line {
    ghost use Rattle.escpos_link.specs.Line.{LineView};
    ghost use Rattle.escpos_link.specs.Wire.{line_of};

    ghost Value = { LineView };

    ghost view = { λ l. line_of l.host l.wire };
}

impl Line {
    /// A line without links, between a host without records and a printer with nothing on its paper that prints lines of this
    /// width. The error is a failed allocation.
    pub fn new(
        alloc: Global,
        condition: Condition,
        first_mark: u32,
        width: LineWidth,
    ) -> Result<Self, AllocError>
        ensures host { IfOk result (λ line. line.host ≡ record { phase = Down; out = []; half = []; next = first_mark; heard = first_mark; records = []; left = [] }) }
        ensures sheet { IfOk result (λ line. SheetIs width line.printer.sheet [] []) }
        ensures half { IfOk result (λ line. line.printer.half ≡ []) }
        ensures waiting { IfOk result (λ line. line.printer.waiting ≡ []) }
        ensures condition { IfOk result (λ line. line.printer.condition ≡ condition) }
        ensures ended { IfOk result (λ line. line.ended ≡ []) }
        ensures live { IfOk result (λ line. line.live ≡ None) }
        ensures coming { IfOk result (λ line. line.coming ≡ []) }
    {
        let wire = Wire::new(alloc, condition, width)?;
        Ok(Line {
            host: Host::new(alloc, first_mark),
            wire,
            alloc,
        })
    }

    /// Proof only: gives the caller this fact: what holds for every host holds for this one.
    pub fn is_sound(&self)
        ensures { IsSound self.now.host }
    {
        // Proof only: the host's invariant.
        self.host.is_sound();
    }

    /// Whether nothing is under way, and there are enough mark numbers for a receipt.
    pub fn is_undisturbed(&self) -> bool
        ensures { IsTrue result ↔ Undisturbed self.now }
    {
        self.is_at_rest() && self.has_no_answer() && self.has_marks()
    }

    // Whether there is no link and the host is down, or the host is ready on one live link that is empty, with nothing to
    // take out.
    fn is_at_rest(&self) -> bool
        ensures { IsTrue result ↔ IsAtRest self.now }
    {
        match self.host.state() {
            HostState::Down => self.wire.has_no_link(),
            HostState::Ready => self.wire.has_one_empty_link() && !self.host.has_out(),
            _ => false,
        }
    }

    // Whether the printer is online, with no half command and no answer, and no answer is on its way.
    fn has_no_answer(&self) -> bool
        ensures { IsTrue result ↔ IsSilent self.now }
    {
        let printer = self.wire.printer();
        printer.is_online()
            && printer.pending_len() == 0
            && printer.waiting() == 0
            && self.wire.is_quiet()
    }

    // Whether there are enough mark numbers for a receipt.
    fn has_marks(&self) -> bool
        ensures { IsTrue result ↔ HasMarks self.now }
    {
        let marks = match self.host.state() {
            HostState::Down => 2,
            _ => 1,
        };
        marks <= self.host.marks_left()
    }

    /// Proof only: gives the caller this fact: the number of bytes on the live link is below `usize::MAX`.
    pub fn is_short(&self)
        ensures { IfSome self.now.live (λ bytes. length bytes < all_bytes) }
    {
        // Proof only: the same fact of the wire.
        self.wire.is_short();
    }

    /// Lets an event happen, and returns its effect. A refusal leaves the line as it was, except that after `Memory` in
    /// `Move` or `Deliver` it is as after fewer bytes.
    pub fn happen(&mut self, event: Event) -> Result<Note, Refused>
        ensures happened { IfOk result (λ note. After event self.old note self.new) }
        ensures refused { IfErr result (λ refused. IsRefused event self.old refused self.new) }
    {
        match event {
            Event::LinkUp => self.link_up(),
            Event::LinkUpReporting => self.link_up_reporting(),
            Event::Nudge => self.nudge(),
            Event::Submit(receipt) => self.submit(receipt),
            Event::Ask(kind) => self.ask(kind),
            Event::AskReports => self.ask_reports(),
            Event::Move(most) => self.move_bytes(most),
            Event::Deliver(most) => self.wire.deliver(most),
            Event::HandOver => self.wire.hand_over(),
            Event::Answer(most) => Ok(self.answer(most)),
            Event::PrinterLeaves => {
                self.wire.printer_leaves();
                Ok(Note::Done)
            }
            Event::PrinterRestart => {
                self.wire.restart_printer();
                Ok(Note::Done)
            }
            Event::HostDrops => {
                self.host.link_down();
                self.wire.hang_up();
                Ok(Note::Done)
            }
            Event::HostRestart(first_mark) => self.restart_host(first_mark),
            Event::SetCondition(condition) => {
                self.wire.set_condition(condition);
                Ok(Note::Done)
            }
        }
    }

    // The host opens a link.
    fn link_up(&mut self) -> Result<Note, Refused>
        ensures happened { IfOk result (λ note. After Event.LinkUp self.old note self.new) }
        ensures refused { IfErr result (λ refused. IsRefused Event.LinkUp self.old refused self.new) }
    {
        match self.wire.link_up_from(&mut self.host, false) {
            Ok(()) => Ok(Note::Done),
            Err(error) => Err(refused_by(error)),
        }
    }

    // The host opens a link, and asks the printer to tell its condition.
    fn link_up_reporting(&mut self) -> Result<Note, Refused>
        ensures happened { IfOk result (λ note. After Event.LinkUpReporting self.old note self.new) }
        ensures refused { IfErr result (λ refused. IsRefused Event.LinkUpReporting self.old refused self.new) }
    {
        match self.wire.link_up_from(&mut self.host, true) {
            Ok(()) => Ok(Note::Done),
            Err(error) => Err(refused_by(error)),
        }
    }

    // The host puts one more opening mark out.
    fn nudge(&mut self) -> Result<Note, Refused>
        ensures happened { IfOk result (λ note. After Event.Nudge self.old note self.new) }
        ensures refused { IfErr result (λ refused. IsRefused Event.Nudge self.old refused self.new) }
    {
        if let Err(error) = self.host.nudge() {
            return Err(refused_by(error));
        }
        Ok(Note::Done)
    }

    // The host is given a receipt to print.
    fn submit(&mut self, receipt: Receipt) -> Result<Note, Refused>
        ensures happened { IfOk result (λ note. After (Event.Submit receipt) self.old note self.new) }
        ensures refused { IfErr result (λ refused. IsRefused (Event.Submit receipt) self.old refused self.new) }
    {
        match self.host.submit(receipt) {
            Ok(()) => Ok(Note::Done),
            Err((error, receipt)) => Err(Refused {
                why: Refusal::of_host(error),
                receipt: Some(receipt),
            }),
        }
    }

    // The host asks for a status.
    fn ask(&mut self, kind: StatusKind) -> Result<Note, Refused>
        ensures happened { IfOk result (λ note. After (Event.Ask kind) self.old note self.new) }
        ensures refused { IfErr result (λ refused. IsRefused (Event.Ask kind) self.old refused self.new) }
    {
        if let Err(error) = self.host.ask(kind) {
            return Err(refused_by(error));
        }
        Ok(Note::Done)
    }

    // The host asks the printer to tell its condition.
    fn ask_reports(&mut self) -> Result<Note, Refused>
        ensures happened { IfOk result (λ note. After Event.AskReports self.old note self.new) }
        ensures refused { IfErr result (λ refused. IsRefused Event.AskReports self.old refused self.new) }
    {
        if let Err(error) = self.host.ask_reports() {
            return Err(refused_by(error));
        }
        Ok(Note::Done)
    }

    // Up to `most` bytes leave the host.
    fn move_bytes(&mut self, most: usize) -> Result<Note, Refused>
        ensures happened { IfOk result (λ note. After (Event.Move most) self.old note self.new) }
        ensures refused { IfErr result (λ refused. IsRefused (Event.Move most) self.old refused self.new) }
    {
        let count = match self.wire.put_from(&mut self.host, most) {
            Ok(count) => count,
            Err(AllocError) => return Err(refused_by(HostError::Memory)),
        };
        Ok(Note::Moved(count))
    }

    // The host hears up to `most` of the bytes on their way.
    fn answer(&mut self, most: usize) -> Note
        ensures { After (Event.Answer most) self.old result self.new }
    {
        let (consumed, last) = hear_all(&mut self.host, self.wire.front(most));
        if let HostEvent::BadAnswer { .. } = last {
            self.wire.hang_up();
            return Note::Heard { consumed, last };
        }
        self.wire.heard(consumed);
        Note::Heard { consumed, last }
    }

    // The host is restarted, with this number for its next mark.
    fn restart_host(&mut self, first_mark: u32) -> Result<Note, Refused>
        ensures happened { IfOk result (λ note. After (Event.HostRestart first_mark) self.old note self.new) }
        ensures refused { IfErr result (λ refused. IsRefused (Event.HostRestart first_mark) self.old refused self.new) }
    {
        let count = self.host.records().len();
        match self.resume(first_mark, count) {
            Ok(()) => Ok(Note::Done),
            Err(refused) => Err(refused),
        }
    }

    /// The host is restarted with the first `count` of its records, and with this number for its next mark.
    pub fn resume(&mut self, first_mark: u32, count: usize) -> Result<(), Refused>
        ensures resumed { OnOk result ((self.old.host.next ≤ first_mark) × (self.new ≡ resumed self.old first_mark count)) }
        ensures refused { IfErr result (λ refused. RefusesResume self.old first_mark refused self.new) }
    {
        let least = self.host.next_mark();
        if first_mark < least {
            return Err(Refused {
                why: Refusal::MarkReused { least },
                receipt: None,
            });
        }
        let oldest = self.host.oldest_mark();
        let host = replace(&mut self.host, Host::new(self.alloc, first_mark));
        let mut records = host.into_records();
        records.truncate(count);
        self.host = Host::resume(self.alloc, first_mark, oldest, records);
        self.wire.hang_up();
        Ok(())
    }
}

// A refusal of an event that has no receipt, for a host's reason.
fn refused_by(error: HostError) -> Refused
    ensures { result ≡ record { why = of_host error; receipt = None } }
{
    Refused {
        why: Refusal::of_host(error),
        receipt: None,
    }
}

// Lets a host hear all of a piece, event after event, up to one that ends its link. Returns how many bytes it took, and the
// last event.
fn hear_all(host: &mut Host, bytes: &[u8]) -> (usize, HostEvent)
    ensures heard { (events : List HostEvent) × HearsAll host.old bytes.now events result.0 host.new × (result.1 ≡ told_at (last_of events) result.0) }
    ensures within { result.0 ≤ length bytes.now }
{
    if host.state() == HostState::Down {
        return (bytes.len(), HostEvent::None);
    }
    // Proof only: an event that doesn't end the link took bytes of the piece.
    laws::one_event();
    let mut consumed = 0;
    let mut last = HostEvent::None;
    loop {
        let heard = host.heard(&bytes[consumed..]);
        consumed += heard.consumed;
        match heard.event {
            HostEvent::None => return (consumed, last),
            HostEvent::BadAnswer { .. } => return (consumed, HostEvent::BadAnswer { at: consumed }),
            event => last = event,
        }
    }
}
