//! A simulated line, to which every list of events may happen.

ghost use Rattle.std.specs.Prelude.{ℕ, ◌≡◌, ◌≢◌, ◌≤◌, ◌↔◌, List, [], ◌∷◌, length, None, IfOk, IfErr, OnOk, OnErr, IsTrue};
ghost use Rattle.escpos_command.specs.declared.command.Command.{Command};
ghost use Rattle.escpos_paper.specs.declared.item.Item.{Item};
ghost use Rattle.escpos_host.specs.Machine.{Down};
ghost use Rattle.escpos_paper.specs.Page.{SheetIs};
ghost use Rattle.escpos_link.specs.declared.event.Event.TheVariants as event;
ghost use Rattle.escpos_link.specs.declared.event.Note.{Note};
ghost use Rattle.escpos_link.specs.EventTable.{After, IsRefused};
ghost use Rattle.escpos_link.specs.Line.{IsLine, LineView};
ghost use Rattle.escpos_link.specs.Resumed.{RefusesResume, resumed};
ghost use Rattle.escpos_link.specs.Stands.{Stands};
ghost use Rattle.escpos_link.specs.Steps.{Happened, Happens, IsInTurn, IsStopped, StopsIn};
ghost use Rattle.escpos_link.specs.Straight.{StoppedStraight, Undisturbed, WentStraight, all_bytes, exchange, opening};
ghost use Rattle.escpos_link.specs.Trusted.{IsTrusted};
ghost use Rattle.escpos_link.specs.Wire.{line_of, wire_of};

use crate::event::{Event, Note, Refused};
use crate::laws;
use crate::line::Line;
use crate::wire::Wire;
use escpos_command::LineWidth;
use escpos_host::{Host, HostState, Receipt};
use escpos_paper::Item;
use escpos_printer::{Condition, Printer};
use std::alloc::{AllocError, Global};
use std::collections::VecDeque;
use std::marker::Model;

/// A line between a host and a printer. Whatever happens to it, the receipts that the host has recorded stand on the
/// printer's paper, whole and in the order of recording, each exactly what its commands print on a printer just
/// initialised, in lines of the width that the printer was made with.
#[derive(Drop)]
pub struct Sim {
    line: Line,
}

impl Model for Sim {
    ghost use Rattle.escpos_link.specs.Line.{LineView, IsLine};
    ghost use Rattle.escpos_link.specs.Trusted.{IsTrusted};

    ghost Value = { LineView };

    ghost view = { λ s. s.line };

    ghost invariant = { λ s. IsLine s.line × IsTrusted s.line };
}

/// A receipt that couldn't be sent, because an allocation failed.
#[derive(Debug, Drop)]
pub struct StraightStop {
    /// The receipt, if it wasn't submitted.
    pub receipt: Option<Receipt>,
}

/// A list of events that was stopped by a refusal.
#[derive(Debug, Drop)]
pub struct RunStop {
    /// How many events happened before it.
    pub done: usize,
    /// The refusal of the next one.
    pub refused: Refused,
}

impl Sim {
    /// A line without links, between a host without records, whose first mark will have this number, and a printer with
    /// nothing on its paper, switched on in this condition, that prints lines of this width. No event changes the width. The
    /// error is a failed allocation.
    pub fn new(
        alloc: Global,
        condition: Condition,
        first_mark: u32,
        width: LineWidth,
    ) -> Result<Self, AllocError>
        ensures host { IfOk result (λ sim. sim.host ≡ record { phase = Down; out = []; half = []; next = first_mark; heard = first_mark; records = []; left = [] }) }
        ensures sheet { IfOk result (λ sim. SheetIs width sim.printer.sheet [] []) }
        ensures half { IfOk result (λ sim. sim.printer.half ≡ []) }
        ensures waiting { IfOk result (λ sim. sim.printer.waiting ≡ []) }
        ensures condition { IfOk result (λ sim. sim.printer.condition ≡ condition) }
        ensures ended { IfOk result (λ sim. sim.ended ≡ []) }
        ensures live { IfOk result (λ sim. sim.live ≡ None) }
        ensures coming { IfOk result (λ sim. sim.coming ≡ []) }
        ensures stands { IfOk result (λ sim. Stands width sim.host.records sim.printer.sheet.items) }
    {
        let line = Line::new(alloc, condition, first_mark, width)?;
        Ok(Sim { line })
    }

    /// Lets an event happen, and returns its effect.
    ///
    /// `Err` says why it is refused, and returns the event's receipt. It leaves the line as it was, except that after
    /// `Memory` in `Move` or `Deliver` it is as after the same event with fewer bytes.
    pub fn step(&mut self, event: Event) -> Result<Note, Refused>
        ensures happened { IfOk result (λ told. Happens event self.old told self.new) }
        ensures refused { IfErr result (λ refused. IsRefused event self.old refused self.new) }
        // The recorded receipts stand on the paper, whatever happened.
        ensures stands { Stands self.new.printer.sheet.line_dots self.new.host.records self.new.printer.sheet.items }
        ensures width { self.new.printer.sheet.line_dots ≡ self.old.printer.sheet.line_dots }
    {
        // Proof only: what holds for a line holds after any event and any refusal.
        laws::every_line();
        laws::trust();
        event.fits();
        self.line.is_sound();
        self.line.happen(event)
    }

    /// Switches the host off and on, as `HostRestart` does, but with the first `count` of its records alone: whoever keeps
    /// them may have lost the last ones. Allocates nothing.
    ///
    /// It is refused if `first_mark` is below the host's next number (`MarkReused`). The line is then as it was.
    pub fn resume(&mut self, first_mark: u32, count: usize) -> Result<(), Refused>
        ensures resumed { OnOk result ((self.old.host.next ≤ first_mark) × (self.new ≡ resumed self.old first_mark count)) }
        ensures refused { IfErr result (λ refused. RefusesResume self.old first_mark refused self.new) }
        ensures stands { Stands self.new.printer.sheet.line_dots self.new.host.records self.new.printer.sheet.items }
        ensures width { self.new.printer.sheet.line_dots ≡ self.old.printer.sheet.line_dots }
    {
        // Proof only: what holds for a line holds if its host goes on with fewer records.
        laws::every_line();
        laws::trust();
        self.line.resume(first_mark, count)
    }

    /// Lets events happen, in order, up to the first that is refused.
    ///
    /// `Err` says how many happened, and why the next one was refused. The line is then as after these events and that
    /// refusal.
    pub fn run(&mut self, events: Vec<Event>) -> Result<(), RunStop>
        ensures happened { OnOk result (Happened self.old events.items self.new) }
        ensures refused { IfErr result (λ stop. IsStopped self.old events.items stop self.new) }
        ensures stands { Stands self.new.printer.sheet.line_dots self.new.host.records self.new.printer.sheet.items }
        ensures width { self.new.printer.sheet.line_dots ≡ self.old.printer.sheet.line_dots }
    {
        let count = events.len();
        let mut left = VecDeque::from_vec(events);
        while let Some(event) = left.pop_front() {
            if let Err(refused) = self.step(event) {
                let done = count - left.len() - 1;
                return Err(RunStop { done, refused });
            }
        }
        // Proof only: what is recorded stands on the paper.
        let _ = self.paper();
        Ok(())
    }

    /// Whether nothing is under way: the host is down and there is no link, or it is ready on one live link that is empty
    /// and has nothing to take out; the printer is online, with no half command and no answer that waits; no answer is on
    /// its way; and two mark numbers are left if the host is down, one if it is ready. Allocates nothing.
    pub fn undisturbed(&self) -> bool
        ensures { IsTrue result ↔ Undisturbed self.now }
    {
        self.line.is_undisturbed()
    }

    /// Sends a receipt over a line on which nothing is under way: opens a link if there is none, submits the receipt, and
    /// lets all bytes and the answer to its closing mark arrive. Returns the number of its record.
    ///
    /// `Err` comes only where an allocation failed. The line is then as after the events before the one that failed, and
    /// that refusal.
    pub fn straight(&mut self, receipt: Receipt) -> Result<usize, StraightStop>
        requires { Undisturbed self.old }
        ensures recorded { IfOk result (λ number. WentStraight self.old receipt number self.new) }
        ensures stopped { IfErr result (λ stop. StoppedStraight self.old receipt stop.receipt self.new) }
        ensures stands { Stands self.new.printer.sheet.line_dots self.new.host.records self.new.printer.sheet.items }
        ensures width { self.new.printer.sheet.line_dots ≡ self.old.printer.sheet.line_dots }
    {
        // Proof only: the laws below, what holds of every line and every receipt, and that what is recorded stands on the paper.
        laws::of_straight();
        self.line.is_sound();
        let _ = self.paper();
        let _ = receipt.commands();
        let number = self.records().len();
        if self.open().is_err() {
            // Proof only: what is recorded stands on the paper.
            let _ = self.paper();
            return Err(StraightStop {
                receipt: Some(receipt),
            });
        }
        if let Err(refused) = self.step(Event::Submit(receipt)) {
            return Err(StraightStop {
                receipt: refused.receipt,
            });
        }
        match self.exchange() {
            // Proof only, in both cases: what is recorded stands on the paper.
            Ok(()) => {
                let _ = self.paper();
                Ok(number)
            }
            Err(_) => {
                let _ = self.paper();
                Err(StraightStop { receipt: None })
            }
        }
    }

    // Opens a link if there is none, and lets the answer to its opening mark arrive. The error is a failed allocation.
    fn open(&mut self) -> Result<(), AllocError>
        requires { Undisturbed self.old }
        ensures happened { OnOk result (Happened self.old (opening self.old.host.phase) self.new) }
        ensures stopped { OnErr result (StopsIn (opening self.old.host.phase) self.old self.new) }
        ensures width { self.new.printer.sheet.line_dots ≡ self.old.printer.sheet.line_dots }
    {
        let HostState::Down = self.host().state() else {
            return Ok(());
        };
        if self.step(Event::LinkUp).is_err() {
            return Err(AllocError);
        }
        self.exchange()
    }

    // Lets all bytes that the host has put out arrive, and an answer to them. The error is a failed allocation.
    fn exchange(&mut self) -> Result<(), AllocError>
        ensures happened { OnOk result (Happened self.old exchange self.new) }
        ensures short { OnOk result (self.old.live ≢ None → length self.old.host.out ≤ all_bytes) }
        ensures stopped { OnErr result (StopsIn exchange self.old self.new) }
        ensures width { self.new.printer.sheet.line_dots ≡ self.old.printer.sheet.line_dots }
    {
        if self.step(Event::Move(usize::MAX)).is_err() {
            return Err(AllocError);
        }
        // Proof only: the number of bytes on the live link is below `usize::MAX`.
        self.line.is_short();
        if self.step(Event::Deliver(usize::MAX)).is_err() {
            return Err(AllocError);
        }
        if self.step(Event::HandOver).is_err() {
            return Err(AllocError);
        }
        if self.step(Event::Answer(usize::MAX)).is_err() {
            return Err(AllocError);
        }
        Ok(())
    }

    /// What is printed on the paper, from top to bottom. Allocates nothing.
    pub fn paper(&self) -> &[Item]
        ensures items { result.now ≡ self.now.printer.sheet.items }
        // Every paper is one that commands leave, on paper that held some items.
        ensures reached { (kept : List Item) × (cs : List Command) × SheetIs self.now.printer.sheet.line_dots self.now.printer.sheet kept cs }
        // The receipts that the host has recorded stand on every paper.
        ensures stands { Stands self.now.printer.sheet.line_dots self.now.host.records result.now }
    {
        // Proof only: on a line that can be trusted the recorded receipts stand on the paper.
        laws::trust();
        self.line.wire.paper()
    }

    /// The receipts that the host has recorded as printed, in order. Allocates nothing.
    pub fn records(&self) -> &[Receipt]
        ensures { result.now ≡ self.now.host.records }
    {
        self.line.host.records()
    }

    /// The host. Allocates nothing.
    pub fn host(&self) -> &Host
        ensures value { result.now ≡ self.now.host }
        // Whatever it hears next, no byte fits no answer.
        ensures in_turn { (k : ℕ) (told : Note) (after : LineView) → After (event.Answer k) self.now told after → IsInTurn told }
    {
        // Proof only: the host hears no answer that ends its link.
        laws::trust();
        &self.line.host
    }

    /// The printer. Allocates nothing.
    pub fn printer(&self) -> &Printer
        ensures { result.now ≡ self.now.printer }
    {
        self.line.wire.printer()
    }

    /// Ends the line, and returns its wire, for a caller with a host of its own: the printer, the links, and the answers on
    /// their way to a host. Allocates nothing.
    pub fn into_wire(self) -> Wire
        ensures wire { result ≡ wire_of self }
        // With the host that the line had, it is a line whose records can be trusted.
        ensures line { IsLine (line_of self.host result) }
        ensures trusted { IsTrusted (line_of self.host result) }
    {
        let Line { wire, .. } = self.line;
        wire
    }
}
