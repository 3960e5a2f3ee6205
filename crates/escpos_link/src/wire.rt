//! The wire: a printer, and all that lies between it and a host, which the caller has.
//!
//! Everything that changes the links or the printer is in this module. When the host opens a link, puts bytes, hears answers or
//! gives its link up, the caller calls `link_up`, `put`, `front` and `heard`, or `hang_up`; each event at the printer's end has a
//! function of its own. `laws` says that host and wire are then a line that goes from event to event.

ghost use Rattle.std.specs.Prelude.{ℕ, ◌≡◌, ◌≢◌, ◌<◌, ◌≤◌, min, List, [], length, take, drop, None, Some, IfOk, IfErr, IfSome, IsTrue, OnOk, OnErr, ◌↔◌};
ghost use Rattle.escpos_host.specs.Machine.{HasMark, HostView, Down, RefusesLinkUp, linked_by, taken_out};
ghost use Rattle.escpos_paper.specs.Page.{SheetIs};
ghost use Rattle.escpos_printer.specs.Feeds.{Feeds, PrinterView};
ghost use Rattle.escpos_link.specs.declared.event.Event.TheVariants as event;
ghost use Rattle.escpos_link.specs.EventTable.{first_of};
ghost use Rattle.escpos_link.specs.MoveSteps.{HasMoved};
ghost use Rattle.escpos_link.specs.Straight.{all_bytes};
ghost use Rattle.escpos_link.specs.Wire.{AfterOnWire, IsRefusedOnWire, fed_to, given_up, heard_from, with_bytes, with_link, without_first_link};

use crate::event::{Handed, Note, Refusal, Refused};
use crate::undelivered::Undelivered;
use escpos_command::LineWidth;
use escpos_host::{Host, HostError, HostState};
use escpos_paper::Item;
use escpos_printer::{Condition, Fed, FeedStop, Printer};
use std::alloc::{AllocError, Global};
use std::collections::VecDeque;
use std::marker::Model;

/// A printer, and what lies between it and a host: the links that the host has given up and the printer has not left, the
/// live link, and the answers on their way to the host.
#[derive(Drop)]
pub struct Wire {
    printer: Printer,
    // the links that the host has given up and the printer has not left, the oldest first
    ended: VecDeque<Undelivered>,
    // the link that the host is on; there is room for it among those that have ended
    live: Option<Undelivered>,
    // bytes of answers on their way to the host
    coming: Undelivered,
}

impl Model for Wire {
    ghost use Rattle.std.specs.Prelude.{◌≡◌, ◌<◌, ◌⊎◌, None};
    ghost use Rattle.std.specs.VecDeque.{deque_len, deque_capacity};
    ghost use Rattle.escpos_link.specs.Wire.{WireView};

    ghost Value = { WireView };

    ghost view = { λ w. record { printer = w.printer; ended = w.ended.items; live = w.live; coming = w.coming } };

    // While there is a live link, there is room for it among those that have ended, so that giving it up allocates nothing.
    ghost invariant = { λ w. (w.live ≡ None) ⊎ (deque_len w.ended < deque_capacity w.ended) };
}

impl Wire {
    /// A wire without links, to a printer with nothing on its paper, switched on in this condition, that prints lines of this
    /// width. The error is a failed allocation.
    pub fn new(alloc: Global, condition: Condition, width: LineWidth) -> Result<Self, AllocError>
        ensures sheet { IfOk result (λ wire. SheetIs width wire.printer.sheet [] []) }
        ensures half { IfOk result (λ wire. wire.printer.half ≡ []) }
        ensures waiting { IfOk result (λ wire. wire.printer.waiting ≡ []) }
        ensures condition { IfOk result (λ wire. wire.printer.condition ≡ condition) }
        ensures ended { IfOk result (λ wire. wire.ended ≡ []) }
        ensures live { IfOk result (λ wire. wire.live ≡ None) }
        ensures coming { IfOk result (λ wire. wire.coming ≡ []) }
    {
        let printer = Printer::new(alloc, condition, width)?;
        Ok(Wire {
            printer,
            ended: VecDeque::new(alloc),
            live: None,
            coming: Undelivered::new(alloc),
        })
    }

    /// The printer. Allocates nothing.
    pub fn printer(&self) -> &Printer
        ensures { result.now ≡ self.now.printer }
    {
        &self.printer
    }

    /// What is printed on the paper, from top to bottom. Allocates nothing.
    pub fn paper(&self) -> &[Item]
        ensures { result.now ≡ self.now.printer.sheet.items }
    {
        self.printer.items()
    }

    /// A host opens a link, of which there must be none: a new one with nothing on it is the live one, after all links that
    /// there are.
    ///
    /// `Err` is a failed allocation, and leaves the wire as it was.
    pub fn link_up(&mut self) -> Result<(), AllocError>
        requires { self.old.live ≡ None }
        ensures up { OnOk result (self.new ≡ with_link self.old) }
        ensures refused { OnErr result (self.new ≡ self.old) }
    {
        self.ended.reserve(1)?;
        self.live = Some(Undelivered::new(*self.ended.allocator()));
        Ok(())
    }

    // This host opens a link, if it may, with a request for automatic status or without: then room for the link comes first.
    pub(crate) fn link_up_from(&mut self, host: &mut Host, reporting: bool) -> Result<(), HostError>
        ensures up { OnOk result ((host.old.phase ≡ Down) × HasMark host.old × (host.new ≡ linked_by reporting host.old) × (self.new ≡ with_link self.old)) }
        ensures refused { IfErr result (λ why. RefusesLinkUp why host.old × (host.new ≡ host.old) × (self.new ≡ self.old)) }
    {
        let may = host.state() == HostState::Down && host.marks_left() > 0;
        if may && self.ended.reserve(1).is_err() {
            return Err(HostError::Memory);
        }
        if reporting {
            host.link_up_reporting()?;
        } else {
            host.link_up()?;
        }
        self.live = Some(Undelivered::new(*self.ended.allocator()));
        Ok(())
    }

    /// A host puts bytes on its link: they go to the end of the live one, or are lost where there is none.
    ///
    /// `Err` is a failed allocation, which is possible only where there is a live link, and leaves the wire as it was.
    pub fn put(&mut self, bytes: &[u8]) -> Result<(), AllocError>
        ensures put { OnOk result (self.new ≡ with_bytes self.old bytes.now) }
        ensures refused { OnErr result ((self.old.live ≢ None) × (self.new ≡ self.old)) }
    {
        match &mut self.live {
            Some(link) => link.put(bytes),
            None => Ok(()),
        }
    }

    // Up to `most` bytes leave this host, for the live link, or are lost where there is none. Returns how many.
    pub(crate) fn put_from(&mut self, host: &mut Host, most: usize) -> Result<usize, AllocError>
        ensures count { IfOk result (λ count. count ≡ min most (length host.old.out)) }
        ensures moved { IfOk result (λ count. (host.new ≡ taken_out host.old count) × (self.new ≡ with_bytes self.old (take count host.old.out))) }
        ensures refused { OnErr result ((fewer : ℕ) × (fewer < most) × (fewer < length host.old.out) × (self.old.live ≢ None)
            × (host.new ≡ taken_out host.old fewer) × (self.new ≡ with_bytes self.old (take fewer host.old.out))) }
    {
        put_all_out(host, &mut self.live, most)
    }

    /// The first bytes on their way to the host, at most `most` of them. Allocates nothing.
    pub fn front(&self, most: usize) -> &[u8]
        ensures { result.now ≡ take most self.now.coming }
    {
        self.coming.front(most)
    }

    /// The host has heard this many of the bytes on their way to it. Allocates nothing.
    pub fn heard(&mut self, count: usize)
        requires { count ≤ length self.old.coming }
        ensures { self.new ≡ heard_from self.old count }
    {
        self.coming.deliver(count);
    }

    /// The host gives its link up, if it is on one: what is on that may still reach the printer, and answers on their way are
    /// lost. Allocates nothing.
    pub fn hang_up(&mut self)
        ensures { self.new ≡ given_up self.old }
    {
        self.coming.clear();
        if let Some(link) = self.live.take() {
            self.ended.push_back_reserved(link);
        }
    }

    /// The printer is fed up to `most` bytes of the first link, and leaves that link at a fault: the event `Deliver`.
    ///
    /// `Err` is `Memory`; the wire is then as after the same event with fewer bytes.
    pub fn deliver(&mut self, most: usize) -> Result<Note, Refused>
        ensures happened { IfOk result (λ note. AfterOnWire (event.Deliver most) self.old note self.new) }
        ensures refused { IfErr result (λ refused. IsRefusedOnWire (event.Deliver most) self.old refused self.new) }
    {
        let fed = self.feed_first(most);
        match fed.stop {
            FeedStop::Memory => return Err(out_of_memory()),
            FeedStop::Fault { .. } => self.printer_leaves(),
            _ => {}
        }
        Ok(Note::Fed(fed))
    }

    // Feeds the printer up to `most` bytes of the first link.
    fn feed_first(&mut self, most: usize) -> Fed
        ensures { (printer : PrinterView) × Feeds self.old.printer (take most (first_of self.old.ended self.old.live)) result.consumed result.stop printer
            × (self.new ≡ fed_to self.old result.consumed printer) }
    {
        if let Some(link) = self.ended.front_mut() {
            return feed(&mut self.printer, link, most);
        }
        if let Some(link) = &mut self.live {
            return feed(&mut self.printer, link, most);
        }
        self.printer.feed(&[])
    }

    /// The printer gives up its oldest answer: the event `HandOver`.
    ///
    /// `Err` is `Memory`, and leaves the wire as it was.
    pub fn hand_over(&mut self) -> Result<Note, Refused>
        ensures happened { IfOk result (λ note. AfterOnWire event.HandOver self.old note self.new) }
        ensures refused { IfErr result (λ refused. IsRefusedOnWire event.HandOver self.old refused self.new) }
    {
        if self.printer.waiting() == 0 {
            return Ok(Note::Handed(Handed::None));
        }
        if !self.ended.is_empty() {
            let _ = self.printer.take_answer();
            return Ok(Note::Handed(Handed::Lost));
        }
        if self.live.is_none() {
            return Ok(Note::Handed(Handed::None));
        }
        match self.coming.take_from_printer(&mut self.printer) {
            Ok(()) => Ok(Note::Handed(Handed::On)),
            Err(AllocError) => Err(out_of_memory()),
        }
    }

    /// The printer leaves the first link, and what is on it is lost: the event `PrinterLeaves`. Allocates nothing.
    pub fn printer_leaves(&mut self)
        ensures left { self.new ≡ without_first_link self.old }
        ensures happened { AfterOnWire event.PrinterLeaves self.old Note.Done self.new }
    {
        if self.ended.pop_front().is_none() {
            self.live = None;
        }
    }

    /// The printer is switched off and on, and so leaves the first link: the event `PrinterRestart`. Allocates nothing.
    pub fn restart_printer(&mut self)
        ensures { AfterOnWire event.PrinterRestart self.old Note.Done self.new }
    {
        self.printer.restart();
        self.printer_leaves();
    }

    /// The printer's sensors change: the event `SetCondition`. Allocates nothing.
    pub fn set_condition(&mut self, condition: Condition)
        ensures { AfterOnWire (event.SetCondition condition) self.old Note.Done self.new }
    {
        self.printer.set_condition(condition);
    }

    // Whether there is no link.
    pub(crate) fn has_no_link(&self) -> bool
        ensures { IsTrue result ↔ ((self.now.ended ≡ []) × (self.now.live ≡ None)) }
    {
        self.ended.is_empty() && self.live.is_none()
    }

    // Whether the live link is the only one, and nothing is on it.
    pub(crate) fn has_one_empty_link(&self) -> bool
        ensures { IsTrue result ↔ ((self.now.ended ≡ []) × (self.now.live ≡ Some [])) }
    {
        if !self.ended.is_empty() {
            return false;
        }
        match &self.live {
            Some(link) => link.is_empty(),
            None => false,
        }
    }

    // Whether no answer is on its way.
    pub(crate) fn is_quiet(&self) -> bool
        ensures { IsTrue result ↔ (self.now.coming ≡ []) }
    {
        self.coming.is_empty()
    }

    // Proof only: gives the caller this fact: the number of bytes on the live link is below `usize::MAX`.
    pub(crate) fn is_short(&self)
        ensures { IfSome self.now.live (λ bytes. length bytes < all_bytes) }
    {
        if let Some(link) = &self.live {
            // Proof only: the same fact of the link.
            link.is_short();
        }
    }
}

// The refusal of an event that has no receipt, because an allocation failed.
fn out_of_memory() -> Refused
    ensures { result ≡ record { why = Refusal.Memory; receipt = None } }
{
    Refused {
        why: Refusal::Memory,
        receipt: None,
    }
}

// Up to `most` bytes leave the host, for the live link, or are lost where there is none. Returns how many.
fn put_all_out(
    host: &mut Host,
    live: &mut Option<Undelivered>,
    most: usize,
) -> Result<usize, AllocError>
    ensures count { IfOk result (λ count. count ≡ min most (length host.old.out)) }
    ensures moved { IfOk result (λ count. HasMoved host.old live.old count host.new live.new) }
    ensures refused { OnErr result ((fewer : ℕ) × (fewer < most) × (fewer < length host.old.out) × (live.old ≢ None) × HasMoved host.old live.old fewer host.new live.new) }
{
    let mut moved = 0;
    while moved < most && host.has_out() {
        moved += put_out(host, live, most - moved)?;
    }
    Ok(moved)
}

// Some of the bytes that are to be taken out leave the host, for the live link, or are lost where there is none. Returns
// how many.
fn put_out(
    host: &mut Host,
    live: &mut Option<Undelivered>,
    most: usize,
) -> Result<usize, AllocError>
    ensures count { IfOk result (λ count. (count ≤ most) × (count ≤ length host.old.out)) }
    ensures some { IfOk result (λ count. 0 < most → 0 < length host.old.out → 0 < count) }
    ensures moved { IfOk result (λ count. HasMoved host.old live.old count host.new live.new) }
    ensures refused { OnErr result ((host.new ≡ host.old) × (live.new ≡ live.old) × (live.old ≢ None)) }
{
    match live {
        Some(link) => link.take_from_host(host, most),
        None => {
            let mut piece = [0; 512];
            Ok(host.take_out(&mut piece[..most.min(512)]))
        }
    }
}

// Feeds the printer up to `most` bytes of a link.
fn feed(printer: &mut Printer, link: &mut Undelivered, most: usize) -> Fed
    ensures fed { Feeds printer.old (take most link.old) result.consumed result.stop printer.new }
    ensures left { link.new ≡ drop result.consumed link.old }
{
    let fed = printer.feed(link.front(most));
    link.deliver(fed.consumed);
    fed
}
