//! A line in memory to the printer of a wire. What a driver does over it is what a wire does in the world, so it is a line of which all that is
//! proved of the world holds. It is for tests, and for a till that runs in memory.
//!
//! The printer goes on by itself: before answers are waited for it prints what it is sent, and hands over all that it answers. Before a link is
//! opened it does so too, and then leaves the link that was given up. What else may happen at the printer's end is left to `Till`.

ghost use Rattle.std.specs.Prelude.{◌≡◌, List, None};
ghost use Rattle.escpos_link.specs.declared.event.Event.{Event};
ghost use Rattle.escpos_link.specs.Wire.{given_up};
ghost use Rattle.escpos_till_model.specs.Around.{GoesOnBy};
ghost use Rattle.escpos_till_model.specs.Bridge.{OnWire};

use crate::laws::LikeWire;
use escpos_host::SendFault;
use escpos_link::{Handed, Note, Wire};
use escpos_till::PrinterLine;
use std::marker::Model;

/// A line to the printer of a wire. The model is the wire.
#[derive(Drop)]
pub struct WireLine {
    wire: Wire,
    // whether a link was opened and not given up
    linked: bool,
}

impl Model for WireLine {
    ghost use Rattle.std.specs.Prelude.{◌≡◌, IsTrue, None};
    ghost use Rattle.escpos_link.specs.Wire.{WireView};

    ghost Value = { WireView };

    ghost view = { λ l. l.wire };

    // There is a live link only if one was opened and not given up.
    ghost invariant = { λ l. ¬ IsTrue l.linked → l.wire.live ≡ None };
}

impl WireLine {
    /// A line to the printer of this wire, whose live link, if it has one, is given up. Allocates nothing.
    pub fn new(wire: Wire) -> Self
        ensures { result ≡ given_up wire }
    {
        let mut wire = wire;
        wire.hang_up();
        WireLine {
            wire,
            linked: false,
        }
    }

    /// The wire. Allocates nothing.
    pub fn wire(&self) -> &Wire
        ensures { result.now ≡ self.now }
    {
        &self.wire
    }

    /// The wire, whatever is on its links. Allocates nothing.
    pub fn into_wire(self) -> Wire
        ensures { result ≡ self }
    {
        let WireLine { wire, .. } = self;
        wire
    }
}

impl PrinterLine for WireLine {
    // A wire did it, perhaps after something at the printer's end.
    ghost did = { λ old deed new. OnWire old deed new };

    fn connect(&mut self) -> bool {
        if self.linked {
            return false;
        }
        leave(&mut self.wire);
        if self.wire.link_up().is_err() {
            return false;
        }
        self.linked = true;
        true
    }

    fn put(&mut self, bytes: &[u8], _patient: bool) -> Result<(), SendFault> {
        if self.wire.put(bytes).is_err() {
            return Err(SendFault::WriteFault);
        }
        Ok(())
    }

    fn pull(&mut self, room: &mut [u8], _patient: bool) -> Result<usize, SendFault> {
        print(&mut self.wire);
        let answers = self.wire.front(room.len());
        let count = answers.len();
        room[..count].copy_from_slice(answers);
        self.wire.heard(count);
        Ok(count)
    }

    fn takes_at_once(&self) -> bool {
        true
    }

    fn gives_soon(&self) -> bool {
        true
    }

    fn hang_up(&mut self) {
        self.wire.hang_up();
        self.linked = false;
    }
}

/// For proofs alone: a line in memory is like the wire that it has.
pub struct SameWire;

impl LikeWire<WireLine> for SameWire {
    ghost fits = { λ line wire. line ≡ wire };
}

// The printer prints what is on its links, hands over all that it answers, and leaves a link that was given up. Where memory runs out it prints
// or answers less.
fn leave(wire: &mut Wire)
    ensures goes_on { (events : List Event) × GoesOnBy wire.old events wire.new }
    ensures no_link { wire.old.live ≡ None → wire.new.live ≡ None }
{
    print(wire);
    wire.printer_leaves();
}

// The printer prints what is on the first link, and hands over all that it answers. Where memory runs out it prints or answers less.
fn print(wire: &mut Wire)
    ensures { (events : List Event) × GoesOnBy wire.old events wire.new }
{
    for _ in 0..u64::MAX {
        feed(wire);
        if !hand_over(wire) {
            return;
        }
    }
}

// The printer prints what is on the first link, until it has no room for answers.
fn feed(wire: &mut Wire)
    ensures { (events : List Event) × GoesOnBy wire.old events wire.new }
{
    let _ = wire.deliver(usize::MAX);
}

// The printer hands an answer over, if it has one. Whether it did.
fn hand_over(wire: &mut Wire) -> bool
    ensures { (events : List Event) × GoesOnBy wire.old events wire.new }
{
    match wire.hand_over() {
        Ok(Note::Handed(handed)) => handed != Handed::None,
        _ => false,
    }
}
