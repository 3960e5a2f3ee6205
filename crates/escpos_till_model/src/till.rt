//! A till to which every list of happenings may come, and for which what is promised holds at all times.

ghost use Rattle.std.specs.Prelude.{ℕ, ◌≡◌, ◌<◌, ◌≤◌, [], length, None, option_map, IfOk, IfErr, OnOk};
ghost use Rattle.escpos_paper.specs.Page.{SheetIs};
ghost use Rattle.escpos_till.specs.declared.note.TillNote.TheVariants as note;
ghost use Rattle.escpos_till.specs.Entries.{cancelled, last_number, recorded, times_tried};
ghost use Rattle.escpos_till_model.specs.Instead.{Instead, Ran};
ghost use Rattle.escpos_till_model.specs.Known.{IsWorld};
ghost use Rattle.escpos_till_model.specs.Receipts.{Among, EachIsKept, Extends, RecordedStand};
ghost use Rattle.escpos_till_model.specs.World.{Begins, HasCome, Happens};

use crate::event::{Happening, NotPossible};
use crate::laws::{every_world, what_is_recorded_stands};
use crate::parts::TillParts;
use escpos_command::LineWidth;
use escpos_link::Wire;
use escpos_paper::Item;
use escpos_printer::Condition;
use escpos_till::{Entry, TillMachine, TillNote};
use std::alloc::{AllocError, Global};
use std::collections::VecDeque;
use std::marker::Model;

/// A till with its store, its printer and the wire between them. Whatever happens, what its ledger has as recorded stands on the paper,
/// whole and in the order of recording, and each receipt that was taken waits, is recorded or is cancelled.
#[derive(Drop)]
pub struct Till {
    parts: TillParts,
    alloc: Global,
}

impl Model for Till {
    ghost use Rattle.escpos_till_model.specs.World.{HasCome, World};

    ghost Value = { World };

    ghost view = { λ t. t.parts };

    ghost invariant = { λ t. HasCome t.parts };
}

impl Till {
    /// A till that is switched off and has taken no receipt, with a wire without links to a printer with nothing on its paper, switched
    /// on in this condition, that prints lines of this width. The error is a failed allocation.
    pub fn new(alloc: Global, condition: Condition, width: LineWidth) -> Result<Self, AllocError>
        ensures begins { IfOk result Begins }
        ensures kept { IfOk result (λ till. till.kept ≡ []) }
        ensures told { IfOk result (λ till. till.told ≡ []) }
        ensures sheet { IfOk result (λ till. SheetIs width till.wire.printer.sheet [] []) }
        ensures condition { IfOk result (λ till. till.wire.printer.condition ≡ condition) }
    {
        let wire = Wire::new(alloc, condition, width)?;
        // Proof only: it is a line's.
        escpos_link::laws::new_line();
        Ok(Till {
            parts: TillParts {
                machine: None,
                kept: Vec::new(alloc),
                wire,
                told: Vec::new(alloc),
            },
            alloc,
        })
    }

    /// Lets something happen. `Err` says why it doesn't; `specs/Instead.antt` says what that leaves.
    pub fn happen(&mut self, event: Happening) -> Result<(), NotPossible>
        ensures happened { OnOk result (Happens self.old event self.new) }
        ensures refused { IfErr result (λ why. Instead why event self.old self.new) }
    {
        // Proof only: what holds of every world holds of this one.
        every_world();
        self.parts.happen(self.alloc, event)
    }

    /// Lets them happen, in order; where one doesn't, the next one follows.
    pub fn run(&mut self, events: Vec<Happening>)
        ensures ran { Ran self.old events.items self.new }
        // What the store had it has; what is recorded stands on the paper; each receipt that was taken waits, is recorded or is cancelled.
        ensures extends { Extends self.old.kept self.new.kept }
        ensures stands { RecordedStand self.new.wire.printer.sheet.line_dots self.new.kept self.new.wire.printer.sheet.items }
        ensures kept { EachIsKept self.new.kept }
    {
        let mut left = VecDeque::from_vec(events);
        while let Some(event) = left.pop_front() {
            let _ = self.happen(event);
        }
        // Proof only: what is promised holds.
        self.is_sound();
        what_is_recorded_stands();
    }

    /// The machine; `None` while the till is switched off. Allocates nothing.
    pub fn machine(&self) -> Option<&TillMachine>
        ensures { option_map (λ machine. machine.now) result ≡ self.now.machine }
    {
        self.parts.machine.as_ref()
    }

    /// What its store has. Allocates nothing.
    pub fn entries(&self) -> &[Entry]
        ensures { result.now ≡ self.now.kept }
    {
        &self.parts.kept
    }

    /// What its owner was told, the oldest first. Allocates nothing.
    pub fn told(&self) -> &[TillNote]
        ensures told { result.now ≡ self.now.told }
        // A receipt that he was told is taken is; so is one that he was told is recorded, or cancelled. What is cancelled was tried so
        // often, and no entry tries it later.
        ensures queued { (number : ℕ) → Among (note.Queued number) self.now.told → (0 < number) × (number ≤ last_number self.now.kept) }
        ensures recorded { (number : ℕ) → Among (note.Recorded number) self.now.told → Among number (recorded self.now.kept) }
        ensures cancelled { (number tried : ℕ) → Among (note.Cancelled number tried) self.now.told → Among number (cancelled self.now.kept) × (times_tried self.now.kept number ≡ tried) }
    {
        // Proof only: what is promised holds.
        self.is_sound();
        &self.parts.told
    }

    /// The wire. Allocates nothing.
    pub fn wire(&self) -> &Wire
        ensures { result.now ≡ self.now.wire }
    {
        &self.parts.wire
    }

    /// What is printed on the paper, from top to bottom. Allocates nothing.
    pub fn paper(&self) -> &[Item]
        ensures items { result.now ≡ self.now.wire.printer.sheet.items }
        ensures stands { RecordedStand self.now.wire.printer.sheet.line_dots self.now.kept result.now }
    {
        // Proof only: what is promised holds.
        self.is_sound();
        self.parts.wire.paper()
    }

    /// Proof only: gives the caller these facts: what is recorded stands on the paper, each receipt that was taken waits, is recorded or is
    /// cancelled, and what its owner was told is so. What he was told is cancelled was tried so often, and no entry tries it later.
    pub fn is_sound(&self)
        ensures come { HasCome self.now }
        ensures stands { RecordedStand self.now.wire.printer.sheet.line_dots self.now.kept self.now.wire.printer.sheet.items }
        ensures kept { EachIsKept self.now.kept }
        ensures queued { (number : ℕ) → Among (note.Queued number) self.now.told → (0 < number) × (number ≤ last_number self.now.kept) }
        ensures recorded { (number : ℕ) → Among (note.Recorded number) self.now.told → Among number (recorded self.now.kept) }
        ensures cancelled { (number tried : ℕ) → Among (note.Cancelled number tried) self.now.told → Among number (cancelled self.now.kept) × (times_tried self.now.kept number ≡ tried) }
    {
        // Proof only: what is promised holds of every run.
        what_is_recorded_stands();
        let _ = &self.parts;
    }
}
