//! What a till is made of, and what each happening does to it.
//!
//! What holds of a till at all times is left to `till`.

ghost use Rattle.std.specs.Prelude.{ℕ, ◌≡◌, ◌≢◌, ◌↔◌, Some, None, min, length, take, IfOk, IfErr, OnOk, OnErr, IsTrue, MatchOption, option_map};
ghost use Rattle.escpos_host.specs.Machine.{IsSound};
ghost use Rattle.escpos_link.specs.declared.event.Event.TheVariants as line;
ghost use Rattle.escpos_link.specs.Wire.{given_up, with_link};
ghost use Rattle.escpos_till.specs.declared.stage.Stage.TheVariants as stage;
ghost use Rattle.escpos_till.specs.declared.stage.Talk.{Talk};
ghost use Rattle.escpos_till.specs.declared.stage.Then.{Then};
ghost use Rattle.escpos_till.specs.declared.note.TillNote.{TillNote};
ghost use Rattle.escpos_till.specs.Machine.{Delivers, Ended, Kept, MachineView, Unsure, put};
ghost use Rattle.escpos_till_model.specs.declared.event.Happening.TheVariants as event;
ghost use Rattle.escpos_till_model.specs.Instead.{HasNews, Instead, IsUnwanted, KeepsEntry};
ghost use Rattle.escpos_till_model.specs.Known.{IsWorld};
ghost use Rattle.escpos_till.specs.Machine.{IsLinked as Linked};
ghost use Rattle.escpos_till_model.specs.World.{Calls, FitsLine, GoesOnWire, Happens};

use crate::event::{Happening, NotPossible};
use escpos_host::SendFault;
use escpos_link::{Event, Wire};
use escpos_printer::Condition;
use escpos_till::{
    Action, CopyText, Entry, NoMachine, ReceiptContent, ReceiptKey, ReceiptNumber, StoreFault,
    Text, TillMachine, TillNote,
};
use std::alloc::{AllocError, Global};
use std::marker::Model;

// A till: its machine, unless it is switched off; what its store has; the wire; and what its owner was told.
#[derive(Drop)]
pub struct TillParts {
    pub machine: Option<TillMachine>,
    pub kept: Vec<Entry>,
    pub wire: Wire,
    pub told: Vec<TillNote>,
}

impl Model for TillParts {
    ghost use Rattle.escpos_till_model.specs.World.{World};

    ghost Value = { World };

    ghost view = { λ t. record { machine = t.machine; kept = t.kept.items; wire = t.wire; told = t.told.items } };
}

impl TillParts {
    // Lets something happen.
    pub fn happen(&mut self, alloc: Global, event: Happening) -> Result<(), NotPossible>
        requires { IsWorld self.old }
        ensures happened { OnOk result (Happens self.old event self.new) }
        ensures refused { IfErr result (λ why. Instead why event self.old self.new) }
    {
        match event {
            Happening::Start => self.start(alloc),
            Happening::Queue { receipt, key } => self.queue(receipt, key),
            Happening::Raise(first) => self.raise(first),
            Happening::Cancel(number) => self.cancel(number),
            Happening::Deliver {
                openings,
                most,
                copy,
                further,
            } => self.deliver(openings, most, &copy, further),
            Happening::Refuse => self.refuse(),
            Happening::Keep => self.keep(alloc),
            Happening::FailWith(why) => self.fail_with(alloc, why),
            Happening::FailWithout(why) => self.fail_without(why),
            Happening::FailWithBoth(_) => Err(NotPossible::OneByOne),
            Happening::Learn(_) | Happening::FailLearning { .. } => Err(NotPossible::Alone),
            Happening::Connect => self.connect(),
            Happening::Miss => self.miss(),
            Happening::Put(most) => self.put(alloc, most),
            Happening::Break { most, fewer, why } => self.break_off(alloc, most, fewer, why),
            Happening::Hear(most) => self.hear(most),
            Happening::End(why) => self.end(why),
            Happening::HangUp => self.hang_up(),
            Happening::News => self.news(),
            Happening::Tell => self.tell(),
            Happening::OnWire(event) => self.on_wire(event),
            Happening::Idle => self.idle(),
            Happening::Crash => {
                self.crash();
                Ok(())
            }
        }
    }

    fn start(&mut self, alloc: Global) -> Result<(), NotPossible>
        requires { IsWorld self.old }
        ensures happened { OnOk result (Happens self.old event.Start self.new) }
        ensures refused { IfErr result (λ why. Instead why event.Start self.old self.new) }
    {
        if self.machine.is_some() {
            return Err(NotPossible::SwitchedOn);
        }
        match TillMachine::open(alloc, &self.kept) {
            Ok(machine) => {
                // Proof only: its host is sound.
                machine.is_sound();
                self.machine = Some(machine);
                Ok(())
            }
            Err(NoMachine::Memory) => Err(NotPossible::Memory),
            Err(NoMachine::Damaged) => unreachable!(),
        }
    }

    fn queue(&mut self, receipt: ReceiptContent, key: Option<ReceiptKey>) -> Result<(), NotPossible>
        ensures happened { OnOk result (Happens self.old (event.Queue receipt key) self.new) }
        ensures refused { IfErr result (λ why. Instead why (event.Queue receipt key) self.old self.new) }
    {
        let Some(machine) = &mut self.machine else {
            return Err(NotPossible::SwitchedOff);
        };
        if let Err((why, _receipt)) = machine.queue(receipt, key) {
            // Proof only: its host is sound.
            machine.is_sound();
            return Err(NotPossible::Machine(why));
        }
        // Proof only: its host is sound.
        machine.is_sound();
        Ok(())
    }

    fn raise(&mut self, first: u32) -> Result<(), NotPossible>
        ensures happened { OnOk result (Happens self.old (event.Raise first) self.new) }
        ensures refused { IfErr result (λ why. Instead why (event.Raise first) self.old self.new) }
    {
        let Some(machine) = &mut self.machine else {
            return Err(NotPossible::SwitchedOff);
        };
        if let Err(why) = machine.raise(first) {
            // Proof only: its host is sound.
            machine.is_sound();
            return Err(NotPossible::Machine(why));
        }
        // Proof only: its host is sound.
        machine.is_sound();
        Ok(())
    }

    fn cancel(&mut self, number: ReceiptNumber) -> Result<(), NotPossible>
        ensures happened { OnOk result (Happens self.old (event.Cancel number) self.new) }
        ensures refused { IfErr result (λ why. Instead why (event.Cancel number) self.old self.new) }
    {
        let Some(machine) = &mut self.machine else {
            return Err(NotPossible::SwitchedOff);
        };
        if let Err(why) = machine.cancel(number) {
            // Proof only: its host is sound.
            machine.is_sound();
            return Err(NotPossible::Machine(why));
        }
        // Proof only: its host is sound.
        machine.is_sound();
        Ok(())
    }

    fn deliver(
        &mut self,
        openings: u32,
        most: u32,
        copy: &Option<Text>,
        further: bool,
    ) -> Result<(), NotPossible>
        ensures happened { OnOk result (Happens self.old (event.Deliver openings most copy.now further) self.new) }
        ensures refused { IfErr result (λ why. Instead why (event.Deliver openings most copy.now further) self.old self.new) }
    {
        match copy {
            None => self.deliver_as(openings, most, None, further),
            Some(text) => match CopyText::new(text.bytes()) {
                Some(text) => self.deliver_as(openings, most, Some(&text), further),
                None => Err(NotPossible::NotCopyText),
            },
        }
    }

    fn deliver_as(
        &mut self,
        openings: u32,
        most: u32,
        copy: Option<&CopyText<'_>>,
        further: bool,
    ) -> Result<(), NotPossible>
        ensures happened { OnOk result (Calls (λ m after. Delivers m openings most (option_map (λ t. t.now) copy.entry) further after × FitsLine after.stage) self.old self.new) }
        ensures refused { IfErr result (λ why. Instead why (event.Deliver openings most (option_map (λ t. t.now) copy.entry) further) self.old self.new) }
    {
        // Proof only: a receipt fits the line.
        escpos_link::laws::fitting();
        let Some(machine) = &mut self.machine else {
            return Err(NotPossible::SwitchedOff);
        };
        if let Err(why) = machine.deliver(openings, copy, most, further) {
            // Proof only: its host is sound.
            machine.is_sound();
            return Err(NotPossible::Machine(why));
        }
        // Proof only: its host is sound, and what is to be sent is a receipt.
        machine.is_sound();
        Ok(())
    }

    fn refuse(&mut self) -> Result<(), NotPossible>
        ensures happened { OnOk result (Happens self.old event.Refuse self.new) }
        ensures refused { IfErr result (λ why. Instead why event.Refuse self.old self.new) }
    {
        let Some(machine) = &self.machine else {
            return Err(NotPossible::SwitchedOff);
        };
        // Proof only: its host is sound.
        machine.is_sound();
        Ok(())
    }

    fn connect(&mut self) -> Result<(), NotPossible>
        ensures happened { OnOk result (Happens self.old event.Connect self.new) }
        ensures refused { IfErr result (λ why. Instead why event.Connect self.old self.new) }
    {
        let Some(machine) = &mut self.machine else {
            return Err(NotPossible::SwitchedOff);
        };
        machine.connected(true);
        // Proof only: its host is sound.
        machine.is_sound();
        Ok(())
    }

    fn miss(&mut self) -> Result<(), NotPossible>
        ensures happened { OnOk result (Happens self.old event.Miss self.new) }
        ensures refused { IfErr result (λ why. Instead why event.Miss self.old self.new) }
    {
        let Some(machine) = &mut self.machine else {
            return Err(NotPossible::SwitchedOff);
        };
        machine.connected(false);
        // Proof only: its host is sound.
        machine.is_sound();
        Ok(())
    }

    fn hang_up(&mut self) -> Result<(), NotPossible>
        ensures happened { OnOk result (Happens self.old event.HangUp self.new) }
        ensures refused { IfErr result (λ why. Instead why event.HangUp self.old self.new) }
    {
        let Some(machine) = &mut self.machine else {
            return Err(NotPossible::SwitchedOff);
        };
        machine.hung_up();
        // Proof only: its host is sound.
        machine.is_sound();
        Ok(())
    }

    fn news(&mut self) -> Result<(), NotPossible>
        ensures happened { OnOk result (Happens self.old event.News self.new) }
        ensures refused { IfErr result (λ why. Instead why event.News self.old self.new) }
    {
        let Some(machine) = &mut self.machine else {
            return Err(NotPossible::SwitchedOff);
        };
        if !has_news(machine) {
            return Err(NotPossible::NotAsked);
        }
        machine.told();
        // Proof only: its host is sound.
        machine.is_sound();
        Ok(())
    }

    fn tell(&mut self) -> Result<(), NotPossible>
        ensures happened { OnOk result (Happens self.old event.Tell self.new) }
        ensures refused { IfErr result (λ why. Instead why event.Tell self.old self.new) }
    {
        let Some(machine) = &mut self.machine else {
            return Err(NotPossible::SwitchedOff);
        };
        let Some(note) = note_of(machine) else {
            return Err(NotPossible::NotAsked);
        };
        if self.told.push(note).is_err() {
            return Err(NotPossible::Memory);
        }
        machine.told();
        // Proof only: its host is sound.
        machine.is_sound();
        Ok(())
    }

    fn keep(&mut self, alloc: Global) -> Result<(), NotPossible>
        requires { IsWorld self.old }
        ensures happened { OnOk result (Happens self.old event.Keep self.new) }
        ensures refused { IfErr result (λ why. Instead why event.Keep self.old self.new) }
    {
        let Some(machine) = &mut self.machine else {
            return Err(NotPossible::SwitchedOff);
        };
        let entry = match wanted(machine, alloc) {
            Ok(entry) => entry,
            Err(why) => return Err(why),
        };
        let opens = opens_link(machine, &entry);
        if self.kept.push(entry).is_err() {
            return Err(NotPossible::Memory);
        }
        if !opens {
            keep(machine, &mut self.wire);
            return Ok(());
        }
        match keep_try(machine, &mut self.wire) {
            Ok(true) => Ok(()),
            Ok(false) => Err(NotPossible::Memory),
            Err(_) => {
                let _ = self.kept.pop();
                Err(NotPossible::Memory)
            }
        }
    }

    fn fail_with(&mut self, alloc: Global, why: StoreFault) -> Result<(), NotPossible>
        requires { IsWorld self.old }
        ensures happened { OnOk result (Happens self.old (event.FailWith why) self.new) }
        ensures refused { IfErr result (λ refusal. Instead refusal (event.FailWith why) self.old self.new) }
    {
        let Some(machine) = &mut self.machine else {
            return Err(NotPossible::SwitchedOff);
        };
        let entry = match wanted(machine, alloc) {
            Ok(entry) => entry,
            Err(why) => return Err(why),
        };
        if self.kept.push(entry).is_err() {
            return Err(NotPossible::Memory);
        }
        fail(machine, &mut self.wire, why);
        Ok(())
    }

    fn fail_without(&mut self, why: StoreFault) -> Result<(), NotPossible>
        requires { IsWorld self.old }
        ensures happened { OnOk result (Happens self.old (event.FailWithout why) self.new) }
        ensures refused { IfErr result (λ refusal. Instead refusal (event.FailWithout why) self.old self.new) }
    {
        let Some(machine) = &mut self.machine else {
            return Err(NotPossible::SwitchedOff);
        };
        if !has_entry(machine) {
            return Err(NotPossible::NotAsked);
        }
        fail(machine, &mut self.wire, why);
        Ok(())
    }

    fn put(&mut self, alloc: Global, most: usize) -> Result<(), NotPossible>
        requires { IsWorld self.old }
        ensures happened { OnOk result (Happens self.old (event.Put most) self.new) }
        ensures refused { IfErr result (λ why. Instead why (event.Put most) self.old self.new) }
    {
        let Some(machine) = &mut self.machine else {
            return Err(NotPossible::SwitchedOff);
        };
        if !machine.talks() {
            return Err(NotPossible::NotAsked);
        }
        let Ok(out) = taken_out(machine, alloc, most) else {
            return Err(NotPossible::Memory);
        };
        if self.wire.put(&out).is_err() {
            end(machine, &mut self.wire, SendFault::WriteFault);
            return Err(NotPossible::Memory);
        }
        Ok(())
    }

    fn break_off(
        &mut self,
        alloc: Global,
        most: usize,
        fewer: usize,
        why: SendFault,
    ) -> Result<(), NotPossible>
        requires { IsWorld self.old }
        ensures happened { OnOk result (Happens self.old (event.Break most fewer why) self.new) }
        ensures refused { IfErr result (λ refusal. Instead refusal (event.Break most fewer why) self.old self.new) }
    {
        let Some(machine) = &mut self.machine else {
            return Err(NotPossible::SwitchedOff);
        };
        if !machine.talks() {
            return Err(NotPossible::NotAsked);
        }
        let Ok(out) = taken_out(machine, alloc, most) else {
            return Err(NotPossible::Memory);
        };
        let count = fewer.min(out.len());
        if self.wire.put(&out[..count]).is_err() {
            end(machine, &mut self.wire, why);
            return Err(NotPossible::Memory);
        }
        end(machine, &mut self.wire, why);
        Ok(())
    }

    fn hear(&mut self, most: usize) -> Result<(), NotPossible>
        requires { IsWorld self.old }
        ensures happened { OnOk result (Happens self.old (event.Hear most) self.new) }
        ensures refused { IfErr result (λ why. Instead why (event.Hear most) self.old self.new) }
    {
        let Some(machine) = &mut self.machine else {
            return Err(NotPossible::SwitchedOff);
        };
        if !machine.talks() {
            return Err(NotPossible::NotAsked);
        }
        let consumed = machine.came(self.wire.front(most));
        self.wire.heard(consumed);
        // Proof only: its host is sound.
        machine.is_sound();
        let linked = machine.is_linked();
        hang_up_if(&mut self.wire, !linked);
        Ok(())
    }

    fn end(&mut self, why: SendFault) -> Result<(), NotPossible>
        requires { IsWorld self.old }
        ensures happened { OnOk result (Happens self.old (event.End why) self.new) }
        ensures refused { IfErr result (λ refusal. Instead refusal (event.End why) self.old self.new) }
    {
        let Some(machine) = &mut self.machine else {
            return Err(NotPossible::SwitchedOff);
        };
        let talks = machine.talks();
        machine.link_ended(why);
        // Proof only: its host is sound.
        machine.is_sound();
        hang_up_if(&mut self.wire, talks);
        Ok(())
    }

    fn on_wire(&mut self, happening: Event) -> Result<(), NotPossible>
        ensures happened { OnOk result (Happens self.old (event.OnWire happening) self.new) }
        ensures refused { IfErr result (λ why. Instead why (event.OnWire happening) self.old self.new) }
    {
        match happening {
            Event::Deliver(most) => self.feed(most),
            Event::HandOver => self.hand_over(),
            Event::PrinterLeaves => self.printer_leaves(),
            Event::PrinterRestart => self.restart_printer(),
            Event::SetCondition(condition) => self.set_condition(condition),
            _ => Err(NotPossible::NotAtPrinter),
        }
    }

    fn feed(&mut self, most: usize) -> Result<(), NotPossible>
        ensures happened { OnOk result (GoesOnWire (line.Deliver most) self.old self.new) }
        ensures refused { IfErr result (λ why. Instead why (event.OnWire (line.Deliver most)) self.old self.new) }
    {
        if let Err(_refused) = self.wire.deliver(most) {
            return Err(NotPossible::Memory);
        }
        Ok(())
    }

    fn hand_over(&mut self) -> Result<(), NotPossible>
        ensures happened { OnOk result (GoesOnWire line.HandOver self.old self.new) }
        ensures refused { IfErr result (λ why. Instead why (event.OnWire line.HandOver) self.old self.new) }
    {
        if let Err(_refused) = self.wire.hand_over() {
            return Err(NotPossible::Memory);
        }
        Ok(())
    }

    fn printer_leaves(&mut self) -> Result<(), NotPossible>
        ensures happened { OnOk result (GoesOnWire line.PrinterLeaves self.old self.new) }
        ensures refused { IfErr result (λ why. Instead why (event.OnWire line.PrinterLeaves) self.old self.new) }
    {
        self.wire.printer_leaves();
        Ok(())
    }

    fn restart_printer(&mut self) -> Result<(), NotPossible>
        ensures happened { OnOk result (GoesOnWire line.PrinterRestart self.old self.new) }
        ensures refused { IfErr result (λ why. Instead why (event.OnWire line.PrinterRestart) self.old self.new) }
    {
        self.wire.restart_printer();
        Ok(())
    }

    fn set_condition(&mut self, condition: Condition) -> Result<(), NotPossible>
        ensures happened { OnOk result (GoesOnWire (line.SetCondition condition) self.old self.new) }
        ensures refused { IfErr result (λ why. Instead why (event.OnWire (line.SetCondition condition)) self.old self.new) }
    {
        self.wire.set_condition(condition);
        Ok(())
    }

    fn idle(&mut self) -> Result<(), NotPossible>
        requires { IsWorld self.old }
        ensures happened { OnOk result (Happens self.old event.Idle self.new) }
        ensures refused { IfErr result (λ why. Instead why event.Idle self.old self.new) }
    {
        if self.has_link() {
            return Err(NotPossible::Linked);
        }
        if self.wire.link_up().is_err() {
            return Err(NotPossible::Memory);
        }
        self.wire.hang_up();
        Ok(())
    }

    fn crash(&mut self)
        requires { IsWorld self.old }
        ensures crashed { Happens self.old event.Crash self.new }
    {
        let linked = self.has_link();
        self.machine = None;
        hang_up_if(&mut self.wire, linked);
    }

    // Whether there is a link.
    fn has_link(&self) -> bool
        ensures linked { IsTrue result → (m : MachineView) × (self.now.machine ≡ Some m) × Linked m.stage }
        ensures none { ¬ IsTrue result → (m : MachineView) → self.now.machine ≡ Some m → Linked m.stage → ⊥ }
    {
        let Some(machine) = &self.machine else {
            return false;
        };
        machine.is_linked()
    }
}

// The entry that the machine asks for.
fn wanted(machine: &TillMachine, alloc: Global) -> Result<Entry, NotPossible>
    ensures entry { IfOk result (λ entry. (next : Then) × (machine.now.stage ≡ stage.Keeping entry next)) }
    ensures refused { IfErr result (λ why. IsUnwanted why machine.now.stage) }
{
    let Action::Append(entry) = machine.asks() else {
        return Err(NotPossible::NotAsked);
    };
    match entry.copy(alloc) {
        Ok(entry) => Ok(entry),
        Err(_) => Err(NotPossible::Memory),
    }
}

// Whether the entry is a try.
fn is_try(entry: &Entry) -> bool
    ensures tried { IsTrue result → (number : ℕ) × (limit : ℕ) × (entry.now ≡ Entry.Tried number limit) }
    ensures other { ¬ IsTrue result → (number limit : ℕ) → entry.now ≢ Entry.Tried number limit }
{
    matches!(entry, Entry::Tried { .. })
}

// Whether the machine asks for an entry to be kept.
fn has_entry(machine: &TillMachine) -> bool
    ensures { IsTrue result ↔ KeepsEntry machine.now.stage }
{
    matches!(machine.asks(), Action::Append(_))
}

// Whether the machine has news for its owner while it talks.
fn has_news(machine: &TillMachine) -> bool
    ensures { IsTrue result ↔ HasNews machine.now.stage }
{
    machine.talks() && matches!(machine.asks(), Action::Tell(_))
}

// The note that the machine has for its owner.
fn note_of(machine: &TillMachine) -> Option<TillNote>
    ensures { MatchOption result ((note : TillNote) → machine.now.stage ≢ stage.Telling note) (λ note. machine.now.stage ≡ stage.Telling note) }
{
    if machine.talks() {
        return None;
    }
    match machine.asks() {
        Action::Tell(note) => Some(note),
        _ => None,
    }
}

// A link is opened for the entry: a receipt is tried by it, and not over the link of the one before.
fn opens_link(machine: &TillMachine, entry: &Entry) -> bool
    ensures opens { IsTrue result → (Linked machine.now.stage → ⊥) × ((number : ℕ) × (limit : ℕ) × (entry.now ≡ Entry.Tried number limit)) }
    ensures other { ¬ IsTrue result → (Linked machine.now.stage → ⊥) → (number limit : ℕ) → entry.now ≢ Entry.Tried number limit }
{
    is_try(entry) && !machine.is_linked()
}

// An entry is kept for which no link is opened: the machine's link, if it is on one, is given up unless it is still on it.
fn keep(machine: &mut TillMachine, wire: &mut Wire)
    ensures kept { Kept machine.old.stage machine.old machine.new }
    ensures sound { IsSound machine.new.host }
    ensures ends { Linked machine.old.stage → (Linked machine.new.stage → ⊥) → wire.new ≡ given_up wire.old }
    ensures stays { Linked machine.new.stage → wire.new ≡ wire.old }
    ensures no_link { (Linked machine.old.stage → ⊥) → wire.new ≡ wire.old }
{
    let linked = machine.is_linked();
    machine.appended(Ok(()));
    // Proof only: its host is sound.
    machine.is_sound();
    let ends = linked && !machine.is_linked();
    hang_up_if(wire, ends);
}

// A try is kept: there is a link, and the machine talks over it. No is answered where its host couldn't put its opening marks out: the link is
// given up with nothing on it.
fn keep_try(machine: &mut TillMachine, wire: &mut Wire) -> Result<bool, AllocError>
    requires { wire.old.live ≡ None }
    ensures kept { OnOk result (Kept machine.old.stage machine.old machine.new) }
    ensures sound { IsSound machine.new.host }
    ensures talks { IfOk result (λ talks. IsTrue talks → ((talk : Talk) × (machine.new.stage ≡ stage.Talking talk)) × (wire.new ≡ with_link wire.old)) }
    ensures silent { IfOk result (λ talks. ¬ IsTrue talks → ¬ ((talk : Talk) × (machine.new.stage ≡ stage.Talking talk)) × (wire.new ≡ given_up (with_link wire.old))) }
    ensures refused { OnErr result ((machine.new ≡ machine.old) × (wire.new ≡ wire.old)) }
{
    // Proof only: its host is sound.
    machine.is_sound();
    wire.link_up()?;
    machine.appended(Ok(()));
    // Proof only: its host is sound.
    machine.is_sound();
    let talks = machine.talks();
    if !talks {
        wire.hang_up();
    }
    Ok(talks)
}

// The store fails: the machine's link, if it is on one, is given up.
fn fail(machine: &mut TillMachine, wire: &mut Wire, why: StoreFault)
    ensures unsure { Unsure machine.old.stage why machine.old machine.new }
    ensures sound { IsSound machine.new.host }
    ensures linked { Linked machine.old.stage → wire.new ≡ given_up wire.old }
    ensures no_link { (Linked machine.old.stage → ⊥) → wire.new ≡ wire.old }
{
    let linked = machine.is_linked();
    machine.appended(Err(why));
    // Proof only: its host is sound.
    machine.is_sound();
    hang_up_if(wire, linked);
}

// The link is given up, or nothing is done.
fn hang_up_if(wire: &mut Wire, ends: bool)
    ensures gone { IsTrue ends → wire.new ≡ given_up wire.old }
    ensures stays { ¬ IsTrue ends → wire.new ≡ wire.old }
{
    if ends {
        wire.hang_up();
    }
}

// The link of a machine that talks has ended.
fn end(machine: &mut TillMachine, wire: &mut Wire, why: SendFault)
    ensures ended { Ended machine.old.stage why machine.old machine.new }
    ensures sound { IsSound machine.new.host }
    ensures wire { wire.new ≡ given_up wire.old }
{
    machine.link_ended(why);
    // Proof only: its host is sound.
    machine.is_sound();
    wire.hang_up();
}

// Takes bytes out of a machine that talks, at most so many.
fn taken_out(machine: &mut TillMachine, alloc: Global, most: usize) -> Result<Vec<u8>, NotPossible>
    requires { (talk : Talk) × (machine.old.stage ≡ stage.Talking talk) }
    ensures bytes { IfOk result (λ out. out.items ≡ take (min most (length machine.old.host.out)) machine.old.host.out) }
    ensures taken { OnOk result (machine.new ≡ put machine.old.stage (min most (length machine.old.host.out)) machine.old) }
    ensures sound { IsSound machine.new.host }
    ensures refused { IfErr result (λ why. (why ≡ NotPossible.Memory) × (machine.new ≡ machine.old)) }
{
    let Ok(mut out) = vec![in alloc; 0; most] else {
        // Proof only: its host is sound.
        machine.is_sound();
        return Err(NotPossible::Memory);
    };
    let count = machine.take_out(&mut out);
    // Proof only: its host is sound.
    machine.is_sound();
    out.truncate(count);
    Ok(out)
}
