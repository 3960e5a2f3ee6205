//! What surrounds a till's machine: a store for its entries, and a line to its printer.
//!
//! Both are one value, so that a contract can say in which order things were done. How a link is opened and what goes over it is
//! left to the types that implement `PrinterLine`.

ghost use Rattle.std.specs.Prelude.{◌≡◌, ◌≤◌, ℕ, length, take, option_map, IfErr, IfOk, OnOk, IsTrue};
ghost use Rattle.escpos_till.specs.declared.note.TillNote.{TillNote};
ghost use Rattle.escpos_till.specs.declared.pause.Pause.{Pause};
ghost use Rattle.escpos_till.specs.Driver.{Breaks, Confirms, Deed, Ends, Gives, HangsUp, Keeps, Learns, Links, Loses, Misses, Pauses, Puts, Tells};
ghost use Rattle.escpos_till.specs.Appending.{IfDone, IfOthers};
ghost use Rattle.escpos_till.specs.Surroundings.{Did};

use crate::entry::Entry;
use crate::store::{Appended, Store, StoreFault};
use escpos_host::SendFault;

/// A line to a printer. At most one link is open over it.
pub trait PrinterLine {
    // Of what is done over a link: it did this, and then it is so.
    ghost did: { Self → Deed → Self → Type 0 };

    /// Opens a link to the printer, and returns whether there is one.
    fn connect(&mut self) -> bool
        ensures links { IsTrue result → did self.old Links self.new }
        ensures misses { ¬ IsTrue result → did self.old Misses self.new };

    /// Puts bytes on the link. At `Err` some of them may be put, and the link is of no more use. If `patient` is true, the printer says
    /// that it prints nothing for now, and is waited for longer.
    fn put(&mut self, bytes: &[u8], patient: bool) -> Result<(), SendFault>
        ensures puts { OnOk result (did self.old (Puts bytes.now) self.new) }
        ensures breaks { IfErr result (λ why. did self.old (Breaks bytes.now why) self.new) };

    /// Waits for bytes of answers, moves them to the start of `room`, and returns how many there are. With 0, nothing came. If `patient` is
    /// true, the printer says that it prints nothing for now, and is waited for longer.
    fn pull(&mut self, room: &mut [u8], patient: bool) -> Result<usize, SendFault>
        ensures within { IfOk result (λ count. count ≤ length room.old) }
        ensures gives { IfOk result (λ count. did self.old (Gives (length room.old) (take count room.new)) self.new) }
        ensures ends { IfErr result (λ why. did self.old (Ends why) self.new) };

    /// Whether as many bytes as are put at a time would be taken at once.
    fn takes_at_once(&self) -> bool;

    /// Whether bytes of answers are there, or come within a moment.
    fn gives_soon(&self) -> bool;

    /// Gives the link up.
    fn hang_up(&mut self)
        ensures { did self.old HangsUp self.new };
}

/// A store and a line to a printer.
#[derive(Drop)]
pub struct Surroundings<S: Store, L: PrinterLine> {
    /// Where entries are kept.
    pub store: S,
    /// The line to the printer.
    pub line: L,
}

impl<S: Store, L: PrinterLine> Surroundings<S, L> {
    /// Keeps an entry in the store, and another one with it, if one is given, unless others have added some.
    #[tactic(auto, unfolding(crate::specs::Surroundings::Did))]
    pub(crate) fn append(
        &mut self,
        entry: &Entry,
        after: Option<&Entry>,
    ) -> Result<Appended, StoreFault>
        ensures keeps { IfOk result (λ it. IfDone it (Did S.faithful S.holds S.leaves S.says L.did self.old (Keeps entry.now (option_map (λ e. e.now) after.entry)) self.new)) }
        ensures learns { IfOk result (λ it. IfOthers it (λ others. Did S.faithful S.holds S.leaves S.says L.did self.old (Learns others) self.new)) }
        ensures loses { IfErr result (λ why. Did S.faithful S.holds S.leaves S.says L.did self.old (Loses entry.now (option_map (λ e. e.now) after.entry) why) self.new) }
    {
        self.store.append(entry, after)
    }

    /// Opens a link over the line. The store lets others add entries meanwhile.
    #[tactic(auto, unfolding(crate::specs::Surroundings::Did))]
    pub(crate) fn connect(&mut self) -> bool
        ensures links { IsTrue result → Did S.faithful S.holds S.leaves S.says L.did self.old Links self.new }
        ensures misses { ¬ IsTrue result → Did S.faithful S.holds S.leaves S.says L.did self.old Misses self.new }
    {
        self.store.let_go();
        self.line.connect()
    }

    /// Puts bytes on the link. Unless they are taken at once, the store lets others add entries meanwhile.
    #[tactic(auto, unfolding(crate::specs::Surroundings::Did))]
    pub(crate) fn put(&mut self, bytes: &[u8], patient: bool) -> Result<(), SendFault>
        ensures puts { OnOk result (Did S.faithful S.holds S.leaves S.says L.did self.old (Puts bytes.now) self.new) }
        ensures breaks { IfErr result (λ why. Did S.faithful S.holds S.leaves S.says L.did self.old (Breaks bytes.now why) self.new) }
    {
        if !self.line.takes_at_once() {
            self.store.let_go();
        }
        self.line.put(bytes, patient)
    }

    /// Waits for bytes of answers. Unless some come soon, the store lets others add entries meanwhile.
    #[tactic(auto, unfolding(crate::specs::Surroundings::Did))]
    pub(crate) fn pull(&mut self, room: &mut [u8], patient: bool) -> Result<usize, SendFault>
        ensures within { IfOk result (λ count. count ≤ length room.old) }
        ensures gives { IfOk result (λ count. Did S.faithful S.holds S.leaves S.says L.did self.old (Gives (length room.old) (take count room.new)) self.new) }
        ensures ends { IfErr result (λ why. Did S.faithful S.holds S.leaves S.says L.did self.old (Ends why) self.new) }
    {
        if !self.line.gives_soon() {
            self.store.let_go();
        }
        self.line.pull(room, patient)
    }

    /// Gives the link up.
    #[tactic(auto, unfolding(crate::specs::Surroundings::Did))]
    pub(crate) fn hang_up(&mut self)
        ensures { Did S.faithful S.holds S.leaves S.says L.did self.old HangsUp self.new }
    {
        self.line.hang_up();
    }

    // Proof only: gives the caller these facts: to tell the owner changes neither.
    #[tactic(auto, unfolding(crate::specs::Surroundings::Did))]
    pub(crate) fn tells(&self)
        ensures told { (note : TillNote) → Did S.faithful S.holds S.leaves S.says L.did self.now (Tells note) self.now }
        ensures paused { (number : ℕ) (why : Pause) → Did S.faithful S.holds S.leaves S.says L.did self.now (Pauses number why) self.now }
        ensures confirmed { (number : ℕ) → Did S.faithful S.holds S.leaves S.says L.did self.now (Confirms number) self.now }
    {}
}
