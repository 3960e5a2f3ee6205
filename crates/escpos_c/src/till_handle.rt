//! What C owns: nothing, or the machine of a till on the heap.
ghost use Rattle.std.specs.Prelude.{◌≡◌, Option, Some, None, option_map};
ghost use Rattle.escpos_c.specs.declared.till_core.TillCore.{TillCore};
ghost use Rattle.escpos_c.specs.contracts.till_core.TillCore.{the_row as core_row};
ghost use Rattle.escpos_c.specs.Owned.{slot_owns};

use crate::slot::{Slot, may_go};
use crate::till_core::TillCore;
use std::alloc::Global;
use std::marker::Model;
use std::mem;

/// Null, or the pointer of a box. It is not `Drop`, so what it owns cannot be forgotten.
#[repr(C)]
pub struct TillHandle {
    at: *mut u8,
    pub ghost value: { Option TillCore },
}

impl Model for TillHandle {
    ghost also_owns = { λ h. slot_owns core_row h.at h.value };
}

// It owns nothing but a box of a core, and a core may go to any thread.
unsafe impl Send for TillHandle {}

impl TillHandle {
    pub fn none() -> TillHandle
        ensures { result.value ≡ None }
    {
        let handle = TillHandle::of(Slot::none());
        // Proof only: a handle may go to another thread.
        may_go(&handle);
        handle
    }

    fn of(slot: Slot<TillCore>) -> TillHandle
        ensures { result.value ≡ slot.value }
    {
        let Slot { at } = slot;
        TillHandle { at: at as *mut u8 }
    }

    fn into_slot(self) -> Slot<TillCore>
        ensures { result.value ≡ self.value }
    {
        let TillHandle { at } = self;
        Slot {
            at: at as *mut TillCore,
        }
    }

    /// The machine's box, if there is one.
    pub fn into_box(self, alloc: Global) -> Option<Box<TillCore>>
        ensures { self.value ≡ option_map (λ b. b.value) result }
    {
        self.into_slot().into_box(alloc)
    }

    /// Takes the machine out, and leaves nothing.
    pub fn take(&mut self, alloc: Global) -> Option<Box<TillCore>>
        ensures value { self.old.value ≡ option_map (λ b. b.value) result }
        ensures empty { self.new.value ≡ None }
    {
        mem::replace(self, TillHandle::none()).into_box(alloc)
    }

    /// Puts a machine in, and frees what was there.
    pub fn put(&mut self, alloc: Global, till: Box<TillCore>)
        ensures { self.new.value ≡ Some till.value }
    {
        let _ = mem::replace(self, TillHandle::of(Slot::of(till))).into_box(alloc);
    }
}
