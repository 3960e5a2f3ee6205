//! What C owns: nothing, or a host on the heap.
ghost use Rattle.std.specs.Prelude.{◌≡◌, Option, Some, None, option_map};
ghost use Rattle.escpos_c.specs.declared.host_core.HostCore.{HostCore};
ghost use Rattle.escpos_c.specs.contracts.host_core.HostCore.{the_row as core_row};
ghost use Rattle.escpos_c.specs.Owned.{slot_owns};

use crate::host_core::HostCore;
use crate::slot::{Slot, may_go};
use std::alloc::Global;
use std::marker::Model;
use std::mem;

/// Null, or the pointer of a box. It is not `Drop`, so what it owns cannot be forgotten.
#[repr(C)]
pub struct HostHandle {
    at: *mut u8,
    pub ghost value: { Option HostCore },
}

impl Model for HostHandle {
    ghost also_owns = { λ h. slot_owns core_row h.at h.value };
}

// It owns nothing but a box of a core, and a core may go to any thread.
unsafe impl Send for HostHandle {}

impl HostHandle {
    pub fn none() -> HostHandle
        ensures { result.value ≡ None }
    {
        let handle = HostHandle::of(Slot::none());
        // Proof only: a handle may go to another thread.
        may_go(&handle);
        handle
    }

    fn of(slot: Slot<HostCore>) -> HostHandle
        ensures { result.value ≡ slot.value }
    {
        let Slot { at } = slot;
        HostHandle { at: at as *mut u8 }
    }

    fn into_slot(self) -> Slot<HostCore>
        ensures { result.value ≡ self.value }
    {
        let HostHandle { at } = self;
        Slot {
            at: at as *mut HostCore,
        }
    }

    /// The host's box, if there is one.
    pub fn into_box(self, alloc: Global) -> Option<Box<HostCore>>
        ensures { self.value ≡ option_map (λ b. b.value) result }
    {
        self.into_slot().into_box(alloc)
    }

    /// Takes the host out, and leaves nothing.
    pub fn take(&mut self, alloc: Global) -> Option<Box<HostCore>>
        ensures value { self.old.value ≡ option_map (λ b. b.value) result }
        ensures empty { self.new.value ≡ None }
    {
        mem::replace(self, HostHandle::none()).into_box(alloc)
    }

    /// Puts a host in, and frees what was there.
    pub fn put(&mut self, alloc: Global, host: Box<HostCore>)
        ensures { self.new.value ≡ Some host.value }
    {
        let _ = mem::replace(self, HostHandle::of(Slot::of(host))).into_box(alloc);
    }
}
