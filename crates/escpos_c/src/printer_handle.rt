//! What C owns: nothing, or a printer on the heap.
ghost use Rattle.std.specs.Prelude.{◌≡◌, Option, Some, None, option_map};
ghost use Rattle.escpos_c.specs.declared.printer_core.PrinterCore.{PrinterCore};
ghost use Rattle.escpos_c.specs.contracts.printer_core.PrinterCore.{the_row as core_row};
ghost use Rattle.escpos_c.specs.Owned.{slot_owns};

use crate::printer_core::PrinterCore;
use crate::slot::{Slot, may_go};
use std::alloc::Global;
use std::marker::Model;
use std::mem;

/// Null, or the pointer of a box. It is not `Drop`, so what it owns cannot be forgotten.
#[repr(C)]
pub struct PrinterHandle {
    at: *mut u8,
    pub ghost value: { Option PrinterCore },
}

impl Model for PrinterHandle {
    ghost also_owns = { λ h. slot_owns core_row h.at h.value };
}

// It owns nothing but a box of a core, and a core may go to any thread.
unsafe impl Send for PrinterHandle {}

impl PrinterHandle {
    pub fn none() -> PrinterHandle
        ensures { result.value ≡ None }
    {
        let handle = PrinterHandle::of(Slot::none());
        // Proof only: a handle may go to another thread.
        may_go(&handle);
        handle
    }

    fn of(slot: Slot<PrinterCore>) -> PrinterHandle
        ensures { result.value ≡ slot.value }
    {
        let Slot { at } = slot;
        PrinterHandle { at: at as *mut u8 }
    }

    fn into_slot(self) -> Slot<PrinterCore>
        ensures { result.value ≡ self.value }
    {
        let PrinterHandle { at } = self;
        Slot {
            at: at as *mut PrinterCore,
        }
    }

    /// The printer's box, if there is one.
    pub fn into_box(self, alloc: Global) -> Option<Box<PrinterCore>>
        ensures { self.value ≡ option_map (λ b. b.value) result }
    {
        self.into_slot().into_box(alloc)
    }

    /// Takes the printer out, and leaves nothing.
    pub fn take(&mut self, alloc: Global) -> Option<Box<PrinterCore>>
        ensures value { self.old.value ≡ option_map (λ b. b.value) result }
        ensures empty { self.new.value ≡ None }
    {
        mem::replace(self, PrinterHandle::none()).into_box(alloc)
    }

    /// Puts a printer in, and frees what was there.
    pub fn put(&mut self, alloc: Global, printer: Box<PrinterCore>)
        ensures { self.new.value ≡ Some printer.value }
    {
        let _ = mem::replace(self, PrinterHandle::of(Slot::of(printer))).into_box(alloc);
    }
}
