//! Nothing, or a box as its pointer, at any type. It never crosses to C.
ghost use Rattle.std.specs.Prelude.{◌≡◌, Option, Some, None, option_map};
ghost use Rattle.escpos_c.specs.Owned.{slot_owns};

use std::alloc::Global;
use std::marker::Model;

/// Null, or the pointer of a box. It is not `Drop`, so what it owns cannot be forgotten.
pub struct Slot<T> {
    pub at: *mut T,
    pub ghost value: { Option T },
}

impl<T> Model for Slot<T> {
    ghost also_owns = { λ s. slot_owns T.row s.at s.value };
}

impl<T> Slot<T> {
    pub fn none() -> Slot<T>
        ensures { result.value ≡ None }
    {
        Slot {
            at: std::ptr::null_mut(),
        }
    }

    pub fn of(value: Box<T>) -> Slot<T>
    where
        T: Drop,
        ensures { result.value ≡ Some value.value }
    {
        Slot {
            at: Box::into_raw(value),
        }
    }

    pub fn into_box(self, alloc: Global) -> Option<Box<T>>
        ensures { self.value ≡ option_map (λ b. b.value) result }
    {
        let Slot { at } = self;
        if at.is_null() {
            return None;
        }
        Some(unsafe { Box::from_raw(alloc, at) })
    }
}

/// Proof only: a value of this type may go to another thread.
pub fn may_go<T: Send>(_: &T) {}
