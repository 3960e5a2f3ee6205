//! The data of QR codes that a page keeps, and room for a copy of it: a QR code may be printed more than once.

ghost use Rattle.std.specs.Prelude.{◌≡◌, ◌≤◌, IsTrue, IsOk, OnOk, OnErr, true, MatchOption, Some, None, option_map};

use crate::content::QrContent;
use escpos_command::QrData;
use std::alloc::{AllocError, Global};
use std::marker::Model;
use std::mem;

/// The data that is stored, if there is any, and an empty list with room for a copy of it.
#[derive(Drop)]
pub struct QrStore {
    stored: Option<QrData>,
    spare: Vec<u8>,
    alloc: Global,
}

impl Model for QrStore {
    ghost use Rattle.std.specs.Prelude.{◌≡◌, [], vec_capacity};
    ghost use Rattle.escpos_paper.specs.QrStore.{Stored, fits_in};

    ghost Value = { Stored };

    ghost view = { λ s. record { stored = s.stored; ready = fits_in (vec_capacity s.spare) s.stored } };

    ghost invariant = { λ s. s.spare.items ≡ [] };
}

impl QrStore {
    /// Nothing is stored. Allocates nothing.
    pub fn new(alloc: Global) -> Self
        ensures stored { result.stored ≡ None }
        ensures ready { result.ready ≡ true }
    {
        QrStore {
            stored: None,
            spare: Vec::new(alloc),
            alloc,
        }
    }

    /// Forgets what is stored. Allocates nothing.
    pub fn clear(&mut self)
        ensures stored { self.new.stored ≡ None }
        ensures ready { self.new.ready ≡ true }
    {
        self.stored = None;
    }

    /// Stores data in place of what was stored. Allocates nothing.
    pub fn store(&mut self, stored: QrData)
        ensures { self.new.stored ≡ Some stored }
    {
        self.stored = Some(stored);
    }

    /// What is stored. Allocates nothing.
    pub fn stored(&self) -> Option<&QrData>
        ensures { option_map (λ data_now. data_now.now) result ≡ self.now.stored }
    {
        self.stored.as_ref()
    }

    /// Whether there is room for a copy of what is stored. Allocates nothing.
    pub fn is_ready(&self) -> bool
        ensures { result ≡ self.now.ready }
    {
        match &self.stored {
            None => true,
            Some(stored) => stored.as_slice().len() <= self.spare.capacity(),
        }
    }

    /// Makes room for a copy of what is stored. The error is a failed allocation; what is stored stays in either case.
    pub fn make_ready(&mut self) -> Result<(), AllocError>
        ensures same { self.new.stored ≡ self.old.stored }
        ensures ready { OnOk result (self.new.ready ≡ true) }
        ensures no_memory { IsTrue self.old.ready → IsOk result }
    {
        match &self.stored {
            None => Ok(()),
            Some(stored) => self.spare.reserve(stored.as_slice().len()),
        }
    }

    /// A copy of what is stored, for which there must be room. What is stored stays. Allocates nothing.
    pub fn copy(&mut self) -> Option<QrContent>
        requires { IsTrue self.old.ready }
        ensures copy { result ≡ self.old.stored }
        ensures same { self.new.stored ≡ self.old.stored }
    {
        let stored = self.stored.as_ref()?;
        let mut bytes = mem::replace(&mut self.spare, Vec::new(self.alloc));
        bytes.extend_from_slice(stored.as_slice()).unwrap();
        Some(QrContent::of(bytes))
    }
}
