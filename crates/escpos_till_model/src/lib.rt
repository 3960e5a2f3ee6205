//! A till in a world where everything that can go wrong with a real one may happen: the machine, its store, the printer and the link
//! between them may fail at any moment. The machine is the one that a program runs.
//!
//! Whatever happens, each receipt that the till has taken is in its ledger, waiting, recorded or cancelled; those that are recorded stand
//! on the printer's paper whole, one after another in the order of recording; and what its owner was told of a receipt is so.
//! `specs/World.antt` says what may happen, `specs/Receipts.antt` what is promised; `laws` has it as a law over every list of happenings,
//! whoever runs the machine. `specs/Known.antt` says why it holds at all times.
//!
//! `Till` is such a world that runs: a program may let happen to it what it likes, one by one or as a list. `event` has what may happen,
//! and why it doesn't; `parts` has what a till is made of, and what each happening does to it. `WireLine` is a line for a driver, to the
//! printer of such a wire.
#![tactic(auto)]

mod event;
pub mod laws;
mod parts;
mod till;
mod wire_line;

pub use event::{Happening, NotPossible, OthersEntries};
pub use till::Till;
pub use wire_line::{SameWire, WireLine};
