//! A receipt line: a host, a printer, and all that lies between them, as a simulation in which everything that can go wrong
//! with a real one is an event.
//!
//! Whatever happens on it, the receipts that the host has recorded as printed are on the printer's paper whole, one after
//! another in the order of recording, each exactly the items that its commands print on a printer just initialised.
//! `specs/Stands.antt` says so in two lines; it is a clause of `Sim::new`, `step`, `run`, `straight` and `paper`.
//! `specs/Trusted.antt` says why it holds at all times, and `proofs/Aligning.antt` and `proofs/Claiming.antt` begin with
//! the two arguments that carry it.
//!
//! `event` has the events, the effect of each, and why one is refused. `wire` has the printer and all that lies between it and
//! a host, and `line` a host at the end of a wire, and what each event does to both; `undelivered` keeps the bytes that are on
//! their way. A caller uses `sim`: lines for which the statement holds at all times, step by step or with a list of events at
//! once. A caller that has a host of its own uses a `Wire`, and the laws of `laws`, on which `sim` rests too. The definitions
//! are those of `specs/EventTable.antt`, which says what each event does, of `specs/Wire.antt`, which parts a line into its host
//! and the rest, of `specs/Line.antt` and `specs/Trusted.antt`, which say what holds for every line, and of
//! `specs/Stands.antt`.
#![tactic(auto)]

mod event;
pub mod laws;
mod line;
mod sim;
mod undelivered;
mod wire;

pub use event::{Event, Handed, Note, Refusal, Refused};
pub use sim::{RunStop, Sim, StraightStop};
pub use wire::Wire;
