//! The tests of the simulated till, and of a till's line to a printer in memory.
//!
//! A test makes a till and lends it to checks that own nothing: each way out of a function drops what it owns.
//!
//! `model` is of a till in the world where everything may fail, `wire_line` of a till that is driven over a line in memory; `memory`
//! lets each allocation of a call fail in turn. What they share is in `support`.
#![tactic(auto)]

#[cfg(test)]
mod memory;
#[cfg(test)]
mod model;
#[cfg(test)]
mod support;
#[cfg(test)]
mod wire_line;
