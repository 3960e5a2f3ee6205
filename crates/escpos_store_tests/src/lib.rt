//! The tests of a till's store in SQLite, over files in memory and over memory.
//!
//! Most tests are rows of steps, which are constants. One function plays them: it owns the ledger, and lends it to a function for each step.
//! A test that owned one would be proved with its drop, and a connection costs most.
//!
//! `store` is of entries of each kind, `long` of long ledgers, `cut` of ledgers whose files are cut off; `memory` lets each allocation
//! of a call fail in turn. What they share is in `support`.
#![tactic(auto)]

#[cfg(test)]
mod cut;
#[cfg(test)]
mod long;
#[cfg(test)]
mod memory;
#[cfg(test)]
mod store;
#[cfg(test)]
mod support;
