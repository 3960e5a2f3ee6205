//! The tests of commands that are passed over.
//!
//! They stand apart from what they test because tests are proved together with the functions of their crate: here no function
//! is proved a second time for them.
//!
//! `examples` has one of each such command, `reading` whole streams, and `memory` lets each allocation of a call fail in turn. What
//! these read, `listed` keeps as letters.
#![tactic(auto)]

#[cfg(test)]
mod examples;
#[cfg(test)]
mod listed;
#[cfg(test)]
mod memory;
#[cfg(test)]
mod reading;
