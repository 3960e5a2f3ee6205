//! The tests of the jobs over 127.0.0.1, in one thread. Those over memory are in escpos_jobs_tests and escpos_encode_tests.
//!
//! A client connects and writes before it is served, ends its writing, and keeps its stream open.
//!
//! They stand apart from what they test because tests are proved together with the functions of their crate: here no function
//! is proved a second time for them. A test that looks into a value stands in the crate of that value.
//!
//! A module for each job, and `widths`; `memory` lets each allocation of a call fail in turn. What they share is in `support`.
//! Most tests are rows of steps, which are constants where they can be: one function plays a row, and lends the listener, the streams
//! or the printer that it owns to a function for each kind of step.
#![tactic(auto)]

#[cfg(test)]
mod emulating;
#[cfg(test)]
mod memory;
#[cfg(test)]
mod naming;
#[cfg(test)]
mod probing;
#[cfg(test)]
mod round;
#[cfg(test)]
mod sending;
#[cfg(test)]
mod status;
#[cfg(test)]
mod support;
#[cfg(test)]
mod waiting;
#[cfg(test)]
mod watching;
#[cfg(test)]
mod widths;
