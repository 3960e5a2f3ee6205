//! The tests of a till without jobs: its machine and its driver. Its store is in escpos_store_tests, the simulated till in
//! escpos_till_model_tests, and its jobs are in escpos_till_jobs_tests.
//!
//! They stand apart from what they test because tests are proved together with the functions of their crate: here no function
//! is proved a second time for them. A test that looks into a value stands in the crate of that value.
//! Most tests are rows of steps, which are constants. One function plays them: it owns the machine or the till, and lends it to a function
//! for each step. A test that owned one would be proved with its drop, and one whose steps stood in its body with each of them.
//!
//! `till` is of the machine and its driver, over a store in memory, `learning` of what it makes of entries that others add; `memory` lets
//! each allocation of a call fail in turn. What they share is in `support`.
#![tactic(auto)]

#[cfg(test)]
mod learning;
#[cfg(test)]
mod memory;
#[cfg(test)]
mod support;
#[cfg(test)]
mod till;
