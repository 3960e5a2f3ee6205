//! The tests of the simulated line, by its calls. By scripts it is in escpos_jobs_tests, and with a till in escpos_till_model_tests.
//!
//! They stand apart from what they test because tests are proved together with the functions of their crate: here no function
//! is proved a second time for them. A test that looks into a value stands in the crate of that value.
//!
//! `line` has the worked rows; `memory` lets each allocation of a call fail in turn. What they share is in `support`.
#![tactic(auto)]

#[cfg(test)]
mod line;
#[cfg(test)]
mod memory;
#[cfg(test)]
mod support;
