//! The tests of receipts and of the host, by its calls and by `send_link`. The line to a printer is in escpos_line_tests.
//!
//! They stand apart from what they test because tests are proved together with the functions of their crate: here no function
//! is proved a second time for them. A test that looks into a value stands in the crate of that value.
//!
//! `host` is of receipts and of the host; `memory` lets each allocation of a call fail in turn, of texts, layouts and pictures
//! too. What they share is in `support`, and what the crates above take too in escpos_test_receipts. Most tests
//! are rows of steps, which are constants where they can be: one function plays a row, and lends the host that it owns to a function
//! for each kind of step.
#![tactic(auto)]

#[cfg(test)]
mod host;
#[cfg(test)]
mod memory;
#[cfg(test)]
mod support;
