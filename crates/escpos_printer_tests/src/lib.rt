//! The tests of the printer: pages, the printer by its calls and over links. What it is fed is decoded in escpos_decode_tests.
//!
//! They stand apart from what they test because tests are proved together with the functions of their crate: here no function
//! is proved a second time for them. A test that looks into a value stands in the crate of that value.
//!
//! `paper` is of escpos_paper, and `printer` of escpos_printer; `memory` lets each allocation of a call fail in turn, of the
//! decoder too. What they share is in `support`, and what the tests of commands and of the decoder take too in
//! escpos_test_values. Most tests are rows of steps, which are constants where they can be: one function plays a row, and lends
//! the printer or the page that it owns to a function for each kind of step.
#![tactic(auto)]

#[cfg(test)]
mod memory;
#[cfg(test)]
mod paper;
#[cfg(test)]
mod printer;
#[cfg(test)]
mod support;
