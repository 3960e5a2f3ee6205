//! The tests of the decoder. Commands by themselves are in escpos_command_tests, pages and the printer in escpos_printer_tests.
//!
//! They stand apart from what they test because tests are proved together with the functions of their crate: here no function
//! is proved a second time for them. A test that looks into a value stands in the crate of that value.
//!
//! `decoder` compares it with worked rows, and at each byte with a plain reader. What they share is in `support`, and what the tests
//! of commands and of the printer take too in escpos_test_values.
#![tactic(auto)]

#[cfg(test)]
mod decoder;
#[cfg(test)]
mod support;
