//! The tests of devices and of commands: reading, writing and spelling. How bytes are read as commands is in escpos_decode_tests.
//!
//! They stand apart from what they test because tests are proved together with the functions of their crate: here no function
//! is proved a second time for them. A test that looks into a value stands in the crate of that value.
//!
//! `devices` and `pieces` are of escpos_io, and `commands` of escpos_command; `memory` lets each allocation of a call fail in turn.
//! What they share is in `support`, and what the tests of the decoder and of the printer take too in escpos_test_values.
#![tactic(auto)]

#[cfg(test)]
mod commands;
#[cfg(test)]
mod devices;
#[cfg(test)]
mod memory;
#[cfg(test)]
mod pieces;
#[cfg(test)]
mod support;
