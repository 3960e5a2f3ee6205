//! The tests of the jobs over streams and scripts, in memory. Those over receipts are in escpos_encode_tests, over sockets in
//! escpos_tcp_tests, and what asks for them is in escpos_arguments_tests.
//!
//! They stand apart from what they test because tests are proved together with the functions of their crate: here no function
//! is proved a second time for them. A test that looks into a value stands in the crate of that value.
//!
//! A module for each job or each kind of input; `memory` lets each allocation of a call fail in turn, of all jobs in memory. How a
//! job is run is in escpos_test_jobs, and how long texts are made in `support`. Most tests are rows, which are constants where they can
//! be: one function runs the rows of a job, and owns what it needs.
#![tactic(auto)]

#[cfg(test)]
mod check;
#[cfg(test)]
mod draw;
#[cfg(test)]
mod help;
#[cfg(test)]
mod input;
#[cfg(test)]
mod memory;
#[cfg(test)]
mod pass;
#[cfg(test)]
mod play;
#[cfg(test)]
mod qr_codes;
#[cfg(test)]
mod raw;
#[cfg(test)]
mod render;
#[cfg(test)]
mod support;
#[cfg(test)]
mod widths;
