//! The tests of the jobs over receipts and pictures, in memory. Those over streams and scripts are in escpos_jobs_tests.
//!
//! They stand apart from what they test because tests are proved together with the functions of their crate: here no function
//! is proved a second time for them. A test that looks into a value stands in the crate of that value.
//!
//! A module for each kind of receipt, and one for the receipts of `examples/`. How a job is run is in escpos_test_jobs.
#![tactic(auto)]

#[cfg(test)]
mod encode;
#[cfg(test)]
mod encode_sizes;
#[cfg(test)]
mod examples;
#[cfg(test)]
mod images;
#[cfg(test)]
mod layouts;
#[cfg(test)]
mod plain;
#[cfg(test)]
mod qr_receipts;
