//! The tests of what the arguments ask for. The jobs themselves are in escpos_jobs_tests, escpos_encode_tests, escpos_tcp_tests and
//! escpos_till_jobs_tests.
//!
//! They stand apart from what they test because tests are proved together with the functions of their crate: here no function
//! is proved a second time for them. A test that looks into a value stands in the crate of that value.
//!
//! `arguments` is of the jobs without a till, `options` of their widths, pictures and replacements, `probe` of `probe` and
//! `completions`, `till` of a till's words;
//! `memory` lets each allocation of a call fail in turn. What they share is in `support`.
#![tactic(auto)]

#[cfg(test)]
mod arguments;
#[cfg(test)]
mod memory;
#[cfg(test)]
mod options;
#[cfg(test)]
mod probe;
#[cfg(test)]
mod support;
#[cfg(test)]
mod till;
