//! The tests of a till's words, as jobs. What is asked for by them is in escpos_arguments_tests, the till itself in escpos_till_tests.
//!
//! They stand apart from what they test because tests are proved together with the functions of their crate: here no function
//! is proved a second time for them. A test that looks into a value stands in the crate of that value.
//!
//! `words` is of what a till's words print, over a store in memory, `again` of a receipt that is taken once more, `raw` of streams of bytes,
//! and `failing` of those over a store that fails; `tasks` is of what is asked for, done with a ledger at a path; `renewing` is of a new ledger
//! that goes on from an older one; `shared` is of a delivery meanwhile others add entries; `memory` lets each allocation of a call fail in
//! turn. What they share is in `support`.
//!
//! Most tests are rows of steps, which are constants. One function plays them: it owns the store or the ledgers, and lends them to a function
//! for each step. A test that owned one would be proved with its drop, and one whose steps stood in its body with each of them.
#![tactic(auto)]

#[cfg(test)]
mod again;
#[cfg(test)]
mod failing;
#[cfg(test)]
mod memory;
#[cfg(test)]
mod raw;
#[cfg(test)]
mod renewing;
#[cfg(test)]
mod shared;
#[cfg(test)]
mod support;
#[cfg(test)]
mod tasks;
#[cfg(test)]
mod words;
