//! What the tests share: the entries of a ledger as constant data and by their numbers, the calls of a store, and the steps that they
//! take with a ledger in files.
//!
//! No test stands here. A test imports from here and from the crates that it tests, never from another test's file.

pub mod calls;
pub mod kept;
pub mod ledgers;
pub mod numbered;
pub mod plain;
