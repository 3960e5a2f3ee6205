//! What the tests share: steps that are done to a host, and what must come of them.
//!
//! No test stands here. A test imports from here and from the crates that it tests, never from another test's file.

pub mod calls;
pub mod hosts;
pub mod long;
pub mod sending;
pub mod texts;
pub mod wide;
