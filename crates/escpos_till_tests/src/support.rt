//! What the tests share: a till as constant data, the calls of its machine, the steps that they take with a machine told by hand and with
//! one that is driven, and values that are made where memory is refused.
//!
//! No test stands here. A test imports from here and from the crates that it tests, never from another test's file.

pub mod at_last;
pub mod by_hand;
pub mod calls;
pub mod driven;
pub mod line;
pub mod plain;
