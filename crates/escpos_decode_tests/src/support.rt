//! What the tests share: values that many of them take, and checks that many of them make.
//!
//! No test stands here. A test imports from here and from the crates that it tests, never from another test's file.

pub mod comparison;
pub mod decoders;
pub mod plain;
pub mod plain_graphics;
