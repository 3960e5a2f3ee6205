//! What the tests share: values that many of them take, and checks that many of them make.
//!
//! No test stands here. A test imports from here and from the crates that it tests, never from another test's file.

pub mod asked;
pub mod jobs;
pub mod over_memory;
pub mod sending;
pub mod sensors;
pub mod serving;
pub mod sockets;
pub mod steps;
