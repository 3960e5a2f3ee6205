//! What the tests share: long texts, made of parts, with jobs that print them, and tasks by their names.
//!
//! No test stands here. A test imports from here and from the crates that it tests, never from another test's file.

pub mod long;
pub mod tasks;
