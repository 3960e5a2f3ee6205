//! What the tests share: steps that are done to printers and pages, and what must come of them.
//!
//! No test stands here. A test imports from here and from the crates that it tests, never from another test's file.

pub mod items;
pub mod links;
pub mod marks;
pub mod page_again;
pub mod pages;
pub mod printers;
