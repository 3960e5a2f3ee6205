//! Receipts that the tests from the host up share: their texts in JSON, what is read of them, and long texts made of parts.
//!
//! Only tests may abort, so nothing is asserted here: a value comes as an `Option` or a `Result`, and a check says what it found.
#![tactic(auto)]

mod reasons;
mod receipts;
mod texts;

pub use reasons::faults;
pub use receipts::{
    A, B, EVERY_MEMBER, S, SENT, are_line, have_lines, read_receipt, receipt_at_last,
};
pub use texts::{filled, joined};
