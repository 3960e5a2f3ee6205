//! Receipts, and the text in JSON that they are read from.
//!
//! `receipt` says what a receipt is: commands that print whole, wherever they stand. `json` reads one from text in JSON,
//! and `entry` each of its entries, whose texts (`spelled_text`) stay where they stand if they are ASCII; `options` is what the text doesn't say. `entries` says whether
//! the entries are a receipt, without a list of their commands, and `codes` whether a printer prints their barcodes and QR codes. `member` has the names of the members that an entry may
//! have, `json_value`, `json_object` and `qr_code` read what these hold, and `json_names` has the names in it. The definitions are those
//! of `specs/Whole.antt` (what a receipt is), `specs/Printable.antt` (which codes a printer leaves out), `specs/Entries.antt` (the table of members), `specs/EntryCommands.antt` (the
//! commands of an entry) and `specs/Describes.antt` (what a text describes, and why it is refused). How a receipt is printed
//! is left to escpos_host.
#![tactic(auto)]

mod codes;
mod entries;
mod entry;
mod in_force;
mod json;
mod json_names;
mod json_object;
mod json_value;
pub mod laws;
mod layout;
mod member;
mod options;
mod qr_code;
mod receipt;
mod spelled_text;

pub use codes::is_left_out;
pub use entry::Entry;
pub use json::{JsonError, JsonFault, ReceiptText};
pub use options::ReceiptOptions;
pub use receipt::{Receipt, ReceiptFault};
pub use spelled_text::SpelledText;
