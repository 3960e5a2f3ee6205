//! Text on paper: which Unicode character a printer prints for a byte, and which bytes print a text.
//!
//! `reading` says what a byte prints, by the international character set and the code table in force, and which byte prints a
//! character. `tables` has the code tables, `sets` the character sets.
//!
//! `encoding` has what is in force where a text is written, with a `choice` of code tables; `placing` finds where a character
//! stands, and `writing` writes a text.
//!
//! `specs/Reading.antt` defines what a byte reads as, `specs/Writing.antt` how a text is written.
#![tactic(auto)]

mod choice;
mod encoding;
pub mod laws;
mod placing;
mod plain;
mod reading;
mod sets;
mod tables;
mod writing;

pub use choice::{Choice, MOST_TABLES};
pub use encoding::{Encoding, Replacement, TextFault};
pub use plain::first_not_plain;
pub use reading::{byte_for, reads};
pub use writing::{write_characters, write_text};
