//! The commands of the Reference that have no meaning here, but a length: a reader may pass over them.
//!
//! `table` has a row for each with the bytes that it begins with and how its length is told, `length` reads that length,
//! and `finding` says whether such a command begins some bytes. `reading` is the loop over a whole stream, which gives what it takes to
//! a consumer. `name` is what a listing calls such a command, and `laws` has the laws of the larger table.
#![tactic(auto)]

mod finding;
pub mod laws;
mod length;
mod name;
mod reading;
mod table;

pub use finding::{Found, find};
pub use name::Name;
pub use reading::{End, Stop, TokenConsumer, read_tokens};
pub use table::{Counted, Except, Form, Number, Prefix, Row, TABLE};
