//! Real-time commands in the bytes of other commands.
//!
//! A printer carries out a real-time command as soon as its bytes have come, wherever they stand: also where they are dots
//! of a picture, or content of a barcode. `specs/RealTime.antt` says which bytes these are. `scan` finds them, and `laws`
//! says that none stands across the end of a command. What is done about them is left to the crates above.
#![tactic(auto)]

pub mod laws;
mod scan;

pub use scan::{holds_real_time, is_real_time};
