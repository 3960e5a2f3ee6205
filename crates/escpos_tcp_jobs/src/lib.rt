//! Jobs over a link, by TCP or to a device: being a printer, and sending to one.
//!
//! `emulate` is a printer, whose paper `paper_text` keeps; `watch` serves a link to a printer whose sensors are watched, which
//! `condition_file` has read from a file, and `watched_link` prints what came of it. `send` sends a receipt, and `printer_status` asks a
//! printer; `loop_link` is both ends of a link. Where a printer is reached is left to escpos_addresses.
#![tactic(auto)]

pub mod condition_file;
pub mod emulate;
pub mod loop_link;
pub mod paper_text;
pub mod printer_status;
pub mod send;
pub mod watch;
pub mod watched_link;
