//! Where a printer is reached, and the links to it.
//!
//! `address` reads the text of an address, and connects to it; `printer_link` and `device_file` are the links to it, over TCP and to a
//! device's file. Over the network of `wait` no wait lasts longer than a given time. What is said over a link is left to others.
#![tactic(auto)]

pub mod address;
pub mod device_file;
pub mod printer_link;
pub mod wait;
