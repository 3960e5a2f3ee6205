//! The job `play`: a script of what happens on a line between a host and a printer.
//!
//! `script` reads the lines of a script, `play` lets each happen to a line, and `script_output` has the lines that it prints of it. The
//! line itself is that of escpos_link.
#![tactic(auto)]

pub mod play;
pub mod script;
mod script_output;
