//! What the program may be asked to do: `task` has what that is, and `perform` does it, over any source, sink and network.
//!
//! Each job stands in a crate below: those over streams in escpos_stream_jobs, those over a link in escpos_tcp_jobs, `play` in
//! escpos_script; escpos_help has the texts of usage and help. escpos_arguments reads the command line.
#![tactic(auto)]

pub mod perform;
pub mod task;
