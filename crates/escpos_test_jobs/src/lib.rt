//! Jobs of the program over memory, as several crates of tests run them: what a job reads, what it writes, and its status.
//!
//! Only tests may abort, so nothing is asserted here: a check says whether a job did what it should.
#![tactic(auto)]

mod jobs;
mod tasks;

pub use jobs::{NoNetwork, Row, is_whole, performs, performs_rows, prints, run_job};
pub use tasks::{
    check_task, draw_task, encode_task, passing_check_task, passing_draw_task, passing_render_task,
    raw_check_task, raw_draw_task, raw_encode_task, raw_render_task, raw_render_text_task,
    render_task, render_text_task,
};
