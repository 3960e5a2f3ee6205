//! The arguments of the command line: which task of escpos_jobs, escpos_till_jobs or escpos_probe they ask for.
//!
//! `arguments`, `till` and `probe` have `clap` read them, `queue` reads what follows that word, `emulate` reads that of that word, `form`, `width`, `options` and `image` read these settings; `specs/Arguments.antt`,
//! `specs/TillArguments.antt` and `specs/ProbeArguments.antt` define what they ask for. Doing it is left to
//! escpos_jobs, escpos_till_jobs and escpos_probe, and the texts of usage and help to escpos_help. `completions` has the scripts for shells.
#![tactic(auto)]

mod arguments;
mod completions;
mod emulate;
mod form;
mod image;
mod options;
mod probe;
mod queue;
mod till;
mod width;

pub use arguments::{
    LINKS, MOST_LINKS, MOST_OPENINGS, MOST_WAIT, OPENINGS, asks_version, task_of, without_name,
};
pub use completions::{Shell, completions_of, is_completions_word};
pub use probe::{is_probe_word, probe_task_of};
pub use till::{is_till_word, till_task_of};
