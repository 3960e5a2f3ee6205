//! Asks a printer, one thing after another, and tells what it answers and which premises that meets.
//!
//! `question` has what is asked, `answer` hears an answer from any source, `premises` says what the answers meet, `told` has the
//! lines, `task` has what may be asked for, and `asking` does it over TCP, on a link for each question.
#![tactic(auto)]

mod answer;
mod asking;
mod premises;
mod question;
mod task;
mod told;

pub use answer::{Answer, MOST_BYTES, hear};
pub use asking::{USUAL_WAIT, ask_over, probe};
pub use premises::Premises;
pub use question::{Form, MARK_ANSWER, QUESTIONS, Question, Shows};
pub use task::ProbeTask;
pub use told::{append_answer, append_premises};
