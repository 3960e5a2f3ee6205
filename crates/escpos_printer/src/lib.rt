//! A receipt printer: it takes a stream of bytes in pieces, prints, and answers status requests and marks.
//!
//! `printer` has the core, which neither reads nor writes: a caller feeds it pieces and takes its answers. `waiting` has the
//! answers that wait, `condition` what its sensors say, and `serve` serves a link over any source and sink. `specs/Feeds.antt` defines what feeding a
//! piece does, and `specs/Serves.antt` what serving a link does; `laws` has what follows from them.
#![tactic(auto)]

mod condition;
pub mod laws;
mod printer;
mod serve;
mod waiting;

pub use condition::Condition;
pub use printer::{Fed, FeedStop, Printer};
pub use serve::{LinkEnd, Served, serve_link};
pub use waiting::MOST_WAITING;
