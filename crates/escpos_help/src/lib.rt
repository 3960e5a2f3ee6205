//! What the program says of itself: `texts` has the texts of usage, version and help, `settings` the
//! help's lines of the table of settings, and `usage` prints the help.
#![tactic(auto)]

mod settings;
pub mod texts;
pub mod usage;
