//! Jobs over any source and sink, which need no printer: `check`, `render`, `draw`, `encode` and `image`.
//!
//! `job` has what `check` and `render` share, `item_form` the two texts of an item on paper, `passed_line` the line of a command that is passed over, and `byte_form` how `encode` writes either
//! form. `laws` has why the last line can stand in a picture as it is.
#![tactic(auto)]

mod byte_form;
pub mod check;
pub mod draw;
pub mod encode;
pub mod image;
mod item_form;
mod job;
pub mod laws;
mod passed_line;
pub mod render;
