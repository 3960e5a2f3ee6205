//! Layouts of text in lines: wrapped text, a pair of texts on the left and on the right, fields side by side, and a line full of
//! one character. Texts come as characters in NFC, and go as the bytes of commands; nothing but those bytes is allocated.
//!
//! `columns` says how many characters a line has, and `row` has the fields of a row. `breaking` finds where a text is broken into
//! lines. `lines` appends the bytes of lines, `wrapped` those of wrapped texts and pairs, and `fields` those of rows; `writing` has
//! the calls. `laws` has what the definitions say, and what lines are on paper.
//!
//! `specs/Wrapped.antt` says what the lines of a text are to be, and `specs/Wrapping.antt` computes them. `specs/Layouts.antt` has the
//! lines of each layout, `specs/Writing.antt` how lines are written, and `specs/OnPaper.antt` what they are on paper.
//! `proofs/Worked.antt` shows small texts with their lines.
#![tactic(auto)]

mod breaking;
mod columns;
mod fields;
pub mod laws;
mod lines;
mod row;
mod wrapped;
mod writing;

pub use columns::Columns;
pub use row::{Characters, Field, Side, fits_line};
pub use writing::{write_pair, write_row, write_rule, write_wrapped};
