//! The paper as plain text: a line for each item, and a row's line in the characters that a reader of the paper sees.
//!
//! `item` puts the line of an item, `write` those of all items. `laws` says what the rows show of a receipt's strings. The other text
//! of the paper, with a style for each cell and bytes as they were sent, is escpos_paper's.
//!
//! `specs/PlainText.antt` defines the text.
#![tactic(auto)]

mod item;
pub mod laws;
mod write;

pub use item::put_plain_item;
pub use write::write_plain_items;
