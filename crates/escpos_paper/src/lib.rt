//! What a printer's commands put on paper: styles, lines cut into rows, barcodes and rasters, and the paper as text.
//!
//! A `Page` takes commands one at a time and keeps the items that they print until they are torn off, the settings and the line
//! that isn't printed yet. How wide a line is, is fixed when a page is made. The definitions of `specs/` say the same of a whole
//! list of commands, and look back in it instead of keeping anything.
//!
//! `page` has the page, and `paper` what one command does to the items, the settings and the line. `style` has the settings,
//! `cell` a character in its style, `print_buffer` the line that isn't printed yet, and `item` what is printed. `barcode`
//! makes items of barcodes, rasters and graphics, whose bytes `content` keeps without copying them, and `digits` has check digits.
//! `text` is the text of an item, `write` that of the paper. `laws` has what follows from the definitions.
#![tactic(auto)]

mod barcode;
mod cell;
mod content;
mod digits;
mod item;
pub mod laws;
mod page;
mod paper;
mod print_buffer;
mod qr_store;
mod stops;
mod style;
mod text;
mod write;

pub use barcode::added_digit;
pub use cell::{Cell, Cells, LINE_CELLS, face_dots, face_rows};
pub use content::{CONTENT_BYTES, Content, DOT_BYTES, Dots, QrContent};
pub use digits::{all_digits, check_digit, check_digit_of, expanded};
pub use item::Item;
pub use page::Page;
pub use paper::MOST_ITEMS;
pub use stops::{MOST_STOPS, Stops};
pub use style::{BarStyle, LineStyle, Placing, QrStyle, Settings, Style};
pub use write::write_items;
