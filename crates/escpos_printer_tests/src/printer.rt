//! The printer (escpos_printer).

mod link;
mod pieces;
mod rows;
mod texts;
