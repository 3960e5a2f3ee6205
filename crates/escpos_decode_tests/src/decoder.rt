//! The decoder (escpos_decode). Expected values are those of the command table.

mod barcodes;
mod graphics;
mod memory;
mod pieces;
mod qr_codes;
mod rasters;
mod rows;
mod table;
