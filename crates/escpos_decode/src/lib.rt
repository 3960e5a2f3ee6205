//! Bytes to commands: a decoder that takes one byte at a time, and can stop and go on at any byte.
//!
//! `decoder` has the call that matters, `Decoder::push`. Its contract uses only the definitions of `escpos_command`, and
//! leaves open how the half command is kept. `state` has the states that the decoder passes through, with `one_parameter`
//! and `content` for those of one parameter and those of barcodes and rasters, `qr` and `graphics` for those of QR codes and
//! graphics. `reading` is the loop over the bytes of a
//! piece, open to whatever is done with the commands, and `stream` runs it over a whole stream in pieces, with the round
//! trip of encoder and decoder as its contract.
#![tactic(auto)]

mod content;
mod decoder;
mod graphics;
mod one_parameter;
mod qr;
mod reading;
mod state;
mod stream;

pub use decoder::{Ahead, DecodeFault, Decoder, Step};
pub use reading::{Consumer, Stop, read_piece};
pub use stream::{Decoded, End, decode};
