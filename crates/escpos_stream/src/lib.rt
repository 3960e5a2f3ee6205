//! Bytes of other libraries as receipts.
//!
//! `stream` reads a stream of bytes, as python-escpos, escpos-php and others make it, as a receipt; `kept` has the commands of it that
//! are the receipt's, each with the place of its first byte, and `fault` says why a stream is none. `first_bytes` tells such a stream
//! from a text in JSON. The definitions are those of `specs/Streams.antt`. What a receipt is, is left to escpos_receipt, and the bytes
//! of commands to escpos_decode.
#![tactic(auto)]

mod fault;
mod first_bytes;
mod kept;
mod stream;

pub use fault::{StreamError, StreamFault};
pub use first_bytes::{begins_with_init, with_init};
pub use stream::stream_receipt;
