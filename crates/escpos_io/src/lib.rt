//! Bytes in and bytes out: all that the cores know of the world.
//!
//! `device` has the two traits that every core of this repository is written over, and says what they promise.
//! `incoming` and `outgoing` are the devices of a program, standard readers and writers; `memory_in` and
//! `memory_out` are slices, for tests; `source` has the state that the two sources share, and `cause` why a device fails.
//! `reading` and `putting` move a whole run of bytes, `gather` joins small pieces to large ones, `pieces` puts a list of
//! values, each as its bytes, `hexadecimal` puts bytes as digits, and `numbers` appends a number as text. `laws` has what
//! follows for a gather. Nothing here knows a command.
#![tactic(auto)]

mod cause;
mod device;
mod gather;
mod hexadecimal;
mod incoming;
pub mod laws;
mod memory_in;
mod memory_out;
mod numbers;
mod outgoing;
mod pieces;
mod putting;
mod reading;
mod source;

pub use device::{ByteIn, ByteOut, Failed};
pub use gather::{GATHERED_BYTES, Gather};
pub use hexadecimal::put_digits;
pub use incoming::Incoming;
pub use memory_in::MemoryIn;
pub use memory_out::MemoryOut;
pub use numbers::{append_digits_after, append_number, append_small_number};
pub use outgoing::Outgoing;
pub use pieces::{PIECE_BYTES, Piece, put_pieces};
pub use putting::{Device, put_all};
pub use reading::{ReadError, read_to_end};
