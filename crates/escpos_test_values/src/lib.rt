//! Values that the tests of commands, of the decoder and of the printer share: bytes of streams, commands and their spellings, and
//! how values are compared.
//!
//! Only tests may abort, so nothing is asserted here: a value comes as an `Option` or a `Result`, and a check says what it found.
#![tactic(auto)]

mod bytes;
mod commands;
mod contents;
mod table;
mod values;

pub use bytes::{Stream, append_mark, bytes_of, marks};
pub use commands::{FIVE, MARK_35, five_commands_of, spell_to};
pub use contents::{
    BARCODE, BOTH, GRAPHICS, PICTURE, PRINT, STOPS, STORE, STREAM, barcode, is_spelled, picture,
    stored, stored_graphics, tab_stops,
};
pub use table::spellings;
pub use values::unlike;
