//! ESC/POS commands of the Kolatennis profile: values, spellings, and the laws that join them.
//!
//! `command` has the commands, `setting` the table of those that only set something, and `parameter` the parameters of others;
//! `mark` has the ids of marks, `bars` barcodes, `raster`
//! rasters, `graphics` pictures that are stored, and `qr` the data of QR codes, whose bytes are a `content`. `bytes` has the control bytes, `chars` makes commands of a text. `spelling` gives
//! the bytes of a command, and `writing` puts those of a list. `answer` has what a printer answers, `automatic_status` what it
//! says unasked, and `fault` why a byte is refused. `line_width` has how wide a line is, which no command says.
//!
//! `specs/CommandTable.antt` is the command table, `specs/Grammar.antt` defines what a byte list says by that table alone,
//! and `laws` has what follows from it. The crate above reads bytes.
#![tactic(auto)]

mod answer;
mod automatic_status;
mod bars;
mod bytes;
mod chars;
mod command;
mod content;
mod fault;
mod graphics;
pub mod laws;
mod line_width;
mod mark;
mod parameter;
mod qr;
mod raster;
mod setting;
mod spelling;
mod writing;

pub use answer::Answer;
pub use automatic_status::{AutomaticStatus, begins_block, continues_block};
pub use bars::{BarFault, Bars, Form, Symbology, is_codabar, is_codabar_end, is_code39, is_digit};
pub use bytes::{CR, DLE, EOT, ESC, FS, GS, HT, LF};
pub use chars::{CharsFault, chars_of};
pub use command::{Command, LONGEST_PREFIX, Parts};
pub use content::Bytes;
pub use fault::FaultReason;
pub use graphics::{
    COUNTED_BEFORE, Graphics, GraphicsFault, GraphicsForm, GraphicsHead, WIDEST_GRAPHICS,
    is_graphics_factor, is_graphics_length, is_graphics_width, is_long_length, long_length,
};
pub use line_width::{LineWidth, MOST_LINE_DOTS, USUAL_LINE_DOTS};
pub use mark::{MarkId, is_mark_byte};
pub use parameter::{
    Alignment, Character, Correction, Cut, FeedLines, FeedUnits, FontFace, GraphicsFunction,
    HriPosition, OldCut, Position, PositionKind, Pulse, QrLevel, QrModel, QrSize, Reporting, Scale,
    StatusKind, TabStops, alignment_of, choice, face_of, face_of_mode, has_bit, hri_position_of,
    magnified, size_height, size_width, underline_of_mode,
};
pub use qr::{MOST_QR_DATA, QrData};
pub use raster::{HIGHEST, Raster, RasterFault, WIDEST, is_height, is_scale, is_width};
pub use setting::{Row, Setting, SettingKind, TABLE, Values};
pub use spelling::LONGEST_SPELLING;
pub use writing::write_commands;
