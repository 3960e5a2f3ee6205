//! The parameters of commands. Each is a type of its own whose values are exactly those of the command table. A parameter
//! keeps its byte as it was sent, so that a command has one spelling; a method says what the byte means.
//!
//! The model of each type is its number, and that of a cut its mode and feed. The id of a mark, four bytes with a number of
//! their own, has the module `mark`. A new parameter is a test in `specs/Parameters.antt`, a meaning in
//! `specs/Meanings.antt` and a type here.

mod character;
mod choices;
mod line;
mod position;
mod qr;

pub use character::Character;
pub use choices::{
    Alignment, Correction, FontFace, HriPosition, Scale, alignment_of, choice, face_of,
    face_of_mode, has_bit, hri_position_of, magnified, scale_by, scale_of, size_height, size_width,
    underline_of_mode,
};
pub use line::{Cut, FeedLines, FeedUnits, GraphicsFunction, OldCut, Pulse, Reporting, StatusKind};
pub use position::{Position, PositionKind, TabStops};
pub use qr::{QrLevel, QrModel, QrSize};
