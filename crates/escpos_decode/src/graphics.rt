//! The states of graphics: the length of a function of GS ( L or GS 8 L, its letter, and what follows.
//!
//! The length says how many bytes of dots follow, whatever size is sent before them.

ghost use Rattle.std.specs.Prelude.{ℕ, List, ◌<◌, IsTrue};
ghost use Rattle.escpos_command.specs.declared.graphics.GraphicsForm.{GraphicsForm};
ghost use Rattle.escpos_command.specs.Graphics.{is_graphics_length};
ghost use Rattle.escpos_decode.specs.State.{NextIs};
ghost use Rattle.escpos_decode.specs.declared.state.State.TheVariants as state;

use crate::state::{Ending, Next, State};
use escpos_command::{
    COUNTED_BEFORE, Command, GraphicsForm, GraphicsFunction, GraphicsHead, is_graphics_factor,
    is_graphics_length, is_graphics_width, is_height, is_long_length, long_length,
};

/// The high byte of a length of two bytes.
pub fn length(low: u8, byte: u8) -> Next
    ensures { (read : List ℕ) → NextIs result (state.GraphicsLengthHigh low) read byte }
{
    let length = u32::from(u16::from_le_bytes([low, byte]));
    if is_graphics_length(length) {
        Next::To(State::GraphicsMode {
            form: GraphicsForm::Short,
            length,
        })
    } else {
        Next::Refused
    }
}

/// The third byte of a length of four bytes.
pub fn long_third(first: u8, second: u8, byte: u8) -> Next
    ensures { (read : List ℕ) → NextIs result (state.LongLengthThird first second) read byte }
{
    let length = long_length(first, second, byte);
    if is_long_length(length) {
        Next::To(State::LongLengthFourth { length })
    } else {
        Next::Refused
    }
}

/// The function.
pub fn function(form: GraphicsForm, length: u32, byte: u8) -> Next
    requires { IsTrue (is_graphics_length length) }
    ensures { (read : List ℕ) → NextIs result (state.GraphicsFunction form length) read byte }
{
    if length == 2 {
        return print(byte);
    }
    if byte == b'p' {
        Next::To(State::GraphicsTone {
            form,
            count: length - COUNTED_BEFORE,
        })
    } else {
        Next::Refused
    }
}

// A function that prints, which ends the command.
fn print(byte: u8) -> Next
    ensures { (form : GraphicsForm) (read : List ℕ) → NextIs result (state.GraphicsFunction form 2) read byte }
{
    match GraphicsFunction::new(byte) {
        Some(function) => Next::Done(Command::GraphicsPrint(function)),
        None => Next::Refused,
    }
}

/// The factor of dots across.
pub fn across(form: GraphicsForm, count: u32, byte: u8) -> Next
    requires { 0 < count }
    ensures { (read : List ℕ) → NextIs result (state.GraphicsAcross form count) read byte }
{
    if is_graphics_factor(byte) {
        Next::To(State::GraphicsDown {
            form,
            count,
            across: byte,
        })
    } else {
        Next::Refused
    }
}

/// The factor of dots down.
pub fn down(form: GraphicsForm, count: u32, across: u8, byte: u8) -> Next
    requires { 0 < count }
    ensures { (read : List ℕ) → NextIs result (state.GraphicsDown form count across) read byte }
{
    if is_graphics_factor(byte) {
        Next::To(State::GraphicsColor {
            form,
            count,
            across,
            down: byte,
        })
    } else {
        Next::Refused
    }
}

/// The high byte of the width.
pub fn width(form: GraphicsForm, count: u32, across: u8, down: u8, low: u8, byte: u8) -> Next
    requires { 0 < count }
    ensures { (read : List ℕ) → NextIs result (state.GraphicsWidthHigh form count across down low) read byte }
{
    let width = u16::from_le_bytes([low, byte]);
    if is_graphics_width(width) {
        Next::To(State::GraphicsHeight {
            form,
            count,
            across,
            down,
            width,
        })
    } else {
        Next::Refused
    }
}

/// The high byte of the height, after which the dots follow.
pub fn height(
    form: GraphicsForm,
    count: u32,
    across: u8,
    down: u8,
    width: u16,
    low: u8,
    byte: u8,
) -> Next
    requires { 0 < count }
    ensures { (read : List ℕ) → NextIs result (state.GraphicsHeightHigh form count across down width low) read byte }
{
    let height = u16::from_le_bytes([low, byte]);
    if !is_height(height) {
        return Next::Refused;
    }
    let head = GraphicsHead {
        form,
        across,
        down,
        width,
        height,
    };
    Next::Room(
        State::GraphicsDots {
            head,
            count,
            wanted: count,
        },
        count as usize,
    )
}

/// A byte of the dots of graphics.
pub fn dots(head: GraphicsHead, count: u32, wanted: u32, byte: u8) -> Next
    requires { 0 < wanted }
    ensures { (read : List ℕ) → NextIs result (state.GraphicsDots head count wanted) read byte }
{
    if wanted == 1 {
        Next::Last(Ending::Graphics(head))
    } else {
        Next::Keep(State::GraphicsDots {
            head,
            count,
            wanted: wanted - 1,
        })
    }
}
