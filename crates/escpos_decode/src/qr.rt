//! The states of QR codes: the length of a function of GS ( k, its letter, and what follows.

ghost use Rattle.std.specs.Prelude.{ℕ, List, ◌<◌, ◌≤◌, ◌+◌, IsTrue};
ghost use Rattle.escpos_command.specs.Parameters.{is_qr_model};
ghost use Rattle.escpos_command.specs.QrCodes.{most_qr_data};
ghost use Rattle.escpos_decode.specs.State.{NextIs};
ghost use Rattle.escpos_decode.specs.declared.state.State.TheVariants as state;

use crate::one_parameter::OneParameter;
use crate::state::{Ending, Next, State};
use escpos_command::{Command, MOST_QR_DATA, QrModel};

/// The high byte of a length: it counts cn, the function and at least one byte more.
pub fn length(low: u8, byte: u8) -> Next
    ensures { (read : List ℕ) → NextIs result (state.QrLengthHigh low) read byte }
{
    let length = u16::from_le_bytes([low, byte]);
    if length < 3 || usize::from(length) > MOST_QR_DATA + 3 {
        return Next::Refused;
    }
    Next::To(State::QrCode { length })
}

/// The function. All but 80, which stores data, have one length.
pub fn function(length: u16, byte: u8) -> Next
    ensures { (read : List ℕ) → NextIs result (state.QrFunction length) read byte }
{
    match byte {
        b'A' if length == 4 => Next::To(State::QrModelNumber),
        b'C' if length == 3 => Next::To(State::Parameter(OneParameter::QrSize)),
        b'E' if length == 3 => Next::To(State::Parameter(OneParameter::QrLevel)),
        b'P' if length >= 4 => Next::To(State::QrStoreMode { length }),
        b'Q' if length == 3 => Next::To(State::QrPrintMode),
        _ => Next::Refused,
    }
}

/// The model.
pub fn model_number(byte: u8) -> Next
    ensures { (read : List ℕ) → NextIs result state.QrModelNumber read byte }
{
    match QrModel::new(byte) {
        Some(_) => Next::To(State::QrModelEnd { model: byte }),
        None => Next::Refused,
    }
}

/// The 00 after the model, which ends the command.
pub fn model_end(model: u8, byte: u8) -> Next
    requires { IsTrue (is_qr_model model) }
    ensures { (read : List ℕ) → NextIs result (state.QrModelEnd model) read byte }
{
    if byte != 0 {
        return Next::Refused;
    }
    match QrModel::new(model) {
        Some(model) => Next::Done(Command::QrModel(model)),
        None => unreachable!(),
    }
}

/// The byte m of function 80, after which the data follows.
pub fn store_mode(length: u16, byte: u8) -> Next
    requires { 4 ≤ length }
    ensures { (read : List ℕ) → NextIs result (state.QrStoreMode length) read byte }
{
    if byte != b'0' {
        return Next::Refused;
    }
    let wanted = length - 3;
    Next::Room(State::QrData { length, wanted }, usize::from(wanted))
}

/// A byte of the data of a QR code.
pub fn stored(length: u16, wanted: u16, byte: u8) -> Next
    requires { 0 < wanted }
    ensures { (read : List ℕ) → NextIs result (state.QrData length wanted) read byte }
{
    if wanted == 1 {
        Next::Last(Ending::QrStore)
    } else {
        Next::Keep(State::QrData {
            length,
            wanted: wanted - 1,
        })
    }
}

/// The byte m of function 81, which ends the command.
pub fn print_mode(byte: u8) -> Next
    ensures { (read : List ℕ) → NextIs result state.QrPrintMode read byte }
{
    if byte == b'0' {
        Next::Done(Command::QrPrint)
    } else {
        Next::Refused
    }
}
