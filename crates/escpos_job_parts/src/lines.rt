//! The lines of a listing, appended to the bytes that a gather keeps back.

ghost use Rattle.std.specs.Prelude.{◌≡◌, ◌≢◌, ◌+◌, ◌*◌, ◌/◌, ◌≤◌, ◌++◌, ◌∷◌, ℕ, List, length, codes, decimal};
ghost use Rattle.std.specs.List.{flat_map};
ghost use Rattle.escpos_job_parts.specs.Lines.{byte_value, command_line, end_line, fault_line, own_line, position_word, values_of, word_of};
ghost use Rattle.escpos_job_parts.specs.LastText.{last_text};
ghost use Rattle.escpos_job_parts.specs.Notes.{note_line};
ghost use Rattle.escpos_command.specs.declared.command.Command.TheVariants as kind;
ghost use Rattle.escpos_command.specs.Graphics.{stored_picture};
ghost use Rattle.escpos_io.specs.Giving.{IsGiven};
ghost use Rattle.escpos_io.specs.Putting.{passage};
ghost use Rattle.hex.specs.Hex.{encode_lower};

use crate::ending::MEMORY;
use crate::notes::{WrongDigit, wrong_digit};
use crate::places::PlaceText;
use crate::real_time::put_note;
use escpos_command::{Bars, Command, FaultReason, GraphicsHead, LF, PositionKind, QrData, Raster};
use escpos_io::{
    ByteOut, Device, GATHERED_BYTES, Gather, Piece, append_digits_after, append_number,
    append_small_number, put_digits,
};

/// The byte between the parts of a line.
pub const SPACE: u8 = 0x20;

const _: () = prove!(SPACE == 32);

/// More than the line of any command has, with the note on it, but for the data of a QR code.
pub const LINE_BYTES: usize = 1024;

const _: () = prove!(LINE_BYTES == 1024);

/// The most bytes that the last line of a text has.
const LAST_BYTES: usize = 128;

const _: () = prove!(LAST_BYTES == 128);

/// The last line of a text.
#[derive(Clone, Copy, Debug, PartialEq, Eq)]
pub enum Last {
    /// There is no last line.
    Nothing,
    /// All `count` bytes were read, and the last `half` of them are a half command.
    End { count: usize, half: usize },
    /// The byte at this place was refused.
    Fault { place: usize, why: FaultReason },
    /// Out of memory.
    Memory,
}

impl Piece for Last {
    ghost bytes = { last_text };

    fn put<W: ByteOut>(&self, gather: &mut Gather, writer: &mut W) -> Result<(), Device> {
        gather.room(LAST_BYTES, writer)?;
        match self {
            Last::Nothing => {}
            Last::End { count, half } => append_end(gather, *count, *half),
            Last::Fault { place, why } => append_fault(gather, *place, *why),
            Last::Memory => gather.extend(MEMORY),
        }
        Ok(())
    }
}

/// Gives the line of a command that has `place` bytes before it, and the notes on it.
///
/// On `Err` the sink has failed, and took exactly the first `written` of all bytes ever given to the gather, as long as these are
/// few enough to be counted.
pub fn put_line<W: ByteOut>(
    gather: &mut Gather,
    place: usize,
    command: &Command,
    writer: &mut W,
) -> Result<(), Device>
    ensures { IsGiven result (passage (W.written writer.old) (W.written writer.new) (W.failed writer.old) (W.failed writer.new))
        gather.old gather.new (command_line place command.now) }
{
    put_own_line(gather, place, command, writer)?;
    put_note(gather, place, command, writer)
}

// Gives the line of a command, and the note on its check digit.
fn put_own_line<W: ByteOut>(
    gather: &mut Gather,
    place: usize,
    command: &Command,
    writer: &mut W,
) -> Result<(), Device>
    ensures { IsGiven result (passage (W.written writer.old) (W.written writer.new) (W.failed writer.old) (W.failed writer.new))
        gather.old gather.new (own_line place command.now) }
{
    match command {
        Command::QrStore(stored) => put_store(gather, place, stored, writer),
        _ => {
            gather.room(LINE_BYTES, writer)?;
            append_line(gather, place, command);
            Ok(())
        }
    }
}

// Gives the line of a store of a QR code: its data in parts.
fn put_store<W: ByteOut>(
    gather: &mut Gather,
    place: usize,
    stored: &QrData,
    writer: &mut W,
) -> Result<(), Device>
    ensures { IsGiven result (passage (W.written writer.old) (W.written writer.new) (W.failed writer.old) (W.failed writer.new))
        gather.old gather.new (own_line place (kind.QrStore stored.now)) }
{
    gather.room(LINE_BYTES, writer)?;
    append_store(gather, place);
    put_digits(gather, stored.as_slice(), writer)?;
    gather.put(&[LF], writer)
}

// Appends what comes before the data of a QR code.
fn append_store(gather: &mut Gather, place: usize)
    requires { length gather.old.kept + LINE_BYTES ≤ GATHERED_BYTES }
    ensures kept { gather.new.kept ≡ gather.old.kept ++ (decimal place ++ codes " qrstore ") }
    ensures same_count { gather.new.written ≡ gather.old.written }
{
    append_number(gather, place);
    gather.extend(b" qrstore ");
}

// Appends the line of a command that has `place` bytes before it.
fn append_line(gather: &mut Gather, place: usize, command: &Command)
    requires no_data { (stored : List ℕ) → command.now ≢ kind.QrStore stored }
    requires room { length gather.old.kept + LINE_BYTES ≤ GATHERED_BYTES }
    ensures kept { gather.new.kept ≡ gather.old.kept ++ own_line place command.now }
    ensures same_count { gather.new.written ≡ gather.old.written }
{
    append_number(gather, place);
    gather.push(SPACE);
    gather.extend(word(command));
    append_values(gather, command);
    gather.push(LF);
    if let Command::Bars(bars) = command {
        append_note(gather, place, wrong_digit(bars));
    }
}

/// Appends the line of a character that has `place` bytes before it.
pub fn append_character(gather: &mut Gather, places: &mut PlaceText, place: usize, byte: u8)
    requires { length gather.old.kept + LINE_BYTES ≤ GATHERED_BYTES }
    ensures kept { gather.new.kept ≡ gather.old.kept ++ command_line place (kind.Char byte) }
    ensures same_count { gather.new.written ≡ gather.old.written }
    ensures last { places.new ≡ place / 10 }
{
    places.append(gather, place);
    gather.extend(b" char");
    append_byte(gather, byte);
    gather.push(LF);
}

// Appends the note on a barcode with a wrong check digit.
fn append_note(gather: &mut Gather, place: usize, wrong: Option<WrongDigit>)
    requires { length gather.old.kept + 64 ≤ GATHERED_BYTES }
    ensures kept { gather.new.kept ≡ gather.old.kept ++ note_line place wrong }
    ensures same_count { gather.new.written ≡ gather.old.written }
{
    if let Some(wrong) = wrong {
        gather.extend(b"note ");
        append_number(gather, place);
        gather.extend(b" check digit ");
        append_small_number(gather, wrong.given);
        gather.extend(b", right ");
        append_small_number(gather, wrong.right);
        gather.push(LF);
    }
}

fn append_end(gather: &mut Gather, count: usize, half: usize)
    requires { length gather.old.kept + LAST_BYTES ≤ GATHERED_BYTES }
    ensures kept { gather.new.kept ≡ gather.old.kept ++ end_line count half }
    ensures same_count { gather.new.written ≡ gather.old.written }
    ensures short { length (end_line count half) ≤ LAST_BYTES }
{
    gather.extend(b"end ");
    append_number(gather, count);
    gather.extend(b" pending ");
    append_number(gather, half);
    gather.push(LF);
}

fn append_fault(gather: &mut Gather, place: usize, why: FaultReason)
    requires { length gather.old.kept + LAST_BYTES ≤ GATHERED_BYTES }
    ensures kept { gather.new.kept ≡ gather.old.kept ++ fault_line place why }
    ensures same_count { gather.new.written ≡ gather.old.written }
    ensures short { length (fault_line place why) ≤ LAST_BYTES }
{
    gather.extend(b"fault ");
    append_number(gather, place);
    gather.push(SPACE);
    append_number(gather, usize::from(why.number()));
    gather.push(SPACE);
    gather.extend(why.name().as_bytes());
    gather.push(LF);
}

// The name of a command.
fn word(command: &Command) -> &'static [u8]
    ensures value { result.now ≡ word_of command.now }
    ensures short { length result.now ≤ 15 }
{
    match command {
        Command::Char(_) => b"char",
        Command::Tab => b"tab",
        Command::LineFeed => b"lf",
        Command::Return => b"cr",
        Command::Init => b"init",
        Command::Set(setting) => setting.kind().name().as_bytes(),
        Command::AutomaticStatus(_) => b"autostatus",
        Command::FeedLines(_) => b"feed",
        Command::FeedUnits(_) => b"units",
        Command::Position(position) => position_word(position.kind()),
        Command::TabStops(_) => b"tabstops",
        Command::Pulse(_) => b"pulse",
        Command::Bars(_) => b"bars",
        Command::Raster(_) => b"raster",
        Command::GraphicsStore(_) => b"graphics",
        Command::GraphicsPrint(_) => b"graphicsprint",
        Command::QrModel(_) => b"qrmodel",
        Command::QrSize(_) => b"qrsize",
        Command::QrLevel(_) => b"qrlevel",
        Command::QrStore(_) => b"qrstore",
        Command::QrPrint => b"qrprint",
        Command::Cut(_) => b"cut",
        Command::OldCut(_) => b"oldcut",
        Command::Status(_) => b"status",
        Command::Mark(_) => b"mark",
    }
}

// The name of a position.
fn position_word(kind: PositionKind) -> &'static [u8]
    ensures value { result.now ≡ position_word kind }
    ensures short { length result.now ≤ 15 }
{
    match kind {
        PositionKind::Absolute => b"position",
        PositionKind::Relative => b"move",
        PositionKind::LeftMargin => b"margin",
        PositionKind::AreaWidth => b"width",
    }
}

// Appends what follows the name: a space and two digits for each parameter byte, a space and the id of a mark, or what a
// barcode, a raster or graphics carry.
fn append_values(gather: &mut Gather, command: &Command)
    requires no_data { (stored : List ℕ) → command.now ≢ kind.QrStore stored }
    requires room { length gather.old.kept + 520 ≤ GATHERED_BYTES }
    ensures kept { gather.new.kept ≡ gather.old.kept ++ values_of command.now }
    ensures same_count { gather.new.written ≡ gather.old.written }
    ensures short { length (values_of command.now) ≤ 520 }
{
    match command {
        Command::Char(character) => append_byte(gather, character.byte()),
        Command::Mark(id) => {
            gather.push(SPACE);
            gather.extend(&id.bytes());
        }
        Command::Bars(bars) => append_bars(gather, bars),
        Command::Raster(raster) => append_raster(gather, raster),
        Command::GraphicsStore(graphics) => append_graphics(gather, graphics.head()),
        Command::TabStops(stops) => append_bytes(gather, stops.as_slice()),
        _ => append_bytes(gather, command.parts().parameters.as_slice()),
    }
}

// Appends the mode and the content of a barcode.
fn append_bars(gather: &mut Gather, bars: &Bars)
    requires { length gather.old.kept + 520 ≤ GATHERED_BYTES }
    ensures kept { gather.new.kept ≡ gather.old.kept ++ values_of (kind.Bars bars.now) }
    ensures same_count { gather.new.written ≡ gather.old.written }
    ensures short { length (values_of (kind.Bars bars.now)) ≤ 520 }
{
    append_byte(gather, bars.mode());
    gather.push(SPACE);
    append_digits(gather, bars.content());
}

// Appends the digits of a content.
fn append_digits(gather: &mut Gather, bytes: &[u8])
    requires few { length bytes.now ≤ 255 }
    requires room { length gather.old.kept + 510 ≤ GATHERED_BYTES }
    ensures kept { gather.new.kept ≡ gather.old.kept ++ encode_lower bytes.now }
    ensures same_count { gather.new.written ≡ gather.old.written }
    ensures short { length (encode_lower bytes.now) ≤ 510 }
{
    let mut room = [0; 510];
    let digits = &mut room[..2 * bytes.len()];
    hex::encode_to_slice(bytes, digits).unwrap();
    gather.extend(digits);
}

// Appends the scale and the size of a raster.
fn append_raster(gather: &mut Gather, raster: &Raster)
    requires { length gather.old.kept + 64 ≤ GATHERED_BYTES }
    ensures kept { gather.new.kept ≡ gather.old.kept ++ values_of (kind.Raster raster.now) }
    ensures same_count { gather.new.written ≡ gather.old.written }
    ensures short { length (values_of (kind.Raster raster.now)) ≤ 64 }
{
    append_byte(gather, raster.mode());
    gather.push(SPACE);
    append_number(gather, usize::from(raster.width()));
    gather.push(SPACE);
    append_number(gather, usize::from(raster.height()));
}

// Appends the factors and the size of graphics.
fn append_graphics(gather: &mut Gather, head: GraphicsHead)
    requires { length gather.old.kept + 64 ≤ GATHERED_BYTES }
    ensures kept { (dots : List ℕ) → gather.new.kept ≡ gather.old.kept ++ values_of (kind.GraphicsStore (stored_picture head dots)) }
    ensures same_count { gather.new.written ≡ gather.old.written }
    ensures short { (dots : List ℕ) → length (values_of (kind.GraphicsStore (stored_picture head dots))) ≤ 64 }
{
    append_byte(gather, head.across);
    append_byte(gather, head.down);
    gather.push(SPACE);
    append_number(gather, usize::from(head.width));
    gather.push(SPACE);
    append_number(gather, usize::from(head.height));
}

/// Appends a space and two digits for each byte.
pub fn append_bytes(gather: &mut Gather, bytes: &[u8])
    requires room { length gather.old.kept + 3 * length bytes.now ≤ GATHERED_BYTES }
    ensures kept { gather.new.kept ≡ gather.old.kept ++ flat_map byte_value bytes.now }
    ensures same_count { gather.new.written ≡ gather.old.written }
    ensures short { length (flat_map byte_value bytes.now) ≡ 3 * length bytes.now }
{
    for byte in bytes {
        append_byte(gather, *byte);
    }
}

/// Appends a space and the two digits of a byte.
pub fn append_byte(gather: &mut Gather, byte: u8)
    requires { length gather.old.kept + 3 ≤ GATHERED_BYTES }
    ensures kept { gather.new.kept ≡ gather.old.kept ++ byte_value byte }
    ensures same_count { gather.new.written ≡ gather.old.written }
    ensures short { length (byte_value byte) ≡ 3 }
{
    append_digits_after(gather, SPACE, byte);
}
