//! The commands of the profile, and how each is spelled.
//!
//! A command that only sets something is a row of the table in `setting`. Any other kind of command is a variant here with its
//! line in `Command::parts`, a line of the command table (`specs/CommandTable.antt`), a form of the tree of bytes
//! (`specs/Tree.antt`) and a case of the proofs over that tree; no proof is about a pair of kinds. docs/ARCHITECTURE.md says how
//! to find all places.

ghost use Rattle.std.specs.Prelude.{◌≡◌, ◌≤◌, ◌+◌, [], ◌∷◌, length, IsTrue, Some};
ghost use Rattle.std.specs.Option.{SomeIff};
ghost use Rattle.escpos_command.specs.CommandTable.{entry_of, barcode_entry, raster_entry, qr_model_entry, qr_store_entry, tab_stops_entry, graphics_entry, set_to, IsCommand};
ghost use Rattle.escpos_command.specs.SettingTable.{table, is_setting};
ghost use Rattle.escpos_command.specs.declared.command.Command.TheVariants as kind;

use crate::bars::{Bars, Form};
use crate::bytes::{CR, DLE, EOT, ESC, GS, HT, LF};
use crate::graphics::{COUNTED_BEFORE, Graphics, GraphicsForm};
use crate::mark::MarkId;
use crate::parameter::{
    Character, Cut, FeedLines, FeedUnits, GraphicsFunction, OldCut, Position, Pulse, QrLevel,
    QrModel, QrSize, Reporting, StatusKind, TabStops,
};
use crate::qr::QrData;
use crate::raster::Raster;
use crate::setting::{Setting, SettingKind};
use arrayvec::ArrayVec;

/// One command of the profile. Each parameter keeps its byte as sent, so a command has one spelling.
#[derive(Clone, Debug, Drop, PartialEq, Eq)]
pub enum Command {
    /// A character in the line. (Reference: "Printing characters".)
    Char(Character),
    /// HT: the next character stands at the next tab stop. (Reference: HT.)
    Tab,
    /// LF: prints the line and feeds one line. (Reference: LF.)
    LineFeed,
    /// CR: ignored. (Reference: CR.)
    Return,
    /// ESC @: drops the line and restores the power-on styles. (Reference: ESC @.)
    Init,
    /// One of the commands that only set something. (Reference: those that `SettingKind` names.)
    Set(Setting),
    /// ESC d: prints the line and feeds some lines. (Reference: ESC d.)
    FeedLines(FeedLines),
    /// ESC J: prints the line and feeds some motion units. (Reference: ESC J.)
    FeedUnits(FeedUnits),
    /// ESC $, ESC \\, GS L or GS W: where the next character stands, the left margin, or the width of the printing area.
    /// (Reference: ESC $, ESC \\, GS L, GS W.)
    Position(Position),
    /// ESC D: sets the tab stops. (Reference: ESC D.)
    TabStops(TabStops),
    /// ESC p: sends a pulse to the connector of the cash drawer. (Reference: ESC p.)
    Pulse(Pulse),
    /// GS k: prints a barcode. (Reference: GS k.)
    Bars(Bars),
    /// GS v 0: prints a raster. (Reference: GS v 0.)
    Raster(Raster),
    /// GS ( L or GS 8 L, function 112: stores graphics, if they have as many bytes of dots as their size says. (Reference: GS ( L and GS 8 L.)
    GraphicsStore(Graphics),
    /// GS ( L, function 50: prints the graphics that are stored, and stores none. (Reference: GS ( L.)
    GraphicsPrint(GraphicsFunction),
    /// GS ( k, function 65: sets the model of QR codes. (Reference: GS ( k.)
    QrModel(QrModel),
    /// GS ( k, function 67: sets the size of a module of QR codes. (Reference: GS ( k.)
    QrSize(QrSize),
    /// GS ( k, function 69: sets the level of error correction of QR codes. (Reference: GS ( k.)
    QrLevel(QrLevel),
    /// GS ( k, function 80: stores the data of QR codes. (Reference: GS ( k.)
    QrStore(QrData),
    /// GS ( k, function 81: prints the QR code of the data that is stored. (Reference: GS ( k.)
    QrPrint,
    /// GS V: cuts the paper. (Reference: GS V.)
    Cut(Cut),
    /// ESC i or ESC m: cuts the paper but for some points. (Reference: ESC i, ESC m.)
    OldCut(OldCut),
    /// GS a: sets whether the printer tells its condition unasked. (Reference: GS a.)
    AutomaticStatus(Reporting),
    /// DLE EOT: asks for a status byte. (Reference: DLE EOT.)
    Status(StatusKind),
    /// GS ( H, function 48: asks for an answer with this id once everything before it is done.
    /// (Reference: GS ( H.)
    Mark(MarkId),
}

/// The bytes of a command in four parts, one after another. The bytes of a barcode, a raster, graphics
/// or a QR code aren't copied.
#[derive(Debug, Drop)]
pub struct Parts<'a> {
    /// The fixed bytes that a command of this kind begins with; none for a character.
    pub prefix: &'static [u8],
    /// The parameter bytes, at most 14.
    pub parameters: ArrayVec<u8, 14>,
    /// The content of a barcode, the dots of a raster or of graphics, the data of a QR code or the columns of tab stops; none for all other commands.
    pub content: &'a [u8],
    /// The byte 00 that ends a barcode of form A, the model of QR codes or tab stops; none for all other commands.
    pub suffix: &'static [u8],
}

/// The most bytes that fixed bytes and parameters have together.
pub const LONGEST_PREFIX: usize = 17;

const _: () = prove!(LONGEST_PREFIX == 17);

impl Command {
    /// The command that sets this to a parameter; `None` where the table of settings doesn't allow it.
    pub fn set(kind: SettingKind, parameter: u8) -> Option<Self>
        ensures { SomeIff result (IsTrue (is_setting table (kind, Some parameter))) (set_to kind parameter) }
    {
        match Setting::new(kind, Some(parameter)) {
            Some(setting) => Some(Command::Set(setting)),
            None => None,
        }
    }

    /// The four parts of the spelling. Allocates nothing.
    // Without the attribute the compiler no longer inlines this once it has a second caller, and a listing calls it for
    // each character.
    #[inline]
    pub fn parts(&self) -> Parts<'_>
        ensures prefix { result.prefix.now ≡ (entry_of self.now).prefix }
        ensures parameters { result.parameters.items ≡ (entry_of self.now).parameters }
        ensures content { result.content.now ≡ (entry_of self.now).content }
        ensures suffix { result.suffix.now ≡ (entry_of self.now).suffix }
        ensures short { length result.prefix.now + length result.parameters.items ≤ LONGEST_PREFIX }
        ensures in_range { IsCommand self.now }
    {
        match self {
            Command::Char(character) => with(&[], character.byte()),
            Command::Tab => alone(&[HT]),
            Command::LineFeed => alone(&[LF]),
            Command::Return => alone(&[CR]),
            Command::Init => alone(&[ESC, b'@']),
            Command::Set(setting) => set(*setting),
            Command::FeedLines(feed) => with(&[ESC, b'd'], feed.byte()),
            Command::FeedUnits(feed) => with(&[ESC, b'J'], feed.byte()),
            Command::Position(position) => with_all(
                position.kind().prefix(),
                &position.units().to_le_bytes(),
            ),
            Command::TabStops(stops) => tab_stops(stops),
            Command::Pulse(pulse) => {
                with_all(&[ESC, b'p'], &[pulse.pin(), pulse.on(), pulse.off()])
            }
            Command::Bars(bars) => barcode(bars),
            Command::Raster(raster) => picture(raster),
            Command::GraphicsStore(stored) => stored_picture(stored),
            Command::GraphicsPrint(function) => {
                with(&[GS, b'(', b'L', 2, 0, b'0'], function.byte())
            }
            Command::QrModel(model) => qr_model(*model),
            Command::QrSize(size) => with(&[GS, b'(', b'k', 3, 0, b'1', b'C'], size.byte()),
            Command::QrLevel(level) => with(&[GS, b'(', b'k', 3, 0, b'1', b'E'], level.byte()),
            Command::QrStore(stored) => qr_store(stored),
            Command::QrPrint => alone(&[GS, b'(', b'k', 3, 0, b'1', b'Q', b'0']),
            Command::Cut(cut) => match cut.feed() {
                None => with(&[GS, b'V'], cut.mode()),
                Some(feed) => with_all(&[GS, b'V'], &[cut.mode(), feed]),
            },
            Command::OldCut(cut) => with(&[ESC], cut.letter()),
            Command::AutomaticStatus(reporting) => with(&[GS, b'a'], reporting.byte()),
            Command::Status(kind) => with(&[DLE, EOT], kind.byte()),
            Command::Mark(id) => mark(*id),
        }
    }
}

// Fixed bytes with no parameter.
fn alone(prefix: &'static [u8]) -> Parts<'static>
    ensures prefix { result.prefix.now ≡ prefix.now }
    ensures parameters { result.parameters.items ≡ [] }
    ensures content { result.content.now ≡ [] }
    ensures suffix { result.suffix.now ≡ [] }
{
    with_all(prefix, &[])
}

// Fixed bytes with one parameter byte.
fn with(prefix: &'static [u8], parameter: u8) -> Parts<'static>
    ensures prefix { result.prefix.now ≡ prefix.now }
    ensures parameters { result.parameters.items ≡ parameter ∷ [] }
    ensures content { result.content.now ≡ [] }
    ensures suffix { result.suffix.now ≡ [] }
{
    with_all(prefix, &[parameter])
}

// Fixed bytes with some parameter bytes.
fn with_all(prefix: &'static [u8], bytes: &[u8]) -> Parts<'static>
    requires { length bytes.now ≤ 14 }
    ensures prefix { result.prefix.now ≡ prefix.now }
    ensures parameters { result.parameters.items ≡ bytes.now }
    ensures content { result.content.now ≡ [] }
    ensures suffix { result.suffix.now ≡ [] }
{
    let mut parameters = ArrayVec::new();
    parameters.try_extend_from_slice(bytes).unwrap();
    Parts {
        prefix,
        parameters,
        content: &[],
        suffix: &[],
    }
}

// The parts of a setting.
fn set(setting: Setting) -> Parts<'static>
    ensures prefix { result.prefix.now ≡ (entry_of (kind.Set setting)).prefix }
    ensures parameters { result.parameters.items ≡ (entry_of (kind.Set setting)).parameters }
    ensures content { result.content.now ≡ [] }
    ensures suffix { result.suffix.now ≡ [] }
    ensures in_range { IsCommand (kind.Set setting) }
{
    let prefix = setting.kind().prefix();
    match setting.parameter() {
        None => alone(prefix),
        Some(parameter) => with(prefix, parameter),
    }
}

// The parts of a mark.
fn mark(id: MarkId) -> Parts<'static>
    ensures prefix { result.prefix.now ≡ (entry_of (kind.Mark id)).prefix }
    ensures parameters { result.parameters.items ≡ id }
    ensures content { result.content.now ≡ [] }
    ensures suffix { result.suffix.now ≡ [] }
    ensures in_range { IsCommand (kind.Mark id) }
{
    with_all(&[GS, b'(', b'H', 6, 0, b'0', b'0'], &id.bytes())
}

// The parts of the model of QR codes.
fn qr_model(model: QrModel) -> Parts<'static>
    ensures prefix { result.prefix.now ≡ (qr_model_entry model).prefix }
    ensures parameters { result.parameters.items ≡ (qr_model_entry model).parameters }
    ensures content { result.content.now ≡ [] }
    ensures suffix { result.suffix.now ≡ (qr_model_entry model).suffix }
    ensures in_range { IsCommand (kind.QrModel model) }
{
    Parts {
        suffix: &[0],
        ..with(&[GS, b'(', b'k', 4, 0, b'1', b'A'], model.byte())
    }
}

// The parts of tab stops.
fn tab_stops(stops: &TabStops) -> Parts<'_>
    ensures prefix { result.prefix.now ≡ (tab_stops_entry stops.now).prefix }
    ensures parameters { result.parameters.items ≡ [] }
    ensures content { result.content.now ≡ stops.now }
    ensures suffix { result.suffix.now ≡ (tab_stops_entry stops.now).suffix }
    ensures in_range { IsCommand (kind.TabStops stops.now) }
{
    Parts {
        content: stops.as_slice(),
        suffix: &[0],
        ..alone(&[ESC, b'D'])
    }
}

// The parts of data that is stored.
fn qr_store(stored: &QrData) -> Parts<'_>
    ensures prefix { result.prefix.now ≡ (qr_store_entry stored.now).prefix }
    ensures parameters { result.parameters.items ≡ (qr_store_entry stored.now).parameters }
    ensures content { result.content.now ≡ stored.now }
    ensures suffix { result.suffix.now ≡ [] }
    ensures in_range { IsCommand (kind.QrStore stored.now) }
{
    let content = stored.as_slice();
    let [low, high] = (content.len() as u16 + 3).to_le_bytes();
    Parts {
        content,
        ..with_all(&[GS, b'(', b'k'], &[low, high, b'1', b'P', b'0'])
    }
}

// The parts of a barcode.
fn barcode(bars: &Bars) -> Parts<'_>
    ensures prefix { result.prefix.now ≡ (entry_of (kind.Bars bars.now)).prefix }
    ensures parameters { result.parameters.items ≡ (entry_of (kind.Bars bars.now)).parameters }
    ensures content { result.content.now ≡ (entry_of (kind.Bars bars.now)).content }
    ensures suffix { result.suffix.now ≡ (entry_of (kind.Bars bars.now)).suffix }
    ensures few { length result.parameters.items ≤ 2 }
    ensures in_range { IsCommand (kind.Bars bars.now) }
{
    let content = bars.content();
    match bars.form() {
        Form::A => Parts {
            content,
            suffix: &[0],
            ..with(&[GS, b'k'], bars.mode())
        },
        Form::B => Parts {
            content,
            ..with_all(&[GS, b'k'], &[bars.mode(), content.len() as u8])
        },
    }
}

// The parts of a raster.
fn picture(raster: &Raster) -> Parts<'_>
    ensures prefix { result.prefix.now ≡ (raster_entry raster.now).prefix }
    ensures parameters { result.parameters.items ≡ (raster_entry raster.now).parameters }
    ensures content { result.content.now ≡ raster.now.dots }
    ensures suffix { result.suffix.now ≡ [] }
    ensures in_range { IsCommand (kind.Raster raster.now) }
{
    let [width_low, width_high] = raster.width().to_le_bytes();
    let [height_low, height_high] = raster.height().to_le_bytes();
    Parts {
        content: raster.dots(),
        ..with_all(
            &[GS, b'v', b'0'],
            &[
                raster.mode(),
                width_low,
                width_high,
                height_low,
                height_high,
            ],
        )
    }
}

// The parts of graphics.
fn stored_picture(stored: &Graphics) -> Parts<'_>
    ensures prefix { result.prefix.now ≡ (graphics_entry stored.now).prefix }
    ensures parameters { result.parameters.items ≡ (graphics_entry stored.now).parameters }
    ensures content { result.content.now ≡ stored.now.dots }
    ensures suffix { result.suffix.now ≡ [] }
    ensures few { length result.prefix.now + length result.parameters.items ≤ LONGEST_PREFIX }
    ensures in_range { IsCommand (kind.GraphicsStore stored.now) }
{
    let head = stored.head();
    let content = stored.dots();
    let [first, second, third, fourth] = (content.len() as u32 + COUNTED_BEFORE).to_le_bytes();
    let [width_low, width_high] = head.width.to_le_bytes();
    let [height_low, height_high] = head.height.to_le_bytes();
    match head.form {
        GraphicsForm::Short => Parts {
            content,
            ..with_all(
                &[GS, b'(', b'L'],
                &[
                    first,
                    second,
                    b'0',
                    b'p',
                    b'0',
                    head.across,
                    head.down,
                    b'1',
                    width_low,
                    width_high,
                    height_low,
                    height_high,
                ],
            )
        },
        GraphicsForm::Long => Parts {
            content,
            ..with_all(
                &[GS, b'8', b'L'],
                &[
                    first,
                    second,
                    third,
                    fourth,
                    b'0',
                    b'p',
                    b'0',
                    head.across,
                    head.down,
                    b'1',
                    width_low,
                    width_high,
                    height_low,
                    height_high,
                ],
            )
        },
    }
}
