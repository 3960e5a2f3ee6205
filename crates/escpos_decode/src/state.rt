//! Where in the command table a decoder stands between two bytes, and where the next byte leads from there.
//!
//! The states are those of the machine that the Reference's table describes. Each is named after the byte that comes next
//! there or the command that it belongs to. The settings have one state for all, and are found in their table. A state holds the parameters read so far; the content and the dots are the
//! decoder's. `specs/State.antt` defines which bytes lead to a state, and which part of the tree of the command table is
//! below it.

ghost use Rattle.std.specs.Prelude.{◌≡◌, ◌≤◌, ◌<◌, ◌∷◌, ◌++◌, ◌+◌, ◌&&◌, [], ℕ, List, length, false, IsTrue, Some, None};
ghost use Rattle.std.specs.List.{list_all};
ghost use Rattle.escpos_command.specs.declared.command.Command.{Command};
ghost use Rattle.escpos_command.specs.Graphics.{length_bytes};
ghost use Rattle.escpos_command.specs.Parameters.{is_byte, is_character, is_mark_byte, is_old_cut};
ghost use Rattle.escpos_command.specs.Places.{reason_after};
ghost use Rattle.escpos_command.specs.Prefixes.{part_from};
ghost use Rattle.escpos_command.specs.SettingTable.{table, row_for, row_prefix};
ghost use Rattle.escpos_command.specs.Tree.{these, walk, forms, grammar};
ghost use Rattle.escpos_decode.specs.State.{prefix_of, tree_of, holds, has_content, wanted_at, IsAt, NextIs};
ghost use Rattle.escpos_decode.specs.declared.state.State.{State};
ghost use Rattle.escpos_decode.specs.declared.state.State.TheVariants as state;
ghost use Rattle.escpos_decode.specs.declared.state.Next.TheVariants as next;

use crate::one_parameter::OneParameter;
use crate::{content, graphics, qr};
use escpos_command::{
    CR, Character, Command, Cut, DLE, EOT, ESC, FaultReason, Form, GS, GraphicsForm, GraphicsHead,
    HT, LF, MarkId, OldCut, Position, PositionKind, Pulse, Setting, SettingKind, Symbology,
    is_mark_byte,
};

/// A state in the command table between two bytes.
#[derive(Clone, Copy, Debug, PartialEq, Eq)]
pub enum State {
    /// Between commands.
    Start,
    /// After DLE.
    Dle,
    /// After ESC.
    Esc,
    /// After GS.
    Gs,
    /// After another first byte of settings.
    First {
        first: u8,
    },
    /// After the first two bytes of settings whose prefix has three.
    Letters {
        first: u8,
        second: u8,
    },
    /// After the prefix of a setting that has a parameter.
    Setting(SettingKind),
    /// After another letter with one parameter.
    Parameter(OneParameter),
    /// After the letters of a position: the low byte of its number.
    PositionLow(PositionKind),
    /// The high byte of its number.
    PositionHigh {
        kind: PositionKind,
        low: u8,
    },
    /// After ESC D: a column greater than `before`, of which at most `most` follow, or 00.
    TabStops {
        most: u8,
        before: u8,
    },
    /// After ESC p: the pin.
    PulsePin,
    /// After ESC p and the pin: how long the pulse is on.
    PulseOn {
        pin: u8,
    },
    /// After ESC p, the pin and the time on: how long the pulse is off.
    PulseOff {
        pin: u8,
        on: u8,
    },
    /// After GS V: the mode.
    CutMode,
    /// After GS V and a mode with a feed: the feed.
    CutFeed {
        mode: u8,
    },
    /// After GS (: a letter.
    Bracket,
    /// After GS ( H: the low byte of the length, 6.
    MarkLengthLow,
    /// The high byte of the length, 0.
    MarkLengthHigh,
    /// The function, 48.
    MarkFunction,
    /// The byte m, 48.
    MarkMode,
    /// The first byte of the id.
    MarkFirst,
    /// Its second byte.
    MarkSecond {
        first: u8,
    },
    /// Its third byte.
    MarkThird {
        first: u8,
        second: u8,
    },
    /// Its fourth byte.
    MarkFourth {
        first: u8,
        second: u8,
        third: u8,
    },
    /// After GS k: the mode.
    BarsMode,
    /// In a content of form A that allows the same bytes at all places. At most `most` more of them follow.
    PlainContent {
        symbology: Symbology,
        most: u8,
    },
    /// The first byte of a content of UPC-E in form A.
    UpceFirst,
    /// The first byte of a content of CODABAR in form A.
    CodabarFirst,
    /// In the rest of that content. At most `most` bytes come before its last.
    CodabarContent {
        most: u8,
    },
    /// After the last byte of that content: 00.
    CodabarEnd,
    /// After GS k and a mode of form B: the length of the content.
    ContentLength {
        symbology: Symbology,
    },
    /// In a content of this length, of which `wanted` bytes are still to come.
    Content {
        symbology: Symbology,
        length: u8,
        wanted: u8,
    },
    /// After GS v: 0.
    RasterFunction,
    /// After GS v 0: the scale.
    RasterScale,
    /// The low byte of the width.
    RasterWidth {
        scale: u8,
    },
    /// The high byte of the width, 0.
    RasterWidthHigh {
        scale: u8,
        width: u8,
    },
    /// The low byte of the height.
    RasterHeight {
        scale: u8,
        width: u8,
    },
    /// The high byte of the height.
    RasterHeightHigh {
        scale: u8,
        width: u8,
        low: u8,
    },
    /// In the dots, of which `wanted` bytes are still to come.
    Dots {
        scale: u8,
        width: u8,
        height: u16,
        wanted: u32,
    },
    /// After GS ( k: the low byte of the length.
    QrLengthLow,
    /// The high byte of the length.
    QrLengthHigh {
        low: u8,
    },
    /// After the length: cn.
    QrCode {
        length: u16,
    },
    /// After cn: the function.
    QrFunction {
        length: u16,
    },
    /// After function 65: the model.
    QrModelNumber,
    /// After the model: 00.
    QrModelEnd {
        model: u8,
    },
    /// After function 80: m.
    QrStoreMode {
        length: u16,
    },
    /// In the data of a QR code, of which `wanted` bytes are still to come.
    QrData {
        length: u16,
        wanted: u16,
    },
    /// After function 81: m.
    QrPrintMode,
    /// After GS ( L: the low byte of the length.
    GraphicsLengthLow,
    /// The high byte of the length.
    GraphicsLengthHigh {
        low: u8,
    },
    /// After GS 8: L.
    LongLetter,
    /// After GS 8 L: the first byte of the length.
    LongLengthFirst,
    /// Its second byte.
    LongLengthSecond {
        first: u8,
    },
    /// Its third byte.
    LongLengthThird {
        first: u8,
        second: u8,
    },
    /// Its fourth byte, 0.
    LongLengthFourth {
        length: u32,
    },
    /// After the length of either form: m.
    GraphicsMode {
        form: GraphicsForm,
        length: u32,
    },
    /// After m: the function.
    GraphicsFunction {
        form: GraphicsForm,
        length: u32,
    },
    /// After function 112: the tone, where `count` bytes of dots are sent.
    GraphicsTone {
        form: GraphicsForm,
        count: u32,
    },
    /// The factor of dots across.
    GraphicsAcross {
        form: GraphicsForm,
        count: u32,
    },
    /// The factor of dots down.
    GraphicsDown {
        form: GraphicsForm,
        count: u32,
        across: u8,
    },
    /// The colour.
    GraphicsColor {
        form: GraphicsForm,
        count: u32,
        across: u8,
        down: u8,
    },
    /// The low byte of the width.
    GraphicsWidth {
        form: GraphicsForm,
        count: u32,
        across: u8,
        down: u8,
    },
    /// The high byte of the width.
    GraphicsWidthHigh {
        form: GraphicsForm,
        count: u32,
        across: u8,
        down: u8,
        low: u8,
    },
    /// The low byte of the height.
    GraphicsHeight {
        form: GraphicsForm,
        count: u32,
        across: u8,
        down: u8,
        width: u16,
    },
    /// The high byte of the height.
    GraphicsHeightHigh {
        form: GraphicsForm,
        count: u32,
        across: u8,
        down: u8,
        width: u16,
        low: u8,
    },
    /// In the `count` bytes of dots of graphics, of which `wanted` are still to come.
    GraphicsDots {
        head: GraphicsHead,
        count: u32,
        wanted: u32,
    },
}

/// What a content, or dots, make when they end.
#[derive(Clone, Copy, Debug, PartialEq, Eq)]
pub enum Ending {
    Bars(Form, Symbology),
    Raster { scale: u8, width: u8, height: u16 },
    QrStore,
    TabStops,
    Graphics(GraphicsHead),
}

/// Where a byte leads from a state.
#[derive(Debug, Drop)]
pub enum Next {
    /// Nowhere: no command continues with the byte.
    Refused,
    /// To this state.
    To(State),
    /// To this state, from which this many bytes of content, or of dots, follow; room for them must be made.
    Room(State, usize),
    /// The byte is part of a content whose length isn't known, and leads to this state.
    Grow(State),
    /// The byte is part of the content, for which there is room, and leads to this state.
    Keep(State),
    /// The byte ends this command.
    Done(Command),
    /// The byte is the last one of the content, for which there is room.
    Last(Ending),
    /// The byte ends the content without being part of it.
    Closes(Ending),
}

impl State {
    /// Where the byte leads from here, where `content` is the content, or the dots, read so far.
    #[inline(never)]
    pub fn next(self, content: &[u8], byte: u8) -> Next
        requires held { IsTrue (holds self) }
        requires empty { has_content self ≡ false → content.now ≡ [] }
        ensures { NextIs result self content.now byte }
    {
        match self {
            State::Start => start(byte),
            State::Dle => after_dle(byte),
            State::Esc => after_esc(byte),
            State::Gs => after_gs(byte),
            State::First { first } => after_letters(first, byte),
            State::Letters { first, second } => third_letter(first, second, byte),
            State::Setting(kind) => setting_parameter(kind, byte),
            State::Parameter(letter) => done(letter.command(byte)),
            State::PositionLow(kind) => Next::To(State::PositionHigh { kind, low: byte }),
            State::PositionHigh { kind, low } => position(kind, low, byte),
            State::TabStops { most, before } => content::tab_stop(most, before, byte),
            State::PulsePin => pulse_pin(byte),
            State::PulseOn { pin } => Next::To(State::PulseOff { pin, on: byte }),
            State::PulseOff { pin, on } => done(Pulse::new(pin, on, byte).map(Command::Pulse)),
            State::CutMode => cut_mode(byte),
            State::CutFeed { mode } => done(Cut::with_feed(mode, byte).map(Command::Cut)),
            State::Bracket => after_bracket(byte),
            State::MarkLengthLow => fixed(byte, 6, State::MarkLengthHigh),
            State::MarkLengthHigh => fixed(byte, 0, State::MarkFunction),
            State::MarkFunction => fixed(byte, b'0', State::MarkMode),
            State::MarkMode => fixed(byte, b'0', State::MarkFirst),
            State::MarkFirst => mark_first(byte),
            State::MarkSecond { first } => mark_second(first, byte),
            State::MarkThird { first, second } => mark_third(first, second, byte),
            State::MarkFourth {
                first,
                second,
                third,
            } => mark_fourth(first, second, third, byte),
            State::BarsMode => content::bars_mode(byte),
            State::PlainContent { symbology, most } => content::plain(
                symbology, most, content, byte,
            ),
            State::UpceFirst => content::upce_first(byte),
            State::CodabarFirst => content::codabar_first(byte),
            State::CodabarContent { most } => content::codabar(most, byte),
            State::CodabarEnd => content::codabar_end(byte),
            State::ContentLength { symbology } => content::length(symbology, byte),
            State::Content {
                symbology,
                length,
                wanted,
            } => content::counted(symbology, length, wanted, content, byte),
            State::RasterFunction => fixed(byte, b'0', State::RasterScale),
            State::RasterScale => content::raster_scale(byte),
            State::RasterWidth { scale } => content::raster_width(scale, byte),
            State::RasterWidthHigh { scale, width } => {
                fixed(byte, 0, State::RasterHeight { scale, width })
            }
            State::RasterHeight { scale, width } => Next::To(State::RasterHeightHigh {
                scale,
                width,
                low: byte,
            }),
            State::RasterHeightHigh { scale, width, low } => {
                content::raster_height(scale, width, low, byte)
            }
            State::Dots {
                scale,
                width,
                height,
                wanted,
            } => content::dots(scale, width, height, wanted, byte),
            State::QrLengthLow => Next::To(State::QrLengthHigh { low: byte }),
            State::QrLengthHigh { low } => qr::length(low, byte),
            State::QrCode { length } => fixed(byte, b'1', State::QrFunction { length }),
            State::QrFunction { length } => qr::function(length, byte),
            State::QrModelNumber => qr::model_number(byte),
            State::QrModelEnd { model } => qr::model_end(model, byte),
            State::QrStoreMode { length } => qr::store_mode(length, byte),
            State::QrData { length, wanted } => qr::stored(length, wanted, byte),
            State::QrPrintMode => qr::print_mode(byte),
            State::GraphicsLengthLow => Next::To(State::GraphicsLengthHigh { low: byte }),
            State::GraphicsLengthHigh { low } => graphics::length(low, byte),
            State::LongLetter => fixed(byte, b'L', State::LongLengthFirst),
            State::LongLengthFirst => Next::To(State::LongLengthSecond { first: byte }),
            State::LongLengthSecond { first } => Next::To(State::LongLengthThird {
                first,
                second: byte,
            }),
            State::LongLengthThird { first, second } => graphics::long_third(first, second, byte),
            State::LongLengthFourth { length } => {
                let form = GraphicsForm::Long;
                fixed(byte, 0, State::GraphicsMode { form, length })
            }
            State::GraphicsMode { form, length } => {
                fixed(byte, b'0', State::GraphicsFunction { form, length })
            }
            State::GraphicsFunction { form, length } => graphics::function(form, length, byte),
            State::GraphicsTone { form, count } => {
                fixed(byte, b'0', State::GraphicsAcross { form, count })
            }
            State::GraphicsAcross { form, count } => graphics::across(form, count, byte),
            State::GraphicsDown {
                form,
                count,
                across,
            } => graphics::down(form, count, across, byte),
            State::GraphicsColor {
                form,
                count,
                across,
                down,
            } => fixed(
                byte,
                b'1',
                State::GraphicsWidth {
                    form,
                    count,
                    across,
                    down,
                },
            ),
            State::GraphicsWidth {
                form,
                count,
                across,
                down,
            } => Next::To(State::GraphicsWidthHigh {
                form,
                count,
                across,
                down,
                low: byte,
            }),
            State::GraphicsWidthHigh {
                form,
                count,
                across,
                down,
                low,
            } => graphics::width(form, count, across, down, low, byte),
            State::GraphicsHeight {
                form,
                count,
                across,
                down,
                width,
            } => Next::To(State::GraphicsHeightHigh {
                form,
                count,
                across,
                down,
                width,
                low: byte,
            }),
            State::GraphicsHeightHigh {
                form,
                count,
                across,
                down,
                width,
                low,
            } => graphics::height(form, count, across, down, width, low, byte),
            State::GraphicsDots {
                head,
                count,
                wanted,
            } => graphics::dots(head, count, wanted, byte),
        }
    }

    /// Where the first of `len` more bytes lead if dots are to come here, and how many of them these are: all but the last byte of the
    /// dots. Here and 0 if none are to come.
    pub fn past_dots(self, len: usize) -> (State, usize)
        requires { IsTrue (holds self) }
        ensures count { result.1 ≤ len }
        ensures prefix { prefix_of result.0 ≡ prefix_of self }
        ensures wanted { wanted_at self ≡ wanted_at result.0 + result.1 }
        ensures there { (read run : List ℕ) → IsAt self read → length run ≡ result.1 → IsTrue (list_all is_byte run) → IsAt result.0 (read ++ run) }
    {
        match self {
            State::Dots {
                scale,
                width,
                height,
                wanted,
            } => {
                let count = before_last(len, wanted);
                let wanted = wanted - count as u32;
                let there = State::Dots {
                    scale,
                    width,
                    height,
                    wanted,
                };
                (there, count)
            }
            State::GraphicsDots {
                head,
                count: sent,
                wanted,
            } => {
                let count = before_last(len, wanted);
                let wanted = wanted - count as u32;
                let there = State::GraphicsDots {
                    head,
                    count: sent,
                    wanted,
                };
                (there, count)
            }
            _ => (self, 0),
        }
    }

    /// The number of bytes that lead to this state, without content and dots.
    pub fn prefix_len(self) -> usize
        ensures { result ≡ length (prefix_of self) }
    {
        match self {
            State::Start => 0,
            State::Dle | State::Esc | State::Gs | State::First { .. } => 1,
            State::Parameter(letter) => letter.prefix_len(),
            State::Setting(kind) => kind.prefix().len(),
            State::Letters { .. }
            | State::PositionLow(_)
            | State::TabStops { .. }
            | State::PulsePin
            | State::CutMode
            | State::Bracket
            | State::BarsMode
            | State::RasterFunction
            | State::LongLetter => 2,
            State::PositionHigh { .. }
            | State::PulseOn { .. }
            | State::CutFeed { .. }
            | State::MarkLengthLow
            | State::PlainContent { .. }
            | State::UpceFirst
            | State::CodabarFirst
            | State::CodabarContent { .. }
            | State::CodabarEnd
            | State::ContentLength { .. }
            | State::RasterScale
            | State::QrLengthLow
            | State::GraphicsLengthLow
            | State::LongLengthFirst => 3,
            State::PulseOff { .. }
            | State::MarkLengthHigh
            | State::Content { .. }
            | State::RasterWidth { .. }
            | State::QrLengthHigh { .. }
            | State::GraphicsLengthHigh { .. }
            | State::LongLengthSecond { .. } => 4,
            State::MarkFunction
            | State::RasterWidthHigh { .. }
            | State::QrCode { .. }
            | State::LongLengthThird { .. } => 5,
            State::MarkMode
            | State::RasterHeight { .. }
            | State::QrFunction { .. }
            | State::LongLengthFourth { .. } => 6,
            State::MarkFirst
            | State::RasterHeightHigh { .. }
            | State::QrModelNumber
            | State::QrStoreMode { .. }
            | State::QrPrintMode => 7,
            State::MarkSecond { .. }
            | State::Dots { .. }
            | State::QrModelEnd { .. }
            | State::QrData { .. } => 8,
            State::MarkThird { .. } => 9,
            State::MarkFourth { .. } => 10,
            State::GraphicsMode { form, .. } => 3 + length_bytes(form),
            State::GraphicsFunction { form, .. } => 4 + length_bytes(form),
            State::GraphicsTone { form, .. } => 5 + length_bytes(form),
            State::GraphicsAcross { form, .. } => 6 + length_bytes(form),
            State::GraphicsDown { form, .. } => 7 + length_bytes(form),
            State::GraphicsColor { form, .. } => 8 + length_bytes(form),
            State::GraphicsWidth { form, .. } => 9 + length_bytes(form),
            State::GraphicsWidthHigh { form, .. } => 10 + length_bytes(form),
            State::GraphicsHeight { form, .. } => 11 + length_bytes(form),
            State::GraphicsHeightHigh { form, .. } => 12 + length_bytes(form),
            State::GraphicsDots { head, .. } => 13 + length_bytes(head.form),
        }
    }

    /// Why a byte is refused here, where `content` is the content, or the dots, read so far.
    pub fn reason(self, content: &[u8]) -> FaultReason
        requires held { IsTrue (holds self) }
        requires empty { has_content self ≡ false → content.now ≡ [] }
        ensures { result ≡ reason_after (prefix_of self ++ content.now) }
    {
        match self {
            State::Start => FaultReason::UnknownByte,
            State::Dle
            | State::Esc
            | State::Gs
            | State::First { .. }
            | State::Bracket
            | State::RasterFunction
            | State::LongLetter
            | State::GraphicsMode { .. }
            | State::GraphicsFunction { .. }
            | State::QrCode { .. }
            | State::QrFunction { .. } => FaultReason::UnknownCommand,
            State::Letters { .. } => FaultReason::UnknownCommand,
            State::PlainContent { .. }
            | State::UpceFirst
            | State::CodabarFirst
            | State::CodabarContent { .. }
            | State::CodabarEnd
            | State::ContentLength { .. }
            | State::Content { .. } => FaultReason::BadBarcode,
            State::RasterWidth { .. }
            | State::RasterWidthHigh { .. }
            | State::RasterHeight { .. }
            | State::RasterHeightHigh { .. }
            | State::GraphicsWidth { .. }
            | State::GraphicsWidthHigh { .. }
            | State::GraphicsHeight { .. }
            | State::GraphicsHeightHigh { .. }
            | State::GraphicsDots { .. }
            | State::Dots { .. } => FaultReason::BadSize,
            State::Setting(_) => FaultReason::BadParameter,
            _ => FaultReason::BadParameter,
        }
    }
}

// How many of `len` bytes of dots come before the last of those that are wanted.
fn before_last(len: usize, wanted: u32) -> usize
    requires { 0 < wanted }
    ensures count { result ≤ len }
    ensures few { result < wanted }
{
    len.min(wanted as usize - 1)
}

// How many bytes the length of a function of graphics has.
fn length_bytes(form: GraphicsForm) -> usize
    ensures counted { (n : ℕ) → result ≡ length (length_bytes form n) }
    ensures few { result ≤ 4 }
{
    match form {
        GraphicsForm::Short => 2,
        GraphicsForm::Long => 4,
    }
}

// The command ends, or the byte is refused.
fn done(command: Option<Command>) -> Next
    ensures some { (c : Command) → command ≡ Some c → result ≡ next.Done c }
    ensures none { command ≡ None → result ≡ next.Refused }
{
    match command {
        Some(command) => Next::Done(command),
        None => Next::Refused,
    }
}

// Leads to `then` if the byte is the one wanted.
fn fixed(byte: u8, wanted: u8, then: State) -> Next
    requires held { IsTrue (holds then) }
    requires wanted { wanted_at then ≡ 0 }
    ensures { (p : State) (read : List ℕ) → tree_of p read ≡ these (wanted ∷ []) (tree_of then []) → prefix_of then ≡ prefix_of p ++ wanted ∷ []
        → has_content p ≡ false → NextIs result p read byte }
{
    if byte == wanted {
        Next::To(then)
    } else {
        Next::Refused
    }
}

fn start(byte: u8) -> Next
    ensures { (read : List ℕ) → NextIs result state.Start read byte }
{
    match byte {
        HT => Next::Done(Command::Tab),
        LF => Next::Done(Command::LineFeed),
        CR => Next::Done(Command::Return),
        DLE => Next::To(State::Dle),
        ESC => Next::To(State::Esc),
        GS => Next::To(State::Gs),
        _ => match Character::new(byte) {
            Some(character) => Next::Done(Command::Char(character)),
            None => other_first(byte),
        },
    }
}

// A first byte that begins no command but settings.
fn other_first(byte: u8) -> Next
    requires no_form { IsTrue (part_from (byte ∷ []) forms) }
    requires no_character { is_character byte ≡ false }
    ensures { (read : List ℕ) → NextIs result state.Start read byte }
{
    if SettingKind::begins(byte) {
        Next::To(State::First { first: byte })
    } else {
        Next::Refused
    }
}

fn after_dle(byte: u8) -> Next
    ensures { (read : List ℕ) → NextIs result state.Dle read byte }
{
    match byte {
        EOT => Next::To(State::Parameter(OneParameter::Status)),
        _ => Next::Refused,
    }
}

fn after_esc(byte: u8) -> Next
    ensures { (read : List ℕ) → NextIs result state.Esc read byte }
{
    match byte {
        b'@' => Next::Done(Command::Init),
        b'J' => Next::To(State::Parameter(OneParameter::FeedUnits)),
        b'd' => Next::To(State::Parameter(OneParameter::FeedLines)),
        b'$' => Next::To(State::PositionLow(PositionKind::Absolute)),
        b'\\' => Next::To(State::PositionLow(PositionKind::Relative)),
        b'D' => Next::To(State::TabStops {
            most: 32,
            before: 0,
        }),
        b'p' => Next::To(State::PulsePin),
        b'i' | b'm' => old_cut(byte),
        _ => after_letters(ESC, byte),
    }
}

// The high byte of a position's number.
fn position(kind: PositionKind, low: u8, high: u8) -> Next
    ensures { (read : List ℕ) → NextIs result (state.PositionHigh kind low) read high }
{
    let units = u16::from_le_bytes([low, high]);
    Next::Done(Command::Position(Position::new(kind, units)))
}

// The letter of an older cut.
fn old_cut(letter: u8) -> Next
    requires { IsTrue (is_old_cut letter) }
    ensures { (read : List ℕ) → NextIs result state.Esc read letter }
{
    match OldCut::new(letter) {
        Some(cut) => Next::Done(Command::OldCut(cut)),
        None => unreachable!(),
    }
}

fn after_gs(byte: u8) -> Next
    ensures { (read : List ℕ) → NextIs result state.Gs read byte }
{
    match byte {
        b'(' => Next::To(State::Bracket),
        b'8' => Next::To(State::LongLetter),
        b'L' => Next::To(State::PositionLow(PositionKind::LeftMargin)),
        b'V' => Next::To(State::CutMode),
        b'W' => Next::To(State::PositionLow(PositionKind::AreaWidth)),
        b'a' => Next::To(State::Parameter(OneParameter::AutomaticStatus)),
        b'k' => Next::To(State::BarsMode),
        b'v' => Next::To(State::RasterFunction),
        _ => after_letters(GS, byte),
    }
}

// Two bytes that begin no command but settings.
fn after_letters(first: u8, second: u8) -> Next
    requires { IsTrue (part_from (first ∷ second ∷ []) forms) }
    ensures { (p : State) (read : List ℕ) → prefix_of p ≡ first ∷ [] → tree_of p read ≡ walk grammar (first ∷ []) → has_content p ≡ false → NextIs result p read second }
{
    match SettingKind::with_prefix(first, second, None) {
        Some(kind) => at_setting(kind),
        None if SettingKind::is_begun(first, second) => Next::To(State::Letters { first, second }),
        None => Next::Refused,
    }
}

// The last byte of a prefix of three.
fn third_letter(first: u8, second: u8, third: u8) -> Next
    requires { IsTrue (holds (state.Letters first second)) }
    ensures { (read : List ℕ) → NextIs result (state.Letters first second) read third }
{
    match SettingKind::with_prefix(first, second, Some(third)) {
        Some(kind) => at_setting(kind),
        None => Next::Refused,
    }
}

// The last byte of the prefix of a setting, which is the whole command or is followed by a parameter.
fn at_setting(kind: SettingKind) -> Next
    ensures { (p : State) (read : List ℕ) (b : ℕ) → row_prefix (row_for table kind) ≡ prefix_of p ++ b ∷ [] → tree_of p read ≡ walk grammar (prefix_of p) → has_content p ≡ false
        → NextIs result p read b }
{
    match Setting::new(kind, None) {
        Some(setting) => Next::Done(Command::Set(setting)),
        None => Next::To(State::Setting(kind)),
    }
}

// The parameter of a setting, which ends the command.
fn setting_parameter(kind: SettingKind, byte: u8) -> Next
    requires { IsTrue (holds (state.Setting kind)) }
    ensures { (read : List ℕ) → NextIs result (state.Setting kind) read byte }
{
    match Setting::new(kind, Some(byte)) {
        Some(setting) => Next::Done(Command::Set(setting)),
        None => Next::Refused,
    }
}

// The pin of a pulse.
fn pulse_pin(byte: u8) -> Next
    ensures { (read : List ℕ) → NextIs result state.PulsePin read byte }
{
    match byte {
        0 | 1 | 48 | 49 => Next::To(State::PulseOn { pin: byte }),
        _ => Next::Refused,
    }
}

fn after_bracket(byte: u8) -> Next
    ensures { (read : List ℕ) → NextIs result state.Bracket read byte }
{
    match byte {
        b'H' => Next::To(State::MarkLengthLow),
        b'L' => Next::To(State::GraphicsLengthLow),
        b'k' => Next::To(State::QrLengthLow),
        _ => Next::Refused,
    }
}

// The mode of a cut, after which a feed may follow.
fn cut_mode(byte: u8) -> Next
    ensures { (read : List ℕ) → NextIs result state.CutMode read byte }
{
    if let Some(cut) = Cut::new(byte) {
        return Next::Done(Command::Cut(cut));
    }
    match byte {
        65 | 66 | 97 | 98 | 103 | 104 => Next::To(State::CutFeed { mode: byte }),
        _ => Next::Refused,
    }
}

// The first byte of an id.
fn mark_first(byte: u8) -> Next
    ensures { (read : List ℕ) → NextIs result state.MarkFirst read byte }
{
    if is_mark_byte(byte) {
        Next::To(State::MarkSecond { first: byte })
    } else {
        Next::Refused
    }
}

// Its second byte.
fn mark_second(first: u8, byte: u8) -> Next
    requires { IsTrue (is_mark_byte first) }
    ensures { (read : List ℕ) → NextIs result (state.MarkSecond first) read byte }
{
    if is_mark_byte(byte) {
        Next::To(State::MarkThird {
            first,
            second: byte,
        })
    } else {
        Next::Refused
    }
}

// Its third byte.
fn mark_third(first: u8, second: u8, byte: u8) -> Next
    requires { IsTrue (is_mark_byte first && is_mark_byte second) }
    ensures { (read : List ℕ) → NextIs result (state.MarkThird first second) read byte }
{
    if is_mark_byte(byte) {
        Next::To(State::MarkFourth {
            first,
            second,
            third: byte,
        })
    } else {
        Next::Refused
    }
}

// Its fourth byte, which ends the mark.
fn mark_fourth(first: u8, second: u8, third: u8, byte: u8) -> Next
    requires { IsTrue (is_mark_byte first && is_mark_byte second && is_mark_byte third) }
    ensures { (read : List ℕ) → NextIs result (state.MarkFourth first second third) read byte }
{
    if !is_mark_byte(byte) {
        return Next::Refused;
    }
    match MarkId::new([first, second, third, byte]) {
        Some(id) => Next::Done(Command::Mark(id)),
        None => unreachable!(),
    }
}
