//! The command table, read plainly: what a whole byte list is, a row of the table a line.
//!
//! It keeps nothing between two bytes and looks at all of them each time, so it shares neither places nor counts with the
//! decoder. The tests compare the two.

use crate::support::plain_graphics::{
    begins_graphics, begins_long_graphics, graphics_spelled, reason_in_graphics,
};
use escpos_command::{
    Bars, CR, Character, Command, Cut, DLE, EOT, ESC, FS, FaultReason, FeedLines, FeedUnits, Form,
    GS, GraphicsForm, GraphicsFunction, HT, LF, MarkId, OldCut, Position, PositionKind, Pulse,
    QrData, QrLevel, QrModel, QrSize, Raster, Reporting, Setting, SettingKind, StatusKind,
    Symbology, TabStops,
};
use std::alloc::Global;
use std::process::Abort;

/// What a byte list is of whose bytes all but the last are nothing or a half command.
#[derive(Drop)]
pub enum Reading {
    /// The spelling of this command.
    Spelling(Command),
    /// A half command: it begins a spelling and isn't one.
    Half,
    /// It begins no spelling: its last byte is refused for this reason.
    Refused(FaultReason),
}

/// What these bytes are, of which there is one at least.
pub fn read(rt: &impl Abort, alloc: Global, bytes: &[u8]) -> Reading {
    let (_, before) = bytes.split_last().expect(rt, "a byte");
    match command_spelled(rt, alloc, bytes) {
        Some(command) => Reading::Spelling(command),
        None if begins_spelling(bytes) => Reading::Half,
        None => Reading::Refused(reason_after(before)),
    }
}

// The command that the bytes spell. A parameter is as the table says, and that there is no such value ends the test.
fn command_spelled(rt: &impl Abort, alloc: Global, bytes: &[u8]) -> Option<Command> {
    Some(match bytes {
        [b @ 32..=255] => Command::Char(Character::new(*b).expect(rt, "a parameter")),
        [HT] => Command::Tab,
        [LF] => Command::LineFeed,
        [CR] => Command::Return,
        [DLE, EOT, n @ 1..=4] => Command::Status(StatusKind::new(*n).expect(rt, "a parameter")),
        [ESC, b'D', columns @ .., 0] => return tab_stops_spelled(rt, alloc, columns),
        [ESC, rest @ ..] => return spelled_by_escape(rt, rest),
        [FS, b'.'] => alone(rt, SettingKind::KanjiOff),
        [GS, b'k', rest @ ..] => return bars_spelled(rt, alloc, rest),
        [GS, b'v', b'0', m @ (0..=3 | 48..=51), rest @ ..] => return raster_spelled(
            rt, alloc, *m, rest,
        ),
        [GS, b'(', b'H', rest @ ..] => return mark_spelled(rt, rest),
        [GS, b'(', b'k', rest @ ..] => return qr_spelled(rt, alloc, rest),
        [GS, b'(', b'L', 2, 0, b'0', n @ (2 | 50)] => Command::GraphicsPrint(GraphicsFunction::new(
            *n,
        ).expect(rt, "a parameter")),
        [GS, b'(', b'L', a, b, rest @ ..] => return graphics_spelled(
            rt,
            alloc,
            GraphicsForm::Short,
            [*a, *b, 0, 0],
            rest,
        ),
        [GS, b'8', b'L', a, b, c, d, rest @ ..] => return graphics_spelled(
            rt,
            alloc,
            GraphicsForm::Long,
            [*a, *b, *c, *d],
            rest,
        ),
        [GS, rest @ ..] => return spelled_by_group(rt, rest),
        _ => return None,
    })
}

// The number of two bytes, the low one first, as a position of this kind.
fn position(kind: PositionKind, low: u8, high: u8) -> Command {
    Command::Position(Position::new(kind, u16::from_le_bytes([low, high])))
}

// The tab stops at these columns.
fn tab_stops_spelled(rt: &impl Abort, alloc: Global, columns: &[u8]) -> Option<Command> {
    if !are_tab_stops(columns) {
        return None;
    }
    let columns = columns.to_vec(alloc).expect(rt, "memory");
    let stops = TabStops::new(columns).ok();
    Some(Command::TabStops(stops.expect(rt, "columns of the table")))
}

// Whether these are columns of tab stops.
fn are_tab_stops(columns: &[u8]) -> bool {
    let mut last = 0;
    for column in columns {
        if *column <= last {
            return false;
        }
        last = *column;
    }
    columns.len() <= 32
}

// The command that sets this.
fn set(rt: &impl Abort, kind: SettingKind, parameter: u8) -> Command {
    Command::set(kind, parameter).expect(rt, "a parameter")
}

// The command that sets this, and has no parameter.
fn alone(rt: &impl Abort, kind: SettingKind) -> Command {
    Command::Set(Setting::new(kind, None).expect(rt, "a setting"))
}

// The command that these bytes spell after ESC.
fn spelled_by_escape(rt: &impl Abort, rest: &[u8]) -> Option<Command> {
    Some(match rest {
        b"@" => Command::Init,
        [b'!', n] => set(rt, SettingKind::Mode, *n),
        [b'-', n @ (0..=2 | 48..=50)] => set(rt, SettingKind::Underline, *n),
        b"2" => alone(rt, SettingKind::DefaultSpacing),
        b"<" => alone(rt, SettingKind::Home),
        b"i" | b"m" => Command::OldCut(OldCut::new(rest[0]).expect(rt, "a letter")),
        [b' ', n] => set(rt, SettingKind::CharacterSpacing, *n),
        [b'r', n @ (0 | 1 | 48 | 49)] => set(rt, SettingKind::Color, *n),
        [b'=', n] => set(rt, SettingKind::Devices, *n),
        [b'U', n] => set(rt, SettingKind::Unidirectional, *n),
        [b'c', b'3', n] => set(rt, SettingKind::EndSensors, *n),
        [b'c', b'4', n] => set(rt, SettingKind::StopSensors, *n),
        [b'c', b'5', n] => set(rt, SettingKind::PanelButtons, *n),
        [b'$', low, high] => position(PositionKind::Absolute, *low, *high),
        [b'\\', low, high] => position(PositionKind::Relative, *low, *high),
        [b'V', n @ (0..=2 | 48..=50)] => set(rt, SettingKind::Turned, *n),
        [b'3', n] => set(rt, SettingKind::LineSpacing, *n),
        [b'E', n] => set(rt, SettingKind::Emphasis, *n),
        [b'G', n] => set(rt, SettingKind::DoubleStrike, *n),
        [b'M', n @ (0 | 1 | 48 | 49)] => set(rt, SettingKind::Font, *n),
        [b'R', n @ 0..=17] => set(rt, SettingKind::CharacterSet, *n),
        [b'a', n @ (0..=2 | 48..=50)] => set(rt, SettingKind::Align, *n),
        [b'J', n] => Command::FeedUnits(FeedUnits::new(*n)),
        [b'd', n] => Command::FeedLines(FeedLines::new(*n)),
        [b'p', m @ (0 | 1 | 48 | 49), on, off] => Command::Pulse(Pulse::new(*m, *on, *off).expect(
            rt,
            "a parameter",
        )),
        [b't', n] => set(rt, SettingKind::Table, *n),
        [b'{', n] => set(rt, SettingKind::UpsideDown, *n),
        _ => return None,
    })
}

// The command without content that these bytes spell after GS.
fn spelled_by_group(rt: &impl Abort, rest: &[u8]) -> Option<Command> {
    Some(match rest {
        [b'!', n] if *n & 0b1000_1000 == 0 => set(rt, SettingKind::Size, *n),
        [b'B', n] => set(rt, SettingKind::Reverse, *n),
        [b'H', n @ (0..=3 | 48..=51)] => set(rt, SettingKind::HriPlace, *n),
        [b'V', m @ (0 | 1 | 48 | 49)] => Command::Cut(Cut::new(*m).expect(rt, "a parameter")),
        [b'V', m @ (65 | 66 | 97 | 98 | 103 | 104), n] => Command::Cut(Cut::with_feed(
            *m, *n,
        ).expect(rt, "a parameter")),
        [b'L', low, high] => position(PositionKind::LeftMargin, *low, *high),
        [b'W', low, high] => position(PositionKind::AreaWidth, *low, *high),
        [b'a', n] => Command::AutomaticStatus(Reporting::new(*n)),
        [b'b', n] => set(rt, SettingKind::Smoothing, *n),
        [b'f', n @ (0 | 1 | 48 | 49)] => set(rt, SettingKind::HriFont, *n),
        [b'h', n @ 1..=255] => set(rt, SettingKind::BarHeight, *n),
        [b'w', n @ 2..=6] => set(rt, SettingKind::BarWidth, *n),
        _ => return None,
    })
}

// The mark that these bytes spell after GS ( H.
fn mark_spelled(rt: &impl Abort, rest: &[u8]) -> Option<Command> {
    let [6, 0, b'0', b'0', a, b, c, d] = rest else {
        return None;
    };
    let id = [*a, *b, *c, *d];
    if !is_id(&id) {
        return None;
    }
    Some(Command::Mark(MarkId::new(id).expect(rt, "a parameter")))
}

// The function of QR codes that these bytes spell after GS ( k.
fn qr_spelled(rt: &impl Abort, alloc: Global, rest: &[u8]) -> Option<Command> {
    Some(match rest {
        [4, 0, b'1', b'A', n @ (49 | 50), 0] => Command::QrModel(QrModel::new(*n).expect(
            rt,
            "a parameter",
        )),
        [3, 0, b'1', b'C', n @ 1..=16] => Command::QrSize(QrSize::new(*n).expect(
            rt,
            "a parameter",
        )),
        [3, 0, b'1', b'E', n @ 48..=51] => Command::QrLevel(QrLevel::new(*n).expect(
            rt,
            "a parameter",
        )),
        [3, 0, b'1', b'Q', b'0'] => Command::QrPrint,
        [low, high, b'1', b'P', b'0', stored @ ..] => return store_spelled(
            rt,
            alloc,
            u16::from_le_bytes([*low, *high]),
            stored,
        ),
        _ => return None,
    })
}

// The store of this data, which comes after a length that counts three bytes more.
fn store_spelled(rt: &impl Abort, alloc: Global, length: u16, data: &[u8]) -> Option<Command> {
    if data.is_empty() || 7089 < data.len() || data.len().checked_add(3) != Some(length as usize) {
        return None;
    }
    let data = data.to_vec(alloc).expect(rt, "memory");
    let stored = QrData::new(data).ok();
    Some(Command::QrStore(stored.expect(rt, "data of the table")))
}

// Whether the bytes begin a spelling and aren't one.
fn begins_spelling(bytes: &[u8]) -> bool {
    match bytes {
        [DLE] | [DLE, EOT] | [FS] => true,
        [ESC, rest @ ..] => begins_after_escape(rest),
        [GS, b'k', m @ 0..=6, content @ ..] => begins_form_a(*m, content),
        [GS, b'k', m @ 65..=74, rest @ ..] => begins_form_b(*m, rest),
        [GS, b'v', b'0'] => true,
        [GS, b'v', b'0', 0..=3 | 48..=51, rest @ ..] => begins_raster(rest),
        [GS, b'(', b'k', rest @ ..] => begins_qr(rest),
        [GS, b'8'] => true,
        [GS, b'(', b'L', rest @ ..] => begins_graphics(rest),
        [GS, b'8', b'L', rest @ ..] => begins_long_graphics(rest),
        [GS, rest @ ..] => begins_after_group(rest),
        _ => false,
    }
}

// Whether these bytes begin a spelling after ESC, and aren't one.
fn begins_after_escape(rest: &[u8]) -> bool {
    match rest {
        [] => true,
        [b'!' | b'-' | b'3' | b'E' | b'G' | b'M' | b'R'] => true,
        [b'a' | b'J' | b'd' | b'p' | b't' | b'{'] => true,
        [b' ' | b'=' | b'U' | b'V' | b'c' | b'r'] | [b'c', b'3'..=b'5'] => true,
        [b'$' | b'\\'] | [b'$' | b'\\', _] => true,
        [b'D', columns @ ..] => are_tab_stops(columns),
        [b'p', 0 | 1 | 48 | 49] => true,
        [b'p', 0 | 1 | 48 | 49, _] => true,
        _ => false,
    }
}

// Whether these bytes begin a spelling without content after GS, and aren't one.
fn begins_after_group(rest: &[u8]) -> bool {
    match rest {
        [] => true,
        [
            b'!'
            | b'('
            | b'8'
            | b'B'
            | b'H'
            | b'V'
            | b'a'
            | b'b'
            | b'f'
            | b'h'
            | b'k'
            | b'v'
            | b'w',
        ] => true,
        [b'L' | b'W'] | [b'L' | b'W', _] => true,
        [b'(', b'H'] => true,
        [b'(', b'H', 6] => true,
        [b'(', b'H', 6, 0] => true,
        [b'(', b'H', 6, 0, b'0'] => true,
        [b'(', b'H', 6, 0, b'0', b'0', id @ ..] => id.len() < 4 && is_id(id),
        [b'V', 65 | 66 | 97 | 98 | 103 | 104] => true,
        _ => false,
    }
}

// Whether these bytes begin a function of QR codes after GS ( k, and aren't one.
fn begins_qr(rest: &[u8]) -> bool {
    let [low, high, rest @ ..] = rest else {
        return true;
    };
    let length = u16::from_le_bytes([*low, *high]);
    match rest {
        [] | [b'1'] => 3 <= length && length <= 7092,
        [b'1', b'A', rest @ ..] => length == 4 && matches!(rest, [] | [49 | 50]),
        [b'1', b'C' | b'E' | b'Q'] => length == 3,
        [b'1', b'P'] => 4 <= length && length <= 7092,
        [b'1', b'P', b'0', data @ ..] => {
            4 <= length && length <= 7092 && data.len().saturating_add(3) < length as usize
        }
        _ => false,
    }
}

// Why a byte after these is refused.
fn reason_after(before: &[u8]) -> FaultReason {
    match before {
        [] => FaultReason::UnknownByte,
        [_] | [GS, b'(' | b'8' | b'v'] | [ESC, b'c'] => FaultReason::UnknownCommand,
        // cn and fn
        [GS, b'(', b'k', _, _] | [GS, b'(', b'k', _, _, _] => FaultReason::UnknownCommand,
        [GS, b'(', b'L', rest @ ..] => reason_in_graphics(rest.len(), 2),
        [GS, b'8', b'L', rest @ ..] => reason_in_graphics(rest.len(), 4),
        [GS, b'k', _, ..] => FaultReason::BadBarcode,
        [GS, b'v', _, _, ..] => FaultReason::BadSize,
        _ => FaultReason::BadParameter,
    }
}

// Whether each byte may stand in the id of a mark.
fn is_id(id: &[u8]) -> bool {
    for byte in id {
        if *byte < 32 || 126 < *byte {
            return false;
        }
    }
    true
}

// The barcode that these bytes spell after GS k.
fn bars_spelled(rt: &impl Abort, alloc: Global, rest: &[u8]) -> Option<Command> {
    let (form, mode, content) = match rest {
        [m @ 0..=6, content @ .., 0] => (Form::A, *m, content),
        [m @ 65..=74, n, content @ ..] if content.len() == *n as usize => (Form::B, *m, content),
        _ => return None,
    };
    let symbology = symbology_of(form, mode).expect(rt, "memory");
    if !begins_content(symbology, content.len(), content) {
        return None;
    }
    let content = content.to_vec(alloc).expect(rt, "memory");
    let bars = Bars::new(form, symbology, content).ok();
    Some(Command::Bars(bars.expect(rt, "a content of the table")))
}

// Whether a content that begins so goes on, at some length.
fn begins_form_a(mode: u8, content: &[u8]) -> bool {
    let Some(symbology) = symbology_of(Form::A, mode) else {
        return false;
    };
    for length in content.len()..=255 {
        if begins_content(symbology, length, content) {
            return true;
        }
    }
    false
}

// Whether a length and a content that begin so go on.
fn begins_form_b(mode: u8, rest: &[u8]) -> bool {
    match (symbology_of(Form::B, mode), rest) {
        (None, _) => false,
        (Some(_), []) => true,
        (Some(symbology), [length, content @ ..]) => {
            let length = *length as usize;
            content.len() < length && begins_content(symbology, length, content)
        }
    }
}

// The symbology with this mode.
fn symbology_of(form: Form, mode: u8) -> Option<Symbology> {
    match (form, mode) {
        (Form::A, 0) | (Form::B, 65) => Some(Symbology::UpcA),
        (Form::A, 1) | (Form::B, 66) => Some(Symbology::UpcE),
        (Form::A, 2) | (Form::B, 67) => Some(Symbology::Ean13),
        (Form::A, 3) | (Form::B, 68) => Some(Symbology::Ean8),
        (Form::A, 4) | (Form::B, 69) => Some(Symbology::Code39),
        (Form::A, 5) | (Form::B, 70) => Some(Symbology::Itf),
        (Form::A, 6) | (Form::B, 71) => Some(Symbology::Codabar),
        (Form::B, 72) => Some(Symbology::Code93),
        (Form::B, 73) => Some(Symbology::Code128),
        (Form::B, 74) => Some(Symbology::Gs1Code128),
        _ => None,
    }
}

// Whether there are contents of this length, and one of them begins with these bytes.
fn begins_content(symbology: Symbology, length: usize, bytes: &[u8]) -> bool {
    if !has_length(symbology, length) {
        return false;
    }
    for (place, byte) in bytes.iter().enumerate() {
        if !allows(symbology, length, place, *byte) {
            return false;
        }
    }
    true
}

// Whether there are contents of this length.
fn has_length(symbology: Symbology, length: usize) -> bool {
    match symbology {
        Symbology::UpcA => [11, 12].contains(&length),
        Symbology::UpcE => [6, 7, 8, 11, 12].contains(&length),
        Symbology::Ean13 => [12, 13].contains(&length),
        Symbology::Ean8 => [7, 8].contains(&length),
        Symbology::Code39 | Symbology::Code93 => 1 <= length && length <= 255,
        Symbology::Itf => 2 <= length && length <= 254 && length % 2 == 0,
        Symbology::Codabar | Symbology::Code128 | Symbology::Gs1Code128 => {
            2 <= length && length <= 255
        }
    }
}

// Whether a content of this length may have this byte at this place, counted from 0.
fn allows(symbology: Symbology, length: usize, place: usize, byte: u8) -> bool {
    let allowed: &[u8] = match (symbology, place) {
        (Symbology::Code39, _) => b"0123456789ABCDEFGHIJKLMNOPQRSTUVWXYZ $%*+-./",
        (Symbology::Codabar, 0) => b"ABCDabcd",
        (Symbology::Codabar, _) if place.checked_add(1) == Some(length) => b"ABCDabcd",
        (Symbology::Codabar, _) => b"0123456789$+-./:",
        (Symbology::Code128, 0) => b"{",
        (Symbology::Code128, 1) => b"ABC",
        (Symbology::Code128, _) => return byte <= 127,
        (Symbology::Code93 | Symbology::Gs1Code128, _) => return byte <= 127,
        (Symbology::UpcE, 0) if length != 6 => b"0",
        _ => b"0123456789",
    };
    allowed.contains(&byte)
}

// The raster with this size and these dots.
fn raster_spelled(rt: &impl Abort, alloc: Global, mode: u8, rest: &[u8]) -> Option<Command> {
    let [x_low, x_high, y_low, y_high, dots @ ..] = rest else {
        return None;
    };
    let x = u16::from_le_bytes([*x_low, *x_high]);
    let y = u16::from_le_bytes([*y_low, *y_high]);
    if !begins_size(&rest[..4]) || dots.len() != x as usize * y as usize {
        return None;
    }
    let dots = dots.to_vec(alloc).expect(rt, "memory");
    let raster = Raster::new(mode, x, y, dots).ok();
    Some(Command::Raster(raster.expect(rt, "a size of the table")))
}

// Whether a size and dots that begin so go on.
fn begins_raster(rest: &[u8]) -> bool {
    match rest {
        [x_low, x_high, y_low, y_high, dots @ ..] => {
            let x = u16::from_le_bytes([*x_low, *x_high]);
            let y = u16::from_le_bytes([*y_low, *y_high]);
            begins_size(&rest[..4]) && dots.len() < x as usize * y as usize
        }
        _ => begins_size(rest),
    }
}

// Whether some raster's size begins with these bytes: xL, xH, yL and yH.
fn begins_size(bytes: &[u8]) -> bool {
    match bytes {
        [] => true,
        [1..=128] | [1..=128, 0] | [1..=128, 0, _] => true,
        [1..=128, 0, low, high] => {
            let height = u16::from_le_bytes([*low, *high]);
            1 <= height && height <= 4095
        }
        _ => false,
    }
}
