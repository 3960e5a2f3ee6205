//! The worked rows of the decoder, and each call on its happy path.
//!
//! A test makes a decoder and lends it to checks, which own little: what a function owns is proved dropped at each way out
//! of it.

use crate::support::comparison::agrees;
use crate::support::decoders::{BAD, decodes, holds, push_half, reads, refuses_last, steps_to};
use escpos_command::{
    Character, Command, Cut, FaultReason, FeedUnits, MarkId, Position, PositionKind, Pulse,
    Reporting, Setting, SettingKind, TabStops,
};
use escpos_decode::{DecodeFault, Decoder, End, Step};
use escpos_test_values::{FIVE, MARK_35, five_commands_of};
use std::alloc::Global;
use std::process::Abort;

// Pushes bytes to a decoder, and keeps the commands that it gives.
fn push_all(rt: &impl Abort, decoder: &mut Decoder, bytes: &[u8], commands: &mut Vec<Command>) {
    for byte in bytes {
        if let Step::Done(command) = decoder.push(*byte).expect(rt, "a step") {
            commands.push(command).expect(rt, "memory");
        }
    }
}

// The five commands, from one piece and from two. Of seven bytes the last two are a half command.
fn reads_five(rt: &impl Abort, alloc: Global, commands: &[Command]) {
    let end = End::Read { half: 0 };
    decodes(rt, alloc, &[FIVE], commands, end);
    for place in 1..8 {
        decodes(rt, alloc, &[&FIVE[..place], &FIVE[place..]], commands, end);
    }
    let (_, four) = commands.split_last().expect(rt, "five commands");
    decodes(rt, alloc, &[&FIVE[..7]], four, End::Read { half: 2 });
    agrees(rt, alloc, FIVE);
}

#[test]
fn five_commands(rt: HostRuntime) {
    let commands = five_commands_of(rt.alloc()).expect(&rt, "five commands");
    reads_five(&rt, rt.alloc(), &commands);
    let mut decoder = Decoder::new(rt.alloc());
    let mut one_by_one = Vec::new(rt.alloc());
    push_all(&rt, &mut decoder, FIVE, &mut one_by_one);
    assert!(rt; one_by_one == commands);
    holds(&rt, &decoder, 0);
}

// Each printable ASCII byte at each place of a mark's id.
#[test]
fn bytes_of_a_mark(rt: HostRuntime) {
    for byte in 0x20..0x7F {
        for place in 0..4 {
            let mut id = *b"0000";
            id[place] = byte;
            let mark = MarkId::new(id).expect(&rt, "id");
            let mut bytes = MARK_35;
            bytes[7..].copy_from_slice(&id);
            reads(&rt, rt.alloc(), &bytes, &Command::Mark(mark));
        }
    }
}

#[test]
fn align_range(rt: HostRuntime) {
    refuses_last(&rt, rt.alloc(), &[0x1B, 0x61, 0x03], BAD);
    let align = Command::set(SettingKind::Align, 0x32).expect(&rt, "align");
    reads(&rt, rt.alloc(), &[0x1B, 0x61, 0x32], &align);
}

// The place of a fault counts from the byte after the last command.
fn refuses_after_init(rt: &impl Abort, decoder: &mut Decoder, fault: DecodeFault) {
    steps_to(rt, decoder, 0x1B, Ok(Step::More));
    steps_to(rt, decoder, 0x40, Ok(Step::Done(Command::Init)));
    steps_to(rt, decoder, 0x1B, Ok(Step::More));
    steps_to(rt, decoder, 0x26, Err(fault));
}

#[test]
fn unknown_bytes(rt: HostRuntime) {
    let why = FaultReason::UnknownCommand;
    refuses_last(&rt, rt.alloc(), &[0x1B, 0x26], why);
    refuses_last(&rt, rt.alloc(), &[0x06], FaultReason::UnknownByte);
    let fault = DecodeFault::Fault { at: 1, why };
    assert!(rt; [fault.number(), DecodeFault::Memory.number()] == [2, 6]);
    let mut decoder = Decoder::new(rt.alloc());
    refuses_after_init(&rt, &mut decoder, fault);
    let pieces: [&[u8]; 3] = [&[0x1B], &[0x40, 0x1B], &[0x26, 0x41]];
    let end = End::Fault { at: 3, why };
    decodes(&rt, rt.alloc(), &pieces, &[Command::Init], end);
    agrees(&rt, rt.alloc(), &[0x1B, 0x40, 0x1B, 0x26]);
}

// Letters after ESC and GS that the command table doesn't have.
#[test]
fn letters_of_no_command(rt: HostRuntime) {
    let why = FaultReason::UnknownCommand;
    for bytes in [
        [0x1B, 0x4B],
        [0x1B, 0x57],
        [0x1D, 0x50],
        [0x1D, 0x54],
        [0x1D, 0x7C],
    ] {
        refuses_last(&rt, rt.alloc(), &bytes, why);
    }
}

#[test]
fn character_set_range(rt: HostRuntime) {
    let why = BAD;
    refuses_last(&rt, rt.alloc(), &[0x1B, 0x52, 0x12], why);
    let end = End::Fault { at: 2, why };
    decodes(&rt, rt.alloc(), &[&[0x1B, 0x52, 0x12]], &[], end);
    let set = Command::set(SettingKind::CharacterSet, 0x11).expect(&rt, "set");
    let bytes = [0x1B, 0x52, 0x11];
    reads(&rt, rt.alloc(), &bytes, &set);
}

#[test]
fn size_bits(rt: HostRuntime) {
    refuses_last(&rt, rt.alloc(), &[0x1D, 0x21, 0x08], BAD);
    refuses_last(&rt, rt.alloc(), &[0x1D, 0x21, 0x80], BAD);
    let size = Command::set(SettingKind::Size, 0x77).expect(&rt, "size");
    reads(&rt, rt.alloc(), &[0x1D, 0x21, 0x77], &size);
}

#[test]
fn mark_prefix(rt: HostRuntime) {
    let alloc = rt.alloc();
    let unknown = FaultReason::UnknownCommand;
    refuses_last(&rt, alloc, &[0x1D, 0x28, 0x49], unknown);
    refuses_last(&rt, alloc, &[0x1D, 0x28, 0x48, 0x07], BAD);
    let bytes = [0x1D, 0x28, 0x48, 0x06, 0x00, 0x30, 0x30, 0x1F];
    refuses_last(&rt, alloc, &bytes, BAD);
}

#[test]
fn mark_35(rt: HostRuntime) {
    let mark = MarkId::of_number(35).expect(&rt, "number");
    reads(&rt, rt.alloc(), &MARK_35, &Command::Mark(mark));
    let end = End::Read { half: 10 };
    decodes(&rt, rt.alloc(), &[&MARK_35[..10]], &[], end);
}

#[test]
fn cut_feed(rt: HostRuntime) {
    let cut = Cut::with_feed(0x41, 0x05).expect(&rt, "cut");
    reads(
        &rt,
        rt.alloc(),
        &[0x1D, 0x56, 0x41, 0x05],
        &Command::Cut(cut),
    );
}

#[test]
fn units_and_pulse(rt: HostRuntime) {
    let bytes = [0x41, 0x1B, 0x4A, 0x05, 0x1B, 0x70, 0x00, 0x19, 0xFA];
    let a = Character::new(0x41).expect(&rt, "A");
    let units = FeedUnits::new(5);
    let pulse = Pulse::new(0, 0x19, 0xFA).expect(&rt, "pulse");
    let commands = [
        Command::Char(a),
        Command::FeedUnits(units),
        Command::Pulse(pulse),
    ];
    let end = End::Read { half: 0 };
    decodes(&rt, rt.alloc(), &[&bytes], &commands, end);
    agrees(&rt, rt.alloc(), &bytes);
}

// The number of a position has its low byte first; that of ESC \\ may be less than 0.
#[test]
fn positions(rt: HostRuntime) {
    for (bytes, kind, units) in [
        ([0x1B, 0x24, 0x2C, 0x01], PositionKind::Absolute, 300),
        ([0x1B, 0x5C, 0xF4, 0xFF], PositionKind::Relative, 65_524),
        ([0x1D, 0x4C, 0x00, 0x00], PositionKind::LeftMargin, 0),
        ([0x1D, 0x57, 0xFF, 0xFF], PositionKind::AreaWidth, 65_535),
    ] {
        let position = Position::new(kind, units);
        assert!(rt; position.kind() == kind && position.units() == units);
        reads(&rt, rt.alloc(), &bytes, &Command::Position(position));
    }
    reads(&rt, rt.alloc(), &[0x09], &Command::Tab);
}

// These bytes after ESC D are the columns of tab stops.
fn reads_tab_stops(rt: &impl Abort, alloc: Global, columns: &[u8]) {
    let mut bytes = Vec::new(alloc);
    bytes.extend_from_slice(b"\x1BD").expect(rt, "memory");
    bytes.extend_from_slice(columns).expect(rt, "memory");
    bytes.push(0).expect(rt, "memory");
    let stops = TabStops::new(columns.to_vec(alloc).expect(rt, "memory")).ok();
    let stops = stops.expect(rt, "tab stops");
    assert!(rt; stops.as_slice() == columns);
    reads(rt, alloc, &bytes, &Command::TabStops(stops));
}

// The first columns from 1 on.
const COLUMNS: [u8; 33] = [
    1, 2, 3, 4, 5, 6, 7, 8, 9, 10, 11, 12, 13, 14, 15, 16, 17, 18, 19, 20, 21, 22, 23, 24, 25, 26,
    27, 28, 29, 30, 31, 32, 33,
];

// Tab stops rise, and are none to 32. One more, or one that doesn't rise, is refused at its byte.
#[test]
fn tab_stops(rt: HostRuntime) {
    for columns in [b"".as_slice(), &[8, 16], &[255], &COLUMNS[..32]] {
        reads_tab_stops(&rt, rt.alloc(), columns);
    }
    refuses_last(&rt, rt.alloc(), &[0x1B, 0x44, 8, 8], BAD);
    refuses_last(&rt, rt.alloc(), &[0x1B, 0x44, 8, 16, 15], BAD);
    refuses_last(&rt, rt.alloc(), &[0x1B, 0x44, 255, 255], BAD);
    let mut bytes = [0x1B; 35];
    bytes[1] = 0x44;
    bytes[2..].copy_from_slice(&COLUMNS);
    refuses_last(&rt, rt.alloc(), &bytes, BAD);
    for columns in [b"\x00".as_slice(), &[2, 2], &[3, 1], &COLUMNS] {
        let columns = columns.to_vec(rt.alloc()).expect(&rt, "memory");
        assert!(rt; TabStops::new(columns).is_err());
    }
}

// A switch keeps its byte as sent, though only bit 0 counts.
#[test]
fn switches(rt: HostRuntime) {
    let bytes = [
        0x1B, 0x47, 0x03, 0x1D, 0x42, 0x01, 0x1B, 0x7B, 0x30, 0x1D, 0x62, 0xFF,
    ];
    let strike = Command::set(SettingKind::DoubleStrike, 0x03).expect(&rt, "switch");
    let reverse = Command::set(SettingKind::Reverse, 0x01).expect(&rt, "switch");
    let upside_down = Command::set(SettingKind::UpsideDown, 0x30).expect(&rt, "switch");
    let smoothing = Command::set(SettingKind::Smoothing, 0xFF).expect(&rt, "switch");
    let commands = [strike, reverse, upside_down, smoothing];
    let end = End::Read { half: 0 };
    decodes(&rt, rt.alloc(), &[&bytes], &commands, end);
    agrees(&rt, rt.alloc(), &bytes);
}

// GS a takes every byte, and keeps it as sent.
#[test]
fn automatic_status(rt: HostRuntime) {
    let bytes = [0x1D, 0x61, 0x00, 0x1D, 0x61, 0xFF];
    let off = Reporting::new(0x00);
    let on = Reporting::new(0xFF);
    let commands = [Command::AutomaticStatus(off), Command::AutomaticStatus(on)];
    let end = End::Read { half: 0 };
    decodes(&rt, rt.alloc(), &[&bytes], &commands, end);
    agrees(&rt, rt.alloc(), &bytes);
}

// ESC 2 is whole without a parameter: the byte after it begins a command.
#[test]
fn line_spacing(rt: HostRuntime) {
    let bytes = [0x1B, 0x33, 0x18, 0x1B, 0x32, 0x41];
    let default = Setting::new(SettingKind::DefaultSpacing, None).expect(&rt, "a setting");
    let spacing = Command::set(SettingKind::LineSpacing, 0x18).expect(&rt, "spacing");
    let a = Character::new(0x41).expect(&rt, "A");
    let commands = [spacing, Command::Set(default), Command::Char(a)];
    let end = End::Read { half: 0 };
    decodes(&rt, rt.alloc(), &[&bytes], &commands, end);
    agrees(&rt, rt.alloc(), &bytes);
}

fn clears_half(rt: &impl Abort, decoder: &mut Decoder) {
    push_half(rt, decoder, &[0x1D, 0x56]);
    holds(rt, decoder, 2);
    decoder.clear();
    holds(rt, decoder, 0);
    steps_to(rt, decoder, 0x0A, Ok(Step::Done(Command::LineFeed)));
}

#[test]
fn clear_drops_the_half_command(rt: HostRuntime) {
    let mut decoder = Decoder::new(rt.alloc());
    clears_half(&rt, &mut decoder);
}
