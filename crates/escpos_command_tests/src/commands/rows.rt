//! The worked rows of the grammar, and each call on its happy path.

use crate::support::commands::{characters, spell, spell_from, spelled_len, write_to};
use escpos_command::{
    Answer, AutomaticStatus, BarFault, Bars, Character, CharsFault, Command, Correction,
    FaultReason, FeedLines, Form, MOST_QR_DATA, MarkId, QrData, QrLevel, QrModel, QrSize, Raster,
    RasterFault, Reporting, Scale, Symbology,
};
use escpos_io::{Device, MemoryOut, Outgoing};
use escpos_test_values::{FIVE, MARK_35, bytes_of, five_commands_of, spell_to};
use std::alloc::Global;
use std::process::Abort;

// The commands are written to a sink with this room: it ends so, and these bytes went out.
fn write(
    rt: &impl Abort,
    commands: &[Command],
    room: &mut [u8],
    (wanted, bytes): (Result<(), Device>, &[u8]),
) {
    let mut sink = MemoryOut::new(room);
    assert!(rt; write_to(commands, &mut sink) == wanted);
    assert!(rt; sink.written() == bytes);
}

// The commands are written to a list of bytes, which is this one then.
fn write_all(rt: &impl Abort, alloc: Global, commands: &[Command], bytes: &[u8]) {
    let mut sink = Outgoing::new(Vec::new(alloc));
    assert!(rt; write_to(commands, &mut sink) == Ok(()));
    assert!(rt;
        sink.into_inner().as_slice() == bytes,
        "other bytes went out"
    );
}

#[test]
fn five_commands(rt: HostRuntime) {
    let commands = five_commands_of(rt.alloc()).expect(&rt, "five commands");
    spell(&rt, rt.alloc(), &commands, FIVE);
}

#[test]
fn mark_numbers(rt: HostRuntime) {
    for (number, id) in [
        (0, *b"0000"),
        (35, *b"000Z"),
        (36, *b"0010"),
        (1_679_615, *b"ZZZZ"),
    ] {
        let mark = MarkId::of_number(number).expect(&rt, "number");
        assert!(rt; mark.bytes() == id, "{number}");
        assert!(rt; MarkId::new(id) == Some(mark), "{number}");
        assert!(rt; mark.number() == Some(number), "{number}");
    }
    assert!(rt; MarkId::of_number(1_679_616) == None);
    for id in [*b"000a", *b"0 00"] {
        assert!(rt; MarkId::new(id).expect(&rt, "id").number() == None);
    }
}

#[test]
fn mark_35(rt: HostRuntime) {
    let mark = Command::Mark(MarkId::of_number(35).expect(&rt, "number"));
    let parts = mark.parts();
    assert!(rt; parts.prefix == &MARK_35[..7]);
    assert!(rt; parts.parameters.as_slice() == &MARK_35[7..]);
    spell(&rt, rt.alloc(), &[mark], &MARK_35);
}

// The bytes of a block: whether they are one, and whether they say that the printer is offline, its cover open, its paper near
// its end or ended.
const BLOCKS: [([u8; 4], Option<[bool; 4]>); 12] = [
    ([0x10, 0x00, 0x00, 0x00], Some([false, false, false, false])),
    ([0x38, 0x00, 0x00, 0x00], Some([true, true, false, false])),
    ([0x18, 0x00, 0x0F, 0x00], Some([true, false, true, true])),
    ([0x10, 0x00, 0x03, 0x00], Some([false, false, true, false])),
    ([0x10, 0x00, 0x08, 0x00], Some([false, false, false, true])),
    ([0x7C, 0x6F, 0x6F, 0x6F], Some([true, true, true, true])),
    ([0x12, 0x00, 0x00, 0x00], None),
    ([0x11, 0x00, 0x00, 0x00], None),
    ([0x00, 0x00, 0x00, 0x00], None),
    ([0x90, 0x00, 0x00, 0x00], None),
    ([0x10, 0x10, 0x00, 0x00], None),
    ([0x10, 0x00, 0x00, 0x80], None),
];

// A block with these bytes, and what it says.
fn says(rt: &impl Abort, block: &AutomaticStatus, bytes: [u8; 4], wanted: [bool; 4]) {
    let [offline, cover_open, near_end, paper_end] = wanted;
    assert!(rt; block.bytes() == bytes);
    assert!(rt; block.is_offline() == offline);
    assert!(rt; block.is_cover_open() == cover_open);
    assert!(rt; block.is_near_end() == near_end);
    assert!(rt; block.is_paper_end() == paper_end);
    assert!(rt; Answer::Condition(*block).bytes().as_slice() == bytes.as_slice());
}

#[test]
fn blocks_of_automatic_status(rt: HostRuntime) {
    for (bytes, wanted) in BLOCKS {
        match (AutomaticStatus::new(bytes), wanted) {
            (Some(block), Some(wanted)) => says(&rt, &block, bytes, wanted),
            (None, None) => {}
            _ => assert!(&rt; false, "a block or none"),
        }
    }
}

#[test]
fn reporting(rt: HostRuntime) {
    assert!(rt; !Reporting::off().is_on());
    for (byte, is_on) in [(0x00, false), (0x01, true), (0x0E, true), (0x80, true)] {
        let reporting = Reporting::new(byte);
        assert!(rt; reporting.is_on() == is_on);
        spell(
            &rt,
            rt.alloc(),
            &[Command::AutomaticStatus(reporting)],
            &[0x1D, 0x61, byte],
        );
    }
}

#[test]
fn unequal_reasons(rt: HostRuntime) {
    assert!(rt; FaultReason::UnknownByte != FaultReason::UnknownCommand);
    assert!(rt; FaultReason::UnknownCommand != FaultReason::BadParameter);
    assert!(rt; FaultReason::BadParameter != FaultReason::UnknownByte);
}

// A text with a control byte at this place.
fn refuse_chars(rt: &impl Abort, alloc: Global, text: &[u8], place: usize) {
    let refused = characters(alloc, text);
    assert!(rt; matches!(refused, Err(CharsFault::ControlByte { at }) if at == place));
}

// Whether this command is this character in the line.
fn is_character(command: &Command, byte: u8) -> bool {
    match command {
        Command::Char(character) => character.byte() == byte,
        _ => false,
    }
}

// The characters of a text, for which there is memory.
fn gives_chars(rt: &impl Abort, alloc: Global, text: &[u8]) {
    let commands = characters(alloc, text).expect(rt, "memory");
    assert!(rt; commands.len() == text.len());
    for (command, byte) in commands.iter().zip(text) {
        assert!(rt; is_character(command, *byte));
    }
}

#[test]
fn chars_of_text(rt: HostRuntime) {
    refuse_chars(&rt, rt.alloc(), &[0x41, 0x1B], 1);
    gives_chars(&rt, rt.alloc(), &[0x41, 0x42]);
}

#[test]
fn chars_of_a_long_text(rt: HostRuntime) {
    let mut text = bytes_of(rt.alloc(), (b"", b'A', 5000, b"")).expect(&rt, "memory");
    gives_chars(&rt, rt.alloc(), &text);
    text.push(0x1B).expect(&rt, "memory");
    refuse_chars(&rt, rt.alloc(), &text, 5000);
}

#[test]
fn short_writer(rt: HostRuntime) {
    let commands = five_commands_of(rt.alloc()).expect(&rt, "five commands");
    let short = (Err(Device { written: 5 }), b"\x1B@Hi\x0A".as_slice());
    write(&rt, &commands, &mut [0; 5], short);
    write(&rt, &commands, &mut [0; 9], (Ok(()), FIVE));
}

// Many small pieces go out in order.
#[test]
fn small_pieces_go_out_in_order(rt: HostRuntime) {
    let mut commands = Vec::new(rt.alloc());
    let mut want = Vec::new(rt.alloc());
    for number in 0..=255u8 {
        let feed = FeedLines::new(number);
        for _ in 0..9 {
            commands
                .push(Command::FeedLines(feed))
                .expect(&rt, "memory");
            want.extend_from_slice(&[0x1B, 0x64, number])
                .expect(&rt, "memory");
        }
    }
    write_all(&rt, rt.alloc(), &commands, &want);
}

// These bytes are no content, for this reason, and come back.
fn refuse_bars(
    rt: &impl Abort,
    alloc: Global,
    form: Form,
    symbology: Symbology,
    content: &[u8],
    why: BarFault,
) {
    let refused = Bars::new(form, symbology, content.to_vec(alloc).expect(rt, "memory"));
    let Err((fault, back)) = refused else {
        panic!(rt; "a barcode");
    };
    assert!(rt; fault == why);
    assert!(rt; back.as_slice() == content);
}

// Contents that no barcode has, and why.
const NO_BARCODES: [(Form, Symbology, &[u8], BarFault); 29] = [
    (Form::A, Symbology::Code128, b"{A0", BarFault::Form),
    (Form::A, Symbology::Code93, b"A", BarFault::Form),
    (Form::A, Symbology::Gs1Code128, b"12", BarFault::Form),
    (Form::A, Symbology::Code128, b"", BarFault::Form),
    (Form::A, Symbology::UpcA, b"0360002914", BarFault::Length),
    (Form::B, Symbology::UpcA, b"0360002914521", BarFault::Length),
    (Form::A, Symbology::UpcE, b"12345", BarFault::Length),
    (Form::B, Symbology::UpcE, b"012345678", BarFault::Length),
    (Form::B, Symbology::Code93, b"", BarFault::Length),
    (Form::B, Symbology::Gs1Code128, b"1", BarFault::Length),
    (Form::B, Symbology::Ean13, b"40063813339", BarFault::Length),
    (Form::A, Symbology::Ean8, b"551234", BarFault::Length),
    (Form::A, Symbology::Code39, b"", BarFault::Length),
    (Form::B, Symbology::Itf, b"123", BarFault::Length),
    (Form::B, Symbology::Itf, b"x", BarFault::Length),
    (Form::B, Symbology::Codabar, b"A", BarFault::Length),
    (Form::B, Symbology::Code128, b"{", BarFault::Length),
    (
        Form::A,
        Symbology::UpcA,
        b"0360002914x",
        BarFault::Byte { at: 10 },
    ),
    (
        Form::A,
        Symbology::UpcE,
        b"12345x",
        BarFault::Byte { at: 5 },
    ),
    (
        Form::B,
        Symbology::UpcE,
        b"1234567",
        BarFault::Byte { at: 0 },
    ),
    (
        Form::B,
        Symbology::Code93,
        b"A\x80",
        BarFault::Byte { at: 1 },
    ),
    (
        Form::B,
        Symbology::Gs1Code128,
        b"12\xFF",
        BarFault::Byte { at: 2 },
    ),
    (Form::A, Symbology::Code39, b"AbC", BarFault::Byte { at: 1 }),
    (Form::B, Symbology::Codabar, b"0B", BarFault::Byte { at: 0 }),
    (
        Form::B,
        Symbology::Codabar,
        b"AAB",
        BarFault::Byte { at: 1 },
    ),
    (
        Form::B,
        Symbology::Codabar,
        b"A00",
        BarFault::Byte { at: 2 },
    ),
    (Form::B, Symbology::Code128, b"}A", BarFault::Byte { at: 0 }),
    (Form::B, Symbology::Code128, b"{D", BarFault::Byte { at: 1 }),
    (
        Form::B,
        Symbology::Code128,
        b"{A\x80",
        BarFault::Byte { at: 2 },
    ),
];

#[test]
fn barcodes_are_refused(rt: HostRuntime) {
    for (form, symbology, content, why) in &NO_BARCODES {
        refuse_bars(&rt, rt.alloc(), *form, *symbology, content, *why);
    }
    let long = [b'0'; 256].as_slice();
    let (code39, itf) = (Symbology::Code39, Symbology::Itf);
    refuse_bars(&rt, rt.alloc(), Form::A, code39, long, BarFault::Length);
    refuse_bars(&rt, rt.alloc(), Form::B, itf, long, BarFault::Length);
}

// These bytes are no raster, for this reason, and come back.
fn refuse_raster(
    rt: &impl Abort,
    alloc: Global,
    mode: u8,
    size: [u16; 2],
    dots: &[u8],
    why: RasterFault,
) {
    let [width, height] = size;
    let refused = Raster::new(mode, width, height, dots.to_vec(alloc).expect(rt, "memory"));
    let Err((fault, back)) = refused else {
        panic!(rt; "a raster");
    };
    assert!(rt; fault == why);
    assert!(rt; back.as_slice() == dots);
}

#[test]
fn raster_refusals(rt: HostRuntime) {
    let alloc = rt.alloc();
    refuse_raster(&rt, alloc, 0, [1, 2], &[7], RasterFault::Length);
    refuse_raster(&rt, alloc, 4, [0, 2], &[7], RasterFault::Scale);
    refuse_raster(&rt, alloc, 52, [1, 1], &[7], RasterFault::Scale);
    refuse_raster(&rt, alloc, 3, [0, 0], &[], RasterFault::Width);
    refuse_raster(&rt, alloc, 3, [129, 1], &[7; 129], RasterFault::Width);
    refuse_raster(&rt, alloc, 48, [1, 0], &[], RasterFault::Height);
    refuse_raster(&rt, alloc, 51, [1, 4096], &[7; 4096], RasterFault::Height);
    refuse_raster(&rt, alloc, 51, [2, 3], &[7; 7], RasterFault::Length)
}

// The largest raster, of which each dot is set so.
fn reads_at_places(rt: &impl Abort, raster: &Command) {
    assert!(rt; spelled_len(raster) == 524_168);
    let mut tail = [0u8; 4];
    assert!(rt; spell_from(raster, 524_166, &mut tail) == 2);
    assert!(rt; spell_from(raster, 6, &mut tail) == 4);
    assert!(rt; tail == [0xFF, 0x0F, 0xA5, 0xA5]);
}

// The raster is spelled so, and so is a copy of it.
fn is_spelled_whole(rt: &impl Abort, alloc: Global, raster: &Command, bytes: &[u8]) {
    reads_at_places(rt, raster);
    let copy = [raster.clone().expect(rt, "memory")];
    assert!(rt; copy[0] == *raster);
    spell(rt, alloc, &copy, bytes);
    write_all(rt, alloc, &copy, bytes);
}

#[test]
fn largest_raster(rt: HostRuntime) {
    let bytes = bytes_of(rt.alloc(), (b"\x1Dv02\x80\x00\xFF\x0F", 0xA5, 524_160, b"")).expect(
        &rt, "memory",
    );
    let dots = bytes_of(rt.alloc(), (b"", 0xA5, 524_160, b"")).expect(&rt, "memory");
    let raster = Raster::new(50, 128, 4095, dots).expect(&rt, "a raster");
    is_spelled_whole(&rt, rt.alloc(), &Command::Raster(raster), &bytes);
}

// Of the spelling from this place on so many bytes are written: these, and what stood after them.
fn spells_at(rt: &impl Abort, command: &Command, place: usize, count: usize, bytes: &[u8]) {
    let mut room = [9u8; 4];
    let out = &mut room[..bytes.len().min(4)];
    assert!(rt; spell_from(command, place, out) == count, "at {place}");
    assert!(rt; *out == *bytes, "at {place}");
}

#[test]
fn spell_at(rt: HostRuntime) {
    let mark = Command::Mark(MarkId::of_number(0).expect(&rt, "a mark"));
    spells_at(&rt, &mark, 6, 3, b"000");
    spells_at(&rt, &mark, 11, 0, &[9; 3]);
    spells_at(&rt, &mark, usize::MAX, 0, &[9; 3]);
    let content = bytes_of(rt.alloc(), (b"12", 0, 0, b"")).expect(&rt, "memory");
    let bars = Bars::new(Form::A, Symbology::Itf, content).expect(&rt, "a barcode");
    let bars = Command::Bars(bars);
    spells_at(&rt, &bars, 2, 4, b"\x0512\x00");
    spells_at(&rt, &bars, 4, 2, b"2\x00\x09\x09");
}

// These bytes are no data of a QR code, and come back.
fn refuse_data(rt: &impl Abort, alloc: Global, data: &[u8]) {
    match QrData::new(data.to_vec(alloc).expect(rt, "memory")) {
        Ok(_) => panic!(rt; "the data of a QR code"),
        Err(back) => assert!(rt; back.as_slice() == data),
    }
}

#[test]
fn qr_data(rt: HostRuntime) {
    assert!(rt; MOST_QR_DATA == 7089);
    refuse_data(&rt, rt.alloc(), b"");
    refuse_data(&rt, rt.alloc(), &[b'7'; 7090]);
    for count in [1, 7089] {
        let data = bytes_of(rt.alloc(), (b"", 0xA5, count, b"")).expect(&rt, "memory");
        let stored = QrData::new(data).expect(&rt, "the data of a QR code");
        assert!(rt; stored.as_slice().len() == count);
        assert!(rt; stored.as_slice().last() == Some(&0xA5));
    }
}

#[test]
fn settings_of_qr_codes(rt: HostRuntime) {
    for (byte, number) in [(48, None), (49, Some(1)), (50, Some(2)), (51, None)] {
        assert!(rt; QrModel::new(byte).map(QrModel::number) == number, "{byte}");
    }
    for (byte, size) in [(0, None), (1, Some(1)), (16, Some(16)), (17, None)] {
        assert!(rt; QrSize::new(byte).map(QrSize::byte) == size, "{byte}");
    }
    for (byte, level) in [
        (47, None),
        (48, Some(Correction::L)),
        (49, Some(Correction::M)),
        (50, Some(Correction::Q)),
        (51, Some(Correction::H)),
        (52, None),
    ] {
        assert!(rt;
            QrLevel::new(byte).map(QrLevel::correction) == level,
            "{byte}"
        );
    }
}

// The length counts three bytes besides the data: 7,092 is B4 1B with its low byte first.
#[test]
fn longest_store(rt: HostRuntime) {
    let data = bytes_of(rt.alloc(), (b"", 0xA5, 7089, b"")).expect(&rt, "memory");
    let stored = QrData::new(data).expect(&rt, "the data of a QR code");
    let store = [Command::QrStore(stored)];
    assert!(rt; spelled_len(&store[0]) == 7097);
    let bytes = bytes_of(rt.alloc(), (b"\x1D(k\xB4\x1B1P0", 0xA5, 7089, b"")).expect(&rt, "memory");
    spell(&rt, rt.alloc(), &store, &bytes);
    write_all(&rt, rt.alloc(), &store, &bytes);
    spells_at(&rt, &store[0], 3, 4, &[0xB4, 0x1B, 0x31, 0x50]);
    spells_at(&rt, &store[0], 7, 4, &[0x30, 0xA5, 0xA5, 0xA5]);
    spells_at(&rt, &store[0], 7096, 1, &[0xA5, 9, 9, 9]);
    spells_at(&rt, &store[0], 7097, 0, &[9; 4]);
}
