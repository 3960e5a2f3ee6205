//! Commands as values: they are equal where each part is, their bytes are moved, and a spelling asks for no more room than
//! it needs.

use crate::support::commands::append;
use escpos_command::{
    Bars, Command, Form, QrData, QrLevel, QrModel, QrSize, Raster, Symbology, laws,
};
use escpos_test_values::{Stream, bytes_of, spell_to, unlike};
use std::alloc::Global;
use std::process::Abort;

// A barcode with this content.
fn barcode(
    rt: &impl Abort,
    alloc: Global,
    (form, symbology): (Form, Symbology),
    content: &[u8],
) -> Command {
    let content = content.to_vec(alloc).expect(rt, "memory");
    Command::Bars(Bars::new(form, symbology, content).expect(rt, "a barcode"))
}

// Appends a barcode of each form that the symbology has, with this content.
fn append_barcodes(
    rt: &impl Abort,
    alloc: Global,
    commands: &mut Vec<Command>,
    symbology: Symbology,
    content: &[u8],
) {
    for form in [Form::A, Form::B] {
        if symbology.has_form(form) {
            append(rt, commands, barcode(rt, alloc, (form, symbology), content));
        }
    }
}

// The longest content of each symbology: its first bytes, a byte that comes so often, and its last bytes.
const LONGEST: [(Symbology, Stream<'static>); 10] = [
    (Symbology::UpcA, (b"", b'7', 12, b"")),
    (Symbology::UpcE, (b"0", b'7', 11, b"")),
    (Symbology::Ean13, (b"", b'7', 13, b"")),
    (Symbology::Ean8, (b"", b'7', 8, b"")),
    (Symbology::Code39, (b"", b'$', 255, b"")),
    (Symbology::Itf, (b"", b'7', 254, b"")),
    (Symbology::Codabar, (b"A", b':', 253, b"d")),
    (Symbology::Code93, (b"", 0x7F, 255, b"")),
    (Symbology::Code128, (b"{C", 0x7F, 253, b"")),
    (Symbology::Gs1Code128, (b"", 0x7F, 255, b"")),
];

// Appends a barcode of each form and symbology with its longest content.
fn append_longest(rt: &impl Abort, alloc: Global, commands: &mut Vec<Command>) {
    for (symbology, stream) in LONGEST {
        let content = bytes_of(alloc, stream).expect(rt, "memory");
        append_barcodes(rt, alloc, commands, symbology, &content);
    }
}

// A command's spelling takes no more room than it needs, and its clone is equal to it.
fn has_room(rt: &impl Abort, alloc: Global, command: &Command) {
    let mut out = Vec::new(alloc);
    spell_to(command, &mut out).expect(rt, "memory");
    assert!(rt; out.len() == command.spelled_len());
    assert!(rt; out.capacity() <= 1024);
    assert!(rt; laws::same_clone(command).expect(rt, "memory") == *command);
}

// Where there is memory, it isn't said to be refused.
#[test]
fn longest_barcodes(rt: HostRuntime) {
    let mut commands = Vec::new(rt.alloc());
    append_longest(&rt, rt.alloc(), &mut commands);
    assert!(rt; commands.len() == 17);
    for command in &commands {
        has_room(&rt, rt.alloc(), command);
    }
}

// A list with room to spare for 4,096 bytes.
fn roomy(rt: &impl Abort, alloc: Global, bytes: &[u8]) -> Vec<u8> {
    let mut list = Vec::new(alloc);
    list.reserve(4096).expect(rt, "memory");
    list.extend_from_slice(bytes).expect(rt, "memory");
    list
}

// The list that comes back is the one that was given: it still has its room.
#[test]
fn bytes_are_moved(rt: HostRuntime) {
    let list = roomy(&rt, rt.alloc(), b"12");
    let bars = Bars::new(Form::B, Symbology::Itf, list).expect(&rt, "a barcode");
    assert!(rt; bars.into_content().into_vec().capacity() >= 4096);
    let list = roomy(&rt, rt.alloc(), b"12");
    let raster = Raster::new(0, 1, 2, list).expect(&rt, "a raster");
    assert!(rt; raster.into_dots().into_vec().capacity() >= 4096);
    let list = roomy(&rt, rt.alloc(), b"12");
    let stored = QrData::new(list).expect(&rt, "the data of a QR code");
    assert!(rt; stored.into_bytes().into_vec().capacity() >= 4096);
}

// Rasters that differ in their mode, their size or their dots.
const RASTERS: [(u8, u16, u16, &[u8]); 5] = [
    (0, 1, 2, b"ab"),
    (48, 1, 2, b"ab"),
    (0, 2, 1, b"ab"),
    (0, 1, 2, b"ac"),
    (0, 1, 1, b"a"),
];

// Appends these rasters.
fn append_rasters(rt: &impl Abort, alloc: Global, commands: &mut Vec<Command>) {
    for (mode, width, height, dots) in RASTERS {
        let dots = dots.to_vec(alloc).expect(rt, "memory");
        let raster = Raster::new(mode, width, height, dots).expect(rt, "a raster");
        append(rt, commands, Command::Raster(raster));
    }
}

// Appends stores of data that differ in a byte or in their length.
fn append_stores(rt: &impl Abort, alloc: Global, commands: &mut Vec<Command>) {
    let all: [Stream; 5] = [
        (b"ab", 0, 0, b""),
        (b"ac", 0, 0, b""),
        (b"a", 0, 0, b""),
        (b"", b'7', 7089, b""),
        (b"", b'7', 7088, b"8"),
    ];
    for stream in all {
        let data = bytes_of(alloc, stream).expect(rt, "memory");
        let stored = QrData::new(data).expect(rt, "the data of a QR code");
        append(rt, commands, Command::QrStore(stored));
    }
}

// Appends the other commands of QR codes, some with parameters that differ.
fn append_functions(rt: &impl Abort, commands: &mut Vec<Command>) {
    for n in [49, 50] {
        let model = QrModel::new(n).expect(rt, "a model");
        append(rt, commands, Command::QrModel(model));
    }
    for n in [1, 16] {
        let size = QrSize::new(n).expect(rt, "a size");
        append(rt, commands, Command::QrSize(size));
    }
    for n in [48, 49, 50, 51] {
        let level = QrLevel::new(n).expect(rt, "a level");
        append(rt, commands, Command::QrLevel(level));
    }
    append(rt, commands, Command::QrPrint);
}

// Each of these is spelled in no more room than it needs, and its clone is equal to it.
#[test]
fn qr_codes_as_values(rt: HostRuntime) {
    let mut commands = Vec::new(rt.alloc());
    append_stores(&rt, rt.alloc(), &mut commands);
    append_functions(&rt, &mut commands);
    assert!(&rt; unlike(&commands) == None);
    for command in &commands {
        is_modest(&rt, rt.alloc(), command);
    }
}

// A command's spelling takes at most 256 bytes more than it needs, and its clone is equal to it.
fn is_modest(rt: &impl Abort, alloc: Global, command: &Command) {
    let mut out = Vec::new(alloc);
    spell_to(command, &mut out).expect(rt, "memory");
    assert!(rt; out.len() == command.spelled_len());
    assert!(rt; out.capacity() <= out.len().saturating_add(256));
    assert!(rt; laws::same_clone(command).expect(rt, "memory") == *command);
}

// Equality sees each part of a barcode and of a raster.
#[test]
fn unequal_commands(rt: HostRuntime) {
    let mut commands = Vec::new(rt.alloc());
    append_longest(&rt, rt.alloc(), &mut commands);
    append_rasters(&rt, rt.alloc(), &mut commands);
    for (symbology, content) in [
        (Symbology::Itf, b"11"),
        (Symbology::Itf, b"12"),
        (Symbology::Code39, b"11"),
    ] {
        append_barcodes(&rt, rt.alloc(), &mut commands, symbology, content);
    }
    assert!(&rt; unlike(&commands) == None);
}
