//! The settings, with the bytes of the Reference: the table of settings is compared with them byte for byte.

use escpos_command::{Command, Setting, SettingKind};
use escpos_test_values::spell_to;
use std::alloc::Global;
use std::process::Abort;

// A kind, its prefix in the Reference, parameters that it takes, parameters that it doesn't, and its name in a listing.
type Row = (
    SettingKind,
    &'static [u8],
    &'static [u8],
    &'static [u8],
    &'static str,
);

const REFERENCE: [Row; 25] = [
    (SettingKind::Mode, &[0x1B, 0x21], &[0, 255], &[], "mode"),
    (
        SettingKind::Emphasis,
        &[0x1B, 0x45],
        &[0, 255],
        &[],
        "emphasis",
    ),
    (
        SettingKind::DoubleStrike,
        &[0x1B, 0x47],
        &[0, 255],
        &[],
        "strike",
    ),
    (
        SettingKind::Underline,
        &[0x1B, 0x2D],
        &[0, 2, 48, 50],
        &[3, 47, 51],
        "underline",
    ),
    (
        SettingKind::Font,
        &[0x1B, 0x4D],
        &[0, 1, 48, 49],
        &[2, 47, 50],
        "font",
    ),
    (SettingKind::Table, &[0x1B, 0x74], &[0, 255], &[], "table"),
    (
        SettingKind::CharacterSet,
        &[0x1B, 0x52],
        &[0, 17],
        &[18, 48],
        "charset",
    ),
    (
        SettingKind::Reverse,
        &[0x1D, 0x42],
        &[0, 255],
        &[],
        "reverse",
    ),
    (
        SettingKind::Smoothing,
        &[0x1D, 0x62],
        &[0, 255],
        &[],
        "smooth",
    ),
    (
        SettingKind::UpsideDown,
        &[0x1B, 0x7B],
        &[0, 255],
        &[],
        "upside",
    ),
    (
        SettingKind::Align,
        &[0x1B, 0x61],
        &[0, 2, 48, 50],
        &[3, 47, 51],
        "align",
    ),
    (
        SettingKind::LineSpacing,
        &[0x1B, 0x33],
        &[0, 255],
        &[],
        "spacing",
    ),
    (
        SettingKind::Size,
        &[0x1D, 0x21],
        &[0x00, 0x77],
        &[0x08, 0x80],
        "size",
    ),
    (
        SettingKind::BarHeight,
        &[0x1D, 0x68],
        &[1, 255],
        &[0],
        "barheight",
    ),
    (
        SettingKind::BarWidth,
        &[0x1D, 0x77],
        &[2, 6],
        &[1, 7],
        "barwidth",
    ),
    (
        SettingKind::HriPlace,
        &[0x1D, 0x48],
        &[0, 3, 48, 51],
        &[4, 47, 52],
        "hriplace",
    ),
    (
        SettingKind::HriFont,
        &[0x1D, 0x66],
        &[0, 1, 48, 49],
        &[2, 47, 50],
        "hrifont",
    ),
    (
        SettingKind::Unidirectional,
        &[0x1B, 0x55],
        &[0, 255],
        &[],
        "unidirectional",
    ),
    (
        SettingKind::Devices,
        &[0x1B, 0x3D],
        &[0, 255],
        &[],
        "devices",
    ),
    (
        SettingKind::EndSensors,
        &[0x1B, 0x63, 0x33],
        &[0, 255],
        &[],
        "endsensors",
    ),
    (
        SettingKind::StopSensors,
        &[0x1B, 0x63, 0x34],
        &[0, 255],
        &[],
        "stopsensors",
    ),
    (
        SettingKind::PanelButtons,
        &[0x1B, 0x63, 0x35],
        &[0, 255],
        &[],
        "buttons",
    ),
    (
        SettingKind::CharacterSpacing,
        &[0x1B, 0x20],
        &[0, 255],
        &[],
        "charspacing",
    ),
    (
        SettingKind::Color,
        &[0x1B, 0x72],
        &[0, 1, 48, 49],
        &[2, 47, 50, 255],
        "color",
    ),
    (
        SettingKind::Turned,
        &[0x1B, 0x56],
        &[0, 1, 2, 48, 49, 50],
        &[3, 47, 51, 255],
        "turned",
    ),
];

// Those that have no parameter.
const ALONE: [(SettingKind, &'static [u8], &'static str); 3] = [
    (
        SettingKind::DefaultSpacing,
        &[0x1B, 0x32],
        "spacing default",
    ),
    (SettingKind::Home, &[0x1B, 0x3C], "home"),
    (SettingKind::KanjiOff, &[0x1C, 0x2E], "kanji off"),
];

// The command is spelled so, with this parameter after it, if one is given.
fn spells(rt: &impl Abort, alloc: Global, command: &Command, prefix: &[u8], parameter: Option<u8>) {
    let mut wanted = Vec::new(alloc);
    wanted.extend_from_slice(prefix).expect(rt, "memory");
    if let Some(n) = parameter {
        wanted.push(n).expect(rt, "memory");
    }
    let mut out = Vec::new(alloc);
    spell_to(command, &mut out).expect(rt, "memory");
    assert!(rt;
        out.as_slice() == wanted.as_slice(),
        "other bytes were spelled"
    );
}

// The table finds the kind by this prefix.
fn is_found(rt: &impl Abort, kind: SettingKind, prefix: &[u8]) {
    assert!(rt; kind.prefix() == prefix);
    let found = match prefix {
        [first, second] => SettingKind::with_prefix(*first, *second, None),
        [first, second, third] => SettingKind::with_prefix(*first, *second, Some(*third)),
        _ => None,
    };
    assert!(rt; found == Some(kind));
}

// The kind has these bytes, takes and refuses these parameters, and has this name.
fn is_row(rt: &impl Abort, alloc: Global, (kind, prefix, taken, refused, name): Row) {
    is_found(rt, kind, prefix);
    assert!(rt; kind.name() == name);
    assert!(rt; Setting::new(kind, None) == None);
    for n in taken {
        let command = Command::set(kind, *n).expect(rt, "a setting");
        spells(rt, alloc, &command, prefix, Some(*n));
    }
    for n in refused {
        assert!(rt; Setting::new(kind, Some(*n)) == None);
    }
}

// The same without a parameter.
fn is_alone(rt: &impl Abort, alloc: Global, kind: SettingKind, prefix: &[u8], name: &str) {
    is_found(rt, kind, prefix);
    assert!(rt; kind.name() == name);
    assert!(rt; Setting::new(kind, Some(0)) == None);
    let setting = Setting::new(kind, None).expect(rt, "a setting");
    spells(rt, alloc, &Command::Set(setting), prefix, None);
}

#[test]
fn settings_of_the_reference(rt: HostRuntime) {
    for row in REFERENCE {
        is_row(&rt, rt.alloc(), row);
    }
    for (kind, prefix, name) in ALONE {
        is_alone(&rt, rt.alloc(), kind, prefix, name);
    }
    assert!(&rt; SettingKind::with_prefix(0x1B, 0x40, None) == None);
    assert!(&rt; SettingKind::with_prefix(0x1B, 0x63, None) == None);
    assert!(&rt; SettingKind::with_prefix(0x1B, 0x63, Some(0x32)) == None);
}
