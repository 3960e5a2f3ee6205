//! Graphics as values: which there are, how they are spelled, and what they are refused for.

use crate::support::commands::{append, spell, spell_from, spelled_len};
use escpos_command::{
    Command, Graphics, GraphicsFault, GraphicsForm, GraphicsFunction, GraphicsHead,
    LONGEST_SPELLING, Scale,
};
use escpos_test_values::{bytes_of, unlike};
use std::alloc::Global;
use std::process::Abort;

const LEAST: GraphicsHead = GraphicsHead {
    form: GraphicsForm::Short,
    across: 1,
    down: 1,
    width: 1,
    height: 1,
};

// Graphics with so many bytes of dots, all of them this byte.
fn graphics_of(
    rt: &impl Abort,
    alloc: Global,
    head: GraphicsHead,
    (byte, count): (u8, usize),
) -> Graphics {
    let dots = bytes_of(alloc, (b"", byte, count, b"")).expect(rt, "memory");
    Graphics::new(head, dots).expect(rt, "graphics")
}

// So many bytes of dots are refused for this reason, and come back.
fn refuses(
    rt: &impl Abort,
    alloc: Global,
    head: GraphicsHead,
    (byte, count): (u8, usize),
    why: GraphicsFault,
) {
    let dots = bytes_of(alloc, (b"", byte, count, b"")).expect(rt, "memory");
    match Graphics::new(head, dots) {
        Ok(_) => panic!(rt; "graphics"),
        Err((fault, back)) => {
            assert!(rt; fault == why);
            assert!(rt; back.len() == count);
        }
    }
}

// Each reason, and that the first one counts.
#[test]
fn refusals(rt: HostRuntime) {
    let nothing = GraphicsHead {
        across: 0,
        width: 0,
        height: 0,
        ..LEAST
    };
    refuses(&rt, rt.alloc(), nothing, (1, 0), GraphicsFault::Factor);
    for factor in [0, 3, 49, 255] {
        let head = GraphicsHead {
            across: factor,
            ..LEAST
        };
        refuses(&rt, rt.alloc(), head, (0, 1), GraphicsFault::Factor);
        let head = GraphicsHead {
            down: factor,
            ..LEAST
        };
        refuses(&rt, rt.alloc(), head, (0, 1), GraphicsFault::Factor);
    }
    for width in [0, 1025, 65535] {
        let head = GraphicsHead {
            width,
            height: 0,
            ..LEAST
        };
        refuses(&rt, rt.alloc(), head, (0, 1), GraphicsFault::Width);
    }
    for height in [0, 4096, 65535] {
        let head = GraphicsHead { height, ..LEAST };
        refuses(&rt, rt.alloc(), head, (0, 1), GraphicsFault::Height);
    }
    let long = GraphicsHead {
        form: GraphicsForm::Long,
        ..LEAST
    };
    for count in [0, 65_526] {
        refuses(&rt, rt.alloc(), LEAST, (0xFF, count), GraphicsFault::Length);
    }
    for count in [0, 524_161] {
        refuses(&rt, rt.alloc(), long, (0xFF, count), GraphicsFault::Length);
    }
}

// Graphics may have other dots than those of their size, and any bits in a row's last byte. They know whether the dots are those of the
// size.
#[test]
fn dots_of_a_size(rt: HostRuntime) {
    let rows = [
        ((1, 1), 1, true),
        ((1, 1), 2, false),
        ((8, 1), 1, true),
        ((9, 1), 1, false),
        ((9, 1), 2, true),
        ((8, 2), 1, false),
        ((8, 2), 2, true),
        ((8, 2), 3, false),
        ((1023, 3), 384, true),
        ((1024, 3), 384, true),
        ((1, 65), 65_525, false),
    ];
    for ((width, height), count, has_its_dots) in rows {
        let head = GraphicsHead {
            width,
            height,
            ..LEAST
        };
        let stored = graphics_of(&rt, rt.alloc(), head, (0xFF, count));
        assert!(&rt; stored.dots().len() == count);
        assert!(&rt; stored.has_its_dots() == has_its_dots);
    }
}

// The short form counts at most 65,535 bytes with the ten before the dots: 25 bytes to a row and 2,621 rows are 65,525 bytes.
#[test]
fn longest_short_form(rt: HostRuntime) {
    let head = GraphicsHead {
        width: 200,
        height: 2621,
        ..LEAST
    };
    let store = [Command::GraphicsStore(graphics_of(&rt, rt.alloc(), head, (0xA5, 65_525)))];
    let front = b"\x1D(L\xFF\xFF0p0\x01\x011\xC8\x00\x3D\x0A";
    let bytes = bytes_of(rt.alloc(), (front, 0xA5, 65_525, b"")).expect(&rt, "memory");
    assert!(&rt; spelled_len(&store[0]) == 65_540);
    spell(&rt, rt.alloc(), &store, &bytes);
    let long = GraphicsHead {
        form: GraphicsForm::Long,
        ..head
    };
    assert!(&rt; graphics_of(&rt, rt.alloc(), long, (0, 65_526)).dots().len() == 65_526);
}

#[test]
fn largest_graphics(rt: HostRuntime) {
    let head = GraphicsHead {
        form: GraphicsForm::Long,
        across: 2,
        down: 2,
        width: 1024,
        height: 4095,
    };
    let largest = graphics_of(&rt, rt.alloc(), head, (0xA5, 524_160));
    assert!(&rt; largest.row_bytes() == 128);
    let store = [Command::GraphicsStore(largest)];
    let front = b"\x1D8L\x8A\xFF\x07\x000p0\x02\x021\x00\x04\xFF\x0F";
    let bytes = bytes_of(rt.alloc(), (front, 0xA5, 524_160, b"")).expect(&rt, "memory");
    assert!(&rt; spelled_len(&store[0]) == LONGEST_SPELLING && LONGEST_SPELLING == 524_177);
    spell(&rt, rt.alloc(), &store, &bytes);
    let mut out = [9; 4];
    assert!(&rt; spell_from(&store[0], 15, &mut out) == 4);
    assert!(&rt; out == [0xFF, 0x0F, 0xA5, 0xA5]);
}

#[test]
fn scales(rt: HostRuntime) {
    let rows = [
        (1, 1, Scale::Normal),
        (2, 1, Scale::Wide),
        (1, 2, Scale::Tall),
        (2, 2, Scale::Both),
    ];
    for (across, down, scale) in rows {
        let head = GraphicsHead {
            across,
            down,
            ..LEAST
        };
        assert!(&rt; graphics_of(&rt, rt.alloc(), head, (0x80, 1)).scale() == scale);
    }
}

#[test]
fn prints(rt: HostRuntime) {
    let rows: [(u8, &[u8]); 2] = [(2, b"\x1D(L\x02\x000\x02"), (50, b"\x1D(L\x02\x0002")];
    for (byte, spelling) in rows {
        let function = GraphicsFunction::new(byte).expect(&rt, "a function");
        assert!(&rt; function.byte() == byte);
        spell(
            &rt,
            rt.alloc(),
            &[Command::GraphicsPrint(function)],
            spelling,
        );
    }
    for byte in [0, 1, 3, 48, 49, 51, 112] {
        assert!(&rt; GraphicsFunction::new(byte) == None);
    }
}

// Graphics that differ in one thing are unlike, and a clone is equal.
#[test]
fn as_values(rt: HostRuntime) {
    let heads = [
        LEAST,
        GraphicsHead {
            form: GraphicsForm::Long,
            ..LEAST
        },
        GraphicsHead { across: 2, ..LEAST },
        GraphicsHead { down: 2, ..LEAST },
        GraphicsHead { width: 2, ..LEAST },
    ];
    let mut commands = Vec::new(rt.alloc());
    for head in heads {
        let stored = graphics_of(&rt, rt.alloc(), head, (0x80, 1));
        append(&rt, &mut commands, Command::GraphicsStore(stored));
    }
    let stored = graphics_of(&rt, rt.alloc(), LEAST, (0, 1));
    append(&rt, &mut commands, Command::GraphicsStore(stored));
    let tall = GraphicsHead { height: 2, ..LEAST };
    let stored = graphics_of(&rt, rt.alloc(), tall, (0x80, 2));
    append(&rt, &mut commands, Command::GraphicsStore(stored));
    for byte in [2, 50] {
        let function = GraphicsFunction::new(byte).expect(&rt, "a function");
        append(&rt, &mut commands, Command::GraphicsPrint(function));
    }
    assert!(&rt; unlike(&commands) == None);
    for command in &commands {
        let copy = command.clone().expect(&rt, "memory");
        assert!(&rt; copy == *command);
    }
}
