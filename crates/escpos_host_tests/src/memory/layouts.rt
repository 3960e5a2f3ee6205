//! Characters and the lines of each layout, as bytes; where memory is refused.

use escpos_layout::{
    Characters, Columns, Field, Side, write_pair, write_row, write_rule, write_wrapped,
};
use escpos_text::{Encoding, TextFault, write_characters};
use std::alloc::Global;
use std::process::Abort;

// What is written: a text with characters of two tables.
#[derive(Clone, Copy)]
enum Layout {
    Text,
    Wrapped,
    Pair,
    Row,
    Rule,
}

fn write(
    layout: Layout,
    columns: Columns,
    fields: &[Field],
    encoding: &mut Encoding,
    out: &mut Vec<u8>,
) -> Result<(), TextFault> {
    match layout {
        Layout::Text => write_characters(encoding, &['é', '€'], out),
        Layout::Wrapped => write_wrapped(encoding, columns, &['é', '.', ' ', '€'], out),
        Layout::Pair => write_pair(encoding, columns, &['é'], &['€'], out),
        Layout::Row => write_row(encoding, fields, out),
        Layout::Rule => write_rule(encoding, columns, '€', out),
    }
}

// One character, in a list. Where memory is refused, the list is empty, and it is put there again.
fn one_at_last(rt: &impl Abort, alloc: Global, character: char) -> Characters {
    let mut characters = Vec::new(alloc);
    if characters.push(character).is_err() {
        assert!(rt; characters.is_empty());
        characters.push(character).expect(rt, "memory");
    }
    Characters::new(characters)
}

// The bytes of a layout. Where memory is refused, nothing was written, and it is written again.
fn is_written_at_last(
    rt: &impl Abort,
    alloc: Global,
    layout: Layout,
    fields: &[Field],
    wanted: &[u8],
) {
    let columns = Columns::new(3).expect(rt, "columns");
    let mut encoding = Encoding::new();
    let mut bytes = Vec::new(alloc);
    if let Err(fault) = write(layout, columns, fields, &mut encoding, &mut bytes) {
        assert!(rt; fault == TextFault::Memory);
        assert!(rt; bytes.is_empty() && encoding == Encoding::new());
        let again = write(layout, columns, fields, &mut encoding, &mut bytes);
        assert!(rt; again.is_ok());
    }
    assert!(rt; bytes.as_slice() == wanted);
    assert!(rt; encoding.table == 19);
}

#[test]
fn layouts_refused(rt: HostRuntime) {
    let fields = [
        Field {
            text: one_at_last(&rt, rt.alloc(), 'é'),
            width: 2,
            side: Side::Left,
        },
        Field {
            text: one_at_last(&rt, rt.alloc(), '€'),
            width: 1,
            side: Side::Right,
        },
    ];
    let rows: [(Layout, &[u8]); 5] = [
        (Layout::Text, b"\x82\x1bt\x13\xd5"),
        (Layout::Wrapped, b"\x82.\n\x1bt\x13\xd5\n"),
        (Layout::Pair, b"\x82 \x1bt\x13\xd5\n"),
        (Layout::Row, b"\x82 \x1bt\x13\xd5\n"),
        (Layout::Rule, b"\x1bt\x13\xd5\xd5\xd5\n"),
    ];
    for (layout, wanted) in rows {
        is_written_at_last(&rt, rt.alloc(), layout, &fields, wanted);
    }
}
