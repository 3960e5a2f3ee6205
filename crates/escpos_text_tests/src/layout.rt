//! Worked rows of each layout, one text that is refused, and a change of code table from line to line.

use escpos_command::{FontFace, LineWidth};
use escpos_layout::{
    Characters, Columns, Field, Side, fits_line, write_pair, write_row, write_rule, write_wrapped,
};
use escpos_paper::Style;
use escpos_text::{Choice, Encoding, TextFault};
use std::test::Fail;

// The characters of a text.
fn characters(rt: &HostRuntime, text: &str) -> Result<Vec<char>, Fail> {
    let mut characters = Vec::new(rt.alloc());
    for character in text.chars() {
        characters.push(character)?;
    }
    Ok(characters)
}

// The bytes that are wanted.
fn expect(bytes: &[u8], wanted: &[u8]) -> Result<(), Fail> {
    if bytes == wanted {
        Ok(())
    } else {
        Err(Fail::from("other bytes are printed"))
    }
}

// What a text on the left and one on the right print.
fn expect_pair(
    rt: &HostRuntime,
    count: usize,
    left: &str,
    right: &str,
    wanted: &[u8],
) -> Result<(), Fail> {
    let columns = Columns::new(count).ok_or("no columns")?;
    let left = characters(rt, left)?;
    let right = characters(rt, right)?;
    let mut out = Vec::new(rt.alloc());
    let mut encoding = Encoding::new();
    write_pair(&mut encoding, columns, &left, &right, &mut out)?;
    expect(out.as_slice(), wanted)
}

// What a wrapped text prints.
fn expect_wrapped(rt: &HostRuntime, count: usize, text: &str, wanted: &[u8]) -> Result<(), Fail> {
    let columns = Columns::new(count).ok_or("no columns")?;
    let text = characters(rt, text)?;
    let mut out = Vec::new(rt.alloc());
    let mut encoding = Encoding::new();
    write_wrapped(&mut encoding, columns, &text, &mut out)?;
    expect(out.as_slice(), wanted)
}

// The style of a printer just switched on, with this font and width.
fn sized(font: FontFace, width: u8) -> Style {
    Style {
        font,
        width,
        ..Style::power_on()
    }
}

#[test]
fn columns(rt: HostRuntime) -> Result<(), Fail> {
    let wide = LineWidth::usual();
    let narrow = LineWidth::new(50).ok_or("no width")?;
    assert_eq!(rt; Columns::of(wide, &sized(FontFace::A, 1)).count(), 42);
    assert_eq!(rt; Columns::of(wide, &sized(FontFace::B, 1)).count(), 56);
    assert_eq!(rt; Columns::of(wide, &sized(FontFace::A, 2)).count(), 21);
    assert_eq!(rt; Columns::of(narrow, &sized(FontFace::A, 8)).count(), 1);
    assert!(rt; Columns::new(0).is_none());
    Ok(())
}

#[test]
fn wrapped(rt: HostRuntime) -> Result<(), Fail> {
    expect_wrapped(&rt, 10, "a  b", b"a  b\n")?;
    expect_wrapped(&rt, 10, "", b"\n")?;
    expect_wrapped(&rt, 10, "Schwarzer  Tee, 100 g", b"Schwarzer\nTee, 100 g\n")?;
    expect_wrapped(&rt, 4, "abcd efgh ij", b"abcd\nefgh\nij\n")?;
    expect_wrapped(&rt, 4, "ab    ", b"ab\n")?;
    expect_wrapped(&rt, 4, "a bcdefghij kl", b"a\nbcde\nfghi\nj kl\n")?;
    expect_wrapped(&rt, 1, "ab c", b"a\nb\nc\n")?;
    expect_wrapped(&rt, 6, "Grüße aus Köln", b"Gr\x81\xE1e\naus\nK\x94ln\n")
}

#[test]
fn pairs(rt: HostRuntime) -> Result<(), Fail> {
    expect_pair(&rt, 10, "Tee", "4,20", b"Tee   4,20\n")?;
    expect_pair(&rt, 8, "Tee", "4,20", b"Tee 4,20\n")?;
    expect_pair(&rt, 7, "Tee", "4,20", b"Tee\n   4,20\n")?;
    expect_pair(&rt, 10, "Schwarzer Tee", "4,20", b"Schwarzer\nTee   4,20\n")?;
    expect_pair(
        &rt,
        10,
        "Schwarzer Kaffee",
        "14,20",
        b"Schwarzer\nKaffee\n     14,20\n",
    )?;
    expect_pair(&rt, 8, "Tee", "ab cdef gh", b"Tee\n ab cdef\n      gh\n")?;
    expect_pair(&rt, 6, "", "ab", b"    ab\n")?;
    expect_pair(&rt, 6, "ab", "", b"ab\n")?;
    expect_pair(&rt, 6, "", "", b"\n")?;
    expect_pair(&rt, 1, "ab", "c", b"a\nb\nc\n")
}

// A long text has many lines.
#[test]
fn many_lines(rt: HostRuntime) -> Result<(), Fail> {
    let columns = Columns::new(1).ok_or("no columns")?;
    let mut text = Vec::new(rt.alloc());
    for _ in 0..5000 {
        text.push('a')?;
    }
    let mut out = Vec::new(rt.alloc());
    let mut encoding = Encoding::new();
    write_pair(&mut encoding, columns, &text, &text, &mut out)?;
    assert_eq!(rt; out.len(), 20000);
    Ok(())
}

// PC437 has Φ, PC737 (table 14) the other letters, and PC858 (table 19) the euro sign.
#[test]
fn greek(rt: HostRuntime) -> Result<(), Fail> {
    expect_pair(
        &rt,
        10,
        "Φέτα",
        "4 €",
        b"\xE8\x1Bt\x0E\xE2\xAB\x98   4 \x1Bt\x13\xD5\n",
    )?;
    expect_wrapped(&rt, 2, "€ €", b"\x1Bt\x13\xD5\n\xD5\n")
}

#[test]
fn fields(rt: HostRuntime) -> Result<(), Fail> {
    let mut fields = Vec::new(rt.alloc());
    fields.push(Field {
        text: Characters::new(characters(&rt, "Kaffee")?),
        width: 4,
        side: Side::Left,
    })?;
    fields.push(Field {
        text: Characters::new(characters(&rt, "2")?),
        width: 3,
        side: Side::Right,
    })?;
    fields.push(Field {
        text: Characters::new(characters(&rt, "ab")?),
        width: 3,
        side: Side::Left,
    })?;
    let mut out = Vec::new(rt.alloc());
    let mut encoding = Encoding::new();
    write_row(&mut encoding, &fields, &mut out)?;
    assert_eq!(rt; out.as_slice(), b"Kaff  2ab \n".as_slice());
    let exact = Columns::new(10).ok_or("no columns")?;
    let few = Columns::new(9).ok_or("no columns")?;
    assert!(rt; fits_line(&fields, exact));
    assert!(rt; !fits_line(&fields, few));
    Ok(())
}

#[test]
fn rule(rt: HostRuntime) -> Result<(), Fail> {
    let columns = Columns::new(5).ok_or("no columns")?;
    let mut out = Vec::new(rt.alloc());
    let mut encoding = Encoding::new();
    write_rule(&mut encoding, columns, '=', &mut out)?;
    assert_eq!(rt; out.as_slice(), b"=====\n".as_slice());
    Ok(())
}

#[test]
fn refused(rt: HostRuntime) -> Result<(), Fail> {
    let columns = Columns::new(2).ok_or("no columns")?;
    let text = characters(&rt, "€ b漢 \n")?;
    let mut out = Vec::new(rt.alloc());
    let mut encoding = Encoding::new();
    encoding.choice = Choice::of(&[19, 16]).ok_or("no choice")?;
    let fault = write_wrapped(&mut encoding, columns, &text, &mut out).err();
    assert_eq!(rt; fault, Some(TextFault::NoCharacter('漢')));
    assert_eq!(rt; out.len(), 0);
    assert_eq!(rt; encoding.table, 0);
    Ok(())
}
