//! Texts that are written, and one that is refused: what a body that only answers out of memory wouldn't do.

use escpos_text::{Choice, Encoding, Replacement, TextFault, write_text};
use std::test::Fail;

#[test]
fn several_tables(rt: HostRuntime) -> Result<(), Fail> {
    // Ł, e and a combining acute accent, 5, the euro sign, and a Russian letter.
    let mut out = Vec::new(rt.alloc());
    let mut encoding = Encoding::new();
    write_text(rt.alloc(), &mut encoding, "Łe\u{301}5€П", &mut out)?;
    let wanted = [
        0x1B, 0x74, 18, 0x9D, 0x82, 0x35, 0x1B, 0x74, 19, 0xD5, 0x1B, 0x74, 17, 0x8F,
    ];
    assert_eq!(rt; out.as_slice(), wanted.as_slice());
    assert_eq!(rt; encoding.table, 17);
    Ok(())
}

#[test]
fn refused_and_replaced(rt: HostRuntime) -> Result<(), Fail> {
    let mut out = Vec::new(rt.alloc());
    let mut encoding = Encoding::new();
    encoding.choice = Choice::of(&[16]).ok_or("no choice")?;
    let fault = write_text(rt.alloc(), &mut encoding, "a漢", &mut out).err();
    assert_eq!(rt; fault, Some(TextFault::NoCharacter('漢')));
    assert_eq!(rt; out.len(), 0);
    encoding.replacement = Replacement::new(b'?');
    write_text(rt.alloc(), &mut encoding, "a漢", &mut out)?;
    assert_eq!(rt; out.as_slice(), b"a?".as_slice());
    Ok(())
}
