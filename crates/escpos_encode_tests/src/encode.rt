//! The worked rows of receipts through `encode`, and hostile texts.

use escpos_decode::{Decoded, End, decode};
use escpos_host::Receipt;
use escpos_io::MemoryIn;
use escpos_job_parts::status::Status;
use escpos_test_jobs::{Row, encode_task, performs, performs_rows, prints};
use escpos_test_receipts::{EVERY_MEMBER, filled, read_receipt};
use std::alloc::Global;
use std::process::Abort;

// The bytes of `EVERY_MEMBER`, in hexadecimal.
const EVERY_LINE: &[u8] =
    b"1b61011d21111b21084b6f6c6174656e6e69730a1d21001b45011b47011d42011b2d011b4d011b74101b52021b3330546f74616c1b64011b321b7b011b4a041d68501d77021d48021d66011d6b430c3430303633383133333339331d76300002000200f00ff00f1d286b03003143041d286b03003145311d286b04003150304b1d286b03003151301b700019fa1d56011d564103\n";

// Texts of receipts, and their line.
const ENCODED: [Row; 16] = [
    // encode
    (
        b"[{\"line\":\"Hi\"},{\"cut\":\"full\"}]",
        b"48690a1d5600\n",
        Status::Good,
    ),
    (
        b"[{\"size\":[8,1]},{\"line\":\"A\"}]",
        b"1d2170410a\n",
        Status::Good,
    ),
    // align_in_receipt
    (
        b"[{\"text\":\"A\"},{\"align\":\"center\"},{\"feed\":2}]",
        b"411b61011b6402\n",
        Status::Good,
    ),
    // bars_in_receipt
    (
        b"[{\"bars\":{\"kind\":\"ean8\",\"content\":\"5512345\"}}]",
        b"1d6b440735353132333435\n",
        Status::Good,
    ),
    // units_in_receipt
    (
        b"[{\"line\":\"A\"},{\"units\":5},{\"pulse\":{\"pin\":0,\"on\":25,\"off\":250}}]",
        b"410a1b4a051b700019fa\n",
        Status::Good,
    ),
    // styles_in_receipt
    (
        b"[{\"strike\":true},{\"reverse\":true},{\"upside\":true},{\"charset\":8},{\"line\":\"A\"},{\"strike\":false},{\"reverse\":false},{\"upside\":false}]",
        b"1b47011d42011b7b011b5208410a1b47001d42001b7b00\n",
        Status::Good,
    ),
    (
        b"[{\"spacing\":40},{\"line\":\"A\"},{\"spacing\":\"default\"},{\"feed\":2}]",
        b"1b3328410a1b321b6402\n",
        Status::Good,
    ),
    // in mid-line, where it has no effect
    (
        b"[{\"text\":\"A\"},{\"upside\":true},{\"feed\":2}]",
        b"411b7b011b6402\n",
        Status::Good,
    ),
    // a member that comes twice has its last value, and a key may have escapes
    (
        b"[{\"f\\u0065ed\":256,\"feed\":1}]",
        b"1b6401\n",
        Status::Good,
    ),
    (EVERY_MEMBER, EVERY_LINE, Status::Good),
    // text in the code table in force: e with an acute accent, composed or not
    (
        b"[{\"line\":\"Caf\xc3\xa9\"}]",
        b"436166820a\n",
        Status::Good,
    ),
    (
        b"[{\"line\":\"Cafe\xcc\x81\"}]",
        b"436166820a\n",
        Status::Good,
    ),
    // the euro sign is in table 19, and the letters after it are there, too
    (
        b"[{\"line\":\"4,20 \xe2\x82\xac\"},{\"line\":\"\xc3\xa9\"}]",
        b"342c3230201b7413d50a820a\n",
        Status::Good,
    ),
    // a table that was set, and a choice of another
    (
        b"[{\"table\":16},{\"line\":\"\xc3\xa9\"},{\"tables\":[17]},{\"line\":\"\xd0\x9f\"},{\"tables\":[]},{\"line\":\"\xd0\x9f!\"}]",
        b"1b7410e90a1b74118f0a8f210a\n",
        Status::Good,
    ),
    // the German character set has the letter at 5B, and no bracket there
    (
        b"[{\"charset\":2},{\"line\":\"\xc3\x84A\"}]",
        b"1b52025b410a\n",
        Status::Good,
    ),
    // a space where no table in reach has one that doesn't break
    (
        b"[{\"table\":1},{\"tables\":[1]},{\"line\":\"a\xc2\xa0b\"}]",
        b"1b74016120620a\n",
        Status::Good,
    ),
];

// Texts whose bytes hold a real-time command, and why they give no receipt; and such as hold none.
const REAL_TIME: [Row; 19] = [
    // raster_opens_the_drawer
    (
        b"[{\"raster\":{\"scale\":\"normal\",\"x\":5,\"y\":1,\"dots\":\"1014010001\"}}]",
        b"refused 9 RealTime 0\n",
        Status::Refused,
    ),
    // raster_drops_what_waits
    (
        b"[{\"line\":\"Hi\"},{\"raster\":{\"scale\":\"normal\",\"x\":5,\"y\":2,\"dots\":\"10140801031401060208\"}}]",
        b"refused 9 RealTime 3\n",
        Status::Refused,
    ),
    // the first and the last of each kind, and their neighbours
    (
        b"[{\"raster\":{\"scale\":\"normal\",\"x\":3,\"y\":1,\"dots\":\"100400\"}}]",
        b"1d76300003000100100400\n",
        Status::Good,
    ),
    (
        b"[{\"raster\":{\"scale\":\"normal\",\"x\":3,\"y\":1,\"dots\":\"100401\"}}]",
        b"refused 9 RealTime 0\n",
        Status::Refused,
    ),
    (
        b"[{\"raster\":{\"scale\":\"normal\",\"x\":3,\"y\":1,\"dots\":\"100408\"}}]",
        b"refused 9 RealTime 0\n",
        Status::Refused,
    ),
    (
        b"[{\"raster\":{\"scale\":\"normal\",\"x\":3,\"y\":1,\"dots\":\"100409\"}}]",
        b"1d76300003000100100409\n",
        Status::Good,
    ),
    (
        b"[{\"raster\":{\"scale\":\"normal\",\"x\":3,\"y\":1,\"dots\":\"100500\"}}]",
        b"refused 9 RealTime 0\n",
        Status::Refused,
    ),
    (
        b"[{\"raster\":{\"scale\":\"normal\",\"x\":3,\"y\":1,\"dots\":\"100502\"}}]",
        b"refused 9 RealTime 0\n",
        Status::Refused,
    ),
    (
        b"[{\"raster\":{\"scale\":\"normal\",\"x\":3,\"y\":1,\"dots\":\"100503\"}}]",
        b"1d76300003000100100503\n",
        Status::Good,
    ),
    (
        b"[{\"raster\":{\"scale\":\"normal\",\"x\":3,\"y\":1,\"dots\":\"101400\"}}]",
        b"1d76300003000100101400\n",
        Status::Good,
    ),
    (
        b"[{\"raster\":{\"scale\":\"normal\",\"x\":3,\"y\":1,\"dots\":\"101403\"}}]",
        b"refused 9 RealTime 0\n",
        Status::Refused,
    ),
    (
        b"[{\"raster\":{\"scale\":\"normal\",\"x\":4,\"y\":1,\"dots\":\"10140405\"}}]",
        b"1d7630000400010010140405\n",
        Status::Good,
    ),
    (
        b"[{\"raster\":{\"scale\":\"normal\",\"x\":3,\"y\":1,\"dots\":\"101406\"}}]",
        b"refused 9 RealTime 0\n",
        Status::Refused,
    ),
    (
        b"[{\"raster\":{\"scale\":\"normal\",\"x\":3,\"y\":1,\"dots\":\"101409\"}}]",
        b"1d76300003000100101409\n",
        Status::Good,
    ),
    // the data of a QR code, whose store is the third of its commands, and the content of a barcode
    (
        b"[{\"qr\":{\"content\":\"\\u0010\\u0004\\u0001\",\"size\":3,\"level\":\"L\"}}]",
        b"refused 9 RealTime 2\n",
        Status::Refused,
    ),
    (
        b"[{\"bars\":{\"kind\":\"code128\",\"content\":\"{A\\u0010\\u0014\\u0001\"}}]",
        b"refused 9 RealTime 0\n",
        Status::Refused,
    ),
    // parameters that look like one, but for the command after them
    (
        b"[{\"pulse\":{\"pin\":0,\"on\":16,\"off\":4}},{\"feed\":1}]",
        b"1b700010041b6401\n",
        Status::Good,
    ),
    // a text in the line comes first, and text that is left last
    (
        b"[{\"text\":\"A\"},{\"raster\":{\"scale\":\"normal\",\"x\":3,\"y\":1,\"dots\":\"101401\"}}]",
        b"refused 4 MidLine 1\n",
        Status::Refused,
    ),
    (
        b"[{\"raster\":{\"scale\":\"normal\",\"x\":3,\"y\":1,\"dots\":\"101401\"}},{\"text\":\"A\"}]",
        b"refused 9 RealTime 0\n",
        Status::Refused,
    ),
];

#[test]
fn real_time_commands_in_encode(rt: HostRuntime) {
    assert!(&rt; performs_rows(rt.alloc(), encode_task(), &REAL_TIME, &[1, 4096]));
}

// Texts with codes that a printer leaves out on a line of 512 dots, and such as fit.
const LEFT_OUT: [Row; 10] = [
    // version 4 has 33 modules, of 16 dots each
    (
        b"[{\"qr\":{\"content\":\"aaaaaaaaaaaaaaaaaaaaaaaaaaaaaaaaaaaaaaaaaaaaaaaaaaaaaa\",\"size\":16,\"level\":\"L\"}}]",
        b"refused 10 NotPrintable 3\n",
        Status::Refused,
    ),
    // code128_without_data, a byte that its set hasn't, and a shift before nothing
    (
        b"[{\"line\":\"Hi\"},{\"bars\":{\"kind\":\"code128\",\"content\":\"{B\"}}]",
        b"refused 10 NotPrintable 3\n",
        Status::Refused,
    ),
    (
        b"[{\"bars\":{\"kind\":\"code128\",\"content\":\"{Aa\"}}]",
        b"refused 10 NotPrintable 0\n",
        Status::Refused,
    ),
    (
        b"[{\"bars\":{\"kind\":\"code128\",\"content\":\"{BA{S\"}}]",
        b"refused 10 NotPrintable 0\n",
        Status::Refused,
    ),
    // CODE39 has no asterisk within
    (
        b"[{\"bars\":{\"kind\":\"code39\",\"content\":\"A*B\"}}]",
        b"refused 10 NotPrintable 0\n",
        Status::Refused,
    ),
    // five characters of 90 dots and two more, and again where modules are of 2 dots
    (
        b"[{\"bar_width\":6},{\"bars\":{\"kind\":\"code39\",\"content\":\"ABCDE\"}}]",
        b"refused 10 NotPrintable 1\n",
        Status::Refused,
    ),
    (
        b"[{\"bar_width\":6},{\"bar_width\":2},{\"bars\":{\"kind\":\"code39\",\"content\":\"ABCDE\"}}]",
        b"1d77061d77021d6b45054142434445\n",
        Status::Good,
    ),
    // a wrong check digit is drawn as it is sent
    (
        b"[{\"bars\":{\"kind\":\"ean8\",\"content\":\"55123450\"}}]",
        b"1d6b44083535313233343530\n",
        Status::Good,
    ),
    // what is no receipt is no receipt first
    (
        b"[{\"bars\":{\"kind\":\"code128\",\"content\":\"{B\"}},{\"text\":\"A\"}]",
        b"refused 3 TextLeft\n",
        Status::Refused,
    ),
    (
        b"[{\"bars\":{\"kind\":\"code128\",\"content\":\"{B\"}},{\"raster\":{\"scale\":\"normal\",\"x\":3,\"y\":1,\"dots\":\"101401\"}}]",
        b"refused 9 RealTime 1\n",
        Status::Refused,
    ),
];

#[test]
fn codes_that_are_left_out_in_encode(rt: HostRuntime) {
    assert!(&rt; performs_rows(rt.alloc(), encode_task(), &LEFT_OUT, &[1, 4096]));
}

// Texts that give no receipt, and why.
const REFUSED_TEXTS: [Row; 48] = [
    // receipt_refusals
    (b"[]", b"refused 1 Empty\n", Status::Refused),
    (
        b"[{\"text\":\"Hi\"}]",
        b"refused 3 TextLeft\n",
        Status::Refused,
    ),
    (
        b"[{\"text\":\"Hi\"},{\"cut\":\"full\"}]",
        b"refused 4 MidLine 2\n",
        Status::Refused,
    ),
    (b"[", b"refused 5 NotJson\n", Status::Refused),
    (b"{}", b"refused 6 BadShape 0\n", Status::Refused),
    (
        b"[{\"line\":\"a\\u001b\"}]",
        b"refused 7 ControlByte 0\n",
        Status::Refused,
    ),
    // a character that no code table has
    (
        b"[{\"line\":\"\xe6\xbc\xa2\"}]",
        b"refused 8 NoCharacter 0 U+6F22\n",
        Status::Refused,
    ),
    (
        b"[{\"feed\":1},{\"text\":\"\xf0\x9f\x98\x80\"}]",
        b"refused 8 NoCharacter 1 U+1F600\n",
        Status::Refused,
    ),
    // the last character of Unicode, and DEL, which no table has
    (
        b"[{\"line\":\"\xf4\x8f\xbf\xbf\"}]",
        b"refused 8 NoCharacter 0 U+10FFFF\n",
        Status::Refused,
    ),
    (
        b"[{\"line\":\"A\x7f\"}]",
        b"refused 8 NoCharacter 0 U+007F\n",
        Status::Refused,
    ),
    // bars_in_receipt
    (
        b"[{\"bars\":{\"kind\":\"ean8\",\"content\":\"551234\"}}]",
        b"refused 6 BadShape 0\n",
        Status::Refused,
    ),
    // no text at all, and bytes after the array
    (b"", b"refused 5 NotJson\n", Status::Refused),
    (b"[{\"feed\":1}]]", b"refused 5 NotJson\n", Status::Refused),
    (b"[{\"feed\":1}] x", b"refused 5 NotJson\n", Status::Refused),
    (b"[{\"feed\":1},]", b"refused 5 NotJson\n", Status::Refused),
    // no array
    (b"1", b"refused 6 BadShape 0\n", Status::Refused),
    (b"null", b"refused 6 BadShape 0\n", Status::Refused),
    (b"\"line\"", b"refused 6 BadShape 0\n", Status::Refused),
    // a character set past the last, and spacings past both ends
    (
        b"[{\"charset\":17},{\"charset\":18}]",
        b"refused 6 BadShape 1\n",
        Status::Refused,
    ),
    (
        b"[{\"spacing\":255},{\"spacing\":256}]",
        b"refused 6 BadShape 1\n",
        Status::Refused,
    ),
    (
        b"[{\"spacing\":\"default\"},{\"spacing\":\"Default\"}]",
        b"refused 6 BadShape 1\n",
        Status::Refused,
    ),
    // numbers
    (
        b"[{\"feed\":1},{\"feed\":-0}]",
        b"refused 6 BadShape 1\n",
        Status::Refused,
    ),
    (
        b"[{\"feed\":1},{\"feed\":-1}]",
        b"refused 6 BadShape 1\n",
        Status::Refused,
    ),
    (
        b"[{\"feed\":1},{\"feed\":1.0}]",
        b"refused 6 BadShape 1\n",
        Status::Refused,
    ),
    (
        b"[{\"feed\":1},{\"feed\":1e2}]",
        b"refused 6 BadShape 1\n",
        Status::Refused,
    ),
    (
        b"[{\"feed\":1},{\"feed\":256}]",
        b"refused 6 BadShape 1\n",
        Status::Refused,
    ),
    (
        b"[{\"feed\":1},{\"feed\":18446744073709551616}]",
        b"refused 6 BadShape 1\n",
        Status::Refused,
    ),
    (b"[{\"feed\":01}]", b"refused 5 NotJson\n", Status::Refused),
    (b"[{\"feed\":+1}]", b"refused 5 NotJson\n", Status::Refused),
    (
        b"[{\"feed\":\"1\"}]",
        b"refused 6 BadShape 0\n",
        Status::Refused,
    ),
    // members
    (b"[{}]", b"refused 6 BadShape 0\n", Status::Refused),
    (b"[[]]", b"refused 6 BadShape 0\n", Status::Refused),
    (
        b"[{\"feed\":1,\"units\":1}]",
        b"refused 6 BadShape 0\n",
        Status::Refused,
    ),
    (
        b"[{\"Feed\":1}]",
        b"refused 6 BadShape 0\n",
        Status::Refused,
    ),
    (
        b"[{\"init\":1}]",
        b"refused 6 BadShape 0\n",
        Status::Refused,
    ),
    (
        b"[{\"bold\":1}]",
        b"refused 6 BadShape 0\n",
        Status::Refused,
    ),
    (
        b"[{\"size\":[1,2,3]}]",
        b"refused 6 BadShape 0\n",
        Status::Refused,
    ),
    (
        b"[{\"size\":[0,1]}]",
        b"refused 6 BadShape 0\n",
        Status::Refused,
    ),
    (
        b"[{\"size\":[1,9]}]",
        b"refused 6 BadShape 0\n",
        Status::Refused,
    ),
    (
        b"[{\"feed_cut\":{\"kind\":\"full\",\"feed\":3,\"x\":0}}]",
        b"refused 6 BadShape 0\n",
        Status::Refused,
    ),
    (
        b"[{\"raster\":{\"scale\":\"normal\",\"x\":1,\"y\":2,\"dots\":\"f0\"}}]",
        b"refused 6 BadShape 0\n",
        Status::Refused,
    ),
    (
        b"[{\"raster\":{\"scale\":\"normal\",\"x\":1,\"y\":1,\"dots\":\"f\"}}]",
        b"refused 6 BadShape 0\n",
        Status::Refused,
    ),
    (
        b"[{\"raster\":{\"scale\":\"normal\",\"x\":0,\"y\":1,\"dots\":\"\"}}]",
        b"refused 6 BadShape 0\n",
        Status::Refused,
    ),
    // strings
    (
        b"[{\"line\":\"\\ud800\"}]",
        b"refused 5 NotJson\n",
        Status::Refused,
    ),
    (
        b"[{\"line\":\"\\udc00\\ud800\"}]",
        b"refused 5 NotJson\n",
        Status::Refused,
    ),
    (
        b"[{\"line\":\"\\u0000\"}]",
        b"refused 7 ControlByte 0\n",
        Status::Refused,
    ),
    (
        b"[{\"line\":\"a\tb\"}]",
        b"refused 5 NotJson\n",
        Status::Refused,
    ),
    // the first entry that is bad decides, whatever comes with it
    (
        b"[{\"text\":\"Hi\"},{\"line\":\"\\u001b\"},{\"line\":\"\xe6\xbc\xa2\"},{}]",
        b"refused 7 ControlByte 1\n",
        Status::Refused,
    ),
];

#[test]
fn rows_of_encode(rt: HostRuntime) {
    assert!(&rt; performs_rows(rt.alloc(), encode_task(), &ENCODED, &[1, 4096]));
}

#[test]
fn receipt_refusals(rt: HostRuntime) {
    assert!(&rt; performs_rows(rt.alloc(), encode_task(), &REFUSED_TEXTS, &[7]));
}

// Refuses a text with this line.
fn refuses(rt: &impl Abort, alloc: Global, text: &[u8], line: &[u8]) {
    assert!(rt; prints(alloc, encode_task(), text, (line, Status::Refused)));
}

#[test]
fn texts_that_are_not_utf_8(rt: HostRuntime) {
    let not_json = b"refused 5 NotJson\n";
    refuses(&rt, rt.alloc(), b"[{\"line\":\"\xff\"}]", not_json);
    refuses(&rt, rt.alloc(), b"\xef\xbb\xbf[{\"feed\":1}]", not_json);
}

// So many brackets that open, and as many that close.
fn brackets(rt: &impl Abort, alloc: Global, depth: usize) -> Vec<u8> {
    let mut text = filled(alloc, b"", b'[', depth).expect(rt, "memory");
    text.resize(depth.saturating_mul(2), b']')
        .expect(rt, "memory");
    text
}

#[test]
fn deep_json(rt: HostRuntime) {
    let rows: [(usize, &[u8]); 3] = [
        (127, b"refused 6 BadShape 0\n"),
        (128, b"refused 5 NotJson\n"),
        (100_000, b"refused 5 NotJson\n"),
    ];
    for (depth, line) in rows {
        let text = brackets(&rt, rt.alloc(), depth);
        refuses(&rt, rt.alloc(), &text, line);
    }
}

// The commands of a receipt are those that a decoder reads in its line, with nothing left.
fn is_read_back(rt: &impl Abort, receipt: &Receipt, decoded: &Decoded) {
    assert!(rt; decoded.end == End::Read { half: 0 });
    assert!(rt; decoded.commands.as_slice() == receipt.commands());
}

// The receipt of this text is read back from the bytes of its line.
fn reads_back(rt: &impl Abort, alloc: Global, text: &[u8], line: &[u8]) {
    let bytes = hex::decode(alloc, line.trim_ascii_end()).expect(rt, "digits");
    let decoded = decode(alloc, &[&bytes]).expect(rt, "memory");
    is_read_back(
        rt,
        &read_receipt(alloc, text).expect(rt, "a receipt"),
        &decoded,
    );
}

#[test]
fn receipts_are_read_back(rt: HostRuntime) {
    for (text, line, _) in &ENCODED {
        reads_back(&rt, rt.alloc(), text, line);
    }
}

// Where a device fails, what went out is the beginning of the line.
#[test]
fn devices_of_encode_fail(rt: HostRuntime) {
    let mut room = [0; 512];
    for count in 0..EVERY_LINE.len() {
        let mut source = MemoryIn::new(EVERY_MEMBER, 100);
        let wanted = (&EVERY_LINE[..count], Status::Device);
        let room = &mut room[..count];
        assert!(&rt; performs(rt.alloc(), Ok(encode_task()), &mut source, room, wanted));
    }
    let wanted = (b"".as_slice(), Status::Device);
    for from_call in [1, 2, 9] {
        let mut source = MemoryIn::failing(EVERY_MEMBER, 64, from_call);
        let asked = Ok(encode_task());
        assert!(&rt; performs(rt.alloc(), asked, &mut source, &mut room, wanted));
    }
}
