//! Worked pictures of each format, and what is refused.

use escpos_command::LineWidth;
use escpos_image::{DotPicture, GrayPicture, ImageError, ImageFault, image_entries};
use std::test::Fail;

#[test]
fn each_format(rt: HostRuntime) -> Result<(), Fail> {
    let table: [(&[u8], usize, &[u8]); 9] = [
        (
            b"P1\n# a\n3 2\n101\n0 1 #b\n0",
            3,
            &[0, 255, 0, 255, 0, 255],
        ),
        (b"P2 3 1 15 0\n15 7\n", 3, &[0, 255, 119]),
        (b"P3 2 1 255 255 0 0  0 255 0", 2, &[76, 149]),
        (
            b"P4\n10 2\n\x80\x40\x01\xFF",
            10,
            &[
                0, 255, 255, 255, 255, 255, 255, 255, 255, 0, 255, 255, 255, 255, 255, 255, 255, 0,
                0, 0,
            ],
        ),
        (b"P5#c\r2 2 255 \x00\x0A\xFF\x80", 2, &[0, 10, 255, 128]),
        (b"P5 1 2 65535\n\x80\x00\xFF\xFF", 1, &[127, 255]),
        (b"P6 1 2 255\n\x00\x00\xFF\xFF\xFF\xFF", 1, &[29, 255]),
        (b"P6 1 1 256\n\x01\x00\x00\x80\x00\x00", 1, &[151]),
        (b"P5 1 1 255\n\x07 and more", 1, &[7]),
    ];
    for (bytes, width, grays) in table {
        let picture = GrayPicture::read(rt.alloc(), bytes).map_err(|_| "refused")?;
        assert_eq!(rt; picture.width(), width);
        assert_eq!(rt; picture.grays(), grays);
        assert_eq!(rt; picture.width() * picture.height(), grays.len());
    }
    Ok(())
}

#[test]
fn each_fault(rt: HostRuntime) -> Result<(), Fail> {
    let table: [(&[u8], ImageFault); 19] = [
        (b"", ImageFault::NotPicture),
        (b"P", ImageFault::NotPicture),
        (b"P7 1 1 ", ImageFault::NotPicture),
        (b"GIF89a", ImageFault::NotPicture),
        (b"P1", ImageFault::CutShort { at: 2 }),
        (b"P11 1 0", ImageFault::BadHeader { at: 2 }),
        (b"P1 # no end", ImageFault::CutShort { at: 11 }),
        (b"P1 3 x2 ", ImageFault::BadHeader { at: 5 }),
        (b"P1 0 2 ", ImageFault::BadSize { at: 3 }),
        (b"P1 1 65536 ", ImageFault::BadSize { at: 5 }),
        (
            b"P1 99999999999999999999999 1 ",
            ImageFault::BadSize { at: 3 },
        ),
        (b"P2 1 1 0 0", ImageFault::BadMaximum { at: 7 }),
        (b"P5 1 1 65536 0", ImageFault::BadMaximum { at: 7 }),
        (b"P5 1 1 255", ImageFault::CutShort { at: 10 }),
        (b"P5 1 1 255x\x00", ImageFault::BadHeader { at: 10 }),
        (b"P1 2 1 12", ImageFault::BadSample { at: 8 }),
        (b"P2 2 1 9 9 10", ImageFault::BadSample { at: 11 }),
        (b"P5 2 1 9 \x09\x0A", ImageFault::BadSample { at: 10 }),
        (
            b"P6 1 1 65535 \x00\x00\x00\x00\x00",
            ImageFault::CutShort { at: 18 },
        ),
    ];
    for (bytes, fault) in table {
        let error = GrayPicture::read(rt.alloc(), bytes).err();
        assert_eq!(rt; error, Some(ImageError::Refused(fault)));
    }
    Ok(())
}

#[test]
fn scaled_down(rt: HostRuntime) -> Result<(), Fail> {
    // Boxes of 1 and 2 columns: 10 20 30 gives 10 and 25.
    let picture = GrayPicture::read(rt.alloc(), b"P2 3 1 255 10 20 30").map_err(|_| "refused")?;
    let two = LineWidth::new(2).ok_or("no width")?;
    let picture = picture.scaled(rt.alloc(), two)?;
    assert_eq!(rt; picture.grays(), [10u8, 25].as_slice());
    assert_eq!(rt; picture.height(), 1);
    // To one dot of four: their mean, rounded down.
    let picture = GrayPicture::read(rt.alloc(), b"P2 2 2 255 1 2 3 5").map_err(|_| "refused")?;
    let one = LineWidth::new(1).ok_or("no width")?;
    let picture = picture.scaled(rt.alloc(), one)?;
    assert_eq!(rt; picture.grays(), [2u8].as_slice());
    // No wider than the line: as it was.
    let picture = picture.scaled(rt.alloc(), LineWidth::usual())?;
    assert_eq!(rt; picture.grays(), [2u8].as_slice());
    Ok(())
}

#[test]
fn shades(rt: HostRuntime) -> Result<(), Fail> {
    let picture = GrayPicture::read(rt.alloc(), b"P2 4 1 255 127 128 0 255").map_err(
        |_| "refused",
    )?;
    let dots = DotPicture::shaded(rt.alloc(), &picture, Some(128))?;
    assert_eq!(rt; dots.dots(), [true, false, true, false].as_slice());
    // A gray of 100 in two rows, by hand: 100 is black, and 7/16 of its error make the next one 143, which is white, and so on.
    let bytes = b"P2 4 2 255 100 100 100 100 100 100 100 100";
    let picture = GrayPicture::read(rt.alloc(), bytes).map_err(|_| "refused")?;
    let dots = DotPicture::shaded(rt.alloc(), &picture, None)?;
    let wanted = [true, false, true, true, true, false, true, false];
    assert_eq!(rt; dots.dots(), wanted.as_slice());
    Ok(())
}

#[test]
fn entries_of_a_picture(rt: HostRuntime) -> Result<(), Fail> {
    let text = image_entries(
        rt.alloc(),
        b"P1 9 2 100000001 010000000",
        LineWidth::usual(),
        None,
    );
    let text = text.map_err(|_| "refused")?;
    let wanted = b"{\"raster\":{\"scale\":\"normal\",\"x\":2,\"y\":2,\"dots\":\"80804000\"}}\n";
    assert_eq!(rt; text.as_slice(), wanted.as_slice());
    // a real-time command in the dots: its last byte gets one more black dot
    let text = image_entries(
        rt.alloc(),
        b"P4 24 1\n\x10\x14\x01",
        LineWidth::usual(),
        None,
    );
    let text = text.map_err(|_| "refused")?;
    let wanted = b"{\"raster\":{\"scale\":\"normal\",\"x\":3,\"y\":1,\"dots\":\"101411\"}}\n";
    assert_eq!(rt; text.as_slice(), wanted.as_slice());
    let error = image_entries(rt.alloc(), b"P1 2 2 1 0 1", LineWidth::usual(), None).err();
    assert_eq!(rt;
        error,
        Some(ImageError::Refused(ImageFault::CutShort { at: 12 }))
    );
    Ok(())
}

#[test]
fn many_rows(rt: HostRuntime) -> Result<(), Fail> {
    // 10,000 rows of a dot each: entries of 4,095, 4,095 and 1,810 rows.
    let mut bytes = Vec::new(rt.alloc());
    bytes.extend_from_slice(b"P4 1 10000 ")?;
    for _ in 0..10_000 {
        bytes.push(0x80)?;
    }
    let text = image_entries(rt.alloc(), bytes.as_slice(), LineWidth::usual(), Some(128));
    let text = text.map_err(|_| "refused")?;
    assert_eq!(rt; text.len(), 20167);
    let first = b"{\"raster\":{\"scale\":\"normal\",\"x\":1,\"y\":4095,\"dots\":\"8080";
    assert_eq!(rt; text.as_slice().starts_with(first), true);
    let third = b"80\"}},\n{\"raster\":{\"scale\":\"normal\",\"x\":1,\"y\":1810,\"dots\":\"80";
    let place = 16485;
    let part = text
        .as_slice()
        .get(place..place + third.len())
        .ok_or("too short")?;
    assert_eq!(rt; part, third.as_slice());
    Ok(())
}
