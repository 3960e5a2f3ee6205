//! A picture that is read, scaled down, made black and white and put as entries, in parts and at once; where memory is refused.

use escpos_command::LineWidth;
use escpos_image::{DotPicture, GrayPicture, ImageError, image_entries};
use std::alloc::Global;
use std::process::Abort;

// A picture of four columns and two rows, and what prints it in a line of two dots.
const PICTURE: &[u8] = b"P2 4 2 255  0 0 255 255  0 200 255 255";

const ENTRY: &[u8] = b"{\"raster\":{\"scale\":\"normal\",\"x\":1,\"y\":1,\"dots\":\"80\"}}\n";

fn read_at_last(rt: &impl Abort, alloc: Global) -> GrayPicture {
    match GrayPicture::read(alloc, PICTURE) {
        Ok(picture) => picture,
        Err(error) => {
            assert!(rt; error == ImageError::Memory);
            GrayPicture::read(alloc, PICTURE).expect(rt, "a picture")
        }
    }
}

// The picture, scaled down. Where memory is refused for that, it is read again.
fn scaled_at_last(rt: &impl Abort, alloc: Global, width: LineWidth) -> GrayPicture {
    match read_at_last(rt, alloc).scaled(alloc, width) {
        Ok(picture) => picture,
        Err(_) => read_at_last(rt, alloc)
            .scaled(alloc, width)
            .expect(rt, "a picture"),
    }
}

fn shaded_at_last(rt: &impl Abort, alloc: Global, picture: &GrayPicture) -> DotPicture {
    match DotPicture::shaded(alloc, picture, None) {
        Ok(dots) => dots,
        Err(_) => DotPicture::shaded(alloc, picture, None).expect(rt, "dots"),
    }
}

fn entries_at_last(rt: &impl Abort, alloc: Global, dots: &DotPicture) -> Vec<u8> {
    match dots.entries(alloc) {
        Ok(text) => text,
        Err(_) => dots.entries(alloc).expect(rt, "entries"),
    }
}

#[test]
fn parts_refused(rt: HostRuntime) {
    let width = LineWidth::new(2).expect(&rt, "a width");
    let picture = scaled_at_last(&rt, rt.alloc(), width);
    let dots = shaded_at_last(&rt, rt.alloc(), &picture);
    let text = entries_at_last(&rt, rt.alloc(), &dots);
    assert!(&rt; text.as_slice() == ENTRY);
}

fn image_at_last(rt: &impl Abort, alloc: Global, width: LineWidth) -> Vec<u8> {
    match image_entries(alloc, PICTURE, width, Some(100)) {
        Ok(text) => text,
        Err(error) => {
            assert!(rt; error == ImageError::Memory);
            image_entries(alloc, PICTURE, width, Some(100)).expect(rt, "entries")
        }
    }
}

#[test]
fn image_entries_refused(rt: HostRuntime) {
    let width = LineWidth::new(2).expect(&rt, "a width");
    let text = image_at_last(&rt, rt.alloc(), width);
    assert!(&rt; text.as_slice() == ENTRY);
}
