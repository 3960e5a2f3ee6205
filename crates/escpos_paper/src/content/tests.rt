//! The bytes of a command stay in their list on the way to the paper.

use super::*;
use escpos_command::{Form, Symbology};
use std::alloc::Global;
use std::test::Fail;

// A list of two digits with room for 4,096 bytes.
fn roomy(alloc: Global) -> Result<Vec<u8>, Fail> {
    let mut list = Vec::new(alloc);
    list.reserve(4096)?;
    list.extend_from_slice(b"12")?;
    Ok(list)
}

#[test]
fn bytes_are_moved(rt: HostRuntime) -> Result<(), Fail> {
    let bars = Bars::new(Form::B, Symbology::Itf, roomy(rt.alloc())?)?;
    assert!(rt; Content::of(bars).bytes.into_vec().capacity() >= 4096);
    let raster = Raster::new(0, 1, 2, roomy(rt.alloc())?)?;
    assert!(rt; Dots::of(raster).dots.into_vec().capacity() >= 4096);
    Ok(())
}
