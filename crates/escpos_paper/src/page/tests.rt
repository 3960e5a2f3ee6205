//! The room of a long page, which no contract bounds.

use super::*;
use std::test::Fail;

// A page takes any number of items, and never has more than twice the room that they need.
#[test]
fn room_is_modest(rt: HostRuntime) -> Result<(), Fail> {
    let mut page = Page::new(rt.alloc(), LineWidth::usual());
    for _ in 0..200_000 {
        page.apply(Command::LineFeed)?;
    }
    assert_eq!(rt; page.items().len(), 200_000);
    assert!(rt; page.paper.items.capacity() <= 2 * (200_000 + MOST_ITEMS));
    Ok(())
}
