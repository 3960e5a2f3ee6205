//! What is done to a page step by step where an allocation may fail: then the paper is as it was, and the call is made again.
//!
//! Only `plays_page` owns a page, and it is lent to a function for each kind of step.

use crate::support::items::has_text;
use escpos_command::{Command, GraphicsFunction, LineWidth};
use escpos_paper::Page;
use escpos_test_values::{
    BARCODE, GRAPHICS, PICTURE, PRINT, STORE, barcode, is_spelled, picture, stored, stored_graphics,
};
use std::alloc::{AllocError, Global};
use std::process::Abort;

/// What is done to a page, and what must come of it. Where an allocation fails the paper is as it was, and the call is made again.
#[derive(Clone, Copy)]
pub enum PageStep {
    /// So many times the page is made ready, and takes a line feed.
    LineFeedsOnceReady(usize),
    /// The page, on which so many items lie and data is stored, is made ready, and takes a print, with the room of the copy.
    PrintOnceReady(usize),
    /// The page takes a command.
    Store,
    Print,
    LineFeed,
    Bars,
    Raster,
    /// The page takes a store of graphics, and then a print of them.
    Graphics,
    PrintGraphics,
    /// The page takes a line of 42 characters of 50.
    Text,
    /// What is printed is torn off.
    TearOff,
    /// This lies on paper.
    Paper(&'static [u8]),
}

/// A new page does each step in turn.
pub fn plays_page(rt: &impl Abort, alloc: Global, steps: &[PageStep]) {
    let mut page = Page::new(alloc, LineWidth::usual());
    for (place, step) in steps.iter().enumerate() {
        assert!(rt;
            does(&mut page, alloc, step),
            "at step {place}, counted from 0"
        );
    }
}

// Does a step. Answers whether what comes of it is what the step says.
fn does(page: &mut Page, alloc: Global, step: &PageStep) -> bool {
    match step {
        PageStep::LineFeedsOnceReady(count) => takes_line_feeds(page, *count),
        PageStep::PrintOnceReady(count) => {
            !page.has_room() && takes_once_ready(page, Command::QrPrint, *count)
        }
        PageStep::Store => takes(page, stored(alloc).map(Command::QrStore), STORE),
        PageStep::Print => takes(page, Some(Command::QrPrint), PRINT),
        PageStep::LineFeed => takes(page, Some(Command::LineFeed), b"\n"),
        PageStep::Bars => takes(page, barcode(alloc).map(Command::Bars), BARCODE),
        PageStep::Raster => takes(page, picture(alloc).map(Command::Raster), PICTURE),
        PageStep::Graphics => takes(
            page,
            stored_graphics(alloc).map(Command::GraphicsStore),
            GRAPHICS,
        ),
        PageStep::PrintGraphics => takes(
            page,
            GraphicsFunction::new(50).map(Command::GraphicsPrint),
            b"\x1D(L\x02\x0002",
        ),
        PageStep::Text => takes_text(page),
        PageStep::TearOff => tears_off(page),
        PageStep::Paper(text) => has_text(page.items(), text),
    }
}

fn takes_line_feeds(page: &mut Page, count: usize) -> bool {
    for lying in 0..count {
        if !takes_once_ready(page, Command::LineFeed, lying) {
            return false;
        }
    }
    true
}

fn takes_once_ready(page: &mut Page, command: Command, count: usize) -> bool {
    is_readied(page, count)
        && page.has_room()
        && page.apply(command).is_ok()
        && page.items().len() == count.saturating_add(1)
}

// Where an allocation fails the paper, of so many items, has no room.
fn is_readied(page: &mut Page, count: usize) -> bool {
    page.ready().is_ok()
        || (page.items().len() == count && !page.has_room() && page.ready().is_ok())
}

// Where an allocation fails the command comes back, which is spelled so.
fn takes(page: &mut Page, command: Option<Command>, spelling: &[u8]) -> bool {
    let count = page.items().len();
    match command {
        Some(command) => match page.apply(command) {
            Ok(()) => true,
            Err(back) => {
                page.items().len() == count
                    && is_spelled(&back, spelling)
                    && page.apply(back).is_ok()
            }
        },
        None => false,
    }
}

fn takes_text(page: &mut Page) -> bool {
    let text = [b'x'; 50];
    let count = page.items().len();
    match page.apply_text(&text) {
        Ok(taken) => taken == 42,
        Err(AllocError) => page.items().len() == count && page.apply_text(&text) == Ok(42),
    }
}

fn tears_off(page: &mut Page) -> bool {
    page.tear_off();
    true
}
