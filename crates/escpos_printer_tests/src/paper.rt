//! Pages (escpos_paper): each call on its happy path, and what no clause says. The worked rows of paper stand in escpos_jobs_tests,
//! in `render`, where they are read from bytes.

use crate::support::pages::{Step, plays_usual};
use escpos_paper::*;

mod graphics;
mod qr_codes;
mod widths;

#[test]
fn short_writer(rt: HostRuntime) {
    let steps = [
        Step::Apply(b"\x1B@Hi\n\x1DV\x00"),
        Step::Text(b"row left Hi\nfeed 1\ncut full\n"),
        Step::CutShort(b"row l"),
    ];
    plays_usual(&rt, rt.alloc(), &steps);
}

#[test]
fn restart_drops_the_line_and_keeps_the_paper(rt: HostRuntime) {
    let steps = [
        Step::Apply(b"\n\x1Ba\x01B"),
        Step::Restart,
        Step::Apply(b"C\n"),
        Step::Text(b"feed 1\nrow left C\nfeed 1\n"),
    ];
    plays_usual(&rt, rt.alloc(), &steps);
}

// A new page has no room, and one made ready has room for all that a command can print.
#[test]
fn room_for_one_command(rt: HostRuntime) {
    let steps = [
        Step::HasRoom(false),
        Step::Apply(b"A"),
        Step::Ready,
        Step::HasRoom(true),
        Step::Apply(b"\x1DV1"),
        Step::Items(3),
        Step::Text(b"row left A\nfeed 1\ncut partial\n"),
    ];
    plays_usual(&rt, rt.alloc(), &steps);
}

// More text than is put together at once.
#[test]
fn long_paper(rt: HostRuntime) {
    let steps = [
        Step::Feeds(100_000),
        Step::Items(100_000),
        Step::TextOfFeeds(100_000),
    ];
    plays_usual(&rt, rt.alloc(), &steps);
}

#[test]
fn cells_have_their_width(rt: HostRuntime) {
    let style = Style::power_on();
    let cell = style.cell(b'a');
    assert!(rt; cell.dots() == 12);
    assert!(rt; cell.style.is_same(&style));
    let bold = Style {
        bold: true,
        ..Style::power_on()
    };
    assert!(rt; !bold.is_same(&style));
    assert!(rt; bold != style);
    assert!(rt; bold.cell(b'a') != cell);
    assert!(rt; style.cell(b'b') != cell);
    assert!(rt; Cell::default().byte == b' ');
    let mut cells = Cells::new();
    cells.push(cell);
    assert!(rt; cells.as_slice() == [cell].as_slice());
}

// Each law can be called.
#[test]
fn laws_hold() {
    laws::cells_of_text();
    laws::one_cut();
    laws::initialisation();
    laws::paper_grows();
    laws::one_check_digit();
    laws::first_profile();
    laws::second_profile();
}

#[test]
fn check_digits(rt: HostRuntime) {
    assert!(rt; all_digits(b"0123456789"));
    assert!(rt; !all_digits(b"12a"));
    assert!(rt; check_digit(b"03600029145") == 2);
    assert!(rt; check_digit(b"5512345") == 7);
    assert!(rt; check_digit(b"400638133393") == 1);
    assert!(rt; check_digit(b"") == 0);
    assert!(rt; check_digit(&[b'9'; 100_000]) == 0);
}

// The writer fails in the midst of the dots of the largest raster.
#[test]
fn a_raster_cut_short(rt: HostRuntime) {
    let steps = [
        Step::LargestRaster,
        Step::CutShort(b"raster left normal 128 4095 f0"),
    ];
    plays_usual(&rt, rt.alloc(), &steps);
}

// The bytes of a content and the dots that lie on paper can be read there.
#[test]
fn content_and_dots_on_paper(rt: HostRuntime) {
    let steps = [Step::BarsAndRaster, Step::HasBarsAndRaster];
    plays_usual(&rt, rt.alloc(), &steps);
}
