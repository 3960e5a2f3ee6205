//! The rows of `render`: lines, styles, barcodes, rasters and feeds as they lie on paper.

use crate::support::long::{Long, Text, prints_long};
use escpos_job_parts::status::Status;
use escpos_test_jobs::{Row, performs_rows, render_task};

const RENDERED: [Row; 11] = [
    // empty_input
    (b"", b"", Status::Good),
    // five_commands
    (
        b"1B 40 48 69 0A 1D 56 00",
        b"row left Hi\nfeed 1\ncut full\n",
        Status::Good,
    ),
    // styles_in_mid_line
    (
        b"41 42 1B 61 01 43 0A 1B 61 01 44 0A",
        b"row left ABC\nfeed 1\nrow center D\nfeed 1\n",
        Status::Good,
    ),
    (
        b"1B 45 01 41 1B 45 00 42 0A",
        b"row left [A,1,1,1,0,0]A[A,1,1,0,0,0]B\nfeed 1\n",
        Status::Good,
    ),
    // feed_zero
    (b"1B 64 00", b"feed 0\n", Status::Good),
    (b"0A", b"feed 1\n", Status::Good),
    (
        b"41 1D 56 41 05",
        b"row left A\nfeed 1\ncut full 5\n",
        Status::Good,
    ),
    // mode_b9
    (
        b"1B 21 B9 41 0A",
        b"row left [B,2,2,1,1,0]A\nfeed 1\n",
        Status::Good,
    ),
    // init_drops_line
    (b"41 1B 40 42 0A", b"row left B\nfeed 1\n", Status::Good),
    // the last line of the listing after a half command and after a fault
    (b"0A 1D 56", b"feed 1\nend 3 pending 2\n", Status::Refused),
    (
        b"0A 41 06",
        b"feed 1\nfault 2 1 UnknownByte\n",
        Status::Refused,
    ),
];

#[test]
fn rows_of_render(rt: HostRuntime) {
    assert!(&rt; performs_rows(rt.alloc(), render_task(), &RENDERED, &[1, 4096]));
}

const RENDERED_CONTENTS: [Row; 32] = [
    // ean13
    (
        b"1D 6B 02 34 30 30 36 33 38 31 33 33 33 39 33 00",
        b"bars left ean13 162 3 none A 4006381333931\n",
        Status::Good,
    ),
    (
        b"1D 6B 02 34 30 30 36 33 38 31 33 33 33 39 33 32 00",
        b"bars left ean13 162 3 none A 4006381333932\n",
        Status::Good,
    ),
    // itf
    (
        b"1D 6B 46 02 31 32",
        b"bars left itf 162 3 none A 12\n",
        Status::Good,
    ),
    // raster
    (
        b"1D 76 30 00 01 00 02 00 F0 0F",
        b"raster left normal 1 2 f00f\n",
        Status::Good,
    ),
    (
        b"1B 61 02 1D 76 30 32 01 00 01 00 A5",
        b"raster right tall 1 1 a5\n",
        Status::Good,
    ),
    // raster_behind_text
    (
        b"41 1D 76 30 00 01 00 01 00 FF",
        b"row left A\nfeed 1\nraster left normal 1 1 ff\n",
        Status::Good,
    ),
    // graphics: printed once, in the long form too, and not where none are stored
    (
        b"41 1D 28 4C 0C 00 30 70 30 01 01 31 08 00 02 00 F0 0F 1D 28 4C 02 00 30 32 1D 28 4C 02 00 30 32",
        b"row left A\nfeed 1\nraster left normal 1 2 f00f\n",
        Status::Good,
    ),
    (
        b"1D 38 4C 0C 00 00 00 30 70 30 02 02 31 0C 00 01 00 A5 F0 1B 61 01 1D 28 4C 02 00 30 02",
        b"raster center both 2 1 a5f0\n",
        Status::Good,
    ),
    (
        b"41 1D 28 4C 02 00 30 32 42 0A",
        b"row left AB\nfeed 1\n",
        Status::Good,
    ),
    // a store of other dots than its size's is ignored
    (
        b"41 1D 28 4C 0B 00 30 70 30 01 01 31 08 00 02 00 F0 1D 28 4C 02 00 30 32 42 0A",
        b"row left AB\nfeed 1\n",
        Status::Good,
    ),
    // cuts of every form
    (
        b"41 0A 1B 69 1B 6D 1D 56 61 00 1D 56 62 05 1D 56 67 FF 1D 56 68 01",
        b"row left A\nfeed 1\ncut partial\ncut partial\ncut full 0\ncut partial 5\ncut full 255\ncut partial 1\n",
        Status::Good,
    ),
    (
        b"41 1B 69",
        b"row left A\nfeed 1\ncut partial\n",
        Status::Good,
    ),
    // units_and_pulse
    (
        b"41 1B 4A 05 1B 70 00 19 FA",
        b"row left A\nunits 5\n",
        Status::Good,
    ),
    // line_width, in font A, in font B and eight times as wide
    (
        b"6161616161616161616161616161616161616161616161616161616161616161616161616161616161610A",
        b"row left aaaaaaaaaaaaaaaaaaaaaaaaaaaaaaaaaaaaaaaaaa\nfeed 1\n",
        Status::Good,
    ),
    (
        b"616161616161616161616161616161616161616161616161616161616161616161616161616161616161610A",
        b"row left aaaaaaaaaaaaaaaaaaaaaaaaaaaaaaaaaaaaaaaaaa\nfeed 1\nrow left a\nfeed 1\n",
        Status::Good,
    ),
    (
        b"1B4D0161616161616161616161616161616161616161616161616161616161616161616161616161616161616161616161616161616161616161610A",
        b"row left [B,1,1,0,0,0]aaaaaaaaaaaaaaaaaaaaaaaaaaaaaaaaaaaaaaaaaaaaaaaaaaaaaaaa\nfeed 1\n",
        Status::Good,
    ),
    (
        b"1B4D016161616161616161616161616161616161616161616161616161616161616161616161616161616161616161616161616161616161616161610A",
        b"row left [B,1,1,0,0,0]aaaaaaaaaaaaaaaaaaaaaaaaaaaaaaaaaaaaaaaaaaaaaaaaaaaaaaaa\nfeed 1\nrow left [B,1,1,0,0,0]a\nfeed 1\n",
        Status::Good,
    ),
    (
        b"1D21706161616161610A",
        b"row left [A,8,1,0,0,0]aaaaa\nfeed 1\nrow left [A,8,1,0,0,0]a\nfeed 1\n",
        Status::Good,
    ),
    // 41 characters of font A and 2 of font B are 510 dots of 512, and one more of font B is 519
    (
        b"61616161616161616161616161616161616161616161616161616161616161616161616161616161611B4D316262620A",
        b"row left aaaaaaaaaaaaaaaaaaaaaaaaaaaaaaaaaaaaaaaaa[B,1,1,0,0,0]bb\nfeed 1\nrow left [B,1,1,0,0,0]b\nfeed 1\n",
        Status::Good,
    ),
    // the other forms of text
    (
        b"1B61321B74FF1B2D021D21035B5C7FE97E200D1D5642FF",
        b"row right [A,1,4,0,2,255]\\5b\\5c\\7f\\e9~ \nfeed 1\ncut partial 255\n",
        Status::Good,
    ),
    // settings of barcodes, which Init puts back
    (
        b"1D68321D77021D48011D66311D6B460231321B401D6B46023132",
        b"bars left itf 50 2 above B 12\nbars left itf 162 3 none A 12\n",
        Status::Good,
    ),
    (
        b"1D68321D77021D48321D66311D6B460231321B401D6B46023132",
        b"bars left itf 50 2 below B 12\nbars left itf 162 3 none A 12\n",
        Status::Good,
    ),
    (
        b"1D68321D77021D48031D66311D6B460231321B401D6B46023132",
        b"bars left itf 50 2 both B 12\nbars left itf 162 3 none A 12\n",
        Status::Good,
    ),
    // check digits of UPC-A and EAN-8
    (
        b"1B61311D6B410B30333630303032393134351D6B440735353132333435",
        b"bars center upca 162 3 none A 036000291452\nbars center ean8 162 3 none A 55123457\n",
        Status::Good,
    ),
    // those of UPC-E, which are of the UPC-A that is meant
    (
        b"1D6B0131323334353600",
        b"bars left upce 162 3 none A 1234565\n",
        Status::Good,
    ),
    (
        b"1D6B4207303132333435361D6B420B3031323334353030303036",
        b"bars left upce 162 3 none A 01234565\nbars left upce 162 3 none A 012345000065\n",
        Status::Good,
    ),
    // the other symbologies have none
    (
        b"1D6B0441203124001D6B066131323A44001D6B49077B42005B5C5D7F",
        b"bars left code39 162 3 none A A 1$\nbars left codabar 162 3 none A a12:D\nbars left code128 162 3 none A {B\\00\\5b\\5c]\\7f\n",
        Status::Good,
    ),
    (
        b"1D6B480361007F1D6B4A052830312931",
        b"bars left code93 162 3 none A a\\00\\7f\nbars left gs1_128 162 3 none A (01)1\n",
        Status::Good,
    ),
    // the other scales
    (
        b"1D7630010200010000FF1D7630330100010009",
        b"raster left wide 2 1 00ff\nraster left both 1 1 09\n",
        Status::Good,
    ),
    // a barcode after text
    (
        b"411D6B46023132",
        b"row left A\nfeed 1\nbars left itf 162 3 none A 12\n",
        Status::Good,
    ),
    // a feed of no units, and a pulse in the line
    (
        b"1B4A00411B700019FA0A",
        b"units 0\nrow left A\nfeed 1\n",
        Status::Good,
    ),
    // commands that print nothing
    (
        b"410D1B401B21001B45011B2D011B4D011B74011B61021D21111D68011D77021D48011D66011004011D28480600303031323334",
        b"",
        Status::Good,
    ),
];

#[test]
fn contents_in_render(rt: HostRuntime) {
    assert!(&rt; performs_rows(rt.alloc(), render_task(), &RENDERED_CONTENTS, &[4096]));
}

// What is new since the second profile.
const RENDERED_STYLES: [Row; 28] = [
    // strike, beside emphasis, by bit 0 alone
    (
        b"1B 45 01 1B 47 01 41 1B 47 02 42 0A",
        b"row left [A,1,1,1,0,0,1,0,0]A[A,1,1,1,0,0]B\nfeed 1\n",
        Status::Good,
    ),
    // white on black, back to six fields
    (
        b"1D 42 FF 41 1D 42 FE 42 0A",
        b"row left [A,1,1,0,0,0,0,1,0]A[A,1,1,0,0,0]B\nfeed 1\n",
        Status::Good,
    ),
    // a character set, which changes no byte
    (
        b"1B 52 08 23 E9 0A",
        b"row left [A,1,1,0,0,0,0,0,8]#\\e9\nfeed 1\n",
        Status::Good,
    ),
    // ESC ! leaves all three as they are
    (
        b"1B 47 01 1D 42 01 1B 52 11 1B 21 B9 41 0A",
        b"row left [B,2,2,1,1,0,1,1,17]A\nfeed 1\n",
        Status::Good,
    ),
    // Init puts them back, at the beginning of a line and in it
    (
        b"1B 47 01 1D 42 01 1B 52 11 1B 7B 01 1B 33 05 41 1B 40 42 0A",
        b"row left B\nfeed 1\n",
        Status::Good,
    ),
    // upside down, at the beginning of a line alone
    (
        b"1B 7B 01 41 1B 7B 00 42 0A 1B 7B 02 43 0A",
        b"row left upside AB\nfeed 1\nrow left C\nfeed 1\n",
        Status::Good,
    ),
    (
        b"41 1B 7B 01 42 0A 43 0A",
        b"row left AB\nfeed 1\nrow left C\nfeed 1\n",
        Status::Good,
    ),
    // with an alignment and a style
    (
        b"1B 61 01 1B 7B 01 1B 47 01 41 0A",
        b"row center upside [A,1,1,0,0,0,1,0,0]A\nfeed 1\n",
        Status::Good,
    ),
    // a row that is full is upside down, too, and so is the next
    (
        b"1B7B011B330A616161616161616161616161616161616161616161616161616161616161616161616161616161616161610A",
        b"row left upside aaaaaaaaaaaaaaaaaaaaaaaaaaaaaaaaaaaaaaaaaa\nfeed 1 spacing 10\nrow left upside a\nfeed 1 spacing 10\n",
        Status::Good,
    ),
    // barcodes and rasters aren't turned
    (
        b"1B 7B 01 1D 6B 46 02 31 32 1D 76 30 00 01 00 01 00 FF",
        b"bars left itf 162 3 none A 12\nraster left normal 1 1 ff\n",
        Status::Good,
    ),
    // a spacing is that of the feeds after it, until the default
    (
        b"1B 33 28 0A 1B 64 02 1B 32 0A 1B 33 00 1B 64 00",
        b"feed 1 spacing 40\nfeed 2 spacing 40\nfeed 1\nfeed 0 spacing 0\n",
        Status::Good,
    ),
    // also of the line that it is set in, and of the feed before a cut
    (
        b"41 1B 33 FF 0A 42 1D 56 00",
        b"row left A\nfeed 1 spacing 255\nrow left B\nfeed 1 spacing 255\ncut full\n",
        Status::Good,
    ),
    // motion units have no spacing
    (b"1B 33 05 1B 4A 07", b"units 7\n", Status::Good),
    // smoothing has no effect
    (
        b"1D 62 01 41 1D 62 00 0A",
        b"row left A\nfeed 1\n",
        Status::Good,
    ),
    // nor has automatic status
    (
        b"1D 61 0F 41 1D 61 00 0A",
        b"row left A\nfeed 1\n",
        Status::Good,
    ),
    // none of them prints anything
    (
        b"1B 47 01 1D 42 01 1B 7B 01 1D 62 01 1B 33 05 1B 32 1B 52 01",
        b"",
        Status::Good,
    ),
    // the feed before a barcode or a raster has the spacing, too
    (
        b"1B 33 0A 41 1D 6B 46 02 31 32 42 1D 76 30 00 01 00 01 00 FF",
        b"row left A\nfeed 1 spacing 10\nbars left itf 162 3 none A 12\nrow left B\nfeed 1 spacing 10\nraster left normal 1 1 ff\n",
        Status::Good,
    ),
    // a row that motion units follow is upside down, too
    (
        b"1B 7B 01 41 1B 4A 05",
        b"row left upside A\nunits 5\n",
        Status::Good,
    ),
    // bit 0 alone counts
    (
        b"1B 47 03 41 1B 47 FE 42 0A",
        b"row left [A,1,1,0,0,0,1,0,0]A[A,1,1,0,0,0]B\nfeed 1\n",
        Status::Good,
    ),
    (
        b"1B 7B FF 41 0A 1B 7B FE 42 0A",
        b"row left upside A\nfeed 1\nrow left B\nfeed 1\n",
        Status::Good,
    ),
    // no other command touches what these set
    (
        b"1B4701 1D4201 1B5208 1B7B01 1B32 1B330A 1D6200 1B2100 1B4500 1B2D00 1B4D00 1B7400 1B6101 1D2100 1D6832 1D7702 1D4800 1D6600 1B70000101 0D 100401 1D28480600303030303030 1B6400 1B4A00 1D5600 1D6B46023132 1D76300001000100FF 41 0A",
        b"feed 0 spacing 10\nunits 0\ncut full\nbars center itf 50 2 none A 12\nraster center normal 1 1 ff\nrow center upside [A,1,1,0,0,0,1,1,8]A\nfeed 1 spacing 10\n",
        Status::Good,
    ),
    (
        b"1B330A 1B7B01 1B5208 1D4201 1B4701 41 0A",
        b"row left upside [A,1,1,0,0,0,1,1,8]A\nfeed 1 spacing 10\n",
        Status::Good,
    ),
    // and these touch nothing else
    (
        b"1B21B9 1B7405 1B6102 1B2D02 1D6832 1D7702 1D4802 1D6601 1B4701 1B4700 1D4201 1D4200 1B5203 1B5200 1B7B01 1B7B00 1D6201 1D6200 1B3305 1B32 41 0A 1D6B46023132",
        b"row right [B,2,2,1,2,5]A\nfeed 1\nbars right itf 50 2 below B 12\n",
        Status::Good,
    ),
    // the space after a character
    (
        b"1B 20 05 41 1B 20 00 42 0A",
        b"row left [A,1,1,0,0,0,0,0,0,5]A[A,1,1,0,0,0]B\nfeed 1\n",
        Status::Good,
    ),
    // a second colour, and back
    (
        b"1B 72 01 41 1B 72 30 42 1B 72 31 43 0A",
        b"row left [A,1,1,0,0,0,0,0,0,0,1]A[A,1,1,0,0,0]B[A,1,1,0,0,0,0,0,0,0,1]C\nfeed 1\n",
        Status::Good,
    ),
    (
        b"1B 20 05 1B 72 01 41 1B 40 42 0A",
        b"row left B\nfeed 1\n",
        Status::Good,
    ),
    // an alignment in mid-line has no effect on the next line either
    (
        b"41 1B 61 01 0A 42 0A",
        b"row left A\nfeed 1\nrow left B\nfeed 1\n",
        Status::Good,
    ),
    // what was printed before a fault has its style
    (
        b"1B 47 01 41 0A 1B 52 12",
        b"row left [A,1,1,0,0,0,1,0,0]A\nfeed 1\nfault 7 3 BadParameter\n",
        Status::Refused,
    ),
];

#[test]
fn styles_in_render(rt: HostRuntime) {
    assert!(&rt; performs_rows(rt.alloc(), render_task(), &RENDERED_STYLES, &[1, 4096]));
}

// A raster of 128 bytes a row through `render`, with 524,160 bytes of dots.
// Where cells stand: tab stops, positions, margins and the width of the printing area.
const RENDERED_POSITIONS: [Row; 27] = [
    // the stops at power-on are at each eighth character; a cell that follows the one before it has no place
    (
        b"41 09 42 43 0A",
        b"row left A@96BC\nfeed 1\n",
        Status::Good,
    ),
    // the first stop at the right of the place, which the next character needn't follow
    (
        b"1B 24 60 00 09 41 0A",
        b"row left @192A\nfeed 1\n",
        Status::Good,
    ),
    // stops of ESC D in columns of the style then; after the last of them HT does nothing
    (
        b"1D 21 10 1B 44 02 00 1D 21 00 41 09 42 09 43 0A",
        b"row left A@48BC\nfeed 1\n",
        Status::Good,
    ),
    (
        b"1B 44 00 41 09 42 0A",
        b"row left AB\nfeed 1\n",
        Status::Good,
    ),
    // ESC @ sets those of power-on
    (
        b"1B 44 02 00 1B 40 09 42 0A",
        b"row left @96B\nfeed 1\n",
        Status::Good,
    ),
    // to a dot, and by some dots to the right and to the left; to where it stands anyway
    (
        b"1B 24 64 00 41 0A",
        b"row left @100A\nfeed 1\n",
        Status::Good,
    ),
    (
        b"41 1B 5C 0A 00 42 0A",
        b"row left A@22B\nfeed 1\n",
        Status::Good,
    ),
    (
        b"41 1B 5C F4 FF 2F 0A",
        b"row left A@0/\nfeed 1\n",
        Status::Good,
    ),
    (
        b"41 1B 24 0C 00 42 0A",
        b"row left AB\nfeed 1\n",
        Status::Good,
    ),
    // what would leave the printing area moves nothing
    (
        b"41 1B 24 01 02 42 1B 5C E7 FF 43 0A",
        b"row left ABC\nfeed 1\n",
        Status::Good,
    ),
    // a character that doesn't fit at its place stands at the beginning of the next line, or of this one if that is empty
    (
        b"41 1B 24 FF 01 42 0A",
        b"row left A\nfeed 1\nrow left B\nfeed 1\n",
        Status::Good,
    ),
    (b"1B 24 FF 01 42 0A", b"row left B\nfeed 1\n", Status::Good),
    (
        b"1B 24 F4 01 42 0A",
        b"row left @500B\nfeed 1\n",
        Status::Good,
    ),
    // to the end of the printing area, where no character fits; the stop at its end, too
    (
        b"41 1B 24 00 02 42 0A",
        b"row left A\nfeed 1\nrow left B\nfeed 1\n",
        Status::Good,
    ),
    (
        b"1D 57 60 00 41 09 42 0A",
        b"row left A\nfeed 1\nrow left B\nfeed 1\n",
        Status::Good,
    ),
    (
        b"1D 57 5F 00 41 09 42 0A",
        b"row left AB\nfeed 1\n",
        Status::Good,
    ),
    (
        b"41 1B 5C F4 01 42 1B 5C 01 00 43 0A",
        b"row left A\nfeed 1\nrow left B@13C\nfeed 1\n",
        Status::Good,
    ),
    // a row at the left that is upside down has its margin
    (
        b"1D 4C 18 00 1B 7B 01 41 0A",
        b"row left margin 24 upside @24A\nfeed 1\n",
        Status::Good,
    ),
    // a move alone is no row
    (b"09 0A", b"feed 1\n", Status::Good),
    // a margin, and a place within it
    (
        b"1D 4C 18 00 41 1B 24 30 00 42 0A",
        b"row left @24A@72B\nfeed 1\n",
        Status::Good,
    ),
    // within a line GS L and GS W do nothing
    (
        b"41 1D 4C 18 00 1D 57 18 00 42 43 0A 44 0A",
        b"row left ABC\nfeed 1\nrow left D\nfeed 1\n",
        Status::Good,
    ),
    // a printing area of two characters, and one that isn't as wide as one
    (
        b"1D 57 18 00 41 42 43 0A",
        b"row left AB\nfeed 1\nrow left C\nfeed 1\n",
        Status::Good,
    ),
    (
        b"1D 57 01 00 41 42 0A",
        b"row left A\nfeed 1\nrow left B\nfeed 1\n",
        Status::Good,
    ),
    // a margin at the line's end leaves no dot
    (
        b"1D 4C FF FF 41 42 0A",
        b"row left @65535A\nfeed 1\nrow left @65535B\nfeed 1\n",
        Status::Good,
    ),
    // centred in the printing area; a barcode has it, too
    (
        b"1B 61 01 1D 4C 18 00 1D 57 64 00 41 0A",
        b"row center margin 24 width 100 @24A\nfeed 1\n",
        Status::Good,
    ),
    (
        b"1D 4C 18 00 1D 57 FF FF 1D 6B 44 07 35 35 31 32 33 34 35",
        b"bars left margin 24 width 65535 ean8 162 3 none A 55123457\n",
        Status::Good,
    ),
    // turned characters, each as wide as it is high otherwise
    (
        b"1B 56 01 41 1B 56 00 42 0A",
        b"row left [A,1,1,0,0,0,0,0,0,0,0,1]A[A,1,1,0,0,0]B\nfeed 1\n",
        Status::Good,
    ),
];

#[test]
fn positions_in_render(rt: HostRuntime) {
    assert!(&rt; performs_rows(rt.alloc(), render_task(), &RENDERED_POSITIONS, &[1, 4096]));
}

const LARGEST: [Long; 1] = [(
    Text::Filled(b"1D7630008000FF0F", b'a', 1_048_336),
    Text::FilledAnd(b"raster left normal 128 4095 ", b'a', 1_048_348, b"\n"),
    Status::Good,
)];

#[test]
fn the_largest_raster(rt: HostRuntime) {
    prints_long(&rt, rt.alloc(), render_task(), &LARGEST);
}

// The same with 262,016 bytes of dots.
const OF_2047_ROWS: [Long; 1] = [(
    Text::Filled(b"1D7630008000FF07", b'a', 524_048),
    Text::FilledAnd(b"raster left normal 128 2047 ", b'a', 524_060, b"\n"),
    Status::Good,
)];

#[test]
fn a_raster_of_2047_rows(rt: HostRuntime) {
    prints_long(&rt, rt.alloc(), render_task(), &OF_2047_ROWS);
}
