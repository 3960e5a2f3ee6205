//! The rows of `draw`: every number of these documents is worked out from the rules of docs/PROFILE.md, not read off.

use escpos_job_parts::status::Status;
use escpos_jobs::task::Task;
use escpos_test_jobs::{draw_task, passing_draw_task, prints, raw_draw_task};
use std::alloc::Global;
use std::process::Abort;

mod qr_codes;
mod qr_sizes;

// The style sheet, and the clip of rasters.
const STYLES: &str = "\
<style type=\"text/css\">
.paper{fill:#fff}
text{font-family:\"DejaVu Sans Mono\",Menlo,Consolas,monospace;font-size:20px;white-space:pre}
.B{font-size:15px}
.bold{font-weight:bold}
.white{fill:#fff}
.second{fill:#c00}
.middle{text-anchor:middle}
.bars path,.raster path{stroke:#000;shape-rendering:crispEdges}
.raster{clip-path:url(#line)}
.box,.cut circle,.cut path{fill:none;stroke:#000;stroke-width:2}
.dashes{stroke-dasharray:8 6}
.last{fill:#a00}
</style>
<clipPath id=\"line\"><path d=\"M0 0h512v8190H0z\"/></clipPath>
";

// A stream in hexadecimal, the height of its paper and of its document in dots, and what stands between head and end.
type Drawn = (&'static str, &'static str, &'static str, &'static str);

const DRAWN: [Drawn; 40] = [
    // an empty paper: its margins alone
    ("", "64", "64", ""),
    // a row, 24 dots high, with its base line three quarters down, and a feed of 30 dots from its upper edge
    (
        "48 69 0A",
        "94",
        "94",
        "<g class=\"row\" transform=\"translate(32,50)\"><text x=\"0\" textLength=\"24\">Hi</text></g>\n<g class=\"feed\"/>\n",
    ),
    // the next row begins where the feed ends: 32 + 30 + 18
    (
        "41 0A 42 0A",
        "124",
        "124",
        "<g class=\"row\" transform=\"translate(32,50)\"><text x=\"0\" textLength=\"12\">A</text></g>\n<g class=\"feed\"/>\n\
         <g class=\"row\" transform=\"translate(32,80)\"><text x=\"0\" textLength=\"12\">B</text></g>\n<g class=\"feed\"/>\n",
    ),
    // a feed of no lines takes nothing, and a feed that follows no row takes 30 dots a line
    ("1B 64 00", "64", "64", "<g class=\"feed\"/>\n"),
    (
        "0A 1B 64 02",
        "154",
        "154",
        "<g class=\"feed\"/>\n<g class=\"feed\"/>\n",
    ),
    // a row that is 48 dots high is higher than a line: a feed of one takes nothing more, one of two takes 30
    (
        "1D 21 01 41 1B 64 02",
        "142",
        "142",
        "<g class=\"row\" transform=\"translate(32,68)\"><text transform=\"matrix(1 0 0 2 0 0)\" textLength=\"12\">A</text></g>\n<g class=\"feed\"/>\n",
    ),
    // four dots of space after each of two characters, white on black: the ground has both, the text what is between them
    (
        "1B 20 04 1D 42 01 41 42 0A",
        "94",
        "94",
        "<g class=\"row\" transform=\"translate(32,50)\"><path d=\"M0 -18h32v24h-32z\"/><text x=\"0\" class=\"white\" textLength=\"28\">AB</text></g>\n<g class=\"feed\"/>\n",
    ),
    // a second colour: what would be black has it
    (
        "1B 72 01 1B 2D 01 41 0A",
        "94",
        "94",
        "<g class=\"row\" transform=\"translate(32,50)\"><g class=\"second\"><text x=\"0\" textLength=\"12\">A</text><path d=\"M0 5h12v1h-12z\"/></g></g>\n<g class=\"feed\"/>\n",
    ),
    (
        "1B 72 01 1D 42 01 41 0A",
        "94",
        "94",
        "<g class=\"row\" transform=\"translate(32,50)\"><g class=\"second\"><path d=\"M0 -18h12v24h-12z\"/><text x=\"0\" class=\"white\" textLength=\"12\">A</text></g></g>\n<g class=\"feed\"/>\n",
    ),
    // three motion units are one and a half dots
    (
        "1B 4A 03 41 0A",
        "95.5",
        "95.5",
        "<g class=\"units\"/>\n<g class=\"row\" transform=\"translate(32,51.5)\"><text x=\"0\" textLength=\"12\">A</text></g>\n<g class=\"feed\"/>\n",
    ),
    // centred and right: 512 - 36 dots are left free
    (
        "1B 61 01 41 42 43 0A",
        "94",
        "94",
        "<g class=\"row\" transform=\"translate(270,50)\"><text x=\"0\" textLength=\"36\">ABC</text></g>\n<g class=\"feed\"/>\n",
    ),
    (
        "1B 61 02 41 42 43 0A",
        "94",
        "94",
        "<g class=\"row\" transform=\"translate(508,50)\"><text x=\"0\" textLength=\"36\">ABC</text></g>\n<g class=\"feed\"/>\n",
    ),
    // font B: 9 by 17 dots, with its base line 12.75 dots down
    (
        "1B 4D 01 41 42 0A",
        "94",
        "94",
        "<g class=\"row\" transform=\"translate(32,44.75)\"><text x=\"0\" class=\"B\" textLength=\"18\">AB</text></g>\n<g class=\"feed\"/>\n",
    ),
    // emphasis, and both
    (
        "1B 45 01 41 0A 1B 4D 01 42 0A",
        "124",
        "124",
        "<g class=\"row\" transform=\"translate(32,50)\"><text x=\"0\" class=\"bold\" textLength=\"12\">A</text></g>\n<g class=\"feed\"/>\n\
         <g class=\"row\" transform=\"translate(32,74.75)\"><text x=\"0\" class=\"B bold\" textLength=\"9\">B</text></g>\n<g class=\"feed\"/>\n",
    ),
    // underlines of one and two dots, across a blank, at the lower edge of the cells: 6 dots under the base line
    (
        "1B 2D 01 41 20 0A 1B 2D 02 42 0A",
        "124",
        "124",
        "<g class=\"row\" transform=\"translate(32,50)\"><text x=\"0\" textLength=\"24\">A </text><path d=\"M0 5h24v1h-24z\"/></g>\n<g class=\"feed\"/>\n\
         <g class=\"row\" transform=\"translate(32,80)\"><text x=\"0\" textLength=\"12\">B</text><path d=\"M0 4h12v2h-12z\"/></g>\n<g class=\"feed\"/>\n",
    ),
    // double strike is bold, beside emphasis and alone
    (
        "1B 47 01 41 1B 45 01 42 0A",
        "94",
        "94",
        "<g class=\"row\" transform=\"translate(32,50)\"><text x=\"0\" class=\"bold\" textLength=\"12\">A</text>\
         <text x=\"12\" class=\"bold\" textLength=\"12\">B</text></g>\n<g class=\"feed\"/>\n",
    ),
    // white on black, across a blank: 18 dots above the base line and 6 below it; the underline isn't drawn
    (
        "41 1D 42 01 1B 2D 02 42 20 1D 42 00 43 0A",
        "94",
        "94",
        "<g class=\"row\" transform=\"translate(32,50)\"><text x=\"0\" textLength=\"12\">A</text>\
         <path d=\"M12 -18h24v24h-24z\"/><text x=\"12\" class=\"white\" textLength=\"24\">B </text>\
         <text x=\"36\" textLength=\"12\">C</text><path d=\"M36 4h12v2h-12z\"/></g>\n<g class=\"feed\"/>\n",
    ),
    // twice as wide and three times as high in font B, bold: 18 by 51 dots, 38.25 of them above the base line
    (
        "1D 42 01 1B 45 01 1B 4D 01 1D 21 12 41 0A",
        "115",
        "115",
        "<g class=\"row\" transform=\"translate(32,70.25)\"><path d=\"M0 -38.25h18v51h-18z\"/>\
         <text transform=\"matrix(2 0 0 3 0 0)\" class=\"B bold white\" textLength=\"9\">A</text></g>\n<g class=\"feed\"/>\n",
    ),
    // a line that is turned: what stands at its left end begins 32 + 512 dots from the left, 6 dots under its upper edge
    (
        "1B 7B 01 41 42 0A 1B 61 02 43 0A",
        "124",
        "124",
        "<g class=\"row\" transform=\"translate(544,38) rotate(180)\"><text x=\"0\" textLength=\"24\">AB</text></g>\n<g class=\"feed\"/>\n\
         <g class=\"row\" transform=\"translate(44,68) rotate(180)\"><text x=\"0\" textLength=\"12\">C</text></g>\n<g class=\"feed\"/>\n",
    ),
    // 61 motion units are 30.5 dots: 6.5 under a row, and 30.5 for each further line; after ESC 2 it is 30 again
    (
        "1B 33 3D 41 1B 64 02 0A 1B 32 0A",
        "185.5",
        "185.5",
        "<g class=\"row\" transform=\"translate(32,50)\"><text x=\"0\" textLength=\"12\">A</text></g>\n<g class=\"feed\"/>\n\
         <g class=\"feed\"/>\n<g class=\"feed\"/>\n",
    ),
    // a spacing less than a row is high adds nothing under it
    (
        "1B 33 00 41 0A 42 0A",
        "112",
        "112",
        "<g class=\"row\" transform=\"translate(32,50)\"><text x=\"0\" textLength=\"12\">A</text></g>\n<g class=\"feed\"/>\n\
         <g class=\"row\" transform=\"translate(32,74)\"><text x=\"0\" textLength=\"12\">B</text></g>\n<g class=\"feed\"/>\n",
    ),
    // struck twice, white on black
    (
        "1B 47 01 1D 42 01 41 0A",
        "94",
        "94",
        "<g class=\"row\" transform=\"translate(32,50)\"><path d=\"M0 -18h12v24h-12z\"/>\
         <text x=\"0\" class=\"bold white\" textLength=\"12\">A</text></g>\n<g class=\"feed\"/>\n",
    ),
    // characters of two sets are two texts
    (
        "41 1B 52 01 42 0A",
        "94",
        "94",
        "<g class=\"row\" transform=\"translate(32,50)\"><text x=\"0\" textLength=\"12\">A</text>\
         <text x=\"12\" textLength=\"12\">B</text></g>\n<g class=\"feed\"/>\n",
    ),
    // centred and turned: 251 of 503 dots are free on the right, 17 dots high
    (
        "1B 7B 01 1B 61 01 1B 4D 01 41 0A",
        "94",
        "94",
        "<g class=\"row\" transform=\"translate(293,36.25) rotate(180)\"><text x=\"0\" class=\"B\" textLength=\"9\">A</text></g>\n<g class=\"feed\"/>\n",
    ),
    // three styles in one row: on one base line, the second 12 dots from the left and 2 x 12 wide
    (
        "41 1D 21 11 42 1D 21 00 43 0A",
        "112",
        "112",
        "<g class=\"row\" transform=\"translate(32,68)\"><text x=\"0\" textLength=\"12\">A</text>\
         <text transform=\"matrix(2 0 0 2 12 0)\" textLength=\"12\">B</text><text x=\"36\" textLength=\"12\">C</text></g>\n<g class=\"feed\"/>\n",
    ),
    // what means something in a document stands as an entity
    (
        "26 3C 3E 22 27 0A",
        "94",
        "94",
        "<g class=\"row\" transform=\"translate(32,50)\"><text x=\"0\" textLength=\"60\">&amp;&lt;&gt;&quot;&apos;</text></g>\n<g class=\"feed\"/>\n",
    ),
    // 80 and D5 in the tables 0, 2, 16 and 19, and 80 in 3; 81 is open in table 16, and table 20 is not one of those that are read
    (
        "80 D5 1B 74 02 80 D5 1B 74 10 80 D5 81 1B 74 13 80 D5 1B 74 03 80 1B 74 14 80 0A",
        "94",
        "94",
        "<g class=\"row\" transform=\"translate(32,50)\"><text x=\"0\" textLength=\"24\">Ç╒</text><text x=\"24\" textLength=\"24\">Çı</text>\
         <text x=\"48\" textLength=\"36\">€Õ\u{FFFD}</text><text x=\"84\" textLength=\"24\">Ç€</text><text x=\"108\" textLength=\"12\">Ç</text>\
         <text x=\"120\" textLength=\"12\">\u{FFFD}</text></g>\n<g class=\"feed\"/>\n",
    ),
    // 7F is no character
    (
        "7F 0A",
        "94",
        "94",
        "<g class=\"row\" transform=\"translate(32,50)\"><text x=\"0\" textLength=\"12\">\u{FFFD}</text></g>\n<g class=\"feed\"/>\n",
    ),
    // a raster of each scale: F0 0F is four dots, eight white ones, and four dots; nothing is drawn of a white row
    (
        "1D 76 30 00 02 00 02 00 F0 0F 00 00",
        "66",
        "66",
        "<g class=\"raster\" transform=\"translate(32,32)\"><g transform=\"scale(1,1)\">\n<path d=\"M0 0.5h4m4 0m4 0h4m-16 1\"/>\n</g></g>\n",
    ),
    (
        "1B 61 01 1D 76 30 01 01 00 02 00 18 81",
        "66",
        "66",
        "<g class=\"raster\" transform=\"translate(280,32)\"><g transform=\"scale(2,1)\">\n<path d=\"M0 0.5m3 0h2m3 0m-8 1h1m6 0h1\"/>\n</g></g>\n",
    ),
    (
        "1D 76 30 02 01 00 01 00 FF",
        "66",
        "66",
        "<g class=\"raster\" transform=\"translate(32,32)\"><g transform=\"scale(1,2)\">\n<path d=\"M0 0.5h8\"/>\n</g></g>\n",
    ),
    (
        "1B 61 02 1D 76 30 03 02 00 01 00 01 80",
        "66",
        "66",
        "<g class=\"raster\" transform=\"translate(512,32)\"><g transform=\"scale(2,2)\">\n<path d=\"M0 0.5m7 0h1h1m7 0\"/>\n</g></g>\n",
    ),
    // graphics, printed where they are printed and not where they are stored: the last of 12 dots in two bytes
    (
        "1D 28 4C 0C 00 30 70 30 02 01 31 0C 00 01 00 00 10 1B 61 02 1D 28 4C 02 00 30 32",
        "65",
        "65",
        "<g class=\"raster\" transform=\"translate(512,32)\"><g transform=\"scale(2,1)\">\n<path d=\"M0 0.5m8 0m3 0h1m4 0\"/>\n</g></g>\n",
    ),
    // a barcode in the middle of its text: 55123457 by the GS1 table, three dots a module, 60 dots high, its text in font B below
    (
        "1D 68 3C 1D 48 02 1D 66 01 1D 6B 44 07 35 35 31 32 33 34 35",
        "141",
        "141",
        "<g class=\"bars\" transform=\"translate(32,32)\">\n<svg y=\"0\" width=\"201\" height=\"60\" viewBox=\"0 0 201 1\" preserveAspectRatio=\"none\">\n\
         <path d=\"M0 0.5h3m3 0h3m3 0h6m9 0h3m3 0h6m9 0h3m6 0h6m6 0h3m6 0h3m6 0h6m3 0h3m3 0h3m3 0h3m12 0h3m3 0h3m3 0h9m6 0h3m6 0h9m3 0h3m9 0h3m6 0h3m3 0h3\"/>\n</svg>\n\
         <text class=\"middle B\" x=\"100.5\" y=\"72.75\" textLength=\"72\">55123457</text></g>\n",
    ),
    // the same under a row, its text above the bars, in font B too
    (
        "41 0A 1D 68 3C 1D 48 01 1D 66 01 1D 6B 44 07 35 35 31 32 33 34 35",
        "171",
        "171",
        "<g class=\"row\" transform=\"translate(32,50)\"><text x=\"0\" textLength=\"12\">A</text></g>\n<g class=\"feed\"/>\n\
         <g class=\"bars\" transform=\"translate(32,62)\">\n<text class=\"middle B\" x=\"100.5\" y=\"12.75\" textLength=\"72\">55123457</text>\
         <svg y=\"17\" width=\"201\" height=\"60\" viewBox=\"0 0 201 1\" preserveAspectRatio=\"none\">\n\
         <path d=\"M0 0.5h3m3 0h3m3 0h6m9 0h3m3 0h6m9 0h3m6 0h6m6 0h3m6 0h3m6 0h6m3 0h3m3 0h3m3 0h3m12 0h3m3 0h3m3 0h9m6 0h3m6 0h9m3 0h3m9 0h3m6 0h3m3 0h3\"/>\n</svg>\n</g>\n",
    ),
    // no character of CODE39 is an asterisk
    (
        "1D 6B 45 01 2A",
        "226",
        "226",
        "<g class=\"bars\" transform=\"translate(32,32)\">\n<svg y=\"0\" width=\"512\" height=\"162\"><rect class=\"box\" width=\"512\" height=\"162\"/></svg>\n\
         <svg y=\"0\" width=\"512\" height=\"162\" viewBox=\"0 0 512 48\"><text class=\"middle\" x=\"256\" y=\"18\">not scannable</text>\
         <text class=\"middle\" x=\"256\" y=\"42\" textLength=\"12\" lengthAdjust=\"spacingAndGlyphs\">*</text></svg>\n</g>\n",
    ),
    // a cut after a feed of two and a half dots; a partial cut leaves the middle whole
    (
        "1D 56 41 05",
        "90.5",
        "90.5",
        "<g class=\"cut\" transform=\"translate(0,34.5)\"><circle cx=\"8\" cy=\"6\" r=\"4\"/><circle cx=\"8\" cy=\"18\" r=\"4\"/>\
         <path d=\"M11 9L28 18M11 15L28 6\"/><path class=\"dashes\" d=\"M32 12H576\"/></g>\n",
    ),
    (
        "1D 56 01",
        "88",
        "88",
        "<g class=\"cut\" transform=\"translate(0,32)\"><circle cx=\"8\" cy=\"6\" r=\"4\"/><circle cx=\"8\" cy=\"18\" r=\"4\"/>\
         <path d=\"M11 9L28 18M11 15L28 6\"/><path class=\"dashes\" d=\"M32 12H272M304 12H576\"/></g>\n",
    ),
    // a last line under the paper, which takes 40 dots more, 26 dots down
    (
        "41 0A 1D 56",
        "94",
        "134",
        "<g class=\"row\" transform=\"translate(32,50)\"><text x=\"0\" textLength=\"12\">A</text></g>\n<g class=\"feed\"/>\n\
         <text class=\"last\" x=\"32\" y=\"120\">end 4 pending 2\n</text>\n",
    ),
    (
        "06",
        "64",
        "104",
        "<text class=\"last\" x=\"32\" y=\"90\">fault 0 1 UnknownByte\n</text>\n",
    ),
];

// The document of a paper and a document of these heights, with this between head and end.
fn document(rt: &impl Abort, alloc: Global, paper: &str, height: &str, body: &str) -> String {
    format!(in alloc;
        "<svg xmlns=\"http://www.w3.org/2000/svg\" version=\"1.1\" width=\"576\" height=\"{height}\" viewBox=\"0 0 576 {height}\" xml:space=\"preserve\">\n{STYLES}<rect class=\"paper\" width=\"576\" height=\"{paper}\"/>\n{body}</svg>\n"
    ).expect(rt, "memory")
}

// The picture that a task draws of a stream is this document.
fn draws(rt: &impl Abort, alloc: Global, task: Task, (input, paper, height, body): Drawn) {
    let status = if paper == height {
        Status::Good
    } else {
        Status::Refused
    };
    let text = document(rt, alloc, paper, height, body);
    let wanted = (text.as_bytes(), status);
    assert!(rt; prints(alloc, task, input.as_bytes(), wanted));
}

fn is_drawn(rt: &impl Abort, alloc: Global, row: Drawn) {
    draws(rt, alloc, draw_task(), row);
}

// Places, margins and turned characters.
const PLACED: [Drawn; 11] = [
    // characters of one style are two texts where the second has a place of its own
    (
        "41 1B 24 64 00 42 43 0A",
        "94",
        "94",
        "<g class=\"row\" transform=\"translate(32,50)\"><text x=\"0\" textLength=\"12\">A</text>\
         <text x=\"100\" textLength=\"24\">BC</text></g>\n<g class=\"feed\"/>\n",
    ),
    // one over another, underlined where it stands
    (
        "41 1B 24 00 00 1B 2D 01 2F 0A",
        "94",
        "94",
        "<g class=\"row\" transform=\"translate(32,50)\"><text x=\"0\" textLength=\"12\">A</text>\
         <text x=\"0\" textLength=\"12\">/</text><path d=\"M0 5h12v1h-12z\"/></g>\n<g class=\"feed\"/>\n",
    ),
    // a margin of 24 dots; at the right of a printing area of 100, 88 are left free
    (
        "1D 4C 18 00 41 0A 1D 57 64 00 1B 61 02 42 0A",
        "124",
        "124",
        "<g class=\"row\" transform=\"translate(56,50)\"><text x=\"0\" textLength=\"12\">A</text></g>\n<g class=\"feed\"/>\n\
         <g class=\"row\" transform=\"translate(144,80)\"><text x=\"0\" textLength=\"12\">B</text></g>\n<g class=\"feed\"/>\n",
    ),
    // a row is as wide as its cells reach: 112 dots, so that 200 are free on either side
    (
        "1B 61 01 41 1B 24 64 00 42 0A",
        "94",
        "94",
        "<g class=\"row\" transform=\"translate(232,50)\"><text x=\"0\" textLength=\"12\">A</text>\
         <text x=\"100\" textLength=\"12\">B</text></g>\n<g class=\"feed\"/>\n",
    ),
    // upside down in a printing area: its left end is turned to the right one, 32 + 24 + 100
    (
        "1D 4C 18 00 1D 57 64 00 1B 7B 01 41 0A",
        "94",
        "94",
        "<g class=\"row\" transform=\"translate(156,38) rotate(180)\"><text x=\"0\" textLength=\"12\">A</text></g>\n<g class=\"feed\"/>\n",
    ),
    // upside down and wider than the printing area: 96 dots, which end at the left end of the line
    (
        "1D 57 0A 00 1B 7B 01 1D 21 70 41 0A",
        "94",
        "94",
        "<g class=\"row\" transform=\"translate(128,38) rotate(180)\"><text transform=\"matrix(8 0 0 1 0 0)\" textLength=\"12\">A</text></g>\n<g class=\"feed\"/>\n",
    ),
    // a raster in a margin, and one that is wider than what is left of the line: it ends where the line ends
    (
        "1D 4C 18 00 1D 76 30 00 01 00 01 00 FF 1D 4C FC 01 1D 76 30 00 01 00 01 00 FF",
        "66",
        "66",
        "<g class=\"raster\" transform=\"translate(56,32)\"><g transform=\"scale(1,1)\">\n<path d=\"M0 0.5h8\"/>\n</g></g>\n\
         <g class=\"raster\" transform=\"translate(536,33)\"><g transform=\"scale(1,1)\">\n<path d=\"M0 0.5h8\"/>\n</g></g>\n",
    ),
    // turned characters: 24 dots wide and 12 high, each a text of its own
    (
        "1B 56 01 41 42 0A",
        "94",
        "94",
        "<g class=\"row\" transform=\"translate(32,41)\"><text transform=\"matrix(0 1 -1 0 6 -9)\" textLength=\"12\">A</text>\
         <text transform=\"matrix(0 1 -1 0 30 -9)\" textLength=\"12\">B</text></g>\n<g class=\"feed\"/>\n",
    ),
    // twice as wide: as high as 24 dots
    (
        "1D 21 10 1B 56 02 41 1D 21 00 1B 56 00 42 0A",
        "94",
        "94",
        "<g class=\"row\" transform=\"translate(32,50)\"><text transform=\"matrix(0 2 -1 0 6 -18)\" textLength=\"12\">A</text>\
         <text x=\"24\" textLength=\"12\">B</text></g>\n<g class=\"feed\"/>\n",
    ),
    // in font B, 17 dots wide, with a space of 4 dots; no underline
    (
        "1B 4D 01 1B 20 04 1B 2D 02 1B 56 01 41 1B 56 00 1B 2D 00 42 0A",
        "94",
        "94",
        "<g class=\"row\" transform=\"translate(32,44.75)\"><text transform=\"matrix(0 1 -1 0 4.25 -6.75)\" class=\"B\" textLength=\"9\">A</text>\
         <text x=\"21\" class=\"B\" textLength=\"9\">B</text></g>\n<g class=\"feed\"/>\n",
    ),
    // white on black: the ground is as wide and as high as the turned character
    (
        "1D 42 01 1B 56 01 41 0A",
        "94",
        "94",
        "<g class=\"row\" transform=\"translate(32,41)\"><path d=\"M0 -9h24v12h-24z\"/>\
         <text transform=\"matrix(0 1 -1 0 6 -9)\" class=\"white\" textLength=\"12\">A</text></g>\n<g class=\"feed\"/>\n",
    ),
];

// Barcodes with their text below, 60 dots high; their bars are computed apart from the program, by the tables of the standards.
const CODES: [Drawn; 6] = [
    // UPC-E: six digits, each way of zeros by the last one; the number system and the check digit show which sets
    (
        "1D 77 03 1D 68 3C 1D 48 02 1D 6B 42 06 31 32 33 34 35 36",
        "148",
        "148",
        "<g class=\"bars\" transform=\"translate(32,32)\">\n<svg y=\"0\" width=\"153\" height=\"60\" viewBox=\"0 0 153 1\" preserveAspectRatio=\"none\">\n\
         <path d=\"M0 0.5h3m3 0h3m3 0h6m6 0h6m6 0h3m6 0h6m3 0h12m3 0h3m6 0h9m3 0h3m3 0h9m6 0h3m3 0h3m3 0h12m3 0h3m3 0h3m3 0h3\"/>\n</svg>\n\
         <text class=\"middle\" x=\"76.5\" y=\"78\" textLength=\"96\">01234565</text></g>\n",
    ),
    // the same with its number system, and a last digit below 3
    (
        "1D 77 02 1D 68 3C 1D 48 02 1D 6B 42 07 30 34 32 35 32 36 31",
        "148",
        "148",
        "<g class=\"bars\" transform=\"translate(32,32)\">\n<svg y=\"0\" width=\"102\" height=\"60\" viewBox=\"0 0 102 1\" preserveAspectRatio=\"none\">\n\
         <path d=\"M0 0.5h2m2 0h2m4 0h6m2 0h2m4 0h2m4 0h4m2 0h6m4 0h2m4 0h4m2 0h4m2 0h2m2 0h8m4 0h4m4 0h2m2 0h2m2 0h2m2 0h2\"/>\n</svg>\n\
         <text class=\"middle\" x=\"51\" y=\"78\" textLength=\"96\">04252614</text></g>\n",
    ),
    // from the twelve digits of UPC-A
    (
        "1D 77 02 1D 68 3C 1D 48 02 1D 6B 42 0C 30 31 32 31 30 30 30 30 33 34 35 34",
        "148",
        "148",
        "<g class=\"bars\" transform=\"translate(32,32)\">\n<svg y=\"0\" width=\"102\" height=\"60\" viewBox=\"0 0 102 1\" preserveAspectRatio=\"none\">\n\
         <path d=\"M0 0.5h2m2 0h2m2 0h4m4 0h4m4 0h2m4 0h4m2 0h2m8 0h2m4 0h6m2 0h2m2 0h4m6 0h2m4 0h4m4 0h2m2 0h2m2 0h2m2 0h2\"/>\n</svg>\n\
         <text class=\"middle\" x=\"51\" y=\"78\" textLength=\"96\">01234514</text></g>\n",
    ),
    // CODE93 of 22 symbols: the weights of both check characters begin again
    (
        "1D 77 02 1D 68 3C 1D 48 02 1D 6B 48 16 52 45 43 45 49 50 54 20 34 32 20 54 41 42 4C 45 20 37 20 4F 4B 2E",
        "148",
        "148",
        "<g class=\"bars\" transform=\"translate(32,32)\">\n<svg y=\"0\" width=\"470\" height=\"60\" viewBox=\"0 0 470 1\" preserveAspectRatio=\"none\">\n\
         <path d=\"M0 0.5h2m2 0h2m2 0h8m2 0h4m2 0h4m4 0h2m2 0h4m4 0h2m4 0h2m2 0h4m2 0h2m6 0h2m2 0h4m4 0h2m4 0h2m2 0h2m2 0h4m6 0h2m2 0h2m6 0h2m2 0h4m2 0h4m2 0h2m4 0h4m2 0h6m2 0h2m4 0h2m2 0h2m4 0h2m2 0h2m6 0h2m2 0h2m6 0h2m4 0h6m2 0h2m4 0h2m2 0h4m2 0h2m4 0h4m2 0h4m2 0h2m2 0h2m6 0h4m2 0h2m4 0h2m4 0h2m2 0h2m2 0h4m6 0h4m4 0h2m4 0h2m2 0h6m2 0h2m4 0h2m2 0h2m2 0h2m2 0h2m8 0h6m2 0h2m4 0h2m2 0h2m4 0h2m2 0h4m4 0h2m6 0h4m2 0h2m2 0h6m2 0h2m2 0h2m4 0h4m4 0h2m2 0h2m4 0h2m4 0h2m2 0h4m4 0h2m2 0h2m2 0h8m2 0h2\"/>\n</svg>\n\
         <text class=\"middle\" x=\"235\" y=\"78\" textLength=\"264\">RECEIPT 42 TABLE 7 OK.</text></g>\n",
    ),
    // bytes that CODE93 spells by two characters each
    (
        "1D 77 02 1D 68 3C 1D 48 02 1D 6B 48 08 61 5A 25 7E 01 21 3F 7B",
        "148",
        "148",
        "<g class=\"bars\" transform=\"translate(32,32)\">\n<svg y=\"0\" width=\"326\" height=\"60\" viewBox=\"0 0 326 1\" preserveAspectRatio=\"none\">\n\
         <path d=\"M0 0.5h2m2 0h2m2 0h8m2 0h2m4 0h4m4 0h2m2 0h4m2 0h2m2 0h2m6 0h2m4 0h6m2 0h2m2 0h4m2 0h2m2 0h6m2 0h6m2 0h4m2 0h2m2 0h4m2 0h2m2 0h4m4 0h2m4 0h2m4 0h4m2 0h4m2 0h2m2 0h2m6 0h6m2 0h2m2 0h4m2 0h4m2 0h2m2 0h2m6 0h6m2 0h4m2 0h2m2 0h2m4 0h4m2 0h2m4 0h6m2 0h4m2 0h2m2 0h2m6 0h2m2 0h4m2 0h6m2 0h4m2 0h2m2 0h2m2 0h4m2 0h2m6 0h2m2 0h2m2 0h8m2 0h2\"/>\n</svg>\n\
         <text class=\"middle\" x=\"163\" y=\"78\" textLength=\"96\">aZ%~ !?{</text></g>\n",
    ),
    // GS1-128: digits two by two in set C, a letter in set B, FNC1 between two fields
    (
        "1D 77 02 1D 68 3C 1D 48 02 1D 6B 4A 1F 28 30 31 29 30 39 35 30 36 30 30 30 31 33 34 33 35 2A 28 31 30 29 41 42 7B 31 28 32 31 29 37",
        "148",
        "148",
        "<g class=\"bars\" transform=\"translate(32,32)\">\n<svg y=\"0\" width=\"444\" height=\"60\" viewBox=\"0 0 444 1\" preserveAspectRatio=\"none\">\n\
         <path d=\"M0 0.5h4m2 0h2m4 0h6m4 0h8m2 0h2m2 0h6m2 0h4m4 0h4m2 0h4m4 0h4m4 0h2m4 0h2m6 0h4m6 0h2m2 0h6m2 0h6m2 0h8m2 0h2m2 0h4m2 0h4m4 0h4m4 0h2m4 0h4m2 0h6m4 0h2m2 0h4m6 0h6m2 0h4m2 0h6m6 0h2m2 0h4m4 0h2m6 0h2m4 0h2m2 0h8m2 0h6m2 0h2m2 0h2m6 0h4m6 0h2m6 0h2m2 0h4m6 0h8m2 0h2m2 0h6m2 0h4m4 0h6m4 0h2m2 0h2m4 0h6m4 0h4m2 0h6m2 0h4m2 0h6m2 0h2m2 0h2m8 0h4m4 0h4m6 0h6m2 0h2m2 0h4\"/>\n</svg>\n\
         <text class=\"middle\" x=\"222\" y=\"78\" textLength=\"360\">(01)09506000134352(10)AB (21)7</text></g>\n",
    ),
];

#[test]
fn further_barcodes_in_draw(rt: HostRuntime) {
    for row in CODES {
        is_drawn(&rt, rt.alloc(), row);
    }
}

#[test]
fn places_in_draw(rt: HostRuntime) {
    for row in PLACED {
        is_drawn(&rt, rt.alloc(), row);
    }
}

#[test]
fn rows_of_draw(rt: HostRuntime) {
    for row in &DRAWN {
        is_drawn(&rt, rt.alloc(), *row);
    }
}

const BYTES: Drawn = (
    "A\n",
    "94",
    "94",
    "<g class=\"row\" transform=\"translate(32,50)\"><text x=\"0\" textLength=\"12\">A</text></g>\n<g class=\"feed\"/>\n",
);

// With `--raw` the same document comes of the bytes; what isn't a picture is the one line that `render` prints.
#[test]
fn draws_bytes_and_refuses_input(rt: HostRuntime) {
    draws(&rt, rt.alloc(), raw_draw_task(), BYTES);
    let refused = (b"refused hex\n".as_slice(), Status::Refused);
    assert!(&rt; prints(rt.alloc(), draw_task(), b"4", refused));
}

// A buzzer after a line, and the words on it under the paper.
const BUZZES: &[u8] = b"A\n\x1BB\x02\x04";

const WORDS: &str =
    "<g class=\"row\" transform=\"translate(32,50)\"><text x=\"0\" textLength=\"12\">A</text></g>\n<g class=\"feed\"/>\n\
     <text class=\"last\" x=\"32\" y=\"120\">passed 1: the paper may differ\n</text>\n";

#[test]
fn draws_words_on_what_is_passed_over(rt: HostRuntime) {
    let text = document(&rt, rt.alloc(), "94", "134", WORDS);
    let wanted = (text.as_bytes(), Status::Good);
    assert!(&rt; prints(rt.alloc(), passing_draw_task(), BUZZES, wanted));
}
