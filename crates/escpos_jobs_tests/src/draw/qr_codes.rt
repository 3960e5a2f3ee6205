//! QR codes in `draw`: the box of each, and what stands in it. `qr_sizes` has how large it is.

use super::{Drawn, is_drawn};

const DRAWN: [Drawn; 9] = [
    // version 1 has 21 modules of 3 dots
    (
        "1D286B0400315030411D286B0300315130",
        "127",
        "127",
        "<g class=\"qr\" transform=\"translate(32,32)\">\n\
         <svg width=\"63\" height=\"63\"><rect class=\"box\" width=\"63\" height=\"63\"/></svg>\n\
         <svg width=\"63\" height=\"63\" viewBox=\"0 0 512 512\"><text class=\"middle\" x=\"256\" y=\"262\" textLength=\"12\" lengthAdjust=\"spacingAndGlyphs\">A</text></svg>\n\
         </g>\n",
    ),
    // in the middle and on the right; 17 digits are the most of version 1 at level H, and 18 make 25 modules
    (
        "1D286B03003143101D286B03003145331D286B140031503030303030303030303030303030303030301B61011D286B03003151301D286B15003150303030303030303030303030303030303030301B61021D286B0300315130",
        "800",
        "800",
        "<g class=\"qr\" transform=\"translate(120,32)\">\n\
         <svg width=\"336\" height=\"336\"><rect class=\"box\" width=\"336\" height=\"336\"/></svg>\n\
         <svg width=\"336\" height=\"336\" viewBox=\"0 0 512 512\"><text class=\"middle\" x=\"256\" y=\"262\" textLength=\"204\" lengthAdjust=\"spacingAndGlyphs\">00000000000000000</text></svg>\n\
         </g>\n\
         <g class=\"qr\" transform=\"translate(144,368)\">\n\
         <svg width=\"400\" height=\"400\"><rect class=\"box\" width=\"400\" height=\"400\"/></svg>\n\
         <svg width=\"400\" height=\"400\" viewBox=\"0 0 512 512\"><text class=\"middle\" x=\"256\" y=\"262\" textLength=\"216\" lengthAdjust=\"spacingAndGlyphs\">000000000000000000</text></svg>\n\
         </g>\n",
    ),
    // text before it, and below it
    (
        "411D286B0400315030411D286B0300315130420A",
        "187",
        "187",
        "<g class=\"row\" transform=\"translate(32,50)\"><text x=\"0\" textLength=\"12\">A</text></g>\n\
         <g class=\"feed\"/>\n\
         <g class=\"qr\" transform=\"translate(32,62)\">\n\
         <svg width=\"63\" height=\"63\"><rect class=\"box\" width=\"63\" height=\"63\"/></svg>\n\
         <svg width=\"63\" height=\"63\" viewBox=\"0 0 512 512\"><text class=\"middle\" x=\"256\" y=\"262\" textLength=\"12\" lengthAdjust=\"spacingAndGlyphs\">A</text></svg>\n\
         </g>\n\
         <g class=\"row\" transform=\"translate(32,143)\"><text x=\"0\" textLength=\"12\">B</text></g>\n\
         <g class=\"feed\"/>\n",
    ),
    // version 3 has 29 modules, which fit with 16 dots each; the 33 of version 4 don't
    (
        "1D286B03003143101D286B03003145331D286B1B003150306161616161616161616161616161616161616161616161611D286B03003151301D286B1C00315030616161616161616161616161616161616161616161616161611D286B0300315130",
        "576",
        "576",
        "<g class=\"qr\" transform=\"translate(32,32)\">\n\
         <svg width=\"464\" height=\"464\"><rect class=\"box\" width=\"464\" height=\"464\"/></svg>\n\
         <svg width=\"464\" height=\"464\" viewBox=\"0 0 512 512\"><text class=\"middle\" x=\"256\" y=\"262\" textLength=\"288\" lengthAdjust=\"spacingAndGlyphs\">aaaaaaaaaaaaaaaaaaaaaaaa</text></svg>\n\
         </g>\n\
         <g class=\"qr\" transform=\"translate(32,496)\">\n\
         <svg y=\"0\" width=\"512\" height=\"48\"><rect class=\"box\" width=\"512\" height=\"48\"/></svg>\n\
         <svg y=\"0\" width=\"512\" height=\"48\" viewBox=\"0 0 512 48\"><text class=\"middle\" x=\"256\" y=\"18\">not scannable</text><text class=\"middle\" x=\"256\" y=\"42\" textLength=\"300\" lengthAdjust=\"spacingAndGlyphs\">aaaaaaaaaaaaaaaaaaaaaaaaa</text></svg>\n\
         </g>\n",
    ),
    // what means something in a document, a byte that is no character, and two of table 0, whatever table is set
    (
        "1B74101D286B0A003150303C26222700C3A91D286B0300315130",
        "127",
        "127",
        "<g class=\"qr\" transform=\"translate(32,32)\">\n\
         <svg width=\"63\" height=\"63\"><rect class=\"box\" width=\"63\" height=\"63\"/></svg>\n\
         <svg width=\"63\" height=\"63\" viewBox=\"0 0 512 512\"><text class=\"middle\" x=\"256\" y=\"262\" textLength=\"84\" lengthAdjust=\"spacingAndGlyphs\">&lt;&amp;&quot;&apos;\u{FFFD}├⌐</text></svg>\n\
         </g>\n",
    ),
    // a content wider than the line is pressed together: 41 characters aren't, and 42 are
    (
        "1D286B03003145301D286B2C0031503031313131313131313131313131313131313131313131313131313131313131313131313131313131311D286B03003151301D286B2D003150303131313131313131313131313131313131313131313131313131313131313131313131313131313131311D286B0300315130",
        "202",
        "202",
        "<g class=\"qr\" transform=\"translate(32,32)\">\n\
         <svg width=\"63\" height=\"63\"><rect class=\"box\" width=\"63\" height=\"63\"/></svg>\n\
         <svg width=\"63\" height=\"63\" viewBox=\"0 0 512 512\"><text class=\"middle\" x=\"256\" y=\"262\" textLength=\"492\" lengthAdjust=\"spacingAndGlyphs\">11111111111111111111111111111111111111111</text></svg>\n\
         </g>\n\
         <g class=\"qr\" transform=\"translate(32,95)\">\n\
         <svg width=\"75\" height=\"75\"><rect class=\"box\" width=\"75\" height=\"75\"/></svg>\n\
         <svg width=\"75\" height=\"75\" viewBox=\"0 0 512 512\"><text class=\"middle\" x=\"256\" y=\"262\" textLength=\"496\" lengthAdjust=\"spacingAndGlyphs\">111111111111111111111111111111111111111111</text></svg>\n\
         </g>\n",
    ),
    // model 1 is drawn as model 2
    (
        "1D286B0400314131001D286B0400315030411D286B0300315130",
        "127",
        "127",
        "<g class=\"qr\" transform=\"translate(32,32)\">\n\
         <svg width=\"63\" height=\"63\"><rect class=\"box\" width=\"63\" height=\"63\"/></svg>\n\
         <svg width=\"63\" height=\"63\" viewBox=\"0 0 512 512\"><text class=\"middle\" x=\"256\" y=\"262\" textLength=\"12\" lengthAdjust=\"spacingAndGlyphs\">A</text></svg>\n\
         </g>\n",
    ),
    // a feed right below it takes 30 dots: it is no row
    (
        "1D286B0400315030411D286B03003151300A420A",
        "187",
        "187",
        "<g class=\"qr\" transform=\"translate(32,32)\">\n\
         <svg width=\"63\" height=\"63\"><rect class=\"box\" width=\"63\" height=\"63\"/></svg>\n\
         <svg width=\"63\" height=\"63\" viewBox=\"0 0 512 512\"><text class=\"middle\" x=\"256\" y=\"262\" textLength=\"12\" lengthAdjust=\"spacingAndGlyphs\">A</text></svg>\n\
         </g>\n\
         <g class=\"feed\"/>\n\
         <g class=\"row\" transform=\"translate(32,143)\"><text x=\"0\" textLength=\"12\">B</text></g>\n\
         <g class=\"feed\"/>\n",
    ),
    // a cut under it, and nothing where nothing is stored
    (
        "1D286B03003151301D286B0400315030411D286B03003151301B401D286B03003151301D5600",
        "151",
        "151",
        "<g class=\"qr\" transform=\"translate(32,32)\">\n\
         <svg width=\"63\" height=\"63\"><rect class=\"box\" width=\"63\" height=\"63\"/></svg>\n\
         <svg width=\"63\" height=\"63\" viewBox=\"0 0 512 512\"><text class=\"middle\" x=\"256\" y=\"262\" textLength=\"12\" lengthAdjust=\"spacingAndGlyphs\">A</text></svg>\n\
         </g>\n\
         <g class=\"cut\" transform=\"translate(0,95)\"><circle cx=\"8\" cy=\"6\" r=\"4\"/><circle cx=\"8\" cy=\"18\" r=\"4\"/><path d=\"M11 9L28 18M11 15L28 6\"/><path class=\"dashes\" d=\"M32 12H576\"/></g>\n",
    ),
];

#[test]
fn rows_of_qr_codes(rt: HostRuntime) {
    for row in &DRAWN {
        is_drawn(&rt, rt.alloc(), *row);
    }
}
