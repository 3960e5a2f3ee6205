//! The names that values have in a receipt's text in JSON.

use escpos_command::Symbology;

/// The fonts, by the byte of ESC M and GS f.
pub const FONTS: [(&str, u8); 2] = [("A", 0), ("B", 1)];

/// The alignments, by the byte of ESC a.
pub const ALIGNMENTS: [(&str, u8); 3] = [("left", 0), ("center", 1), ("right", 2)];

/// Where a barcode's human readable interpretation may stand, by the byte of GS H.
pub const HRI_POSITIONS: [(&str, u8); 4] = [("none", 0), ("above", 1), ("below", 2), ("both", 3)];

/// How a raster's dots may be printed, by the byte m of GS v 0.
pub const SCALES: [(&str, u8); 4] = [("normal", 0), ("wide", 1), ("tall", 2), ("both", 3)];

/// The levels of error correction of QR codes, by the byte that function 69 of GS ( k sets them with.
pub const LEVELS: [(&str, u8); 4] = [("L", 48), ("M", 49), ("Q", 50), ("H", 51)];

/// The cuts, by the byte m of GS V.
pub const CUTS: [(&str, u8); 2] = [("full", 0), ("partial", 1)];

/// The symbologies.
pub const SYMBOLOGIES: [(&str, Symbology); 10] = [
    ("upca", Symbology::UpcA),
    ("upce", Symbology::UpcE),
    ("ean13", Symbology::Ean13),
    ("ean8", Symbology::Ean8),
    ("code39", Symbology::Code39),
    ("itf", Symbology::Itf),
    ("codabar", Symbology::Codabar),
    ("code93", Symbology::Code93),
    ("code128", Symbology::Code128),
    ("gs1_128", Symbology::Gs1Code128),
];
