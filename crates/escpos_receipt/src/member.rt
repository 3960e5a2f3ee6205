//! The members that an entry of a receipt's text in JSON may have, by name.
//!
//! A new member is a variant here with a row in `MEMBERS`, a line in `short_command_of` of `entry`, and the same two lines
//! in `specs/Entries.antt`.

/// A member that an entry may have.
#[derive(Clone, Copy, Debug, PartialEq, Eq)]
pub enum Member {
    /// `text`: characters.
    Text,
    /// `line`: characters, and the line feed that prints them.
    Line,
    /// `pair`: a text on the left and a text on the right.
    Pair,
    /// `row`: texts in fields of so many characters, side by side.
    Row,
    /// `rule`: a line full of one character.
    Rule,
    /// `wrap`: a text in lines that are broken at blanks.
    Wrap,
    /// `feed`: a feed of 0 to 255 lines.
    Feed,
    /// `units`: a feed of 0 to 255 motion units.
    Units,
    /// `spacing`: how far a line is fed, 0 to 255 motion units or `"default"`.
    Spacing,
    /// `pulse`: a pulse to the cash drawer, with its pin and how long it is on and off.
    Pulse,
    /// `mode`: the byte of ESC !, 0 to 255.
    Mode,
    /// `bold`: emphasis, true or false.
    Bold,
    /// `strike`: double strike, true or false.
    Strike,
    /// `reverse`: white on black, true or false.
    Reverse,
    /// `underline`: 0 to 2 dots.
    Underline,
    /// `font`: `"A"` or `"B"`.
    Font,
    /// `table`: the character code table, 0 to 255.
    Table,
    /// `tables`: the code tables to choose from, by their numbers.
    Tables,
    /// `charset`: the international character set, 0 to 17.
    CharacterSet,
    /// `align`: `"left"`, `"center"` or `"right"`.
    Align,
    /// `upside`: lines upside down, true or false.
    Upside,
    /// `size`: width and height of characters, each 1 to 8.
    Size,
    /// `bar_height`: the height of barcodes in dots, 1 to 255.
    BarHeight,
    /// `bar_width`: the module width of barcodes in dots, 2 to 6.
    BarWidth,
    /// `hri`: where the human readable interpretation of barcodes stands: `"none"`, `"above"`, `"below"` or `"both"`.
    Hri,
    /// `hri_font`: the font of that interpretation, `"A"` or `"B"`.
    HriFont,
    /// `bars`: a barcode, with its symbology and its content.
    Bars,
    /// `raster`: a raster, with its scale, its width in bytes, its height in rows, and its dots in hexadecimal.
    Raster,
    /// `qr`: a QR code, with its content, the size of its modules and its level of error correction.
    Qr,
    /// `cut`: `"full"` or `"partial"`.
    Cut,
    /// `feed_cut`: a cut after a feed of 0 to 255 motion units.
    FeedCut,
}

/// The members' names.
pub const MEMBERS: [(&str, Member); 31] = [
    ("text", Member::Text),
    ("line", Member::Line),
    ("pair", Member::Pair),
    ("row", Member::Row),
    ("rule", Member::Rule),
    ("wrap", Member::Wrap),
    ("feed", Member::Feed),
    ("units", Member::Units),
    ("spacing", Member::Spacing),
    ("pulse", Member::Pulse),
    ("mode", Member::Mode),
    ("bold", Member::Bold),
    ("strike", Member::Strike),
    ("reverse", Member::Reverse),
    ("underline", Member::Underline),
    ("font", Member::Font),
    ("table", Member::Table),
    ("tables", Member::Tables),
    ("charset", Member::CharacterSet),
    ("align", Member::Align),
    ("upside", Member::Upside),
    ("size", Member::Size),
    ("bar_height", Member::BarHeight),
    ("bar_width", Member::BarWidth),
    ("hri", Member::Hri),
    ("hri_font", Member::HriFont),
    ("bars", Member::Bars),
    ("raster", Member::Raster),
    ("qr", Member::Qr),
    ("cut", Member::Cut),
    ("feed_cut", Member::FeedCut),
];
