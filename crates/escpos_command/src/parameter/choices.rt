//! What the bytes of parameters mean, as types that don't depend on the parameters.

ghost use Rattle.std.specs.Prelude.{◌≡◌, ◌<◌};
ghost use Rattle.escpos_command.specs.Meanings.{has_bit, choice, face_of, alignment_of, hri_position_of, scale_of, scale_by, correction_of, face_of_mode, magnified, underline_of_mode, size_width, size_height};

/// A font of the printer.
#[derive(Clone, Copy, Debug, PartialEq, Eq)]
pub enum FontFace {
    /// 12 dots wide.
    A,
    /// 9 dots wide.
    B,
}

/// Where a line stands on the paper.
#[derive(Clone, Copy, Debug, PartialEq, Eq)]
pub enum Alignment {
    Left,
    Center,
    Right,
}

/// Where the human readable interpretation of a barcode stands.
#[derive(Clone, Copy, Debug, PartialEq, Eq)]
pub enum HriPosition {
    /// It isn't printed.
    Nowhere,
    Above,
    Below,
    /// Above and below.
    Both,
}

/// How each dot of a raster is printed.
#[derive(Clone, Copy, Debug, PartialEq, Eq)]
pub enum Scale {
    /// As one dot.
    Normal,
    /// Twice as wide.
    Wide,
    /// Twice as high.
    Tall,
    /// Twice as wide and twice as high.
    Both,
}

/// How much of a QR code may be unreadable.
#[derive(Clone, Copy, Debug, PartialEq, Eq)]
pub enum Correction {
    /// About 7%.
    L,
    /// About 15%.
    M,
    /// About 25%.
    Q,
    /// About 30%.
    H,
}

/// Whether the bit at `place` is set, counted from 0 for the lowest.
pub fn has_bit(byte: u8, place: u32) -> bool
    requires { place < 8 }
    ensures { result ≡ has_bit byte place }
{
    (byte >> place) % 2 == 1
}

/// Which choice a byte makes: 0 for the bytes 0 and 48, 1 for 1 and 49, and so on.
pub fn choice(byte: u8) -> u8
    ensures { result ≡ choice byte }
{
    byte % 48
}

/// The font that ESC ! sets: bit 0 clear A, set B.
pub fn face_of_mode(mode: u8) -> FontFace
    ensures { result ≡ face_of_mode mode }
{
    if has_bit(mode, 0) {
        FontFace::B
    } else {
        FontFace::A
    }
}

/// The underline in dots that ESC ! sets: 1 where bit 7 is set, otherwise 0.
pub fn underline_of_mode(mode: u8) -> u8
    ensures { result ≡ underline_of_mode mode }
{
    if has_bit(mode, 7) { 1 } else { 0 }
}

/// The factor of a bit that doubles: 2 where it is set, otherwise 1.
pub fn magnified(is_set: bool) -> u8
    ensures { result ≡ magnified is_set }
{
    if is_set { 2 } else { 1 }
}

/// The width factor that GS ! sets, 1 to 8: bits 4 to 6 are the width less one.
pub fn size_width(size: u8) -> u8
    ensures { result ≡ size_width size }
{
    size / 16 % 8 + 1
}

/// The height factor that GS ! sets, 1 to 8: bits 0 to 2 are the height less one.
pub fn size_height(size: u8) -> u8
    ensures { result ≡ size_height size }
{
    size % 8 + 1
}

/// The font of a choice: 0 is A.
pub fn face_of(choice: u8) -> FontFace
    ensures { result ≡ face_of choice }
{
    if choice == 0 {
        FontFace::A
    } else {
        FontFace::B
    }
}

/// The alignment of a choice: 0 is left, 1 center.
pub fn alignment_of(choice: u8) -> Alignment
    ensures { result ≡ alignment_of choice }
{
    match choice {
        0 => Alignment::Left,
        1 => Alignment::Center,
        _ => Alignment::Right,
    }
}

/// The place of a choice: 0 is nowhere, 1 above, 2 below.
pub fn hri_position_of(choice: u8) -> HriPosition
    ensures { result ≡ hri_position_of choice }
{
    match choice {
        0 => HriPosition::Nowhere,
        1 => HriPosition::Above,
        2 => HriPosition::Below,
        _ => HriPosition::Both,
    }
}

pub fn scale_of(choice: u8) -> Scale
    ensures { result ≡ scale_of choice }
{
    match choice {
        0 => Scale::Normal,
        1 => Scale::Wide,
        2 => Scale::Tall,
        _ => Scale::Both,
    }
}

/// The scale of the factors of graphics, across and down: 1, or 2 for twice as many dots.
pub fn scale_by(across: u8, down: u8) -> Scale
    ensures { result ≡ scale_by across down }
{
    match (across, down) {
        (1, 1) => Scale::Normal,
        (_, 1) => Scale::Wide,
        (1, _) => Scale::Tall,
        _ => Scale::Both,
    }
}

pub fn correction_of(choice: u8) -> Correction
    ensures { result ≡ correction_of choice }
{
    match choice {
        0 => Correction::L,
        1 => Correction::M,
        2 => Correction::Q,
        _ => Correction::H,
    }
}
