//! Proof only: what follows from the definitions. The contract of each function is the law; when run, they do nothing. A law is proved
//! with this crate, and another crate cites it by calling the function.

ghost use Rattle.std.specs.Prelude.{◌≡◌, ◌⊎◌, ◌≤◌, ◌<◌, ◌+◌, ◌*◌, ◌-◌, ◌/◌, ◌%◌, ◌++◌, ℕ, Bool, List, true, false, Some, Ok, All, length, map, nat_lt, replicate, flat_map, slice_index, slice_index_or};
ghost use Rattle.std.specs.List.{range_with_len};
ghost use Rattle.escpos_command.specs.Rasters.{picture, widest, highest};
ghost use Rattle.escpos_command.specs.CommandTable.{row};
ghost use Rattle.escpos_command.specs.declared.command.Command.TheVariants.{Raster};
ghost use Rattle.escpos_real_time.specs.RealTime.{HoldsRealTime};
ghost use Rattle.escpos_image.specs.Blackening.{safe_dots};
ghost use Rattle.escpos_image.specs.Grays.{Grays, IsGrays, grays_of};
ghost use Rattle.escpos_image.specs.DotRows.{DotRows, IsDotRows};
ghost use Rattle.escpos_image.specs.Format.{IsPlain, IsPlainBitmap, IsRaw, IsRawBitmap, Colour, IsColour, three_samples, two_bytes, colour_gray, dot_gray};
ghost use Rattle.escpos_image.specs.Pictures.{picture_of};
ghost use Rattle.escpos_image.specs.Samples.{bit_of, gray};
ghost use Rattle.escpos_image.specs.Scaling.{edge, scaled};
ghost use Rattle.escpos_image.specs.Shading.{shaded, diffused};
ghost use Rattle.escpos_image.specs.Packing.{bit, packed_byte, row_bytes, packed_rows};
ghost use Rattle.escpos_image.specs.Entries.{band_count, band_dots, band_rows};

use crate::samples::WHITE;
use escpos_command::HIGHEST;

/// Raw pictures are read as their formats say, whatever blanks and comments their headers have and whatever follows them: P5 with a
/// byte or two bytes a sample, and P6 with a byte a sample.
pub fn raw_pictures_are_read()
    ensures gray { (bytes : List ℕ) (width height maximum : ℕ) (samples : List ℕ) → IsRaw bytes 0x35 width height maximum samples
        → maximum < 256 → length samples ≡ width * height → All (λ sample. sample ≤ maximum) samples
        → picture_of bytes ≡ Ok (grays_of width height (map (gray maximum) samples)) }
    ensures wide_gray { (bytes : List ℕ) (width height maximum : ℕ) (samples : List ℕ) → IsRaw bytes 0x35 width height maximum (flat_map two_bytes samples)
        → 256 ≤ maximum → length samples ≡ width * height → All (λ sample. sample ≤ maximum) samples
        → picture_of bytes ≡ Ok (grays_of width height (map (gray maximum) samples)) }
    ensures colour { (bytes : List ℕ) (width height maximum : ℕ) (colours : List Colour) → IsRaw bytes 0x36 width height maximum (flat_map three_samples colours)
        → maximum < 256 → length colours ≡ width * height → All (IsColour maximum) colours
        → picture_of bytes ≡ Ok (grays_of width height (map (colour_gray maximum) colours)) }
{}

/// A raw bitmap, P4, is read as its dots: its rows are the same bytes as those of the rasters that print it.
pub fn raw_bitmaps_are_read()
    ensures { (bytes : List ℕ) (p : DotRows) → IsDotRows p → IsRawBitmap bytes p.width p.height (packed_rows p 0 p.height)
        → picture_of bytes ≡ Ok (grays_of p.width p.height (map dot_gray p.dots)) }
{}

/// Plain pictures are read as their formats say, with whatever blanks and comments between their numbers: P2 and P3, and P1, whose
/// digits may stand side by side.
pub fn plain_pictures_are_read()
    ensures bitmap { (bytes : List ℕ) (width height : ℕ) (dots : List Bool) → IsPlainBitmap bytes width height dots
        → length dots ≡ width * height → picture_of bytes ≡ Ok (grays_of width height (map dot_gray dots)) }
    ensures gray { (bytes : List ℕ) (width height maximum : ℕ) (samples : List ℕ) → IsPlain bytes 0x32 width height maximum samples
        → length samples ≡ width * height → All (λ sample. sample ≤ maximum) samples
        → picture_of bytes ≡ Ok (grays_of width height (map (gray maximum) samples)) }
    ensures colour { (bytes : List ℕ) (width height maximum : ℕ) (colours : List Colour) → IsPlain bytes 0x33 width height maximum (flat_map three_samples colours)
        → length colours ≡ width * height → All (IsColour maximum) colours
        → picture_of bytes ≡ Ok (grays_of width height (map (colour_gray maximum) colours)) }
{}

/// With a threshold a dot is black exactly where its gray value is below it.
pub fn by_threshold()
    ensures { (threshold : ℕ) (p : Grays) (k : ℕ) → k < length p.grays
        → slice_index_or (shaded (Some threshold) p).dots k false ≡ nat_lt (slice_index p.grays k) threshold }
{}

/// The boxes of a picture that is scaled down lie side by side, from the first place to the last, and none is empty.
pub fn boxes_lie_side_by_side()
    ensures first { (places boxes : ℕ) → 1 ≤ boxes → edge places boxes 0 ≡ 0 }
    ensures last { (places boxes : ℕ) → 1 ≤ boxes → edge places boxes boxes ≡ places }
    ensures apart { (places boxes k : ℕ) → 1 ≤ boxes → boxes ≤ places → edge places boxes k < edge places boxes (k + 1) }
{}

/// Scaling makes no dot darker than the darkest or lighter than the lightest one: so a picture of one gray value keeps it.
pub fn scaling_keeps_the_range()
    ensures { (p : Grays) (least most width : ℕ) → IsGrays p → 1 ≤ width
        → All (λ gray. least ≤ gray) p.grays → All (λ gray. gray ≤ most) p.grays
        → All (λ gray. (least ≤ gray) × (gray ≤ most)) (scaled p width).grays }
{}

/// By error diffusion a white picture has no black dot, and a black one no white dot.
pub fn white_and_black_stay()
    ensures white { (width height : ℕ) → diffused (grays_of width height (replicate (width * height) WHITE)) ≡ replicate (width * height) false }
    ensures black { (width height : ℕ) → diffused (grays_of width height (replicate (width * height) 0)) ≡ replicate (width * height) true }
{}

/// Each dot of a row is its bit, the leftmost of a byte in its highest bit.
pub fn dots_are_bits()
    ensures { (row : List Bool) (i : ℕ) → bit_of (packed_byte row (i / 8)) i ≡ bit row i }
{}

/// The bands of a picture have all its rows, in order and each once; none is empty or has more rows than a raster may have.
pub fn bands_have_all_rows()
    ensures all { (p : DotRows) → flat_map (λ b. packed_rows p (b * HIGHEST) (band_rows p.height b)) (range_with_len 0 (band_count p.height))
        ≡ packed_rows p 0 p.height }
    ensures some { (height b : ℕ) → b < band_count height → 1 ≤ band_rows height b }
    ensures most { (height b : ℕ) → band_rows height b ≤ highest }
{}

/// The size of a raster: its dots are as many bytes as its rows have, and a line of at most 1,024 dots isn't too wide.
pub fn rasters_have_their_size()
    ensures whole { (p : DotRows) (first rows : ℕ) → length (packed_rows p first rows) ≡ row_bytes p.width * rows }
    ensures some { (width : ℕ) → 1 ≤ width → 1 ≤ row_bytes width }
    ensures most { (width : ℕ) → width ≤ 1024 → row_bytes width ≤ widest }
{}

/// No real-time command: the raster of a band holds none in its bytes. Its dots are those of the picture, as many, but that some
/// bytes of at most 8 have the dot of value 16 too.
pub fn rasters_hold_no_real_time()
    ensures none { (p : DotRows) (b : ℕ) → p.width ≤ 1024
        → HoldsRealTime (row (Raster (picture 0 (row_bytes p.width) (band_rows p.height b) (band_dots p b)))) → ⊥ }
    ensures same_count { (rows : ℕ) (dots : List ℕ) → length (safe_dots rows dots) ≡ length dots }
    ensures blackened { (rows : ℕ) (dots : List ℕ) (k : ℕ) → (slice_index_or (safe_dots rows dots) k 0 ≡ slice_index_or dots k 0)
        ⊎ ((slice_index_or dots k 0 ≤ 8) × (slice_index_or (safe_dots rows dots) k 0 ≡ slice_index_or dots k 0 + 16)) }
{}
