//! How large QR codes are. (ISO/IEC 18004, model 2.)
//!
//! `specs/QrSizes.antt` has the same tables, and the contracts here say so.

ghost use Rattle.std.specs.Prelude.{◌≡◌, ◌+◌, ◌*◌, ◌==◌, ◌≤◌, IfSome, length, if◌then◌else◌};
ghost use Rattle.std.specs.List.{list_all};
ghost use Rattle.escpos_command.specs.QrCodes.{most_qr_data};
ghost use Rattle.escpos_barcode.specs.QrSizes.{is_alphanumeric, packing_of, data_bits, count_bits, needed_bits, data_bytes, qr_modules};

use crate::upc::all_digits;
use escpos_command::Correction;

// The bytes for data in the versions 1 to 40 at level L. (Table 7.)
static DATA_BYTES_L: [u16; 40] = [
    19, 34, 55, 80, 108, 136, 156, 194, 232, 274, 324, 370, 428, 461, 523, 589, 647, 721, 795, 861,
    932, 1006, 1094, 1174, 1276, 1370, 1468, 1531, 1631, 1735, 1843, 1955, 2071, 2191, 2306, 2434,
    2566, 2702, 2812, 2956,
];

// The same at level M.
static DATA_BYTES_M: [u16; 40] = [
    16, 28, 44, 64, 86, 108, 124, 154, 182, 216, 254, 290, 334, 365, 415, 453, 507, 563, 627, 669,
    714, 782, 860, 914, 1000, 1062, 1128, 1193, 1267, 1373, 1455, 1541, 1631, 1725, 1812, 1914,
    1992, 2102, 2216, 2334,
];

// The same at level Q.
static DATA_BYTES_Q: [u16; 40] = [
    13, 22, 34, 48, 62, 76, 88, 110, 132, 154, 180, 206, 244, 261, 295, 325, 367, 397, 445, 485,
    512, 568, 614, 664, 718, 754, 808, 871, 911, 985, 1033, 1115, 1171, 1231, 1286, 1354, 1426,
    1502, 1582, 1666,
];

// The same at level H.
static DATA_BYTES_H: [u16; 40] = [
    9, 16, 26, 36, 46, 60, 66, 86, 100, 122, 140, 158, 180, 197, 223, 253, 283, 313, 341, 385, 406,
    442, 464, 514, 538, 596, 628, 661, 701, 745, 793, 845, 901, 961, 986, 1054, 1096, 1142, 1222,
    1276,
];

/// How the characters of a content are packed into bits. (7.4.)
#[derive(Clone, Copy, Debug, PartialEq, Eq)]
pub enum Packing {
    /// Three digits in ten bits.
    Digits,
    /// Two of 45 characters in eleven bits.
    Alphanumeric,
    /// Bytes as they are.
    Bytes,
}

/// The modules along each side of the smallest QR code that holds a content with this level of error correction, 21 to 177; `None`
/// where none holds it.
pub fn qr_modules(level: Correction, content: &[u8]) -> Option<usize>
    requires few { length content.now ≤ most_qr_data }
    ensures side { result ≡ qr_modules level content.now }
    ensures small { IfSome result (λ side. side ≤ 177) }
{
    let packing = packing_of(content);
    for (place, bytes) in data_bytes(level).iter().enumerate() {
        let version = place + 1;
        if needed_bits(packing, content.len(), version) <= 8 * usize::from(*bytes) {
            return Some(17 + 4 * version);
        }
    }
    None
}

// The bytes for data in the versions 1 to 40.
#[tactic(auto, unfolding(crate::specs::QrSizes::data_bytes))]
fn data_bytes(level: Correction) -> &'static [u16]
    ensures bytes { result.now ≡ data_bytes level }
    ensures versions { length result.now ≡ 40 }
{
    match level {
        Correction::L => &DATA_BYTES_L,
        Correction::M => &DATA_BYTES_M,
        Correction::Q => &DATA_BYTES_Q,
        Correction::H => &DATA_BYTES_H,
    }
}

// The packing that takes the fewest bits.
fn packing_of(content: &[u8]) -> Packing
    ensures { result ≡ packing_of content.now }
{
    if all_digits(content) {
        Packing::Digits
    } else if all_alphanumeric(content) {
        Packing::Alphanumeric
    } else {
        Packing::Bytes
    }
}

// Whether all of these bytes are characters of the alphanumeric packing.
fn all_alphanumeric(content: &[u8]) -> bool
    ensures { result ≡ list_all is_alphanumeric content.now }
{
    content.iter().all(|byte| is_alphanumeric(*byte))
}

fn is_alphanumeric(byte: u8) -> bool
    ensures { result ≡ is_alphanumeric byte }
{
    matches!(
        byte,
        b'0'..=b'9' | b'A'..=b'Z' | b' ' | b'$' | b'%' | b'*' | b'+' | b'-' | b'.' | b'/' | b':'
    )
}

// All bits of so many characters in a version.
fn needed_bits(packing: Packing, count: usize, version: usize) -> usize
    requires { count ≤ most_qr_data }
    ensures { result ≡ needed_bits packing count version }
{
    4 + count_bits(packing, version) + data_bits(packing, count)
}

// The bits that the number of characters takes.
fn count_bits(packing: Packing, version: usize) -> usize
    ensures bits { result ≡ count_bits packing version }
    ensures small { result ≤ 16 }
{
    let is_small = version < 10;
    let is_middle = version < 27;
    match packing {
        Packing::Digits if is_small => 10,
        Packing::Digits if is_middle => 12,
        Packing::Digits => 14,
        Packing::Alphanumeric if is_small => 9,
        Packing::Alphanumeric if is_middle => 11,
        Packing::Alphanumeric => 13,
        Packing::Bytes if is_small => 8,
        Packing::Bytes => 16,
    }
}

// The bits that the characters take.
fn data_bits(packing: Packing, count: usize) -> usize
    requires { count ≤ most_qr_data }
    ensures bits { result ≡ data_bits packing count }
    ensures small { result ≤ 56712 }
{
    match packing {
        Packing::Digits => 10 * (count / 3) + rest_bits(count % 3),
        Packing::Alphanumeric => 11 * (count / 2) + 6 * (count % 2),
        Packing::Bytes => 8 * count,
    }
}

// The bits of no digit, of one or of two.
fn rest_bits(count: usize) -> usize
    requires { count ≤ 2 }
    ensures bits { result ≡ (if count == 0 then 0 else 3 * count + 1) }
    ensures small { result ≤ 7 }
{
    if count == 0 { 0 } else { 3 * count + 1 }
}
