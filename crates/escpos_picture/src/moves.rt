//! The texts of moves over white bytes of a row and back to its left edge, looked up: rasters are long.

ghost use Rattle.std.specs.Prelude.{◌≡◌, ◌*◌, ◌+◌, ◌≤◌, length, take};
ghost use Rattle.escpos_picture.specs.ByteSpans.{white_text, back_text, texts_from, lengths_from};

/// The most bytes of a row over which a move is looked up. No command prints a longer one.
pub const SHORT_ROW_BYTES: usize = 128;

const _: () = prove!(SHORT_ROW_BYTES == 128);

/// The most bytes that the text of such a move takes.
pub const MOVE_BYTES: usize = 8;

const _: () = prove!(MOVE_BYTES == 8);

// The moves over 0 to 128 white bytes, and how many bytes each takes.
const WHITE_TEXTS: &[u8; 129 * MOVE_BYTES] =
    b"        m8 0    m16 0   m24 0   m32 0   m40 0   m48 0   m56 0   \
m64 0   m72 0   m80 0   m88 0   m96 0   m104 0  m112 0  m120 0  \
m128 0  m136 0  m144 0  m152 0  m160 0  m168 0  m176 0  m184 0  \
m192 0  m200 0  m208 0  m216 0  m224 0  m232 0  m240 0  m248 0  \
m256 0  m264 0  m272 0  m280 0  m288 0  m296 0  m304 0  m312 0  \
m320 0  m328 0  m336 0  m344 0  m352 0  m360 0  m368 0  m376 0  \
m384 0  m392 0  m400 0  m408 0  m416 0  m424 0  m432 0  m440 0  \
m448 0  m456 0  m464 0  m472 0  m480 0  m488 0  m496 0  m504 0  \
m512 0  m520 0  m528 0  m536 0  m544 0  m552 0  m560 0  m568 0  \
m576 0  m584 0  m592 0  m600 0  m608 0  m616 0  m624 0  m632 0  \
m640 0  m648 0  m656 0  m664 0  m672 0  m680 0  m688 0  m696 0  \
m704 0  m712 0  m720 0  m728 0  m736 0  m744 0  m752 0  m760 0  \
m768 0  m776 0  m784 0  m792 0  m800 0  m808 0  m816 0  m824 0  \
m832 0  m840 0  m848 0  m856 0  m864 0  m872 0  m880 0  m888 0  \
m896 0  m904 0  m912 0  m920 0  m928 0  m936 0  m944 0  m952 0  \
m960 0  m968 0  m976 0  m984 0  m992 0  m1000 0 m1008 0 m1016 0 \
m1024 0 ";

const WHITE_LENGTHS: &[u8; 129] = &[
    0, 4, 5, 5, 5, 5, 5, 5, 5, 5, 5, 5, 5, 6, 6, 6, 6, 6, 6, 6, 6, 6, 6, 6, 6, 6, 6, 6, 6, 6, 6, 6,
    6, 6, 6, 6, 6, 6, 6, 6, 6, 6, 6, 6, 6, 6, 6, 6, 6, 6, 6, 6, 6, 6, 6, 6, 6, 6, 6, 6, 6, 6, 6, 6,
    6, 6, 6, 6, 6, 6, 6, 6, 6, 6, 6, 6, 6, 6, 6, 6, 6, 6, 6, 6, 6, 6, 6, 6, 6, 6, 6, 6, 6, 6, 6, 6,
    6, 6, 6, 6, 6, 6, 6, 6, 6, 6, 6, 6, 6, 6, 6, 6, 6, 6, 6, 6, 6, 6, 6, 6, 6, 6, 6, 6, 6, 7, 7, 7,
    7,
];

// The moves back over 0 to 128 bytes and down to the next row, and how many bytes each takes.
const BACK_TEXTS: &[u8; 129 * MOVE_BYTES] = b"\
m-0 1   m-8 1   m-16 1  m-24 1  m-32 1  m-40 1  m-48 1  m-56 1  \
m-64 1  m-72 1  m-80 1  m-88 1  m-96 1  m-104 1 m-112 1 m-120 1 \
m-128 1 m-136 1 m-144 1 m-152 1 m-160 1 m-168 1 m-176 1 m-184 1 \
m-192 1 m-200 1 m-208 1 m-216 1 m-224 1 m-232 1 m-240 1 m-248 1 \
m-256 1 m-264 1 m-272 1 m-280 1 m-288 1 m-296 1 m-304 1 m-312 1 \
m-320 1 m-328 1 m-336 1 m-344 1 m-352 1 m-360 1 m-368 1 m-376 1 \
m-384 1 m-392 1 m-400 1 m-408 1 m-416 1 m-424 1 m-432 1 m-440 1 \
m-448 1 m-456 1 m-464 1 m-472 1 m-480 1 m-488 1 m-496 1 m-504 1 \
m-512 1 m-520 1 m-528 1 m-536 1 m-544 1 m-552 1 m-560 1 m-568 1 \
m-576 1 m-584 1 m-592 1 m-600 1 m-608 1 m-616 1 m-624 1 m-632 1 \
m-640 1 m-648 1 m-656 1 m-664 1 m-672 1 m-680 1 m-688 1 m-696 1 \
m-704 1 m-712 1 m-720 1 m-728 1 m-736 1 m-744 1 m-752 1 m-760 1 \
m-768 1 m-776 1 m-784 1 m-792 1 m-800 1 m-808 1 m-816 1 m-824 1 \
m-832 1 m-840 1 m-848 1 m-856 1 m-864 1 m-872 1 m-880 1 m-888 1 \
m-896 1 m-904 1 m-912 1 m-920 1 m-928 1 m-936 1 m-944 1 m-952 1 \
m-960 1 m-968 1 m-976 1 m-984 1 m-992 1 m-1000 1m-1008 1m-1016 1\
m-1024 1";

const BACK_LENGTHS: &[u8; 129] = &[
    5, 5, 6, 6, 6, 6, 6, 6, 6, 6, 6, 6, 6, 7, 7, 7, 7, 7, 7, 7, 7, 7, 7, 7, 7, 7, 7, 7, 7, 7, 7, 7,
    7, 7, 7, 7, 7, 7, 7, 7, 7, 7, 7, 7, 7, 7, 7, 7, 7, 7, 7, 7, 7, 7, 7, 7, 7, 7, 7, 7, 7, 7, 7, 7,
    7, 7, 7, 7, 7, 7, 7, 7, 7, 7, 7, 7, 7, 7, 7, 7, 7, 7, 7, 7, 7, 7, 7, 7, 7, 7, 7, 7, 7, 7, 7, 7,
    7, 7, 7, 7, 7, 7, 7, 7, 7, 7, 7, 7, 7, 7, 7, 7, 7, 7, 7, 7, 7, 7, 7, 7, 7, 7, 7, 7, 7, 8, 8, 8,
    8,
];

/// Places whose first hold the move over so many white bytes: so many as `white_length` says.
#[inline(always)]
pub fn white_places(count: usize) -> &'static [u8]
    requires { count ≤ SHORT_ROW_BYTES }
    ensures text { take (length (white_text count)) result.now ≡ white_text count }
    ensures len { length result.now ≡ MOVE_BYTES }
{
    let start = MOVE_BYTES * count;
    &white_texts()[start..start + MOVE_BYTES]
}

/// How many bytes the move over so many white bytes takes.
#[inline(always)]
pub fn white_length(count: usize) -> usize
    requires { count ≤ SHORT_ROW_BYTES }
    ensures value { result ≡ length (white_text count) }
    ensures short { result ≤ MOVE_BYTES }
{
    usize::from(white_lengths()[count])
}

/// Places whose first hold the move back over so many bytes: so many as `back_length` says.
#[inline(always)]
pub fn back_places(count: usize) -> &'static [u8]
    requires { count ≤ SHORT_ROW_BYTES }
    ensures text { take (length (back_text count)) result.now ≡ back_text count }
    ensures len { length result.now ≡ MOVE_BYTES }
{
    let start = MOVE_BYTES * count;
    &back_texts()[start..start + MOVE_BYTES]
}

/// How many bytes the move back over so many bytes takes.
#[inline(always)]
pub fn back_length(count: usize) -> usize
    requires { count ≤ SHORT_ROW_BYTES }
    ensures value { result ≡ length (back_text count) }
    ensures short { result ≤ MOVE_BYTES }
{
    usize::from(back_lengths()[count])
}

// The tables, one by one.
#[inline]
fn white_texts() -> &'static [u8]
    ensures text { result.now ≡ texts_from 8 white_text 0 129 }
    ensures len { length result.now ≡ 129 * MOVE_BYTES }
{
    WHITE_TEXTS
}

#[inline]
fn white_lengths() -> &'static [u8]
    ensures lengths { result.now ≡ lengths_from white_text 0 129 }
    ensures len { length result.now ≡ 129 }
{
    WHITE_LENGTHS
}

#[inline]
fn back_texts() -> &'static [u8]
    ensures text { result.now ≡ texts_from 8 back_text 0 129 }
    ensures len { length result.now ≡ 129 * MOVE_BYTES }
{
    BACK_TEXTS
}

#[inline]
fn back_lengths() -> &'static [u8]
    ensures lengths { result.now ≡ lengths_from back_text 0 129 }
    ensures len { length result.now ≡ 129 }
{
    BACK_LENGTHS
}
