//! The text of each byte's dots, looked up: rasters are long.

ghost use Rattle.std.specs.Prelude.{◌≡◌, ◌*◌, ◌≤◌, length, take};
ghost use Rattle.escpos_picture.specs.Spans.{byte_spans_text};
ghost use Rattle.escpos_picture.specs.ByteSpans.{texts_from, lengths_from};

/// The most bytes that the text of a byte takes.
pub const BYTE_SPANS_BYTES: usize = 24;

const _: () = prove!(BYTE_SPANS_BYTES == 24);

// How many bytes each text has.
const LENGTHS: &[u8; 256] = &[
    4, 6, 10, 6, 10, 12, 10, 6, 10, 12, 16, 12, 10, 12, 10, 6, 10, 12, 16, 12, 16, 18, 16, 12, 10,
    12, 16, 12, 10, 12, 10, 6, 10, 12, 16, 12, 16, 18, 16, 12, 16, 18, 22, 18, 16, 18, 16, 12, 10,
    12, 16, 12, 16, 18, 16, 12, 10, 12, 16, 12, 10, 12, 10, 6, 10, 12, 16, 12, 16, 18, 16, 12, 16,
    18, 22, 18, 16, 18, 16, 12, 16, 18, 22, 18, 22, 24, 22, 18, 16, 18, 22, 18, 16, 18, 16, 12, 10,
    12, 16, 12, 16, 18, 16, 12, 16, 18, 22, 18, 16, 18, 16, 12, 10, 12, 16, 12, 16, 18, 16, 12, 10,
    12, 16, 12, 10, 12, 10, 6, 6, 8, 12, 8, 12, 14, 12, 8, 12, 14, 18, 14, 12, 14, 12, 8, 12, 14,
    18, 14, 18, 20, 18, 14, 12, 14, 18, 14, 12, 14, 12, 8, 12, 14, 18, 14, 18, 20, 18, 14, 18, 20,
    24, 20, 18, 20, 18, 14, 12, 14, 18, 14, 18, 20, 18, 14, 12, 14, 18, 14, 12, 14, 12, 8, 6, 8,
    12, 8, 12, 14, 12, 8, 12, 14, 18, 14, 12, 14, 12, 8, 12, 14, 18, 14, 18, 20, 18, 14, 12, 14,
    18, 14, 12, 14, 12, 8, 6, 8, 12, 8, 12, 14, 12, 8, 12, 14, 18, 14, 12, 14, 12, 8, 6, 8, 12, 8,
    12, 14, 12, 8, 6, 8, 12, 8, 6, 8, 6, 2,
];

// The texts of the bytes 00 to FF, each filled up with blanks.
const TEXTS: &[u8; 256 * BYTE_SPANS_BYTES] = b"\
m8 0                    \
m7 0h1                  \
m6 0h1m1 0              \
m6 0h2                  \
m5 0h1m2 0              \
m5 0h1m1 0h1            \
m5 0h2m1 0              \
m5 0h3                  \
m4 0h1m3 0              \
m4 0h1m2 0h1            \
m4 0h1m1 0h1m1 0        \
m4 0h1m1 0h2            \
m4 0h2m2 0              \
m4 0h2m1 0h1            \
m4 0h3m1 0              \
m4 0h4                  \
m3 0h1m4 0              \
m3 0h1m3 0h1            \
m3 0h1m2 0h1m1 0        \
m3 0h1m2 0h2            \
m3 0h1m1 0h1m2 0        \
m3 0h1m1 0h1m1 0h1      \
m3 0h1m1 0h2m1 0        \
m3 0h1m1 0h3            \
m3 0h2m3 0              \
m3 0h2m2 0h1            \
m3 0h2m1 0h1m1 0        \
m3 0h2m1 0h2            \
m3 0h3m2 0              \
m3 0h3m1 0h1            \
m3 0h4m1 0              \
m3 0h5                  \
m2 0h1m5 0              \
m2 0h1m4 0h1            \
m2 0h1m3 0h1m1 0        \
m2 0h1m3 0h2            \
m2 0h1m2 0h1m2 0        \
m2 0h1m2 0h1m1 0h1      \
m2 0h1m2 0h2m1 0        \
m2 0h1m2 0h3            \
m2 0h1m1 0h1m3 0        \
m2 0h1m1 0h1m2 0h1      \
m2 0h1m1 0h1m1 0h1m1 0  \
m2 0h1m1 0h1m1 0h2      \
m2 0h1m1 0h2m2 0        \
m2 0h1m1 0h2m1 0h1      \
m2 0h1m1 0h3m1 0        \
m2 0h1m1 0h4            \
m2 0h2m4 0              \
m2 0h2m3 0h1            \
m2 0h2m2 0h1m1 0        \
m2 0h2m2 0h2            \
m2 0h2m1 0h1m2 0        \
m2 0h2m1 0h1m1 0h1      \
m2 0h2m1 0h2m1 0        \
m2 0h2m1 0h3            \
m2 0h3m3 0              \
m2 0h3m2 0h1            \
m2 0h3m1 0h1m1 0        \
m2 0h3m1 0h2            \
m2 0h4m2 0              \
m2 0h4m1 0h1            \
m2 0h5m1 0              \
m2 0h6                  \
m1 0h1m6 0              \
m1 0h1m5 0h1            \
m1 0h1m4 0h1m1 0        \
m1 0h1m4 0h2            \
m1 0h1m3 0h1m2 0        \
m1 0h1m3 0h1m1 0h1      \
m1 0h1m3 0h2m1 0        \
m1 0h1m3 0h3            \
m1 0h1m2 0h1m3 0        \
m1 0h1m2 0h1m2 0h1      \
m1 0h1m2 0h1m1 0h1m1 0  \
m1 0h1m2 0h1m1 0h2      \
m1 0h1m2 0h2m2 0        \
m1 0h1m2 0h2m1 0h1      \
m1 0h1m2 0h3m1 0        \
m1 0h1m2 0h4            \
m1 0h1m1 0h1m4 0        \
m1 0h1m1 0h1m3 0h1      \
m1 0h1m1 0h1m2 0h1m1 0  \
m1 0h1m1 0h1m2 0h2      \
m1 0h1m1 0h1m1 0h1m2 0  \
m1 0h1m1 0h1m1 0h1m1 0h1\
m1 0h1m1 0h1m1 0h2m1 0  \
m1 0h1m1 0h1m1 0h3      \
m1 0h1m1 0h2m3 0        \
m1 0h1m1 0h2m2 0h1      \
m1 0h1m1 0h2m1 0h1m1 0  \
m1 0h1m1 0h2m1 0h2      \
m1 0h1m1 0h3m2 0        \
m1 0h1m1 0h3m1 0h1      \
m1 0h1m1 0h4m1 0        \
m1 0h1m1 0h5            \
m1 0h2m5 0              \
m1 0h2m4 0h1            \
m1 0h2m3 0h1m1 0        \
m1 0h2m3 0h2            \
m1 0h2m2 0h1m2 0        \
m1 0h2m2 0h1m1 0h1      \
m1 0h2m2 0h2m1 0        \
m1 0h2m2 0h3            \
m1 0h2m1 0h1m3 0        \
m1 0h2m1 0h1m2 0h1      \
m1 0h2m1 0h1m1 0h1m1 0  \
m1 0h2m1 0h1m1 0h2      \
m1 0h2m1 0h2m2 0        \
m1 0h2m1 0h2m1 0h1      \
m1 0h2m1 0h3m1 0        \
m1 0h2m1 0h4            \
m1 0h3m4 0              \
m1 0h3m3 0h1            \
m1 0h3m2 0h1m1 0        \
m1 0h3m2 0h2            \
m1 0h3m1 0h1m2 0        \
m1 0h3m1 0h1m1 0h1      \
m1 0h3m1 0h2m1 0        \
m1 0h3m1 0h3            \
m1 0h4m3 0              \
m1 0h4m2 0h1            \
m1 0h4m1 0h1m1 0        \
m1 0h4m1 0h2            \
m1 0h5m2 0              \
m1 0h5m1 0h1            \
m1 0h6m1 0              \
m1 0h7                  \
h1m7 0                  \
h1m6 0h1                \
h1m5 0h1m1 0            \
h1m5 0h2                \
h1m4 0h1m2 0            \
h1m4 0h1m1 0h1          \
h1m4 0h2m1 0            \
h1m4 0h3                \
h1m3 0h1m3 0            \
h1m3 0h1m2 0h1          \
h1m3 0h1m1 0h1m1 0      \
h1m3 0h1m1 0h2          \
h1m3 0h2m2 0            \
h1m3 0h2m1 0h1          \
h1m3 0h3m1 0            \
h1m3 0h4                \
h1m2 0h1m4 0            \
h1m2 0h1m3 0h1          \
h1m2 0h1m2 0h1m1 0      \
h1m2 0h1m2 0h2          \
h1m2 0h1m1 0h1m2 0      \
h1m2 0h1m1 0h1m1 0h1    \
h1m2 0h1m1 0h2m1 0      \
h1m2 0h1m1 0h3          \
h1m2 0h2m3 0            \
h1m2 0h2m2 0h1          \
h1m2 0h2m1 0h1m1 0      \
h1m2 0h2m1 0h2          \
h1m2 0h3m2 0            \
h1m2 0h3m1 0h1          \
h1m2 0h4m1 0            \
h1m2 0h5                \
h1m1 0h1m5 0            \
h1m1 0h1m4 0h1          \
h1m1 0h1m3 0h1m1 0      \
h1m1 0h1m3 0h2          \
h1m1 0h1m2 0h1m2 0      \
h1m1 0h1m2 0h1m1 0h1    \
h1m1 0h1m2 0h2m1 0      \
h1m1 0h1m2 0h3          \
h1m1 0h1m1 0h1m3 0      \
h1m1 0h1m1 0h1m2 0h1    \
h1m1 0h1m1 0h1m1 0h1m1 0\
h1m1 0h1m1 0h1m1 0h2    \
h1m1 0h1m1 0h2m2 0      \
h1m1 0h1m1 0h2m1 0h1    \
h1m1 0h1m1 0h3m1 0      \
h1m1 0h1m1 0h4          \
h1m1 0h2m4 0            \
h1m1 0h2m3 0h1          \
h1m1 0h2m2 0h1m1 0      \
h1m1 0h2m2 0h2          \
h1m1 0h2m1 0h1m2 0      \
h1m1 0h2m1 0h1m1 0h1    \
h1m1 0h2m1 0h2m1 0      \
h1m1 0h2m1 0h3          \
h1m1 0h3m3 0            \
h1m1 0h3m2 0h1          \
h1m1 0h3m1 0h1m1 0      \
h1m1 0h3m1 0h2          \
h1m1 0h4m2 0            \
h1m1 0h4m1 0h1          \
h1m1 0h5m1 0            \
h1m1 0h6                \
h2m6 0                  \
h2m5 0h1                \
h2m4 0h1m1 0            \
h2m4 0h2                \
h2m3 0h1m2 0            \
h2m3 0h1m1 0h1          \
h2m3 0h2m1 0            \
h2m3 0h3                \
h2m2 0h1m3 0            \
h2m2 0h1m2 0h1          \
h2m2 0h1m1 0h1m1 0      \
h2m2 0h1m1 0h2          \
h2m2 0h2m2 0            \
h2m2 0h2m1 0h1          \
h2m2 0h3m1 0            \
h2m2 0h4                \
h2m1 0h1m4 0            \
h2m1 0h1m3 0h1          \
h2m1 0h1m2 0h1m1 0      \
h2m1 0h1m2 0h2          \
h2m1 0h1m1 0h1m2 0      \
h2m1 0h1m1 0h1m1 0h1    \
h2m1 0h1m1 0h2m1 0      \
h2m1 0h1m1 0h3          \
h2m1 0h2m3 0            \
h2m1 0h2m2 0h1          \
h2m1 0h2m1 0h1m1 0      \
h2m1 0h2m1 0h2          \
h2m1 0h3m2 0            \
h2m1 0h3m1 0h1          \
h2m1 0h4m1 0            \
h2m1 0h5                \
h3m5 0                  \
h3m4 0h1                \
h3m3 0h1m1 0            \
h3m3 0h2                \
h3m2 0h1m2 0            \
h3m2 0h1m1 0h1          \
h3m2 0h2m1 0            \
h3m2 0h3                \
h3m1 0h1m3 0            \
h3m1 0h1m2 0h1          \
h3m1 0h1m1 0h1m1 0      \
h3m1 0h1m1 0h2          \
h3m1 0h2m2 0            \
h3m1 0h2m1 0h1          \
h3m1 0h3m1 0            \
h3m1 0h4                \
h4m4 0                  \
h4m3 0h1                \
h4m2 0h1m1 0            \
h4m2 0h2                \
h4m1 0h1m2 0            \
h4m1 0h1m1 0h1          \
h4m1 0h2m1 0            \
h4m1 0h3                \
h5m3 0                  \
h5m2 0h1                \
h5m1 0h1m1 0            \
h5m1 0h2                \
h6m2 0                  \
h6m1 0h1                \
h7m1 0                  \
h8                      \
";

/// Places whose first hold the spans of a byte's dots, as the data of a path: so many as `length_of` says.
#[inline]
pub fn byte_places(byte: u8) -> &'static [u8]
    ensures text { take (length (byte_spans_text byte)) result.now ≡ byte_spans_text byte }
    ensures len { length result.now ≡ BYTE_SPANS_BYTES }
{
    let start = BYTE_SPANS_BYTES * usize::from(byte);
    &texts()[start..start + BYTE_SPANS_BYTES]
}

/// How many bytes the text of a byte has.
#[inline]
pub fn length_of(byte: u8) -> usize
    ensures value { result ≡ length (byte_spans_text byte) }
    ensures short { result ≤ BYTE_SPANS_BYTES }
{
    usize::from(lengths()[usize::from(byte)])
}

// The texts of all bytes.
#[inline]
fn texts() -> &'static [u8]
    ensures text { result.now ≡ texts_from 24 byte_spans_text 0 256 }
    ensures len { length result.now ≡ 256 * BYTE_SPANS_BYTES }
{
    TEXTS
}

// How many bytes each of them has.
#[inline]
fn lengths() -> &'static [u8]
    ensures lengths { result.now ≡ lengths_from byte_spans_text 0 256 }
    ensures len { length result.now ≡ 256 }
{
    LENGTHS
}
