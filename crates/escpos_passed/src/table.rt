//! The table of the commands that are passed over.
//!
//! A row is the bytes that a command begins with, and how the length of what follows is told. No prefix begins another, nor a command of
//! escpos_command; `laws` has that. A command that gets a meaning leaves this table.

use escpos_command::{DLE, ESC, FS, GS};

/// A number among the bytes after a prefix.
#[derive(Clone, Copy, Debug, PartialEq, Eq)]
pub enum Number {
    /// The byte at this place.
    Byte(u8),
    /// The two bytes from this place on, the low one first.
    Word(u8),
}

/// Some bytes, and data whose length these tell: `unit` times a number, times another one if there is one.
#[derive(Clone, Copy, Debug, PartialEq, Eq)]
pub struct Counted {
    /// How many bytes stand before the data.
    pub before: u8,
    pub number: Number,
    pub again: Option<Number>,
    pub unit: u8,
}

/// How the length of what follows a prefix is told.
#[derive(Clone, Copy, Debug, PartialEq, Eq)]
pub enum Form {
    /// This many bytes.
    Fixed(u8),
    /// All bytes up to and with the last of `times` bytes `end`.
    Until { end: u8, times: u8 },
    /// Some bytes, and data whose length they tell.
    Counted(Counted),
    /// `before` bytes, and data: its length is the number of the four bytes from the place `at` on, the low one first, less `less`.
    Long { before: u8, at: u8, less: u8 },
    /// A number n, and n pictures, each with its size before it. (Reference: FS q.)
    Pictures,
    /// The height y of characters in bytes, the first and the last of them, and for each its width x and x * y bytes.
    /// (Reference: ESC &.)
    Characters,
}

/// The bytes that a command begins with.
#[derive(Clone, Copy, Debug, PartialEq, Eq)]
pub enum Prefix {
    /// The command is a byte.
    One(u8),
    /// Two letters.
    Two(u8, u8),
    /// Three letters.
    Three(u8, u8, u8),
    /// Two letters, and a parameter that tells the command from others of these letters.
    With(u8, u8, u8),
}

/// Functions that are taken: they stand after the length, whose first byte follows the prefix.
#[derive(Clone, Copy, Debug, PartialEq, Eq)]
pub enum Except {
    /// The functions whose first byte is this one, after a length of two bytes.
    First(u8),
    /// Functions 112 and 50 of graphics (30 and 70, 32 or 02), after a length of two bytes.
    Graphics,
    /// Function 112 of graphics (30 and 70), after a length of four bytes.
    LongGraphics,
}

/// A row of the table.
#[derive(Clone, Copy, Debug, PartialEq, Eq)]
pub struct Row {
    pub prefix: Prefix,
    /// How the length of what follows the prefix is told.
    pub form: Form,
    /// The functions of these letters that are taken, and so not passed over.
    pub except: Option<Except>,
}

// pL and pH, and pL + 256 pH bytes.
const LOW_AND_HIGH: Counted = Counted {
    before: 2,
    number: Number::Word(0),
    again: None,
    unit: 1,
};

// A byte n, and n bytes.
const COUNT_BYTE: Counted = Counted {
    before: 1,
    number: Number::Byte(0),
    again: None,
    unit: 1,
};

/// How many rows there are.
pub const COUNT: usize = 107;

// A row for each line: its prefix, how the length of what follows is told, and the functions that are taken.
macro_rules! rows {
    ($($prefix:expr, $form:expr, $except:expr;)*) => {
        [$(Row { prefix: $prefix, form: $form, except: $except }),*]
    };
}

/// The table, in the order of the prefixes.
pub const TABLE: [Row; COUNT] = rows! {
    // FF
    Prefix::One(0x0C), Form::Fixed(0), None;
    // DLE EOT
    Prefix::With(DLE, 0x04, 0x05), Form::Fixed(0), None;
    Prefix::With(DLE, 0x04, 0x06), Form::Fixed(0), None;
    Prefix::With(DLE, 0x04, 0x07), Form::Fixed(1), None;
    Prefix::With(DLE, 0x04, 0x08), Form::Fixed(1), None;
    // DLE ENQ
    Prefix::Two(DLE, 0x05), Form::Fixed(1), None;
    // DLE DC4
    Prefix::With(DLE, 0x14, 0x01), Form::Fixed(2), None;
    Prefix::With(DLE, 0x14, 0x02), Form::Fixed(2), None;
    Prefix::With(DLE, 0x14, 0x03), Form::Fixed(5), None;
    Prefix::With(DLE, 0x14, 0x07), Form::Fixed(1), None;
    Prefix::With(DLE, 0x14, 0x08), Form::Fixed(7), None;
    // CAN
    Prefix::One(0x18), Form::Fixed(0), None;
    // ESC FF
    Prefix::Two(ESC, 0x0C), Form::Fixed(0), None;
    // ESC %
    Prefix::Two(ESC, b'%'), Form::Fixed(1), None;
    // ESC &
    Prefix::Two(ESC, b'&'), Form::Characters, None;
    // ESC ( A
    Prefix::Three(ESC, b'(', b'A'), Form::Counted(LOW_AND_HIGH), None;
    // ESC ( Y
    Prefix::Three(ESC, b'(', b'Y'), Form::Counted(LOW_AND_HIGH), None;
    // ESC *
    Prefix::With(ESC, b'*', 0x00), Form::Counted(LOW_AND_HIGH), None;
    Prefix::With(ESC, b'*', 0x01), Form::Counted(LOW_AND_HIGH), None;
    Prefix::With(ESC, b'*', 0x20), Form::Counted(Counted { before: 2, number: Number::Word(0), again: None, unit: 3 }), None;
    Prefix::With(ESC, b'*', 0x21), Form::Counted(Counted { before: 2, number: Number::Word(0), again: None, unit: 3 }), None;
    // ESC +
    Prefix::Two(ESC, b'+'), Form::Fixed(1), None;
    // ESC ?
    Prefix::Two(ESC, b'?'), Form::Fixed(1), None;
    // ESC A
    Prefix::Two(ESC, b'A'), Form::Fixed(1), None;
    // ESC B
    Prefix::Two(ESC, b'B'), Form::Fixed(2), None;
    // ESC K
    Prefix::Two(ESC, b'K'), Form::Fixed(1), None;
    // ESC L
    Prefix::Two(ESC, b'L'), Form::Fixed(0), None;
    // ESC Q
    Prefix::Two(ESC, b'Q'), Form::Fixed(1), None;
    // ESC S
    Prefix::Two(ESC, b'S'), Form::Fixed(0), None;
    // ESC T
    Prefix::Two(ESC, b'T'), Form::Fixed(1), None;
    // ESC W
    Prefix::Two(ESC, b'W'), Form::Fixed(8), None;
    // ESC c 0
    Prefix::Three(ESC, b'c', b'0'), Form::Fixed(1), None;
    // ESC c 1
    Prefix::Three(ESC, b'c', b'1'), Form::Fixed(1), None;
    // ESC e
    Prefix::Two(ESC, b'e'), Form::Fixed(1), None;
    // ESC f
    Prefix::Two(ESC, b'f'), Form::Fixed(2), None;
    // ESC l
    Prefix::Two(ESC, b'l'), Form::Fixed(1), None;
    // ESC q
    Prefix::Two(ESC, b'q'), Form::Fixed(0), None;
    // ESC u
    Prefix::Two(ESC, b'u'), Form::Fixed(1), None;
    // ESC v
    Prefix::Two(ESC, b'v'), Form::Fixed(0), None;
    // FS !
    Prefix::Two(FS, b'!'), Form::Fixed(1), None;
    // FS &
    Prefix::Two(FS, b'&'), Form::Fixed(0), None;
    // FS ( A
    Prefix::Three(FS, b'(', b'A'), Form::Counted(LOW_AND_HIGH), None;
    // FS ( C
    Prefix::Three(FS, b'(', b'C'), Form::Counted(LOW_AND_HIGH), None;
    // FS ( E
    Prefix::Three(FS, b'(', b'E'), Form::Counted(LOW_AND_HIGH), None;
    // FS ( L
    Prefix::Three(FS, b'(', b'L'), Form::Counted(LOW_AND_HIGH), None;
    // FS ( e
    Prefix::Three(FS, b'(', b'e'), Form::Counted(LOW_AND_HIGH), None;
    // FS ( f
    Prefix::Three(FS, b'(', b'f'), Form::Counted(LOW_AND_HIGH), None;
    // FS ( g
    Prefix::Three(FS, b'(', b'g'), Form::Counted(LOW_AND_HIGH), None;
    // FS -
    Prefix::Two(FS, b'-'), Form::Fixed(1), None;
    // FS 2
    Prefix::Two(FS, b'2'), Form::Fixed(74), None;
    // FS ?
    Prefix::Two(FS, b'?'), Form::Fixed(2), None;
    // FS C
    Prefix::Two(FS, b'C'), Form::Fixed(1), None;
    // FS S
    Prefix::Two(FS, b'S'), Form::Fixed(2), None;
    // FS W
    Prefix::Two(FS, b'W'), Form::Fixed(1), None;
    // FS a 0
    Prefix::Three(FS, b'a', b'0'), Form::Fixed(1), None;
    // FS a 1
    Prefix::Three(FS, b'a', b'1'), Form::Fixed(0), None;
    // FS a 2
    Prefix::Three(FS, b'a', b'2'), Form::Fixed(0), None;
    // FS b
    Prefix::Two(FS, b'b'), Form::Fixed(0), None;
    // FS g 1
    Prefix::Three(FS, b'g', b'1'), Form::Counted(Counted { before: 7, number: Number::Word(5), again: None, unit: 1 }), None;
    // FS g 2
    Prefix::Three(FS, b'g', b'2'), Form::Fixed(7), None;
    // FS p
    Prefix::Two(FS, b'p'), Form::Fixed(2), None;
    // FS q
    Prefix::Two(FS, b'q'), Form::Pictures, None;
    // GS FF
    Prefix::Two(GS, 0x0C), Form::Fixed(0), None;
    // GS $
    Prefix::Two(GS, b'$'), Form::Fixed(2), None;
    // GS ( A
    Prefix::Three(GS, b'(', b'A'), Form::Counted(LOW_AND_HIGH), None;
    // GS ( B
    Prefix::Three(GS, b'(', b'B'), Form::Counted(LOW_AND_HIGH), None;
    // GS ( C
    Prefix::Three(GS, b'(', b'C'), Form::Counted(LOW_AND_HIGH), None;
    // GS ( D
    Prefix::Three(GS, b'(', b'D'), Form::Counted(LOW_AND_HIGH), None;
    // GS ( E
    Prefix::Three(GS, b'(', b'E'), Form::Counted(LOW_AND_HIGH), None;
    // GS ( F
    Prefix::Three(GS, b'(', b'F'), Form::Counted(LOW_AND_HIGH), None;
    // GS ( G
    Prefix::Three(GS, b'(', b'G'), Form::Counted(LOW_AND_HIGH), None;
    // GS ( H
    Prefix::Three(GS, b'(', b'H'), Form::Counted(LOW_AND_HIGH), Some(Except::First(0x30));
    // GS ( K
    Prefix::Three(GS, b'(', b'K'), Form::Counted(LOW_AND_HIGH), None;
    // GS ( L
    Prefix::Three(GS, b'(', b'L'), Form::Counted(LOW_AND_HIGH), Some(Except::Graphics);
    // GS ( M
    Prefix::Three(GS, b'(', b'M'), Form::Counted(LOW_AND_HIGH), None;
    // GS ( N
    Prefix::Three(GS, b'(', b'N'), Form::Counted(LOW_AND_HIGH), None;
    // GS ( P
    Prefix::Three(GS, b'(', b'P'), Form::Counted(LOW_AND_HIGH), None;
    // GS ( Q
    Prefix::Three(GS, b'(', b'Q'), Form::Counted(LOW_AND_HIGH), None;
    // GS ( k
    Prefix::Three(GS, b'(', b'k'), Form::Counted(LOW_AND_HIGH), Some(Except::First(0x31));
    // GS *
    Prefix::Two(GS, b'*'), Form::Counted(Counted { before: 2, number: Number::Byte(0), again: Some(Number::Byte(1)), unit: 8 }), None;
    // GS /
    Prefix::Two(GS, b'/'), Form::Fixed(1), None;
    // GS 8 L
    Prefix::Three(GS, b'8', b'L'), Form::Long { before: 4, at: 0, less: 0 }, Some(Except::LongGraphics);
    // GS :
    Prefix::Two(GS, b':'), Form::Fixed(0), None;
    // GS <
    Prefix::Two(GS, b'<'), Form::Fixed(0), None;
    // GS C 0
    Prefix::Three(GS, b'C', b'0'), Form::Fixed(2), None;
    // GS C 1
    Prefix::Three(GS, b'C', b'1'), Form::Fixed(6), None;
    // GS C 2
    Prefix::Three(GS, b'C', b'2'), Form::Fixed(2), None;
    // GS C ;
    Prefix::Three(GS, b'C', b';'), Form::Until { end: b';', times: 5 }, None;
    // GS D
    Prefix::Two(GS, b'D'), Form::Long { before: 13, at: 9, less: 6 }, None;
    // GS I
    Prefix::Two(GS, b'I'), Form::Fixed(1), None;
    // GS P
    Prefix::Two(GS, b'P'), Form::Fixed(2), None;
    // GS Q 0
    Prefix::Three(GS, b'Q', b'0'), Form::Counted(Counted { before: 5, number: Number::Word(1), again: Some(Number::Word(3)), unit: 1 }), None;
    // GS T
    Prefix::Two(GS, b'T'), Form::Fixed(1), None;
    // GS \
    Prefix::Two(GS, b'\\'), Form::Fixed(2), None;
    // GS ^
    Prefix::Two(GS, b'^'), Form::Fixed(3), None;
    // GS c
    Prefix::Two(GS, b'c'), Form::Fixed(0), None;
    // GS g 0
    Prefix::Three(GS, b'g', b'0'), Form::Fixed(3), None;
    // GS g 2
    Prefix::Three(GS, b'g', b'2'), Form::Fixed(3), None;
    // GS j
    Prefix::Two(GS, b'j'), Form::Fixed(1), None;
    // GS k
    Prefix::With(GS, b'k', 0x4B), Form::Counted(COUNT_BYTE), None;
    Prefix::With(GS, b'k', 0x4C), Form::Counted(COUNT_BYTE), None;
    Prefix::With(GS, b'k', 0x4D), Form::Counted(COUNT_BYTE), None;
    Prefix::With(GS, b'k', 0x4E), Form::Counted(COUNT_BYTE), None;
    Prefix::With(GS, b'k', 0x4F), Form::Counted(COUNT_BYTE), None;
    // GS r
    Prefix::Two(GS, b'r'), Form::Fixed(1), None;
    // GS z 0
    Prefix::Three(GS, b'z', b'0'), Form::Fixed(2), None;
    // GS |
    Prefix::Two(GS, b'|'), Form::Fixed(1), None;
};
