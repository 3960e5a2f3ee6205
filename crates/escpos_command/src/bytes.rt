//! The control bytes that begin a command. (Reference: "ASCII code table".)

/// Horizontal tab.
pub const HT: u8 = 0x09;

/// Line feed.
pub const LF: u8 = 0x0A;

/// Carriage return.
pub const CR: u8 = 0x0D;

/// Data link escape, the first byte of DLE EOT.
pub const DLE: u8 = 0x10;

/// Escape, the first byte of ESC @ and the commands like it.
pub const ESC: u8 = 0x1B;

/// File separator, the first byte of FS . and the commands like it.
pub const FS: u8 = 0x1C;

/// Group separator, the first byte of GS V and the commands like it.
pub const GS: u8 = 0x1D;

/// End of transmission, the second byte of DLE EOT.
pub const EOT: u8 = 0x04;

// The definitions cite these values, so each is pinned to the Reference's.
const _: () = prove!(
    HT == 9 && LF == 10 && CR == 13 && DLE == 16 && ESC == 27 && FS == 28 && GS == 29 && EOT == 4
);
