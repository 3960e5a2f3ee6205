//! Why no picture is read.

use std::alloc::AllocError;

/// Why bytes aren't a picture: the first reason that applies, from the first byte on. A place is that of a byte, counted from 0.
#[derive(Clone, Copy, Debug, PartialEq, Eq)]
pub enum ImageFault {
    /// 1: the bytes don't begin with P1 to P6.
    NotPicture,
    /// 2: at this place of the header stands no blank or no number where one must be.
    BadHeader { at: usize },
    /// 3: the width or height at this place is 0 or above 65,535.
    BadSize { at: usize },
    /// 4: the greatest sample value at this place is 0 or above 65,535.
    BadMaximum { at: usize },
    /// 5: the sample at this place isn't a number, or is above the greatest value.
    BadSample { at: usize },
    /// 6: the bytes end, after this many, before the last sample.
    CutShort { at: usize },
}

impl ImageFault {
    ghost use Rattle.std.specs.Prelude.{◌≡◌, ◌≤◌, length};
    ghost use Rattle.escpos_image.specs.Faults.{fault_number, fault_name, fault_place};

    /// The number that programs print.
    pub fn number(self) -> u8
        ensures { result ≡ fault_number self }
    {
        match self {
            ImageFault::NotPicture => 1,
            ImageFault::BadHeader { .. } => 2,
            ImageFault::BadSize { .. } => 3,
            ImageFault::BadMaximum { .. } => 4,
            ImageFault::BadSample { .. } => 5,
            ImageFault::CutShort { .. } => 6,
        }
    }

    /// The name that programs print.
    pub fn name(self) -> &'static str
        ensures value { result.now ≡ fault_name self }
        ensures short { length result.now ≤ 10 }
    {
        match self {
            ImageFault::NotPicture => "NotPicture",
            ImageFault::BadHeader { .. } => "BadHeader",
            ImageFault::BadSize { .. } => "BadSize",
            ImageFault::BadMaximum { .. } => "BadMaximum",
            ImageFault::BadSample { .. } => "BadSample",
            ImageFault::CutShort { .. } => "CutShort",
        }
    }

    /// The place of the byte where the fault lies, counted from 0; `None` for `NotPicture`.
    pub fn place(self) -> Option<usize>
        ensures { result ≡ fault_place self }
    {
        match self {
            ImageFault::NotPicture => None,
            ImageFault::BadHeader { at }
            | ImageFault::BadSize { at }
            | ImageFault::BadMaximum { at }
            | ImageFault::BadSample { at }
            | ImageFault::CutShort { at } => Some(at),
        }
    }
}

/// Why no picture was read.
#[derive(Clone, Copy, Debug, PartialEq, Eq)]
pub enum ImageError {
    /// The bytes aren't a picture.
    Refused(ImageFault),
    /// Out of memory. It may come in place of any other result.
    Memory,
}

impl From<AllocError> for ImageError {
    ghost use Rattle.std.specs.Prelude.{◌≡◌};
    ghost use Rattle.escpos_image.specs.declared.fault.ImageError.TheVariants.{Memory};

    ghost from_gives = { λ _ error. error ≡ Memory };

    fn from(_error: AllocError) -> Self {
        ImageError::Memory
    }
}

impl From<ImageFault> for ImageError {
    ghost use Rattle.std.specs.Prelude.{◌≡◌};
    ghost use Rattle.escpos_image.specs.declared.fault.ImageError.TheVariants.{Refused};

    ghost from_gives = { λ fault error. error ≡ Refused fault };

    fn from(fault: ImageFault) -> Self {
        ImageError::Refused(fault)
    }
}
