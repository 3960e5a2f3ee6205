//! A picture as rasters of a receipt: from the bytes of a PBM, PGM or PPM picture to entries of a receipt's text in JSON.
//!
//! `image_entries` of `whole` is all of it. It reads a `GrayPicture`, scales it down to the width of the line, makes a `DotPicture` of
//! it, and writes that as entries. Everything is in memory, and nothing is read or written.
//!
//! `scan` finds numbers and the gaps before them, `header` reads what comes before the samples, `samples` reads a dot, and `picture`
//! all of them. `scaling` makes a picture smaller, `dots` makes it black and white, by a threshold or by `diffusion`, `packing` puts
//! eight dots into a byte, `blackening` keeps real-time commands out of the bytes, and `entries` writes the rasters. `fault` has what is refused. `laws` has what follows from the definitions:
//! raw pictures are read as their formats say, boxes leave no place out, bands no row.
//!
//! Of the definitions begin with `image_text` of `specs/Whole.antt`, the whole way. `picture_of` of `specs/Pictures.antt` is the reader,
//! and `specs/Format.antt` says apart from it what the raw formats allow. Then come `scaled` of `specs/Scaling.antt`, `shaded` of
//! `specs/Shading.antt` and `entries_text` of `specs/Entries.antt`. `proofs/Worked.antt` shows small pictures.
#![tactic(auto)]

mod blackening;
mod diffusion;
mod dots;
mod entries;
mod fault;
mod header;
pub mod laws;
mod packing;
mod picture;
mod samples;
mod scaling;
mod scan;
mod whole;

pub use dots::DotPicture;
pub use fault::{ImageError, ImageFault};
pub use picture::GrayPicture;
pub use whole::image_entries;
