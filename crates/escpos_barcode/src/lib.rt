//! Barcodes as their bars and spaces, and the text that stands beside them.
//!
//! `barcode` has the two calls, `runs` and `interpretation`. `tables` has the standards' patterns, `pen` draws them next to
//! one another as long as they fit on the line, and `upc`, `upce`, `spaced`, `itf`, `code93`, `code128` and `gs1` say which of them a
//! content has.
//! `text` has the interpretation.
//!
//! `specs/Elements.antt` defines the bars and spaces of a content in modules, and `specs/Drawn.antt` in dots.
//! `specs/Reader.antt` defines how a scanner reads them, and the laws in `laws` say that it reads the content.
#![tactic(auto)]

mod barcode;
mod code128;
mod code93;
mod gs1;
mod itf;
pub mod laws;
mod pen;
mod qr;
mod spaced;
mod tables;
mod text;
mod upc;
mod upce;

pub use barcode::{interpretation, runs};
pub use pen::{MOST_RUNS, Runs, wide_dots};
pub use qr::qr_modules;
pub use text::{Interpretation, MOST_SHOWN};
