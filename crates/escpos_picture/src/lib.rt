//! The paper as a picture: an SVG document in which the items of a paper are drawn one under another. A dot of the printer is one
//! unit of the document. Places down the paper are counted in quarters of a dot.
//!
//! The height of the paper stands at the head of the document. So a caller goes over the items twice: once with a `Pen`, which
//! adds up what they take, and then, after `append_head`, with `put_items`, which draws them. `append_last_tag` begins a line under
//! the paper. The bytes go through a `Gather`, and nothing is allocated.
//!
//! `document` has what comes before the items and after them, `item` draws an item as a group of the document, and `pen` has its
//! place and its size. `row` draws rows, `raster` rasters, `cut` cuts, `qr` QR codes, and `bars` barcodes, with their lines of
//! text from `label`. `span` appends dots of one colour in a line, of bars and of very long rows of rasters. Other rows wait in a
//! `span_buffer`, where `short_row` puts them together of the texts that `byte_spans` has of each byte's dots and `moves` of white
//! bytes and ways back. `characters` turns printed bytes into text, and `numbers` appends
//! numbers of dots. `laws` has what follows from the definitions: nothing overlaps, text is escaped, and spans cover exactly the black
//! dots.
//!
//! Of the definitions begin with `picture_text` of `specs/Document.antt`, the whole document. Then come `drawing_at` of
//! `specs/Groups.antt`, what is drawn of each kind of item, and `depth` of `specs/Places.antt`, how much paper it takes.
//! `proofs/Worked.antt` shows small papers with their documents.
#![tactic(auto)]

mod bars;
mod byte_spans;
mod characters;
mod cut;
mod document;
mod item;
mod label;
pub mod laws;
mod moves;
mod numbers;
mod pen;
mod qr;
mod raster;
mod row;
mod short_row;
mod span;
mod span_buffer;

pub use document::{HEAD_BYTES, LAST_TAG_BYTES, append_head, append_last_tag};
pub use item::{put_item, put_items};
pub use pen::Pen;
