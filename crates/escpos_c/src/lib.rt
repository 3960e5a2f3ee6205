//! The cores as a C library: encode a receipt, list a stream, print it as text or as a picture, make entries of a picture; a host,
//! a printer and the machine of a till in handles.
//!
//! The functions that C calls are those of `encode`, `stateless` and `image`, which keep nothing, of `host` and `submit`, which
//! work on a host that a handle holds, of `printer`, of `till`, and of `raw`, which takes the bytes of other libraries. `options` has the numbers in which C says the width of a line and a
//! receipt's options; `call_status`, `refusal`, `host_core`, `printer_core` and `till_numbers` have those in which C is told what came of a call,
//! `no_receipt` why a text gives no receipt. `spelling` has the bytes of a receipt, `limited_text` the text of a job, and `buffer` moves
//! them into the caller's buffer. `till_lines` writes and reads the entries of a till as lines of text, and `till_texts` makes a
//! machine of many; `till_core` is that machine. `host_handle`, `printer_handle` and `till_handle` are what C owns: nothing, or a
//! box, whose pointer `slot` takes apart and puts together.
//! `bindings/kolatennis.c` calls these functions for C, and `bindings/kolatennis.h` declares what C sees. No function here reads, writes
//! or waits, or keeps a pointer that it was given.
#![tactic(auto)]

mod buffer;
mod call_status;
mod encode;
mod host;
mod host_core;
mod host_handle;
mod image;
mod limited_text;
mod no_receipt;
mod options;
mod printer;
mod printer_core;
mod printer_handle;
mod raw;
mod refusal;
mod slot;
mod spelling;
mod stateless;
mod submit;
mod till;
mod till_core;
mod till_handle;
mod till_lines;
mod till_numbers;
mod till_texts;
