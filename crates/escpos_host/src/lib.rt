//! The host's side of a receipt line: the host, which says when a receipt is printed, a call that sends one, and the reader
//! of a printer's answers.
//!
//! `host` has the host: everything that it does with a link. `counted` has the ids of marks that are counted on, `outbox` keeps
//! what a host must still put out, and `answer_reader` reads answers. `send` sends one receipt over a link. `laws` has what
//! follows from the definitions, which are those of `specs/Machine.antt` (the protocol, with its theory), `specs/Heard.antt`
//! (what answers mean), `specs/Says.antt` (what a host puts on a link) and `specs/Sends.antt` (what sending one receipt does).
//! Receipts are those of escpos_receipt, exported here under the same names.
#![tactic(auto)]

mod answer_reader;
mod counted;
mod host;
pub mod laws;
mod outbox;
mod send;

pub use answer_reader::{AnswerReader, NoAnswer};
pub use counted::{MARK_COUNT, id_of_count};
pub use escpos_receipt::{JsonError, JsonFault, Receipt, ReceiptFault};
pub use host::{Heard, Host, HostError, HostEvent, HostState, MOST_IN_FLIGHT};
pub use send::{SendFault, Sent, open_link, open_link_reporting, send_link};
