//! What the words `queue`, `deliver`, `cancel` and `ledger` do with a till's ledger, over any store, line, source and sink.
//!
//! Each makes calls of a till's machine, has the driver of escpos_till do what it asks for, and prints what came of that.
//! `opening` makes the machine of a store's ledger, or says why there is none. `queue` takes a receipt, `raw` reads one from a stream of
//! bytes, `again` takes one once more, `deliver` sends those that wait, `cancel` takes one back that waits, `listing` lists where each
//! stands, and `renew` has a new ledger go on from one. `following` does what a machine asks for since a call, `outcome` has the lines,
//! `link_line` the line to a printer, `watched` says whether that would be waited for, and `lines` makes it. `shared_store` lets go of a
//! ledger meanwhile. `word` does one of these words with a store, `perform` with the ledger at a path, and `task` has what may be asked
//! for. A ledger's file is left to the program.
#![tactic(auto)]

mod again;
mod cancel;
mod deliver;
mod following;
pub mod laws;
mod lines;
mod link_line;
mod listing;
mod opening;
mod outcome;
mod perform;
mod queue;
mod raw;
mod renew;
mod shared_store;
mod task;
mod watched;
mod word;

pub use again::{NotAgain, queue_again};
pub use cancel::cancel_receipt;
pub use deliver::{Delivery, deliver_waiting};
pub use lines::{Lines, NetworkLine, NetworkLines};
pub use link_line::{AtAddress, Dial, Link, LinkLine, NoLine, Waits};
pub use listing::list;
pub use opening::{open_machine, refuse_store};
pub use outcome::Outcome;
pub use perform::{Ledgers, do_at, perform_till};
pub use queue::{queue_receipt, read_content};
pub use raw::{NoStream, read_raw, refuse_raw};
pub use renew::{NewLedgers, NoRenewal, renew_ledger};
pub use shared_store::SharedStore;
pub use task::{LedgerPath, TillTask};
pub use word::{Word, do_with, do_word};
