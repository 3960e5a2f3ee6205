//! A till with one printer: its ledger, and the machine that says what is to be done for it.
//!
//! `entry`, `key`, `state` and `waiting` have what a ledger says, `keyed` which receipt has a key, `laws` the laws of keys, `book` what a
//! machine knows of it, `renewing` what a new ledger has of it, and `store` where its entries are kept. `machine` is the till itself, over
//! values alone, `talking` what it does with a printer on a link, `further` how it goes on with the next receipt over the same link, and
//! `learning` what it does with entries that others have added; `driver` does what it asks for, over the store and the line of `surroundings`.
#![tactic(auto)]

mod book;
mod copy;
mod driver;
mod entry;
mod following;
mod further;
mod key;
mod keyed;
pub mod laws;
mod learning;
mod machine;
mod memory_store;
mod note;
mod number;
mod pause;
mod receipt_content;
mod renewing;
mod stage;
mod state;
mod store;
mod surroundings;
mod talking;
mod tries;
mod waiting;

pub use copy::{COPY_CHARACTERS, CopyLine, CopyText};
pub use driver::{drive, drive_within};
pub use entry::{Content, Entry, Text};
pub use further::Further;
pub use key::{KEY_CHARACTERS, ReceiptKey};
pub use keyed::Keys;
pub use learning::others_since;
pub use machine::TillMachine;
pub use memory_store::{Failure, MemoryStore, copies};
pub use note::{NoMachine, TillNote, TillRefusal};
pub use number::ReceiptNumber;
pub use pause::{Pause, Paused};
pub use receipt_content::ReceiptContent;
pub use renewing::{KEYS_KEPT, NotRenewed, renewed};
pub use stage::{Action, Due, Stage, Talk, Then};
pub use state::ReceiptState;
pub use store::{Appended, NoStore, Store, StoreFault};
pub use surroundings::{PrinterLine, Surroundings};
pub use tries::Try;
