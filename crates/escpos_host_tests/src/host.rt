//! The host's side: receipts as values, the host by its calls, and `send_link` over memory.

mod late;
mod receipts;
mod rounds;
mod rows;
mod sending;
mod sizes;
