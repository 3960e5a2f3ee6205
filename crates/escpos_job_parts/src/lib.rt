//! What jobs share: how input is read, and what is printed of it.
//!
//! `status` is the exit status of the program, and `ending` the line that a job prints in place of everything else. `form` has the two
//! forms of a stream; `input`, `hexadecimal` and `receipt_input` read the input, and `refusal` has the line that refuses a receipt.
//! `lines` has the lines of a listing, `places` their first numbers, `notes` the note on a wrong check digit, and `real_time` that on a real-time command in the data
//! of another. `condition` has what a printer's sensors say, as a text. The jobs themselves are left to the crates above.
#![tactic(auto)]

pub mod condition;
pub mod ending;
pub mod form;
pub mod hexadecimal;
pub mod input;
pub mod lines;
mod notes;
pub mod places;
pub mod real_time;
pub mod receipt_input;
pub mod refusal;
pub mod status;
