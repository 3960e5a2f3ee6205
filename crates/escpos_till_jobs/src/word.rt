//! The words of a till: what each does with a machine, and with the store that its ledger is in.

ghost use Rattle.std.specs.Prelude.{◌≢◌, IsTrue};
ghost use Rattle.escpos_till_jobs.specs.Outputs.{output_of};
ghost use Rattle.escpos_till_jobs.specs.Words.{DoesWith, WordDoes};

use crate::again::queue_again;
use crate::cancel::cancel_receipt;
use crate::deliver::{Delivery, deliver_waiting};
use crate::listing::list;
use crate::opening::{open_machine, refuse_store};
use crate::queue::queue_receipt;
use escpos_io::ByteOut;
use escpos_job_parts::status::Status;
use escpos_till::{
    PrinterLine, ReceiptContent, ReceiptKey, ReceiptNumber, Store, Surroundings, TillMachine,
};
use std::alloc::Global;

/// What is done with a ledger.
#[derive(Drop)]
pub enum Word<'a> {
    /// A receipt is taken, which may come with a key, as by `queue_receipt`.
    Queue {
        content: ReceiptContent,
        key: Option<ReceiptKey>,
    },
    /// The receipt with this number is taken once more, as by `queue_again`.
    Again(ReceiptNumber),
    /// The receipts that wait are delivered, as by `deliver_waiting`.
    Deliver(Delivery<'a>),
    /// The receipt with this number is cancelled, as by `cancel_receipt`.
    Cancel(ReceiptNumber),
    /// It is listed where the receipts stand, as by `list`; first the next mark number is raised to this one, if one is given.
    List(Option<u32>),
}

/// Does a word with the machine of a ledger and what surrounds it, and returns how it went.
pub fn do_word<S: Store, L: PrinterLine, W: ByteOut>(
    alloc: Global,
    machine: &mut TillMachine,
    around: &mut Surroundings<S, L>,
    word: Word<'_>,
    output: &mut W,
) -> Status
    ensures does { WordDoes S.faithful S.holds S.leaves S.says L.did word.entry machine.old around.old (output_of (W.written output.old) (W.failed output.old))
        machine.new around.new (output_of (W.written output.new) (W.failed output.new)) result }
    ensures not_hidden { result ≢ Status.Device → ¬ IsTrue (W.failed output.old) → ¬ IsTrue (W.failed output.new) }
    ensures never_usage { result ≢ Status.Usage }
{
    match word {
        Word::Queue { content, key } => queue_receipt(machine, around, content, key, output),
        Word::Again(number) => queue_again(alloc, machine, around, number, output),
        Word::Deliver(delivery) => deliver_waiting(machine, around, &delivery, output),
        Word::Cancel(number) => cancel_receipt(machine, around, number, output),
        Word::List(first) => list(machine, around, first, output),
    }
}

/// Opens the ledger of a store, and does a word with it, over a line. Where there is no ledger, the one line printed says why, as by `refuse_store`,
/// and nothing is done over the line.
pub fn do_with<S: Store, L: PrinterLine, W: ByteOut>(
    alloc: Global,
    around: &mut Surroundings<S, L>,
    word: Word<'_>,
    output: &mut W,
) -> Status
    ensures does { DoesWith S.faithful S.holds S.leaves S.says L.did word.entry around.old (output_of (W.written output.old) (W.failed output.old))
        around.new (output_of (W.written output.new) (W.failed output.new)) result }
    ensures not_hidden { result ≢ Status.Device → ¬ IsTrue (W.failed output.old) → ¬ IsTrue (W.failed output.new) }
    ensures never_usage { result ≢ Status.Usage }
{
    match open_machine(alloc, &mut around.store) {
        Ok(machine) => {
            let mut machine = machine;
            do_word(alloc, &mut machine, around, word, output)
        }
        Err(why) => refuse_store(why, output),
    }
}
