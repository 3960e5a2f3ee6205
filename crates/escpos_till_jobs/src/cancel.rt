//! `cancel`: a receipt of a ledger that waits is taken back.

ghost use Rattle.std.specs.Prelude.{◌≡◌, ◌≢◌, IsTrue};
ghost use Rattle.escpos_job_parts.specs.Ending.{job_end};
ghost use Rattle.escpos_till.specs.Driver.{Cancel};
ghost use Rattle.escpos_till.specs.Machine.{RefusesCancel};
ghost use Rattle.escpos_till.specs.Surroundings.{Did};
ghost use Rattle.escpos_till_jobs.specs.Outcomes.{Becomes, BecomesAndTells};

use crate::following::follow;
use crate::outcome::{Outcome, tell};
use escpos_io::ByteOut;
use escpos_job_parts::status::Status;
use escpos_till::{PrinterLine, ReceiptNumber, Store, Surroundings, TillMachine};

/// Cancels a receipt that waits, and prints `cancelled N`, with its number, once that would outlive a crash. If the receipt was
/// sent K times before, ` tried K` ends the line, since it may be on the paper.
///
/// The status is `Good` if it is cancelled. It is `Refused` if the receipt doesn't wait: the one line is `refused Recorded N`,
/// `refused Cancelled N`, or `refused NotTaken N` if no receipt has this number. It is `Device` with `ledger failed` if the store
/// fails or has failed, or `Memory`. `Device` also comes where `output` has failed.
pub fn cancel_receipt<S: Store, L: PrinterLine, W: ByteOut>(
    machine: &mut TillMachine,
    around: &mut Surroundings<S, L>,
    number: ReceiptNumber,
    output: &mut W,
) -> Status
    ensures cancels { BecomesAndTells (Did S.faithful S.holds S.leaves S.says L.did) (RefusesCancel machine.old number) machine.old around.old (Cancel number) machine.new around.new
        (job_end (W.written output.old) (W.written output.new) (W.failed output.new) result) }
    ensures not_hidden { result ≢ Status.Device → ¬ IsTrue (W.failed output.old) → ¬ IsTrue (W.failed output.new) }
    ensures never_usage { result ≢ Status.Usage }
{
    let outcome = cancelled(machine, around, number);
    tell(outcome, output)
}

// Cancels a receipt.
fn cancelled<S: Store, L: PrinterLine>(
    machine: &mut TillMachine,
    around: &mut Surroundings<S, L>,
    number: ReceiptNumber,
) -> Outcome
    ensures { Becomes (Did S.faithful S.holds S.leaves S.says L.did) (RefusesCancel machine.old number) machine.old around.old (Cancel number) result machine.new around.new }
{
    match machine.cancel(number) {
        Ok(()) => follow(machine, around),
        Err(why) => Outcome::Refused(why),
    }
}
