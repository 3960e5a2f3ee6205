//! `queue`: a receipt is taken into a ledger.

ghost use Rattle.std.specs.Prelude.{◌≡◌, ◌≢◌, ◌+◌, ◌<◌, ◌≤◌, List, length, IfOk, IfSome, IsErrOf, IsTrue};
ghost use Rattle.escpos_job_parts.specs.declared.input.TheConstants.{INPUT_LIMIT};
ghost use Rattle.escpos_job_parts.specs.declared.input.InputFault.{InputFault};
ghost use Rattle.escpos_job_parts.specs.declared.receipt_input.NoReceipt.{NoReceipt};
ghost use Rattle.escpos_job_parts.specs.Ending.{job_end};
ghost use Rattle.escpos_receipt.specs.declared.json.JsonError.{JsonError};
ghost use Rattle.escpos_receipt.specs.declared.json.JsonFault.{JsonFault};
ghost use Rattle.escpos_receipt.specs.Describes.{IsFaultWith};
ghost use Rattle.escpos_till.specs.Contents.{GivesReceipt, TextGives, content_with};
ghost use Rattle.escpos_till.specs.Driver.{Queue};
ghost use Rattle.escpos_till.specs.Machine.{RefusesAny};
ghost use Rattle.escpos_till.specs.Surroundings.{Did};
ghost use Rattle.escpos_till_jobs.specs.Outcomes.{Becomes, BecomesAndTells};

use crate::following::follow;
use crate::outcome::{Outcome, tell};
use escpos_io::{ByteIn, ByteOut, read_to_end};
use escpos_job_parts::input::INPUT_LIMIT;
use escpos_job_parts::receipt_input::NoReceipt;
use escpos_job_parts::status::Status;
use escpos_receipt::ReceiptOptions;
use escpos_till::{PrinterLine, ReceiptContent, ReceiptKey, Store, Surroundings, TillMachine};
use std::alloc::Global;

/// Reads `input` as a receipt's text in JSON, with these options. At most 16,777,217 bytes are pulled, in at most as many calls.
pub fn read_content<R: ByteIn>(
    alloc: Global,
    options: &ReceiptOptions,
    input: &mut R,
) -> Result<ReceiptContent, NoReceipt>
    ensures text { IfOk result (λ content. IfSome (R.to_come input.old) (λ bytes. (length bytes ≤ INPUT_LIMIT) × (content ≡ content_with options.now bytes))) }
    ensures receipt { IfOk result (λ content. GivesReceipt content) }
    ensures described { IfOk result (λ content. TextGives options.now content.text) }
    ensures refused { (fault : JsonFault) → IsErrOf result (NoReceipt.Text (JsonError.Refused fault)) →
        IfSome (R.to_come input.old) (λ text. (length text ≤ INPUT_LIMIT) × IsFaultWith options.now fault text) }
    ensures too_long { IsErrOf result (NoReceipt.Input InputFault.TooLong) → IfSome (R.to_come input.old) (λ text. INPUT_LIMIT < length text) }
    ensures device { IsErrOf result (NoReceipt.Input InputFault.Device) → IsTrue (R.failed input.new) }
    ensures bytes { ¬ IsErrOf result (NoReceipt.Input InputFault.NotHexadecimal) }
    ensures not_hidden { IsTrue (R.failed input.new) → IsErrOf result (NoReceipt.Input InputFault.Device) }
    ensures pulls { R.pull_count input.new ≤ R.pull_count input.old + INPUT_LIMIT + 1 }
{
    let text = read_to_end(alloc, input, INPUT_LIMIT)?;
    Ok(ReceiptContent::read(alloc, options, text)?)
}

/// Takes a receipt, and prints `queued N`, with its number, once it would outlive a crash. If it comes with a key that a receipt of the
/// ledger has, it is that receipt: its number is printed, and nothing is kept.
///
/// The status is `Good` if it is taken. Otherwise the one line says why it isn't known to be: `Device` with `ledger failed` if the store
/// fails or has failed, or `Memory`. `Device` also comes where `output` has failed.
pub fn queue_receipt<S: Store, L: PrinterLine, W: ByteOut>(
    machine: &mut TillMachine,
    around: &mut Surroundings<S, L>,
    content: ReceiptContent,
    key: Option<ReceiptKey>,
    output: &mut W,
) -> Status
    ensures queues { BecomesAndTells (Did S.faithful S.holds S.leaves S.says L.did) (RefusesAny machine.old) machine.old around.old (Queue content key) machine.new around.new
        (job_end (W.written output.old) (W.written output.new) (W.failed output.new) result) }
    ensures not_hidden { result ≢ Status.Device → ¬ IsTrue (W.failed output.old) → ¬ IsTrue (W.failed output.new) }
    ensures never_usage { result ≢ Status.Usage }
{
    let outcome = queued(machine, around, content, key);
    tell(outcome, output)
}

// Takes a receipt.
fn queued<S: Store, L: PrinterLine>(
    machine: &mut TillMachine,
    around: &mut Surroundings<S, L>,
    content: ReceiptContent,
    key: Option<ReceiptKey>,
) -> Outcome
    ensures { Becomes (Did S.faithful S.holds S.leaves S.says L.did) (RefusesAny machine.old) machine.old around.old (Queue content key) result machine.new around.new }
{
    match machine.queue(content, key) {
        Ok(()) => follow(machine, around),
        Err((why, _content)) => Outcome::Refused(why),
    }
}
