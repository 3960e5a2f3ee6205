//! Receipt input: a receipt in JSON, read from a source to its end, and what is printed if there is none.

ghost use Rattle.std.specs.Prelude.{◌≡◌, ◌≢◌, ◌⊎◌, ◌+◌, ◌<◌, ◌≤◌, length, Err, IfOk, IfSome, IsErrOf, IsTrue, OnOk, codes};
ghost use Rattle.escpos_receipt.specs.Describes.{DescribesWith, IsFaultWith};
ghost use Rattle.escpos_receipt.specs.Whole.{Whole};
ghost use Rattle.escpos_receipt.specs.declared.json.JsonError.{JsonError};
ghost use Rattle.escpos_receipt.specs.declared.json.JsonFault.{JsonFault};
ghost use Rattle.escpos_job_parts.specs.declared.input.InputFault.{InputFault};
ghost use Rattle.escpos_job_parts.specs.Input.{fault_of_reading};
ghost use Rattle.escpos_job_parts.specs.Ending.{PrintsText, memory_line, job_end};
ghost use Rattle.escpos_job_parts.specs.Refusal.{refusal_line};

use crate::ending::{MEMORY, refuse, say};
use crate::input::{INPUT_LIMIT, InputFault};
use crate::refusal::refuse_receipt;
use crate::status::Status;
use escpos_io::{ByteIn, ByteOut, ReadError, read_to_end};
use escpos_receipt::{JsonError, Receipt, ReceiptOptions};
use std::alloc::Global;
use thiserror::Error;

/// Why an input gives no receipt.
#[derive(Clone, Copy, Debug, Drop, PartialEq, Eq, Error)]
pub enum NoReceipt {
    /// Its bytes can't be read.
    #[error("the input can't be read")]
    Input(InputFault),
    /// They don't describe a receipt, or memory ran out while they were read.
    #[error("the text describes no receipt")]
    Text(JsonError),
}

impl From<ReadError> for NoReceipt {
    ghost use Rattle.escpos_job_parts.specs.declared.receipt_input.NoReceipt.{NoReceipt};

    ghost from_gives = { λ error fault. fault ≡ NoReceipt.Input (fault_of_reading error) };

    fn from(error: ReadError) -> Self {
        NoReceipt::Input(InputFault::from(error))
    }
}

impl From<JsonError> for NoReceipt {
    ghost use Rattle.escpos_job_parts.specs.declared.receipt_input.NoReceipt.{NoReceipt};

    ghost from_gives = { λ error fault. fault ≡ NoReceipt.Text error };

    fn from(error: JsonError) -> Self {
        NoReceipt::Text(error)
    }
}

/// The receipt that `input` describes in JSON, with these options. At most 16,777,217 bytes are pulled, in at most as many calls.
pub fn read_receipt<R: ByteIn>(
    alloc: Global,
    options: &ReceiptOptions,
    input: &mut R,
) -> Result<Receipt, NoReceipt>
    ensures receipt { IfOk result (λ receipt. IfSome (R.to_come input.old) (λ text.
        (length text ≤ INPUT_LIMIT) × DescribesWith options.now text receipt × Whole receipt)) }
    ensures refused { (fault : JsonFault) → IsErrOf result (NoReceipt.Text (JsonError.Refused fault)) →
        IfSome (R.to_come input.old) (λ text. (length text ≤ INPUT_LIMIT) × IsFaultWith options.now fault text) }
    ensures too_long { IsErrOf result (NoReceipt.Input InputFault.TooLong) → IfSome (R.to_come input.old) (λ text. INPUT_LIMIT < length text) }
    ensures device { IsErrOf result (NoReceipt.Input InputFault.Device) → IsTrue (R.failed input.new) }
    ensures not_hidden { IsTrue (R.failed input.new) → IsErrOf result (NoReceipt.Input InputFault.Device) }
    ensures pulls { R.pull_count input.new ≤ R.pull_count input.old + INPUT_LIMIT + 1 }
{
    let text = read_to_end(alloc, input, INPUT_LIMIT)?;
    Ok(Receipt::from_json_with(alloc, options, &text)?)
}

/// Prints the line that says why an input gives no receipt: `refused input` or the line of the reason, with `Refused`, or
/// `memory`, with `Memory`. If the source has failed, nothing is printed and the status is `Device`, as it is if `output`
/// has failed.
pub fn refuse_input<W: ByteOut>(fault: NoReceipt, output: &mut W) -> Status
    ensures too_long { fault ≡ NoReceipt.Input InputFault.TooLong →
        PrintsText (job_end (W.written output.old) (W.written output.new) (W.failed output.new) result) (codes "refused input\n") Status.Refused }
    ensures refused { (why : JsonFault) → fault ≡ NoReceipt.Text (JsonError.Refused why) →
        PrintsText (job_end (W.written output.old) (W.written output.new) (W.failed output.new) result) (refusal_line why) Status.Refused }
    ensures memory { (fault ≡ NoReceipt.Input InputFault.Memory) ⊎ (fault ≡ NoReceipt.Text JsonError.Memory) →
        PrintsText (job_end (W.written output.old) (W.written output.new) (W.failed output.new) result) memory_line Status.Memory }
    ensures device { fault ≡ NoReceipt.Input InputFault.Device → (result ≡ Status.Device) × (output.new ≡ output.old) }
    ensures never_usage { result ≢ Status.Usage }
    ensures not_hidden { result ≢ Status.Device → ¬ IsTrue (W.failed output.old) → ¬ IsTrue (W.failed output.new) }
{
    match fault {
        NoReceipt::Input(fault) => refuse(fault, output),
        NoReceipt::Text(fault) => refuse_text(fault, output),
    }
}

/// Prints the line that says why a text gives no receipt, or `memory`. The status is `Refused`, or `Memory`, or `Device` if
/// `output` has failed.
pub fn refuse_text<W: ByteOut>(fault: JsonError, output: &mut W) -> Status
    ensures refused { (why : JsonFault) → fault ≡ JsonError.Refused why →
        PrintsText (job_end (W.written output.old) (W.written output.new) (W.failed output.new) result) (refusal_line why) Status.Refused }
    ensures memory { fault ≡ JsonError.Memory →
        PrintsText (job_end (W.written output.old) (W.written output.new) (W.failed output.new) result) memory_line Status.Memory }
    ensures device { result ≡ Status.Device → IsTrue (W.failed output.new) }
    ensures never_usage { result ≢ Status.Usage }
    ensures not_hidden { result ≢ Status.Device → ¬ IsTrue (W.failed output.old) → ¬ IsTrue (W.failed output.new) }
{
    match fault {
        JsonError::Refused(fault) => refuse_receipt(fault, output),
        JsonError::Memory => say(MEMORY, output, Status::Memory),
    }
}
