//! Why a text gives no receipt.

ghost use Rattle.std.specs.Prelude.{◌≡◌, ◌≤◌, ℕ, List, length};
ghost use Rattle.escpos_receipt.specs.declared.json.JsonFault.{JsonFault};
ghost use Rattle.escpos_receipt.specs.declared.options.ReceiptOptions.{ReceiptOptions};
ghost use Rattle.escpos_receipt.specs.Describes.{IsFaultWith};
ghost use Rattle.escpos_job_parts.specs.declared.input.TheConstants.{INPUT_LIMIT};
ghost use Rattle.escpos_c.specs.Reasons.{IsReason};

use crate::refusal::Refusal;
use escpos_receipt::JsonError;

/// Why a text gives no receipt.
#[derive(Clone, Copy, Debug, PartialEq, Eq)]
pub enum NoReceipt {
    /// It is refused.
    Refused(Refusal),
    /// Out of memory.
    Memory,
}

/// Why a text gives no receipt, from what its reading says. The text is no longer than 16,777,216 bytes.
pub fn no_receipt(error: JsonError) -> NoReceipt
    ensures { (options : ReceiptOptions) (json : List ℕ) → length json ≤ INPUT_LIMIT
        → ((fault : JsonFault) → error ≡ JsonError.Refused fault → IsFaultWith options fault json) → IsReason options result json }
{
    match error {
        JsonError::Refused(fault) => NoReceipt::Refused(Refusal::from(fault)),
        JsonError::Memory => NoReceipt::Memory,
    }
}
