//! Input: all of a source, read to its end, as its bytes or as those that it writes in hexadecimal.

ghost use Rattle.std.specs.Prelude.{◌≡◌, ◌+◌, ◌<◌, ◌≤◌, length, Ok, IfOk, OnOk, IfSome, IsErr, IsErrOf, IsTrue};
ghost use Rattle.hex.specs.Hex.{decode_of};
ghost use Rattle.escpos_job_parts.specs.Hexadecimal.{IsHexadecimal, digits_of};
ghost use Rattle.escpos_job_parts.specs.Input.{fault_of_reading, stream_of};

use crate::form::Form;
use crate::hexadecimal::{NotHexadecimal, bytes_of};
use escpos_io::{ByteIn, ReadError, read_to_end};
use std::alloc::Global;
use thiserror::Error;

/// The most bytes of standard input that a job reads.
pub const INPUT_LIMIT: usize = 16_777_216;

const _: () = prove!(INPUT_LIMIT == 16_777_216);

/// Why an input gave no bytes.
#[derive(Clone, Copy, Debug, Drop, PartialEq, Eq, Error)]
pub enum InputFault {
    /// It has more than 16,777,216 bytes.
    #[error("the input is too long")]
    TooLong,
    /// It isn't hexadecimal.
    #[error("the input isn't hexadecimal")]
    NotHexadecimal,
    /// Its source failed.
    #[error("the input can't be read")]
    Device,
    /// Out of memory.
    #[error("there wasn't enough memory")]
    Memory,
}

impl From<ReadError> for InputFault {
    ghost from_gives = { λ error fault. fault ≡ fault_of_reading error };

    fn from(error: ReadError) -> Self {
        match error {
            ReadError::TooLong => InputFault::TooLong,
            ReadError::Failed => InputFault::Device,
            ReadError::Memory => InputFault::Memory,
        }
    }
}

impl From<NotHexadecimal> for InputFault {
    ghost use Rattle.escpos_job_parts.specs.declared.input.InputFault.{InputFault};

    ghost from_gives = { λ _ fault. fault ≡ InputFault.NotHexadecimal };

    fn from(_fault: NotHexadecimal) -> Self {
        InputFault::NotHexadecimal
    }
}

/// All bytes of `input`, as they are. At most 16,777,217 bytes are pulled, in at most as many calls.
pub fn raw_input<R: ByteIn>(alloc: Global, input: &mut R) -> Result<Vec<u8>, InputFault>
    ensures bytes { IfOk result (λ bytes. IfSome (R.to_come input.old) (λ all. (length all ≤ INPUT_LIMIT) × (bytes.items ≡ all))) }
    ensures too_long { IsErrOf result InputFault.TooLong → IfSome (R.to_come input.old) (λ all. INPUT_LIMIT < length all) }
    ensures never_hexadecimal { ¬ IsErrOf result InputFault.NotHexadecimal }
    ensures device { IsErrOf result InputFault.Device → IsTrue (R.failed input.new) }
    ensures not_failed { OnOk result (¬ IsTrue (R.failed input.new)) }
    ensures not_hidden { IsTrue (R.failed input.new) → IsErrOf result InputFault.Device }
    ensures pulls { R.pull_count input.new ≤ R.pull_count input.old + INPUT_LIMIT + 1 }
{
    Ok(read_to_end(alloc, input, INPUT_LIMIT)?)
}

// The bytes that `input` writes in hexadecimal.
fn hexadecimal_input<R: ByteIn>(alloc: Global, input: &mut R) -> Result<Vec<u8>, InputFault>
    ensures bytes { IfOk result (λ bytes. IfSome (R.to_come input.old) (λ text.
        (length text ≤ INPUT_LIMIT) × IsHexadecimal text bytes.items)) }
    ensures too_long { IsErrOf result InputFault.TooLong → IfSome (R.to_come input.old) (λ text. INPUT_LIMIT < length text) }
    ensures not_hexadecimal { IsErrOf result InputFault.NotHexadecimal → IfSome (R.to_come input.old) (λ text.
        (length text ≤ INPUT_LIMIT) × IsErr (decode_of (digits_of text))) }
    ensures device { IsErrOf result InputFault.Device → IsTrue (R.failed input.new) }
    ensures not_failed { OnOk result (¬ IsTrue (R.failed input.new)) }
    ensures not_hidden { IsTrue (R.failed input.new) → IsErrOf result InputFault.Device }
    ensures pulls { R.pull_count input.new ≤ R.pull_count input.old + INPUT_LIMIT + 1 }
{
    let text = read_to_end(alloc, input, INPUT_LIMIT)?;
    Ok(bytes_of(text)?)
}

/// The bytes of the stream that `input` gives in this form. At most 16,777,217 bytes are pulled, in at most as many calls.
pub fn stream_input<R: ByteIn>(
    alloc: Global,
    form: Form,
    input: &mut R,
) -> Result<Vec<u8>, InputFault>
    ensures bytes { IfOk result (λ bytes. IfSome (R.to_come input.old) (λ given.
        (length given ≤ INPUT_LIMIT) × (stream_of form given ≡ Ok bytes.items))) }
    ensures too_long { IsErrOf result InputFault.TooLong → IfSome (R.to_come input.old) (λ given. INPUT_LIMIT < length given) }
    ensures not_hexadecimal { IsErrOf result InputFault.NotHexadecimal → IfSome (R.to_come input.old) (λ given.
        (length given ≤ INPUT_LIMIT) × IsErr (stream_of form given)) }
    ensures device { IsErrOf result InputFault.Device → IsTrue (R.failed input.new) }
    ensures not_failed { OnOk result (¬ IsTrue (R.failed input.new)) }
    ensures not_hidden { IsTrue (R.failed input.new) → IsErrOf result InputFault.Device }
    ensures pulls { R.pull_count input.new ≤ R.pull_count input.old + INPUT_LIMIT + 1 }
{
    match form {
        Form::Hexadecimal => hexadecimal_input(alloc, input),
        Form::Raw => raw_input(alloc, input),
    }
}
