//! How a job ends: the one line that it prints in place of everything else, and the status that goes with it.

ghost use Rattle.std.specs.Prelude.{◌≡◌, ◌≢◌, ◌⊎◌, IsTrue, codes};
ghost use Rattle.escpos_job_parts.specs.Ending.{PrintsText, StatusFits, memory_line, job_end};

use crate::input::InputFault;
use crate::status::Status;
use escpos_io::{ByteOut, put_all};

/// What is printed last when memory runs out.
pub const MEMORY: &[u8] = b"memory\n";

/// What is printed if there is no connection.
pub const NO_LINK: &[u8] = b"no link\n";

/// Prints a text. Returns the status that is given, or `Device` if `output` has failed: no other status ever hides a
/// failure.
pub fn say<W: ByteOut>(text: &[u8], output: &mut W, status: Status) -> Status
    ensures says { PrintsText (job_end (W.written output.old) (W.written output.new) (W.failed output.new) result) text.now status }
    ensures not_hidden { result ≢ Status.Device → ¬ IsTrue (W.failed output.old) → ¬ IsTrue (W.failed output.new) }
{
    match put_all(text, output) {
        Ok(()) => status,
        Err(_) => Status::Device,
    }
}

/// Prints the line that says why an input gave no bytes: `refused input` or `refused hex`, with `Refused`, or `memory`,
/// with `Memory`. If the source has failed, nothing is printed and the status is `Device`, as it is if `output` has failed.
pub fn refuse<W: ByteOut>(fault: InputFault, output: &mut W) -> Status
    ensures too_long { fault ≡ InputFault.TooLong →
        PrintsText (job_end (W.written output.old) (W.written output.new) (W.failed output.new) result) (codes "refused input\n") Status.Refused }
    ensures not_hexadecimal { fault ≡ InputFault.NotHexadecimal →
        PrintsText (job_end (W.written output.old) (W.written output.new) (W.failed output.new) result) (codes "refused hex\n") Status.Refused }
    ensures memory { fault ≡ InputFault.Memory →
        PrintsText (job_end (W.written output.old) (W.written output.new) (W.failed output.new) result) memory_line Status.Memory }
    ensures device { fault ≡ InputFault.Device → (result ≡ Status.Device) × (output.new ≡ output.old) }
    ensures not_hidden { result ≢ Status.Device → ¬ IsTrue (W.failed output.old) → ¬ IsTrue (W.failed output.new) }
{
    match fault {
        InputFault::TooLong => say(b"refused input\n", output, Status::Refused),
        InputFault::NotHexadecimal => say(b"refused hex\n", output, Status::Refused),
        InputFault::Device => Status::Device,
        InputFault::Memory => say(MEMORY, output, Status::Memory),
    }
}

/// The status of bytes that are all read, where the last `half` of them are a half command.
pub fn status_of(half: usize) -> Status
    ensures { StatusFits result half }
{
    if half == 0 {
        Status::Good
    } else {
        Status::Refused
    }
}
