//! The job `image`: a picture as entries of a receipt's text.

ghost use Rattle.std.specs.Prelude.{◌≡◌, ◌≢◌, ◌+◌, ◌≤◌, ◌++◌, Option, ℕ, length, IfSome, IsTrue};
ghost use Rattle.escpos_job_parts.specs.Ending.{IsFair, PrintsText, job_end};
ghost use Rattle.escpos_stream_jobs.specs.Image.{MakesEntries, MakesEntriesOf, image_refusal};

use escpos_command::{LF, LineWidth};
use escpos_image::{ImageError, ImageFault, image_entries};
use escpos_io::{ByteIn, ByteOut, GATHERED_BYTES, Gather, append_number, laws};
use escpos_job_parts::ending::{MEMORY, refuse, say};
use escpos_job_parts::input::raw_input;
use escpos_job_parts::lines::SPACE;
use escpos_job_parts::refusal::{LINE_BYTES, append_place};
use escpos_job_parts::status::Status;
use std::alloc::Global;

/// Reads a PBM, PGM or PPM picture from `input`, and writes the entries of a receipt's text that print it to `output`, an entry a line:
/// scaled down to lines of this width, and black where its gray value is below the threshold, or by error diffusion where none is given.
///
/// The status is `Good` if there is a picture. It is `Refused` if the input is too long or is no picture, for which the one line that
/// says why is printed. It is `Memory` if an allocation failed: then the line `memory` is printed, and nothing else. `Device` comes
/// only where `input` or `output` has failed, and no other status hides that one of them has failed in this call; `Usage` never comes.
/// `input` is pulled at most 16,777,217 times.
pub fn image<R: ByteIn, W: ByteOut>(
    alloc: Global,
    width: LineWidth,
    threshold: Option<u8>,
    input: &mut R,
    output: &mut W,
) -> Status
    ensures makes { IfSome (R.to_come input.old) (λ bytes. MakesEntries width threshold (job_end (W.written output.old) (W.written output.new) (W.failed output.new) result) bytes) }
    ensures fair { IsFair result (R.failed input.new) (W.failed output.old, W.failed output.new)
        (R.pull_count input.old, R.pull_count input.new) }
    ensures nothing_put { IsTrue (R.failed input.new) → output.new ≡ output.old }
{
    match raw_input(alloc, input) {
        Ok(bytes) => write_entries(alloc, width, threshold, &bytes, output),
        Err(fault) => refuse(fault, output),
    }
}

// Writes the entries that print the picture with these bytes.
fn write_entries<W: ByteOut>(
    alloc: Global,
    width: LineWidth,
    threshold: Option<u8>,
    bytes: &[u8],
    output: &mut W,
) -> Status
    ensures makes { MakesEntriesOf width threshold (job_end (W.written output.old) (W.written output.new) (W.failed output.new) result) bytes.now }
    ensures device { result ≡ Status.Device → IsTrue (W.failed output.new) }
    ensures not_hidden { result ≢ Status.Device → ¬ IsTrue (W.failed output.old) → ¬ IsTrue (W.failed output.new) }
    ensures never_usage { result ≢ Status.Usage }
{
    match image_entries(alloc, bytes, width, threshold) {
        Ok(text) => say(&text, output, Status::Good),
        Err(ImageError::Refused(fault)) => refuse_image(fault, output),
        Err(ImageError::Memory) => say(MEMORY, output, Status::Memory),
    }
}

// Prints the line `refused NUMBER NAME`, followed by the place of the byte if there is one. The status is `Refused`, or `Device` if
// `output` has failed.
fn refuse_image<W: ByteOut>(fault: ImageFault, output: &mut W) -> Status
    ensures says { PrintsText (job_end (W.written output.old) (W.written output.new) (W.failed output.new) result) (image_refusal fault) Status.Refused }
    ensures not_hidden { result ≢ Status.Device → ¬ IsTrue (W.failed output.old) → ¬ IsTrue (W.failed output.new) }
{
    // Proof only: appended bytes count as given.
    laws::given_in_place();
    let mut gather = Gather::new();
    append_image_refusal(&mut gather, fault);
    match gather.flush(output) {
        Ok(()) => Status::Refused,
        Err(_) => Status::Device,
    }
}

// Appends that line.
fn append_image_refusal(gather: &mut Gather, fault: ImageFault)
    requires { length gather.old.kept + LINE_BYTES ≤ GATHERED_BYTES }
    ensures kept { gather.new.kept ≡ gather.old.kept ++ image_refusal fault }
    ensures same_count { gather.new.written ≡ gather.old.written }
{
    gather.extend(b"refused ");
    append_number(gather, usize::from(fault.number()));
    gather.push(SPACE);
    gather.extend(fault.name().as_bytes());
    append_place(gather, fault.place());
    gather.push(LF);
}
