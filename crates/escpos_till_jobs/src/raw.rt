//! `queue --raw`: a stream of bytes, as another library makes it, is read as a receipt.

ghost use Rattle.std.specs.Prelude.{◌≡◌, ◌≢◌, ◌⊎◌, ◌+◌, ◌<◌, ◌≤◌, ◌++◌, length, codes, IfOk, IfSome, IsErrOf, IsTrue};
ghost use Rattle.escpos_job_parts.specs.declared.input.TheConstants.{INPUT_LIMIT};
ghost use Rattle.escpos_job_parts.specs.declared.input.InputFault.{InputFault};
ghost use Rattle.escpos_job_parts.specs.Ending.{PrintsText, job_end, memory_line};
ghost use Rattle.escpos_stream.specs.declared.fault.StreamError.{StreamError};
ghost use Rattle.escpos_stream.specs.declared.fault.StreamFault.{StreamFault};
ghost use Rattle.escpos_stream.specs.Streams.{IsStreamFault};
ghost use Rattle.escpos_till.specs.Contents.{GivesReceipt, StreamIsReceipt, content_of_stream};
ghost use Rattle.escpos_job_parts.specs.Refusal.{place_text};
ghost use Rattle.escpos_till_jobs.specs.declared.raw.NoStream.{NoStream};
ghost use Rattle.escpos_till_jobs.specs.Raw.{stream_line};

use escpos_command::{LF, LineWidth};
use escpos_io::{ByteIn, ByteOut, GATHERED_BYTES, Gather, append_number, laws};
use escpos_job_parts::ending::{MEMORY, refuse, say};
use escpos_job_parts::input::{INPUT_LIMIT, InputFault, raw_input};
use escpos_job_parts::status::Status;
use escpos_stream::{StreamError, StreamFault};
use escpos_till::ReceiptContent;
use std::alloc::Global;

/// Why an input is no receipt.
#[derive(Clone, Copy, Debug, Drop, PartialEq, Eq)]
pub enum NoStream {
    /// Its bytes can't be read.
    Input(InputFault),
    /// They are none, or memory ran out while they were read as one.
    Stream(StreamError),
}

impl From<InputFault> for NoStream {
    ghost use Rattle.escpos_till_jobs.specs.declared.raw.NoStream.{NoStream};

    ghost from_gives = { λ error fault. fault ≡ NoStream.Input error };

    fn from(error: InputFault) -> Self {
        NoStream::Input(error)
    }
}

impl From<StreamError> for NoStream {
    ghost use Rattle.escpos_till_jobs.specs.declared.raw.NoStream.{NoStream};

    ghost from_gives = { λ error fault. fault ≡ NoStream.Stream error };

    fn from(error: StreamError) -> Self {
        NoStream::Stream(error)
    }
}

/// Reads `input` as a stream that is a receipt on lines of this width. At most 16,777,217 bytes are pulled, in at most as many calls.
pub fn read_raw<R: ByteIn>(
    alloc: Global,
    width: LineWidth,
    input: &mut R,
) -> Result<ReceiptContent, NoStream>
    ensures stream { IfOk result (λ content. IfSome (R.to_come input.old) (λ bytes. (length bytes ≤ INPUT_LIMIT) × (content ≡ content_of_stream width bytes) × StreamIsReceipt width bytes)) }
    ensures receipt { IfOk result (λ content. GivesReceipt content) }
    ensures refused { (fault : StreamFault) → IsErrOf result (NoStream.Stream (StreamError.Refused fault)) →
        IfSome (R.to_come input.old) (λ bytes. (length bytes ≤ INPUT_LIMIT) × IsStreamFault width fault bytes) }
    ensures too_long { IsErrOf result (NoStream.Input InputFault.TooLong) → IfSome (R.to_come input.old) (λ bytes. INPUT_LIMIT < length bytes) }
    ensures device { IsErrOf result (NoStream.Input InputFault.Device) → IsTrue (R.failed input.new) }
    ensures as_they_are { ¬ IsErrOf result (NoStream.Input InputFault.NotHexadecimal) }
    ensures not_hidden { IsTrue (R.failed input.new) → IsErrOf result (NoStream.Input InputFault.Device) }
    ensures pulls { R.pull_count input.new ≤ R.pull_count input.old + INPUT_LIMIT + 1 }
{
    let stream = raw_input(alloc, input)?;
    Ok(ReceiptContent::read_stream(alloc, width, stream)?)
}

/// Prints the line that says why an input is no receipt: `refused input` or that of `refuse_stream`, with `Refused`, or `memory`, with
/// `Memory`. If the source has failed, nothing is printed and the status is `Device`, as it is if `output` has failed.
pub fn refuse_raw<W: ByteOut>(fault: NoStream, output: &mut W) -> Status
    ensures too_long { fault ≡ NoStream.Input InputFault.TooLong →
        PrintsText (job_end (W.written output.old) (W.written output.new) (W.failed output.new) result) (codes "refused input\n") Status.Refused }
    ensures refused { (why : StreamFault) → fault ≡ NoStream.Stream (StreamError.Refused why) →
        PrintsText (job_end (W.written output.old) (W.written output.new) (W.failed output.new) result) (stream_line why) Status.Refused }
    ensures memory { (fault ≡ NoStream.Input InputFault.Memory) ⊎ (fault ≡ NoStream.Stream StreamError.Memory) →
        PrintsText (job_end (W.written output.old) (W.written output.new) (W.failed output.new) result) memory_line Status.Memory }
    ensures device { fault ≡ NoStream.Input InputFault.Device → (result ≡ Status.Device) × (output.new ≡ output.old) }
    ensures never_usage { result ≢ Status.Usage }
    ensures not_hidden { result ≢ Status.Device → ¬ IsTrue (W.failed output.old) → ¬ IsTrue (W.failed output.new) }
{
    match fault {
        NoStream::Input(fault) => refuse(fault, output),
        NoStream::Stream(StreamError::Refused(fault)) => refuse_stream(fault, output),
        NoStream::Stream(StreamError::Memory) => say(MEMORY, output, Status::Memory),
    }
}

// Prints the line `refused NUMBER NAME`, followed by the place of the byte if there is one. The status is `Refused`, or `Device` if
// `output` has failed.
fn refuse_stream<W: ByteOut>(fault: StreamFault, output: &mut W) -> Status
    ensures says { PrintsText (job_end (W.written output.old) (W.written output.new) (W.failed output.new) result) (stream_line fault) Status.Refused }
    ensures not_hidden { result ≢ Status.Device → ¬ IsTrue (W.failed output.old) → ¬ IsTrue (W.failed output.new) }
{
    // Proof only: appended bytes count as given.
    laws::given_in_place();
    let mut gather = Gather::new();
    append_refusal(&mut gather, fault);
    match gather.flush(output) {
        Ok(()) => Status::Refused,
        Err(_) => Status::Device,
    }
}

// Appends that line to nothing.
fn append_refusal(gather: &mut Gather, fault: StreamFault)
    requires { length gather.old.kept ≡ 0 }
    ensures kept { gather.new.kept ≡ gather.old.kept ++ stream_line fault }
    ensures same_count { gather.new.written ≡ gather.old.written }
{
    gather.extend(b"refused ");
    append_number(gather, usize::from(fault.number()));
    gather.push(b' ');
    gather.extend(fault.name().as_bytes());
    append_place(gather, fault.place());
    gather.push(LF);
}

// Appends a space and the place, if there is one.
fn append_place(gather: &mut Gather, place: Option<usize>)
    requires { length gather.old.kept + 21 ≤ GATHERED_BYTES }
    ensures kept { gather.new.kept ≡ gather.old.kept ++ place_text place }
    ensures same_count { gather.new.written ≡ gather.old.written }
    ensures short { length (place_text place) ≤ 21 }
{
    if let Some(at) = place {
        gather.push(b' ');
        append_number(gather, at);
    }
}
