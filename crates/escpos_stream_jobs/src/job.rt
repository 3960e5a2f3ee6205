//! What `check` and `render` share: input, in either form, is read as a stream of tokens, what they give is
//! printed, then a last line, and a status is returned.
//!
//! What the commands give is left to the job: `check` and `render` are two.

ghost use Rattle.std.specs.Prelude.{◌≡◌, ◌≢◌, ◌⊎◌, ◌+◌, ◌≤◌, ◌++◌, ℕ, List, Option, IfSome, IfErr, OnOk, IsTrue};
ghost use Rattle.escpos_passed.specs.Tokens.{Token};
ghost use Rattle.escpos_io.specs.Putting.{passage};
ghost use Rattle.escpos_io.specs.Giving.{IsGiven};
ghost use Rattle.escpos_job_parts.specs.LastText.{last_text};
ghost use Rattle.escpos_io.specs.Gather.{Carries, Gathered};
ghost use Rattle.escpos_job_parts.specs.Ending.{IsFair, PrintsText, job_end};
ghost use Rattle.escpos_stream_jobs.specs.Report.{Shape, Reports, Runs, closing_text, passed_text};

use escpos_command::{LF, LineWidth};
use escpos_io::{ByteIn, ByteOut, Device, Gather, Piece, append_number};
use escpos_job_parts::ending::{refuse, status_of};
use escpos_job_parts::form::Form;
use escpos_job_parts::input::stream_input;
use escpos_job_parts::lines::Last;
use escpos_job_parts::status::Status;
use escpos_passed::{End, Stop, TokenConsumer, read_tokens};
use std::alloc::Global;

/// Why a job can't go on.
#[derive(Clone, Copy, Debug, PartialEq, Eq)]
pub enum Obstacle {
    /// Out of memory.
    Memory,
    /// The output has failed.
    Device,
}

/// A consumer of tokens that prints what they give.
pub trait Job<W: ByteOut>: TokenConsumer<W, Refusal = Obstacle> + Drop {
    ghost use Rattle.escpos_stream_jobs.specs.declared.job.Obstacle.TheVariants as obstacle;

    // What its text is, where a line is this many dots wide.
    ghost shape: { ℕ → Shape };

    // It has given nothing yet.
    ghost is_new: { ℕ → Self → Type 0 };

    // The bytes that it has given and that aren't printed yet.
    ghost gather: { Self → Gathered };

    /// A job that was given no command, for paper with lines of this width. Allocates nothing.
    fn new(alloc: Global, width: LineWidth) -> Self
        ensures { is_new width result };

    /// How many commands it says were passed over, of those that were.
    fn told(passed: usize) -> usize
        ensures { (width : ℕ) → passed_text result ≡ (shape width).closing passed };

    /// The last line where `count` bytes are read and the last `half` of them are a half command.
    fn last(count: usize, half: usize) -> Last
        ensures { (width : ℕ) → last_text result ≡ (shape width).last count half };

    /// The bytes that it has given and that aren't printed yet.
    fn into_gather(self) -> Gather
        ensures { result ≡ gather self };

    // Together with those that are printed they are what its commands give.
    ghost carried: { (width : ℕ) (start now : Self × W) (ts : List Token) → is_new width start.0 → Self.accepted start now ts →
        Carries (W.written start.1) (W.written now.1) (gather now.0) ((shape width).gives ts) };

    // While commands are taken the output doesn't fail, and a failed allocation leaves what was taken.
    ghost well: { (start now : Self × W) (ts : List Token) → Self.accepted start now ts → ¬ IsTrue (W.failed start.1) → ¬ IsTrue (W.failed now.1) };

    ghost no_memory: { (start last now : Self × W) (ts : List Token) → Self.accepted start last ts → Self.refused last now obstacle.Memory → Self.accepted start now ts };

    ghost no_device: { (last now : Self × W) → Self.refused last now obstacle.Device → IsTrue (W.failed now.1) };
}

/// Reads a stream in this form from `input`, and prints what the job `J` makes of it on `output`, for paper with lines of this
/// width.
///
/// The status is `Good` if all bytes are read with nothing left. It is `Refused` after a fault, with a half command at the
/// end, or for input that is too long or isn't hexadecimal, for which one line of its own is printed. It is `Memory` where
/// an allocation failed: then the line `memory` is the last, after a correct prefix of the normal output. `Device` comes
/// only where `input` or `output` has failed, and no other status hides that one of them has failed in this call; `Usage`
/// never comes. `input` is pulled at most 16,777,217 times.
pub fn run<R: ByteIn, W: ByteOut, J: Job<W>>(
    alloc: Global,
    form: Form,
    pass: bool,
    width: LineWidth,
    input: &mut R,
    output: &mut W,
) -> Status
    ensures runs { IfSome (R.to_come input.old) (λ given.
        Runs (J.shape width) form pass (job_end (W.written output.old) (W.written output.new) (W.failed output.new) result) given) }
    ensures fair { IsFair result (R.failed input.new) (W.failed output.old, W.failed output.new)
        (R.pull_count input.old, R.pull_count input.new) }
    ensures nothing_put { IsTrue (R.failed input.new) → output.new ≡ output.old }
{
    match stream_input(alloc, form, input) {
        Ok(bytes) => report::<W, J>(alloc, pass, width, &bytes, output),
        Err(fault) => refuse(fault, output),
    }
}

// Prints what the job makes of these bytes.
fn report<W: ByteOut, J: Job<W>>(
    alloc: Global,
    pass: bool,
    width: LineWidth,
    bytes: &[u8],
    output: &mut W,
) -> Status
    ensures reports { Reports (J.shape width) pass (job_end (W.written output.old) (W.written output.new) (W.failed output.new) result) bytes.now }
    ensures device { result ≡ Status.Device → IsTrue (W.failed output.new) }
    ensures not_hidden { result ≢ Status.Device → ¬ IsTrue (W.failed output.old) → ¬ IsTrue (W.failed output.new) }
    ensures never_usage { result ≢ Status.Usage }
{
    let mut job = J::new(alloc, width);
    match read_tokens(alloc, pass, bytes, &mut job, output) {
        Ok(End { passed, half }) => {
            let closing = Closing {
                passed: J::told(passed),
                last: J::last(bytes.len(), half),
            };
            finish(job, closing, output, status_of(half))
        }
        Err(Stop::Fault { at, why, passed }) => {
            let closing = Closing {
                passed: J::told(passed),
                last: Last::Fault { place: at, why },
            };
            finish(job, closing, output, Status::Refused)
        }
        Err(Stop::Memory) => finish(job, OUT_OF_MEMORY, output, Status::Memory),
        Err(Stop::Refused(Obstacle::Memory)) => {
            finish(job, OUT_OF_MEMORY, output, Status::Memory)
        }
        Err(Stop::Refused(Obstacle::Device)) => Status::Device,
    }
}

// What comes after all that the tokens give: how many were passed over, if some, and the last line.
#[derive(Clone, Copy, Debug, PartialEq, Eq)]
struct Closing {
    passed: usize,
    last: Last,
}

const OUT_OF_MEMORY: Closing = Closing {
    passed: 0,
    last: Last::Memory,
};

// Gives what comes after all that the tokens give.
fn put_closing<W: ByteOut>(
    gather: &mut Gather,
    closing: Closing,
    output: &mut W,
) -> Result<(), Device>
    ensures given { OnOk result ((first : Option (List ℕ)) (text : List ℕ) → Carries first (W.written output.old) gather.old text
        → Carries first (W.written output.new) gather.new (text ++ closing_text closing)) }
    ensures failed { IfErr result (λ _. IsTrue (W.failed output.new)) }
    ensures not_failed { OnOk result (¬ IsTrue (W.failed output.old) → ¬ IsTrue (W.failed output.new)) }
{
    put_passed(gather, closing.passed, output)?;
    closing.last.put(gather, output)
}

// Prints all that the tokens give and isn't printed yet, and what comes after it. Returns the
// status that is given, or `Device` if `output` has failed.
fn finish<W: ByteOut, J: Job<W>>(job: J, closing: Closing, output: &mut W, status: Status) -> Status
    ensures says { (width : ℕ) (start : J × W) (ts : List Token) → J.is_new width start.0 → J.accepted start (job, output.old) ts →
        PrintsText (job_end (W.written start.1) (W.written output.new) (W.failed output.new) result) ((J.shape width).gives ts ++ closing_text closing) status }
    ensures not_hidden { result ≢ Status.Device → ¬ IsTrue (W.failed output.old) → ¬ IsTrue (W.failed output.new) }
{
    let mut gather = job.into_gather();
    if put_closing(&mut gather, closing, output).is_err() {
        return Status::Device;
    }
    match gather.flush(output) {
        Ok(()) => status,
        Err(_) => Status::Device,
    }
}

// Gives the line on how many commands were passed over; nothing where none was.
fn put_passed<W: ByteOut>(gather: &mut Gather, passed: usize, writer: &mut W) -> Result<(), Device>
    ensures { IsGiven result (passage (W.written writer.old) (W.written writer.new) (W.failed writer.old) (W.failed writer.new))
        gather.old gather.new (passed_text passed) }
{
    if passed == 0 {
        return Ok(());
    }
    gather.room(64, writer)?;
    gather.extend(b"passed ");
    append_number(gather, passed);
    gather.push(LF);
    Ok(())
}
