//! What came of a call of a till's machine, and the line that says so.

ghost use Rattle.std.specs.Prelude.{ℕ, ◌≡◌, ◌≢◌, ◌+◌, ◌≤◌, ◌++◌, [], ◌∷◌, decimal, length, IfErr, OnOk, IsTrue};
ghost use Rattle.std.specs.Io.KnownBytes.{Appends};
ghost use Rattle.escpos_job_parts.specs.Ending.{Tells, job_end};
ghost use Rattle.escpos_till_jobs.specs.Lines.{cancelled_line, note_line, note_status, number_line, outcome_line, outcome_status, refusal_status, refusal_text, waiting_line};
ghost use Rattle.escpos_till_jobs.specs.Outcomes.{NoteEnds, Settles};

use escpos_command::LF;
use escpos_host::SendFault;
use escpos_io::{ByteOut, Gather, append_number, laws, put_all};
use escpos_job_parts::ending::MEMORY;
use escpos_job_parts::status::Status;
use escpos_tcp_jobs::send::{is_memory_fault, status_of_fault};
use escpos_till::{StoreFault, TillNote, TillRefusal};

/// What is printed where the store of a ledger failed.
pub const LEDGER_FAILED: &[u8] = b"ledger failed\n";

/// The most things that are done for a call.
pub const MOST_DEEDS: u32 = u32::MAX;

const _: () = prove!(MOST_DEEDS == 4_294_967_295);

/// What came of a call of a machine.
#[derive(Clone, Copy, Debug, PartialEq, Eq)]
pub enum Outcome {
    /// The machine refused it.
    Refused(TillRefusal),
    /// It was done, and this is what its owner is to be told.
    Told(TillNote),
    /// So many things were done for it that no more are, and the machine still asks for something.
    GivenUp,
}

/// Prints the line that says what came of a call, if there is one, and returns the status that goes with it; `Device` if `output` has
/// failed.
pub(crate) fn tell<W: ByteOut>(outcome: Outcome, output: &mut W) -> Status
    ensures tells { Tells (job_end (W.written output.old) (W.written output.new) (W.failed output.new) result) (outcome_line outcome) (outcome_status outcome) }
    ensures not_hidden { result ≢ Status.Device → ¬ IsTrue (W.failed output.old) → ¬ IsTrue (W.failed output.new) }
    ensures never_usage { result ≢ Status.Usage }
{
    match outcome {
        Outcome::Refused(why) => tell_refusal(why, output),
        Outcome::Told(note) => tell_note(note, output),
        Outcome::GivenUp => tell_text(LEDGER_FAILED, output, Status::Device),
    }
}

// Prints why a machine refused a call. Where nothing waits, nothing is printed.
fn tell_refusal<W: ByteOut>(why: TillRefusal, output: &mut W) -> Status
    ensures tells { Tells (job_end (W.written output.old) (W.written output.new) (W.failed output.new) result) (refusal_text why) (refusal_status why) }
    ensures not_hidden { result ≢ Status.Device → ¬ IsTrue (W.failed output.old) → ¬ IsTrue (W.failed output.new) }
    ensures never_usage { result ≢ Status.Usage }
{
    match why {
        TillRefusal::Busy | TillRefusal::Failed => {
            tell_text(LEDGER_FAILED, output, Status::Device)
        }
        TillRefusal::Memory => tell_text(MEMORY, output, Status::Memory),
        TillRefusal::NothingWaits => tell_text(b"", output, Status::Good),
        TillRefusal::NoReceipt { number, why } => {
            tell_waiting(number.get(), why.name().as_bytes(), Status::Refused, output)
        }
        TillRefusal::MarksUsedUp { number } => {
            tell_waiting(number.get(), b"MarksUsedUp", Status::Refused, output)
        }
        TillRefusal::MarkReused { next } => tell_number(
            b"refused MarkReused ",
            next as usize,
            Status::Refused,
            output,
        ),
        TillRefusal::MarkTooHigh { last } => tell_number(
            b"refused MarkTooHigh ",
            last as usize,
            Status::Refused,
            output,
        ),
        TillRefusal::NotTaken(number) => {
            tell_number(b"refused NotTaken ", number.get(), Status::Refused, output)
        }
        TillRefusal::Earlier(number) => {
            tell_number(b"refused Earlier ", number.get(), Status::Refused, output)
        }
        TillRefusal::Recorded(number) => {
            tell_number(b"refused Recorded ", number.get(), Status::Refused, output)
        }
        TillRefusal::Cancelled(number) => {
            tell_number(b"refused Cancelled ", number.get(), Status::Refused, output)
        }
    }
}

// Prints what a machine's owner is told. That the next mark number is raised gives no line.
fn tell_note<W: ByteOut>(note: TillNote, output: &mut W) -> Status
    ensures tells { Tells (job_end (W.written output.old) (W.written output.new) (W.failed output.new) result) (note_line note) (note_status note) }
    ensures not_hidden { result ≢ Status.Device → ¬ IsTrue (W.failed output.old) → ¬ IsTrue (W.failed output.new) }
    ensures never_usage { result ≢ Status.Usage }
{
    match note {
        TillNote::Queued(number) => tell_number(b"queued ", number.get(), Status::Good, output),
        TillNote::Raised => tell_text(b"", output, Status::Good),
        TillNote::Cancelled { number, tried } => tell_cancelled(number.get(), tried, output),
        TillNote::Recorded(number) => {
            tell_number(b"recorded ", number.get(), Status::Good, output)
        }
        TillNote::NoLink(number) => tell_waiting(number.get(), b"no link", Status::Device, output),
        TillNote::Waiting { number, why } => tell_fault(number.get(), why, output),
        TillNote::Paused { number, why } | TillNote::StillPaused { number, why } => {
            tell_waiting(number.get(), why.name().as_bytes(), Status::Device, output)
        }
        TillNote::NotKept(fault) => tell_not_kept(fault, output),
    }
}

// Prints that a receipt is cancelled, and how often it was tried before.
fn tell_cancelled<W: ByteOut>(number: usize, tried: usize, output: &mut W) -> Status
    ensures tells { Tells (job_end (W.written output.old) (W.written output.new) (W.failed output.new) result) (cancelled_line number tried) Status.Good }
    ensures not_hidden { result ≢ Status.Device → ¬ IsTrue (W.failed output.old) → ¬ IsTrue (W.failed output.new) }
    ensures never_usage { result ≢ Status.Usage }
{
    if tried == 0 {
        return tell_number(b"cancelled ", number, Status::Good, output);
    }
    // Proof only: appended bytes count as given.
    laws::given_in_place();
    let mut gather = Gather::new();
    gather.extend(b"cancelled ");
    append_number(&mut gather, number);
    gather.extend(b" tried ");
    append_number(&mut gather, tried);
    gather.push(LF);
    match gather.flush(output) {
        Ok(()) => Status::Good,
        Err(_) => Status::Device,
    }
}

// Prints that the store couldn't tell whether it kept an entry.
fn tell_not_kept<W: ByteOut>(fault: StoreFault, output: &mut W) -> Status
    ensures tells { Tells (job_end (W.written output.old) (W.written output.new) (W.failed output.new) result) (note_line (TillNote.NotKept fault)) (note_status (TillNote.NotKept fault)) }
    ensures not_hidden { result ≢ Status.Device → ¬ IsTrue (W.failed output.old) → ¬ IsTrue (W.failed output.new) }
    ensures never_usage { result ≢ Status.Usage }
{
    match fault {
        StoreFault::Memory => tell_text(MEMORY, output, Status::Memory),
        StoreFault::Failed => tell_text(LEDGER_FAILED, output, Status::Device),
    }
}

/// Prints what a machine's owner is told. The error is the status of any note but that the receipt is recorded or cancelled, or `Device` where
/// `output` has failed.
pub(crate) fn tell_if_settled<W: ByteOut>(note: TillNote, output: &mut W) -> Result<(), Status>
    ensures settled { OnOk result (Settles note × Appends (W.written output.old) (W.written output.new) (note_line note)) }
    ensures not_failed { OnOk result (¬ IsTrue (W.failed output.old) → ¬ IsTrue (W.failed output.new)) }
    ensures ended { IfErr result (λ status. NoteEnds note (job_end (W.written output.old) (W.written output.new) (W.failed output.new) status)) }
    ensures not_hidden { IfErr result (λ status. status ≢ Status.Device → ¬ IsTrue (W.failed output.old) → ¬ IsTrue (W.failed output.new)) }
    ensures never_usage { IfErr result (λ status. status ≢ Status.Usage) }
{
    match note {
        TillNote::Recorded(_) | TillNote::Cancelled { .. } => tell_settled(note, output),
        note => Err(tell_note(note, output)),
    }
}

// Prints that a receipt is recorded, or cancelled. The error is `Device`: `output` has failed.
fn tell_settled<W: ByteOut>(note: TillNote, output: &mut W) -> Result<(), Status>
    requires { Settles note }
    ensures told { OnOk result (Appends (W.written output.old) (W.written output.new) (note_line note)) }
    ensures not_failed { OnOk result (¬ IsTrue (W.failed output.old) → ¬ IsTrue (W.failed output.new)) }
    ensures failed { IfErr result (λ status. (status ≡ Status.Device) × IsTrue (W.failed output.new)) }
{
    match tell_note(note, output) {
        Status::Good => Ok(()),
        status => Err(status),
    }
}

// Prints why a receipt isn't known to be printed.
fn tell_fault<W: ByteOut>(number: usize, why: SendFault, output: &mut W) -> Status
    ensures tells { Tells (job_end (W.written output.old) (W.written output.new) (W.failed output.new) result)
        (note_line (TillNote.Waiting number why)) (note_status (TillNote.Waiting number why)) }
    ensures not_hidden { result ≢ Status.Device → ¬ IsTrue (W.failed output.old) → ¬ IsTrue (W.failed output.new) }
    ensures never_usage { result ≢ Status.Usage }
{
    if is_memory_fault(why) {
        tell_text(MEMORY, output, Status::Memory)
    } else {
        tell_waiting(number, why.name().as_bytes(), status_of_fault(why), output)
    }
}

/// Prints a text. Returns the status that is given, or `Device` if `output` has failed.
pub(crate) fn tell_text<W: ByteOut>(text: &[u8], output: &mut W, status: Status) -> Status
    ensures tells { Tells (job_end (W.written output.old) (W.written output.new) (W.failed output.new) result) text.now status }
    ensures not_hidden { result ≢ Status.Device → ¬ IsTrue (W.failed output.old) → ¬ IsTrue (W.failed output.new) }
    ensures never_usage { status ≢ Status.Usage → result ≢ Status.Usage }
{
    match put_all(text, output) {
        Ok(()) => status,
        Err(_) => Status::Device,
    }
}

/// Prints a text and a number, as one line.
pub(crate) fn tell_number<W: ByteOut>(
    text: &[u8],
    number: usize,
    status: Status,
    output: &mut W,
) -> Status
    requires { length text.now ≤ 20 }
    ensures tells { Tells (job_end (W.written output.old) (W.written output.new) (W.failed output.new) result) (number_line text.now number) status }
    ensures not_hidden { result ≢ Status.Device → ¬ IsTrue (W.failed output.old) → ¬ IsTrue (W.failed output.new) }
    ensures never_usage { status ≢ Status.Usage → result ≢ Status.Usage }
{
    // Proof only: appended bytes count as given.
    laws::given_in_place();
    let mut gather = Gather::new();
    gather.extend(text);
    append_number(&mut gather, number);
    gather.push(LF);
    match gather.flush(output) {
        Ok(()) => status,
        Err(_) => Status::Device,
    }
}

// Prints that the receipt with this number waits, and why.
fn tell_waiting<W: ByteOut>(number: usize, why: &[u8], status: Status, output: &mut W) -> Status
    requires { length why.now ≤ 20 }
    ensures tells { Tells (job_end (W.written output.old) (W.written output.new) (W.failed output.new) result) (waiting_line number why.now) status }
    ensures not_hidden { result ≢ Status.Device → ¬ IsTrue (W.failed output.old) → ¬ IsTrue (W.failed output.new) }
    ensures never_usage { status ≢ Status.Usage → result ≢ Status.Usage }
{
    // Proof only: appended bytes count as given.
    laws::given_in_place();
    let mut gather = Gather::new();
    gather.extend(b"waiting ");
    append_number(&mut gather, number);
    gather.push(b' ');
    gather.extend(why);
    gather.push(LF);
    match gather.flush(output) {
        Ok(()) => status,
        Err(_) => Status::Device,
    }
}
