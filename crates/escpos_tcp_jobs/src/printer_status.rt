//! The job `status`: a printer is asked what its sensors say, and that is printed. No mark is used.

ghost use Rattle.std.specs.Prelude.{◌≡◌, ◌≢◌, ◌⊎◌, ◌+◌, ◌<◌, ◌≤◌, ◌++◌, List, ℕ, Some, None, [], ◌∷◌, false, length, IsTrue, IfOk, IfErr, OnOk};
ghost use Rattle.std.specs.Io.KnownBytes.{Appends, Consumes};
ghost use Rattle.escpos_command.specs.declared.answer.Answer.{Answer};
ghost use Rattle.escpos_command.specs.Answers.{AnswerSpells, HalfAnswer, ViableAnswer};
ghost use Rattle.escpos_command.specs.CommandTable.{spell};
ghost use Rattle.escpos_command.specs.Meanings.{has_bit};
ghost use Rattle.escpos_host.specs.declared.send.SendFault.{SendFault};
ghost use Rattle.escpos_job_parts.specs.Ending.{Tells, job_end};
ghost use Rattle.escpos_tcp_jobs.specs.PrinterStatus.{ArePassedOver, AsksAndTells, FailsNext, FailsToAsk, TellsNext, TellsStatus, no_status_line, requests, status_text};
ghost use Rattle.escpos_tcp_jobs.specs.Send.{DevicesSay, devices, passed};

use escpos_addresses::address::Address;
use escpos_addresses::printer_link::{PrinterLink, Printers};
use escpos_command::{Answer, LF};
use escpos_host::{AnswerReader, NoAnswer, SendFault};
use escpos_io::{
    ByteIn, ByteOut, Failed, GATHERED_BYTES, Gather, Incoming, Outgoing, laws, put_all,
};
use escpos_job_parts::ending::{NO_LINK, say};
use escpos_job_parts::status::Status;

/// The most bytes that are read up to a status byte.
const STATUS_LIMIT: u32 = 16_384;

const _: () = prove!(STATUS_LIMIT == 16_384);

/// The requests for the four kinds of status. (Reference: DLE EOT.)
const REQUESTS: &[u8] = b"\x10\x04\x01\x10\x04\x02\x10\x04\x03\x10\x04\x04";

/// What a printer says of itself: its answers to the requests for the four kinds of status. (Reference: DLE EOT.)
#[derive(Clone, Copy, Debug, PartialEq, Eq)]
pub struct PrinterStatus {
    /// The first: bit 3 is set while the printer is offline.
    pub printer: u8,
    /// The second, why it is offline: bit 2 is set while the cover is open.
    pub offline: u8,
    /// The third, of errors.
    pub error: u8,
    /// The fourth: bits 2 and 3 are set once the paper is near its end, bits 5 and 6 at its end.
    pub paper: u8,
}

/// Connects to the printer at `address`, and prints what it says of itself as `status_over` does. If there is no connection,
/// the line is `no link` and the status `Device`.
pub fn show_status<N: Printers, W: ByteOut>(net: &N, address: Address, output: &mut W) -> Status
    ensures never_usage { result ≢ Status.Usage }
    ensures not_hidden { result ≢ Status.Device → ¬ IsTrue (W.failed output.old) → ¬ IsTrue (W.failed output.new) }
{
    match address.connect(net) {
        Ok(link) => status_on(link, output),
        Err(_) => say(NO_LINK, output, Status::Device),
    }
}

// The same over a link.
fn status_on<W: ByteOut>(link: PrinterLink, output: &mut W) -> Status
    ensures never_usage { result ≢ Status.Usage }
    ensures not_hidden { result ≢ Status.Device → ¬ IsTrue (W.failed output.old) → ¬ IsTrue (W.failed output.new) }
{
    let PrinterLink { reader, writer } = link;
    status_over(
        &mut Incoming::new(reader),
        &mut Outgoing::new(writer),
        output,
    )
}

/// Asks a printer for its status and prints three lines: `online` or `offline`; `cover closed` or `cover open`; and `paper
/// there`, `paper near its end` or `paper ended`. Answers of marks and blocks of automatic status that come
/// before or between are passed over.
///
/// The status is then `Good`. If the printer doesn't say, the line is `no status WHY`, with the name of a `SendFault`, and
/// the status `Device`, as it is if `output` has failed.
pub fn status_over<R: ByteIn, A: ByteOut, W: ByteOut>(
    reader: &mut R,
    writer: &mut A,
    output: &mut W,
) -> Status
    ensures asks { AsksAndTells (passed (R.to_come reader.old) (R.to_come reader.new) (A.written writer.old) (A.written writer.new))
        (devices (R.ended reader.new) (R.failed reader.new) (R.timed_out reader.new) (A.failed writer.new) (A.timed_out writer.new))
        (job_end (W.written output.old) (W.written output.new) (W.failed output.new) result) }
    ensures never_usage { result ≢ Status.Usage }
    ensures not_hidden { result ≢ Status.Device → ¬ IsTrue (W.failed output.old) → ¬ IsTrue (W.failed output.new) }
{
    match ask_status(reader, writer) {
        Ok(told) => tell_status(told, output),
        Err(why) => tell_fault(why, output),
    }
}

// Prints what the four bytes say.
fn tell_status<W: ByteOut>(told: PrinterStatus, output: &mut W) -> Status
    ensures tells { Tells (job_end (W.written output.old) (W.written output.new) (W.failed output.new) result) (status_text told) Status.Good }
    ensures never_usage { result ≢ Status.Usage }
    ensures not_hidden { result ≢ Status.Device → ¬ IsTrue (W.failed output.old) → ¬ IsTrue (W.failed output.new) }
{
    // Proof only: appended bytes count as given.
    laws::given_in_place();
    let mut gather = Gather::new();
    append_status(&mut gather, told);
    match gather.flush(output) {
        Ok(()) => Status::Good,
        Err(_) => Status::Device,
    }
}

// Prints why the printer doesn't tell its status.
fn tell_fault<W: ByteOut>(why: SendFault, output: &mut W) -> Status
    ensures tells { Tells (job_end (W.written output.old) (W.written output.new) (W.failed output.new) result) (no_status_line why) Status.Device }
    ensures device { result ≡ Status.Device }
{
    // Proof only: appended bytes count as given.
    laws::given_in_place();
    let mut gather = Gather::new();
    append_fault(&mut gather, why);
    let _ = gather.flush(output);
    Status::Device
}

/// Puts the four requests out, and reads the four status bytes. Answers of marks and blocks are passed over; at most 16,384 bytes are
/// read for each status byte.
pub fn ask_status<R: ByteIn, A: ByteOut>(
    reader: &mut R,
    writer: &mut A,
) -> Result<PrinterStatus, SendFault>
    ensures asked { OnOk result (Appends (A.written writer.old) (A.written writer.new) (spell requests)) }
    ensures told { IfOk result (λ status. (bytes : List ℕ) × Consumes (R.to_come reader.old) (R.to_come reader.new) bytes × TellsStatus bytes status) }
    ensures fails { IfErr result (λ why. (out : List ℕ) × (unsent : List ℕ) × (bytes : List ℕ) × Appends (A.written writer.old) (A.written writer.new) out
        × (spell requests ≡ out ++ unsent) × Consumes (R.to_come reader.old) (R.to_come reader.new) bytes × FailsToAsk why unsent bytes) }
    ensures cause { IfErr result (λ why. DevicesSay
        (devices (R.ended reader.new) (R.failed reader.new) (R.timed_out reader.new) (A.failed writer.new) (A.timed_out writer.new)) why) }
{
    if let Err(_) = put_all(REQUESTS, writer) {
        return Err(SendFault::of_writer(writer));
    }
    Ok(PrinterStatus {
        printer: next_status(reader)?,
        offline: next_status(reader)?,
        error: next_status(reader)?,
        paper: next_status(reader)?,
    })
}

// Reads up to the next status byte; answers of marks and blocks before it are passed over.
fn next_status<R: ByteIn>(reader: &mut R) -> Result<u8, SendFault>
    ensures told { IfOk result (λ byte. (bytes : List ℕ) × Consumes (R.to_come reader.old) (R.to_come reader.new) bytes × TellsNext bytes byte) }
    ensures fails { IfErr result (λ why. (bytes : List ℕ) × Consumes (R.to_come reader.old) (R.to_come reader.new) bytes × FailsNext why bytes) }
    ensures cause { IfErr result (λ why. DevicesSay (devices (R.ended reader.new) (R.failed reader.new) (R.timed_out reader.new) false false) why) }
{
    let mut answers = AnswerReader::new();
    let mut piece = [0];
    let mut read = 0;
    while read < STATUS_LIMIT {
        let count = match reader.pull(&mut piece) {
            Ok(count) => count,
            Err(Failed) => return Err(SendFault::of_reader(reader)),
        };
        if count == 0 {
            return Err(SendFault::Ended);
        }
        if let Some(status) = take_byte(&mut answers, piece[0])? {
            return Ok(status);
        }
        read += 1;
    }
    Err(SendFault::TooLong)
}

// Takes one more byte. Returns the status byte, if it is one.
fn take_byte(answers: &mut AnswerReader, byte: u8) -> Result<Option<u8>, SendFault>
    ensures status { (status : ℕ) → result ≡ Ok (Some status) → AnswerSpells (Answer.Status status) (answers.old ++ byte ∷ []) }
    ensures passed { result ≡ Ok None → (passed : List ℕ) × ArePassedOver passed × (answers.old ++ byte ∷ [] ≡ passed ++ answers.new) }
    ensures half { result ≡ Ok None → (answers.new ≡ []) ⊎ HalfAnswer answers.new }
    ensures bad { IfErr result (λ why. (why ≡ SendFault.BadAnswer) × (ViableAnswer (answers.old ++ byte ∷ []) → ⊥)) }
{
    match answers.push(byte) {
        Ok(Some(Answer::Status(status))) => Ok(Some(status)),
        Ok(Some(Answer::Mark(_))) => Ok(None),
        Ok(Some(Answer::Condition(_))) => Ok(None),
        Ok(None) => Ok(None),
        Err(NoAnswer) => Err(SendFault::BadAnswer),
    }
}

// Appends what the four bytes say.
fn append_status(gather: &mut Gather, told: PrinterStatus)
    requires { length gather.old.kept + 64 ≤ GATHERED_BYTES }
    ensures kept { gather.new.kept ≡ gather.old.kept ++ status_text told }
    ensures same_count { gather.new.written ≡ gather.old.written }
{
    if has_bit(told.printer, 3) {
        gather.extend(b"offline\n");
    } else {
        gather.extend(b"online\n");
    }
    if has_bit(told.offline, 2) {
        gather.extend(b"cover open\n");
    } else {
        gather.extend(b"cover closed\n");
    }
    if has_bit(told.paper, 5) || has_bit(told.paper, 6) {
        gather.extend(b"paper ended\n");
    } else if has_bit(told.paper, 2) || has_bit(told.paper, 3) {
        gather.extend(b"paper near its end\n");
    } else {
        gather.extend(b"paper there\n");
    }
}

// Whether this bit of the byte is set, counted from 0 for the least.
fn has_bit(byte: u8, bit: u32) -> bool
    requires { bit < 8 }
    ensures { result ≡ has_bit byte bit }
{
    byte / 2u8.pow(bit) % 2 == 1
}

// Appends the line that says why the printer doesn't tell its status.
fn append_fault(gather: &mut Gather, why: SendFault)
    requires { length gather.old.kept + 64 ≤ GATHERED_BYTES }
    ensures kept { gather.new.kept ≡ gather.old.kept ++ no_status_line why }
    ensures same_count { gather.new.written ≡ gather.old.written }
{
    gather.extend(b"no status ");
    gather.extend(why.name().as_bytes());
    gather.push(LF);
}
