//! The job `send`: a receipt goes to a printer, and the result is printed.
//!
//! Sending is left to `send_link`, over any source and sink; here it is given a link, and its result is printed.

ghost use Rattle.std.specs.Prelude.{◌≡◌, ◌≢◌, ◌+◌, ◌≤◌, ◌++◌, [], length, max, IsTrue};
ghost use Rattle.escpos_host.specs.Machine.{Down};
ghost use Rattle.escpos_job_parts.specs.declared.input.TheConstants.{INPUT_LIMIT};
ghost use Rattle.escpos_job_parts.specs.Ending.{job_end};
ghost use Rattle.escpos_tcp_jobs.specs.Send.{SendsAndTells, devices, not_recorded_line, is_memory_fault, passed, recorded_line, sent_text, status_of_fault, status_of_sent};

use escpos_addresses::address::Address;
use escpos_addresses::printer_link::{PrinterLink, Printers};
use escpos_command::LF;
use escpos_host::{Host, HostError, Receipt, SendFault, Sent, send_link};
use escpos_io::{ByteIn, ByteOut, GATHERED_BYTES, Gather, Incoming, Outgoing, append_number, laws};
use escpos_job_parts::ending::{MEMORY, NO_LINK, say};
use escpos_job_parts::receipt_input::{read_receipt, refuse_input};
use escpos_job_parts::status::Status;
use escpos_receipt::ReceiptOptions;
use std::alloc::Global;

/// The most bytes of answers that are read.
pub const ANSWERS_LIMIT: u32 = 65_536;

const _: () = prove!(ANSWERS_LIMIT == 65_536);

/// More bytes than are printed for a receipt that was sent.
const TEXT_BYTES: usize = 128;

const _: () = prove!(TEXT_BYTES == 128);

/// Reads a receipt in JSON from `input`, with these options, connects to the printer at `address`, and sends the receipt as `send_on`
/// does.
///
/// If there is no receipt, nothing is connected, and the line that says why is printed, as for `encode`. If there is no
/// connection, the line is `no link` and the status `Device`.
pub fn send_to<N: Printers, R: ByteIn, W: ByteOut>(
    net: &N,
    alloc: Global,
    address: Address,
    marks: Marks,
    options: &ReceiptOptions,
    input: &mut R,
    output: &mut W,
) -> Status
    ensures never_usage { result ≢ Status.Usage }
    ensures not_hidden { result ≢ Status.Device → ¬ IsTrue (W.failed output.old) → ¬ IsTrue (W.failed output.new) }
    ensures all_read { result ≢ Status.Device → ¬ IsTrue (R.failed input.new) }
    ensures nothing_put { IsTrue (R.failed input.new) → output.new ≡ output.old }
    ensures pulls { R.pull_count input.new ≤ R.pull_count input.old + INPUT_LIMIT + 1 }
{
    let receipt = match read_receipt(alloc, options, input) {
        Ok(receipt) => receipt,
        Err(fault) => return refuse_input(fault, output),
    };
    match address.connect(net) {
        Ok(link) => send_on(alloc, link, marks, receipt, output),
        Err(_) => say(NO_LINK, output, Status::Device),
    }
}

/// Sends a receipt over a link, and prints the result and the next mark's number, as `send_over` does. A wait for the printer lasts as
/// long as the link allows.
pub fn send_on<W: ByteOut>(
    alloc: Global,
    link: PrinterLink,
    marks: Marks,
    receipt: Receipt,
    output: &mut W,
) -> Status
    ensures never_usage { result ≢ Status.Usage }
    ensures not_hidden { result ≢ Status.Device → ¬ IsTrue (W.failed output.old) → ¬ IsTrue (W.failed output.new) }
{
    let PrinterLink { reader, writer } = link;
    send_over(
        alloc,
        marks,
        receipt,
        &mut Incoming::new(reader),
        &mut Outgoing::new(writer),
        output,
    )
}

/// The numbers of the marks of a receipt.
#[derive(Clone, Copy, Debug, PartialEq, Eq)]
pub struct Marks {
    /// The first number that is free.
    pub first: u32,
    /// How many opening marks are sent; 0 counts as 1.
    pub openings: u32,
}

/// Sends a receipt and prints two lines: `recorded 0`, or `not recorded WHY`, or `memory` if that is the reason; then `next
/// M`.
///
/// The status is `Good` if the receipt is recorded, `Refused` if the mark numbers are used up, `Memory` if an allocation
/// failed, and `Device` for every other reason, and if `output` has failed.
pub fn send_over<R: ByteIn, A: ByteOut, W: ByteOut>(
    alloc: Global,
    marks: Marks,
    receipt: Receipt,
    reader: &mut R,
    writer: &mut A,
    output: &mut W,
) -> Status
    ensures sends { SendsAndTells (record { before = record { phase = Down; out = []; half = []; next = marks.first; heard = marks.first; records = []; left = [] }; receipt = receipt; openings = max marks.openings 1; most = ANSWERS_LIMIT })
        (passed (R.to_come reader.old) (R.to_come reader.new) (A.written writer.old) (A.written writer.new))
        (devices (R.ended reader.new) (R.failed reader.new) (R.timed_out reader.new) (A.failed writer.new) (A.timed_out writer.new))
        (job_end (W.written output.old) (W.written output.new) (W.failed output.new) result) }
    ensures never_usage { result ≢ Status.Usage }
    ensures not_hidden { result ≢ Status.Device → ¬ IsTrue (W.failed output.old) → ¬ IsTrue (W.failed output.new) }
{
    // Proof only: appended bytes count as given.
    laws::given_in_place();
    let mut host = Host::new(alloc, marks.first);
    let sent = send_link(
        &mut host,
        receipt,
        marks.openings,
        reader,
        writer,
        ANSWERS_LIMIT,
    );
    let mut gather = Gather::new();
    append_sent(&mut gather, &sent, host.next_mark());
    match gather.flush(output) {
        Ok(()) => status_of_sent(&sent),
        Err(_) => Status::Device,
    }
}

// Appends what became of the receipt, and the next mark's number.
fn append_sent(gather: &mut Gather, sent: &Sent, next: u32)
    requires { length gather.old.kept + TEXT_BYTES ≤ GATHERED_BYTES }
    ensures kept { gather.new.kept ≡ gather.old.kept ++ sent_text sent.now next }
    ensures same_count { gather.new.written ≡ gather.old.written }
{
    match sent {
        Sent::Recorded(number) => append_recorded(gather, *number),
        Sent::NotRecorded { why, .. } => append_fault(gather, *why),
    }
    gather.extend(b"next ");
    append_number(gather, next as usize);
    gather.push(LF);
}

// Appends the line of a receipt that is recorded.
fn append_recorded(gather: &mut Gather, number: usize)
    requires { length gather.old.kept + 64 ≤ GATHERED_BYTES }
    ensures kept { gather.new.kept ≡ gather.old.kept ++ recorded_line number }
    ensures same_count { gather.new.written ≡ gather.old.written }
    ensures short { length (recorded_line number) ≤ 64 }
{
    gather.extend(b"recorded ");
    append_number(gather, number);
    gather.push(LF);
}

// Appends the line that says why a receipt isn't recorded.
fn append_fault(gather: &mut Gather, why: SendFault)
    requires { length gather.old.kept + 64 ≤ GATHERED_BYTES }
    ensures kept { gather.new.kept ≡ gather.old.kept ++ not_recorded_line why }
    ensures same_count { gather.new.written ≡ gather.old.written }
    ensures short { length (not_recorded_line why) ≤ 64 }
{
    if is_memory_fault(why) {
        gather.extend(MEMORY);
    } else {
        gather.extend(b"not recorded ");
        gather.extend(why.name().as_bytes());
        gather.push(LF);
    }
}

/// Whether a receipt isn't recorded because an allocation failed.
pub fn is_memory_fault(why: SendFault) -> bool
    ensures { result ≡ is_memory_fault why }
{
    match why {
        SendFault::Refused(HostError::Memory) => true,
        _ => false,
    }
}

// The status for what became of a receipt.
fn status_of_sent(sent: &Sent) -> Status
    ensures { result ≡ status_of_sent sent.now }
{
    match sent {
        Sent::Recorded(_) => Status::Good,
        Sent::NotRecorded { why, .. } => status_of_fault(*why),
    }
}

/// The status for a receipt that isn't recorded for this reason: `Refused` if the mark numbers are used up, `Memory` if an
/// allocation failed, and otherwise `Device`.
pub fn status_of_fault(why: SendFault) -> Status
    ensures { result ≡ status_of_fault why }
{
    match why {
        SendFault::Refused(HostError::MarksUsedUp) => Status::Refused,
        SendFault::Refused(HostError::Memory) => Status::Memory,
        _ => Status::Device,
    }
}
