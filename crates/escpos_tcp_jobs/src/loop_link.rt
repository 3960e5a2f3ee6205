//! The job `loop`: both ends of a link in one process. A host and a printer take turns over a TCP connection on 127.0.0.1.

ghost use Rattle.std.specs.Prelude.{◌≡◌, ◌≢◌, ◌+◌, ◌<◌, ◌≤◌, [], length, IsTrue, OnOk};
ghost use Rattle.escpos_job_parts.specs.declared.input.TheConstants.{INPUT_LIMIT};
ghost use Rattle.escpos_tcp_jobs.specs.Broken.{broken_line, broken_status};
ghost use Rattle.escpos_job_parts.specs.Ending.{Tells, job_end};

use crate::send::is_memory_fault;
use escpos_command::{LF, LineWidth};
use escpos_host::{Heard, Host, HostError, HostEvent, Receipt, SendFault};
use escpos_io::{ByteIn, ByteOut, Device, Failed, Gather, Incoming, Outgoing, laws, put_all};
use escpos_job_parts::condition::ONLINE;
use escpos_job_parts::ending::{MEMORY, NO_LINK, say};
use escpos_job_parts::receipt_input::{read_receipt, refuse_input};
use escpos_job_parts::status::Status;
use escpos_paper::write_items;
use escpos_printer::{LinkEnd, Printer, serve_link};
use escpos_receipt::ReceiptOptions;
use std::alloc::Global;
use std::io;
use std::net::{Ipv4Addr, Net, SocketAddrV4, TcpListener, TcpStream};

// The most bytes that the host puts out in one turn.
const TURN_BYTES: usize = 512;

const _: () = prove!(TURN_BYTES == 512);

// Why a receipt wasn't recorded.
#[derive(Clone, Copy, Debug, PartialEq, Eq)]
enum Broken {
    // The host refused a call, or its end of the link failed.
    Host(SendFault),
    // The printer's end of the link ended.
    Printer(LinkEnd),
}

impl Broken {
    ghost use Rattle.escpos_tcp_jobs.specs.Broken.{is_memory, name_of};

    fn name(self) -> &'static str
        ensures value { result.now ≡ name_of self }
        ensures short { length result.now ≤ 12 }
    {
        match self {
            Broken::Host(why) => why.name(),
            Broken::Printer(end) => end.name(),
        }
    }

    fn is_memory(self) -> bool
        ensures { result ≡ is_memory self }
    {
        match self {
            Broken::Host(why) => is_memory_fault(why),
            Broken::Printer(LinkEnd::Memory) => true,
            Broken::Printer(_) => false,
        }
    }
}

impl From<Device> for Broken {
    ghost use Rattle.escpos_host.specs.declared.send.SendFault.{SendFault};
    ghost use Rattle.escpos_tcp_jobs.specs.declared.loop_link.Broken.{Broken};

    ghost from_gives = { λ _ broken. broken ≡ Broken.Host SendFault.WriteFault };

    fn from(_device: Device) -> Self {
        Broken::Host(SendFault::WriteFault)
    }
}

impl From<Failed> for Broken {
    ghost use Rattle.escpos_host.specs.declared.send.SendFault.{SendFault};
    ghost use Rattle.escpos_tcp_jobs.specs.declared.loop_link.Broken.{Broken};

    ghost from_gives = { λ _ broken. broken ≡ Broken.Host SendFault.ReadFault };

    fn from(_failed: Failed) -> Self {
        Broken::Host(SendFault::ReadFault)
    }
}

impl From<HostError> for Broken {
    ghost use Rattle.escpos_host.specs.declared.send.SendFault.{SendFault};
    ghost use Rattle.escpos_tcp_jobs.specs.declared.loop_link.Broken.{Broken};

    ghost from_gives = { λ why broken. broken ≡ Broken.Host (SendFault.Refused why) };

    fn from(why: HostError) -> Self {
        Broken::Host(SendFault::Refused(why))
    }
}

/// Reads a receipt in JSON for lines of this width from `input`, and sends it over a link on 127.0.0.1 as `both_ends` does. If there is no receipt,
/// the line that says why is printed, as for `encode`.
pub fn loop_receipt<N: Net<Stream = TcpStream, Listener = TcpListener>, R: ByteIn, W: ByteOut>(
    net: &N,
    alloc: Global,
    width: LineWidth,
    input: &mut R,
    output: &mut W,
) -> Status
    ensures never_usage { result ≢ Status.Usage }
    ensures not_hidden { result ≢ Status.Device → ¬ IsTrue (W.failed output.old) → ¬ IsTrue (W.failed output.new) }
    ensures all_read { result ≢ Status.Device → ¬ IsTrue (R.failed input.new) }
    ensures nothing_put { IsTrue (R.failed input.new) → output.new ≡ output.old }
    ensures pulls { R.pull_count input.new ≤ R.pull_count input.old + INPUT_LIMIT + 1 }
{
    let options = ReceiptOptions {
        width,
        replacement: None,
    };
    match read_receipt(alloc, &options, input) {
        Ok(receipt) => both_ends(net, alloc, width, receipt, output),
        Err(fault) => refuse_input(fault, output),
    }
}

/// Sends a receipt over a link on 127.0.0.1 from a new host to a new printer that is online and prints lines of this width, and prints the paper and then
/// the line `recorded 0`. The two take turns: the host puts out at most 512 bytes, the printer is served with these, and
/// the host hears the answers.
///
/// The status is `Good` if the receipt is recorded. Otherwise the last line is `not recorded WHY` and the status `Device`,
/// or `memory` and `Memory`; if there is no connection, only `no link` is printed, and the status is `Device`.
pub fn both_ends<N: Net<Stream = TcpStream, Listener = TcpListener>, W: ByteOut>(
    net: &N,
    alloc: Global,
    width: LineWidth,
    receipt: Receipt,
    output: &mut W,
) -> Status
    ensures never_usage { result ≢ Status.Usage }
    ensures not_hidden { result ≢ Status.Device → ¬ IsTrue (W.failed output.old) → ¬ IsTrue (W.failed output.new) }
{
    let Ok((near, far)) = connection(net) else {
        return say(NO_LINK, output, Status::Device);
    };
    let Ok(mut printer) = Printer::new(alloc, ONLINE, width) else {
        return say(MEMORY, output, Status::Memory);
    };
    both_ends_of(alloc, &near, &far, &mut printer, receipt, output)
}

/// The same over an existing connection, to this printer: `near` is the host's end, and `far` the printer's.
pub fn both_ends_of<W: ByteOut>(
    alloc: Global,
    near: &TcpStream,
    far: &TcpStream,
    printer: &mut Printer,
    receipt: Receipt,
    output: &mut W,
) -> Status
    ensures never_usage { result ≢ Status.Usage }
    ensures not_hidden { result ≢ Status.Device → ¬ IsTrue (W.failed output.old) → ¬ IsTrue (W.failed output.new) }
{
    let mut host = Host::new(alloc, 0);
    let mut ends = Ends {
        answers: Incoming::new(near),
        commands: Outgoing::new(near),
        printer_in: Incoming::new(far),
        printer_out: Outgoing::new(far),
    };
    let sent = take_turns(&mut host, receipt, printer, &mut ends);
    if write_items(printer.items(), output).is_err() {
        return Status::Device;
    }
    match sent {
        Ok(()) => say(b"recorded 0\n", output, Status::Good),
        Err(broken) => say_broken(broken, output),
    }
}

// A connection on 127.0.0.1 with itself; an error if another program connects first.
fn connection<N: Net<Stream = TcpStream, Listener = TcpListener>>(
    net: &N,
) -> io::Result<(TcpStream, TcpStream)> {
    let any_port = SocketAddrV4::new(Ipv4Addr::LOCALHOST, 0);
    let listener = TcpListener::bind(net, any_port)?;
    let near = TcpStream::connect(net, listener.local_addr()?)?;
    let (far, peer) = listener.accept()?;
    if peer != near.local_addr()? {
        return Err(io::Error::from(io::ErrorKind::ConnectionRefused));
    }
    near.set_nodelay(true)?;
    far.set_nodelay(true)?;
    Ok((near, far))
}

// The two ends of a connection, each with what is read and what is written there.
#[derive(Drop)]
struct Ends<'a> {
    answers: Incoming<&'a TcpStream>,
    commands: Outgoing<&'a TcpStream>,
    printer_in: Incoming<&'a TcpStream>,
    printer_out: Outgoing<&'a TcpStream>,
}

// Opens the link, submits the receipt, and takes turns until all that the host has to say is said.
fn take_turns(
    host: &mut Host,
    receipt: Receipt,
    printer: &mut Printer,
    ends: &mut Ends,
) -> Result<(), Broken>
    ensures recorded { OnOk result (host.new.records ≢ []) }
{
    host.link_up()?;
    take_turn(host, printer, ends)?;
    if let Err((why, _)) = host.submit(receipt) {
        return Err(Broken::from(why));
    }
    while host.has_out() {
        take_turn(host, printer, ends)?;
    }
    if host.records().is_empty() {
        return Err(Broken::Host(SendFault::Ended));
    }
    Ok(())
}

// One turn: the printer is served with what the host puts out, and the host hears its answers.
fn take_turn(host: &mut Host, printer: &mut Printer, ends: &mut Ends) -> Result<(), Broken>
    ensures fewer { host.old.out ≢ [] → OnOk result (length host.new.out < length host.old.out) }
{
    let mut piece = [0; TURN_BYTES];
    let count = host.take_out(&mut piece);
    put_all(&piece[..count], &mut ends.commands)?;
    let served = serve_link(
        printer,
        &mut ends.printer_in,
        &mut ends.printer_out,
        count as u32,
    );
    if served.end != LinkEnd::TooLong {
        return Err(Broken::Printer(served.end));
    }
    hear_answers(host, &mut ends.answers, served.written)
}

// Reads this many bytes of answers, and lets the host hear them.
fn hear_answers<R: ByteIn>(host: &mut Host, reader: &mut R, count: usize) -> Result<(), Broken>
    ensures quiet { length host.new.out ≤ length host.old.out }
{
    let mut piece = [0; TURN_BYTES];
    let mut read = 0;
    while read < count {
        let asked = TURN_BYTES.min(count - read);
        let got = reader.pull(&mut piece[..asked])?;
        if got == 0 {
            return Err(Broken::Host(SendFault::Ended));
        }
        read += got;
        hear_piece(host, &piece[..got])?;
    }
    Ok(())
}

// Lets the host hear a piece, event after event. There are no more events than bytes.
fn hear_piece(host: &mut Host, piece: &[u8]) -> Result<(), Broken>
    ensures quiet { length host.new.out ≤ length host.old.out }
{
    let mut rest = piece;
    for _ in piece {
        let heard = hear_one(host, rest);
        if let HostEvent::BadAnswer { .. } = heard.event {
            return Err(Broken::Host(SendFault::BadAnswer));
        }
        match rest.get(heard.consumed..) {
            Some(later) => rest = later,
            None => return Ok(()),
        }
    }
    Ok(())
}

// Lets the host hear up to one event. The host then has no more to say than before.
fn hear_one(host: &mut Host, bytes: &[u8]) -> Heard
    ensures quiet { length host.new.out ≤ length host.old.out }
{
    host.heard(bytes)
}

// Prints the line that says why a receipt wasn't recorded. The status is `Memory` if memory ran out, otherwise `Device`.
fn say_broken<W: ByteOut>(broken: Broken, output: &mut W) -> Status
    ensures tells { Tells (job_end (W.written output.old) (W.written output.new) (W.failed output.new) result) (broken_line broken) (broken_status broken) }
    ensures not_hidden { result ≢ Status.Device → ¬ IsTrue (W.failed output.old) → ¬ IsTrue (W.failed output.new) }
{
    if broken.is_memory() {
        return say(MEMORY, output, Status::Memory);
    }
    // Proof only: appended bytes count as given.
    laws::given_in_place();
    let mut gather = Gather::new();
    gather.extend(b"not recorded ");
    gather.extend(broken.name().as_bytes());
    gather.push(LF);
    match gather.flush(output) {
        Ok(()) => Status::Device,
        Err(_) => Status::Device,
    }
}
