//! The job `emulate`: a printer that serves links over TCP, one after another, and writes its paper at the end; or, where it
//! serves until it is ended, what each link printed after that link.
//!
//! Serving a link is left to `serve_link`, over any source and sink; here it is given sockets, and the end of a link prints
//! a line. The paper waits for the last link as text (`paper_text`): a link is served in parts, and its paper is torn off
//! after each part.

ghost use Rattle.std.specs.Prelude.{◌≡◌, ◌≢◌, ◌+◌, ◌*◌, ◌≤◌, ◌++◌, List, length, IfOk, IsTrue, OnErr, OnOk};
ghost use Rattle.std.specs.Io.KnownBytes.{Appends};
ghost use Rattle.escpos_paper.specs.declared.item.Item.{Item};
ghost use Rattle.escpos_paper.specs.ItemsText.{items_text};
ghost use Rattle.escpos_printer.specs.Feeds.{PrinterView};
ghost use Rattle.escpos_printer.specs.LinkInParts.{under};
ghost use Rattle.escpos_printer.specs.Serves.{Serves, link};
ghost use Rattle.escpos_tcp_jobs.specs.Links.{link_line, torn};

use crate::condition_file::{ConditionFile, pause_time};
use crate::paper_text::PaperText;
use crate::watch::{Conditions, Steady};
use crate::watched_link::{emulate_by, follow_watched, watch_and_tell};
use escpos_addresses::address::{Address, AddressText};
use escpos_addresses::printer_link::Printers;
use escpos_command::{LF, LineWidth};
use escpos_io::{
    ByteIn, ByteOut, Device, GATHERED_BYTES, Gather, Incoming, Outgoing, append_number, laws,
};
use escpos_job_parts::ending::{MEMORY, say};
use escpos_job_parts::lines::SPACE;
use escpos_job_parts::status::Status;
use escpos_printer::{Condition, LinkEnd, Printer, Served, serve_link};
use std::alloc::Global;
use std::io::BufReader;
use std::net::{Net, TcpListener, TcpStream};

/// The most bytes of a link that are read.
pub const LINK_LIMIT: u32 = 16_777_216;

const _: () = prove!(LINK_LIMIT == 16_777_216);

/// How many bytes of a link are read before its paper is torn off, and how many such parts a link has at most.
const PART_BYTES: u32 = 16_384;

const PARTS: u32 = 1_024;

const _: () = prove!(PART_BYTES == 16_384);

const _: () = prove!(PARTS == 1_024);

/// How many bytes of a link are read from its stream at once.
const BUFFER_BYTES: usize = 65_536;

/// More bytes than the line of a link has.
const LINE_BYTES: usize = 256;

const _: () = prove!(LINE_BYTES == 256);

/// Is a printer at `address` whose sensors say this, and that prints lines of this width: for `links` links, as `emulate_on`, or, where no
/// number is given, as `follow_on`. Where a file is given, its sensors say what it says once it is first read, as `emulate_by_on`.
///
/// The status is that of these, and `Device` if it can't listen.
pub fn emulate<N: Printers + Net<Listener = TcpListener>, W: ByteOut>(
    net: &N,
    alloc: Global,
    address: Address,
    links: Option<u32>,
    condition: Condition,
    width: LineWidth,
    file: Option<AddressText>,
    output: &mut W,
) -> Status
    ensures never_usage { result ≢ Status.Usage }
    ensures not_hidden { result ≢ Status.Device → ¬ IsTrue (W.failed output.old) → ¬ IsTrue (W.failed output.new) }
{
    if let Some(file) = file {
        let sensors = ConditionFile::new(net, file, condition);
        return emulate_by(net, alloc, address, links, width, sensors, output);
    }
    match links {
        Some(links) => emulate_at(net, alloc, address, links, condition, width, output),
        None => follow_at(net, alloc, address, condition, width, output),
    }
}

// Listens at `address`, and serves `links` links as `emulate_on` does.
fn emulate_at<N: Net<Stream = TcpStream, Listener = TcpListener>, W: ByteOut>(
    net: &N,
    alloc: Global,
    address: Address,
    links: u32,
    condition: Condition,
    width: LineWidth,
    output: &mut W,
) -> Status
    ensures never_usage { result ≢ Status.Usage }
    ensures not_hidden { result ≢ Status.Device → ¬ IsTrue (W.failed output.old) → ¬ IsTrue (W.failed output.new) }
{
    match address.listen(net) {
        Ok(listener) => emulate_on(alloc, &listener, links, condition, width, output),
        Err(_) => Status::Device,
    }
}

/// Serves `links` links of `listener`, one after another, as one printer whose sensors say this and that prints lines of this width; each is read
/// up to 16,777,216 bytes. Prints a line when a link has ended, `link I read R consumed C written W END`, and the paper at the end.
///
/// The status is `Device` if a link can't be accepted or `output` has failed. If a link ends because memory ran out, no
/// other is served: the paper follows, then the line `memory`, and the status is `Memory`. After any other end the next
/// link is served, and the status is `Good`.
pub fn emulate_on<W: ByteOut>(
    alloc: Global,
    listener: &TcpListener,
    links: u32,
    condition: Condition,
    width: LineWidth,
    output: &mut W,
) -> Status
    ensures never_usage { result ≢ Status.Usage }
    ensures not_hidden { result ≢ Status.Device → ¬ IsTrue (W.failed output.old) → ¬ IsTrue (W.failed output.new) }
{
    let Ok(mut printer) = Printer::new(alloc, condition, width) else {
        return say(MEMORY, output, Status::Memory);
    };
    let mut unwatched: Option<Steady> = None;
    emulate_as(alloc, &mut printer, listener, links, &mut unwatched, output)
}

// Serves `links` links as this printer, whose sensors are watched if there are any, and prints its paper at the end.
pub(crate) fn emulate_as<C: Conditions, W: ByteOut>(
    alloc: Global,
    printer: &mut Printer,
    listener: &TcpListener,
    links: u32,
    watched: &mut Option<C>,
    output: &mut W,
) -> Status
    ensures never_usage { result ≢ Status.Usage }
    ensures not_hidden { result ≢ Status.Device → ¬ IsTrue (W.failed output.old) → ¬ IsTrue (W.failed output.new) }
{
    let mut paper = PaperText::new(alloc);
    let status = serve_links(alloc, printer, &mut paper, listener, links, watched, output);
    if paper.put_above(printer.items(), output).is_err() {
        return Status::Device;
    }
    match status {
        Status::Memory => say(MEMORY, output, Status::Memory),
        other => other,
    }
}

// Serves `links` links, up to the first that can't be accepted, or that ends because memory ran out.
fn serve_links<C: Conditions, W: ByteOut>(
    alloc: Global,
    printer: &mut Printer,
    paper: &mut PaperText,
    listener: &TcpListener,
    links: u32,
    watched: &mut Option<C>,
    output: &mut W,
) -> Status
    ensures never_usage { result ≢ Status.Usage }
    ensures not_hidden { result ≢ Status.Device → ¬ IsTrue (W.failed output.old) → ¬ IsTrue (W.failed output.new) }
{
    for number in 1..=links {
        let Ok((stream, _)) = listener.accept() else {
            return Status::Device;
        };
        match serve_stream(alloc, printer, paper, number, &stream, watched, output) {
            Ok(LinkEnd::Memory) => return Status::Memory,
            Ok(_) => {}
            Err(_) => return Status::Device,
        }
    }
    Status::Good
}

// Listens at `address`, and serves links as `follow_on` does.
fn follow_at<N: Net<Stream = TcpStream, Listener = TcpListener>, W: ByteOut>(
    net: &N,
    alloc: Global,
    address: Address,
    condition: Condition,
    width: LineWidth,
    output: &mut W,
) -> Status
    ensures never_usage { result ≢ Status.Usage }
    ensures not_hidden { result ≢ Status.Device → ¬ IsTrue (W.failed output.old) → ¬ IsTrue (W.failed output.new) }
{
    match address.listen(net) {
        Ok(listener) => follow_on(alloc, &listener, condition, width, output),
        Err(_) => Status::Device,
    }
}

/// Serves links of `listener`, one after another, as one printer whose sensors say this and that prints lines of this width,
/// until it is ended; no more than 4,294,967,295. Each is read up to 16,777,216 bytes. When a link has ended, it prints the line of the link and what that
/// link printed.
///
/// The status is `Device` if a link can't be accepted or `output` has failed. If a link ends because memory ran out, no other
/// is served: the line `memory` follows, and the status is `Memory`.
pub fn follow_on<W: ByteOut>(
    alloc: Global,
    listener: &TcpListener,
    condition: Condition,
    width: LineWidth,
    output: &mut W,
) -> Status
    ensures never_usage { result ≢ Status.Usage }
    ensures not_hidden { result ≢ Status.Device → ¬ IsTrue (W.failed output.old) → ¬ IsTrue (W.failed output.new) }
{
    let Ok(mut printer) = Printer::new(alloc, condition, width) else {
        return say(MEMORY, output, Status::Memory);
    };
    let mut unwatched: Option<Steady> = None;
    follow_as(alloc, &mut printer, listener, &mut unwatched, output)
}

// Serves links as this printer, whose sensors are watched if there are any, until it is ended.
pub(crate) fn follow_as<C: Conditions, W: ByteOut>(
    alloc: Global,
    printer: &mut Printer,
    listener: &TcpListener,
    watched: &mut Option<C>,
    output: &mut W,
) -> Status
    ensures never_usage { result ≢ Status.Usage }
    ensures not_hidden { result ≢ Status.Device → ¬ IsTrue (W.failed output.old) → ¬ IsTrue (W.failed output.new) }
{
    for number in 1..=u32::MAX {
        let Ok((stream, _)) = listener.accept() else {
            return Status::Device;
        };
        match follow_stream(alloc, printer, number, &stream, watched, output) {
            Ok(LinkEnd::Memory) => return say(MEMORY, output, Status::Memory),
            Ok(_) => {}
            Err(_) => return Status::Device,
        }
    }
    Status::Good
}

// Serves the link of a stream, as `serve_stream` does, and prints what it printed.
fn follow_stream<C: Conditions, W: ByteOut>(
    alloc: Global,
    printer: &mut Printer,
    number: u32,
    stream: &TcpStream,
    watched: &mut Option<C>,
    output: &mut W,
) -> Result<LinkEnd, Device>
    ensures failed { OnErr result (IsTrue (W.failed output.new)) }
    ensures not_failed { OnOk result (¬ IsTrue (W.failed output.old) → ¬ IsTrue (W.failed output.new)) }
{
    let _ = stream.set_nodelay(true);
    let mut writer = Outgoing::new(stream);
    let served = match watched {
        Some(conditions) => {
            let mut reader = looking(alloc, stream);
            follow_watched(
                alloc,
                printer,
                number,
                &mut reader,
                &mut writer,
                conditions,
                output,
            )?
        }
        None => {
            let mut reader = Incoming::new(buffered(alloc, stream));
            follow_link(alloc, printer, number, &mut reader, &mut writer, output)?
        }
    };
    Ok(served.end)
}

/// Serves a link with no paper above, and prints its line and what it printed. The paper is torn off before it and after it,
/// so that only the printer's own state goes from a link to the next. `Err` comes only if `output` has failed.
pub fn follow_link<R: ByteIn, A: ByteOut, W: ByteOut>(
    alloc: Global,
    printer: &mut Printer,
    number: u32,
    reader: &mut R,
    writer: &mut A,
    output: &mut W,
) -> Result<Served, Device>
    ensures served { IfOk result (λ served. (after : PrinterView) × Serves (torn printer.old)
        (link (R.to_come reader.old) (R.to_come reader.new) (A.written writer.old) (A.written writer.new)) LINK_LIMIT served after
        × (printer.new ≡ torn after)
        × Appends (W.written output.old) (W.written output.new) (link_line number served ++ items_text after.sheet.items)) }
    ensures failed { OnErr result (IsTrue (W.failed output.new)) }
    ensures not_failed { OnOk result (¬ IsTrue (W.failed output.old) → ¬ IsTrue (W.failed output.new)) }
{
    printer.tear_off();
    let mut paper = PaperText::new(alloc);
    let served = serve_and_tell(printer, &mut paper, number, reader, writer, output)?;
    paper.put_above(printer.items(), output)?;
    printer.tear_off();
    Ok(served)
}

// Serves the link of a stream. An answer has a few bytes and the host waits for it, so it is sent at once; a stream that
// can't do so is served as it is.
fn serve_stream<C: Conditions, W: ByteOut>(
    alloc: Global,
    printer: &mut Printer,
    paper: &mut PaperText,
    number: u32,
    stream: &TcpStream,
    watched: &mut Option<C>,
    output: &mut W,
) -> Result<LinkEnd, Device>
    ensures failed { OnErr result (IsTrue (W.failed output.new)) }
    ensures not_failed { OnOk result (¬ IsTrue (W.failed output.old) → ¬ IsTrue (W.failed output.new)) }
{
    let _ = stream.set_nodelay(true);
    let mut writer = Outgoing::new(stream);
    let served = match watched {
        Some(conditions) => {
            let mut reader = looking(alloc, stream);
            watch_and_tell(
                printer,
                paper,
                number,
                &mut reader,
                &mut writer,
                conditions,
                output,
            )?
        }
        None => {
            let mut reader = Incoming::new(buffered(alloc, stream));
            serve_and_tell(printer, paper, number, &mut reader, &mut writer, output)?
        }
    };
    Ok(served.end)
}

// The same stream, no read of which waits for longer than a moment. One that can't do so is read as it is.
fn looking(alloc: Global, stream: &TcpStream) -> BufReader<&TcpStream> {
    let _ = stream.set_read_timeout(Some(pause_time()));
    buffered(alloc, stream)
}

// A stream that is read in large pieces, since the printer asks for small ones. If there is no memory for that, it is read
// as it is asked for.
fn buffered(alloc: Global, stream: &TcpStream) -> BufReader<&TcpStream> {
    match BufReader::with_capacity(alloc, BUFFER_BYTES, stream) {
        Ok(reader) => reader,
        Err(_) => BufReader::with_capacity(alloc, 0, stream).unwrap(),
    }
}

/// Serves a link, tears its paper off and prints its line. `Err` comes only if `output` has failed.
pub fn serve_and_tell<R: ByteIn, A: ByteOut, W: ByteOut>(
    printer: &mut Printer,
    paper: &mut PaperText,
    number: u32,
    reader: &mut R,
    writer: &mut A,
    output: &mut W,
) -> Result<Served, Device>
    ensures served { IfOk result (λ served. (gone : List Item) × (paper.new ≡ paper.old ++ items_text gone)
        × Serves printer.old (link (R.to_come reader.old) (R.to_come reader.new) (A.written writer.old) (A.written writer.new))
        LINK_LIMIT served (under gone printer.new)) }
    ensures told { IfOk result (λ served. Appends (W.written output.old) (W.written output.new) (link_line number served)) }
    ensures failed { OnErr result (IsTrue (W.failed output.new)) }
    ensures not_failed { OnOk result (¬ IsTrue (W.failed output.old) → ¬ IsTrue (W.failed output.new)) }
{
    let served = serve_in_parts(printer, paper, reader, writer);
    tell_link(number, served, output)?;
    Ok(served)
}

/// Prints the line of a link. `Err` comes only if `output` has failed.
pub(crate) fn tell_link<W: ByteOut>(
    number: u32,
    served: Served,
    output: &mut W,
) -> Result<(), Device>
    ensures told { OnOk result (Appends (W.written output.old) (W.written output.new) (link_line number served)) }
    ensures failed { OnErr result (IsTrue (W.failed output.new)) }
    ensures not_failed { OnOk result (¬ IsTrue (W.failed output.old) → ¬ IsTrue (W.failed output.new)) }
{
    // Proof only: appended bytes count as given.
    laws::given_in_place();
    let mut gather = Gather::new();
    append_link(&mut gather, number, served);
    gather.flush(output)
}

// Serves a link, and tears its paper off.
fn serve_in_parts<R: ByteIn, A: ByteOut>(
    printer: &mut Printer,
    paper: &mut PaperText,
    reader: &mut R,
    writer: &mut A,
) -> Served
    ensures { (gone : List Item) × (paper.new ≡ paper.old ++ items_text gone)
        × Serves printer.old (link (R.to_come reader.old) (R.to_come reader.new) (A.written writer.old) (A.written writer.new))
        LINK_LIMIT result (under gone printer.new) }
{
    // Proof only: a link that is served in parts is served as a whole.
    escpos_printer::laws::parts();
    let mut served = serve_part(printer, paper, reader, writer);
    for _ in 1..PARTS {
        match served.end {
            LinkEnd::TooLong => {}
            _ => return served,
        }
        let part = serve_part(printer, paper, reader, writer);
        served = Served {
            read: served.read + part.read,
            consumed: served.consumed + part.consumed,
            written: served.written + part.written,
            end: part.end,
        };
    }
    served
}

// Serves a part of a link, and tears its paper off. What was torn off before may be imagined above it.
fn serve_part<R: ByteIn, A: ByteOut>(
    printer: &mut Printer,
    paper: &mut PaperText,
    reader: &mut R,
    writer: &mut A,
) -> Served
    ensures served { (gone : List Item) × (paper.new ≡ paper.old ++ items_text gone)
        × ((above : List Item) → Serves (under above printer.old)
        (link (R.to_come reader.old) (R.to_come reader.new) (A.written writer.old) (A.written writer.new))
        PART_BYTES result (under (above ++ gone) printer.new)) }
    ensures few { result.written ≤ 116 + 232 * result.read }
{
    // Proof only: what stands on the paper above makes no difference, and the printer's sheet is one that commands leave.
    escpos_printer::laws::paper_above();
    let _ = printer.items();
    let served = serve_link(printer, reader, writer, PART_BYTES);
    paper.tear_off(printer);
    served
}

// Appends the line of a link.
fn append_link(gather: &mut Gather, number: u32, served: Served)
    requires { length gather.old.kept + LINE_BYTES ≤ GATHERED_BYTES }
    ensures kept { gather.new.kept ≡ gather.old.kept ++ link_line number served }
    ensures same_count { gather.new.written ≡ gather.old.written }
{
    gather.extend(b"link ");
    append_number(gather, number as usize);
    gather.extend(b" read ");
    append_number(gather, served.read);
    gather.extend(b" consumed ");
    append_number(gather, served.consumed);
    gather.extend(b" written ");
    append_number(gather, served.written);
    gather.push(SPACE);
    gather.extend(served.end.name().as_bytes());
    gather.push(LF);
}
