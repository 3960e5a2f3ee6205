//! The job `emulate` where the sensors of the printer are watched: what it prints of a link, its line and what it printed.
//!
//! `watch` serves the link; `emulate` accepts it, and has the same of a link that isn't watched.

ghost use Rattle.std.specs.Prelude.{◌≡◌, ◌≢◌, ◌++◌, [], List, ℕ, IfOk, IsTrue, OnErr, OnOk};
ghost use Rattle.std.specs.Io.KnownBytes.{Appends};
ghost use Rattle.escpos_paper.specs.ItemsText.{items_text};
ghost use Rattle.escpos_printer.specs.Feeds.{PrinterView};
ghost use Rattle.escpos_tcp_jobs.specs.Links.{link_line, torn};
ghost use Rattle.escpos_tcp_jobs.specs.Watched.{WatchesLink, sink, watch_view};

use crate::emulate::{emulate_as, follow_as, tell_link};
use crate::paper_text::PaperText;
use crate::watch::{Conditions, watch_link};
use escpos_addresses::address::Address;
use escpos_command::LineWidth;
use escpos_io::{ByteOut, Device};
use escpos_job_parts::ending::{MEMORY, say};
use escpos_job_parts::status::Status;
use escpos_printer::{Printer, Served};
use std::alloc::Global;
use std::io::Read;
use std::net::{Net, TcpListener, TcpStream};

// Listens at `address`, and serves links as `emulate_by_on` does. The status is also `Device` if it can't listen.
pub(crate) fn emulate_by<
    N: Net<Stream = TcpStream, Listener = TcpListener>,
    C: Conditions + Drop,
    W: ByteOut,
>(
    net: &N,
    alloc: Global,
    address: Address,
    links: Option<u32>,
    width: LineWidth,
    conditions: C,
    output: &mut W,
) -> Status
    ensures never_usage { result ≢ Status.Usage }
    ensures not_hidden { result ≢ Status.Device → ¬ IsTrue (W.failed output.old) → ¬ IsTrue (W.failed output.new) }
{
    match address.listen(net) {
        Ok(listener) => emulate_by_on(alloc, &listener, links, width, conditions, output),
        Err(_) => Status::Device,
    }
}

/// Serves links of `listener` as one printer whose sensors are watched, as `watch_link` does, and that prints lines of this width: so many
/// links, and then prints its paper, as `emulate_on` does; or, where no number is given, as `follow_on` does.
///
/// The status is that of these two.
pub fn emulate_by_on<C: Conditions + Drop, W: ByteOut>(
    alloc: Global,
    listener: &TcpListener,
    links: Option<u32>,
    width: LineWidth,
    conditions: C,
    output: &mut W,
) -> Status
    ensures never_usage { result ≢ Status.Usage }
    ensures not_hidden { result ≢ Status.Device → ¬ IsTrue (W.failed output.old) → ¬ IsTrue (W.failed output.new) }
{
    let mut conditions = conditions;
    let condition = conditions.look();
    let Ok(mut printer) = Printer::new(alloc, condition, width) else {
        return say(MEMORY, output, Status::Memory);
    };
    let mut watched = Some(conditions);
    match links {
        Some(links) => emulate_as(alloc, &mut printer, listener, links, &mut watched, output),
        None => follow_as(alloc, &mut printer, listener, &mut watched, output),
    }
}

/// Serves a link as `watch_link` does, and prints its line. `Err` comes only if `output` has failed.
pub fn watch_and_tell<R: Read, A: ByteOut, C: Conditions, W: ByteOut>(
    printer: &mut Printer,
    paper: &mut PaperText,
    number: u32,
    reader: &mut R,
    writer: &mut A,
    conditions: &mut C,
    output: &mut W,
) -> Result<Served, Device>
    ensures watches { IfOk result (WatchesLink
        (watch_view printer.old (R.remaining reader.old) (sink (A.written writer.old) (A.failed writer.old)) (C.to_say conditions.old) paper.old)
        (watch_view printer.new (R.remaining reader.new) (sink (A.written writer.new) (A.failed writer.new)) (C.to_say conditions.new) paper.new)) }
    ensures told { IfOk result (λ served. Appends (W.written output.old) (W.written output.new) (link_line number served)) }
    ensures failed { OnErr result (IsTrue (W.failed output.new)) }
    ensures not_failed { OnOk result (¬ IsTrue (W.failed output.old) → ¬ IsTrue (W.failed output.new)) }
{
    let served = watch_link(printer, paper, reader, writer, conditions);
    tell_link(number, served, output)?;
    Ok(served)
}

/// Serves a link with no paper above, as `follow_link` does, and prints its line and what it printed. `Err` comes only if `output`
/// has failed.
pub fn follow_watched<R: Read, A: ByteOut, C: Conditions, W: ByteOut>(
    alloc: Global,
    printer: &mut Printer,
    number: u32,
    reader: &mut R,
    writer: &mut A,
    conditions: &mut C,
    output: &mut W,
) -> Result<Served, Device>
    ensures watches { IfOk result (λ served. (after : PrinterView) × (text : List ℕ) × WatchesLink
        (watch_view (torn printer.old) (R.remaining reader.old) (sink (A.written writer.old) (A.failed writer.old)) (C.to_say conditions.old) [])
        (watch_view after (R.remaining reader.new) (sink (A.written writer.new) (A.failed writer.new)) (C.to_say conditions.new) text) served
        × (printer.new ≡ torn after)
        × Appends (W.written output.old) (W.written output.new) (link_line number served ++ (text ++ items_text after.sheet.items))) }
    ensures failed { OnErr result (IsTrue (W.failed output.new)) }
    ensures not_failed { OnOk result (¬ IsTrue (W.failed output.old) → ¬ IsTrue (W.failed output.new)) }
{
    printer.tear_off();
    let mut paper = PaperText::new(alloc);
    let served = watch_and_tell(
        printer, &mut paper, number, reader, writer, conditions, output,
    )?;
    paper.put_above(printer.items(), output)?;
    printer.tear_off();
    Ok(served)
}
