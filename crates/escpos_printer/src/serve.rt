//! Serving a link: bytes come from the host, and answers go back to it.
//!
//! What the bytes mean is left to the printer. This module decides when bytes are read and when answers are written: all
//! answers that wait are written before each read, and before the link ends.

ghost use Rattle.std.specs.Prelude.{◌≡◌, ◌≢◌, ◌≤◌, ◌*◌, ◌+◌, [], length, Some, IsTrue, IfOk, IfErr, OnOk, OnErr};
ghost use Rattle.escpos_printer.specs.Serves.{Serves, AllOut, CutOff, IsCarried, after_byte, link, sent};
ghost use Rattle.escpos_printer.specs.ServeSteps.{IsWithinPiece, end_of};
ghost use Rattle.escpos_printer.specs.declared.serve.LinkEnd.{LinkEnd};

use crate::printer::{FeedStop, Printer};
use escpos_command::FaultReason;
use escpos_io::{ByteIn, ByteOut, Failed, put_all};

/// How serving a link ended.
#[derive(Clone, Copy, Debug, PartialEq, Eq)]
pub enum LinkEnd {
    /// The host's bytes have ended.
    Ended,
    /// The link's limit was reached: as many bytes as it may have were read and taken.
    TooLong,
    /// A byte was refused.
    Fault { why: FaultReason },
    /// A byte would complete a command other than a status request, and the printer is offline.
    Offline,
    /// The reader failed.
    ReadFault,
    /// The writer failed. The answer that was being written is lost, and the later ones still wait.
    WriteFault,
    /// Out of memory for a byte.
    Memory,
}

impl LinkEnd {
    ghost use Rattle.escpos_printer.specs.LinkEnds.{end_name};

    /// The name that programs print. It doesn't say why a byte was refused.
    pub fn name(self) -> &'static str
        ensures value { result.now ≡ end_name self }
        ensures short { length result.now ≤ 10 }
    {
        match self {
            LinkEnd::Ended => "Ended",
            LinkEnd::TooLong => "TooLong",
            LinkEnd::Fault { .. } => "Fault",
            LinkEnd::Offline => "Offline",
            LinkEnd::ReadFault => "ReadFault",
            LinkEnd::WriteFault => "WriteFault",
            LinkEnd::Memory => "Memory",
        }
    }
}

/// How far a link was served.
#[derive(Clone, Copy, Debug, PartialEq, Eq)]
pub struct Served {
    /// The number of bytes that were read.
    pub read: usize,
    /// How many of them the printer took.
    pub consumed: usize,
    /// The number of bytes of answers that were written.
    pub written: usize,
    /// Why the printer took no more bytes.
    pub end: LinkEnd,
}

impl Served {
    // For a link from which the printer took all bytes that were read.
    fn all_taken(read: usize, written: usize, end: LinkEnd) -> Self
        ensures { result ≡ record { read = read; consumed = read; written = written; end = end } }
    {
        Served {
            read,
            consumed: read,
            written,
            end,
        }
    }
}

/// How many bytes of a piece the printer took, and how many bytes of its answers went to the host.
#[derive(Clone, Copy, Debug, PartialEq, Eq)]
struct Carried {
    /// How many bytes the printer took.
    consumed: usize,
    /// The number of bytes of answers that were written.
    written: usize,
    /// Why the link ended; `None` where the printer took all bytes.
    end: Option<LinkEnd>,
}

// The most bytes that one call of `pull` asks for.
const PIECE_BYTES: usize = 512;

const _: () = prove!(PIECE_BYTES == 512);

/// Serves a link until it ends: reads the host's bytes in pieces of at most 512, feeds them to the printer, and writes its
/// answers, all of them before each read and before any end. Only the page and the decoder allocate.
///
/// It reads at most `max_bytes` bytes, and calls `pull` at most `max_bytes` + 1 times. Bytes that were read and not taken
/// are lost. If the writer fails, the end is `WriteFault`, whatever else has happened: the answer that was being written is
/// lost, and the later ones still wait.
pub fn serve_link<R: ByteIn, W: ByteOut>(
    printer: &mut Printer,
    reader: &mut R,
    writer: &mut W,
    max_bytes: u32,
) -> Served
    ensures served { Serves printer.old (link (R.to_come reader.old) (R.to_come reader.new) (W.written writer.old) (W.written writer.new))
        max_bytes result printer.new }
    ensures ended { result.end ≡ LinkEnd.Ended → IsTrue (R.ended reader.new) }
    ensures read_fault { result.end ≡ LinkEnd.ReadFault → IsTrue (R.failed reader.new) }
    ensures write_fault { result.end ≡ LinkEnd.WriteFault → IsTrue (W.failed writer.new) }
    ensures reader_well { ¬ IsTrue (R.failed reader.old) → result.end ≢ LinkEnd.ReadFault → ¬ IsTrue (R.failed reader.new) }
    ensures writer_well { ¬ IsTrue (W.failed writer.old) → result.end ≢ LinkEnd.WriteFault → ¬ IsTrue (W.failed writer.new) }
    ensures pulls { R.pull_count reader.new ≤ R.pull_count reader.old + max_bytes + 1 }
    // Each byte completes at most one command, and up to 17 answers may have waited before the first.
    ensures few { result.written ≤ 116 + 232 * result.read }
{
    // Proof only: no more answers wait than may.
    printer.is_sound();
    let most = max_bytes as usize;
    let mut piece = [0; PIECE_BYTES];
    let mut read = 0;
    let mut written = match put_answers(printer, writer) {
        Ok(count) => count,
        Err(written) => return Served::all_taken(0, written, LinkEnd::WriteFault),
    };
    while read < most {
        let asked = PIECE_BYTES.min(most - read);
        let count = match reader.pull(&mut piece[..asked]) {
            Ok(count) => count,
            Err(Failed) => return Served::all_taken(read, written, LinkEnd::ReadFault),
        };
        if count == 0 {
            return Served::all_taken(read, written, LinkEnd::Ended);
        }
        let carried = serve_piece(printer, writer, &piece[..count]);
        written += carried.written;
        if let Some(end) = carried.end {
            return Served {
                read: read + count,
                consumed: read + carried.consumed,
                written,
                end,
            };
        }
        read += count;
    }
    Served::all_taken(read, written, LinkEnd::TooLong)
}

// Writes all answers that wait, at once, and returns how many bytes that were. `Err` is the number of bytes that were written
// before the writer failed.
fn put_answers<W: ByteOut>(printer: &mut Printer, writer: &mut W) -> Result<usize, usize>
    ensures all { IfOk result (λ n. AllOut (sent (W.written writer.old) (W.written writer.new)) printer.old.waiting n printer.new.waiting) }
    ensures some { IfErr result (λ n. CutOff (sent (W.written writer.old) (W.written writer.new)) printer.old.waiting n printer.new.waiting) }
    ensures same { (printer.new.sheet ≡ printer.old.sheet) × (printer.new.half ≡ printer.old.half) × (printer.new.condition ≡ printer.old.condition) × (printer.new.automatic ≡ printer.old.automatic) }
    ensures few { IfOk result (λ n. n ≤ 116) }
    ensures few_err { IfErr result (λ n. n ≤ 116) }
    ensures failed { OnErr result (IsTrue (W.failed writer.new)) }
    ensures not_failed { OnOk result (¬ IsTrue (W.failed writer.old) → ¬ IsTrue (W.failed writer.new)) }
{
    let bytes = printer.answer_bytes();
    match put_all(bytes.as_slice(), writer) {
        Ok(()) => {
            drop_through(printer, bytes.len());
            Ok(bytes.len())
        }
        Err(device) => {
            let written = device.written as usize;
            drop_through(printer, written);
            Err(written)
        }
    }
}

// Drops the answers up to the one that holds byte `at` of the bytes of all that wait, counted from 0.
fn drop_through(printer: &mut Printer, at: usize)
    ensures later { printer.new.waiting ≡ after_byte printer.old.waiting at }
    ensures same { (printer.new.sheet ≡ printer.old.sheet) × (printer.new.half ≡ printer.old.half) × (printer.new.condition ≡ printer.old.condition) × (printer.new.automatic ≡ printer.old.automatic) }
{
    let mut at = at;
    while let Some(answer) = printer.take_answer() {
        let count = answer.bytes().len();
        if at < count {
            return;
        }
        at -= count;
    }
}

// Feeds a piece to a printer in which no answer waits, and writes its answers.
fn serve_piece<W: ByteOut>(printer: &mut Printer, writer: &mut W, piece: &[u8]) -> Carried
    requires none { printer.old.waiting ≡ [] }
    requires short { length piece.now ≤ 512 }
    ensures carried { IsCarried printer.old piece.now (sent (W.written writer.old) (W.written writer.new)) result printer.new }
    ensures few { result.written ≤ 116 * (result.consumed + 1) }
    ensures end { IsWithinPiece result.end }
    ensures failed { result.end ≡ Some LinkEnd.WriteFault → IsTrue (W.failed writer.new) }
    ensures not_failed { ¬ IsTrue (W.failed writer.old) → result.end ≢ Some LinkEnd.WriteFault → ¬ IsTrue (W.failed writer.new) }
{
    // Proof only: the half command is nothing or the start of a spelling.
    printer.is_sound();
    let mut consumed = 0;
    let mut written = 0;
    loop {
        let fed = printer.feed(&piece[consumed..]);
        consumed += fed.consumed;
        match put_answers(printer, writer) {
            Ok(count) => written += count,
            Err(count) => {
                return Carried {
                    consumed,
                    written: written + count,
                    end: Some(LinkEnd::WriteFault),
                };
            }
        }
        if let FeedStop::AnswersFull = fed.stop {
            continue;
        }
        return Carried {
            consumed,
            written,
            end: end_of(fed.stop),
        };
    }
}

// How a link ends when feeding stops for this reason; `None` if the link goes on, perhaps after answers are written.
fn end_of(stop: FeedStop) -> Option<LinkEnd>
    ensures { result ≡ end_of stop }
{
    match stop {
        FeedStop::All | FeedStop::AnswersFull => None,
        FeedStop::Fault { why, .. } => Some(LinkEnd::Fault { why }),
        FeedStop::Offline => Some(LinkEnd::Offline),
        FeedStop::Memory => Some(LinkEnd::Memory),
    }
}
