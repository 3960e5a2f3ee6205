//! Sending a receipt: a host opens a link, puts a receipt out, and waits for the answer to its closing mark.
//!
//! What is said on the link, and what an answer means, is left to the host. This module decides when bytes are put and when
//! answers are read. `specs/Sends.antt` defines the results.

ghost use Rattle.std.specs.Prelude.{◌≡◌, ◌≢◌, ◌↔◌, ◌⊎◌, ◌+◌, ◌<◌, ◌≤◌, max, ℕ, List, [], length, IsTrue, IsErrOf, IfOk, IfErr, OnOk, OnErr};
ghost use Rattle.std.specs.Io.KnownBytes.{Appends, Consumes};
ghost use Rattle.escpos_host.specs.declared.send.SendFault.{SendFault};
ghost use Rattle.escpos_host.specs.Awaits.{Brought, Closes, HearsOut, IsBreak, IsOverlookedEvent, IsSilence, Lost, Opens, RefusesOpening, Silent, Stops, dialled, dialled_by, dialled_reporting, sending, starting, with_out};
ghost use Rattle.escpos_host.specs.Machine.{Down, mark_limit};
ghost use Rattle.escpos_host.specs.Sends.{Call, HasMarks, IsCut, Opened, Sends, Why, most_in_piece, opening_bytes};

use crate::host::{Heard, Host, HostError, HostEvent};
use escpos_io::{ByteIn, ByteOut, Failed, put_all};
use escpos_receipt::Receipt;

/// Why a receipt isn't known to be printed.
#[derive(Clone, Copy, Debug, PartialEq, Eq)]
pub enum SendFault {
    /// The answers have ended.
    Ended,
    /// The reader failed.
    ReadFault,
    /// The writer failed.
    WriteFault,
    /// The reader or the writer had waited as long as it may.
    TimedOut,
    /// As many bytes of answers were read as may be.
    TooLong,
    /// A byte fits no answer.
    BadAnswer,
    /// The host refused to open the link, or to take the receipt.
    Refused(HostError),
}

impl SendFault {
    ghost use Rattle.escpos_host.specs.Refusals.{fault_name};

    /// Why a reader that has failed gives no more.
    pub fn of_reader<R: ByteIn>(reader: &R) -> Self
        ensures timed_out { IsTrue (R.timed_out reader.now) → result ≡ SendFault.TimedOut }
        ensures other { ¬ IsTrue (R.timed_out reader.now) → result ≡ SendFault.ReadFault }
    {
        if reader.has_timed_out() {
            SendFault::TimedOut
        } else {
            SendFault::ReadFault
        }
    }

    /// Why a writer that has failed takes no more.
    pub fn of_writer<W: ByteOut>(writer: &W) -> Self
        ensures timed_out { IsTrue (W.timed_out writer.now) → result ≡ SendFault.TimedOut }
        ensures other { ¬ IsTrue (W.timed_out writer.now) → result ≡ SendFault.WriteFault }
    {
        if writer.has_timed_out() {
            SendFault::TimedOut
        } else {
            SendFault::WriteFault
        }
    }

    /// The name that programs print; for `Refused` it is that of the host's reason.
    pub fn name(self) -> &'static str
        ensures value { result.now ≡ fault_name self }
        ensures short { length result.now ≤ 12 }
    {
        match self {
            SendFault::Ended => "Ended",
            SendFault::ReadFault => "ReadFault",
            SendFault::WriteFault => "WriteFault",
            SendFault::TimedOut => "TimedOut",
            SendFault::TooLong => "TooLong",
            SendFault::BadAnswer => "BadAnswer",
            SendFault::Refused(why) => why.name(),
        }
    }
}

/// What became of a receipt.
#[derive(Debug, Drop)]
pub enum Sent {
    /// The receipt is printed: it is the record with this number, counted from 0.
    Recorded(usize),
    /// The receipt isn't known to be printed, and is returned.
    NotRecorded { why: SendFault, receipt: Receipt },
}

// An event that isn't overlooked.
#[derive(Clone, Copy)]
struct Awaited {
    event: HostEvent,
    // how many bytes were read in all
    read: usize,
    // how many bytes the last piece has, and how many of them were heard
    count: usize,
    heard: usize,
}

// The most bytes of answers that one call of `pull` asks for.
const PIECE_BYTES: usize = 64;

const _: () = prove!(PIECE_BYTES == 64);

// The most bytes that are put at a time.
const PUT_BYTES: usize = 512;

const _: () = prove!(PUT_BYTES == 512);

/// Sends a receipt over a link and waits until it is recorded as printed.
///
/// It brings the host's link up and puts out `openings` opening marks (0 counts as 1). Once one of them is answered, and
/// the piece of answers in which that came is heard, it submits the receipt; when the receipt's closing mark is answered,
/// the receipt is recorded (Reference: GS ( H, function 48). Answers are read in pieces of at most 64 bytes, `max_bytes` in
/// all, with at most `max_bytes` + 1 calls of `pull`; what is left of the last piece is dropped.
///
/// If the receipt isn't recorded, it is returned. Then the host's records are as before, and its link is down. If the
/// host's link was up before the call, the host is left as it was, and nothing is read or written. Receipts that an older link
/// left are dropped once the opening marks are put out.
pub fn send_link<R: ByteIn, W: ByteOut>(
    host: &mut Host,
    receipt: Receipt,
    openings: u32,
    reader: &mut R,
    writer: &mut W,
    max_bytes: u32,
) -> Sent
    ensures sends { (bytes : List ℕ) × (out : List ℕ) × Consumes (R.to_come reader.old) (R.to_come reader.new) bytes
        × Appends (W.written writer.old) (W.written writer.new) out × (length bytes ≤ max_bytes)
        × Sends (record { before = host.old; receipt = receipt; openings = max openings 1; most = max_bytes }) bytes out result host.new }
    ensures ended { Why result SendFault.Ended → IsTrue (R.ended reader.new) }
    ensures read_fault { Why result SendFault.ReadFault → IsTrue (R.failed reader.new) × (¬ IsTrue (R.timed_out reader.new)) }
    ensures write_fault { Why result SendFault.WriteFault → IsTrue (W.failed writer.new) × (¬ IsTrue (W.timed_out writer.new)) }
    ensures timed_out { Why result SendFault.TimedOut
        → (IsTrue (R.failed reader.new) × IsTrue (R.timed_out reader.new)) ⊎ (IsTrue (W.failed writer.new) × IsTrue (W.timed_out writer.new)) }
    ensures reader_well { ¬ IsTrue (R.failed reader.old) → (Why result SendFault.ReadFault → ⊥) → (Why result SendFault.TimedOut → ¬ IsTrue (R.timed_out reader.new))
        → ¬ IsTrue (R.failed reader.new) }
    ensures writer_well { ¬ IsTrue (W.failed writer.old) → (Why result SendFault.WriteFault → ⊥) → (Why result SendFault.TimedOut → ¬ IsTrue (W.timed_out writer.new))
        → ¬ IsTrue (W.failed writer.new) }
    ensures pulls { R.pull_count reader.new ≤ R.pull_count reader.old + max_bytes + 1 }
{
    if let Err(why) = open_link(host, openings) {
        return Sent::NotRecorded {
            why: SendFault::Refused(why),
            receipt,
        };
    }
    host.drop_left();
    let most = max_bytes as usize;
    let read = match await_opened(host, reader, writer, most) {
        Ok(read) => read,
        Err(why) => {
            host.link_down();
            return Sent::NotRecorded { why, receipt };
        }
    };
    if let Err((why, receipt)) = host.submit(receipt) {
        host.link_down();
        return Sent::NotRecorded {
            why: SendFault::Refused(why),
            receipt,
        };
    }
    match await_recorded(host, reader, writer, most - read) {
        Ok(number) => Sent::Recorded(number),
        Err(why) => {
            host.link_down();
            Sent::NotRecorded {
                why,
                receipt: host.take_left().unwrap(),
            }
        }
    }
}

/// Brings a host's link up and puts out this many opening marks; 0 counts as 1. If one of them is refused, the link is given up.
/// What an older link left stays.
pub fn open_link(host: &mut Host, openings: u32) -> Result<(), HostError>
    ensures opened { OnOk result ((host.old.phase ≡ Down) × (host.new ≡ dialled host.old (max openings 1))) }
    ensures marks { OnOk result (host.old.next + max openings 1 ≤ mark_limit host.old) }
    ensures refused { IfErr result (λ why. RefusesOpening why host.old (max openings 1) host.new) }
{
    dial(host, openings, false)
}

/// Brings a host's link up as `open_link` does, with a request for automatic status before the opening marks. (Reference: GS a.)
pub fn open_link_reporting(host: &mut Host, openings: u32) -> Result<(), HostError>
    ensures opened { OnOk result ((host.old.phase ≡ Down) × (host.new ≡ dialled_reporting host.old (max openings 1))) }
    ensures marks { OnOk result (host.old.next + max openings 1 ≤ mark_limit host.old) }
    ensures refused { IfErr result (λ why. RefusesOpening why host.old (max openings 1) host.new) }
{
    dial(host, openings, true)
}

// Brings a host's link up, with a request for automatic status or without, and puts out this many opening marks; 0 counts as 1.
fn dial(host: &mut Host, openings: u32, reporting: bool) -> Result<(), HostError>
    ensures opened { OnOk result ((host.old.phase ≡ Down) × (host.new ≡ dialled_by reporting host.old (max openings 1))) }
    ensures marks { OnOk result (host.old.next + max openings 1 ≤ mark_limit host.old) }
    ensures refused { IfErr result (λ why. RefusesOpening why host.old (max openings 1) host.new) }
{
    host.open(reporting)?;
    for _ in 1..openings {
        if let Err(why) = host.nudge() {
            host.link_down();
            return Err(why);
        }
    }
    Ok(())
}

// Puts the opening marks out and waits for an answer to one of them. The whole piece in which it comes is heard. Returns
// how many bytes were read.
fn await_opened<R: ByteIn, W: ByteOut>(
    host: &mut Host,
    reader: &mut R,
    writer: &mut W,
    most: usize,
) -> Result<usize, SendFault>
    requires up { host.old.phase ≢ Down }
    ensures opens { IfOk result (λ read. (c : Call) → host.old ≡ starting c
        → Opens c (R.to_come reader.old) (R.to_come reader.new) (W.written writer.old) (W.written writer.new) read host.new) }
    ensures within { IfOk result (λ read. read ≤ most) }
    ensures pulls { IfOk result (λ read. R.pull_count reader.new ≤ R.pull_count reader.old + read) }
    ensures stops { IfErr result (λ why. (c : Call) → host.old ≡ starting c → HasMarks c c.openings → c.most ≡ most
        → Stops c [] [] (R.to_come reader.old) (R.to_come reader.new) (W.written writer.old) (W.written writer.new) most why c.openings) }
    ensures lost { OnErr result ((c : Call) → host.old ≡ starting c → Lost host.old host.new) }
    ensures pulls_err { OnErr result (R.pull_count reader.new ≤ R.pull_count reader.old + most + 1) }
    ensures ended { IsErrOf result SendFault.Ended → IsTrue (R.ended reader.new) }
    ensures read_fault { IsErrOf result SendFault.ReadFault → IsTrue (R.failed reader.new) × (¬ IsTrue (R.timed_out reader.new)) }
    ensures write_fault { IsErrOf result SendFault.WriteFault → IsTrue (W.failed writer.new) × (¬ IsTrue (W.timed_out writer.new)) }
    ensures timed_out { IsErrOf result SendFault.TimedOut
        → (IsTrue (R.failed reader.new) × IsTrue (R.timed_out reader.new)) ⊎ (IsTrue (W.failed writer.new) × IsTrue (W.timed_out writer.new)) }
    ensures reader_well { ¬ IsErrOf result SendFault.ReadFault → (IsErrOf result SendFault.TimedOut → ¬ IsTrue (R.timed_out reader.new))
        → ¬ IsTrue (R.failed reader.old) → ¬ IsTrue (R.failed reader.new) }
    ensures writer_well { ¬ IsErrOf result SendFault.WriteFault → (IsErrOf result SendFault.TimedOut → ¬ IsTrue (W.timed_out writer.new))
        → ¬ IsTrue (W.failed writer.old) → ¬ IsTrue (W.failed writer.new) }
{
    put_out(host, writer)?;
    let mut piece = [0; PIECE_BYTES];
    let awaited = await_event(host, reader, &mut piece, most)?;
    let HostEvent::Opened = awaited.event else {
        return Err(SendFault::BadAnswer);
    };
    match hear(host, &piece[awaited.heard..awaited.count]).event {
        HostEvent::None => Ok(awaited.read),
        _ => Err(SendFault::BadAnswer),
    }
}

// Puts the receipt out and waits for the answer to its closing mark. Returns the number of its record.
fn await_recorded<R: ByteIn, W: ByteOut>(
    host: &mut Host,
    reader: &mut R,
    writer: &mut W,
    most: usize,
) -> Result<usize, SendFault>
    requires up { host.old.phase ≢ Down }
    ensures closes { IfOk result (λ number. (c : Call) (early half : List ℕ) (heard : ℕ) → host.old ≡ sending c half heard → Opened c early half
        → Closes c early (R.to_come reader.old) (R.to_come reader.new) (W.written writer.old) (W.written writer.new) most number host.new) }
    ensures pulls { R.pull_count reader.new ≤ R.pull_count reader.old + most + 1 }
    ensures stops { IfErr result (λ why. (c : Call) (early half : List ℕ) (heard : ℕ) → host.old ≡ sending c half heard → Opened c early half → HasMarks c (c.openings + 1) → c.most ≡ length early + most
        → Stops c early (opening_bytes c) (R.to_come reader.old) (R.to_come reader.new) (W.written writer.old) (W.written writer.new) most why (c.openings + 1)) }
    ensures lost { OnErr result ((c : Call) (half : List ℕ) (heard : ℕ) → host.old ≡ sending c half heard → Lost host.old host.new) }
    ensures ended { IsErrOf result SendFault.Ended → IsTrue (R.ended reader.new) }
    ensures read_fault { IsErrOf result SendFault.ReadFault → IsTrue (R.failed reader.new) × (¬ IsTrue (R.timed_out reader.new)) }
    ensures write_fault { IsErrOf result SendFault.WriteFault → IsTrue (W.failed writer.new) × (¬ IsTrue (W.timed_out writer.new)) }
    ensures timed_out { IsErrOf result SendFault.TimedOut
        → (IsTrue (R.failed reader.new) × IsTrue (R.timed_out reader.new)) ⊎ (IsTrue (W.failed writer.new) × IsTrue (W.timed_out writer.new)) }
    ensures reader_well { ¬ IsErrOf result SendFault.ReadFault → (IsErrOf result SendFault.TimedOut → ¬ IsTrue (R.timed_out reader.new))
        → ¬ IsTrue (R.failed reader.old) → ¬ IsTrue (R.failed reader.new) }
    ensures writer_well { ¬ IsErrOf result SendFault.WriteFault → (IsErrOf result SendFault.TimedOut → ¬ IsTrue (W.timed_out writer.new))
        → ¬ IsTrue (W.failed writer.old) → ¬ IsTrue (W.failed writer.new) }
{
    put_out(host, writer)?;
    let mut piece = [0; PIECE_BYTES];
    let awaited = await_event(host, reader, &mut piece, most)?;
    match awaited.event {
        HostEvent::Recorded(number) => Ok(number),
        _ => Err(SendFault::BadAnswer),
    }
}

// Puts all that the host has to say into the writer.
fn put_out<W: ByteOut>(host: &mut Host, writer: &mut W) -> Result<(), SendFault>
    ensures all { OnOk result (Appends (W.written writer.old) (W.written writer.new) host.old.out) }
    ensures taken { OnOk result (host.new ≡ with_out host.old []) }
    ensures some { OnErr result ((out : List ℕ) × Appends (W.written writer.old) (W.written writer.new) out × IsCut host.old.out out) }
    ensures some_taken { OnErr result (host.new ≡ with_out host.old host.new.out) }
    ensures why { IfErr result IsBreak }
    ensures write_fault { IsErrOf result SendFault.WriteFault → ¬ IsTrue (W.timed_out writer.new) }
    ensures timed_out { IsErrOf result SendFault.TimedOut → IsTrue (W.timed_out writer.new) }
    ensures failed { OnErr result (IsTrue (W.failed writer.new)) }
    ensures not_failed { OnOk result (¬ IsTrue (W.failed writer.old) → ¬ IsTrue (W.failed writer.new)) }
{
    let mut piece = [0; PUT_BYTES];
    while host.has_out() {
        let count = host.take_out(&mut piece);
        if let Err(_) = put_all(&piece[..count], writer) {
            return Err(SendFault::of_writer(writer));
        }
    }
    Ok(())
}

// Reads answers until one of them brings an event that isn't overlooked.
fn await_event<R: ByteIn>(
    host: &mut Host,
    reader: &mut R,
    piece: &mut [u8],
    most: usize,
) -> Result<Awaited, SendFault>
    requires up { host.old.phase ≢ Down }
    requires room { length piece.old ≡ most_in_piece }
    ensures brought { IfOk result (λ awaited. Brought host.old (R.to_come reader.old) (R.to_come reader.new) piece.new awaited host.new) }
    ensures within { IfOk result (λ awaited. awaited.read ≤ most) }
    ensures pulls { IfOk result (λ awaited. R.pull_count reader.new ≤ R.pull_count reader.old + awaited.read) }
    ensures silent { IfErr result (λ why. Silent host.old (R.to_come reader.old) (R.to_come reader.new) most why host.new) }
    ensures silence { IfErr result (λ why. IsSilence why) }
    ensures pulls_err { OnErr result (R.pull_count reader.new ≤ R.pull_count reader.old + most + 1) }
    ensures ended { IsErrOf result SendFault.Ended → IsTrue (R.ended reader.new) }
    ensures failed { IsErrOf result SendFault.ReadFault → IsTrue (R.failed reader.new) × (¬ IsTrue (R.timed_out reader.new)) }
    ensures timed_out { IsErrOf result SendFault.TimedOut → IsTrue (R.failed reader.new) × IsTrue (R.timed_out reader.new) }
    ensures not_failed { ¬ IsErrOf result SendFault.ReadFault → ¬ IsErrOf result SendFault.TimedOut
        → ¬ IsTrue (R.failed reader.old) → ¬ IsTrue (R.failed reader.new) }
{
    // Proof only: a list of answers is read in one way, wherever it is cut; the host holds nothing or a half answer.
    host.is_sound();
    let mut read = 0;
    while read < most {
        let asked = piece.len().min(most - read);
        let count = match reader.pull(&mut piece[..asked]) {
            Ok(count) => count,
            Err(Failed) => return Err(SendFault::of_reader(reader)),
        };
        if count == 0 {
            return Err(SendFault::Ended);
        }
        read += count;
        let heard = hear(host, &piece[..count]);
        let HostEvent::None = heard.event else {
            return Ok(Awaited {
                event: heard.event,
                read,
                count,
                heard: heard.consumed,
            });
        };
    }
    Err(SendFault::TooLong)
}

// Hears bytes up to the first event that isn't overlooked.
fn hear(host: &mut Host, bytes: &[u8]) -> Heard
    requires { host.old.phase ≢ Down }
    ensures { HearsOut host.old bytes.now result.consumed result.event host.new }
{
    // Proof only: a list of answers is read in one way, wherever it is cut; the host holds nothing or a half answer.
    host.is_sound();
    let mut taken = 0;
    loop {
        let heard = host.heard(&bytes[taken..]);
        taken += heard.consumed;
        if is_overlooked(heard.event) {
            continue;
        }
        return Heard {
            consumed: taken,
            event: heard.event,
        };
    }
}

// Whether an event is overlooked: a status, a condition, or the answer to a mark of an older link.
fn is_overlooked(event: HostEvent) -> bool
    ensures { IsTrue result ↔ IsOverlookedEvent event }
{
    matches!(
        event,
        HostEvent::Late(_) | HostEvent::Status(_) | HostEvent::Condition(_)
    )
}
