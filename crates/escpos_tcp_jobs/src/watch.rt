//! A link to a printer whose sensors are watched: what they say is looked at before each byte, and while the printer is
//! offline, the bytes that came are held, and go on once it is online.
//!
//! The sensors are any `Conditions`: those of a file are in `condition_file`. What a link that isn't watched does is left to
//! `serve_link`, which ends where a printer is offline.

ghost use Rattle.std.specs.Prelude.{◌≡◌, ◌≢◌, ◌≤◌, ◌+◌, ◌++◌, ℕ, List, [], ◌∷◌, Option, None, Some, false, option_to_list, take, IfSome, IsTrue};
ghost use Rattle.std.specs.Io.KnownBytes.{Consumes, IsAtEnd};
ghost use Rattle.escpos_paper.specs.declared.item.Item.{Item};
ghost use Rattle.escpos_paper.specs.ItemsText.{items_text};
ghost use Rattle.escpos_printer.specs.Feeds.{PrinterView};
ghost use Rattle.escpos_printer.specs.LinkInParts.{under};
ghost use Rattle.escpos_printer.specs.Replies.{is_offline};
ghost use Rattle.escpos_printer.specs.declared.condition.Condition.{Condition};
ghost use Rattle.escpos_tcp_jobs.specs.Watched.{Says, Sends, SinkView, Watches, WatchesLink, answered, begun, served_by, sink, watch_view};
ghost use Rattle.escpos_tcp_jobs.specs.WatchSteps.{came_by, end_of, end_with};

use crate::emulate::LINK_LIMIT;
use crate::paper_text::PaperText;
use escpos_command::Answer;
use escpos_io::{ByteOut, put_all};
use escpos_printer::{Condition, FeedStop, LinkEnd, Printer, Served};
use std::io;
use std::io::Read;

/// How often a link is looked after at most, which is more often than any link needs.
const TURNS: u32 = 4_294_967_295;

/// How many items stand on the paper before they are torn off.
const TORN_ITEMS: usize = 1_024;

/// The most bytes of answers that one turn puts out.
const TURN_BYTES: usize = 238;

const _: () = prove!(TURN_BYTES == 238);

/// More bytes of answers than all turns put out.
const MOST_WRITTEN: usize = 1_099_511_627_776;

const _: () = prove!(MOST_WRITTEN == 1_099_511_627_776);

/// What the sensors of a printer say, from time to time.
pub trait Conditions {
    // What is still to be said, where it is known; `None` claims nothing.
    ghost to_say: { Self → Option (List Condition) };

    /// What they say now.
    fn look(&mut self) -> Condition
        ensures { Says (to_say self.old) (to_say self.new) (result ∷ []) };

    /// Waits for less than a tenth of a second.
    fn pause(&mut self)
        ensures { to_say self.new ≡ to_say self.old };
}

/// Sensors that always say the same.
#[derive(Drop)]
pub struct Steady {
    /// What they say.
    pub condition: Condition,
}

impl Conditions for Steady {
    ghost use Rattle.std.specs.Prelude.{None};

    ghost to_say = { λ _. None };

    fn look(&mut self) -> Condition {
        self.condition
    }

    fn pause(&mut self) {}
}

/// How far a watched link was served.
#[derive(Clone, Copy, Debug, PartialEq, Eq)]
pub struct Progress {
    /// The number of bytes that were read.
    pub read: usize,
    /// The number of bytes of answers that were written.
    pub written: usize,
    /// The byte that was read and isn't taken.
    pub held: Option<u8>,
}

impl Progress {
    // What is told of a link that was served this far and ended by this.
    fn served(self, end: LinkEnd) -> Served
        ensures { result ≡ served_by self end }
    {
        let consumed = match self.held {
            Some(_) => self.read.saturating_sub(1),
            None => self.read,
        };
        Served {
            read: self.read,
            consumed,
            written: self.written,
            end,
        }
    }
}

// What a read gave.
enum Arrival {
    // The next byte.
    Byte(u8),
    // No byte has come in the time that a read may take.
    Nothing,
    // The host's bytes have ended.
    Ended,
    // The read failed.
    Failed,
}

/// Serves a link until it ends, looking at what the sensors say before each byte, and whenever a read has waited as long as it may.
///
/// A new condition is set, and the answers that wait are put, its automatic block among them. While the printer is online, the
/// byte that came is fed to it, and its answers are put. While it is offline, that byte is held, no other is read, and no answer is
/// put but a block, until the sensors say that it is online. If the writer fails, the printer still takes what comes, and its
/// answers are dropped; then the end is `WriteFault` in place of `Ended` and `ReadFault`. What the link printed is torn off.
///
/// An error of the kinds `WouldBlock`, `TimedOut` and `Interrupted` is a read that gave nothing, any other ends the link. It also
/// ends by `TooLong` at 16,777,216 bytes, or after 4,294,967,295 looks.
pub fn watch_link<R: Read, A: ByteOut, C: Conditions>(
    printer: &mut Printer,
    paper: &mut PaperText,
    reader: &mut R,
    writer: &mut A,
    conditions: &mut C,
) -> Served
    ensures watches { WatchesLink
        (watch_view printer.old (R.remaining reader.old) (sink (A.written writer.old) (A.failed writer.old)) (C.to_say conditions.old) paper.old)
        (watch_view printer.new (R.remaining reader.new) (sink (A.written writer.new) (A.failed writer.new)) (C.to_say conditions.new) paper.new) result }
    ensures ended { result.end ≡ LinkEnd.Ended → (result.consumed ≡ result.read) × IsAtEnd (R.remaining reader.new) × (¬ IsTrue (A.failed writer.new)) }
    ensures write_fault { result.end ≡ LinkEnd.WriteFault → (result.consumed ≡ result.read) × IsTrue (A.failed writer.new) }
{
    let mut progress = Progress {
        read: 0,
        written: 0,
        held: None,
    };
    let end = take_turns(&mut progress, printer, paper, reader, writer, conditions);
    paper.tear_off(printer);
    progress.served(end_with(writer.has_failed(), end))
}

// Serves a link turn by turn, until it ends.
fn take_turns<R: Read, A: ByteOut, C: Conditions>(
    progress: &mut Progress,
    printer: &mut Printer,
    paper: &mut PaperText,
    reader: &mut R,
    writer: &mut A,
    conditions: &mut C,
) -> LinkEnd
    requires new { progress.old ≡ begun }
    ensures watches { Watches (watch_view printer.old (R.remaining reader.old) (sink (A.written writer.old) (A.failed writer.old)) (C.to_say conditions.old) paper.old progress.old)
        (watch_view printer.new (R.remaining reader.new) (sink (A.written writer.new) (A.failed writer.new)) (C.to_say conditions.new) paper.new progress.new) }
    ensures ended { result ≡ LinkEnd.Ended → (progress.new.held ≡ None) × IsAtEnd (R.remaining reader.new) }
    ensures read_fault { result ≡ LinkEnd.ReadFault → progress.new.held ≡ None }
    ensures no_write_fault { result ≢ LinkEnd.WriteFault }
{
    for _ in 0..TURNS {
        if let Some(end) = take_turn(progress, printer, paper, reader, writer, conditions) {
            return end;
        }
    }
    LinkEnd::TooLong
}

// Waits for a byte, if none is held, and looks at what the sensors say. Then, if the printer is online, a byte that is held is
// offered to it; otherwise it is held on, for a moment.
fn take_turn<R: Read, A: ByteOut, C: Conditions>(
    progress: &mut Progress,
    printer: &mut Printer,
    paper: &mut PaperText,
    reader: &mut R,
    writer: &mut A,
    conditions: &mut C,
) -> Option<LinkEnd>
    requires few { progress.old.written + TURN_BYTES ≤ MOST_WRITTEN }
    ensures watches { Watches (watch_view printer.old (R.remaining reader.old) (sink (A.written writer.old) (A.failed writer.old)) (C.to_say conditions.old) paper.old progress.old)
        (watch_view printer.new (R.remaining reader.new) (sink (A.written writer.new) (A.failed writer.new)) (C.to_say conditions.new) paper.new progress.new) }
    ensures few { progress.new.written ≤ progress.old.written + TURN_BYTES }
    ensures ended { result ≡ Some LinkEnd.Ended → (progress.new.held ≡ None) × IsAtEnd (R.remaining reader.new) }
    ensures read_fault { result ≡ Some LinkEnd.ReadFault → progress.new.held ≡ None }
    ensures no_write_fault { result ≢ Some LinkEnd.WriteFault }
{
    if let Some(end) = hold(progress, reader) {
        return Some(end);
    }
    look(progress, printer, writer, conditions);
    if printer.is_online() {
        let end = offer(progress, printer, writer);
        tear_off(printer, paper);
        return end;
    }
    if progress.held.is_some() {
        conditions.pause();
    }
    None
}

// Holds the next byte, if none is held and one comes. `Some` is why no more can come.
fn hold<R: Read>(progress: &mut Progress, reader: &mut R) -> Option<LinkEnd>
    ensures watches { (p : PrinterView) (s : SinkView) (c : Option (List Condition)) (text : List ℕ) →
        Watches (watch_view p (R.remaining reader.old) s c text progress.old) (watch_view p (R.remaining reader.new) s c text progress.new) }
    ensures same { progress.new.written ≡ progress.old.written }
    ensures none { IfSome result (λ end. progress.new.held ≡ None) }
    ensures ended { result ≡ Some LinkEnd.Ended → IsAtEnd (R.remaining reader.new) }
    ensures no_write_fault { result ≢ Some LinkEnd.WriteFault }
{
    if let Some(_) = progress.held {
        return None;
    }
    if progress.read >= LINK_LIMIT as usize {
        return Some(LinkEnd::TooLong);
    }
    match next_byte(reader) {
        Arrival::Byte(byte) => {
            progress.held = Some(byte);
            progress.read += 1;
            None
        }
        Arrival::Nothing => None,
        Arrival::Ended => Some(LinkEnd::Ended),
        Arrival::Failed => Some(LinkEnd::ReadFault),
    }
}

// The next byte, if one comes in the time that a read may take.
fn next_byte<R: Read>(reader: &mut R) -> Arrival
    ensures comes { Consumes (R.remaining reader.old) (R.remaining reader.new) (came_by result) }
    ensures ended { result ≡ Arrival.Ended → IsAtEnd (R.remaining reader.new) }
{
    let mut piece = [0];
    match reader.read(&mut piece) {
        Ok(0) => Arrival::Ended,
        Ok(_) => Arrival::Byte(piece[0]),
        Err(error) => match error.kind() {
            io::ErrorKind::WouldBlock | io::ErrorKind::TimedOut | io::ErrorKind::Interrupted => {
                Arrival::Nothing
            }
            _ => Arrival::Failed,
        },
    }
}

// Sets what the sensors say now, and puts the answers that wait.
fn look<A: ByteOut, C: Conditions>(
    progress: &mut Progress,
    printer: &mut Printer,
    writer: &mut A,
    conditions: &mut C,
)
    requires few { progress.old.written + TURN_BYTES ≤ MOST_WRITTEN }
    ensures watches { (r : Option (List ℕ)) (text : List ℕ) →
        Watches (watch_view printer.old r (sink (A.written writer.old) (A.failed writer.old)) (C.to_say conditions.old) text progress.old)
        (watch_view printer.new r (sink (A.written writer.new) (A.failed writer.new)) (C.to_say conditions.new) text progress.new) }
    ensures held { progress.new.held ≡ progress.old.held }
    ensures few { progress.new.written ≤ progress.old.written + 119 }
{
    printer.set_condition(conditions.look());
    progress.written += put_answers(printer, writer);
}

// Offers the byte that is held, if there is one, to a printer that is online, and puts its answers. `Some` is why it isn't taken.
fn offer<A: ByteOut>(
    progress: &mut Progress,
    printer: &mut Printer,
    writer: &mut A,
) -> Option<LinkEnd>
    requires online { is_offline printer.old.condition ≡ false }
    requires few { progress.old.written + 119 ≤ MOST_WRITTEN }
    ensures watches { (r : Option (List ℕ)) (c : Option (List Condition)) (text : List ℕ) →
        Watches (watch_view printer.old r (sink (A.written writer.old) (A.failed writer.old)) c text progress.old)
        (watch_view printer.new r (sink (A.written writer.new) (A.failed writer.new)) c text progress.new) }
    ensures few { progress.new.written ≤ progress.old.written + 119 }
    ensures end { IfSome result (λ end. (end ≢ LinkEnd.Ended) × (end ≢ LinkEnd.ReadFault) × (end ≢ LinkEnd.WriteFault)) }
{
    let Some(byte) = progress.held else {
        return None;
    };
    let piece = [byte];
    let fed = printer.feed(&piece);
    progress.held = left_of(byte, fed.consumed);
    progress.written += put_answers(printer, writer);
    end_of(fed.stop)
}

// The byte that is left of one, so much of which was taken.
fn left_of(byte: u8, taken: usize) -> Option<u8>
    ensures { taken ≤ 1 → byte ∷ [] ≡ take taken (byte ∷ []) ++ option_to_list result }
{
    if taken == 0 { Some(byte) } else { None }
}

// Tears the paper off, once many items stand on it.
fn tear_off(printer: &mut Printer, paper: &mut PaperText)
    ensures { (gone : List Item) × (paper.new ≡ paper.old ++ items_text gone) × (printer.old ≡ under gone printer.new) }
{
    if printer.items().len() >= TORN_ITEMS {
        paper.tear_off(printer);
    }
}

// Puts all answers that wait, and returns how many of their bytes went out. Once the writer has failed, they are dropped.
fn put_answers<A: ByteOut>(printer: &mut Printer, writer: &mut A) -> usize
    ensures sends { Sends (sink (A.written writer.old) (A.failed writer.old)) (sink (A.written writer.new) (A.failed writer.new)) result printer.old.waiting }
    ensures left { printer.new ≡ answered printer.old }
    ensures few { result ≤ 119 }
{
    // Proof only: at most 17 answers wait.
    let _ = printer.waiting();
    let mut count = 0;
    while let Some(answer) = printer.take_answer() {
        count += put_answer(answer, writer);
    }
    count
}

// Puts an answer, and returns how many of its bytes went out.
fn put_answer<A: ByteOut>(answer: Answer, writer: &mut A) -> usize
    ensures sends { Sends (sink (A.written writer.old) (A.failed writer.old)) (sink (A.written writer.new) (A.failed writer.new)) result (answer ∷ []) }
    ensures few { result ≤ 7 }
{
    let bytes = answer.bytes();
    match put_all(bytes.as_slice(), writer) {
        Ok(()) => bytes.len(),
        Err(device) => device.written as usize,
    }
}

// How a link ends when a byte isn't taken for this reason; `None` where it goes on.
fn end_of(stop: FeedStop) -> Option<LinkEnd>
    ensures { result ≡ end_of stop }
{
    match stop {
        FeedStop::All | FeedStop::AnswersFull | FeedStop::Offline => None,
        FeedStop::Fault { why, .. } => Some(LinkEnd::Fault { why }),
        FeedStop::Memory => Some(LinkEnd::Memory),
    }
}

// What is told of the end of a link whose writer has failed, or hasn't.
fn end_with(failed: bool, end: LinkEnd) -> LinkEnd
    ensures { result ≡ end_with failed end }
{
    match end {
        LinkEnd::Ended | LinkEnd::ReadFault if failed => LinkEnd::WriteFault,
        other => other,
    }
}
