//! The effects of events on a line, as lines of text appended to the bytes that a gather keeps back.

ghost use Rattle.std.specs.Prelude.{◌≡◌, ◌+◌, ◌≤◌, ◌++◌, length};
ghost use Rattle.escpos_script.specs.ScriptOutput.{handed_text, heard_text, records_line, refused_line, stop_text, event_line, unreadable_line};

use escpos_command::LF;
use escpos_host::HostEvent;
use escpos_io::{GATHERED_BYTES, Gather, append_number};
use escpos_job_parts::lines::{SPACE, append_byte, append_bytes};
use escpos_job_parts::refusal::append_place;
use escpos_link::{Handed, Note, Refusal};
use escpos_printer::FeedStop;

/// More bytes than the line of an event has.
pub const EVENT_BYTES: usize = 128;

const _: () = prove!(EVENT_BYTES == 128);

/// Appends the line of an event.
pub fn append_note(gather: &mut Gather, note: Note)
    requires { length gather.old.kept + EVENT_BYTES ≤ GATHERED_BYTES }
    ensures kept { gather.new.kept ≡ gather.old.kept ++ event_line note }
    ensures same_count { gather.new.written ≡ gather.old.written }
{
    match note {
        Note::Done => gather.extend(b"ok"),
        Note::Moved(count) => {
            gather.extend(b"moved ");
            append_number(gather, count);
        }
        Note::Fed(fed) => {
            gather.extend(b"fed ");
            append_number(gather, fed.consumed);
            gather.push(SPACE);
            append_stop(gather, fed.stop);
        }
        Note::Handed(handed) => {
            gather.extend(b"handed ");
            gather.extend(name_of_handed(handed).as_bytes());
        }
        Note::Heard { consumed, last } => {
            gather.extend(b"heard ");
            append_number(gather, consumed);
            gather.push(SPACE);
            append_heard(gather, last);
        }
    }
    gather.push(LF);
}

/// Appends the line of an event that was refused.
pub fn append_refused(gather: &mut Gather, why: Refusal)
    requires { length gather.old.kept + EVENT_BYTES ≤ GATHERED_BYTES }
    ensures kept { gather.new.kept ≡ gather.old.kept ++ refused_line why }
    ensures same_count { gather.new.written ≡ gather.old.written }
{
    gather.extend(b"refused ");
    append_number(gather, usize::from(why.number()));
    gather.push(SPACE);
    gather.extend(why.name().as_bytes());
    append_place(gather, why.least().map(|least| least as usize));
    gather.push(LF);
}

/// Appends the line that says which line of a script can't be read.
pub fn append_unreadable(gather: &mut Gather, number: usize)
    requires { length gather.old.kept + EVENT_BYTES ≤ GATHERED_BYTES }
    ensures kept { gather.new.kept ≡ gather.old.kept ++ unreadable_line number }
    ensures same_count { gather.new.written ≡ gather.old.written }
{
    gather.extend(b"line ");
    append_number(gather, number);
    gather.extend(b" unreadable\n");
}

/// Appends the last line of a script's output.
pub fn append_records(gather: &mut Gather, count: usize)
    requires { length gather.old.kept + EVENT_BYTES ≤ GATHERED_BYTES }
    ensures kept { gather.new.kept ≡ gather.old.kept ++ records_line count }
    ensures same_count { gather.new.written ≡ gather.old.written }
{
    gather.extend(b"records ");
    append_number(gather, count);
    gather.push(LF);
}

// Appends why feeding stopped.
fn append_stop(gather: &mut Gather, stop: FeedStop)
    requires { length gather.old.kept + 64 ≤ GATHERED_BYTES }
    ensures kept { gather.new.kept ≡ gather.old.kept ++ stop_text stop }
    ensures same_count { gather.new.written ≡ gather.old.written }
    ensures short { length (stop_text stop) ≤ 64 }
{
    match stop {
        FeedStop::All => gather.extend(b"all"),
        FeedStop::AnswersFull => gather.extend(b"full"),
        FeedStop::Offline => gather.extend(b"offline"),
        FeedStop::Fault { why, .. } => {
            gather.extend(b"fault ");
            append_number(gather, usize::from(why.number()));
            gather.push(SPACE);
            gather.extend(why.name().as_bytes());
        }
        FeedStop::Memory => gather.extend(b"memory"),
    }
}

// The name of what became of an answer.
fn name_of_handed(handed: Handed) -> &'static str
    ensures value { result.now ≡ handed_text handed }
    ensures short { length result.now ≤ 4 }
{
    match handed {
        Handed::None => "none",
        Handed::Lost => "lost",
        Handed::On => "on",
    }
}

// Appends the last event that was heard. An answer to a mark of an older link is none of this one's.
fn append_heard(gather: &mut Gather, last: HostEvent)
    requires { length gather.old.kept + 64 ≤ GATHERED_BYTES }
    ensures kept { gather.new.kept ≡ gather.old.kept ++ heard_text last }
    ensures same_count { gather.new.written ≡ gather.old.written }
    ensures short { length (heard_text last) ≤ 64 }
{
    match last {
        HostEvent::None | HostEvent::Late(_) => gather.extend(b"none"),
        HostEvent::Opened => gather.extend(b"opened"),
        HostEvent::Recorded(number) => {
            gather.extend(b"recorded ");
            append_number(gather, number);
        }
        HostEvent::Status(byte) => {
            gather.extend(b"status");
            append_byte(gather, byte);
        }
        HostEvent::Condition(block) => {
            gather.extend(b"condition");
            append_bytes(gather, &block.bytes());
        }
        HostEvent::BadAnswer { .. } => gather.extend(b"bad"),
    }
}
