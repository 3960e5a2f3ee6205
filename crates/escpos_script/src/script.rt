//! Play scripts: a text whose lines each name an event on a line between a host and a printer.

ghost use Rattle.std.specs.Prelude.{◌≡◌, ◌≢◌, ◌<◌, [], length};
ghost use Rattle.escpos_script.specs.ScriptLines.{IsFirstLine};

use escpos_command::{LF, StatusKind};
use escpos_job_parts::condition::condition_of;
use escpos_job_parts::lines::SPACE;
use escpos_link::Event;
use escpos_receipt::{JsonError, JsonFault, Receipt};
use std::alloc::Global;

/// Why a line of a script names no event.
#[derive(Clone, Copy, Debug, PartialEq, Eq)]
pub enum NoEvent {
    /// It isn't a line of a script.
    Unreadable,
    /// The text that is to be printed isn't a receipt.
    NoReceipt(JsonFault),
    /// Out of memory.
    Memory,
}

impl From<JsonError> for NoEvent {
    fn from(error: JsonError) -> Self {
        match error {
            JsonError::Refused(fault) => NoEvent::NoReceipt(fault),
            JsonError::Memory => NoEvent::Memory,
        }
    }
}

/// The first line of a text that isn't empty, without its end, and what follows it.
pub fn first_line(text: &[u8]) -> (&[u8], &[u8])
    requires { text.now ≢ [] }
    ensures first { IsFirstLine text.now result.0.now result.1.now }
    ensures shorter { length result.1.now < length text.now }
{
    let mut at = 0;
    while at < text.len() {
        if text[at] == LF {
            return (&text[..at], &text[at + 1..]);
        }
        at += 1;
    }
    (text, &[])
}

/// The event that a line of a script names.
pub fn event_of(alloc: Global, line: &[u8]) -> Result<Event, NoEvent> {
    let (word, value) = word_and_value(line);
    match value {
        None => plain_event(word).ok_or(NoEvent::Unreadable),
        Some(json) if word == b"submit".as_slice() => Ok(Event::Submit(Receipt::from_json(
            alloc, json,
        )?)),
        Some(value) => event_with(word, value).ok_or(NoEvent::Unreadable),
    }
}

// The first word of a line, and what follows the first space, if there is one.
fn word_and_value(line: &[u8]) -> (&[u8], Option<&[u8]>) {
    match line.iter().position(|byte| *byte == SPACE) {
        Some(at) => (&line[..at], Some(&line[at + 1..])),
        None => (line, None),
    }
}

// The event of a word that needs no value.
fn plain_event(word: &[u8]) -> Option<Event> {
    match word {
        b"linkup" => Some(Event::LinkUp),
        b"linkup-reports" => Some(Event::LinkUpReporting),
        b"ask-reports" => Some(Event::AskReports),
        b"nudge" => Some(Event::Nudge),
        b"handover" => Some(Event::HandOver),
        b"leave" => Some(Event::PrinterLeaves),
        b"printer-restart" => Some(Event::PrinterRestart),
        b"drop" => Some(Event::HostDrops),
        _ => None,
    }
}

// The event of a word with a value.
fn event_with(word: &[u8], value: &[u8]) -> Option<Event> {
    match word {
        b"ask" => Some(Event::Ask(kind_of(value)?)),
        b"move" => Some(Event::Move(number_in(value)? as usize)),
        b"deliver" => Some(Event::Deliver(number_in(value)? as usize)),
        b"answer" => Some(Event::Answer(number_in(value)? as usize)),
        b"host-restart" => Some(Event::HostRestart(number_in(value)?)),
        b"condition" => Some(Event::SetCondition(condition_of(value)?)),
        _ => None,
    }
}

// A number in decimal, up to the greatest u32.
fn number_in(text: &[u8]) -> Option<u32> {
    if text.is_empty() {
        return None;
    }
    let mut number: u32 = 0;
    for byte in text {
        if !byte.is_ascii_digit() {
            return None;
        }
        number = number
            .checked_mul(10)?
            .checked_add(u32::from(*byte - b'0'))?;
    }
    Some(number)
}

// The kind of a status request.
fn kind_of(text: &[u8]) -> Option<StatusKind> {
    let number = u8::try_from(number_in(text)?).ok()?;
    StatusKind::new(number)
}
