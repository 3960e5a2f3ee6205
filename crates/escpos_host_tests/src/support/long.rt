//! Many links, and many opening marks.

use crate::support::hosts::{hears, links_up, submits};
use escpos_command::{Answer, MarkId};
use escpos_host::{Host, HostEvent};
use escpos_test_receipts::S;
use std::alloc::Global;

/// Whether the next number is each from this one up to that one, and its opening mark is put and taken out.
pub fn nudges_up_to(host: &mut Host, first: u32, end: u32) -> bool {
    let mut room = [0; 20];
    for number in first..end {
        if host.next_mark() != number || host.nudge() != Ok(()) || host.take_out(&mut room) != 11 {
            return false;
        }
    }
    true
}

/// Whether the opening mark is taken out and another is put, until as many are put and not answered as there are ids.
pub fn nudges_until_all_are_out(host: &mut Host) -> bool {
    let mut room = [0; 20];
    for put in 0..1_679_615 {
        let is_out = host.take_out(&mut room) == 11 && host.marks_left() == 1_679_615 - put;
        if !is_out || host.nudge() != Ok(()) {
            return false;
        }
    }
    true
}

/// Whether so many links, with a nudge and four receipts each, record those: no call wants memory that there is.
pub fn prints_long(host: &mut Host, alloc: Global, count: usize) -> bool {
    for link in 0..count {
        if !prints_on_a_link(host, alloc, link) {
            return false;
        }
    }
    host.records().len() == count
}

// The answer to the first receipt's mark is heard, and records it.
fn prints_on_a_link(host: &mut Host, alloc: Global, link: usize) -> bool {
    let is_open = opens_with_a_nudge(host);
    let are_submitted = submits_four(host, alloc);
    let is_recorded = hears_mark_before(host, 4, HostEvent::Recorded(link));
    host.link_down();
    is_open && are_submitted && is_recorded
}

fn opens_with_a_nudge(host: &mut Host) -> bool {
    links_up(host) && host.nudge() == Ok(()) && hears_mark_before(host, 2, HostEvent::Opened)
}

fn submits_four(host: &mut Host, alloc: Global) -> bool {
    let (text, _) = S;
    for _ in 0..4 {
        if !submits(host, alloc, text) {
            return false;
        }
    }
    let mut room = [0; 100];
    let _ = host.take_out(&mut room);
    !host.has_out()
}

// Hears the answer to a mark whose number is so many before the next one.
fn hears_mark_before(host: &mut Host, count: u32, event: HostEvent) -> bool {
    match MarkId::of_number(host.next_mark().saturating_sub(count)) {
        Some(id) => hears(host, Answer::Mark(id).bytes().as_slice(), 7, event),
        None => false,
    }
}
