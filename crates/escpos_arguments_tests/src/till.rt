//! A till's arguments, and what they ask for.

use crate::support::asking::{Plain, asked_by, printer_address};
use escpos_arguments::{is_till_word, till_task_of};
use escpos_jobs::task::NoTask;
use escpos_till_jobs::TillTask;
use std::alloc::Global;
use std::process::Abort;

fn asks_for(rt: &impl Abort, alloc: Global, words: &[&str], wanted: Result<Plain, NoTask>) {
    assert!(rt; asked_by(alloc, words) == wanted);
}

const ADDRESS: &str = "127.0.0.1:9100";

// A text of 42 characters, the most that a copy's line has, and one of 43.
const LONG: &str = "0123456789 0123456789 0123456789 012345678";

const TOO_LONG: &str = "0123456789 0123456789 0123456789 0123456789";

// A key of 64 characters, the most that one has, and one of 65.
const LONGEST_KEY: &str = "0123456789-0123456789-0123456789-0123456789-0123456789-012345678";

const TOO_LONG_A_KEY: &str = "0123456789-0123456789-0123456789-0123456789-0123456789-0123456789";

// The arguments after `deliver till 127.0.0.1:9100`, with how many opening marks and how much patience they ask for, and whether for a
// copy's line.
const DELIVERIES: [(&'static [&'static str], u32, u32, bool); 8] = [
    (&[], 3, 600, false),
    (&["--openings", "1"], 1, 600, false),
    (&["--openings=99"], 99, 600, false),
    (&["--copy", LONG], 3, 600, true),
    (&["--copy=~", "--openings", "2"], 2, 600, true),
    (&["--patience", "1"], 3, 1, false),
    (&["--patience=3600"], 3, 3_600, false),
    (&["--patience", "20", "--openings", "7"], 7, 20, false),
];

fn asks_for_delivery(rt: &impl Abort, alloc: Global, given: &[&'static str], wanted: Plain) {
    let mut words = Vec::new(alloc);
    let deliver = ["deliver", "till", ADDRESS];
    words.extend_from_slice(&deliver).expect(rt, "memory");
    words.extend_from_slice(given).expect(rt, "memory");
    asks_for(rt, alloc, words.as_slice(), Ok(wanted));
}

#[test]
fn deliveries(rt: HostRuntime) {
    for (given, openings, patience, has_copy) in &DELIVERIES {
        let wanted = Plain::Deliver(
            "till",
            Some(printer_address()),
            *openings,
            *patience,
            *has_copy,
            None,
        );
        asks_for_delivery(&rt, rt.alloc(), given, wanted);
    }
}

// The same with `--wait`, and how many seconds a wait may last.
const WAITING: [(&'static [&'static str], u32, u32, bool, u32); 4] = [
    (&["--wait", "1"], 3, 600, false, 1),
    (&["--wait=3600", "--openings", "2"], 2, 600, false, 3_600),
    (&["--copy", "COPY", "--wait", "30"], 3, 600, true, 30),
    (&["--wait", "5", "--patience", "60"], 3, 60, false, 5),
];

#[test]
fn deliveries_that_wait(rt: HostRuntime) {
    for (given, openings, patience, has_copy, seconds) in &WAITING {
        let wanted = Plain::Deliver(
            "till",
            Some(printer_address()),
            *openings,
            *patience,
            *has_copy,
            Some(*seconds),
        );
        asks_for_delivery(&rt, rt.alloc(), given, wanted);
    }
}

const ASKED: [(&'static [&'static str], Result<Plain<'static>, NoTask>); 35] = [
    (&["queue", "till"], Ok(Plain::Queue("till", 512, None))),
    (
        &["queue", "a/till.db"],
        Ok(Plain::Queue("a/till.db", 512, None)),
    ),
    (
        &["queue", "till", "--width", "576", "--replace", "?"],
        Ok(Plain::Queue("till", 576, Some('?'))),
    ),
    (
        &["queue", "--width=1", "till"],
        Ok(Plain::Queue("till", 1, None)),
    ),
    (
        &["queue", "till", "--width", "1024", "--replace=~"],
        Ok(Plain::Queue("till", 1024, Some('~'))),
    ),
    (
        &["queue", "--replace", " ", "till"],
        Ok(Plain::Queue("till", 512, Some(' '))),
    ),
    (&["queue", "till", "--raw"], Ok(Plain::Raw("till", 512))),
    (
        &["queue", "--raw", "till", "--width", "384"],
        Ok(Plain::Raw("till", 384)),
    ),
    (&["queue", "till", "--raw", "-h"], Err(NoTask::Help)),
    (
        &["queue", "till", "--key", "sale-7"],
        Ok(Plain::Keyed("till", false)),
    ),
    (
        &["queue", "--key=!", "till", "--width", "384"],
        Ok(Plain::Keyed("till", false)),
    ),
    (
        &["queue", "till", "--key", LONGEST_KEY, "--replace", "?"],
        Ok(Plain::Keyed("till", false)),
    ),
    (
        &["queue", "till", "--raw", "--key", "~"],
        Ok(Plain::Keyed("till", true)),
    ),
    (
        &["queue", "till", "--again", "1"],
        Ok(Plain::Again("till", 1)),
    ),
    (
        &["queue", "--again=+007", "till"],
        Ok(Plain::Again("till", 7)),
    ),
    (&["queue", "1", "--again", "2"], Ok(Plain::Again("1", 2))),
    (
        &["queue", "till", "--again", "4294967295"],
        Ok(Plain::Again("till", 4_294_967_295)),
    ),
    (
        &["queue", "till", "--again", "1", "--help"],
        Err(NoTask::Help),
    ),
    (&["cancel", "till", "1"], Ok(Plain::Cancel("till", 1))),
    (&["cancel", "2", "3"], Ok(Plain::Cancel("2", 3))),
    (&["cancel", "till", "+007"], Ok(Plain::Cancel("till", 7))),
    (
        &["cancel", "till", "4294967295"],
        Ok(Plain::Cancel("till", 4_294_967_295)),
    ),
    (&["ledger", "till"], Ok(Plain::List("till", None))),
    (
        &["ledger", "till", "--first", "0"],
        Ok(Plain::List("till", Some(0))),
    ),
    (
        &["ledger", "--first=1679616", "till"],
        Ok(Plain::List("till", Some(1_679_616))),
    ),
    (
        &["ledger", "till", "--first", "4294967295"],
        Ok(Plain::List("till", Some(4_294_967_295))),
    ),
    (&["queue", "--help"], Err(NoTask::Help)),
    (&["deliver", "-h"], Err(NoTask::Help)),
    (&["cancel", "--help"], Err(NoTask::Help)),
    (&["cancel", "till", "1", "-h"], Err(NoTask::Help)),
    (&["ledger", "till", "--help"], Err(NoTask::Help)),
    (
        &["ledger", "till", "--renew", "next"],
        Ok(Plain::Renew("till", "next")),
    ),
    (
        &["ledger", "--renew=a/b", "till"],
        Ok(Plain::Renew("till", "a/b")),
    ),
    (
        &["ledger", "till", "--renew", "till"],
        Ok(Plain::Renew("till", "till")),
    ),
    (&["--help"], Err(NoTask::Help)),
];

// Words that ask for nothing.
const USAGE: [&'static [&'static str]; 84] = [
    &[],
    &["check"],
    &["queue"],
    &["queue", "till", "till"],
    &["queue", "till", "--first", "1"],
    &["queue", "till", "--nosuch"],
    &["queue", "till", "--width", "0"],
    &["queue", "till", "--width", "1025"],
    &["queue", "till", "--width", "384", "--width", "384"],
    &["queue", "till", "--replace", ""],
    &["queue", "till", "--replace", "??"],
    &["queue", "till", "--replace", "é"],
    &["queue", "--raw"],
    &["queue", "till", "--raw", "--raw"],
    &["queue", "till", "--raw", "1"],
    &["queue", "till", "--raw", "--replace", "?"],
    &["queue", "till", "--raw", "--again", "1"],
    &["queue", "till", "--raw", "--width", "0"],
    &["ledger", "till", "--raw"],
    &["queue", "--again", "1"],
    &["queue", "till", "--again"],
    &["queue", "till", "--again", "0"],
    &["queue", "till", "--again", "-1"],
    &["queue", "till", "--again", "one"],
    &["queue", "till", "--again", "4294967296"],
    &["queue", "till", "--again", "1", "--again", "1"],
    &["queue", "till", "--again", "1", "--width", "512"],
    &["queue", "till", "--replace", "?", "--again", "1"],
    &["queue", "till", "1", "--again", "1"],
    &["queue", "till", "--key"],
    &["queue", "till", "--key", ""],
    &["queue", "till", "--key", " "],
    &["queue", "till", "--key", "sale 7"],
    &["queue", "till", "--key", "é"],
    &["queue", "till", "--key", "\u{7F}"],
    &["queue", "till", "--key", TOO_LONG_A_KEY],
    &["queue", "till", "--key", "a", "--key", "a"],
    &["queue", "till", "--key", "a", "--again", "1"],
    &["cancel", "till", "1", "--key", "a"],
    &["ledger", "till", "--key", "a"],
    &["cancel", "till", "--again", "1"],
    &["deliver"],
    &["deliver", "till"],
    &["deliver", ADDRESS],
    &["deliver", "till", "printer"],
    &["deliver", "till", ADDRESS, "extra"],
    &["deliver", "till", ADDRESS, "--openings", "0"],
    &["deliver", "till", ADDRESS, "--openings", "100"],
    &["deliver", "till", ADDRESS, "--copy"],
    &["deliver", "till", ADDRESS, "--copy", ""],
    &["deliver", "till", ADDRESS, "--copy", TOO_LONG],
    &["deliver", "till", ADDRESS, "--copy", "Zweitdruck für Sie"],
    &["deliver", "till", ADDRESS, "--first", "1"],
    &["deliver", "till", ADDRESS, "--wait"],
    &["deliver", "till", ADDRESS, "--wait", "0"],
    &["deliver", "till", ADDRESS, "--wait", "3601"],
    &["deliver", "till", ADDRESS, "--wait", "1", "--wait", "1"],
    &["deliver", "till", ADDRESS, "--patience"],
    &["deliver", "till", ADDRESS, "--patience", "0"],
    &["deliver", "till", ADDRESS, "--patience", "3601"],
    &["deliver", "till", ADDRESS, "--patience", "ten"],
    &["send", ADDRESS, "--first", "1", "--patience", "1"],
    &["ledger", "till", "--patience", "1"],
    &["ledger", "till", "--wait", "1"],
    &["cancel"],
    &["cancel", "till"],
    &["cancel", "till", ""],
    &["cancel", "till", "0"],
    &["cancel", "till", "-1"],
    &["cancel", "till", "1.0"],
    &["cancel", "till", "one"],
    &["cancel", "till", "4294967296"],
    &["cancel", "1", "till"],
    &["cancel", "till", "1", "2"],
    &["cancel", "till", "--number", "1"],
    &["cancel", "till", "1", "--first", "1"],
    &["ledger"],
    &["ledger", "till", "--first", "4294967296"],
    &["ledger", "till", "--first", "-1"],
    &["ledger", "till", "--first", "1", "--first", "1"],
    &["ledger", "till", "--renew"],
    &["ledger", "till", "--renew", "a", "--renew", "b"],
    &["ledger", "till", "--renew", "a", "--first", "1"],
    &["queue", "till", "--renew", "a"],
];

#[test]
fn words_of_a_till(rt: HostRuntime) {
    for (words, wanted) in &ASKED {
        asks_for(&rt, rt.alloc(), words, *wanted);
    }
    for words in &USAGE {
        asks_for(&rt, rt.alloc(), words, Err(NoTask::Usage));
    }
}

// The key of a receipt is the one that is given.
#[test]
fn keys(rt: HostRuntime) {
    for text in ["sale-7", "!", LONGEST_KEY] {
        match till_task_of(rt.alloc(), &["queue", "till", "--key", text]) {
            Ok(TillTask::Queue { key: Some(key), .. }) => {
                assert!(&rt; key.bytes() == text.as_bytes())
            }
            _ => panic!(&rt; "no key"),
        }
        match till_task_of(rt.alloc(), &["queue", "till", "--raw", "--key", text]) {
            Ok(TillTask::QueueRaw { key: Some(key), .. }) => {
                assert!(&rt; key.bytes() == text.as_bytes())
            }
            _ => panic!(&rt; "no key"),
        }
    }
}

#[test]
fn till_words(rt: HostRuntime) {
    for word in ["queue", "deliver", "cancel", "ledger"] {
        assert!(&rt; is_till_word(word));
    }
    for word in ["", "check", "help", "Queue", "queue ", "cancelled", "ledge"] {
        assert!(&rt; !is_till_word(word));
    }
}
