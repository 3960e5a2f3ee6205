//! Reading a till's arguments.

use crate::support::asking::{Plain, asked_by, printer_address};
use escpos_jobs::task::NoTask;
use std::alloc::Global;
use std::process::Abort;

// Words ask for this. Where memory is refused that is said, whatever they ask for, and they are read again.
fn asks_at_last(rt: &impl Abort, alloc: Global, words: &[&str], wanted: Result<Plain, NoTask>) {
    let asked = asked_by(alloc, words);
    if asked == Err(NoTask::Memory) {
        assert!(rt; asked_by(alloc, words) == wanted);
    } else {
        assert!(rt; asked == wanted);
    }
}

#[test]
fn till_task_of_refused(rt: HostRuntime) {
    let deliver = Plain::Deliver("till", Some(printer_address()), 3, 600, true, None);
    let rows: [(&[&str], Result<Plain, NoTask>); 5] = [
        (
            &["queue", "till", "--replace", "?"],
            Ok(Plain::Queue("till", 512, Some('?'))),
        ),
        (
            &["deliver", "till", "127.0.0.1:9100", "--copy", "COPY"],
            Ok(deliver),
        ),
        (
            &["ledger", "till", "--first", "7"],
            Ok(Plain::List("till", Some(7))),
        ),
        (&["queue", "--help"], Err(NoTask::Help)),
        (&["queue"], Err(NoTask::Usage)),
    ];
    for (words, wanted) in rows {
        asks_at_last(&rt, rt.alloc(), words, wanted);
    }
}
