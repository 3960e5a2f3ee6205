//! Reading the arguments of `probe`.

use crate::support::asking::printer;
use escpos_arguments::probe_task_of;
use escpos_jobs::task::NoTask;
use escpos_probe::ProbeTask;
use std::alloc::Global;
use std::process::Abort;

// Words ask for this. Where memory is refused that is said, whatever they ask for, and they are read again.
fn asks_at_last(rt: &impl Abort, alloc: Global, words: &[&str], wanted: Result<ProbeTask, NoTask>) {
    let asked = probe_task_of(alloc, words);
    if asked == Err(NoTask::Memory) {
        assert!(rt; probe_task_of(alloc, words) == wanted);
    } else {
        assert!(rt; asked == wanted);
    }
}

#[test]
fn probe_task_of_refused(rt: HostRuntime) {
    let probe = ProbeTask {
        address: printer(),
        wait: Some(7),
    };
    let rows: [(&[&str], Result<ProbeTask, NoTask>); 3] = [
        (&["probe", "127.0.0.1:9100", "--wait", "7"], Ok(probe)),
        (&["probe", "--help"], Err(NoTask::Help)),
        (&["probe"], Err(NoTask::Usage)),
    ];
    for (words, wanted) in rows {
        asks_at_last(&rt, rt.alloc(), words, wanted);
    }
}
