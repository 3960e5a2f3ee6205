//! The task of a job without a till.

use crate::support::asking::printer;
use escpos_arguments::task_of;
use escpos_command::LineWidth;
use escpos_job_parts::condition::ONLINE;
use escpos_job_parts::form::Form;
use escpos_jobs::task::{NoTask, Task};
use escpos_receipt::ReceiptOptions;
use std::alloc::Global;
use std::process::Abort;

// Words ask for this. Where memory is refused that is said, whatever they ask for, and they are read again.
fn asks_at_last(rt: &impl Abort, alloc: Global, arguments: &[&str], wanted: Result<Task, NoTask>) {
    let asked = task_of(alloc, arguments);
    if asked == Err(NoTask::Memory) {
        assert!(rt; task_of(alloc, arguments) == wanted);
    } else {
        assert!(rt; asked == wanted);
    }
}

#[test]
fn task_of_refused(rt: HostRuntime) {
    let check = Task::Check {
        form: Form::Hexadecimal,
        pass: false,
    };
    asks_at_last(&rt, rt.alloc(), &["check"], Ok(check));
    asks_at_last(&rt, rt.alloc(), &["encode", "--help"], Err(NoTask::Help));
    asks_at_last(&rt, rt.alloc(), &["chec"], Err(NoTask::Usage));
    let wanted = Task::Emulate {
        address: printer(),
        links: Some(3),
        condition: ONLINE,
        width: LineWidth::usual(),
        file: None,
    };
    let arguments = ["emulate", "127.0.0.1:9100", "--links", "3"];
    asks_at_last(&rt, rt.alloc(), &arguments, Ok(wanted));
    let wanted = Task::Send {
        address: printer(),
        first: 7,
        openings: 3,
        wait: None,
        options: ReceiptOptions::usual(),
    };
    let arguments = ["send", "127.0.0.1:9100", "--first", "7"];
    asks_at_last(&rt, rt.alloc(), &arguments, Ok(wanted));
}
