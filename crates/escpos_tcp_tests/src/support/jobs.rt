//! A job's outcome, and its printer.

use escpos_addresses::printer_link::Printers;
use escpos_command::LineWidth;
use escpos_io::{ByteIn, MemoryIn, MemoryOut};
use escpos_job_parts::condition::ONLINE;
use escpos_job_parts::status::Status;
use escpos_jobs::task::Task;
use escpos_printer::Printer;
use escpos_test_jobs::run_job;
use std::alloc::{AllocError, Global};
use std::net::{Net, TcpListener};
use std::process::Abort;

/// This is written, and this is the status.
pub fn is_outcome(
    rt: &impl Abort,
    (written, ended): (&[u8], Status),
    (output, status): (&[u8], Status),
) {
    assert!(rt; ended == status);
    assert!(rt; written == output);
}

/// Whether what was asked for over this network prints this. It reads its input, unless there is none.
pub fn does_task<N: Printers + Net<Listener = TcpListener>>(
    net: &N,
    alloc: Global,
    task: Task,
    input: &[u8],
    (text, status): (&str, Status),
) -> bool {
    let mut room = [0; 256];
    let mut source = MemoryIn::new(input, 100);
    let mut output = MemoryOut::new(&mut room);
    let ended = run_job(net, alloc, Ok(task), &mut source, &mut output);
    ended == status
        && output.written() == text.as_bytes()
        && (source.pulls() > 0) == !input.is_empty()
}

// A printer that is online. Where its memory is refused, it is asked for again.
pub fn printer_at_last(rt: &impl Abort, alloc: Global) -> Printer {
    match Printer::new(alloc, ONLINE, LineWidth::usual()) {
        Ok(printer) => printer,
        Err(AllocError) => Printer::new(alloc, ONLINE, LineWidth::usual()).expect(rt, "a printer"),
    }
}
