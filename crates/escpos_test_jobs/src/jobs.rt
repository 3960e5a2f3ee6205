//! A job of the program over memory.

use escpos_addresses::printer_link::Printers;
use escpos_io::{ByteOut, MemoryIn, MemoryOut, Outgoing};
use escpos_job_parts::ending::MEMORY;
use escpos_job_parts::status::Status;
use escpos_jobs::perform::perform;
use escpos_jobs::task::{NoTask, Task};
use std::alloc::Global;
use std::io;
use std::net::{Net, SocketAddr, TcpListener, TcpStream};

/// A network that can't be reached.
pub struct NoNetwork;

impl Net for NoNetwork {
    type Stream = TcpStream;

    type Listener = TcpListener;

    fn bind(&self, _addr: SocketAddr) -> io::Result<TcpListener> {
        Err(io::Error::from(io::ErrorKind::NetworkUnreachable))
    }

    fn connect(&self, _addr: SocketAddr) -> io::Result<TcpStream> {
        Err(io::Error::from(io::ErrorKind::NetworkUnreachable))
    }
}

impl Printers for NoNetwork {}

/// A worked row of a job: the input, what it prints, and the status.
pub type Row = (&'static [u8], &'static [u8], Status);

/// What is asked for is done, with nothing of what the contract says of that.
pub fn run_job<N: Printers + Net<Listener = TcpListener>, W: ByteOut>(
    net: &N,
    alloc: Global,
    asked: Result<Task, NoTask>,
    source: &mut MemoryIn,
    sink: &mut W,
) -> Status {
    perform(net, alloc, asked, source, sink)
}

/// Whether what was asked for writes this to a sink with this room, and ends with this status.
pub fn performs(
    alloc: Global,
    asked: Result<Task, NoTask>,
    source: &mut MemoryIn,
    room: &mut [u8],
    (output, status): (&[u8], Status),
) -> bool {
    let mut sink = MemoryOut::new(room);
    let ended = run_job(&NoNetwork, alloc, asked, source, &mut sink);
    ended == status && sink.written() == output
}

/// The same of a job over an input that is read in large pieces, however long it is and what it writes.
pub fn prints(alloc: Global, task: Task, input: &[u8], (output, status): (&[u8], Status)) -> bool {
    let mut source = MemoryIn::new(input, 1_000_000);
    let mut sink = Outgoing::new(Vec::new(alloc));
    let ended = run_job(&NoNetwork, alloc, Ok(task), &mut source, &mut sink);
    ended == status && sink.into_inner().as_slice() == output
}

/// The same of each row of a table, with reads of each of these lengths.
pub fn performs_rows(alloc: Global, task: Task, rows: &[Row], lengths: &[usize]) -> bool {
    let each = &task;
    let mut room = [0; 512];
    for (input, output, status) in rows {
        for length in lengths {
            let mut source = MemoryIn::new(input, *length);
            let wanted = (*output, *status);
            if !performs(alloc, Ok(*each), &mut source, &mut room, wanted) {
                return false;
            }
        }
    }
    true
}

// Whether a job that ran out of memory has put the first lines of the whole, and the line that says so.
fn is_cut_short(put: &[u8], whole: &[u8]) -> bool {
    let count = put.len().saturating_sub(MEMORY.len());
    let Some((before, last)) = put.split_at_checked(count) else {
        return false;
    };
    let ends_a_line = before.is_empty() || before.ends_with(b"\n");
    last == MEMORY && whole.starts_with(before) && ends_a_line
}

/// Whether what a job has put and its status are those with ample memory. It is false where the job ran out of memory: then the
/// first lines of that are out, and the line that says so. There is no answer where anything else was put.
pub fn is_whole((put, status): (&[u8], Status), (whole, wanted): (&[u8], Status)) -> Option<bool> {
    if status == Status::Memory {
        return is_cut_short(put, whole).then_some(false);
    }
    (put == whole && status == wanted).then_some(true)
}
