//! What is done over 127.0.0.1 step by step, and what must come of it. A test is a row of steps, and `plays` plays it.
//!
//! Only `plays` owns a listener and streams, which the steps borrow: what a function owns is proved dropped at each way out of it.
//! What a job prints over them is looked at in `sending` and `serving`.

use crate::support::asked::{Asked, task_of};
use crate::support::jobs::does_task;
use crate::support::sending::{sends_on_stream, sends_to, shows_status};
use crate::support::serving::{Printed, follows_links, is_in_use, serves_links};
use crate::support::sockets::{
    InAnHour, NEVER, Prepared, answered_link, connects_and_says, has_one_waiting, hears,
    hears_after, is_limited, is_prompt, leaves_unread, listens, nobody_waits,
};
use escpos_addresses::printer_link::Printers;
use escpos_job_parts::status::Status;
use std::alloc::Global;
use std::net::{Net, SocketAddrV4, TcpListener, TcpStream};
use std::process::Abort;

/// What is done with a listener and the streams to it, and what must come of it. A place is that of a stream: each step that connects
/// adds one stream, or two where the listener accepts it.
#[derive(Clone, Copy)]
pub enum Step<'a> {
    /// A client connects, sends these bytes, and ends its writing.
    Connect(&'a [u8]),
    /// So many clients connect and go. No stream is added.
    ConnectAndGo(u32),
    /// A client asks for so many answers that it can't but go with some of them unread. No stream is added.
    GoUnread,
    /// A client connects and is accepted; the other end sends these bytes so many times, and ends its writing.
    Answered(&'a [u8], u32),
    /// The listener doesn't wait from now on.
    NoWait,
    /// Nobody waits to be accepted by a listener that doesn't wait.
    NobodyWaits,
    /// One client waits to be accepted, and no other.
    OneWaits,
    /// The stream at this place reads these bytes, and then the end.
    Hears(usize, &'a [u8]),
    /// The stream at this place reads so many bytes, and then these.
    HearsAfter(usize, usize, &'a [u8]),
    /// What is short goes out at once over the stream at this place, and a read waits as long as the link stands. It ends its writing.
    IsPrompt(usize),
    /// A read and a write of the stream at this place wait an hour at most, and what is short goes out at once.
    IsLimited(usize),
    /// So many links are served, and their paper printed.
    Serve(u32, Printed<'a>, Status),
    /// The same where the output has so much room.
    ServeInto(usize, u32, Printed<'a>, Status),
    /// The same where the output takes nothing.
    ServeUnheard(u32),
    /// Links are followed until the listener accepts no more.
    Follow(&'a str, Status),
    /// A printer can't listen at the listener's address.
    IsInUse,
    /// A receipt goes over the stream at this place, with a first mark and so many opening marks.
    SendOn(usize, (u32, u32), &'a str, Status),
    /// A receipt that is read from this text goes to the listener's address, with a first mark and so many opening marks.
    SendTo((u32, u32), &'a [u8], &'a str, Status),
    /// The same where no byte of the text can be read.
    SendUnread((u32, u32), &'a [u8], &'a str, Status),
    /// A printer is asked for its status over the stream at place 0.
    ShowStatus(&'a str, Status),
    /// This is asked for at the listener's address.
    Ask(Asked<'a>, &'a [u8], &'a str, Status),
    /// The same over a network that has bound the listener, and connects the stream at place 0.
    AskPrepared(Asked<'a>, &'a [u8], &'a str, Status),
    /// The same over a network that connects that stream, if it is to be done within an hour.
    AskInAnHour(Asked<'a>, &'a [u8], &'a str, Status),
}

/// Each step is done in turn with a new listener. Returns the address, where nobody listens any more.
pub fn plays<N: Printers + Net<Stream = TcpStream, Listener = TcpListener> + Abort>(
    rt: &N,
    alloc: Global,
    steps: &[Step],
) -> SocketAddrV4 {
    let (listener, address) = listens(rt);
    let mut streams = Vec::new(alloc);
    for (place, step) in steps.iter().enumerate() {
        assert!(rt;
            does(rt, alloc, &mut streams, (&listener, address), step),
            "at step {place}, counted from 0"
        );
    }
    address
}

/// Each step is done in turn where nobody listens: it is a task, or a receipt that is sent.
pub fn plays_alone<N: Printers + Net<Stream = TcpStream, Listener = TcpListener> + Abort>(
    rt: &N,
    alloc: Global,
    address: SocketAddrV4,
    steps: &[Step],
) {
    for (place, step) in steps.iter().enumerate() {
        assert!(rt;
            asks(rt, alloc, address, step),
            "at step {place}, counted from 0"
        );
    }
}

// Connects as a step says.
fn connects<N: Net<Stream = TcpStream, Listener = TcpListener> + Abort>(
    rt: &N,
    streams: &mut Vec<TcpStream>,
    (listener, address): (&TcpListener, SocketAddrV4),
    step: &Step,
) -> bool {
    match step {
        Step::Connect(bytes) => {
            let client = connects_and_says(rt, address, bytes);
            streams.push(client).expect(rt, "memory");
        }
        Step::Answered(bytes, count) => {
            let (client, printer) = answered_link(rt, (listener, address), (bytes, *count));
            streams.push(client).expect(rt, "memory");
            streams.push(printer).expect(rt, "memory");
        }
        Step::ConnectAndGo(count) => {
            for _ in 0..*count {
                drop(TcpStream::connect(rt, address).expect(rt, "no link"));
            }
        }
        Step::GoUnread => leaves_unread(rt, address),
        _ => return false,
    }
    true
}

// Does a step. Answers whether what comes of it is what the step says.
fn does<N: Printers + Net<Stream = TcpStream, Listener = TcpListener> + Abort>(
    rt: &N,
    alloc: Global,
    streams: &mut Vec<TcpStream>,
    (listener, address): (&TcpListener, SocketAddrV4),
    step: &Step,
) -> bool {
    match step {
        Step::Connect(_) | Step::Answered(_, _) | Step::ConnectAndGo(_) | Step::GoUnread =>
            connects(rt, streams, (listener, address), step),
        Step::NoWait => listener.set_nonblocking(true).is_ok(),
        Step::NobodyWaits => nobody_waits(listener),
        Step::OneWaits => has_one_waiting(rt, listener),
        Step::Hears(_, _) | Step::HearsAfter(_, _, _) | Step::IsPrompt(_) | Step::IsLimited(_) => {
            shows(rt, streams, step)
        }
        Step::Serve(_, _, _)
        | Step::ServeInto(_, _, _, _)
        | Step::ServeUnheard(_)
        | Step::Follow(_, _) => serves(alloc, listener, step),
        Step::SendOn(place, marks, text, status) => match streams.get(*place) {
            Some(stream) => sends_on_stream(rt, alloc, stream, *marks, (text, *status)),
            None => false,
        },
        Step::ShowStatus(_, _) | Step::AskPrepared(_, _, _, _) | Step::AskInAnHour(_, _, _, _) => {
            match streams.first() {
                Some(client) => asks_over(
                    alloc,
                    &Prepared {
                        address,
                        listener,
                        client,
                    },
                    step,
                ),
                None => false,
            }
        }
        _ => asks(rt, alloc, address, step),
    }
}

// What a stream reads, and how, is what the step says.
fn shows(rt: &impl Abort, streams: &mut Vec<TcpStream>, step: &Step) -> bool {
    match step {
        Step::Hears(place, bytes) => match streams.get_mut(*place) {
            Some(stream) => hears(rt, stream, bytes),
            None => false,
        },
        Step::HearsAfter(place, count, bytes) => match streams.get_mut(*place) {
            Some(stream) => hears_after(rt, stream, *count, bytes),
            None => false,
        },
        Step::IsPrompt(place) => match streams.get(*place) {
            Some(stream) => is_prompt(rt, stream),
            None => false,
        },
        Step::IsLimited(place) => match streams.get(*place) {
            Some(stream) => is_limited(rt, stream),
            None => false,
        },
        _ => false,
    }
}

// A printer serves the links of a listener.
fn serves(alloc: Global, listener: &TcpListener, step: &Step) -> bool {
    match step {
        Step::Serve(links, printed, status) => serves_links(
            alloc,
            (listener, *links),
            &mut [0; 8192],
            NEVER,
            (*printed, *status),
        ),
        Step::ServeInto(size, links, printed, status) => {
            let mut room = [0; 64];
            serves_links(
                alloc,
                (listener, *links),
                &mut room[..(*size).min(64)],
                NEVER,
                (*printed, *status),
            )
        }
        Step::ServeUnheard(links) => serves_links(
            alloc,
            (listener, *links),
            &mut [0; 64],
            1,
            (Printed::All(""), Status::Device),
        ),
        Step::Follow(text, status) => follows_links(alloc, listener, (text, *status)),
        _ => false,
    }
}

// Asks for what a step says over streams that are prepared.
fn asks_over(alloc: Global, net: &Prepared, step: &Step) -> bool {
    match step {
        Step::ShowStatus(text, status) => shows_status(net, (text, *status)),
        Step::AskPrepared(asked, input, text, status) => {
            match task_of(net.address.into(), *asked) {
                Some(task) => does_task(net, alloc, task, input, (text, *status)),
                None => false,
            }
        }
        Step::AskInAnHour(asked, input, text, status) => {
            let net = InAnHour {
                address: net.address,
                client: net.client,
            };
            match task_of(net.address.into(), *asked) {
                Some(task) => does_task(&net, alloc, task, input, (text, *status)),
                None => false,
            }
        }
        _ => false,
    }
}

// Asks for what a step says at an address.
fn asks<N: Printers + Net<Stream = TcpStream, Listener = TcpListener>>(
    rt: &N,
    alloc: Global,
    address: SocketAddrV4,
    step: &Step,
) -> bool {
    match step {
        Step::IsInUse => is_in_use(rt, alloc, address),
        Step::SendTo(marks, input, text, status) => {
            sends_to(
                rt,
                alloc,
                (address, *marks),
                (input, NEVER),
                (text, *status),
            )
        }
        Step::SendUnread(marks, input, text, status) => {
            sends_to(rt, alloc, (address, *marks), (input, 1), (text, *status))
        }
        Step::Ask(asked, input, text, status) => match task_of(address.into(), *asked) {
            Some(task) => does_task(rt, alloc, task, input, (text, *status)),
            None => false,
        },
        _ => false,
    }
}
