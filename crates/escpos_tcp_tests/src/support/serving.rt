//! The links of a listener that `emulate` serves, and what it prints of them.

use escpos_addresses::printer_link::Printers;
use escpos_command::LineWidth;
use escpos_io::MemoryOut;
use escpos_job_parts::condition::ONLINE;
use escpos_job_parts::status::Status;
use escpos_tcp_jobs::emulate::{emulate, emulate_on, follow_on};
use std::alloc::Global;
use std::net::{Net, SocketAddrV4, TcpListener};

/// What is printed of links.
#[derive(Clone, Copy)]
pub enum Printed<'a> {
    /// This.
    All(&'a str),
    /// The last of it is this.
    Last(&'a str),
    /// It begins with the first, and has the other in it.
    Parts(&'a str, &'a str),
}

fn is_printed(written: &[u8], printed: Printed) -> bool {
    match printed {
        Printed::All(text) => written == text.as_bytes(),
        Printed::Last(text) => written.ends_with(text.as_bytes()),
        Printed::Parts(first, part) => match str::from_utf8(written) {
            Ok(text) => text.starts_with(first) && text.contains(part),
            Err(_) => false,
        },
    }
}

/// So many links are served by a printer that is online, and this is printed to an output that fails from a call on.
pub fn serves_links(
    alloc: Global,
    (listener, links): (&TcpListener, u32),
    room: &mut [u8],
    from_call: u64,
    (printed, status): (Printed, Status),
) -> bool {
    let mut output = MemoryOut::failing(room, from_call);
    let ended = emulate_on(
        alloc,
        listener,
        links,
        ONLINE,
        LineWidth::usual(),
        &mut output,
    );
    ended == status && is_printed(output.written(), printed)
}

/// Links are followed by a printer that is online until the listener accepts no more, and this is printed.
pub fn follows_links(
    alloc: Global,
    listener: &TcpListener,
    (text, status): (&str, Status),
) -> bool {
    let mut room = [0; 512];
    let mut output = MemoryOut::new(&mut room);
    let ended = follow_on(alloc, listener, ONLINE, LineWidth::usual(), &mut output);
    ended == status && output.written() == text.as_bytes()
}

/// The port of this address is in use: a printer can't listen there.
pub fn is_in_use<N: Printers + Net<Listener = TcpListener>>(
    net: &N,
    alloc: Global,
    address: SocketAddrV4,
) -> bool {
    let mut room = [0; 41];
    let mut output = MemoryOut::new(&mut room);
    let ended = emulate(
        net,
        alloc,
        address.into(),
        Some(1),
        ONLINE,
        LineWidth::usual(),
        None,
        &mut output,
    );
    ended == Status::Device && output.written().is_empty()
}
