//! Receipts that `send` sends over a stream or to an address, and printers that are asked for their status.

use crate::support::asked::RECEIPT;
use crate::support::sockets::Prepared;
use escpos_addresses::printer_link::{PrinterLink, Printers};
use escpos_io::{MemoryIn, MemoryOut};
use escpos_job_parts::status::Status;
use escpos_receipt::ReceiptOptions;
use escpos_tcp_jobs::printer_status::show_status;
use escpos_tcp_jobs::send::{Marks, send_on, send_to};
use escpos_test_receipts::read_receipt;
use std::alloc::Global;
use std::net::{SocketAddrV4, TcpStream};
use std::process::Abort;

/// A receipt is sent over a stream, and this is printed.
pub fn sends_on_stream(
    rt: &impl Abort,
    alloc: Global,
    stream: &TcpStream,
    (first, openings): (u32, u32),
    (text, status): (&str, Status),
) -> bool {
    let receipt = read_receipt(alloc, RECEIPT).expect(rt, "a receipt");
    let mut room = [0; 128];
    let mut output = MemoryOut::new(&mut room);
    let marks = Marks { first, openings };
    let link = PrinterLink::over_tcp(stream.try_clone().expect(rt, "no second")).expect(
        rt, "no link",
    );
    let ended = send_on(alloc, link, marks, receipt, &mut output);
    ended == status && output.written() == text.as_bytes()
}

/// A receipt that is read from a text, with reads that fail from a call on, is sent to an address, and this is printed.
pub fn sends_to<N: Printers>(
    net: &N,
    alloc: Global,
    (address, (first, openings)): (SocketAddrV4, (u32, u32)),
    (input, read): (&[u8], u64),
    (text, status): (&str, Status),
) -> bool {
    let mut room = [0; 64];
    let mut source = MemoryIn::failing(input, 100, read);
    let mut output = MemoryOut::new(&mut room);
    let ended = send_to(
        net,
        alloc,
        address.into(),
        Marks { first, openings },
        &ReceiptOptions::usual(),
        &mut source,
        &mut output,
    );
    ended == status && output.written() == text.as_bytes()
}

/// A printer is asked for its status, and this is printed.
pub fn shows_status(net: &Prepared, (text, status): (&str, Status)) -> bool {
    let mut room = [0; 64];
    let mut output = MemoryOut::new(&mut room);
    let ended = show_status(net, net.address.into(), &mut output);
    ended == status && output.written() == text.as_bytes()
}
