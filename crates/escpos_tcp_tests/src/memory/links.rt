//! The jobs of the program over links, on 127.0.0.1 and in one thread.
//!
//! Where memory is refused the link is used up, and a new one is made.

use crate::support::jobs::printer_at_last;
use crate::support::sockets::{
    ANSWERED_BYTES, Prepared, answered_link, connects_and_says, listens,
};
use escpos_addresses::printer_link::PrinterLink;
use escpos_command::LineWidth;
use escpos_host::Receipt;
use escpos_io::{MemoryIn, MemoryOut};
use escpos_job_parts::condition::ONLINE;
use escpos_job_parts::ending::MEMORY;
use escpos_job_parts::status::Status;
use escpos_paper::Item;
use escpos_printer::{LinkEnd, Printer, Served};
use escpos_receipt::ReceiptOptions;
use escpos_tcp_jobs::paper_text::PaperText;
use escpos_tcp_jobs::send::{Marks, send_on, send_to};
use escpos_test_jobs::is_whole;
use escpos_test_receipts::{S, read_receipt, receipt_at_last};
use std::alloc::Global;
use std::net::{Net, SocketAddrV4, TcpListener, TcpStream};
use std::process::Abort;

// The link of a printer: a request and `STREAM`; the line and the paper that are put of it; and its answer.
pub const EMULATED_BYTES: &[u8] =
    b"\x10\x04\x01Hi\n\x1Dk\x035512345\x00\x1Dv0\x00\x01\x00\x02\x00\xF0\x0F";

pub const EMULATED_LINK: &[u8] =
    b"link 1 read 27 consumed 27 written 1 Ended\nrow left Hi\nfeed 1\nbars left ean8 162 3 none A 55123457\nraster left normal 1 2 f00f\n";

// A link was served, and this line is put. Answers no where memory is refused: then the line says so.
fn is_served(rt: &impl Abort, served: Served, line: &[u8]) -> bool {
    if served.end == LinkEnd::Memory {
        assert!(rt; served.consumed < EMULATED_BYTES.len());
        assert!(rt; line.starts_with(b"link 1 read 27 consumed "));
        assert!(rt; line.ends_with(b" Memory\n"));
        return false;
    }
    assert!(rt; served.written == 1);
    assert!(rt; EMULATED_LINK.starts_with(line));
    assert!(rt; line.len() == 43);
    true
}

// The paper is put after the line: what isn't torn off, since there is no memory for it, is still on it.
fn puts_paper(rt: &impl Abort, paper: &PaperText, items: &[Item], output: &mut MemoryOut) {
    let torn = paper.as_slice().len();
    assert!(rt; paper.put_above(items, output).is_ok());
    assert!(rt; output.written() == EMULATED_LINK);
    assert!(rt; torn == 0 || items.is_empty());
}

// Serves a link over memory. Answers no where memory is refused.
fn serves_and_tells(rt: &impl Abort, printer: &mut Printer, paper: &mut PaperText) -> bool {
    let (mut room, mut printed) = ([0; 16], [0; 256]);
    let mut reader = MemoryIn::new(EMULATED_BYTES, 512);
    let mut writer = MemoryOut::new(&mut room);
    let mut output = MemoryOut::new(&mut printed);
    let served = escpos_tcp_jobs::emulate::serve_and_tell(
        printer,
        paper,
        1,
        &mut reader,
        &mut writer,
        &mut output,
    );
    let served = served.expect(rt, "a line");
    assert!(rt; Some(writer.written()) == b"\x12".get(..served.written));
    let is_whole = is_served(rt, served, output.written());
    if is_whole {
        puts_paper(rt, paper, printer.items(), &mut output);
    }
    is_whole
}

// A link is followed over memory. Answers no where memory is refused. What it printed is put all the same.
fn follows_link(rt: &impl Abort, alloc: Global, printer: &mut Printer) -> bool {
    let (mut room, mut printed) = ([0; 4], [0; 256]);
    let mut reader = MemoryIn::new(EMULATED_BYTES, 512);
    let mut writer = MemoryOut::new(&mut room);
    let mut output = MemoryOut::new(&mut printed);
    let served = escpos_tcp_jobs::emulate::follow_link(
        alloc,
        printer,
        1,
        &mut reader,
        &mut writer,
        &mut output,
    );
    let served = served.expect(rt, "a line");
    assert!(rt; printer.items().is_empty());
    if served.end == LinkEnd::Memory {
        assert!(rt; served.consumed < EMULATED_BYTES.len());
        assert!(rt; output.written().starts_with(b"link 1 read 27 consumed "));
        return false;
    }
    assert!(rt; output.written() == EMULATED_LINK);
    true
}

// A receipt goes round to this printer. Answers no where memory is refused.
fn meets<N: Net<Stream = TcpStream, Listener = TcpListener> + Abort>(
    rt: &N,
    alloc: Global,
    printer: &mut Printer,
) -> bool {
    let receipt = receipt_at_last(alloc).expect(rt, "a receipt");
    let (listener, address) = listens(rt);
    let near = TcpStream::connect(rt, address).expect(rt, "no link");
    let (far, _) = listener.accept().expect(rt, "no link");
    let mut room = [0; 64];
    let mut output = MemoryOut::new(&mut room);
    let status = escpos_tcp_jobs::loop_link::both_ends_of(
        alloc,
        &near,
        &far,
        printer,
        receipt,
        &mut output,
    );
    is_whole((output.written(), status), ROUND).expect(rt, "what a job puts")
}

// A call with a printer over memory.
#[derive(Clone, Copy)]
enum Printing {
    ServeAndTell,
    FollowLink,
    BothEndsOf,
}

// Makes a call with a new printer. Answers no where memory is refused.
fn is_called<N: Net<Stream = TcpStream, Listener = TcpListener> + Abort>(
    rt: &N,
    alloc: Global,
    call: Printing,
) -> bool {
    let mut printer = printer_at_last(rt, alloc);
    match call {
        Printing::ServeAndTell => { serves_and_tells(rt, &mut printer, &mut PaperText::new(alloc)) }
        Printing::FollowLink => follows_link(rt, alloc, &mut printer),
        Printing::BothEndsOf => meets(rt, alloc, &mut printer),
    }
}

// Makes a call. Where memory is refused, it is made again.
fn is_called_at_last<N: Net<Stream = TcpStream, Listener = TcpListener> + Abort>(
    rt: &N,
    alloc: Global,
    call: Printing,
) -> bool {
    is_called(rt, alloc, call) || is_called(rt, alloc, call)
}

#[test]
fn serve_and_tell_refused(rt: HostRuntime) {
    assert!(&rt; is_called_at_last(&rt, rt.alloc(), Printing::ServeAndTell));
}

#[test]
fn follow_link_refused(rt: HostRuntime) {
    assert!(&rt; is_called_at_last(&rt, rt.alloc(), Printing::FollowLink));
}

#[test]
fn both_ends_of_refused(rt: HostRuntime) {
    assert!(&rt; is_called_at_last(&rt, rt.alloc(), Printing::BothEndsOf));
}

// Links are followed up to the first that can't be accepted. Answers no where memory is refused: the last line says so.
fn follows_on(rt: &impl Abort, alloc: Global, listener: &TcpListener) -> bool {
    listener.set_nonblocking(true).expect(rt, "can't set");
    let mut room = [0; 256];
    let mut output = MemoryOut::new(&mut room);
    let status = escpos_tcp_jobs::emulate::follow_on(
        alloc,
        listener,
        ONLINE,
        LineWidth::usual(),
        &mut output,
    );
    if status == Status::Memory {
        assert!(rt; output.written().ends_with(MEMORY));
        return false;
    }
    assert!(rt; output.written() == EMULATED_LINK);
    assert!(rt; status == Status::Device);
    true
}

// A printer has served one link. Answers no where memory is refused: the line of the link says so if it has one, and the last
// line does.
fn is_emulated(rt: &impl Abort, put: &[u8], status: Status) -> bool {
    if status == Status::Memory {
        assert!(rt; put.ends_with(MEMORY));
        assert!(rt; put == MEMORY || put.starts_with(b"link 1 read 27 consumed "));
        return false;
    }
    assert!(rt; put == EMULATED_LINK);
    assert!(rt; status == Status::Good);
    true
}

fn emulates_on(rt: &impl Abort, alloc: Global, listener: &TcpListener) -> bool {
    let mut room = [0; 256];
    let mut output = MemoryOut::new(&mut room);
    let status = escpos_tcp_jobs::emulate::emulate_on(
        alloc,
        listener,
        1,
        ONLINE,
        LineWidth::usual(),
        &mut output,
    );
    is_emulated(rt, output.written(), status)
}

fn emulates_at(rt: &impl Abort, alloc: Global, net: &Prepared) -> bool {
    let mut room = [0; 256];
    let mut output = MemoryOut::new(&mut room);
    let status = escpos_tcp_jobs::emulate::emulate(
        net,
        alloc,
        net.address.into(),
        Some(1),
        ONLINE,
        LineWidth::usual(),
        None,
        &mut output,
    );
    is_emulated(rt, output.written(), status)
}

// A client that has written `EMULATED_BYTES` and ends its writing.
pub fn client_of_link<N: Net<Stream = TcpStream, Listener = TcpListener> + Abort>(
    rt: &N,
    address: SocketAddrV4,
) -> TcpStream {
    connects_and_says(rt, address, EMULATED_BYTES)
}

// A call that serves the client of a listener.
#[derive(Clone, Copy)]
enum Serving {
    FollowOn,
    EmulateOn,
    Emulate,
}

// Makes a call. Answers no where memory is refused.
fn is_serving(rt: &impl Abort, alloc: Global, call: Serving, net: &Prepared) -> bool {
    match call {
        Serving::FollowOn => follows_on(rt, alloc, net.listener),
        Serving::EmulateOn => emulates_on(rt, alloc, net.listener),
        Serving::Emulate => emulates_at(rt, alloc, net),
    }
}

// Makes a call to which a client has connected. Where memory is refused it is made again, and another client has connected.
fn is_serving_at_last<N: Net<Stream = TcpStream, Listener = TcpListener> + Abort>(
    rt: &N,
    alloc: Global,
    call: Serving,
) -> bool {
    let (listener, address) = listens(rt);
    let client = client_of_link(rt, address);
    let net = Prepared {
        address,
        listener: &listener,
        client: &client,
    };
    if is_serving(rt, alloc, call, &net) {
        return true;
    }
    let _second = client_of_link(rt, address);
    is_serving(rt, alloc, call, &net)
}

#[test]
fn follow_on_refused(rt: HostRuntime) {
    assert!(&rt; is_serving_at_last(&rt, rt.alloc(), Serving::FollowOn));
}

#[test]
fn emulate_on_refused(rt: HostRuntime) {
    assert!(&rt; is_serving_at_last(&rt, rt.alloc(), Serving::EmulateOn));
}

#[test]
fn emulate_refused(rt: HostRuntime) {
    assert!(&rt; is_serving_at_last(&rt, rt.alloc(), Serving::Emulate));
}

// A receipt was sent with one opening mark: it is recorded. Answers no where memory is refused: that is all that is said, with
// the next mark.
fn is_sent(rt: &impl Abort, put: &[u8], status: Status) -> bool {
    if status == Status::Memory {
        assert!(rt; put.starts_with(b"memory\nnext "));
        assert!(rt; put.len() == 14);
        return false;
    }
    assert!(rt; put == b"recorded 0\nnext 2\n".as_slice());
    assert!(rt; status == Status::Good);
    true
}

fn sends_once_over(rt: &impl Abort, alloc: Global, receipt: Receipt) -> bool {
    let (mut room, mut printed) = ([0; 64], [0; 32]);
    let mut reader = MemoryIn::new(b"\x37\x220000\x00\x37\x220001\x00", 7);
    let mut writer = MemoryOut::new(&mut room);
    let mut output = MemoryOut::new(&mut printed);
    let marks = Marks {
        first: 0,
        openings: 1,
    };
    let status = escpos_tcp_jobs::send::send_over(
        alloc,
        marks,
        receipt,
        &mut reader,
        &mut writer,
        &mut output,
    );
    is_sent(rt, output.written(), status)
}

#[test]
fn send_over_refused(rt: HostRuntime) {
    let receipt = receipt_at_last(rt.alloc()).expect(&rt, "a receipt");
    if !sends_once_over(&rt, rt.alloc(), receipt) {
        let receipt = read_receipt(rt.alloc(), S.0).expect(&rt, "a receipt");
        assert!(&rt; sends_once_over(&rt, rt.alloc(), receipt));
    }
}

// The first mark has the number 0, and is the only opening mark.
const FIRST: Marks = Marks {
    first: 0,
    openings: 1,
};

// A receipt is sent over a link whose other end has answered. Answers no where memory is refused.
fn sends_on_link(rt: &impl Abort, alloc: Global, stream: &TcpStream) -> bool {
    let receipt = receipt_at_last(alloc).expect(rt, "a receipt");
    let mut room = [0; 32];
    let mut output = MemoryOut::new(&mut room);
    let link = PrinterLink::over_tcp(stream.try_clone().expect(rt, "no second")).expect(
        rt, "no link",
    );
    let status = send_on(alloc, link, FIRST, receipt, &mut output);
    is_sent(rt, output.written(), status)
}

// The same of a receipt that is read first. Where memory is refused before there is one, `memory` is all that is said.
fn sends_to_net(rt: &impl Abort, alloc: Global, net: &Prepared) -> bool {
    let mut room = [0; 32];
    let mut source = MemoryIn::new(S.0, 7);
    let mut output = MemoryOut::new(&mut room);
    let status = send_to(
        net,
        alloc,
        net.address.into(),
        FIRST,
        &ReceiptOptions::usual(),
        &mut source,
        &mut output,
    );
    if output.written() == MEMORY {
        assert!(rt; status == Status::Memory);
        return false;
    }
    is_sent(rt, output.written(), status)
}

// A call that sends a receipt over a link whose other end has answered.
#[derive(Clone, Copy)]
enum Sending {
    SendOn,
    SendTo,
}

// Makes a call over a new link. Answers no where memory is refused.
fn is_sending<N: Net<Stream = TcpStream, Listener = TcpListener> + Abort>(
    rt: &N,
    alloc: Global,
    call: Sending,
    (listener, address): (&TcpListener, SocketAddrV4),
) -> bool {
    let (client, _printer) = answered_link(rt, (listener, address), (ANSWERED_BYTES, 1));
    match call {
        Sending::SendOn => sends_on_link(rt, alloc, &client),
        Sending::SendTo => {
            let net = Prepared {
                address,
                listener,
                client: &client,
            };
            sends_to_net(rt, alloc, &net)
        }
    }
}

// Makes a call. Where memory is refused, it is made again.
fn is_sending_at_last<N: Net<Stream = TcpStream, Listener = TcpListener> + Abort>(
    rt: &N,
    alloc: Global,
    call: Sending,
) -> bool {
    let (listener, address) = listens(rt);
    let ends = (&listener, address);
    is_sending(rt, alloc, call, ends) || is_sending(rt, alloc, call, ends)
}

#[test]
fn send_on_refused(rt: HostRuntime) {
    assert!(&rt; is_sending_at_last(&rt, rt.alloc(), Sending::SendOn));
}

#[test]
fn send_to_refused(rt: HostRuntime) {
    assert!(&rt; is_sending_at_last(&rt, rt.alloc(), Sending::SendTo));
}

// What goes round to a printer and back.
const ROUND: (&[u8], Status) = (b"row left Hi\nfeed 1\nrecorded 0\n", Status::Good);

fn goes_round_once<N: Net<Stream = TcpStream, Listener = TcpListener> + Abort>(
    rt: &N,
    alloc: Global,
) -> bool {
    let mut room = [0; 64];
    let mut source = MemoryIn::new(S.0, 7);
    let mut output = MemoryOut::new(&mut room);
    let status = escpos_tcp_jobs::loop_link::loop_receipt(
        rt,
        alloc,
        LineWidth::usual(),
        &mut source,
        &mut output,
    );
    is_whole((output.written(), status), ROUND).expect(rt, "what a job puts")
}

#[test]
fn loop_receipt_refused(rt: HostRuntime) {
    if !goes_round_once(&rt, rt.alloc()) {
        assert!(&rt; goes_round_once(&rt, rt.alloc()));
    }
}

fn ends_meet<N: Net<Stream = TcpStream, Listener = TcpListener> + Abort>(
    rt: &N,
    alloc: Global,
) -> bool {
    let receipt = receipt_at_last(alloc).expect(rt, "a receipt");
    let mut room = [0; 64];
    let mut output = MemoryOut::new(&mut room);
    let status = escpos_tcp_jobs::loop_link::both_ends(
        rt,
        alloc,
        LineWidth::usual(),
        receipt,
        &mut output,
    );
    is_whole((output.written(), status), ROUND).expect(rt, "what a job puts")
}

#[test]
fn both_ends_refused(rt: HostRuntime) {
    if !ends_meet(&rt, rt.alloc()) {
        assert!(&rt; ends_meet(&rt, rt.alloc()));
    }
}
