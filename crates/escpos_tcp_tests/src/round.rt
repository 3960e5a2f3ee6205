//! The job `loop`: a receipt goes over a link of the program with itself.

use crate::support::sockets::listens;
use escpos_command::LineWidth;
use escpos_help::texts::HELP_END;
use escpos_io::{MemoryIn, MemoryOut};
use escpos_job_parts::condition::ONLINE;
use escpos_job_parts::status::Status;
use escpos_printer::{Condition, Printer};
use escpos_tcp_jobs::loop_link::{both_ends_of, loop_receipt};
use escpos_test_receipts::{S, joined, read_receipt};
use std::alloc::Global;
use std::net::{Net, Shutdown, TcpListener, TcpStream};
use std::process::Abort;

// A receipt goes over a link of the program with itself, and this is printed.
fn goes_round<N: Net<Stream = TcpStream, Listener = TcpListener> + Abort>(
    rt: &N,
    alloc: Global,
    text: &[u8],
    (printed, status): (&[u8], Status),
) {
    let mut room = [0; 4096];
    let mut input = MemoryIn::new(text, 512);
    let mut output = MemoryOut::new(&mut room);
    let ended = loop_receipt(rt, alloc, LineWidth::usual(), &mut input, &mut output);
    assert!(rt; output.written() == printed);
    assert!(rt; ended == status);
}

#[test]
fn loop_rows(rt: HostRuntime) {
    let rows: [(&[u8], &[u8], Status); 3] = [
        (
            b"[{\"line\":\"Hi\"}]",
            b"row left Hi\nfeed 1\nrecorded 0\n",
            Status::Good,
        ),
        (b"[]", b"refused 1 Empty\n", Status::Refused),
        (
            b"[{\"text\":\"A\"}]",
            b"refused 3 TextLeft\n",
            Status::Refused,
        ),
    ];
    let shown = "          row left Hi\n          feed 1\n          recorded 0\n";
    assert!(&rt; HELP_END.contains(shown));
    for (text, printed, status) in rows {
        goes_round(&rt, rt.alloc(), text, (printed, status));
    }
}

// A first part, so many others and a last one go round, and these are printed.
fn goes_round_at_length<N: Net<Stream = TcpStream, Listener = TcpListener> + Abort>(
    rt: &N,
    alloc: Global,
    count: usize,
    (text, printed): ([&str; 3], [&str; 3]),
) {
    let text = joined(alloc, text, count).expect(rt, "memory");
    let printed = joined(alloc, printed, count).expect(rt, "memory");
    goes_round(rt, alloc, &text, (&printed, Status::Good));
}

// Receipts that take several turns: of one turn with all its 512 bytes, of a byte more, and of three.
#[test]
fn loop_in_turns(rt: HostRuntime) {
    let feeds = [
        ["[{\"line\":\"\"}", ",{\"feed\":0}", "]"],
        ["feed 1\n", "feed 0\n", "recorded 0\n"],
    ];
    goes_round_at_length(&rt, rt.alloc(), 166, (feeds[0], feeds[1]));
    let one_more = [
        ["[{\"line\":\"A\"}", ",{\"feed\":0}", "]"],
        ["row left A\nfeed 1\n", "feed 0\n", "recorded 0\n"],
    ];
    goes_round_at_length(&rt, rt.alloc(), 166, (one_more[0], one_more[1]));
    let lines = [
        [
            "[",
            "{\"line\":\"Two coffees, and one apple cake, 8.00\"},",
            "{\"cut\":\"full\"}]",
        ],
        [
            "",
            "row left Two coffees, and one apple cake, 8.00\nfeed 1\n",
            "cut full\nrecorded 0\n",
        ],
    ];
    goes_round_at_length(&rt, rt.alloc(), 30, (lines[0], lines[1]));
}

// A receipt that goes round to a printer which doesn't take it isn't recorded, and what is on paper is written.
#[test]
fn loop_breaks(rt: HostRuntime) {
    let (listener, address) = listens(&rt);
    let near = TcpStream::connect(&rt, address).expect(&rt, "no link");
    let (far, _) = listener.accept().expect(&rt, "no link");
    let mut printer = Printer::new(rt.alloc(), ONLINE, LineWidth::usual()).expect(&rt, "memory");
    let fed = printer.feed(b"Hi\n");
    assert!(&rt; fed.consumed == 3);
    let open = Condition {
        cover_open: true,
        ..ONLINE
    };
    printer.set_condition(open);
    let wanted = (
        "row left Hi\nfeed 1\nnot recorded Offline\n",
        Status::Device,
    );
    breaks(&rt, rt.alloc(), (&near, &far), &mut printer, wanted);
    printer.restart();
    printer.set_condition(ONLINE);
    far.shutdown(Shutdown::Both).expect(&rt, "can't end");
    let wanted = ("row left Hi\nfeed 1\nnot recorded ", Status::Device);
    breaks(&rt, rt.alloc(), (&near, &far), &mut printer, wanted);
}

// A receipt goes round over this connection: the status is this, and what is printed begins so.
fn breaks(
    rt: &impl Abort,
    alloc: Global,
    (near, far): (&TcpStream, &TcpStream),
    printer: &mut Printer,
    (text, status): (&str, Status),
) {
    let receipt = read_receipt(alloc, S.0).expect(rt, "a receipt");
    let mut room = [0; 128];
    let mut output = MemoryOut::new(&mut room);
    let ended = both_ends_of(alloc, near, far, printer, receipt, &mut output);
    assert!(rt; ended == status);
    assert!(rt; output.written().starts_with(text.as_bytes()));
}
