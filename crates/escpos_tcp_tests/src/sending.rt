//! The job `send`, and a link of it over memory.

use crate::support::asked::{Asked, RECEIPT, task_of};
use crate::support::jobs::is_outcome;
use crate::support::sockets::{ANSWERED_BYTES, NEVER};
use crate::support::steps::{Step, plays, plays_alone};
use escpos_addresses::address::Address;
use escpos_addresses::printer_link::Printers;
use escpos_io::{ByteIn, MemoryIn, MemoryOut};
use escpos_job_parts::condition::ONLINE;
use escpos_job_parts::status::Status;
use escpos_jobs::task::Task;
use escpos_receipt::ReceiptOptions;
use escpos_tcp_jobs::send::{Marks, send_over};
use escpos_test_jobs::{performs, run_job};
use escpos_test_receipts::read_receipt;
use std::alloc::Global;
use std::net::{Ipv4Addr, Net, SocketAddrV4, TcpListener};
use std::process::Abort;

const SEND_RECORDED: &[Step] = &[
    Step::Answered(ANSWERED_BYTES, 1),
    Step::SendOn(0, (0, 1), "recorded 0\nnext 2\n", Status::Good),
    Step::IsPrompt(0),
    Step::Hears(1, b"\x1D(H\x06\x00000000\x1B@Hi\n\x1D(H\x06\x00000001"),
];

#[test]
fn send_recorded(rt: HostRuntime) {
    assert!(&rt; ANSWERED_BYTES.len() == 71);
    plays(&rt, rt.alloc(), SEND_RECORDED);
}

const NOT_RECORDED: &[Step] = &[
    Step::Answered(b"", 1),
    Step::SendOn(0, (7, 3), "not recorded Ended\nnext 10\n", Status::Device),
    Step::Answered(b"\x37\x220009\x00", 1),
    Step::SendOn(2, (7, 3), "not recorded Ended\nnext 11\n", Status::Device),
    Step::Answered(b"\x12\xFF", 1),
    Step::SendOn(
        4,
        (7, 3),
        "not recorded BadAnswer\nnext 10\n",
        Status::Device,
    ),
    Step::Answered(b"\x12\x12\x12\x12", 20_000),
    Step::SendOn(6, (7, 3), "not recorded TooLong\nnext 10\n", Status::Device),
];

#[test]
fn not_recorded(rt: HostRuntime) {
    plays(&rt, rt.alloc(), NOT_RECORDED);
}

// A receipt is sent to a printer at this text, and there is no link.
fn finds_no_device<N: Printers + Net<Listener = TcpListener> + Abort>(
    rt: &N,
    alloc: Global,
    text: &str,
) {
    let task = Task::Send {
        address: Address::of_text(text).expect(rt, "an address"),
        first: 0,
        openings: 1,
        wait: None,
        options: ReceiptOptions::usual(),
    };
    let mut room = [0; 64];
    let mut input = MemoryIn::new(RECEIPT, 100);
    let mut output = MemoryOut::new(&mut room);
    let ended = run_job(rt, alloc, Ok(task), &mut input, &mut output);
    is_outcome(
        rt,
        (output.written(), ended),
        (b"no link\n", Status::Device),
    );
}

// A device that isn't there, one that can't be waited for, and a folder.
#[test]
fn no_device(rt: HostRuntime) {
    for text in ["file:/dev/no_such_printer", "file:/dev/null", "file:/"] {
        finds_no_device(&rt, rt.alloc(), text);
    }
}

const MARKS_USED_UP: &[Step] = &[Step::SendTo(
    (4_294_967_294, 2),
    RECEIPT,
    "not recorded MarksUsedUp\nnext 4294967295\n",
    Status::Refused,
)];

const NO_LINK: &[Step] = &[Step::SendTo((0, 1), RECEIPT, "no link\n", Status::Device)];

#[test]
fn send_refused(rt: HostRuntime) {
    let address = plays(&rt, rt.alloc(), MARKS_USED_UP);
    plays_alone(&rt, rt.alloc(), address, NO_LINK);
}

const NO_RECEIPT: &[Step] = &[
    Step::NoWait,
    Step::SendTo(
        (0, 3),
        b"[{\"line\":\"Hi\"},{\"feed\":256}]",
        "refused 6 BadShape 1\n",
        Status::Refused,
    ),
    Step::NobodyWaits,
    Step::SendUnread((0, 3), RECEIPT, "", Status::Device),
    Step::NobodyWaits,
];

// What isn't a receipt is refused before anything is connected.
#[test]
fn no_receipt_no_link(rt: HostRuntime) {
    plays(&rt, rt.alloc(), NO_RECEIPT);
}

// A first mark, the calls from which on reads and writes fail, what is printed and the status.
const OUTCOMES: [(u32, (u64, u64), &str, Status); 6] = [
    (
        0,
        (1, NEVER),
        "not recorded ReadFault\nnext 3\n",
        Status::Device,
    ),
    (
        0,
        (2, NEVER),
        "not recorded ReadFault\nnext 4\n",
        Status::Device,
    ),
    (
        0,
        (NEVER, 1),
        "not recorded WriteFault\nnext 3\n",
        Status::Device,
    ),
    (
        0,
        (NEVER, 2),
        "not recorded WriteFault\nnext 4\n",
        Status::Device,
    ),
    (
        1,
        (NEVER, NEVER),
        "not recorded Ended\nnext 5\n",
        Status::Device,
    ),
    (
        4_294_967_293,
        (NEVER, NEVER),
        "not recorded MarksUsedUp\nnext 4294967295\n",
        Status::Refused,
    ),
];

// A receipt is sent over memory after three opening marks, with these answers and with reads and writes that fail from these calls on,
// and this is printed to an output with this room.
fn sends_over_memory(
    rt: &impl Abort,
    alloc: Global,
    (first, answers): (u32, &[u8]),
    (read, write): (u64, u64),
    printed: &mut [u8],
    wanted: (&[u8], Status),
) {
    let receipt = read_receipt(alloc, RECEIPT).expect(rt, "a receipt");
    let mut room = [0; 64];
    let mut reader = MemoryIn::failing(answers, 7, read);
    let mut writer = MemoryOut::failing(&mut room, write);
    let mut output = MemoryOut::new(printed);
    let marks = Marks { first, openings: 3 };
    let ended = send_over(alloc, marks, receipt, &mut reader, &mut writer, &mut output);
    is_outcome(rt, (output.written(), ended), wanted);
}

// Each outcome is printed; an output that takes five bytes alone has those.
#[test]
fn outcomes_of_a_receipt(rt: HostRuntime) {
    for (first, faults, text, status) in &OUTCOMES {
        let answers = b"\x37\x220000\x00\x37\x220003\x00";
        let wanted = (text.as_bytes(), *status);
        let (mut printed, mut few) = ([0; 64], [0; 5]);
        let sent = (*first, answers.as_slice());
        sends_over_memory(&rt, rt.alloc(), sent, *faults, &mut printed, wanted);
        let beginning = text.as_bytes().get(..5).expect(&rt, "five bytes");
        let wanted = (beginning, Status::Device);
        let unsent = (*first, b"".as_slice());
        sends_over_memory(&rt, rt.alloc(), unsent, (NEVER, 1), &mut few, wanted);
    }
}

// What is asked for, the input, what is printed and the status.
const NOWHERE: [(Asked, &[u8], &[u8], Status); 5] = [
    (Asked::Emulate(Some(1), ONLINE), b"", b"", Status::Device),
    (Asked::Send(3), RECEIPT, b"no link\n", Status::Device),
    (Asked::Loop, RECEIPT, b"no link\n", Status::Device),
    (
        Asked::Send(3),
        b"[1]",
        b"refused 6 BadShape 0\n",
        Status::Refused,
    ),
    (
        Asked::Loop,
        b"[1]",
        b"refused 6 BadShape 0\n",
        Status::Refused,
    ),
];

// Without a network nothing is listened to, and nothing is sent.
#[test]
fn no_network(rt: HostRuntime) {
    let address = SocketAddrV4::new(Ipv4Addr::new(127, 0, 0, 1), 9100);
    for (asked, input, output, status) in &NOWHERE {
        assert!(&rt; ends_nowhere(rt.alloc(), address, *asked, input, (output, *status)));
    }
}

// What is asked for without a network prints this. It reads its input, unless there is none.
fn ends_nowhere(
    alloc: Global,
    address: SocketAddrV4,
    asked: Asked,
    input: &[u8],
    wanted: (&[u8], Status),
) -> bool {
    match task_of(address.into(), asked) {
        Some(task) => prints_nowhere(alloc, task, input, wanted),
        None => false,
    }
}

fn prints_nowhere(alloc: Global, task: Task, input: &[u8], wanted: (&[u8], Status)) -> bool {
    let mut source = MemoryIn::new(input, 100);
    let printed = performs(alloc, Ok(task), &mut source, &mut [0; 64], wanted);
    printed && (source.pulls() > 0) == !input.is_empty()
}

const OVER_LINKS: &[Step] = &[
    Step::Answered(ANSWERED_BYTES, 1),
    Step::AskPrepared(
        Asked::Send(1),
        RECEIPT,
        "recorded 0\nnext 2\n",
        Status::Good,
    ),
    Step::Connect(b"Hi\n"),
    Step::Connect(b"Yo\n"),
    Step::AskPrepared(
        Asked::Emulate(Some(2), ONLINE),
        b"",
        "link 1 read 3 consumed 3 written 0 Ended\n\
        link 2 read 3 consumed 3 written 0 Ended\n\
        row left Hi\nfeed 1\nrow left Yo\nfeed 1\n",
        Status::Good,
    ),
];

// What the arguments ask for is done at their address, with their numbers.
#[test]
fn tasks_over_links(rt: HostRuntime) {
    plays(&rt, rt.alloc(), OVER_LINKS);
}
