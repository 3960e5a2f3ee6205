//! Links to a printer whose sensors are watched, over memory and over 127.0.0.1: what came is held while it is offline.

use crate::support::asked::Asked;
use crate::support::over_memory::{Link, plays_over_memory};
use crate::support::sockets::{connects_and_says, hears, listens};
use crate::support::steps::{Step, plays};
use escpos_addresses::address::AddressText;
use escpos_addresses::printer_link::Printers;
use escpos_command::LineWidth;
use escpos_io::MemoryOut;
use escpos_job_parts::condition::ONLINE;
use escpos_job_parts::status::Status;
use escpos_printer::Condition;
use escpos_tcp_jobs::condition_file::{ConditionFile, condition_in};
use escpos_tcp_jobs::watch::Conditions;
use escpos_tcp_jobs::watched_link::emulate_by_on;
use std::alloc::Global;
use std::fs::{File, Files};
use std::io::Write;
use std::net::TcpListener;
use std::process::Abort;

const COVER_OPEN: Condition = Condition {
    cover_open: true,
    near_end: false,
    paper_end: false,
};

const NEAR_END: Condition = Condition {
    cover_open: false,
    near_end: true,
    paper_end: false,
};

const PAPER_END: Condition = Condition {
    cover_open: false,
    near_end: true,
    paper_end: true,
};

// Paper that ends in the middle of a receipt, and comes back.
const SHORT: &[Condition] = &[ONLINE, PAPER_END, PAPER_END, PAPER_END, ONLINE];

// A cover that is opened while the host waits, and closed.
const OPENED: &[Condition] = &[
    ONLINE, ONLINE, ONLINE, ONLINE, COVER_OPEN, COVER_OPEN, ONLINE,
];

const HELD_LINKS: &[Link] = &[
    Link::TellUnasked,
    Link::Watch(
        b"Hi\n",
        SHORT,
        64,
        b"\x18\x00\x0F\x00\x10\x00\x00\x00",
        "link 1 read 3 consumed 3 written 8 Ended\nrow left Hi\nfeed 1\n",
    ),
    Link::Watch(
        b"Hi\n",
        SHORT,
        0,
        b"",
        "link 1 read 3 consumed 3 written 0 WriteFault\nrow left Hi\nfeed 1\n",
    ),
    Link::Watch(
        b"Hi\n\x10\x04\x01\xFE",
        SHORT,
        5,
        b"\x18\x00\x0F\x00\x10",
        "link 1 read 6 consumed 6 written 5 WriteFault\nrow left Hi\nfeed 1\n",
    ),
    Link::Watch(
        b"Hi\n\xFF\xFF\xFF\xFFYo\n",
        OPENED,
        64,
        b"\x38\x00\x00\x00\x10\x00\x00\x00",
        "link 1 read 6 consumed 6 written 8 Ended\nrow left Hi\nfeed 1\nrow left Yo\nfeed 1\n",
    ),
    Link::Watch(
        b"Hi\n\xFF\xFF\xFF\xFE",
        OPENED,
        64,
        b"\x38\x00\x00\x00",
        "link 1 read 3 consumed 3 written 4 ReadFault\nrow left Hi\nfeed 1\n",
    ),
    Link::Watch(
        b"H\xFFi\n\x10\x04\x01",
        &[NEAR_END],
        64,
        b"\x10\x00\x03\x00\x12",
        "link 1 read 6 consumed 6 written 5 Ended\nrow left Hi\nfeed 1\n",
    ),
    Link::Watch(
        b"\x10\x04\x01",
        &[NEAR_END, COVER_OPEN, COVER_OPEN, NEAR_END],
        64,
        b"\x38\x00\x00\x00\x10\x00\x03\x00\x12",
        "link 1 read 3 consumed 3 written 9 Ended\n",
    ),
    Link::Watch(
        b"A\n\x07B\n",
        &[NEAR_END, PAPER_END, NEAR_END],
        64,
        b"\x18\x00\x0F\x00\x10\x00\x03\x00",
        "link 1 read 3 consumed 2 written 8 Fault\nrow left A\nfeed 1\n",
    ),
    Link::Watch(
        b"",
        &[ONLINE],
        64,
        b"",
        "link 1 read 0 consumed 0 written 0 Ended\n",
    ),
];

// Paper that ends in the middle of a receipt, and comes back; a cover that is opened while the host waits, and as it leaves; a
// host that has left, by its end or by a fault; and bytes that are refused after that.
#[test]
fn held_links(rt: HostRuntime) {
    plays_over_memory(&rt, rt.alloc(), HELD_LINKS);
}

const UNTOLD_CHANGES: &[Link] = &[Link::WatchUntold(
    b"Hi\n",
    &[PAPER_END, COVER_OPEN, COVER_OPEN, ONLINE],
    (6, 3),
    "link 7 read 3 consumed 3 written 0 Ended\n",
    "row left Hi\nfeed 1\n",
)];

// While automatic status is off, nothing is told; a byte is held, and looked after, until the printer is online.
#[test]
fn untold_changes(rt: HostRuntime) {
    plays_over_memory(&rt, rt.alloc(), UNTOLD_CHANGES);
}

const LONG_WATCHED_LINK: &[Link] = &[Link::WatchLineFeeds(3_000)];

// A link with many rows, which are torn off while it is served, in order.
#[test]
fn long_watched_link(rt: HostRuntime) {
    plays_over_memory(&rt, rt.alloc(), LONG_WATCHED_LINK);
}

const FILE_TEXTS: [(&[u8], Option<Condition>); 9] = [
    (b"000", Some(ONLINE)),
    (b"011\n", Some(PAPER_END)),
    (b"100\n", Some(COVER_OPEN)),
    (b"", None),
    (b"\n", None),
    (b"00", None),
    (b"0000", None),
    (b"002\n", None),
    (b"000\n\n", None),
];

// The texts of a file.
#[test]
fn file_texts(rt: HostRuntime) {
    for (text, condition) in &FILE_TEXTS {
        assert!(&rt; condition_in(text) == *condition);
    }
}

// A file with this text.
fn writes<N: Files<File = File> + Abort>(rt: &N, path: &str, text: &[u8]) {
    let mut file = File::create(rt, path).expect(rt, "no file");
    file.write_all(text).expect(rt, "can't write");
}

// What a file says in turn, and what sensors say then.
const SAID: [(&[u8], Condition); 5] = [
    (b"0", NEAR_END),
    (b"100\n", COVER_OPEN),
    (b"", COVER_OPEN),
    (b"011", PAPER_END),
    (b"000\n", ONLINE),
];

// Sensors say what a file says, and before that, and while it says nothing, what they said last.
#[test]
fn file_of_a_condition(rt: HostRuntime) {
    let path = "watched-condition";
    let text = AddressText::of(path).expect(&rt, "a path");
    let mut sensors = ConditionFile::new(&rt, text, NEAR_END);
    assert!(&rt; sensors.look() == NEAR_END);
    for (text, condition) in &SAID {
        writes(&rt, path, text);
        assert!(&rt; sensors.look() == *condition);
    }
    removes(&rt, path);
    assert!(&rt; sensors.look() == ONLINE);
}

// Sensors of a file that somebody else writes: paper is put in at this look.
#[derive(Drop)]
struct Filled<'a, N> {
    rt: &'a N,
    path: &'a str,
    file: ConditionFile<'a, N>,
    looks: u32,
    at: u32,
}

impl<N: Printers + Files<File = File> + Abort> Conditions for Filled<'_, N> {
    ghost use Rattle.std.specs.Prelude.{None};

    ghost to_say = { λ _. None };

    fn look(&mut self) -> Condition {
        self.looks = self.looks.saturating_add(1);
        if self.looks == self.at {
            writes(self.rt, self.path, b"000\n");
        }
        self.file.look()
    }

    fn pause(&mut self) {
        self.file.pause();
    }
}

// Two links are served by a printer that is out of paper, which is put in at the fourth look: this is printed.
fn is_filled<N: Printers + Files<File = File> + Abort>(
    rt: &N,
    alloc: Global,
    listener: &TcpListener,
    path: &str,
    (first, lines): (&[u8], &[u8]),
) {
    let text = AddressText::of(path).expect(rt, "a path");
    let sensors = Filled {
        rt,
        path,
        file: ConditionFile::new(rt, text, ONLINE),
        looks: 0,
        at: 4,
    };
    let mut room = [0; 192];
    let mut output = MemoryOut::new(&mut room);
    let width = LineWidth::usual();
    let ended = emulate_by_on(alloc, listener, Some(2), width, sensors, &mut output);
    assert!(rt; ended == Status::Good);
    assert!(rt; output.written().starts_with(first));
    assert!(rt; output.written().ends_with(lines));
}

// A file is removed.
fn removes<N: Files + Abort>(rt: &N, path: &str) {
    std::fs::remove_file(rt, path).expect(rt, "no file");
}

// A host sends a receipt to a printer that is out of paper, and leaves; once paper is in, the receipt is printed. The next link is
// served too.
#[test]
fn paper_is_put_in(rt: HostRuntime) {
    let path = "watched-paper";
    let (listener, address) = listens(&rt);
    let first = connects_and_says(&rt, address, b"Hi\n\x10\x04\x01");
    drop(first);
    let mut second = connects_and_says(&rt, address, b"Yo\n\x10\x04\x01");
    writes(&rt, path, b"001\n");
    let line = b"link 1 read 6 consumed 6 written ".as_slice();
    let lines = b"\nlink 2 read 6 consumed 6 written 1 Ended\n\
        row left Hi\nfeed 1\nrow left Yo\nfeed 1\n"
        .as_slice();
    is_filled(&rt, rt.alloc(), &listener, path, (line, lines));
    assert!(&rt; hears(&rt, &mut second, b"\x12"));
    removes(&rt, path);
}

const WITHOUT_FILES: &[Step] = &[
    Step::Connect(b"\x10\x04\x04Hi\n"),
    Step::Connect(b"Yo\n"),
    Step::NoWait,
    Step::AskPrepared(
        Asked::EmulateBy(None, NEAR_END, "no-such-file"),
        b"",
        "link 1 read 6 consumed 6 written 1 Ended\nrow left Hi\nfeed 1\n\
        link 2 read 3 consumed 3 written 0 Ended\nrow left Yo\nfeed 1\n",
        Status::Device,
    ),
    Step::Hears(0, b"\x1E"),
];

// The same where links are followed until the listener accepts no more, over a network that reaches no files: the condition that
// was given stays.
#[test]
fn watched_without_files(rt: HostRuntime) {
    plays(&rt, rt.alloc(), WITHOUT_FILES);
}
