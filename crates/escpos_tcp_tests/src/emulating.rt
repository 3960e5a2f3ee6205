//! The job `emulate`, and a link of it over memory.

use crate::support::asked::Asked;
use crate::support::over_memory::{Link, plays_over_memory};
use crate::support::serving::Printed;
use crate::support::sockets::NEVER;
use crate::support::steps::{Step, plays};
use escpos_job_parts::condition::ONLINE;
use escpos_job_parts::status::Status;
use escpos_printer::Condition;

const OPEN: Condition = Condition {
    cover_open: true,
    near_end: false,
    paper_end: false,
};

const OPEN_AND_NEAR_END: Condition = Condition {
    cover_open: true,
    near_end: true,
    paper_end: false,
};

const NEAR_END: Condition = Condition {
    cover_open: false,
    near_end: true,
    paper_end: false,
};

const TWO_CLIENTS: &[Step] = &[
    Step::Connect(b"\x1D(H\x06\x00000000\x1B!"),
    Step::Connect(b"\x08Hi\n"),
    Step::Serve(
        2,
        Printed::All(
            "link 1 read 13 consumed 13 written 7 Ended\n\
            link 2 read 4 consumed 4 written 0 Ended\n\
            row left [A,1,1,1,0,0]Hi\n\
            feed 1\n",
        ),
        Status::Good,
    ),
    Step::Hears(0, b"\x37\x220000\x00"),
    Step::Hears(1, b""),
];

#[test]
fn two_clients(rt: HostRuntime) {
    plays(&rt, rt.alloc(), TWO_CLIENTS);
}

const OTHER_LINKS_FOLLOW: &[Step] = &[
    Step::Connect(b"Hi\n\x1B&\xFF\x07"),
    Step::ConnectAndGo(1),
    Step::Connect(b"\x10\x04\x01Yo\n"),
    Step::Serve(
        3,
        Printed::All(
            "link 1 read 7 consumed 4 written 0 Fault\n\
            link 2 read 0 consumed 0 written 0 Ended\n\
            link 3 read 6 consumed 6 written 1 Ended\n\
            row left Hi\n\
            feed 1\n\
            row left Yo\n\
            feed 1\n",
        ),
        Status::Good,
    ),
    Step::Hears(1, b"\x12"),
];

// A link that is refused a byte, and one whose client has gone, are followed by the next.
#[test]
fn other_links_follow(rt: HostRuntime) {
    plays(&rt, rt.alloc(), OTHER_LINKS_FOLLOW);
}

const CLIENT_RESETS: &[Step] = &[
    Step::GoUnread,
    Step::Connect(b"Yo\n"),
    Step::Serve(
        2,
        Printed::Parts("link 1 read ", " WriteFault\nlink 2 read 3 consumed "),
        Status::Good,
    ),
];

// A client that goes with its answers unread resets its link: its writes fail, and the next link is served.
#[test]
fn client_resets(rt: HostRuntime) {
    plays(&rt, rt.alloc(), CLIENT_RESETS);
}

const LINKS_THAT_FAIL: &[Step] = &[
    Step::NoWait,
    Step::Serve(1, Printed::All(""), Status::Device),
    Step::Connect(b"Hi\n"),
    Step::Serve(
        2,
        Printed::All("link 1 read 3 consumed 3 written 0 Ended\nrow left Hi\nfeed 1\n"),
        Status::Device,
    ),
    Step::Connect(b"Hi\n"),
    Step::ServeInto(
        41,
        1,
        Printed::All("link 1 read 3 consumed 3 written 0 Ended\n"),
        Status::Device,
    ),
    Step::IsInUse,
];

// Nobody connects to a listener that doesn't wait: no link can be accepted. An output that is full ends with the link's line.
#[test]
fn links_that_fail(rt: HostRuntime) {
    plays(&rt, rt.alloc(), LINKS_THAT_FAIL);
}

const LINES_GO_OUT: &[Step] = &[
    Step::Connect(b"Hi\n"),
    Step::Connect(b"Hi\n"),
    Step::ServeUnheard(2),
    Step::OneWaits,
];

// Links are taken one after another: where the line of the first can't go out, the second is still to be accepted.
#[test]
fn lines_go_out_link_by_link(rt: HostRuntime) {
    plays(&rt, rt.alloc(), LINES_GO_OUT);
}

const MANY_LINKS: &[Step] = &[
    Step::ConnectAndGo(120),
    Step::Serve(
        119,
        Printed::Last("\nlink 119 read 0 consumed 0 written 0 Ended\n"),
        Status::Good,
    ),
    Step::OneWaits,
];

// As many links are served as there are to be, and their lines are counted.
#[test]
fn many_links(rt: HostRuntime) {
    plays(&rt, rt.alloc(), MANY_LINKS);
}

const EMULATED_CONDITION: &[Step] = &[
    Step::Connect(b"\x10\x04\x01\x10\x04\x02\x10\x04\x04Hi\n"),
    Step::Connect(b"\x10\x04\x02"),
    Step::AskPrepared(
        Asked::Emulate(Some(2), OPEN_AND_NEAR_END),
        b"",
        "link 1 read 12 consumed 9 written 3 Offline\n\
        link 2 read 3 consumed 3 written 1 Ended\n",
        Status::Good,
    ),
    Step::Hears(0, b"\x1A\x16\x1E"),
];

// What the sensors say is answered, on each link: emulated_condition.
#[test]
fn emulated_condition(rt: HostRuntime) {
    plays(&rt, rt.alloc(), EMULATED_CONDITION);
}

const FOLLOWED_LINKS: &[Step] = &[
    Step::Connect(b"Hi\n\x1BE\x01A\n"),
    Step::Connect(b"Yo\n"),
    Step::NoWait,
    Step::Follow(
        "link 1 read 8 consumed 8 written 0 Ended\n\
        row left Hi\nfeed 1\nrow left [A,1,1,1,0,0]A\nfeed 1\n\
        link 2 read 3 consumed 3 written 0 Ended\n\
        row left [A,1,1,1,0,0]Yo\nfeed 1\n",
        Status::Device,
    ),
];

// Two links are followed until the listener accepts no more, and what each printed comes after its line:
// followed_links, followed_styles.
#[test]
fn followed_links(rt: HostRuntime) {
    plays(&rt, rt.alloc(), FOLLOWED_LINKS);
}

const FOLLOWED_CONDITION: &[Step] = &[
    Step::Connect(b"\x10\x04\x04Hi\n"),
    Step::Connect(b"A\n\x07"),
    Step::Connect(b"Yo\n"),
    Step::NoWait,
    Step::AskPrepared(
        Asked::Emulate(None, NEAR_END),
        b"",
        "link 1 read 6 consumed 6 written 1 Ended\nrow left Hi\nfeed 1\n\
        link 2 read 3 consumed 2 written 0 Fault\nrow left A\nfeed 1\n\
        link 3 read 3 consumed 3 written 0 Ended\nrow left Yo\nfeed 1\n",
        Status::Device,
    ),
    Step::Ask(Asked::Emulate(None, NEAR_END), b"", "", Status::Device),
    Step::Hears(0, b"\x1E"),
];

// Links are followed by a printer whose paper is near its end, one of them after a byte that is refused; and none at a port
// that is in use: followed_condition, followed_fault, followed_nowhere.
#[test]
fn followed_condition(rt: HostRuntime) {
    plays(&rt, rt.alloc(), FOLLOWED_CONDITION);
}

// A line, and three requests.
const REQUESTS: &[u8] = b"Hi\n\x10\x04\x01\x10\x04\x02\x10\x04\x04";

const OUTCOMES: &[Link] = &[
    Link::Serve(
        REQUESTS,
        (1, 64),
        1,
        "link 1 read 0 consumed 0 written 0 ReadFault\n",
    ),
    Link::Serve(
        REQUESTS,
        (2, 64),
        1,
        "link 1 read 12 consumed 12 written 3 ReadFault\n",
    ),
    Link::Serve(
        REQUESTS,
        (3, 64),
        1,
        "link 1 read 12 consumed 12 written 3 Ended\n",
    ),
    Link::Serve(
        REQUESTS,
        (NEVER, 0),
        1,
        "link 1 read 12 consumed 12 written 0 WriteFault\n",
    ),
    Link::Serve(
        REQUESTS,
        (NEVER, 1),
        1,
        "link 1 read 0 consumed 0 written 1 WriteFault\n",
    ),
    Link::Serve(
        REQUESTS,
        (NEVER, 2),
        1,
        "link 1 read 12 consumed 12 written 2 WriteFault\n",
    ),
    Link::Serve(
        REQUESTS,
        (NEVER, 5),
        1,
        "link 1 read 12 consumed 12 written 3 Ended\n",
    ),
    Link::Set(OPEN),
    Link::Serve(
        b"\x1B!\x08",
        (NEVER, 64),
        1000,
        "link 1000 read 3 consumed 2 written 0 Offline\n",
    ),
];

#[test]
fn outcomes_of_a_link(rt: HostRuntime) {
    plays_over_memory(&rt, rt.alloc(), OUTCOMES);
}

// The bytes come in parts of 16,384, two of which end within a command; all the paper is torn off.
const LONG_LINK: &[Link] = &[Link::ServeLong(
    ("\x10\x04\x01Hi\n", "A\x1BE\x00\n", "\x10\x04\x02Yo\n"),
    8_000,
    "link 7 read 40012 consumed 40012 written 2 Ended\n",
    (
        "row left Hi\nfeed 1\n",
        "row left A\nfeed 1\n",
        "row left Yo\nfeed 1\n",
    ),
)];

#[test]
fn long_link(rt: HostRuntime) {
    plays_over_memory(&rt, rt.alloc(), LONG_LINK);
}

const LINK_BY_LINK: &[Link] = &[
    Link::Follow(
        1,
        b"A\nB",
        "link 1 read 3 consumed 3 written 0 Ended\nrow left A\nfeed 1\n",
    ),
    Link::Follow(
        2,
        b"C\n",
        "link 2 read 2 consumed 2 written 0 Ended\nrow left BC\nfeed 1\n",
    ),
    Link::Follow(3, b"", "link 3 read 0 consumed 0 written 0 Ended\n"),
    Link::Follow(
        4,
        b"\x1B@\x10\x04\x01",
        "link 4 read 5 consumed 5 written 1 Ended\n",
    ),
    Link::Follow(5, b"D\x07", "link 5 read 2 consumed 1 written 0 Fault\n"),
    Link::Follow(
        6,
        b"\n",
        "link 6 read 1 consumed 1 written 0 Ended\nrow left D\nfeed 1\n",
    ),
];

// A line that a link leaves is ended by the next one; nothing that was printed comes again: followed_line, followed_nothing.
#[test]
fn followed_link_by_link(rt: HostRuntime) {
    plays_over_memory(&rt, rt.alloc(), LINK_BY_LINK);
}
