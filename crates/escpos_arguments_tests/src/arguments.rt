//! The arguments of the command line, and what they ask for.

use crate::support::asking::{asks_for, printer};
use escpos_addresses::address::Address;
use escpos_arguments::asks_version;
use escpos_command::LineWidth;
use escpos_job_parts::condition::ONLINE;
use escpos_job_parts::form::Form;
use escpos_jobs::task::{NoTask, Task};
use escpos_printer::Condition;
use escpos_receipt::ReceiptOptions;
use std::alloc::Global;
use std::net::{IpAddr, Ipv4Addr, Ipv6Addr, SocketAddr, SocketAddrV4};
use std::process::Abort;

// Words that name no task, and why.
const NO_TASKS: [(&'static [&'static str], NoTask); 53] = [
    (&["check", "--raw", "--help"], NoTask::Help),
    (&["--raw", "check"], NoTask::Usage),
    (&["check", "--raw", "--raw"], NoTask::Usage),
    (&["check", "--raw=true"], NoTask::Usage),
    (&["check", "--raw", "extra"], NoTask::Usage),
    (&["check", "-raw"], NoTask::Usage),
    (&["play", "--raw"], NoTask::Usage),
    (&["help"], NoTask::Help),
    (&["--help"], NoTask::Help),
    (&["-h"], NoTask::Help),
    (&["check", "--help"], NoTask::Help),
    (&["render", "--help"], NoTask::Help),
    (&["draw", "--help"], NoTask::Help),
    (&["draw", "extra"], NoTask::Usage),
    (&["encode", "--help"], NoTask::Help),
    (&["encode", "-h"], NoTask::Help),
    (&["emulate", "--help"], NoTask::Help),
    (&["emulate", "-h"], NoTask::Help),
    (&["emulate", "127.0.0.1:80", "-h"], NoTask::Help),
    (&["send", "--help"], NoTask::Help),
    (&["send", "-h"], NoTask::Help),
    (&["send", "--first", "0", "--help"], NoTask::Help),
    (&["status", "--help"], NoTask::Help),
    (&["status", "-h"], NoTask::Help),
    (&["status", "127.0.0.1:80", "-h"], NoTask::Help),
    (&["loop", "--help"], NoTask::Help),
    (&["loop", "-h"], NoTask::Help),
    (&[], NoTask::Usage),
    (&[""], NoTask::Usage),
    (&["-"], NoTask::Usage),
    (&["--"], NoTask::Usage),
    (&["nosuch"], NoTask::Usage),
    (&["Check"], NoTask::Usage),
    (&["chec"], NoTask::Usage),
    (&["--nosuch"], NoTask::Usage),
    (&["-V"], NoTask::Usage),
    (&["--version"], NoTask::Usage),
    (&["check", "--nosuch"], NoTask::Usage),
    (&["check", "extra"], NoTask::Usage),
    (&["encode", "check"], NoTask::Usage),
    (&["check", "check"], NoTask::Usage),
    (&["check", "--"], NoTask::Usage),
    (&["check", "help"], NoTask::Usage),
    (&["loop", "extra"], NoTask::Usage),
    (&["loop", "127.0.0.1:80"], NoTask::Usage),
    (&["loop", "--links", "3"], NoTask::Usage),
    (&["loop", "--"], NoTask::Usage),
    (&["Loop"], NoTask::Usage),
    (&["render", "--"], NoTask::Usage),
    (&["draw", "--"], NoTask::Usage),
    (&["encode", "--"], NoTask::Usage),
    (&["play", "--"], NoTask::Usage),
    (&["help", "--"], NoTask::Usage),
];

// What a command and what follows it ask for.
fn asks_for_command<'a>(
    rt: &impl Abort,
    alloc: Global,
    command: &'a str,
    given: &[&'a str],
    asked: Result<Task, NoTask>,
) {
    let mut arguments = Vec::new(alloc);
    arguments.push(command).expect(rt, "memory");
    arguments.extend_from_slice(given).expect(rt, "memory");
    asks_for(rt, alloc, arguments.as_slice(), asked);
}

// A name and what follows it ask for this of a stream in this form, for lines of the usual width.
fn names(rt: &impl Abort, alloc: Global, form: Form, given: &[&str]) {
    let width = LineWidth::usual();
    let options = ReceiptOptions::usual();
    let pass = false;
    let rows = [
        ("check", Task::Check { form, pass }),
        ("render", Task::Render { form, pass, width }),
        ("draw", Task::Draw { form, pass, width }),
        ("encode", Task::Encode { form, options }),
    ];
    for (name, task) in rows {
        asks_for_command(rt, alloc, name, given, Ok(task));
    }
}

#[test]
fn arguments_name_tasks(rt: HostRuntime) {
    let width = LineWidth::usual();
    names(&rt, rt.alloc(), Form::Hexadecimal, &[]);
    names(&rt, rt.alloc(), Form::Raw, &["--raw"]);
    names(&rt, rt.alloc(), Form::Raw, &["--raw", "--"]);
    asks_for(&rt, rt.alloc(), &["play"], Ok(Task::Play));
    asks_for(&rt, rt.alloc(), &["loop"], Ok(Task::Loop { width }));
    for (arguments, why) in &NO_TASKS {
        asks_for(&rt, rt.alloc(), arguments, Err(*why));
    }
    for arguments in [["check"; 4].as_slice(), &["check"; 100], &["--"; 100]] {
        asks_for(&rt, rt.alloc(), arguments, Err(NoTask::Usage));
    }
}

// The arguments after `emulate`, and for how many links they ask.
const EMULATE_ARGUMENTS: [(&'static [&'static str], u32); 10] = [
    (&["127.0.0.1:9100"], 1),
    (&["127.0.0.1:9100", "--links", "3"], 3),
    (&["127.0.0.1:9100", "--links=3"], 3),
    (&["--links", "3", "127.0.0.1:9100"], 3),
    (&["--links=3", "127.0.0.1:9100"], 3),
    (&["--links", "3", "--", "127.0.0.1:9100"], 3),
    (&["127.0.0.1:9100", "--links", "1"], 1),
    (&["127.0.0.1:9100", "--links", "1000"], 1_000),
    (&["127.0.0.1:9100", "--links", "+5"], 5),
    (&["127.0.0.1:9100", "--links", "007"], 7),
];

fn emulate_task(address: Address, links: Option<u32>, condition: Condition) -> Task {
    Task::Emulate {
        address,
        links,
        condition,
        width: LineWidth::usual(),
        file: None,
    }
}

#[test]
fn arguments_of_emulate(rt: HostRuntime) {
    for (given, links) in &EMULATE_ARGUMENTS {
        let asked = Ok(emulate_task(printer(), Some(*links), ONLINE));
        asks_for_command(&rt, rt.alloc(), "emulate", given, asked);
    }
}

// The arguments after `send`, and the number of the first mark and how many opening marks they ask for.
const SEND_ARGUMENTS: [(&'static [&'static str], u32, u32); 13] = [
    (&["127.0.0.1:9100", "--first", "8"], 8, 3),
    (&["127.0.0.1:9100", "--first=8"], 8, 3),
    (&["--first", "8", "127.0.0.1:9100"], 8, 3),
    (&["127.0.0.1:9100", "--first", "8", "--openings", "5"], 8, 5),
    (&["--openings", "5", "--first", "8", "127.0.0.1:9100"], 8, 5),
    (&["--first=8", "127.0.0.1:9100", "--openings=5"], 8, 5),
    (&["--openings=5", "127.0.0.1:9100", "--first=8"], 8, 5),
    (&["127.0.0.1:9100", "--first", "0"], 0, 3),
    (
        &["127.0.0.1:9100", "--first", "4294967295"],
        4_294_967_295,
        3,
    ),
    (&["127.0.0.1:9100", "--first", "8", "--openings", "1"], 8, 1),
    (
        &["127.0.0.1:9100", "--first", "8", "--openings", "99"],
        8,
        99,
    ),
    (&["127.0.0.1:9100", "--first", "+8"], 8, 3),
    (&["127.0.0.1:9100", "--first", "08"], 8, 3),
];

fn send_task(address: Address, first: u32, openings: u32, wait: Option<u32>) -> Task {
    Task::Send {
        address,
        first,
        openings,
        wait,
        options: ReceiptOptions::usual(),
    }
}

#[test]
fn arguments_of_send(rt: HostRuntime) {
    for (given, first, openings) in &SEND_ARGUMENTS {
        let asked = Ok(send_task(printer(), *first, *openings, None));
        asks_for_command(&rt, rt.alloc(), "send", given, asked);
    }
}

// The arguments after `emulate` that ask for a printer in a condition, for so many links, or to be followed.
const CONDITIONS: [(&'static [&'static str], Option<u32>, Condition); 8] = [
    (&["127.0.0.1:9100", "--condition", "000"], Some(1), ONLINE),
    (
        &["127.0.0.1:9100", "--condition=100", "--links", "9"],
        Some(9),
        Condition {
            cover_open: true,
            ..ONLINE
        },
    ),
    (
        &["--condition", "010", "127.0.0.1:9100"],
        Some(1),
        Condition {
            near_end: true,
            ..ONLINE
        },
    ),
    (
        &["127.0.0.1:9100", "--condition", "001"],
        Some(1),
        Condition {
            paper_end: true,
            ..ONLINE
        },
    ),
    (&["127.0.0.1:9100", "--follow"], None, ONLINE),
    (&["--follow", "127.0.0.1:9100"], None, ONLINE),
    (
        &["127.0.0.1:9100", "--follow", "--condition", "000"],
        None,
        ONLINE,
    ),
    (
        &["127.0.0.1:9100", "--condition", "111", "--follow"],
        None,
        Condition {
            cover_open: true,
            near_end: true,
            paper_end: true,
        },
    ),
];

#[test]
fn conditions_of_emulate(rt: HostRuntime) {
    for (given, links, condition) in &CONDITIONS {
        let asked = Ok(emulate_task(printer(), *links, *condition));
        asks_for_command(&rt, rt.alloc(), "emulate", given, asked);
    }
}

// The arguments after `send` with `--wait`, and after `status`: the first mark and how many opening marks, for `send`, and how many
// seconds a wait may last.
const WAITS: [(&'static [&'static str], Option<(u32, u32)>, u32); 6] = [
    (
        &["127.0.0.1:9100", "--first", "8", "--wait", "30"],
        Some((8, 3)),
        30,
    ),
    (
        &["--wait=1", "127.0.0.1:9100", "--openings", "5", "--first=8"],
        Some((8, 5)),
        1,
    ),
    (
        &["127.0.0.1:9100", "--first", "8", "--wait", "3600"],
        Some((8, 3)),
        3_600,
    ),
    (&["127.0.0.1:9100", "--wait", "1"], None, 1),
    (&["--wait", "+5", "127.0.0.1:9100"], None, 5),
    (&["127.0.0.1:9100", "--wait=03600"], None, 3_600),
];

#[test]
fn waits_of_send_and_status(rt: HostRuntime) {
    for (given, marks, seconds) in &WAITS {
        let wait = Some(*seconds);
        let address = printer();
        let (name, asked) = match *marks {
            Some((first, openings)) => ("send", send_task(address, first, openings, wait)),
            None => ("status", Task::Status { address, wait }),
        };
        asks_for_command(&rt, rt.alloc(), name, given, Ok(asked));
    }
    let asked = Task::Status {
        address: printer(),
        wait: None,
    };
    asks_for_command(&rt, rt.alloc(), "status", &["127.0.0.1:9100"], Ok(asked));
}

// Words after `status` that ask for nothing.
const NO_STATUS_ARGUMENTS: [&'static [&'static str]; 9] = [
    &[],
    &["printer"],
    &["127.0.0.1:9100", "127.0.0.1:9100"],
    &["127.0.0.1:9100", "--wait"],
    &["127.0.0.1:9100", "--wait", "0"],
    &["127.0.0.1:9100", "--wait", "3601"],
    &["127.0.0.1:9100", "--wait", "1.5"],
    &["127.0.0.1:9100", "--wait", "1", "--wait", "1"],
    &["127.0.0.1:9100", "--first", "0"],
];

#[test]
fn version_is_asked_for_alone(rt: HostRuntime) {
    assert!(&rt; asks_version(&["--version"]));
    for words in [
        [].as_slice(),
        &["version"],
        &["-V"],
        &["--version", "x"],
        &["check", "--version"],
    ] {
        assert!(&rt; !asks_version(words));
    }
}

// Words after `emulate` that ask for nothing.
const NO_EMULATE_ARGUMENTS: [&'static [&'static str]; 28] = [
    &["127.0.0.1:9100", "--follow", "--links", "3"],
    &["127.0.0.1:9100", "--follow", "--links", "1"],
    &["127.0.0.1:9100", "--follow", "--follow"],
    &["127.0.0.1:9100", "--follow=true"],
    &["127.0.0.1:9100", "--condition"],
    &["127.0.0.1:9100", "--condition", ""],
    &["127.0.0.1:9100", "--condition", "00"],
    &["127.0.0.1:9100", "--condition", "0000"],
    &["127.0.0.1:9100", "--condition", "002"],
    &["127.0.0.1:9100", "--condition", "000", "--condition", "000"],
    &[],
    &["--links", "3"],
    &["127.0.0.1:9100", "--links"],
    &["127.0.0.1:9100", "--links", ""],
    &["127.0.0.1:9100", "--links="],
    &["127.0.0.1:9100", "--links", "0"],
    &["127.0.0.1:9100", "--links", "1001"],
    &["127.0.0.1:9100", "--links", "4294967296"],
    &["127.0.0.1:9100", "--links", "4294967297"],
    &["127.0.0.1:9100", "--links", "-1"],
    &["127.0.0.1:9100", "--links=-1"],
    &["127.0.0.1:9100", "--links", "three"],
    &["127.0.0.1:9100", "--links", "3.0"],
    &["127.0.0.1:9100", "--links", "3", "--links", "3"],
    &["127.0.0.1:9100", "127.0.0.1:9100"],
    &["127.0.0.1:9100", "--first", "0"],
    &["127.0.0.1:9100", "-l", "3"],
    &["127.0.0.1:9100", "check"],
];

// Words after `send` that ask for nothing.
const NO_SEND_ARGUMENTS: [&'static [&'static str]; 21] = [
    &["127.0.0.1:9100", "--wait", "5"],
    &["127.0.0.1:9100", "--first", "8", "--wait", "0"],
    &["127.0.0.1:9100", "--first", "8", "--wait", "3601"],
    &["127.0.0.1:9100", "--first", "8", "--wait=5", "--wait=5"],
    &[],
    &["127.0.0.1:9100"],
    &["127.0.0.1:9100", "--openings", "5"],
    &["--first", "8"],
    &["127.0.0.1:9100", "--first"],
    &["127.0.0.1:9100", "--first", ""],
    &["127.0.0.1:9100", "--first", "4294967296"],
    &["127.0.0.1:9100", "--first", "-1"],
    &["127.0.0.1:9100", "--first=-1"],
    &["127.0.0.1:9100", "--first", "000Z"],
    &["127.0.0.1:9100", "--first", "8", "--openings", "0"],
    &["127.0.0.1:9100", "--first", "8", "--openings", "100"],
    &["127.0.0.1:9100", "--first", "8", "--openings", "-1"],
    &["127.0.0.1:9100", "--first", "8", "--first", "8"],
    &["127.0.0.1:9100", "127.0.0.1:9100", "--first", "8"],
    &["127.0.0.1:9100", "--first", "8", "--links", "3"],
    &["127.0.0.1:9100", "8"],
];

#[test]
fn arguments_that_ask_for_nothing(rt: HostRuntime) {
    for given in &NO_EMULATE_ARGUMENTS {
        asks_for_command(&rt, rt.alloc(), "emulate", given, Err(NoTask::Usage));
    }
    for given in &NO_STATUS_ARGUMENTS {
        asks_for_command(&rt, rt.alloc(), "status", given, Err(NoTask::Usage));
    }
    for given in &NO_SEND_ARGUMENTS {
        asks_for_command(&rt, rt.alloc(), "send", given, Err(NoTask::Usage));
    }
}

// Texts of addresses, with the address and its port where they are one.
const ADDRESSES: [(&str, [u8; 4], u16); 6] = [
    ("127.0.0.1:9100", [127, 0, 0, 1], 9100),
    ("0.0.0.0:0", [0, 0, 0, 0], 0),
    ("255.255.255.255:65535", [255, 255, 255, 255], 65_535),
    ("192.168.10.200:80", [192, 168, 10, 200], 80),
    ("1.2.3.4:5", [1, 2, 3, 4], 5),
    ("10.0.0.9:10000", [10, 0, 0, 9], 10_000),
];

// Texts that are IPv6 addresses, and the address and port.
const V6_ADDRESSES: [(&str, [u16; 8], u16); 4] = [
    ("[::1]:80", [0, 0, 0, 0, 0, 0, 0, 1], 80),
    ("[::]:0", [0; 8], 0),
    (
        "[::ffff:127.0.0.1]:9100",
        [0, 0, 0, 0, 0, 0xffff, 0x7f00, 1],
        9100,
    ),
    (
        "[2001:db8:0:1:2:3:4:5]:65535",
        [0x2001, 0xdb8, 0, 1, 2, 3, 4, 5],
        65_535,
    ),
];

// Texts that are a host's name and a port.
const NAMED: [&str; 9] = [
    "localhost:9100",
    "printer:0",
    "Printer-2.shop.example:65535",
    "cafe:9100",
    "a_b:1",
    "3com.example:80",
    "80mm-printer:9100",
    "xn--caf-dma.example:9100",
    "printer.:9100",
];

const NO_ADDRESSES: [&str; 47] = [
    "",
    ":",
    ":9100",
    "printer",
    "printer:",
    "printer:09100",
    "printer:65536",
    "printer:+80",
    "printer:80:80",
    "prin ter:80",
    "prin/ter:80",
    "-printer:80",
    ".printer:80",
    "caf\u{e9}:80",
    "::1:80",
    "[::1]",
    "[::1]:",
    "[::1:80",
    "[:::]:80",
    "[printer]:80",
    "256.0.0.1:1",
    "1.256.0.1:1",
    "1.0.256.1:1",
    "1.0.0.256:1",
    "127.0.0.1:65536",
    "127.0.0.1:080",
    "127.0.0.1:00",
    "127.0.0.1:09100",
    "127.0.0.1:+80",
    "127.0.0.1:-80",
    "01.2.3.4:5",
    "1.02.3.4:5",
    "1.2.03.4:5",
    "1.2.3.04:5",
    "00.0.0.0:0",
    "127.0.0.1",
    "127.0.0.1:",
    "127..0.1:80",
    "127.0.0.1:80:80",
    "127.0.0:80",
    "127.0.0.1.1:80",
    " 127.0.0.1:80",
    "127.0.0.1:80 ",
    "127.0.0.1: 80",
    "0x7f.0.0.1:80",
    "0x7f000001:80",
    "2130706433:80",
];

// A text is this address, for `emulate`, or none.
fn emulates_at(rt: &impl Abort, alloc: Global, text: &str, wanted: Option<Address>) {
    let asked = match wanted {
        Some(address) => Ok(emulate_task(address, Some(1), ONLINE)),
        None => Err(NoTask::Usage),
    };
    asks_for_command(rt, alloc, "emulate", &[text], asked);
}

// The same for `send`.
fn sends_at(rt: &impl Abort, alloc: Global, text: &str, wanted: Option<Address>) {
    let asked = match wanted {
        Some(address) => Ok(send_task(address, 0, 3, None)),
        None => Err(NoTask::Usage),
    };
    asks_for_command(rt, alloc, "send", &[text, "--first", "0"], asked);
}

fn v4(octets: [u8; 4], port: u16) -> Address {
    let [a, b, c, d] = octets;
    SocketAddrV4::new(Ipv4Addr::new(a, b, c, d), port).into()
}

fn v6(segments: [u16; 8], port: u16) -> Address {
    let [a, b, c, d, e, f, g, h] = segments;
    let ip = IpAddr::V6(Ipv6Addr::new(a, b, c, d, e, f, g, h));
    Address::Numeric(SocketAddr::new(ip, port))
}

#[test]
fn addresses(rt: HostRuntime) {
    for (text, octets, port) in &ADDRESSES {
        emulates_at(&rt, rt.alloc(), text, Some(v4(*octets, *port)));
        sends_at(&rt, rt.alloc(), text, Some(v4(*octets, *port)));
    }
    for text in &NO_ADDRESSES {
        emulates_at(&rt, rt.alloc(), text, None);
        sends_at(&rt, rt.alloc(), text, None);
    }
}

#[test]
fn v6_addresses(rt: HostRuntime) {
    for (text, segments, port) in &V6_ADDRESSES {
        emulates_at(&rt, rt.alloc(), text, Some(v6(*segments, *port)));
        sends_at(&rt, rt.alloc(), text, Some(v6(*segments, *port)));
    }
}

// A text is a host's name and a port. What is looked up for it, escpos_tcp_tests sees.
fn is_name(text: &str) -> bool {
    matches!(Address::of_text(text), Some(Address::Named(_)))
}

#[test]
fn named_printers(rt: HostRuntime) {
    for text in &NAMED {
        assert!(&rt; is_name(text));
        emulates_at(&rt, rt.alloc(), text, Address::of_text(text));
        sends_at(&rt, rt.alloc(), text, Address::of_text(text));
    }
}

// A text is that of a device file. That it is opened, `bench/devices` sees.
fn is_device(text: &str) -> bool {
    matches!(Address::of_text(text), Some(Address::Device(_)))
}

// The whole path of a file follows `file:`; without its first `/` the text is a host's name and a port, or nothing.
#[test]
fn device_files(rt: HostRuntime) {
    for text in [
        "file:/dev/usb/lp0",
        "file:/dev/ttyS0",
        "file:/",
        "file:///a b",
    ] {
        assert!(&rt; is_device(text));
        sends_at(&rt, rt.alloc(), text, Address::of_text(text));
    }
    assert!(&rt; is_name("file:9100"));
    for text in [
        "file:",
        "file:lp0",
        "File:/dev/lp0",
        " file:/dev/lp0",
        "/dev/lp0",
    ] {
        sends_at(&rt, rt.alloc(), text, None);
    }
}

// 250 characters of a name, and what follows them.
fn long_name(rt: &impl Abort, alloc: Global, tail: &str) -> String {
    let mut text = String::new(alloc);
    for _ in 0..25 {
        text.push_str("abcdefghi.").expect(rt, "memory");
    }
    text.push_str(tail).expect(rt, "memory");
    text
}

// A name of 253 characters is taken with any port; a text of more than 259 isn't.
#[test]
fn long_names(rt: HostRuntime) {
    let long = long_name(&rt, rt.alloc(), "jkl:65535");
    assert!(&rt; is_name(long.as_str()));
    let too_long = long_name(&rt, rt.alloc(), "jklm:65535");
    assert!(&rt; Address::of_text(too_long.as_str()) == None);
}

// The same of a device file's text: 259 bytes, and one more.
#[test]
fn long_device_files(rt: HostRuntime) {
    let mut text = String::new(rt.alloc());
    text.push_str("file:/").expect(&rt, "memory");
    for _ in 0..25 {
        text.push_str("abcdefghi/").expect(&rt, "memory");
    }
    text.push_str("klm").expect(&rt, "memory");
    assert!(&rt; text.len() == 259);
    assert!(&rt; is_device(text.as_str()));
    text.push_str("n").expect(&rt, "memory");
    assert!(&rt; Address::of_text(text.as_str()) == None);
}
