//! What no job prints: the help, the usage, and the statuses. What the help shows is what the jobs do.
//!
//! A test that looks into the help makes room for it, and lends its text to a function that owns nothing of it.

use crate::support::tasks::{Named, task};
use escpos_decode::Decoder;
use escpos_help::texts::{USAGE, VERSION};
use escpos_help::usage::{say_all, say_help};
use escpos_host::JsonFault;
use escpos_io::{ByteIn, MemoryIn, MemoryOut};
use escpos_job_parts::status::Status;
use escpos_jobs::task::{NoTask, Task};
use escpos_test_jobs::{performs, prints};
use escpos_test_receipts::{faults, joined, read_receipt};
use std::alloc::Global;
use std::process::Abort;

// More bytes than the help has.
const HELP_BYTES: usize = 32768;

// The whole help.
fn whole_help<'a>(rt: &impl Abort, room: &'a mut [u8]) -> &'a str {
    let mut output = MemoryOut::new(room);
    assert!(rt; say_all(&mut output) == Status::Good);
    let count = output.written().len();
    let help = room.get(..count).expect(rt, "more room");
    str::from_utf8(help).expect(rt, "a text")
}

// A task by its name, or what is asked for instead of one.
type Asked = Result<Named, NoTask>;

fn asked(named: Asked) -> Result<Task, NoTask> {
    match named {
        Ok(named) => Ok(task(named)),
        Err(why) => Err(why),
    }
}

// What is printed.
#[derive(Clone, Copy)]
enum Printed {
    Help,
    Text(&'static str),
}

// What is asked for over `41 0A`, what is printed, and the status.
const EACH: [(Asked, Printed, Status); 8] = [
    (
        Ok(Named::Check),
        Printed::Text("0 char 41\n1 lf\nend 2 pending 0\n"),
        Status::Good,
    ),
    (
        Ok(Named::Render),
        Printed::Text("row left A\nfeed 1\n"),
        Status::Good,
    ),
    (
        Ok(Named::Encode),
        Printed::Text("refused 5 NotJson\n"),
        Status::Refused,
    ),
    (
        Ok(Named::RawCheck),
        Printed::Text("0 char 34\n1 char 31\n2 char 20\n3 char 30\n4 char 41\nend 5 pending 0\n"),
        Status::Good,
    ),
    (
        Ok(Named::RawEncode),
        Printed::Text("refused 5 NotJson\n"),
        Status::Refused,
    ),
    (Err(NoTask::Help), Printed::Help, Status::Good),
    (Err(NoTask::Usage), Printed::Text(USAGE), Status::Usage),
    (
        Err(NoTask::Memory),
        Printed::Text("memory\n"),
        Status::Memory,
    ),
];

// What is asked for prints this to a sink with this room. It reads its input if it is a task.
fn is_done(
    rt: &impl Abort,
    alloc: Global,
    asked: Result<Task, NoTask>,
    room: &mut [u8],
    wanted: (&[u8], Status),
) {
    let mut source = MemoryIn::new(b"41 0A", 100);
    assert!(rt; performs(alloc, asked, &mut source, room, wanted));
    assert!(rt; (source.pulls() > 0) == asked.is_ok());
}

// Each is done, in a sink that has room for it and in one that has little.
fn are_done(rt: &impl Abort, alloc: Global, help: &str) {
    let mut room = [0; HELP_BYTES];
    for (named, printed, status) in &EACH {
        let output = match printed {
            Printed::Help => help.as_bytes(),
            Printed::Text(text) => text.as_bytes(),
        };
        is_done(rt, alloc, asked(*named), &mut room, (output, *status));
        let beginning = &output[..output.len().min(3)];
        is_done(
            rt,
            alloc,
            asked(*named),
            &mut [0; 3],
            (beginning, Status::Device),
        );
    }
}

#[test]
fn each_thing_asked_for(rt: HostRuntime) {
    let mut room = [0; HELP_BYTES];
    are_done(&rt, rt.alloc(), whole_help(&rt, &mut room));
}

// Words that the usage and the help have.
const NAMES: [&str; 12] = [
    "check", "render", "draw", "encode", "emulate", "send", "status", "loop", "queue", "deliver",
    "ledger", "help",
];

// What else the help says.
const SAID: [&str; 5] = [
    "0 good, 1 refused content, 2 usage, 3 device, 4 memory",
    "than 16777216 bytes",
    "[F,W,H,B,U,T]",
    "QR codes: functions 65, 67, 69, 80 and 81",
    "a QR code of 1 to 7089 bytes",
];

fn says_each(rt: &impl Abort, help: &str) {
    for name in &NAMES {
        assert!(rt; USAGE.contains(*name), "{name}");
        assert!(rt; help.contains(*name), "{name}");
    }
    for said in &SAID {
        assert!(rt; help.contains(*said), "{said}");
    }
}

#[test]
fn usage_and_help(rt: HostRuntime) {
    let mut room = [0; HELP_BYTES];
    says_each(&rt, whole_help(&rt, &mut room));
}

// A job, its name, what it reads, and what it writes.
const SHOWN: [(Named, &str, &str, &str); 3] = [
    (
        Named::Check,
        "check",
        "1B 40 48 69 0A 1D 56 00",
        "0 init\n2 char 48\n3 char 69\n4 lf\n5 cut 00\nend 8 pending 0\n",
    ),
    (
        Named::Render,
        "render",
        "1B 40 48 69 0A 1D 56 00",
        "row left Hi\nfeed 1\ncut full\n",
    ),
    (
        Named::Encode,
        "encode",
        "[{\"line\":\"Hi\"},{\"cut\":\"full\"}]",
        "48690a1d5600\n",
    ),
];

// A job that reads this input, as the help shows it: what the job writes stands below the command, each line indented.
fn is_shown(
    rt: &impl Abort,
    alloc: Global,
    help: &str,
    (named, name, input, written): (Named, &str, &str, &str),
) {
    let wanted = (written.as_bytes(), Status::Good);
    assert!(rt; prints(alloc, task(named), input.as_bytes(), wanted));
    let mut shown = format!(in alloc; "$ echo '{input}' | escpos_cli {name}\n").expect(
        rt, "memory",
    );
    indents(rt, &mut shown, written);
    assert!(rt; help.contains(shown.as_str()), "{name}");
}

// Adds these lines, each indented.
fn indents(rt: &impl Abort, shown: &mut String, written: &str) {
    for line in written.lines() {
        shown.push_str("          ").expect(rt, "memory");
        shown.push_str(line).expect(rt, "memory");
        shown.push_str("\n").expect(rt, "memory");
    }
}

fn are_shown(rt: &impl Abort, alloc: Global, help: &str) {
    for row in &SHOWN {
        is_shown(rt, alloc, help, *row);
    }
}

// What the help shows of each job is what the job writes.
#[test]
fn help_shows_what_the_jobs_write(rt: HostRuntime) {
    let mut room = [0; HELP_BYTES];
    are_shown(&rt, rt.alloc(), whole_help(&rt, &mut room));
}

const CODES: [(Status, u8); 5] = [
    (Status::Good, 0),
    (Status::Refused, 1),
    (Status::Usage, 2),
    (Status::Device, 3),
    (Status::Memory, 4),
];

#[test]
fn statuses_have_codes(rt: HostRuntime) {
    for (status, code) in &CODES {
        assert!(rt; status.code() == *code, "{code}");
    }
}

// The value of a hexadecimal digit.
fn digit_value(digit: u8) -> u8 {
    match digit {
        b'0'..=b'9' => digit - b'0',
        b'A'..=b'F' => digit - b'A' + 10,
        _ => 0,
    }
}

// The byte that two hexadecimal digits are.
fn byte_of(digits: &str) -> u8 {
    let mut byte = 0u8;
    for digit in digits.as_bytes() {
        byte = byte.saturating_mul(16).saturating_add(digit_value(*digit));
    }
    byte
}

// Whether the decoder refuses a byte.
fn refuses(decoder: &mut Decoder, byte: u8) -> bool {
    decoder.push(byte).is_err()
}

// The decoder takes these bytes, each with a space before the next; or it takes all but the last, and refuses that one.
fn is_taken(rt: &impl Abort, alloc: Global, bytes: &str, is_last_refused: bool) {
    let mut decoder = Decoder::new(alloc);
    let mut left = bytes.split_whitespace().count();
    for digits in bytes.split_whitespace() {
        left = left.saturating_sub(1);
        let is_refused = refuses(&mut decoder, byte_of(digits));
        assert!(rt; is_refused == (is_last_refused && left == 0), "{bytes}");
    }
}

// Of the Reference's commands by their first bytes, the decoder takes those that the help says are taken, and refuses the last byte
// of those that it says are refused. Answers how many lines say the one and the other.
fn taken_and_refused(rt: &impl Abort, alloc: Global, help: &str) -> (u32, u32) {
    let (mut taken, mut refused) = (0u32, 0u32);
    for line in help.lines() {
        let (Some(bytes), Some(verdict)) = (line.get(10..20), line.get(28..)) else {
            continue;
        };
        if verdict.starts_with("taken") {
            is_taken(rt, alloc, bytes, false);
            taken = taken.saturating_add(1);
        } else if verdict.starts_with("refused: ") {
            is_taken(rt, alloc, bytes, true);
            refused = refused.saturating_add(1);
        }
    }
    (taken, refused)
}

// Two lists of the help say which commands are taken. The first has the commands by their bytes: 23 are taken, and 73 are refused.
// The second has the 28 commands that only set something, one for each row of their table.
#[test]
fn help_has_what_is_taken_and_refused(rt: HostRuntime) {
    let mut room = [0; HELP_BYTES];
    let (taken, refused) = taken_and_refused(&rt, rt.alloc(), whole_help(&rt, &mut room));
    assert!(rt; taken == 51, "23 and 28");
    assert!(rt; refused == 73);
}

// The help has the number and the name of a reason.
fn is_in_help(rt: &impl Abort, alloc: Global, help: &str, fault: JsonFault) {
    let number = fault.number();
    let name = fault.name();
    let said = format!(in alloc; "{number} {name}").expect(rt, "memory");
    assert!(rt; help.contains(said.as_str()), "{name}");
}

// The help has each reason but one: no text gives a command that no receipt has.
fn has_each_reason(rt: &impl Abort, alloc: Global, help: &str) {
    for fault in faults() {
        if fault.number() != 2 {
            is_in_help(rt, alloc, help, *fault);
        }
    }
}

#[test]
fn help_has_each_reason(rt: HostRuntime) {
    let mut room = [0; HELP_BYTES];
    has_each_reason(&rt, rt.alloc(), whole_help(&rt, &mut room));
}

// The example of a member in this line of the help, if it has one.
fn example_in(line: &str) -> Option<&str> {
    let start = line.find("{\"")?;
    let end = line.rfind("}")?;
    line.get(start..end + 1)
}

// A receipt may have this entry; a feed after it prints what text is in the line.
fn describes(rt: &impl Abort, alloc: Global, entry: &str) {
    let text = joined(alloc, ["[", entry, ",{\"feed\":1}]"], 1).expect(rt, "memory");
    assert!(rt; read_receipt(alloc, &text).is_ok(), "{entry}");
}

// How many examples of a member the help has. A receipt may have each.
fn count_examples(rt: &impl Abort, alloc: Global, help: &str) -> u32 {
    let mut count = 0u32;
    for line in help.lines() {
        if let Some(entry) = example_in(line) {
            if !line.contains("echo") {
                describes(rt, alloc, entry);
                count = count.saturating_add(1);
            }
        }
    }
    count
}

#[test]
fn help_has_an_example_of_each_member(rt: HostRuntime) {
    let mut room = [0; HELP_BYTES];
    let count = count_examples(&rt, rt.alloc(), whole_help(&rt, &mut room));
    assert!(rt; count == 34);
}

#[test]
fn version(rt: HostRuntime) {
    assert!(&rt; VERSION == "escpos_cli 1.4.0, profile 4\n");
}

// Help on a word prints this, and where there is no room for it the status says so.
fn says_help(rt: &impl Abort, word: &str, wanted: &str) {
    let mut room = [0; HELP_BYTES];
    let mut output = MemoryOut::new(&mut room);
    assert!(rt; say_help(word, &mut output) == Status::Good, "{word}");
    assert!(rt; output.written() == wanted.as_bytes(), "{word}");
    let mut few = [0; 3];
    let mut output = MemoryOut::new(&mut few);
    assert!(rt; say_help(word, &mut output) == Status::Device, "{word}");
}

// The words of the help, in the order of their parts.
const WORDS: [&str; 17] = [
    "check",
    "render",
    "draw",
    "encode",
    "image",
    "play",
    "emulate",
    "send",
    "status",
    "probe",
    "loop",
    "queue",
    "deliver",
    "cancel",
    "ledger",
    "completions",
    "help",
];

// Words that have no part.
const NO_WORDS: [&str; 7] = [
    "",
    "nosuch",
    "chec",
    "check ",
    "check [--raw]",
    "--help",
    "escpos_cli",
];

// Help on each word prints its part. The parts are all of the help but what stands before and after them.
fn says_each_part(rt: &impl Abort, alloc: Global, help: &str) {
    let mut rest = help.find("  escpos_cli check").expect(rt, "the first part");
    for (place, word) in WORDS.iter().enumerate() {
        let next = match WORDS.get(place.saturating_add(1)) {
            Some(word) => next_part(rt, alloc, help, word),
            None => help.find("\nExit status: ").expect(rt, "the end"),
        };
        says_help(rt, word, help.get(rest..next).expect(rt, "a part"));
        rest = next.saturating_add(1);
    }
}

// Where the line feed before the part of this word stands.
fn next_part(rt: &impl Abort, alloc: Global, help: &str, word: &str) -> usize {
    let head = format!(in alloc; "\n  escpos_cli {word}").expect(rt, "memory");
    help.find(head.as_str()).expect(rt, "a part")
}

fn says_all_of_it(rt: &impl Abort, help: &str) {
    for word in &NO_WORDS {
        says_help(rt, word, help);
    }
}

#[test]
fn help_on_each_word(rt: HostRuntime) {
    let mut room = [0; HELP_BYTES];
    let help = whole_help(&rt, &mut room);
    says_each_part(&rt, rt.alloc(), help);
    says_all_of_it(&rt, help);
}
