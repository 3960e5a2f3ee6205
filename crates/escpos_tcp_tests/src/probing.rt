//! What `probe` asks, hears and prints, over known bytes.

use escpos_io::{Gather, MemoryIn, MemoryOut};
use escpos_probe::{
    Answer, Form, Premises, QUESTIONS, Question, Shows, append_answer, append_premises, ask_over,
    hear,
};
use std::process::Abort;

// A form, what comes, and how much of that is the answer.
const HEARD: [(Form, &[u8], usize); 12] = [
    (Form::Byte, b"\x16\x12", 1),
    (Form::Byte, b"", 0),
    (Form::FourBytes, b"\x14\x00\x00\x0F\x16", 4),
    (Form::FourBytes, b"\x14\x00\x00", 3),
    (Form::Block, b"_TM-T88\x00\x16", 8),
    (Form::Block, b"_TM-T88", 7),
    (Form::Block, b"\x00\x00", 1),
    (Form::Process, b"7\"~~~~\x00\x16", 7),
    (Form::Process, b"7\"~~", 4),
    (Form::Anything, b"\x16\x16\x16", 3),
    (Form::Anything, &[0x16; 97], 96),
    (Form::Block, &[0x41; 97], 96),
];

#[test]
fn answers_end_by_their_form(rt: HostRuntime) {
    for (form, bytes, count) in &HEARD {
        let mut reader = MemoryIn::new(bytes, 5);
        assert!(&rt; hear(*form, &mut reader).bytes() == &bytes[..*count]);
    }
}

// What each question puts, as it is in the Reference, and how many bytes of `ANYTHING` it hears.
const PUT: [(&str, &[u8], usize); 11] = [
    ("DLE EOT 1", &[0x10, 0x04, 1], 1),
    ("DLE EOT 2", &[0x10, 0x04, 2], 1),
    ("DLE EOT 3", &[0x10, 0x04, 3], 1),
    ("DLE EOT 4", &[0x10, 0x04, 4], 1),
    ("GS I 1", &[0x1D, 0x49, 1], 1),
    ("GS I 2", &[0x1D, 0x49, 2], 1),
    ("GS I 67", &[0x1D, 0x49, 67], 8),
    (
        "GS ( H 48",
        &[0x1D, 0x28, 0x48, 6, 0, 48, 48, 0x7E, 0x7E, 0x7E, 0x7E],
        7,
    ),
    ("GS r 1", &[0x1D, 0x72, 1], 1),
    ("GS g 2", &[0x1D, 0x67, 0x32, 0, 0xB2, 0], 8),
    ("GS a", &[0x1D, 0x61, 0xFF, 0x1D, 0x61, 0], 4),
];

const ANYTHING: &[u8] = b"1234567\x00890";

fn asks(rt: &impl Abort, question: Question, (name, bytes, count): (&str, &[u8], usize)) {
    let mut room = [0; 16];
    let mut reader = MemoryIn::new(ANYTHING, 3);
    let mut writer = MemoryOut::new(&mut room);
    let answer = ask_over(question, &mut reader, &mut writer);
    assert!(rt; question.name == name);
    assert!(rt; answer.bytes().len() == count);
    assert!(rt; ANYTHING.starts_with(answer.bytes()));
    assert!(rt; writer.written() == bytes);
}

#[test]
fn each_question(rt: HostRuntime) {
    for (question, wanted) in QUESTIONS.iter().zip(PUT.iter()) {
        asks(&rt, *question, *wanted);
    }
}

// A sink that fails within a question: nothing is heard.
#[test]
fn no_answer_to_half_a_question(rt: HostRuntime) {
    let mut room = [0; 2];
    let mut reader = MemoryIn::new(ANYTHING, 3);
    let mut writer = MemoryOut::new(&mut room);
    assert!(&rt;
        ask_over(QUESTIONS[0], &mut reader, &mut writer)
            .bytes()
            .is_empty()
    );
    assert!(&rt; hear(Form::Byte, &mut reader).bytes() == b"1".as_slice());
}

fn heard(bytes: &[u8]) -> Answer {
    hear(Form::Anything, &mut MemoryIn::new(bytes, 96))
}

// An answer, and what stands for it after the name of what was asked.
const LINES: [(&[u8], &str); 3] = [
    (b"", ": no answer\n"),
    (b"\x16", ": 16\n"),
    (b"7\"~~\xAF\x00", ": 37 22 7E 7E AF 00\n"),
];

#[test]
fn lines_of_answers(rt: HostRuntime) {
    for (bytes, line) in &LINES {
        let mut room = [0; 64];
        let mut output = MemoryOut::new(&mut room);
        let mut gather = Gather::new();
        append_answer(&mut gather, &heard(bytes));
        gather.flush(&mut output).expect(&rt, "no room");
        assert!(&rt; output.written() == line.as_bytes());
    }
}

const MET: Premises = Premises {
    quiet: true,
    marks: true,
    status: true,
};

// What a question shows, an answer, and whether what it shows is met.
const SHOWN: [(Shows, &[u8], bool); 10] = [
    (Shows::Status, b"\x12", true),
    (Shows::Status, b"\x16", true),
    (Shows::Status, b"", false),
    (Shows::Status, b"\x10", false),
    (Shows::Status, b"\x92", false),
    (Shows::Status, b"\x12\x12", false),
    (Shows::Marks, b"7\"~~~~\x00", true),
    (Shows::Marks, b"7\"0000\x00", false),
    (Shows::Marks, b"7\"~~~~", false),
    (Shows::Nothing, b"", true),
];

#[test]
fn answers_show_premises(rt: HostRuntime) {
    for (shows, bytes, is_met) in &SHOWN {
        let wanted = match shows {
            Shows::Status => Premises {
                quiet: true,
                marks: true,
                status: *is_met,
            },
            Shows::Marks => Premises {
                quiet: true,
                marks: *is_met,
                status: true,
            },
            Shows::Nothing => MET,
        };
        assert!(&rt; MET.after(*shows, &heard(bytes)) == wanted);
    }
}

#[test]
fn lines_of_premises(rt: HostRuntime) {
    let mut room = [0; 128];
    let mut output = MemoryOut::new(&mut room);
    let mut gather = Gather::new();
    let premises = Premises {
        quiet: true,
        marks: false,
        status: true,
    };
    append_premises(&mut gather, premises);
    gather.flush(&mut output).expect(&rt, "no room");
    let wanted = "sends nothing unasked: yes\nanswers marks: no\ntells its status: yes\n";
    assert!(&rt; output.written() == wanted.as_bytes());
    assert!(&rt; MET.are_met() && !premises.are_met());
    assert!(&rt;
        !Premises {
            quiet: false,
            ..MET
        }
        .are_met()
    );
    assert!(&rt;
        Premises {
            status: false,
            ..MET
        }
        .are_met()
    );
}
