//! Links that are served from memory to memory.

use crate::support::links::{Link, Source, bytes_in_pieces, how_served};
use crate::support::marks::{ANSWERS, MARKS, mark, push_bytes, push_mark};
use crate::support::printers::{ONLINE, OPEN, RECEIPT, Step, plays};
use escpos_command::FaultReason;
use escpos_printer::{Condition, LinkEnd, Served};
use escpos_test_values::unlike;
use std::alloc::Global;
use std::process::Abort;

// The answer to mark 0.
const ANSWER: &[u8] = b"\x37\x220000\x00";

// A mark and a character.
const MARK_AND_A: &[u8] = b"\x1D(H\x06\x00000000A";

#[test]
fn serve_links(rt: HostRuntime) {
    let why = FaultReason::UnknownCommand;
    let rows: [(Condition, (&[u8], u32, usize), (Served, &[u8])); 8] = [
        (
            ONLINE,
            (MARK_AND_A, 100, 100),
            (how_served(12, 12, 7, LinkEnd::Ended), ANSWER),
        ),
        (
            ONLINE,
            (MARK_AND_A, 12, 100),
            (how_served(12, 12, 7, LinkEnd::TooLong), ANSWER),
        ),
        (
            ONLINE,
            (MARK_AND_A, 100, 3),
            (how_served(12, 12, 3, LinkEnd::WriteFault), b"\x37\x220"),
        ),
        (
            ONLINE,
            (b"\x1Da\x0EA", 100, 100),
            (how_served(4, 4, 4, LinkEnd::Ended), b"\x10\x00\x00\x00"),
        ),
        (
            OPEN,
            (b"\x1Da\x0EA", 100, 100),
            (how_served(4, 2, 0, LinkEnd::Offline), b""),
        ),
        (
            OPEN,
            (b"\x10\x04\x01AB", 100, 100),
            (how_served(5, 3, 1, LinkEnd::Offline), b"\x1A"),
        ),
        (
            ONLINE,
            (b"\x1B@\x1B&", 100, 100),
            (how_served(4, 3, 0, LinkEnd::Fault { why }), b""),
        ),
        (
            ONLINE,
            (MARK_AND_A, 0, 100),
            (how_served(0, 0, 0, LinkEnd::TooLong), b""),
        ),
    ];
    for (condition, (input, max_bytes, room), (wanted, out)) in rows {
        let link = Link {
            max_bytes,
            room,
            wanted,
            out,
        };
        let steps = [Step::Serve(bytes_in_pieces(input, 1000), link)];
        plays(&rt, rt.alloc(), condition, &steps);
    }
}

// A link that is too long is followed by another, which the same printer serves: the half command between them is completed.
#[test]
fn a_link_after_one_that_is_too_long(rt: HostRuntime) {
    let too_long = Link {
        max_bytes: 5,
        room: 8,
        wanted: how_served(5, 5, 0, LinkEnd::TooLong),
        out: b"",
    };
    let another = Link {
        max_bytes: 100,
        room: 8,
        wanted: how_served(14, 14, 7, LinkEnd::Ended),
        out: ANSWER,
    };
    let steps = [
        Step::Serve(bytes_in_pieces(b"Hi\n\x1BE\x01A\n", 3), too_long),
        Step::Serve(bytes_in_pieces(b"\x00A\n\x1D(H\x06\x00000000", 3), another),
        Step::Items(4),
    ];
    plays(&rt, rt.alloc(), ONLINE, &steps);
}

// Two blocks that wait at once are one, and where the first went out before the second they are two.
#[test]
fn blocks_over_a_link(rt: HostRuntime) {
    let one = b"\x10\x00\x00\x00\x12".as_slice();
    let two = b"\x10\x00\x00\x00\x12\x10\x00\x00\x00".as_slice();
    for (most, out) in [(100, one), (1, two)] {
        let link = Link {
            max_bytes: 100,
            room: 16,
            wanted: how_served(9, 9, out.len(), LinkEnd::Ended),
            out,
        };
        let blocks = bytes_in_pieces(b"\x1Da\x01\x10\x04\x01\x1Da\x01", most);
        plays(&rt, rt.alloc(), ONLINE, &[Step::Serve(blocks, link)]);
    }
}

#[test]
fn two_hundred_marks(rt: HostRuntime) {
    let mut bytes = Vec::new(rt.alloc());
    let mut answers = Vec::new(rt.alloc());
    for number in 0..200 {
        push_mark(&rt, &mut bytes, number);
        push_bytes(&rt, &mut answers, mark(&rt, number).bytes().as_slice());
    }
    let link = Link {
        max_bytes: 100_000,
        room: 2000,
        wanted: how_served(2200, 2200, 1400, LinkEnd::Ended),
        out: &answers,
    };
    let steps = [Step::Serve(bytes_in_pieces(&bytes, 1000), link)];
    plays(&rt, rt.alloc(), ONLINE, &steps);
}

// What a link sends that fails nowhere: a line, the marks 0 to 17 and a status request.
const LONG_LINK: &[u8] =
    b"Hi\n\x1D(H\x06\x00000000\x1D(H\x06\x00000001\x1D(H\x06\x00000002\x1D(H\x06\x00000003\
      \x1D(H\x06\x00000004\x1D(H\x06\x00000005\x1D(H\x06\x00000006\x1D(H\x06\x00000007\
      \x1D(H\x06\x00000008\x1D(H\x06\x00000009\x1D(H\x06\x0000000A\x1D(H\x06\x0000000B\
      \x1D(H\x06\x0000000C\x1D(H\x06\x0000000D\x1D(H\x06\x0000000E\x1D(H\x06\x0000000F\
      \x1D(H\x06\x0000000G\x1D(H\x06\x0000000H\x10\x04\x01";

// The answers to it.
const LONG_ANSWERS: [u8; 127] = *b"\x37\x220000\x00\x37\x220001\x00\x37\x220002\x00\x37\x220003\x00\
      \x37\x220004\x00\x37\x220005\x00\x37\x220006\x00\x37\x220007\x00\
      \x37\x220008\x00\x37\x220009\x00\x37\x22000A\x00\x37\x22000B\x00\
      \x37\x22000C\x00\x37\x22000D\x00\x37\x22000E\x00\x37\x22000F\x00\
      \x37\x22000G\x00\x37\x22000H\x00\x12";

// A read fails, at each place in turn: what was read before it is taken and answered.
#[test]
fn reader_faults(rt: HostRuntime) {
    let rows: [(&[u8], usize, u64, usize, usize); 9] = [
        (MARK_AND_A, 1000, 1, 0, 0),
        (MARK_AND_A, 1000, 2, 12, 7),
        (LONG_LINK, 40, 1, 0, 0),
        (LONG_LINK, 40, 2, 40, 21),
        (LONG_LINK, 40, 3, 80, 49),
        (LONG_LINK, 40, 4, 120, 70),
        (LONG_LINK, 40, 5, 160, 98),
        (LONG_LINK, 40, 6, 200, 119),
        (LONG_LINK, 40, 7, 204, 127),
    ];
    for (bytes, most, call, count, written) in rows {
        let failing = Source {
            bytes,
            most,
            fails_at: Some(call),
        };
        let link = Link {
            max_bytes: 1000,
            room: 200,
            wanted: how_served(count, count, written, LinkEnd::ReadFault),
            out: &LONG_ANSWERS[..written],
        };
        let steps = [Step::Serve(failing, link), Step::Waiting(0)];
        plays(&rt, rt.alloc(), ONLINE, &steps);
    }
}

// A write fails, at each place in turn: the answer that was being written is lost, and later ones wait.
#[test]
fn writer_faults(rt: HostRuntime) {
    for room in 0..127usize {
        let (consumed, answered) = if room < 112 { (189, 16) } else { (204, 19) };
        let link = Link {
            max_bytes: 1000,
            room,
            wanted: how_served(204, consumed, room, LinkEnd::WriteFault),
            out: &LONG_ANSWERS[..room],
        };
        let steps = [
            Step::Serve(bytes_in_pieces(LONG_LINK, 1000), link),
            Step::Waiting(answered - room / 7 - 1),
        ];
        plays(&rt, rt.alloc(), ONLINE, &steps);
    }
    let link = Link {
        max_bytes: 1000,
        room: 127,
        wanted: how_served(204, 204, 127, LinkEnd::Ended),
        out: &LONG_ANSWERS,
    };
    let steps = [Step::Serve(bytes_in_pieces(LONG_LINK, 1000), link)];
    plays(&rt, rt.alloc(), ONLINE, &steps);
}

// Answers that wait from an earlier link go out first.
#[test]
fn answers_that_waited(rt: HostRuntime) {
    let link = Link {
        max_bytes: 100,
        room: 100,
        wanted: how_served(2, 2, 8, LinkEnd::Ended),
        out: b"\x37\x220000\x00\x12",
    };
    let steps = [
        Step::Feed(b"\x1D(H\x06\x00000000"),
        Step::Feed(b"\x10"),
        Step::Serve(bytes_in_pieces(b"\x04\x01", 1), link),
    ];
    plays(&rt, rt.alloc(), ONLINE, &steps);
}

const ENDS: [LinkEnd; 8] = [
    LinkEnd::Ended,
    LinkEnd::TooLong,
    LinkEnd::Offline,
    LinkEnd::ReadFault,
    LinkEnd::WriteFault,
    LinkEnd::Memory,
    LinkEnd::Fault {
        why: FaultReason::BadSize,
    },
    LinkEnd::Fault {
        why: FaultReason::BadBarcode,
    },
];

// Links that ended so, of which each differs in one count.
fn differ_in_counts(rt: &impl Abort, [read, consumed, written]: [usize; 3], end: LinkEnd) {
    let links = [
        how_served(read, consumed, written, end),
        how_served(0, consumed, written, end),
        how_served(read, 0, written, end),
        how_served(read, consumed, 0, end),
    ];
    assert!(rt; unlike(&links) == None);
}

#[test]
fn unequal_ends(rt: HostRuntime) {
    assert!(&rt; unlike(&ENDS) == None);
    let mut links = [how_served(1, 2, 3, LinkEnd::Ended); 8];
    for (link, end) in links.iter_mut().zip(&ENDS) {
        link.end = *end;
        differ_in_counts(&rt, [1, 2, 3], *end);
    }
    assert!(&rt; unlike(&links) == None);
}

// Here each allocation succeeds, as in the test of `feed`.
#[test]
fn allocations_fail_on_a_link(rt: HostRuntime) {
    let steps = [
        Step::ServeAgain(RECEIPT, b"\x12\x37\x220000\x00"),
        Step::Items(9),
    ];
    plays(&rt, rt.alloc(), ONLINE, &steps);
}

// A read asks for 512 bytes, or for what is left of the limit; none is tried once that is reached.
#[test]
fn pieces(rt: HostRuntime) {
    let rows: [(u32, usize, u64, LinkEnd); 5] = [
        (0, 0, 0, LinkEnd::TooLong),
        (1536, 1536, 3, LinkEnd::TooLong),
        (1537, 1537, 4, LinkEnd::TooLong),
        (2000, 2000, 4, LinkEnd::TooLong),
        (3000, 2000, 5, LinkEnd::Ended),
    ];
    for (max_bytes, read, pulls, end) in rows {
        let link = Link {
            max_bytes,
            room: 0,
            wanted: how_served(read, read, 0, end),
            out: b"",
        };
        let steps = [Step::ServeInReads(bytes_in_pieces(&[0x0A; 2000], 10_000), link, pulls)];
        plays(&rt, rt.alloc(), ONLINE, &steps);
    }
}

// Answers go out before the next read: where a write fails, nothing was read after the bytes that it answers.
#[test]
fn no_read_before_answers(rt: HostRuntime) {
    let six = &MARKS[..66];
    for room in 0..42usize {
        let marks = room / 7 + 1;
        let link = Link {
            max_bytes: 1000,
            room,
            wanted: how_served(marks * 11, marks * 11, room, LinkEnd::WriteFault),
            out: &ANSWERS[..room],
        };
        let steps = [Step::ServeInReads(bytes_in_pieces(six, 11), link, marks as u64)];
        plays(&rt, rt.alloc(), ONLINE, &steps);
    }
    // the answers of an earlier feed don't fit
    let link = Link {
        max_bytes: 100,
        room: 9,
        wanted: how_served(0, 0, 9, LinkEnd::WriteFault),
        out: &ANSWERS[..9],
    };
    let steps = [
        Step::Feed(six),
        Step::ServeInReads(bytes_in_pieces(b"A", 1), link, 0),
        Step::Waiting(4),
    ];
    plays(&rt, rt.alloc(), ONLINE, &steps);
}

// Answers that are too many end no link, however many come in one piece, or in all.
#[test]
fn many_requests(rt: HostRuntime) {
    let mut bytes = Vec::new(rt.alloc());
    for _ in 0..20_000 {
        push_bytes(&rt, &mut bytes, b"\x10\x04\x01");
    }
    let link = Link {
        max_bytes: 100_000,
        room: 20_000,
        wanted: how_served(60_000, 60_000, 20_000, LinkEnd::Ended),
        out: &[0x12; 20_000],
    };
    let steps = [Step::Serve(bytes_in_pieces(&bytes, 1000), link)];
    plays(&rt, rt.alloc(), ONLINE, &steps);
}

// A link of so many bytes at most, to which nothing is answered.
fn unanswered(max_bytes: u32, taken: usize, end: LinkEnd) -> Link<'static> {
    Link {
        max_bytes,
        room: 1,
        wanted: how_served(taken, taken, 0, end),
        out: b"",
    }
}

// A link that may have no byte is too long, also where its source has ended or failed before.
#[test]
fn no_byte_at_all(rt: HostRuntime) {
    for (fails_at, end) in [(None, LinkEnd::Ended), (Some(2), LinkEnd::ReadFault)] {
        let one_byte = Source {
            bytes: b"A",
            most: 1,
            fails_at,
        };
        let links = [
            unanswered(100, 1, end),
            unanswered(100, 0, end),
            unanswered(0, 0, LinkEnd::TooLong),
        ];
        let steps = [Step::ServeAll(one_byte, &links)];
        plays(&rt, rt.alloc(), ONLINE, &steps);
    }
}

// A clone is equal, and large counts that differ by one are unequal.
#[test]
fn same_clones(rt: HostRuntime) {
    for end in &ENDS {
        assert!(rt; end.clone().expect(&rt, "memory") == *end);
        let large = how_served(1_000_000, 999_999, 700_000, *end);
        assert!(rt; large.clone().expect(&rt, "memory") == large);
        let links = [
            large,
            how_served(1_000_001, 999_999, 700_000, *end),
            how_served(1_000_000, 999_998, 700_000, *end),
            how_served(1_000_000, 999_999, 700_001, *end),
        ];
        assert!(&rt; unlike(&links) == None);
    }
}
