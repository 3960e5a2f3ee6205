//! What a till's words print, and their statuses, over a store in memory.
//!
//! Each word opens the ledger of the store that it is given, as in the program, and gives the store back.

use crate::support::steps::{Step, does_all, plays, plays_after_raises, plays_failing};
use crate::support::tills::{
    A, FAILED, Plain, Prepared, S, Told, answered_link, delivery_to, done_with, left_address,
    listens, says_so, store_of,
};
use escpos_addresses::printer_link::Printers;
use escpos_io::MemoryOut;
use escpos_job_parts::status::Status;
use escpos_till::{MemoryStore, NoStore};
use escpos_till_jobs::{AtAddress, LinkLine, Waits, Word, refuse_store};
use std::alloc::Global;
use std::net::SocketAddrV4;
use std::process::Abort;

const NONE: &[Plain] = &[];

const ONE: &[Plain] = &[Plain::Taken];

const QUEUED_AND_LISTED: &[Step] = &[
    Step::List(None, ("next 0\n", Status::Good)),
    Step::Queue(S, ("queued 1\n", Status::Good)),
    Step::Queue(
        b"[{\"text\":\"Hi\"}]",
        ("refused 3 TextLeft\n", Status::Refused),
    ),
    Step::Queue(A, ("queued 2\n", Status::Good)),
    Step::List(None, ("1 waiting\n2 waiting\nnext 0\n", Status::Good)),
];

// Two receipts are taken, and one that is none is refused.
#[test]
fn queued_and_listed(rt: HostRuntime) {
    plays(&rt, rt.alloc(), NONE, QUEUED_AND_LISTED);
}

const QUEUED_WITH_KEYS: &[Step] = &[
    Step::QueueWithKey(S, b"sale-7", ("queued 1\n", Status::Good)),
    Step::QueueWithKey(S, b"sale-7", ("queued 1\n", Status::Good)),
    Step::QueueWithKey(A, b"sale-7", ("queued 1\n", Status::Good)),
    Step::QueueWithKey(S, b"sale-8", ("queued 2\n", Status::Good)),
    Step::QueueWithKey(S, b"sale-7", ("queued 1\n", Status::Good)),
    Step::Queue(S, ("queued 3\n", Status::Good)),
    Step::List(
        None,
        ("1 waiting\n2 waiting\n3 waiting\nnext 0\n", Status::Good),
    ),
    Step::Kept(5),
];

// A key that is known has its receipt's number printed, and adds nothing.
#[test]
fn queued_with_keys(rt: HostRuntime) {
    plays(&rt, rt.alloc(), NONE, QUEUED_WITH_KEYS);
}

const QUEUED_WITH_A_VOID_KEY: &[Step] = &[
    Step::QueueWithKey(S, b"sale-7", FAILED),
    Step::Crash,
    Step::List(None, ("next 0\n", Status::Good)),
    Step::Queue(A, ("queued 1\n", Status::Good)),
    Step::QueueWithKey(S, b"sale-7", ("queued 2\n", Status::Good)),
    Step::QueueWithKey(S, b"sale-7", ("queued 2\n", Status::Good)),
];

// A store that fails within a receipt with a key: the key is void, and may come again.
#[test]
fn queued_with_a_void_key(rt: HostRuntime) {
    plays_failing(&rt, rt.alloc(), NONE, 1, QUEUED_WITH_A_VOID_KEY);
}

// The first is tried; then it is recorded, and the second tried.
const TRIED_1: &[Plain] = &[Plain::Taken, Plain::Taken, Plain::Tried(1, 2)];

const TRIED_2: &[Plain] = &[
    Plain::Taken,
    Plain::Taken,
    Plain::Tried(1, 2),
    Plain::Recorded(1),
    Plain::Tried(2, 4),
];

const RAISED_AND_LISTED_1: &[Step] = &[Step::List(
    None,
    ("1 tried 1\n2 waiting\nnext 2\n", Status::Good),
)];

const RAISED_AND_LISTED_2: &[Step] = &[
    Step::List(None, ("1 recorded 0\n2 tried 1\nnext 4\n", Status::Good)),
    Step::List(Some(3), ("refused MarkReused 4\n", Status::Refused)),
    Step::List(
        Some(1_679_617),
        ("refused MarkTooHigh 1679616\n", Status::Refused),
    ),
    Step::List(Some(4), ("1 recorded 0\n2 tried 1\nnext 4\n", Status::Good)),
    Step::List(Some(7), ("1 recorded 0\n2 tried 1\nnext 7\n", Status::Good)),
    Step::List(None, ("1 recorded 0\n2 tried 1\nnext 7\n", Status::Good)),
];

// The next number is raised, and never falls.
#[test]
fn raised_and_listed(rt: HostRuntime) {
    plays(&rt, rt.alloc(), TRIED_1, RAISED_AND_LISTED_1);
    plays(&rt, rt.alloc(), TRIED_2, RAISED_AND_LISTED_2);
}

// The first is recorded, the second tried, the third waits, and the fourth was cancelled after it was tried. There is no fifth.
const FOUR: &[Plain] = &[
    Plain::Taken,
    Plain::Taken,
    Plain::Tried(1, 2),
    Plain::Recorded(1),
    Plain::Tried(2, 4),
    Plain::Taken,
    Plain::Taken,
    Plain::Tried(4, 6),
    Plain::Cancelled(4),
];

const CANCELLED: &[Step] = &[
    Step::Cancel(1, ("refused Recorded 1\n", Status::Refused)),
    Step::Cancel(2, ("cancelled 2 tried 1\n", Status::Good)),
    Step::Cancel(2, ("refused Cancelled 2\n", Status::Refused)),
    Step::Cancel(3, ("cancelled 3\n", Status::Good)),
    Step::Cancel(3, ("refused Cancelled 3\n", Status::Refused)),
    Step::Cancel(4, ("refused Cancelled 4\n", Status::Refused)),
    Step::Cancel(5, ("refused NotTaken 5\n", Status::Refused)),
    Step::Cancel(
        18_446_744_073_709_551_615,
        ("refused NotTaken 18446744073709551615\n", Status::Refused),
    ),
    Step::Kept(11),
];

// Only a receipt that waits is cancelled; the next mark number is as it was.
#[test]
fn cancelled(rt: HostRuntime) {
    plays(&rt, rt.alloc(), FOUR, CANCELLED);
}

const TWO: &[Plain] = &[Plain::Taken, Plain::Taken];

const TWICE: &[Plain] = &[
    Plain::Taken,
    Plain::Tried(1, 2),
    Plain::Tried(1, 4),
    Plain::Taken,
];

const CANCELLED_AND_LISTED_1: &[Step] = &[
    Step::Cancel(1, ("cancelled 1\n", Status::Good)),
    Step::List(None, ("1 cancelled\n2 waiting\nnext 0\n", Status::Good)),
];

const CANCELLED_AND_LISTED_2: &[Step] = &[
    Step::Cancel(1, ("cancelled 1 tried 2\n", Status::Good)),
    Step::List(
        None,
        ("1 cancelled tried 2\n2 waiting\nnext 4\n", Status::Good),
    ),
];

#[test]
fn cancelled_and_listed(rt: HostRuntime) {
    plays(&rt, rt.alloc(), TWO, CANCELLED_AND_LISTED_1);
    plays(&rt, rt.alloc(), TWICE, CANCELLED_AND_LISTED_2);
}

// The receipts of a store are delivered over a network.
fn delivers<N: Printers>(
    alloc: Global,
    store: &mut MemoryStore,
    (net, address): (&N, SocketAddrV4),
    wanted: Told,
) -> bool {
    let delivery = delivery_to(address);
    let waits = Waits {
        wait: None,
        patience: delivery.patience,
    };
    let line = LinkLine::new(AtAddress::new(net, delivery.address, waits));
    let mut room = [0; 64];
    let mut output = MemoryOut::new(&mut room);
    let status = done_with(alloc, store, line, Word::Deliver(delivery), &mut output);
    says_so((output.written(), status), wanted)
}

// They are delivered over a network to this address, of which this is told; then these steps are done.
fn delivers_before<N: Printers>(
    rt: &impl Abort,
    alloc: Global,
    store: &mut MemoryStore,
    network: (&N, SocketAddrV4),
    told: Told,
    steps: &[Step],
) {
    assert!(rt; delivers(alloc, store, network, told));
    does_all(rt, alloc, store, steps);
}

const TAKEN: &[Step] = &[Step::Queue(S, ("queued 1\n", Status::Good))];

const STILL_WAITING: &[Step] = &[Step::List(None, ("1 waiting\nnext 0\n", Status::Good))];

// Nobody listens at the address: the receipt waits, and hasn't been tried.
#[test]
fn not_found(rt: HostRuntime) {
    let address = left_address(&rt);
    let mut store = store_of(&rt, rt.alloc(), NONE);
    let nothing = ("", Status::Good);
    delivers_before(&rt, rt.alloc(), &mut store, (&rt, address), nothing, TAKEN);
    let no_link = ("waiting 1 no link\n", Status::Device);
    delivers_before(
        &rt,
        rt.alloc(),
        &mut store,
        (&rt, address),
        no_link,
        STILL_WAITING,
    );
}

const THREE: &[Plain] = &[Plain::Taken, Plain::Taken, Plain::Taken];

const ONE_RECORDED: &[Step] = &[Step::List(
    None,
    ("1 recorded 0\n2 tried 1\n3 waiting\nnext 3\n", Status::Good),
)];

// The receipts of a ledger are delivered over the link of a network: the first is recorded, and the second one goes over the same link,
// which ends.
fn records_one(rt: &impl Abort, alloc: Global, net: &Prepared<'_>) {
    let mut store = store_of(rt, alloc, THREE);
    let told = ("recorded 1\nwaiting 2 Ended\n", Status::Device);
    delivers_before(
        rt,
        alloc,
        &mut store,
        (net, net.address),
        told,
        ONE_RECORDED,
    );
}

// No third receipt is tried.
#[test]
fn delivered_over_a_link(rt: HostRuntime) {
    let (listener, address) = listens(&rt);
    let (client, _printer) = answered_link(
        &rt,
        (&listener, address),
        (b"\x37\x220000\x00", b"\x37\x220001\x00"),
    );
    let client = &client;
    records_one(&rt, rt.alloc(), &Prepared { address, client });
}

const SENT_AGAIN_AS_A_COPY: &[Step] = &[
    Step::Deliver(
        b"",
        b"\x1Da\x0E\x1D(H\x06\x00000000\x1D(H\x06\x00000001",
        ("waiting 1 Ended\n", Status::Device),
    ),
    Step::List(None, ("1 tried 1\nnext 3\n", Status::Good)),
    Step::Deliver(
        b"\x37\x220003\x00\x37\x220005\x00",
        b"\x1Da\x0E\x1D(H\x06\x00000003\x1D(H\x06\x00000004\x1Da\x0E\x1B@\x1Ba\x01\x1BE\x01AGAIN\n\x1BE\x00\x1Ba\x00Hi\n\x1D(H\x06\x00000005",
        ("recorded 1\n", Status::Good),
    ),
    Step::List(None, ("1 recorded 0\nnext 6\n", Status::Good)),
];

// No mark is answered: the receipt waits, with three numbers used. It is sent again as a copy, with numbers of its own.
#[test]
fn sent_again_as_a_copy(rt: HostRuntime) {
    plays(&rt, rt.alloc(), ONE, SENT_AGAIN_AS_A_COPY);
}

const RECORDED_LATE: &[Step] = &[
    Step::Deliver(
        b"\x37\x220000\x00",
        b"\x1Da\x0E\x1D(H\x06\x00000000\x1D(H\x06\x00000001\x1Da\x0E\x1B@Hi\n\x1D(H\x06\x00000002",
        ("waiting 1 Ended\n", Status::Device),
    ),
    Step::List(None, ("1 tried 1\nnext 3\n", Status::Good)),
    Step::Deliver(
        b"\x14\x00\x00\x0F\x37\x220001\x00\x37\x220002\x00",
        b"\x1Da\x0E\x1D(H\x06\x00000003\x1D(H\x06\x00000004",
        ("recorded 1\n", Status::Good),
    ),
    Step::List(None, ("1 recorded 0\nnext 6\n", Status::Good)),
];

// The link ends before the receipt's mark is answered. It is answered late: on the next link, after a block of automatic status and
// before an opening mark's answer. The receipt is recorded, and no copy is sent.
#[test]
fn recorded_late(rt: HostRuntime) {
    plays(&rt, rt.alloc(), ONE, RECORDED_LATE);
}

const TOLD_THAT_IT_PAUSES: &[Step] = &[Step::Deliver(
    b"\x37\x220000\x00\x18\x00\x0C\x00\x12\x12\x12\x38\x00\x00\x00\x12\x12\x12\x10\x00\x00\x00\x12\x12\x12\x37\x220002\x00",
    b"\x1Da\x0E\x1D(H\x06\x00000000\x1D(H\x06\x00000001\x1Da\x0E\x1B@Hi\n\x1D(H\x06\x00000002",
    (
        "paused 1 paper ended\npaused 1 cover open\nrecorded 1\n",
        Status::Good,
    ),
)];

// The paper ends before the receipt's mark is answered, the cover is opened, the paper is in again, and the mark is answered: each pause
// is told, and then that the receipt is recorded. Statuses fill each read, so that no block comes with another.
#[test]
fn told_that_it_pauses(rt: HostRuntime) {
    plays(&rt, rt.alloc(), ONE, TOLD_THAT_IT_PAUSES);
}

const ENDED_WHILE_IT_PAUSES: &[Step] = &[
    Step::Deliver(
        b"\x18\x00\x00\x00",
        b"\x1Da\x0E\x1D(H\x06\x00000000\x1D(H\x06\x00000001",
        ("paused 1 offline\nwaiting 1 Ended\n", Status::Device),
    ),
    Step::List(None, ("1 tried 1\nnext 3\n", Status::Good)),
];

// The printer goes offline, and then the link ends: that is why the receipt waits.
#[test]
fn ended_while_it_pauses(rt: HostRuntime) {
    plays(&rt, rt.alloc(), ONE, ENDED_WHILE_IT_PAUSES);
}

// A line with U+4E2D, and a rule.
const NO_CODE: &[u8] = b"[{\"line\":\"\xE4\xB8\xAD!\"},{\"rule\":\"-\"}]";

const SENT_WITH_OPTIONS: &[Step] = &[
    Step::Queue(
        NO_CODE,
        ("refused 8 NoCharacter 0 U+4E2D\n", Status::Refused),
    ),
    Step::QueueFor(384, NO_CODE, ("queued 1\n", Status::Good)),
    Step::Deliver(
        b"\x37\x220000\x00\x37\x220001\x00\x37\x220002\x00",
        b"\x1Da\x0E\x1D(H\x06\x00000000\x1D(H\x06\x00000001\x1Da\x0E\x1B@?!\n--------------------------------\n\x1D(H\x06\x00000002",
        ("recorded 1\n", Status::Good),
    ),
];

// A text for a line of 384 dots, with a character that no code table has: it is refused unless there is a replacement, and sent as
// it was read when it was taken.
#[test]
fn sent_with_options(rt: HostRuntime) {
    plays(&rt, rt.alloc(), NONE, SENT_WITH_OPTIONS);
}

const NEXT_SENT_AFTER_A_CANCEL: &[Step] = &[
    Step::Queue(S, ("queued 1\n", Status::Good)),
    Step::Queue(A, ("queued 2\n", Status::Good)),
    Step::Cancel(1, ("cancelled 1\n", Status::Good)),
    Step::Deliver(
        b"\x37\x220000\x00\x37\x220001\x00\x37\x220002\x00",
        b"\x1Da\x0E\x1D(H\x06\x00000000\x1D(H\x06\x00000001\x1Da\x0E\x1B@A\n\x1D(H\x06\x00000002",
        ("recorded 2\n", Status::Good),
    ),
    Step::Deliver(b"", b"", ("", Status::Good)),
    Step::List(None, ("1 cancelled\n2 recorded 0\nnext 3\n", Status::Good)),
];

// The first receipt is cancelled: the second is the one that is sent. Once none waits, nothing is.
#[test]
fn next_sent_after_a_cancel(rt: HostRuntime) {
    plays(&rt, rt.alloc(), NONE, NEXT_SENT_AFTER_A_CANCEL);
}

const SENT_AFTER_TWELVE_TRIES: &[Step] = &[
    Step::List(None, ("1 tried 12\nnext 12\n", Status::Good)),
    Step::Deliver(
        b"",
        b"\x1Da\x0E\x1D(H\x06\x0000000C\x1D(H\x06\x0000000D",
        ("waiting 1 Ended\n", Status::Device),
    ),
    Step::List(None, ("1 tried 13\nnext 15\n", Status::Good)),
];

const TWELVE_TRIES: &[Plain] = &[
    Plain::Taken,
    Plain::Tried(1, 1),
    Plain::Tried(1, 2),
    Plain::Tried(1, 3),
    Plain::Tried(1, 4),
    Plain::Tried(1, 5),
    Plain::Tried(1, 6),
    Plain::Tried(1, 7),
    Plain::Tried(1, 8),
    Plain::Tried(1, 9),
    Plain::Tried(1, 10),
    Plain::Tried(1, 11),
    Plain::Tried(1, 12),
];

// However often a receipt was tried, it is sent once more.
#[test]
fn sent_after_twelve_tries(rt: HostRuntime) {
    plays(&rt, rt.alloc(), TWELVE_TRIES, SENT_AFTER_TWELVE_TRIES);
}

const FAILED_OUTPUT: &[Step] = &[
    Step::QueueUnheard(S),
    Step::ListUnheard,
    Step::List(None, ("1 waiting\nnext 0\n", Status::Good)),
];

// An output that fails is a device that fails; what was taken is taken.
#[test]
fn failed_output(rt: HostRuntime) {
    plays(&rt, rt.alloc(), NONE, FAILED_OUTPUT);
}

// Why there is no store, and what is told then.
const NO_STORE: [(NoStore, Told); 4] = [
    (NoStore::InUse, ("ledger in use\n", Status::Device)),
    (NoStore::NoLedger, ("no ledger\n", Status::Device)),
    (NoStore::Failed, FAILED),
    (NoStore::Memory, ("memory\n", Status::Memory)),
];

fn is_refused(why: NoStore, told: Told) -> bool {
    let mut room = [0; 64];
    let mut output = MemoryOut::new(&mut room);
    let status = refuse_store(why, &mut output);
    says_so((output.written(), status), told)
}

#[test]
fn no_store(rt: HostRuntime) {
    for (why, told) in NO_STORE {
        assert!(&rt; is_refused(why, told), "{told:?}");
    }
}

const UNTAKEN: &[Plain] = &[Plain::Recorded(1)];

const DAMAGED: &[Step] = &[
    Step::List(None, ("no ledger\n", Status::Device)),
    Step::Queue(S, ("no ledger\n", Status::Device)),
    Step::Cancel(1, ("no ledger\n", Status::Device)),
    Step::Deliver(b"", b"", ("no ledger\n", Status::Device)),
    Step::Kept(1),
];

// Entries that no ledger has: each word says so, and leaves them.
#[test]
fn damaged(rt: HostRuntime) {
    plays(&rt, rt.alloc(), UNTAKEN, DAMAGED);
}

const AFTER_RAISES: &[Step] = &[
    Step::Queue(S, ("queued 1\n", Status::Good)),
    Step::List(Some(9), ("1 waiting\nnext 9\n", Status::Good)),
];

// A ledger of so many entries takes a receipt, and is listed: no number of entries is too high.
#[test]
fn many_entries(rt: HostRuntime) {
    for count in [1, 255, 256, 1_000, 65_536] {
        plays_after_raises(&rt, rt.alloc(), count, AFTER_RAISES);
    }
}
