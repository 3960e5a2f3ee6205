//! Scripts through `play`: the worked rows of a line, each line of a script with what it prints, and lines that are none.

use crate::support::long::{Long, Text, prints_long};
use escpos_job_parts::status::Status;
use escpos_jobs::task::Task;
use escpos_test_jobs::{Row, performs_rows, prints};

// straight
const STRAIGHT: [Row; 1] = [(
    b"linkup\nmove 11\ndeliver 11\nhandover\nanswer 7\nsubmit [{\"line\":\"Hi\"}]\nmove 99\ndeliver 99\nhandover\nanswer 7\n",
    b"ok\nmoved 11\nfed 11 all\nhanded on\nheard 7 opened\nok\nmoved 16\nfed 16 all\nhanded on\nheard 7 recorded 0\n\
      paper\nrow left Hi\nfeed 1\nrecords 1\n",
    Status::Good,
)];

// lost_answer
const LOST_ANSWER: [Row; 1] = [(
    b"linkup\nmove 11\ndeliver 11\nhandover\nanswer 7\nsubmit [{\"line\":\"Hi\"}]\nmove 16\ndeliver 16\ndrop\nlinkup\nleave\nhandover\nanswer 7\n\
      move 11\ndeliver 11\nhandover\nanswer 7\nsubmit [{\"line\":\"Hi\"}]\nmove 16\ndeliver 16\nhandover\nanswer 7\n",
    b"ok\nmoved 11\nfed 11 all\nhanded on\nheard 7 opened\nok\nmoved 16\nfed 16 all\nok\nok\nok\nhanded on\nheard 7 recorded 0\n\
      moved 11\nfed 11 all\nhanded on\nheard 7 opened\nok\nmoved 16\nfed 16 all\nhanded on\nheard 7 recorded 1\n\
      paper\nrow left Hi\nfeed 1\nrow left Hi\nfeed 1\nrecords 2\n",
    Status::Good,
)];

// printer_restart
const PRINTER_RESTART: [Row; 1] = [(
    b"linkup\nmove 11\ndeliver 11\nhandover\nanswer 7\nsubmit [{\"line\":\"Hi\"}]\nmove 16\ndeliver 3\nprinter-restart\ndrop\nlinkup\n\
      move 11\ndeliver 11\nhandover\nanswer 7\nsubmit [{\"line\":\"Hi\"}]\nmove 16\ndeliver 16\nhandover\nanswer 7\n",
    b"ok\nmoved 11\nfed 11 all\nhanded on\nheard 7 opened\nok\nmoved 16\nfed 3 all\nok\nok\nok\n\
      moved 11\nfed 11 all\nhanded on\nheard 7 opened\nok\nmoved 16\nfed 16 all\nhanded on\nheard 7 recorded 0\n\
      paper\nrow left Hi\nfeed 1\nrecords 1\n",
    Status::Good,
)];

// two_in_flight
const TWO_IN_FLIGHT: [Row; 1] = [(
    b"linkup\nmove 11\ndeliver 11\nhandover\nanswer 7\nsubmit [{\"line\":\"A\"}]\nsubmit [{\"line\":\"B\"}]\nmove 99\ndeliver 99\nhandover\nhandover\nanswer 14\n",
    b"ok\nmoved 11\nfed 11 all\nhanded on\nheard 7 opened\nok\nok\nmoved 30\nfed 30 all\nhanded on\nhanded on\nheard 14 recorded 1\n\
      paper\nrow left A\nfeed 1\nrow left B\nfeed 1\nrecords 2\n",
    Status::Good,
)];

// late_for_two: of two receipts that are left the answer for the first is lost, and that for the second comes late
const LATE_FOR_TWO: Row = (
    b"linkup\nmove 11\ndeliver 11\nhandover\nanswer 7\nsubmit [{\"line\":\"A\"}]\nsubmit [{\"line\":\"B\"}]\nmove 99\ndeliver 99\ndrop\nhandover\nlinkup\nleave\n\
      handover\nanswer 7\n",
    b"ok\nmoved 11\nfed 11 all\nhanded on\nheard 7 opened\nok\nok\nmoved 30\nfed 30 all\nok\nhanded lost\nok\nok\n\
      handed on\nheard 7 recorded 1\npaper\nrow left A\nfeed 1\nrow left B\nfeed 1\nrecords 2\n",
    Status::Good,
);

// late_for_two_of_three: the third isn't printed; once the link is open an answer of before would record nothing more
const LATE_FOR_TWO_OF_THREE: Row = (
    b"linkup\nmove 11\ndeliver 11\nhandover\nanswer 7\nsubmit [{\"line\":\"A\"}]\nsubmit [{\"line\":\"B\"}]\nsubmit [{\"line\":\"C\"}]\nmove 99\ndeliver 30\ndrop\n\
      handover\nlinkup\nleave\nhandover\nanswer 7\nmove 11\ndeliver 11\nhandover\nanswer 7\nsubmit [{\"line\":\"C\"}]\nmove 99\ndeliver 99\nhandover\nanswer 7\n",
    b"ok\nmoved 11\nfed 11 all\nhanded on\nheard 7 opened\nok\nok\nok\nmoved 45\nfed 30 all\nok\nhanded lost\nok\nok\n\
      handed on\nheard 7 recorded 1\nmoved 11\nfed 11 all\nhanded on\nheard 7 opened\nok\nmoved 15\nfed 15 all\nhanded on\nheard 7 recorded 2\n\
      paper\nrow left A\nfeed 1\nrow left B\nfeed 1\nrow left C\nfeed 1\nrecords 3\n",
    Status::Good,
);

// first_of_two
const FIRST_OF_TWO: [Row; 1] = [(
    b"linkup\nmove 11\ndeliver 11\nhandover\nanswer 7\nsubmit [{\"line\":\"A\"}]\nsubmit [{\"line\":\"B\"}]\nmove 99\ndeliver 15\nhandover\nanswer 7\nprinter-restart\n",
    b"ok\nmoved 11\nfed 11 all\nhanded on\nheard 7 opened\nok\nok\nmoved 30\nfed 15 all\nhanded on\nheard 7 recorded 0\nok\n\
      paper\nrow left A\nfeed 1\nrecords 1\n",
    Status::Good,
)];

// resynchronised: a raster that lacks 22 bytes takes two marks of the next link, and the third opens it
const RESYNCHRONISED: Row = (
    b"linkup\nmove 11\ndeliver 11\nhandover\nanswer 7\n\
      submit [{\"raster\":{\"scale\":\"normal\",\"x\":1,\"y\":30,\"dots\":\"000000000000000000000000000000000000000000000000000000000000\"}}]\n\
      move 18\ndeliver 18\ndrop\nleave\nlinkup\nnudge\nnudge\nmove 33\ndeliver 33\nhandover\nanswer 7\n\
      submit [{\"raster\":{\"scale\":\"normal\",\"x\":1,\"y\":30,\"dots\":\"000000000000000000000000000000000000000000000000000000000000\"}}]\n\
      move 51\ndeliver 51\nhandover\nanswer 7\n",
    b"ok\nmoved 11\nfed 11 all\nhanded on\nheard 7 opened\nok\nmoved 18\nfed 18 all\nok\nok\nok\nok\nok\n\
      moved 33\nfed 33 all\nhanded on\nheard 7 opened\nok\nmoved 51\nfed 51 all\nhanded on\nheard 7 recorded 0\npaper\n\
      raster left normal 1 30 00000000000000001d284806003030303030321d28480600303030303033\n\
      raster left normal 1 30 000000000000000000000000000000000000000000000000000000000000\nrecords 1\n",
    Status::Good,
);

// a store of a QR code that lacks 22 bytes takes two marks of the next link, and the third opens it; the next receipt begins with an
// Init, which drops what was stored
const RESYNCHRONISED_STORE: Row = (
    b"linkup\nmove 11\ndeliver 11\nhandover\nanswer 7\n\
      submit [{\"qr\":{\"content\":\"aaaaaaaaaaaaaaaaaaaaaaaaaaaaaa\",\"size\":3,\"level\":\"L\"}}]\n\
      move 34\ndeliver 34\ndrop\nleave\nlinkup\nnudge\nnudge\nmove 33\ndeliver 33\nhandover\nanswer 7\n\
      submit [{\"qr\":{\"content\":\"aaaaaaaaaaaaaaaaaaaaaaaaaaaaaa\",\"size\":3,\"level\":\"L\"}}]\n\
      move 75\ndeliver 75\nhandover\nanswer 7\n",
    b"ok\nmoved 11\nfed 11 all\nhanded on\nheard 7 opened\nok\nmoved 34\nfed 34 all\nok\nok\nok\nok\nok\n\
      moved 33\nfed 33 all\nhanded on\nheard 7 opened\nok\nmoved 75\nfed 75 all\nhanded on\nheard 7 recorded 0\npaper\n\
      qr left 2 3 L aaaaaaaaaaaaaaaaaaaaaaaaaaaaaa\nrecords 1\n",
    Status::Good,
);

const ROWS: [Row; 28] = [
    // a host that is restarted with any number from its next mark's on: with one whose id comes round, and with the greatest
    (
        b"host-restart 1679615\nlinkup\nmove 11\ndeliver 11\nhandover\nanswer 7\nhost-restart 1679616\nlinkup\nhost-restart 1679615\n",
        b"ok\nok\nmoved 11\nfed 11 all\nhanded on\nheard 7 opened\nok\nok\nrefused 5 MarkReused 1679617\npaper\nrecords 0\n",
        Status::Good,
    ),
    // a host that has heard no answer, and is restarted with as many numbers used as there are ids
    (
        b"host-restart 1679616\nlinkup\nhost-restart 1679616\n",
        b"ok\nrefused 2 MarksUsedUp\nok\npaper\nrecords 0\n",
        Status::Good,
    ),
    // late_for_two, where the ids of the marks are ZZZY, ZZZZ and 0000, and that of the next link 0001
    (
        b"host-restart 1679614\nlinkup\nmove 11\ndeliver 11\nhandover\nanswer 7\nsubmit [{\"line\":\"A\"}]\nsubmit [{\"line\":\"B\"}]\nmove 99\ndeliver 99\ndrop\nhandover\nlinkup\nleave\nhandover\nanswer 7\nmove 11\ndeliver 11\nhandover\nanswer 7\nhost-restart 1679617\n",
        b"ok\nok\nmoved 11\nfed 11 all\nhanded on\nheard 7 opened\nok\nok\nmoved 30\nfed 30 all\nok\nhanded lost\nok\nok\nhanded on\nheard 7 recorded 1\nmoved 11\nfed 11 all\nhanded on\nheard 7 opened\nrefused 5 MarkReused 1679618\npaper\nrow left A\nfeed 1\nrow left B\nfeed 1\nrecords 2\n",
        Status::Good,
    ),
    (
        b"host-restart 4294967295\nlinkup\nhost-restart 4294967294\nhost-restart 4294967295\nhost-restart 0\n",
        b"ok\nrefused 2 MarksUsedUp\nrefused 5 MarkReused 4294967295\nok\nrefused 5 MarkReused 4294967295\npaper\nrecords 0\n",
        Status::Good,
    ),
    (
        b"host-restart 7\nhost-restart 4294967296\nlinkup\n",
        b"ok\nline 2 unreadable\npaper\nrecords 0\n",
        Status::Refused,
    ),
    (
        b"host-restart 007\nhost-restart 99999999999999999999\n",
        b"ok\nline 2 unreadable\npaper\nrecords 0\n",
        Status::Refused,
    ),
    // twelve restarts of a host, of which the last leaves mark 12 to open the link
    (
        b"host-restart 1\nhost-restart 2\nhost-restart 3\nhost-restart 4\nhost-restart 5\nhost-restart 6\nhost-restart 7\nhost-restart 8\nhost-restart 9\nhost-restart 10\nhost-restart 11\nhost-restart 12\nhost-restart 11\nlinkup\nmove 11\ndeliver 11\nhandover\nanswer 7\nhost-restart 12\nhost-restart 13\n",
        b"ok\nok\nok\nok\nok\nok\nok\nok\nok\nok\nok\nok\nrefused 5 MarkReused 12\nok\nmoved 11\nfed 11 all\nhanded on\nheard 7 opened\nrefused 5 MarkReused 13\nok\npaper\nrecords 0\n",
        Status::Good,
    ),
    // host_restart
    (
        b"linkup\nmove 11\ndeliver 11\nhandover\nanswer 7\nhost-restart 0\nhost-restart 1\nhandover",
        b"ok\nmoved 11\nfed 11 all\nhanded on\nheard 7 opened\nrefused 5 MarkReused 1\nok\nhanded none\npaper\nrecords 0\n",
        Status::Good,
    ),
    // older_link_served
    (
        b"linkup\nmove 11\ndrop\nlinkup\ndeliver 11\nhandover\n",
        b"ok\nmoved 11\nok\nok\nfed 11 all\nhanded lost\npaper\nrecords 0\n",
        Status::Good,
    ),
    // empty_line
    (
        b"deliver 5\nhandover\nanswer 7\nleave\n",
        b"fed 0 all\nhanded none\nheard 0 none\nok\npaper\nrecords 0\n",
        Status::Good,
    ),
    // unreadable_line
    (
        b"submit [{\"text\":\"A\"}]\n\nlinkup\n",
        b"receipt refused 3 TextLeft\nline 2 unreadable\npaper\nrecords 0\n",
        Status::Refused,
    ),
    // refused_events
    (
        b"linkup\nlinkup\nsubmit [{\"line\":\"A\"}]",
        b"ok\nrefused 3 AlreadyUp\nrefused 1 NotReady\npaper\nrecords 0\n",
        Status::Good,
    ),
    // a receipt that is none at a place, and one that isn't JSON
    (
        b"submit [{\"text\":\"Hi\"},{\"cut\":\"full\"}]\nsubmit \n",
        b"receipt refused 4 MidLine 2\nreceipt refused 5 NotJson\npaper\nrecords 0\n",
        Status::Good,
    ),
    // an empty script
    (b"", b"paper\nrecords 0\n", Status::Good),
    // a status that is asked for
    (
        b"linkup\nmove 11\ndeliver 11\nhandover\nanswer 7\ncondition 111\nask 4\nmove 99\ndeliver 99\nhandover\nanswer 9\n",
        b"ok\nmoved 11\nfed 11 all\nhanded on\nheard 7 opened\nok\nok\nmoved 3\nfed 3 all\nhanded on\nheard 1 status 7e\npaper\nrecords 0\n",
        Status::Good,
    ),
    // a printer that is asked to tell its condition: it answers at once, and tells that its paper has ended, as the paper ends
    (
        b"ask-reports\nlinkup-reports\nmove 14\ndeliver 14\nhandover\nanswer 4\nhandover\nanswer 7\nask-reports\nmove 3\ndeliver 3\nhandover\nanswer 9\ncondition 001\nhandover\nanswer 4\nlinkup-reports\n",
        b"refused 1 NotReady\nok\nmoved 14\nfed 14 all\nhanded on\nheard 4 condition 10 00 00 00\nhanded on\nheard 7 opened\nok\nmoved 3\nfed 3 all\nhanded on\nheard 4 condition 10 00 00 00\nok\nhanded on\nheard 4 condition 18 00 0c 00\nrefused 3 AlreadyUp\npaper\nrecords 0\n",
        Status::Good,
    ),
    // a printer that is offline, and is not
    (
        b"condition 100\nlinkup\nmove 11\ndeliver 11\ncondition 010\ndeliver 11\n",
        b"ok\nok\nmoved 11\nfed 10 offline\nok\nfed 1 all\npaper\nrecords 0\n",
        Status::Good,
    ),
    // a pulse that is cut off takes the first bytes of the next mark, and the printer leaves the link at the one that it can't read
    (
        b"linkup\nmove 11\ndeliver 11\nhandover\nanswer 7\nsubmit [{\"pulse\":{\"pin\":0,\"on\":1,\"off\":1}}]\nmove 5\ndeliver 5\ndrop\nleave\nlinkup\nmove 11\ndeliver 11\ndeliver 11\n",
        b"ok\nmoved 11\nfed 11 all\nhanded on\nheard 7 opened\nok\nmoved 5\nfed 5 all\nok\nok\nok\nmoved 11\nfed 3 fault 1 UnknownByte\nfed 0 all\npaper\nrecords 0\n",
        Status::Good,
    ),
    // bytes that leave a host without a live link are lost
    (
        b"linkup\nleave\nmove 5\nmove 4294967295\ndeliver 11\nnudge\n",
        b"ok\nok\nmoved 5\nmoved 6\nfed 0 all\nok\npaper\nrecords 0\n",
        Status::Good,
    ),
    // sixteen answers wait
    (
        b"linkup\nnudge\nnudge\nnudge\nnudge\nnudge\nnudge\nnudge\nnudge\nnudge\nnudge\nnudge\nnudge\nnudge\nnudge\nnudge\nnudge\nmove 187\ndeliver 187\n",
        b"ok\nok\nok\nok\nok\nok\nok\nok\nok\nok\nok\nok\nok\nok\nok\nok\nok\nmoved 187\nfed 186 full\npaper\nrecords 0\n",
        Status::Good,
    ),
    // an answer whose bytes come apart
    (
        b"linkup\nmove 11\ndeliver 11\nhandover\nanswer 3\nanswer 3\nanswer 0\nanswer 9\n",
        b"ok\nmoved 11\nfed 11 all\nhanded on\nheard 3 none\nheard 3 none\nheard 0 none\nheard 1 opened\npaper\nrecords 0\n",
        Status::Good,
    ),
    // four receipts are in flight
    (
        b"linkup\nmove 11\ndeliver 11\nhandover\nanswer 7\nsubmit [{\"line\":\"A\"}]\nsubmit [{\"line\":\"A\"}]\nsubmit [{\"line\":\"A\"}]\nsubmit [{\"line\":\"A\"}]\nsubmit [{\"line\":\"A\"}]\n",
        b"ok\nmoved 11\nfed 11 all\nhanded on\nheard 7 opened\nok\nok\nok\nok\nrefused 6 InFlightFull\npaper\nrecords 0\n",
        Status::Good,
    ),
    // the cover is open
    (
        b"linkup\nmove 11\ndeliver 11\nhandover\nanswer 7\nask 1\nask 2\nask 3\nask 4\nmove 12\ncondition 100\ndeliver 12\nhandover\nanswer 1\nhandover\nanswer 1\nhandover\nanswer 1\nhandover\nanswer 1\n",
        b"ok\nmoved 11\nfed 11 all\nhanded on\nheard 7 opened\nok\nok\nok\nok\nmoved 12\nok\nfed 12 all\nhanded on\nheard 1 status 1a\nhanded on\nheard 1 status 16\nhanded on\nheard 1 status 12\nhanded on\nheard 1 status 12\npaper\nrecords 0\n",
        Status::Good,
    ),
    // the paper has ended
    (
        b"linkup\nmove 11\ndeliver 11\nhandover\nanswer 7\nask 1\nask 2\nask 3\nask 4\nmove 12\ncondition 001\ndeliver 12\nhandover\nanswer 1\nhandover\nanswer 1\nhandover\nanswer 1\nhandover\nanswer 1\n",
        b"ok\nmoved 11\nfed 11 all\nhanded on\nheard 7 opened\nok\nok\nok\nok\nmoved 12\nok\nfed 12 all\nhanded on\nheard 1 status 1a\nhanded on\nheard 1 status 32\nhanded on\nheard 1 status 12\nhanded on\nheard 1 status 72\npaper\nrecords 0\n",
        Status::Good,
    ),
    // the paper is near its end
    (
        b"linkup\nmove 11\ndeliver 11\nhandover\nanswer 7\nask 1\nask 2\nask 3\nask 4\nmove 12\ncondition 010\ndeliver 12\nhandover\nanswer 1\nhandover\nanswer 1\nhandover\nanswer 1\nhandover\nanswer 1\n",
        b"ok\nmoved 11\nfed 11 all\nhanded on\nheard 7 opened\nok\nok\nok\nok\nmoved 12\nok\nfed 12 all\nhanded on\nheard 1 status 12\nhanded on\nheard 1 status 12\nhanded on\nheard 1 status 12\nhanded on\nheard 1 status 1e\npaper\nrecords 0\n",
        Status::Good,
    ),
    // sixteen answers go over
    (
        b"linkup\nnudge\nnudge\nnudge\nnudge\nnudge\nnudge\nnudge\nnudge\nnudge\nnudge\nnudge\nnudge\nnudge\nnudge\nnudge\nmove 176\ndeliver 176\nhandover\nhandover\nhandover\nhandover\nhandover\nhandover\nhandover\nhandover\nhandover\nhandover\nhandover\nhandover\nhandover\nhandover\nhandover\nhandover\nanswer 112\n",
        b"ok\nok\nok\nok\nok\nok\nok\nok\nok\nok\nok\nok\nok\nok\nok\nok\nmoved 176\nfed 176 all\nhanded on\nhanded on\nhanded on\nhanded on\nhanded on\nhanded on\nhanded on\nhanded on\nhanded on\nhanded on\nhanded on\nhanded on\nhanded on\nhanded on\nhanded on\nhanded on\nheard 112 opened\npaper\nrecords 0\n",
        Status::Good,
    ),
    // ten links are given up
    (
        b"linkup\ndrop\nlinkup\ndrop\nlinkup\ndrop\nlinkup\ndrop\nlinkup\ndrop\nlinkup\ndrop\nlinkup\ndrop\nlinkup\ndrop\nlinkup\ndrop\nlinkup\ndrop\nlinkup\nmove 11\ndeliver 11\n",
        b"ok\nok\nok\nok\nok\nok\nok\nok\nok\nok\nok\nok\nok\nok\nok\nok\nok\nok\nok\nok\nok\nmoved 11\nfed 0 all\npaper\nrecords 0\n",
        Status::Good,
    ),
    // twelve receipts that print nothing
    (
        b"linkup\nmove 11\ndeliver 11\nhandover\nanswer 7\nsubmit [{\"pulse\":{\"pin\":0,\"on\":1,\"off\":1}}]\nsubmit [{\"pulse\":{\"pin\":0,\"on\":1,\"off\":1}}]\nsubmit [{\"pulse\":{\"pin\":0,\"on\":1,\"off\":1}}]\nsubmit [{\"pulse\":{\"pin\":0,\"on\":1,\"off\":1}}]\nmove 99\ndeliver 99\nhandover\nhandover\nhandover\nhandover\nanswer 99\nsubmit [{\"pulse\":{\"pin\":0,\"on\":1,\"off\":1}}]\nsubmit [{\"pulse\":{\"pin\":0,\"on\":1,\"off\":1}}]\nsubmit [{\"pulse\":{\"pin\":0,\"on\":1,\"off\":1}}]\nsubmit [{\"pulse\":{\"pin\":0,\"on\":1,\"off\":1}}]\nmove 99\ndeliver 99\nhandover\nhandover\nhandover\nhandover\nanswer 99\nsubmit [{\"pulse\":{\"pin\":0,\"on\":1,\"off\":1}}]\nsubmit [{\"pulse\":{\"pin\":0,\"on\":1,\"off\":1}}]\nsubmit [{\"pulse\":{\"pin\":0,\"on\":1,\"off\":1}}]\nsubmit [{\"pulse\":{\"pin\":0,\"on\":1,\"off\":1}}]\nmove 99\ndeliver 99\nhandover\nhandover\nhandover\nhandover\nanswer 99\n",
        b"ok\nmoved 11\nfed 11 all\nhanded on\nheard 7 opened\nok\nok\nok\nok\nmoved 72\nfed 72 all\nhanded on\nhanded on\nhanded on\nhanded on\nheard 28 recorded 3\nok\nok\nok\nok\nmoved 72\nfed 72 all\nhanded on\nhanded on\nhanded on\nhanded on\nheard 28 recorded 7\nok\nok\nok\nok\nmoved 72\nfed 72 all\nhanded on\nhanded on\nhanded on\nhanded on\nheard 28 recorded 11\npaper\nrecords 12\n",
        Status::Good,
    ),
];

#[test]
fn straight(rt: HostRuntime) {
    assert!(&rt; performs_rows(rt.alloc(), Task::Play, &STRAIGHT, &[1, 512]));
}

#[test]
fn lost_answer(rt: HostRuntime) {
    assert!(&rt; performs_rows(rt.alloc(), Task::Play, &LOST_ANSWER, &[512]));
}

#[test]
fn printer_restart(rt: HostRuntime) {
    assert!(&rt; performs_rows(rt.alloc(), Task::Play, &PRINTER_RESTART, &[512]));
}

#[test]
fn two_in_flight(rt: HostRuntime) {
    assert!(&rt; performs_rows(rt.alloc(), Task::Play, &TWO_IN_FLIGHT, &[512]));
}

const LATE: [Row; 2] = [LATE_FOR_TWO, LATE_FOR_TWO_OF_THREE];

#[test]
fn late_for_two(rt: HostRuntime) {
    assert!(&rt; performs_rows(rt.alloc(), Task::Play, &LATE, &[512]));
}

#[test]
fn first_of_two(rt: HostRuntime) {
    assert!(&rt; performs_rows(rt.alloc(), Task::Play, &FIRST_OF_TWO, &[512]));
}

const RESYNCHRONISED_TWICE: [Row; 2] = [RESYNCHRONISED, RESYNCHRONISED_STORE];

#[test]
fn resynchronised(rt: HostRuntime) {
    assert!(&rt; performs_rows(rt.alloc(), Task::Play, &RESYNCHRONISED_TWICE, &[512]));
}

#[test]
fn scripts(rt: HostRuntime) {
    assert!(&rt; performs_rows(rt.alloc(), Task::Play, &ROWS, &[512]));
}

// Lines that are none of a script.
const UNREADABLE: [&[u8]; 24] = [
    b"\n",
    b"linkup \n",
    b" linkup\n",
    b"Linkup\n",
    b"linkup\r\n",
    b"submit",
    b"submit\n",
    b"move\n",
    b"move \n",
    b"move -1\n",
    b"move +1\n",
    b"move 1 \n",
    b"move  1\n",
    b"move 1 2\n",
    b"move 4294967296\n",
    b"move 1\r\n",
    b"leave\t\n",
    b"ask 0\n",
    b"ask 5\n",
    b"ask 257\n",
    b"condition 11\n",
    b"condition 1111\n",
    b"condition 012\n",
    b"\xff\n",
];

fn unreadable() -> &'static [&'static [u8]] {
    &UNREADABLE
}

#[test]
fn unreadable_lines(rt: HostRuntime) {
    let wanted = (
        b"line 1 unreadable\npaper\nrecords 0\n".as_slice(),
        Status::Refused,
    );
    for line in unreadable() {
        assert!(&rt; prints(rt.alloc(), Task::Play, line, wanted));
    }
}

const FAR: [Long; 1] = [(
    Text::Parts(("", "leave\n", "leave \n"), 120),
    Text::Parts(("", "ok\n", "line 121 unreadable\npaper\nrecords 0\n"), 120),
    Status::Refused,
)];

#[test]
fn far_into_a_script(rt: HostRuntime) {
    prints_long(&rt, rt.alloc(), Task::Play, &FAR);
}

// A line of more than a mebibyte: JSON takes blanks anywhere.
const LONG_LINE: [Long; 1] = [(
    Text::Parts(
        (
            "submit [",
            "                                                                ",
            "{\"line\":\"A\"}]\n",
        ),
        20_000,
    ),
    Text::Whole(b"refused 1 NotReady\npaper\nrecords 0\n"),
    Status::Good,
)];

#[test]
fn long_line(rt: HostRuntime) {
    prints_long(&rt, rt.alloc(), Task::Play, &LONG_LINE);
}
