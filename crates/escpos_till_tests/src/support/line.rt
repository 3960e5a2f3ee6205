//! A line to a printer that does what it is told to.

use escpos_host::SendFault;
use escpos_till::PrinterLine;

// What a printer answers: the bytes that each wait gives. Then the link has ended.
pub type Answers = &'static [&'static [u8]];

// The answers to marks 0 and 1, and to marks 2 and 3.
pub const ANSWERS_01: Answers = &[b"\x37\x220000\x00", b"\x37\x220001\x00"];

pub const ANSWERS_23: Answers = &[b"\x37\x220002\x00", b"\x37\x220003\x00"];

// What is put of mark 2, S as a copy, and mark 3.
pub const SENT_AGAIN: &[u8] =
    b"\x1D(H\x06\x00000002\x1B@\x1Ba\x01\x1BE\x01COPY\n\x1BE\x00\x1Ba\x00Hi\n\x1D(H\x06\x00000003";

// More bytes than are put on a link.
const ROOM_BYTES: usize = 128;

// A line to a printer, which owns nothing.
#[derive(Drop)]
pub struct Line {
    // whether there is a link
    pub has_link: bool,
    // what the next waits give
    pub answers: Answers,
    // how often a link was given up
    pub hang_ups: usize,
    // how often the printer was asked on the last link to tell its condition unasked
    pub requests: usize,
    // how often it was waited for on the last link with patience
    pub patient_waits: usize,
    // what else was put on the last link
    out: [u8; ROOM_BYTES],
    count: usize,
}

impl Line {
    // A line with a link, and no answers.
    pub fn new() -> Self {
        Line {
            has_link: true,
            answers: &[],
            hang_ups: 0,
            requests: 0,
            patient_waits: 0,
            out: [0; ROOM_BYTES],
            count: 0,
        }
    }

    // What was put on the last link, but for the requests for automatic status.
    pub fn sent(&self) -> &[u8] {
        &self.out[..self.count.min(ROOM_BYTES)]
    }
}

impl PrinterLine for Line {
    ghost did = { λ old deed new. Unit {0} };

    fn connect(&mut self) -> bool {
        self.count = 0;
        self.requests = 0;
        self.patient_waits = 0;
        self.has_link
    }

    fn put(&mut self, bytes: &[u8], _patient: bool) -> Result<(), SendFault> {
        let bytes = match bytes {
            [0x1D, b'a', 0x0E, others @ ..] => {
                self.requests = self.requests.saturating_add(1);
                others
            }
            bytes => bytes,
        };
        let from = self.count.min(ROOM_BYTES);
        if bytes.len() > ROOM_BYTES - from {
            return Err(SendFault::WriteFault);
        }
        let end = from + bytes.len();
        self.out[from..end].copy_from_slice(bytes);
        self.count = end;
        Ok(())
    }

    fn pull(&mut self, room: &mut [u8], patient: bool) -> Result<usize, SendFault> {
        if patient {
            self.patient_waits = self.patient_waits.saturating_add(1);
        }
        match self.answers {
            [] => Err(SendFault::Ended),
            [bytes, others @ ..] => {
                let count = bytes.len().min(room.len());
                room[..count].copy_from_slice(&bytes[..count]);
                self.answers = others;
                Ok(count)
            }
        }
    }

    fn takes_at_once(&self) -> bool {
        true
    }

    fn gives_soon(&self) -> bool {
        true
    }

    fn hang_up(&mut self) {
        self.hang_ups = self.hang_ups.saturating_add(1);
    }
}
