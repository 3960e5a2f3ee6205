//! Devices (escpos_io): a reader or a writer that fails once, and each call on its happy path. `pieces` has what is put in
//! pieces.

use escpos_io::*;
use std::alloc::Global;
use std::io;
use std::io::{Error, ErrorKind, Read, Write};

// A reader whose first read gives an error of this kind, or finds the end where there is none; later ones give one byte each.
#[derive(Drop)]
struct StoppingOnce {
    kind: Option<ErrorKind>,
    reads: u32,
}

impl Read for StoppingOnce {
    fn read(&mut self, buf: &mut [u8]) -> io::Result<usize> {
        self.reads = self.reads.saturating_add(1);
        if self.reads == 1 {
            return match self.kind {
                Some(kind) => Err(Error::from(kind)),
                None => Ok(0),
            };
        }
        if buf.is_empty() {
            return Ok(0);
        }
        buf[0] = 7;
        Ok(1)
    }
}

// A writer whose first write gives an error of this kind, or takes nothing where there is none; later ones take everything.
#[derive(Drop)]
struct StuckOnce {
    kind: Option<ErrorKind>,
    writes: u32,
    flushes: u32,
}

impl Write for StuckOnce {
    fn write(&mut self, buf: &[u8]) -> io::Result<usize> {
        self.writes = self.writes.saturating_add(1);
        if self.writes == 1 {
            return match self.kind {
                Some(kind) => Err(Error::from(kind)),
                None => Ok(0),
            };
        }
        Ok(buf.len())
    }

    fn flush(&mut self) -> io::Result<()> {
        self.flushes = self.flushes.saturating_add(1);
        Ok(())
    }
}

// What a source gives and a sink takes, with nothing of what their contracts say of it.
fn pull<R: ByteIn>(source: &mut R, piece: &mut [u8]) -> Result<usize, Failed> {
    source.pull(piece)
}

fn put<W: ByteOut>(sink: &mut W, bytes: &[u8]) -> Result<usize, Failed> {
    sink.put(bytes)
}

fn all_of<R: ByteIn>(alloc: Global, source: &mut R, most: usize) -> Result<Vec<u8>, ReadError> {
    read_to_end(alloc, source, most)
}

#[test]
fn memory_in_gives_a_few_bytes_a_call(rt: HostRuntime) {
    let mut source = MemoryIn::new(b"hello", 2);
    let mut piece = [0u8; 4];
    assert!(rt; pull(&mut source, &mut piece) == Ok(2));
    assert!(rt; piece == *b"he\0\0");
    assert!(rt; pull(&mut source, &mut piece) == Ok(2));
    assert!(rt; pull(&mut source, &mut piece) == Ok(1));
    assert!(rt; piece == *b"ol\0\0");
    assert!(rt; !source.has_ended());
    assert!(rt; pull(&mut source, &mut []) == Ok(0));
    assert!(rt; !source.has_ended());
    assert!(rt; pull(&mut source, &mut piece) == Ok(0));
    assert!(rt; source.has_ended());
    assert!(rt; !source.has_failed());
    assert!(rt; source.pulls() == 5);
}

#[test]
fn memory_in_of_most_0_gives_a_byte_a_call(rt: HostRuntime) {
    let mut source = MemoryIn::new(b"ab", 0);
    let mut piece = [0u8; 4];
    assert!(rt; pull(&mut source, &mut piece) == Ok(1));
    assert!(rt; piece[0] == b'a');
}

#[test]
fn memory_in_fails_from_its_call_on(rt: HostRuntime) {
    let mut source = MemoryIn::failing(b"hello", 2, 2);
    let mut piece = [0u8; 4];
    assert!(rt; pull(&mut source, &mut piece) == Ok(2));
    assert!(rt; pull(&mut source, &mut piece) == Err(Failed));
    assert!(rt; source.has_failed());
    assert!(rt; pull(&mut source, &mut piece) == Err(Failed));
    assert!(rt; source.pulls() == 3);
}

#[test]
fn memory_in_that_ended_does_not_fail(rt: HostRuntime) {
    let mut source = MemoryIn::failing(b"hi", 2, 3);
    let mut piece = [0u8; 4];
    assert!(rt; pull(&mut source, &mut piece) == Ok(2));
    assert!(rt; pull(&mut source, &mut piece) == Ok(0));
    assert!(rt; pull(&mut source, &mut piece) == Ok(0));
    assert!(rt; !source.has_failed());
    assert!(rt; source.pulls() == 3);
}

#[test]
fn memory_out_fails_once_it_is_full(rt: HostRuntime) {
    let mut room = [0u8; 3];
    let mut sink = MemoryOut::new(&mut room);
    assert!(rt; put(&mut sink, b"ab") == Ok(2));
    assert!(rt; put(&mut sink, b"cd") == Ok(1));
    assert!(rt; put(&mut sink, b"") == Ok(0));
    assert!(rt; !sink.has_failed());
    assert!(rt; put(&mut sink, b"d") == Err(Failed));
    assert!(rt; sink.has_failed());
    assert!(rt; put(&mut sink, b"") == Err(Failed));
    assert!(rt; sink.written() == b"abc".as_slice());
}

#[test]
fn memory_out_fails_from_its_call_on(rt: HostRuntime) {
    let mut room = [0u8; 8];
    let mut sink = MemoryOut::failing(&mut room, 2);
    assert!(rt; put(&mut sink, b"ab") == Ok(2));
    assert!(rt; put(&mut sink, b"cd") == Err(Failed));
    assert!(rt; put(&mut sink, b"ef") == Err(Failed));
    assert!(rt; sink.written() == b"ab".as_slice());
}

#[test]
fn incoming_gives_what_its_reader_has(rt: HostRuntime) {
    let text: &[u8] = b"abc";
    let mut source = Incoming::new(text);
    let mut piece = [0u8; 2];
    assert!(rt; pull(&mut source, &mut piece) == Ok(2));
    assert!(rt; piece == *b"ab");
    assert!(rt; pull(&mut source, &mut piece) == Ok(1));
    assert!(rt; piece == *b"cb");
    assert!(rt; pull(&mut source, &mut piece) == Ok(0));
    assert!(rt; source.has_ended());
    assert!(rt; pull(&mut source, &mut piece) == Ok(0));
    assert!(rt; !source.has_failed());
    assert!(rt; source.pulls() == 4);
    assert!(rt; source.into_inner().len() == 0);
}

#[test]
fn incoming_stays_failed(rt: HostRuntime) {
    for kind in [
        ErrorKind::Interrupted,
        ErrorKind::WouldBlock,
        ErrorKind::UnexpectedEof,
        ErrorKind::Other,
    ] {
        let mut source = Incoming::new(StoppingOnce {
            kind: Some(kind),
            reads: 0,
        });
        let mut piece = [9u8; 2];
        assert!(rt; pull(&mut source, &mut piece) == Err(Failed));
        assert!(rt; pull(&mut source, &mut piece) == Err(Failed));
        assert!(rt; piece == [9, 9]);
        assert!(rt; source.has_failed());
        assert!(rt; source.pulls() == 2);
        assert!(rt; source.into_inner().reads == 1);
    }
}

// A reader that gives a byte a read, and no end, is read as often as bytes are taken.
#[test]
fn incoming_goes_on_for_many_reads(rt: HostRuntime) {
    let mut source = Incoming::new(StoppingOnce {
        kind: None,
        reads: 1,
    });
    assert!(rt;
        matches!(
            all_of(rt.alloc(), &mut source, 1999),
            Err(ReadError::TooLong)
        )
    );
    assert!(rt; source.pulls() == 2000);
    assert!(rt; source.into_inner().reads == 2001);
}

#[test]
fn incoming_stays_at_its_end(rt: HostRuntime) {
    let mut source = Incoming::new(StoppingOnce {
        kind: None,
        reads: 0,
    });
    let mut piece = [9u8; 2];
    assert!(rt; pull(&mut source, &mut piece) == Ok(0));
    assert!(rt; source.has_ended());
    assert!(rt; pull(&mut source, &mut piece) == Ok(0));
    assert!(rt; piece == [9, 9]);
    assert!(rt; source.has_ended());
    assert!(rt; !source.has_failed());
    assert!(rt; source.pulls() == 2);
    assert!(rt; source.into_inner().reads == 1);
}

// A read into no room gives 0, and that is no end.
#[test]
fn incoming_does_not_end_at_an_empty_piece(rt: HostRuntime) {
    let text: &[u8] = b"a";
    let mut source = Incoming::new(text);
    assert!(rt; pull(&mut source, &mut []) == Ok(0));
    assert!(rt; !source.has_ended());
    let mut piece = [0u8; 2];
    assert!(rt; pull(&mut source, &mut piece) == Ok(1));
    assert!(rt; piece[0] == b'a');
}

#[test]
fn outgoing_puts_into_its_writer(rt: HostRuntime) {
    let mut sink = Outgoing::new(Vec::new(rt.alloc()));
    assert!(rt; put(&mut sink, b"ab") == Ok(2));
    assert!(rt; put(&mut sink, b"") == Ok(0));
    assert!(rt; put_all(b"cde", &mut sink) == Ok(()));
    assert!(rt; !sink.has_failed());
    assert!(rt; sink.into_inner().as_slice() == b"abcde".as_slice());
}

// However large a piece is, a writer that takes it gets it whole.
#[test]
fn outgoing_takes_a_large_piece(rt: HostRuntime) {
    let bytes = vec![in rt.alloc(); 7u8; 100_000].expect(&rt, "memory");
    let mut sink = Outgoing::new(Vec::new(rt.alloc()));
    assert!(rt; put_all(&bytes, &mut sink) == Ok(()));
    assert!(rt; sink.into_inner() == bytes);
}

#[test]
fn outgoing_stays_failed(rt: HostRuntime) {
    let mut stuck = Outgoing::new(StuckOnce {
        kind: None,
        writes: 0,
        flushes: 0,
    });
    assert!(rt; put(&mut stuck, b"ab") == Err(Failed));
    assert!(rt; put(&mut stuck, b"ab") == Err(Failed));
    assert!(rt; stuck.has_failed());
    assert!(rt; stuck.into_inner().writes == 1);
    let mut failing = Outgoing::new(StuckOnce {
        kind: Some(ErrorKind::Interrupted),
        writes: 0,
        flushes: 0,
    });
    assert!(rt; put(&mut failing, b"ab") == Err(Failed));
    assert!(rt; put(&mut failing, b"ab") == Err(Failed));
    assert!(rt; failing.into_inner().writes == 1);
}

// When bytes are flushed is left to the writer and its owner.
#[test]
fn outgoing_flushes_nothing(rt: HostRuntime) {
    let mut sink = Outgoing::new(StuckOnce {
        kind: Some(ErrorKind::Interrupted),
        writes: 1,
        flushes: 0,
    });
    assert!(rt; put(&mut sink, b"ab") == Ok(2));
    let writer = sink.into_inner();
    assert!(rt; writer.writes == 2);
    assert!(rt; writer.flushes == 0);
}

#[test]
fn put_all_says_how_much_was_written(rt: HostRuntime) {
    let mut room = [0u8; 5];
    let mut sink = MemoryOut::new(&mut room);
    assert!(rt; put_all(b"abcdefg", &mut sink) == Err(Device { written: 5 }));
    assert!(rt; sink.written() == b"abcde".as_slice());
    assert!(rt; put_all(b"h", &mut sink) == Err(Device { written: 0 }));
    assert!(rt; put_all(b"", &mut sink) == Ok(()));
    let mut room = [0u8; 5];
    let mut sink = MemoryOut::taking(&mut room, 2);
    assert!(rt; put_all(b"abcde", &mut sink) == Ok(()));
    assert!(rt; sink.written() == b"abcde".as_slice());
}

#[test]
fn read_to_end_up_to_a_limit(rt: HostRuntime) {
    let mut source = MemoryIn::new(b"hello", 2);
    let all = all_of(rt.alloc(), &mut source, 5).expect(&rt, "bytes");
    assert!(rt; all.as_slice() == b"hello".as_slice());
    assert!(rt; source.has_ended());
    let mut source = MemoryIn::new(b"hello", 2);
    let all = all_of(rt.alloc(), &mut source, usize::MAX).expect(&rt, "bytes");
    assert!(rt; all.as_slice() == b"hello".as_slice());
    let mut source = MemoryIn::new(b"hello", 9);
    assert!(rt; matches!(all_of(rt.alloc(), &mut source, 4), Err(ReadError::TooLong)));
    let mut source = MemoryIn::failing(b"hello", 2, 2);
    assert!(rt; matches!(all_of(rt.alloc(), &mut source, 5), Err(ReadError::Failed)));
}

#[test]
fn read_to_end_of_a_large_input(rt: HostRuntime) {
    let len = 5 << 20;
    let bytes = vec![in rt.alloc(); 7u8; len].expect(&rt, "memory");
    let mut source = MemoryIn::new(&bytes, 1 << 20);
    let all = all_of(rt.alloc(), &mut source, len).expect(&rt, "bytes");
    assert!(rt; all == bytes);
    assert!(rt; source.pulls() == 81);
}

#[test]
fn read_to_end_up_to_no_byte(rt: HostRuntime) {
    let mut source = MemoryIn::new(b"", 1);
    let all = all_of(rt.alloc(), &mut source, 0).expect(&rt, "bytes");
    assert!(rt; all.is_empty());
    let mut source = MemoryIn::new(b"a", 1);
    assert!(rt; matches!(all_of(rt.alloc(), &mut source, 0), Err(ReadError::TooLong)));
}

// A source that has failed before is not called; one that fails after the limit is reached has failed, and is
// not too long.
#[test]
fn read_to_end_of_a_failed_source(rt: HostRuntime) {
    let mut source = MemoryIn::failing(b"hello", 2, 1);
    assert!(rt; pull(&mut source, &mut [0]) == Err(Failed));
    assert!(rt; matches!(all_of(rt.alloc(), &mut source, 5), Err(ReadError::Failed)));
    assert!(rt; source.pulls() == 1);
    let mut source = MemoryIn::failing(b"hello", 5, 2);
    assert!(rt; matches!(all_of(rt.alloc(), &mut source, 5), Err(ReadError::Failed)));
    assert!(rt; source.pulls() == 2);
}
