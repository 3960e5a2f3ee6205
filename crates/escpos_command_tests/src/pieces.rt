//! Values that are put as pieces, large ones in parts, and what is gathered (escpos_io).

ghost use Rattle.std.specs.Prelude.{[], ◌∷◌, ◌++◌, ◌≤◌, length};

use escpos_io::*;
use std::alloc::Global;
use std::process::Abort;

#[test]
fn a_large_piece_goes_out_in_order(rt: HostRuntime) {
    let mut sink = Outgoing::new(Vec::new(rt.alloc()));
    let mut gather = Gather::new();
    gather.put(&[9], &mut sink).expect(&rt, "memory");
    gather.put(&[7; 20000], &mut sink).expect(&rt, "memory");
    gather.flush(&mut sink).expect(&rt, "memory");
    let out = sink.into_inner();
    assert!(rt; out.len() == 20001);
    assert!(rt; out[0] == 9);
    assert!(rt; out[20000] == 7);
}

// A byte that is put twice.
#[derive(Clone, Copy)]
struct Doubled(u8);

impl Piece for Doubled {
    ghost bytes = { λ doubled. doubled.0 ∷ doubled.0 ∷ [] };

    fn put<W: ByteOut>(&self, gather: &mut Gather, writer: &mut W) -> Result<(), Device> {
        laws::piece_stopped();
        gather.room(2, writer)?;
        gather.push(self.0);
        gather.extend(&[self.0]);
        Ok(())
    }
}

// Pieces are put to a sink, with nothing of what the contract says of that.
fn put_to<P: Piece, W: ByteOut>(pieces: &[P], sink: &mut W) -> Result<(), Device> {
    put_pieces(pieces, sink)
}

#[test]
fn pieces_go_out_in_order(rt: HostRuntime) {
    let pieces = [Doubled(1), Doubled(2), Doubled(3)];
    let mut sink = Outgoing::new(Vec::new(rt.alloc()));
    assert!(rt; put_to(&pieces, &mut sink) == Ok(()));
    assert!(rt; sink.into_inner().as_slice() == [1, 1, 2, 2, 3, 3].as_slice());
    let mut room = [0u8; 6];
    let mut sink = MemoryOut::taking(&mut room, 1);
    assert!(rt; put_to(&pieces, &mut sink) == Ok(()));
    assert!(rt; sink.written() == [1, 1, 2, 2, 3, 3].as_slice());
    let none: [Doubled; 0] = [];
    assert!(rt; put_to(&none, &mut sink) == Ok(()));
    assert!(rt; !sink.has_failed());
}

// Wherever the sink is full, it has the first of the bytes, and the error says how long that is.
#[test]
fn pieces_stop_where_the_sink_is_full(rt: HostRuntime) {
    let pieces = [Doubled(1), Doubled(2), Doubled(3)];
    let all = [1, 1, 2, 2, 3, 3];
    for len in 0..6 {
        let mut room = [0u8; 6];
        let mut sink = MemoryOut::new(&mut room[..len]);
        assert!(rt;
            put_to(&pieces, &mut sink)
                == Err(Device {
                    written: len as u128
                }),
            "with room for {len}"
        );
        assert!(rt; sink.written() == &all[..len], "with room for {len}");
        assert!(rt; sink.has_failed());
    }
}

// More pieces than are kept back at once; the sink is full within the first large piece, just before or
// just after it, or within the last one.
#[test]
fn many_pieces_go_out_in_large_ones(rt: HostRuntime) {
    let pieces = [Doubled(7); 10000];
    let mut sink = Outgoing::new(Vec::new(rt.alloc()));
    assert!(rt; put_to(&pieces, &mut sink) == Ok(()));
    assert!(rt; sink.into_inner().as_slice() == [7; 20000].as_slice());
    for len in [0, 1, 16383, 16384, 16385, 19999] {
        let mut room = [0u8; 20000];
        let mut sink = MemoryOut::new(&mut room[..len]);
        assert!(rt;
            put_to(&pieces, &mut sink)
                == Err(Device {
                    written: len as u128
                }),
            "with room for {len}"
        );
        assert!(rt; sink.written().len() == len, "with room for {len}");
    }
    let mut room = [0u8; 20000];
    let mut sink = MemoryOut::failing(&mut room, 2);
    assert!(rt; put_to(&pieces, &mut sink) == Err(Device { written: 16384 }));
    assert!(rt; sink.written().len() == 16384);
}

// Five bytes, a slice that may be longer than what is kept back at most, and a closing byte.
#[derive(Clone, Copy)]
struct Framed<'a> {
    head: [u8; 5],
    content: &'a [u8],
    ghost few: { length content.now ≤ 1048500 },
}

impl<'a> Framed<'a> {
    fn new(content: &'a [u8]) -> Self
        requires { length content.now ≤ 1048500 }
    {
        Framed {
            head: *b"front",
            content,
        }
    }
}

impl Piece for Framed<'_> {
    ghost bytes = { λ framed. framed.head ++ framed.content.now ++ 0 ∷ [] };

    fn put<W: ByteOut>(&self, gather: &mut Gather, writer: &mut W) -> Result<(), Device> {
        laws::given_in_turn();
        laws::piece_put();
        laws::piece_stopped();
        gather.room(5, writer)?;
        gather.extend(&self.head);
        gather.put(self.content, writer)?;
        gather.put(&[0], writer)
    }
}

// What is larger than what is kept back at most goes out in order, between what was kept back before and after it.
#[test]
fn large_pieces_go_out_in_order(rt: HostRuntime) {
    let content = vec![in rt.alloc(); 7u8; 50_000].expect(&rt, "memory");
    let pieces = [Framed::new(&content); 3];
    let all = framed_bytes(&rt, rt.alloc(), 3);
    let mut room = vec![in rt.alloc(); 0u8; 150_018].expect(&rt, "memory");
    let mut sink = MemoryOut::taking(&mut room, 999);
    assert!(rt; put_to(&pieces, &mut sink) == Ok(()));
    assert!(rt; sink.written() == all.as_slice());
}

// The sink is full before the second piece, within it (in its head, in its content, at its closing byte) or after it.
#[test]
fn large_pieces_stop_where_the_sink_is_full(rt: HostRuntime) {
    let content = vec![in rt.alloc(); 7u8; 50_000].expect(&rt, "memory");
    let pieces = [Framed::new(&content); 3];
    let all = framed_bytes(&rt, rt.alloc(), 3);
    for len in [
        50_005, 50_006, 50_009, 50_011, 75_000, 100_010, 100_011, 100_012,
    ] {
        let mut room = vec![in rt.alloc(); 0u8; len].expect(&rt, "memory");
        let mut sink = MemoryOut::taking(&mut room, 999);
        assert!(rt;
            put_to(&pieces, &mut sink)
                == Err(Device {
                    written: len as u128
                }),
            "with room for {len}"
        );
        assert!(rt; sink.written().len() == len, "with room for {len}");
        assert!(rt; all.starts_with(sink.written()), "with room for {len}");
        assert!(rt; sink.has_failed());
    }
}

// The bytes of some pieces with a content of 50,000 sevens.
fn framed_bytes(rt: &impl Abort, alloc: Global, count: usize) -> Vec<u8> {
    let mut all = Vec::new(alloc);
    for _ in 0..count {
        all.extend_from_slice(b"front").expect(rt, "memory");
        all.extend_from_slice(&[7; 50_000]).expect(rt, "memory");
        all.push(0).expect(rt, "memory");
    }
    all
}

// Room is made by putting what is kept back, and only where there is none.
#[test]
fn room_puts_what_is_kept_back(rt: HostRuntime) {
    let mut room = [0u8; 3];
    let mut sink = MemoryOut::new(&mut room);
    let mut gather = Gather::new();
    gather.put(b"abc", &mut sink).expect(&rt, "memory");
    gather
        .room(GATHERED_BYTES - 3, &mut sink)
        .expect(&rt, "memory");
    assert!(rt; sink.written().len() == 0);
    gather
        .room(GATHERED_BYTES - 2, &mut sink)
        .expect(&rt, "memory");
    assert!(rt; sink.written() == b"abc".as_slice());
    gather.push(b'd');
    assert!(rt; gather.flush(&mut sink) == Err(Device { written: 3 }));
}
