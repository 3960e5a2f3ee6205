//! The places of a listing as text. One place is near the one before it, so all digits of a place but its last are kept, and
//! computed anew only where they change.

ghost use Rattle.std.specs.Prelude.{◌≡◌, ◌+◌, ◌/◌, ◌≤◌, ◌++◌, length, decimal};

use arrayvec::ArrayVec;
use escpos_io::{GATHERED_BYTES, Gather};
use itoa::Buffer;
use std::marker::Model;

/// The most digits of a place.
const PLACE_DIGITS: usize = 20;

const _: () = prove!(PLACE_DIGITS == 20);

/// The text of the place that came last, without its last digit. Its model is the number that these digits are.
#[derive(Drop)]
pub struct PlaceText {
    tens: usize,
    digits: ArrayVec<u8, PLACE_DIGITS>,
}

impl Model for PlaceText {
    ghost use Rattle.std.specs.Prelude.{◌≡◌, ℕ, decimal};

    ghost Value = { ℕ };

    ghost view = { λ p. p.tens };

    ghost invariant = { λ p. p.digits.items ≡ decimal p.tens };
}

impl PlaceText {
    /// With the text of 0.
    pub fn new() -> Self
        ensures { result ≡ 0 }
    {
        let mut text = PlaceText {
            tens: 0,
            digits: ArrayVec::new(),
        };
        text.digits.push(b'0');
        text
    }

    /// Appends a place in decimal: 20 digits at most, for which there must be room.
    #[inline]
    pub fn append(&mut self, gather: &mut Gather, place: usize)
        requires { length gather.old.kept + PLACE_DIGITS ≤ GATHERED_BYTES }
        ensures kept { gather.new.kept ≡ gather.old.kept ++ decimal place }
        ensures same_count { gather.new.written ≡ gather.old.written }
        ensures short { length (decimal place) ≤ PLACE_DIGITS }
        ensures last { self.new ≡ place / 10 }
    {
        let tens = place / 10;
        if tens != self.tens {
            self.change(tens);
        }
        self.append_near(gather, place);
    }

    // Appends a place all of whose digits but the last are kept.
    #[inline]
    fn append_near(&self, gather: &mut Gather, place: usize)
        requires near { self.now ≡ place / 10 }
        requires room { length gather.old.kept + PLACE_DIGITS ≤ GATHERED_BYTES }
        ensures kept { gather.new.kept ≡ gather.old.kept ++ decimal place }
        ensures same_count { gather.new.written ≡ gather.old.written }
        ensures short { length (decimal place) ≤ PLACE_DIGITS }
    {
        if place < 10 {
            gather.push(b'0' + place as u8);
            return;
        }
        gather.extend(self.digits.as_slice());
        gather.push(b'0' + (place % 10) as u8);
    }

    // Keeps the text of another number.
    #[inline(never)]
    fn change(&mut self, tens: usize)
        ensures { self.new ≡ tens }
    {
        let mut buffer = Buffer::new();
        let digits = buffer.format(tens).as_bytes();
        self.tens = tens;
        self.digits.clear();
        self.digits.try_extend_from_slice(digits).unwrap();
    }
}
