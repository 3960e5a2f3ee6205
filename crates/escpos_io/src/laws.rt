//! Proof only: the laws of gathered bytes. The contract of each function is the law; when run, it does nothing. A
//! law is proved with this crate, and another crate cites it by calling the function.

ghost use Rattle.std.specs.Prelude.{◌≡◌, ◌*◌, ◌≤◌, ℕ, length, Bool, List, [], ◌++◌, Option, Result, Ok, Err, ⊤, IsErrAnd};
ghost use Rattle.hex.specs.Hex.{encode_lower};
ghost use Rattle.escpos_io.specs.Gather.{Gathered, StopsIn};
ghost use Rattle.escpos_io.specs.Giving.{IsGiven, IsPiecePut};
ghost use Rattle.escpos_io.specs.Putting.{Passage, passage};
ghost use Rattle.escpos_io.specs.declared.putting.Device.{Device};
ghost use Rattle.escpos_io.specs.declared.pieces.TheConstants.{PIECE_BYTES};

/// A sink that stopped within some bytes stopped within these with any others after them.
#[inline]
pub fn stop_in_the_front()
    ensures { (sink_old sink_new : Option (List ℕ)) (front more : List ℕ) (written : ℕ) →
        StopsIn sink_old sink_new front written → StopsIn sink_old sink_new (front ++ more) written }
{}

/// Bytes given by two calls, one after another, are given as by one call.
#[inline]
pub fn given_in_turn()
    ensures { (result : Result ⊤ Device) (before between after : Option (List ℕ)) (failed_before failed_between failed_after : Bool)
        (old middle new : Gathered) (front more bytes : List ℕ) →
        IsGiven (Ok tt) (passage before between failed_before failed_between) old middle front
        → IsGiven result (passage between after failed_between failed_after) middle new more
        → bytes ≡ front ++ more → IsGiven result (passage before after failed_before failed_after) old new bytes }
{}

/// A call that failed within some bytes failed within these with any others after them; `result` is what `?`
/// returns there.
#[inline]
pub fn given_in_the_front()
    ensures { (result : Result ⊤ Device) (device : Device) (sink : Passage) (old new : Gathered) (front more bytes : List ℕ) →
        IsErrAnd result (λ error. error ≡ device) → IsGiven (Err device) sink old new front
        → bytes ≡ front ++ more → IsGiven result sink old new bytes }
{}

/// Bytes appended to what a gather keeps back, while its sink took no more, are given as by a call.
#[inline]
pub fn given_in_place()
    ensures { (sink : Option (List ℕ)) (failed : Bool) (old new : Gathered) (bytes : List ℕ) →
        new.kept ≡ old.kept ++ bytes → new.written ≡ old.written → IsGiven (Ok tt) (passage sink sink failed failed) old new bytes }
{}

/// A call that gave all bytes of a piece, or failed within them, is a `Piece::put`, if they are at most
/// `PIECE_BYTES`.
#[inline]
pub fn piece_put()
    ensures { (result : Result ⊤ Device) (sink : Passage) (old new : Gathered) (bytes : List ℕ) →
        IsGiven result sink old new bytes → length bytes ≤ PIECE_BYTES → IsPiecePut result sink old new bytes }
{}

/// A call that failed within the first bytes of a piece is a `Piece::put` that failed, if those are at most
/// `PIECE_BYTES`, however many follow; `result` is what `?` returns there.
#[inline]
pub fn piece_stopped()
    ensures { (result : Result ⊤ Device) (device : Device) (sink : Passage) (old new : Gathered) (front rest bytes : List ℕ) →
        IsErrAnd result (λ error. error ≡ device) → IsGiven (Err device) sink old new front
        → length front ≤ PIECE_BYTES → bytes ≡ front ++ rest → IsPiecePut result sink old new bytes }
{}

/// The digits of two runs of bytes, one after another, are those of the runs joined. No bytes have no digits, and
/// each byte has two.
#[inline]
pub fn digits_in_turn()
    ensures joined { (front more : List ℕ) → encode_lower (front ++ more) ≡ encode_lower front ++ encode_lower more }
    ensures none { encode_lower [] ≡ [] }
    ensures count { (bytes : List ℕ) → length (encode_lower bytes) ≡ 2 * length bytes }
{}
