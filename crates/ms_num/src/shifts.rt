//! Shifts and rotations, whose count goes modulo the width.

ghost use Rattle.std.specs.Prelude.{◌≡◌, ◌^◌, ◌<◌, ◌+◌, ◌*◌, ◌/◌, ◌%◌};
ghost use Rattle.ms_num.specs.Integers as int;
ghost use Rattle.ms_num.specs.Integers.{IsWidth};

use crate::convert::low;
use crate::signed::{bits_of, signed_of};

/// By how many places the count goes.
fn places(w: u32, count: u64) -> u64
    requires width { IsWidth w }
    ensures value { result ≡ count % w }
    ensures small { result < w }
{
    count % u64::from(w)
}

/// To the left, with zeros from the right.
pub fn shl(w: u32, a: u64, b: u64) -> u64
    requires width { IsWidth w }
    requires a { a < 2 ^ w }
    requires b { b < 2 ^ w }
    ensures value { result ≡ int.shl w a b }
    ensures small { result < 2 ^ w }
{
    raised(w, a, places(w, b))
}

/// To the right, with zeros from the left.
#[tactic(auto, using(crate::proofs::Rotations::lowered_below))]
pub fn shr_u(w: u32, a: u64, b: u64) -> u64
    requires width { IsWidth w }
    requires a { a < 2 ^ w }
    requires b { b < 2 ^ w }
    ensures value { result ≡ int.shr_u w a b }
    ensures small { result < 2 ^ w }
{
    a >> places(w, b)
}

/// To the right, with copies of the sign from the left.
#[tactic(auto, using(crate::proofs::Rotations::halved_is))]
pub fn shr_s(w: u32, a: u64, b: u64) -> u64
    requires width { IsWidth w }
    requires a { a < 2 ^ w }
    requires b { b < 2 ^ w }
    ensures value { result ≡ int.shr_s w a b }
    ensures small { result < 2 ^ w }
{
    bits_of(w, signed_of(w, a) >> places(w, b))
}

/// To the left, where what leaves comes in from the right.
pub fn rotl(w: u32, a: u64, b: u64) -> u64
    requires width { IsWidth w }
    requires a { a < 2 ^ w }
    requires b { b < 2 ^ w }
    ensures value { result ≡ int.rotl w a b }
    ensures small { result < 2 ^ w }
{
    let up = places(w, b);
    rotated(w, a, up, u64::from(w) - up)
}

/// To the right, where what leaves comes in from the left.
pub fn rotr(w: u32, a: u64, b: u64) -> u64
    requires width { IsWidth w }
    requires a { a < 2 ^ w }
    requires b { b < 2 ^ w }
    ensures value { result ≡ int.rotr w a b }
    ensures small { result < 2 ^ w }
{
    let down = places(w, b);
    rotated(w, a, u64::from(w) - down, down)
}

/// The lowest `w` bits of the number moved up.
#[tactic(auto, using(crate::proofs::Rotations::low_of_low))]
fn raised(w: u32, a: u64, up: u64) -> u64
    requires width { IsWidth w }
    requires up { up < w }
    ensures value { result ≡ (a * 2 ^ up) % 2 ^ w }
    ensures small { result < 2 ^ w }
{
    low(w, a << up)
}

/// The bits moved up by so many places, and what leaves there moved down to the others.
#[tactic(auto, using(crate::proofs::Rotations::rotated_below, crate::proofs::Rotations::unmoved))]
fn rotated(w: u32, a: u64, up: u64, down: u64) -> u64
    requires width { IsWidth w }
    requires a { a < 2 ^ w }
    requires whole { up + down ≡ w }
    ensures value { result ≡ (a * 2 ^ up) % 2 ^ w + a / 2 ^ down }
    ensures small { result < 2 ^ w }
{
    if up == 0 || down == 0 {
        return a;
    }
    raised(w, a, up) + (a >> down)
}
