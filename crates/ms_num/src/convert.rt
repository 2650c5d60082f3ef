//! Changes of the width.

ghost use Rattle.std.specs.Prelude.{◌≡◌, ◌^◌, ◌<◌, ◌%◌, ◌⊎◌, Bool};
ghost use Rattle.ms_num.specs.Integers as int;
ghost use Rattle.ms_num.specs.Integers.{IsWidth};

use crate::signed::{bits_of, signed_of};

/// The lowest `w` bits.
pub(crate) fn low(w: u32, bits: u64) -> u64
    requires width { IsWidth w }
    ensures value { result ≡ bits % 2 ^ w }
    ensures small { result < 2 ^ w }
{
    match w {
        32 => bits % 0x1_0000_0000,
        _ => bits,
    }
}

/// The lowest bits, `to` of them.
pub fn narrow(to: u32, a: u64) -> u64
    requires to { (to ≡ 8) ⊎ ((to ≡ 16) ⊎ (to ≡ 32)) }
    ensures value { result ≡ int.narrow to a }
    ensures small { result < 2 ^ to }
{
    match to {
        8 => a % 0x100,
        16 => a % 0x1_0000,
        _ => a % 0x1_0000_0000,
    }
}

/// The number of `from` bits, read as signed or not, as a number of `to` bits.
pub fn extend(from: u32, to: u32, signed: bool, a: u64) -> u64
    requires from { (from ≡ 8) ⊎ ((from ≡ 16) ⊎ (from ≡ 32)) }
    requires to { IsWidth to }
    requires wider { from < to }
    requires a { a < 2 ^ from }
    ensures value { result ≡ int.extend from to signed a }
    ensures small { result < 2 ^ to }
{
    if signed {
        bits_of(to, signed_of(from, a))
    } else {
        a
    }
}
