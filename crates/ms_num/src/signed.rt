//! The signed reading of bits, and back.

ghost use Rattle.std.specs.Prelude.{◌≡◌, ◌^◌, ◌<◌, ◌-◌, ◌⊎◌, pos};
ghost use Rattle.ms_num.specs.Integers as int;
ghost use Rattle.ms_num.specs.Integers.{IsWidth};

/// The signed number that `w` bits are.
pub(crate) fn signed_of(w: u32, a: u64) -> i64
    requires width { (w ≡ 8) ⊎ ((w ≡ 16) ⊎ IsWidth w) }
    requires a { a < 2 ^ w }
    ensures value { result ≡ int.signed w a }
{
    match w {
        8 => (a as u8).cast_signed() as i64,
        16 => (a as u16).cast_signed() as i64,
        32 => (a as u32).cast_signed() as i64,
        _ => a.cast_signed(),
    }
}

/// The lowest `w` bits of a signed number.
pub(crate) fn bits_of(w: u32, number: i64) -> u64
    requires width { IsWidth w }
    ensures value { result ≡ int.wrapped w number }
    ensures small { result < 2 ^ w }
{
    let bits = number.cast_unsigned();
    match w {
        32 => bits % 0x1_0000_0000,
        _ => bits,
    }
}

/// The greatest signed number of `w` bits.
pub(crate) fn greatest(w: u32) -> i64
    requires width { IsWidth w }
    ensures value { result ≡ pos (2 ^ (w - 1) - 1) }
{
    match w {
        32 => 0x7FFF_FFFF,
        _ => i64::MAX,
    }
}
