//! Comparisons, which give 1 or 0.

ghost use Rattle.std.specs.Prelude.{◌≡◌, ◌==◌, ◌^◌, ◌<◌, not, nat_lt, nat_le, int_lt, int_le, Bool};
ghost use Rattle.ms_num.specs.Integers as int;
ghost use Rattle.ms_num.specs.Integers.{IsWidth, truth};

use crate::signed::signed_of;

/// 1 or 0.
fn word(answer: bool) -> u64
    ensures value { result ≡ truth answer }
    ensures bit { result < 2 }
{
    if answer { 1 } else { 0 }
}

/// Whether the number is 0.
pub fn eqz(w: u32, a: u64) -> u64
    requires width { IsWidth w }
    requires a { a < 2 ^ w }
    ensures value { result ≡ truth (a == 0) }
    ensures small { result < 2 ^ w }
{
    word(a == 0)
}

/// Whether the numbers are equal: 1 or 0.
pub fn eq(w: u32, a: u64, b: u64) -> u64
    requires width { IsWidth w }
    requires a { a < 2 ^ w }
    requires b { b < 2 ^ w }
    ensures value { result ≡ truth (a == b) }
    ensures small { result < 2 ^ w }
{
    word(a == b)
}

/// Whether the numbers differ: 1 or 0.
pub fn ne(w: u32, a: u64, b: u64) -> u64
    requires width { IsWidth w }
    requires a { a < 2 ^ w }
    requires b { b < 2 ^ w }
    ensures value { result ≡ truth (not (a == b)) }
    ensures small { result < 2 ^ w }
{
    word(a != b)
}

/// Whether the first is below the second, unsigned.
pub fn lt_u(w: u32, a: u64, b: u64) -> u64
    requires width { IsWidth w }
    requires a { a < 2 ^ w }
    requires b { b < 2 ^ w }
    ensures value { result ≡ truth (nat_lt a b) }
    ensures small { result < 2 ^ w }
{
    word(a < b)
}

/// Whether the first is above the second, unsigned.
pub fn gt_u(w: u32, a: u64, b: u64) -> u64
    requires width { IsWidth w }
    requires a { a < 2 ^ w }
    requires b { b < 2 ^ w }
    ensures value { result ≡ truth (nat_lt b a) }
    ensures small { result < 2 ^ w }
{
    word(a > b)
}

/// Whether the first is at most the second, unsigned.
pub fn le_u(w: u32, a: u64, b: u64) -> u64
    requires width { IsWidth w }
    requires a { a < 2 ^ w }
    requires b { b < 2 ^ w }
    ensures value { result ≡ truth (nat_le a b) }
    ensures small { result < 2 ^ w }
{
    word(a <= b)
}

/// Whether the first is at least the second, unsigned.
pub fn ge_u(w: u32, a: u64, b: u64) -> u64
    requires width { IsWidth w }
    requires a { a < 2 ^ w }
    requires b { b < 2 ^ w }
    ensures value { result ≡ truth (nat_le b a) }
    ensures small { result < 2 ^ w }
{
    word(a >= b)
}

/// Whether the first is below the second, signed.
pub fn lt_s(w: u32, a: u64, b: u64) -> u64
    requires width { IsWidth w }
    requires a { a < 2 ^ w }
    requires b { b < 2 ^ w }
    ensures value { result ≡ truth (int_lt (int.signed w a) (int.signed w b)) }
    ensures small { result < 2 ^ w }
{
    word(signed_of(w, a) < signed_of(w, b))
}

/// Whether the first is above the second, signed.
pub fn gt_s(w: u32, a: u64, b: u64) -> u64
    requires width { IsWidth w }
    requires a { a < 2 ^ w }
    requires b { b < 2 ^ w }
    ensures value { result ≡ truth (int_lt (int.signed w b) (int.signed w a)) }
    ensures small { result < 2 ^ w }
{
    word(signed_of(w, a) > signed_of(w, b))
}

/// Whether the first is at most the second, signed.
pub fn le_s(w: u32, a: u64, b: u64) -> u64
    requires width { IsWidth w }
    requires a { a < 2 ^ w }
    requires b { b < 2 ^ w }
    ensures value { result ≡ truth (int_le (int.signed w a) (int.signed w b)) }
    ensures small { result < 2 ^ w }
{
    word(signed_of(w, a) <= signed_of(w, b))
}

/// Whether the first is at least the second, signed.
pub fn ge_s(w: u32, a: u64, b: u64) -> u64
    requires width { IsWidth w }
    requires a { a < 2 ^ w }
    requires b { b < 2 ^ w }
    ensures value { result ≡ truth (int_le (int.signed w b) (int.signed w a)) }
    ensures small { result < 2 ^ w }
{
    word(signed_of(w, a) >= signed_of(w, b))
}
