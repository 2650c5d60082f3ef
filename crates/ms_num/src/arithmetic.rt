//! Sums, differences, products, quotients and remainders.

ghost use Rattle.std.specs.Prelude.{◌≡◌, ◌^◌, ◌<◌, ◌*◌, ◌%◌, ◌+◌, ◌-◌, IfOk};
ghost use Rattle.ms_num.specs.Integers as int;
ghost use Rattle.ms_num.specs.Integers.{IsWidth};

use crate::arith::Arith;
use crate::convert::low;
use crate::signed::{bits_of, greatest, signed_of};

/// The sum, which wraps around.
pub fn add(w: u32, a: u64, b: u64) -> u64
    requires width { IsWidth w }
    requires a { a < 2 ^ w }
    requires b { b < 2 ^ w }
    ensures value { result ≡ int.add w a b }
    ensures small { result < 2 ^ w }
{
    low(w, a.wrapping_add(b))
}

/// The difference, which wraps around.
pub fn sub(w: u32, a: u64, b: u64) -> u64
    requires width { IsWidth w }
    requires a { a < 2 ^ w }
    requires b { b < 2 ^ w }
    ensures value { result ≡ int.sub w a b }
    ensures small { result < 2 ^ w }
{
    low(w, a.wrapping_sub(b))
}

/// The product, which wraps around.
pub fn mul(w: u32, a: u64, b: u64) -> u64
    requires width { IsWidth w }
    requires a { a < 2 ^ w }
    requires b { b < 2 ^ w }
    ensures value { result ≡ int.mul w a b }
    ensures small { result < 2 ^ w }
{
    low(w, a.wrapping_mul(b))
}

/// The quotient of unsigned numbers, rounded down.
pub fn div_u(w: u32, a: u64, b: u64) -> Result<u64, Arith>
    requires width { IsWidth w }
    requires a { a < 2 ^ w }
    requires b { b < 2 ^ w }
    ensures value { result ≡ int.div_u w a b }
    ensures small { IfOk result (λ n. n < 2 ^ w) }
{
    if b == 0 {
        return Err(Arith::ZeroDivide);
    }
    Ok(a / b)
}

/// The remainder of unsigned numbers.
pub fn rem_u(w: u32, a: u64, b: u64) -> Result<u64, Arith>
    requires width { IsWidth w }
    requires a { a < 2 ^ w }
    requires b { b < 2 ^ w }
    ensures value { result ≡ int.rem_u w a b }
    ensures small { IfOk result (λ n. n < 2 ^ w) }
{
    if b == 0 {
        return Err(Arith::ZeroDivide);
    }
    Ok(a % b)
}

/// The quotient of signed numbers, truncated toward zero.
pub fn div_s(w: u32, a: u64, b: u64) -> Result<u64, Arith>
    requires width { IsWidth w }
    requires a { a < 2 ^ w }
    requires b { b < 2 ^ w }
    ensures value { result ≡ int.div_s w a b }
    ensures small { IfOk result (λ n. n < 2 ^ w) }
{
    if b == 0 {
        return Err(Arith::ZeroDivide);
    }
    let Some(quotient) = signed_of(w, a).checked_div(signed_of(w, b)) else {
        return Err(Arith::Overflow);
    };
    if quotient > greatest(w) {
        return Err(Arith::Overflow);
    }
    Ok(bits_of(w, quotient))
}

/// The remainder of signed numbers, with the sign of the first.
pub fn rem_s(w: u32, a: u64, b: u64) -> Result<u64, Arith>
    requires width { IsWidth w }
    requires a { a < 2 ^ w }
    requires b { b < 2 ^ w }
    ensures value { result ≡ int.rem_s w a b }
    ensures small { IfOk result (λ n. n < 2 ^ w) }
{
    if b == 0 {
        return Err(Arith::ZeroDivide);
    }
    Ok(bits_of(w, signed_of(w, a).wrapping_rem(signed_of(w, b))))
}
