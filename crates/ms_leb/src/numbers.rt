//! Numbers at the front of bytes.

ghost use Rattle.std.specs.Prelude.{◌≡◌, ◌≤◌, ◌<◌, ◌^◌, ◌-◌, length, IfOk, pos, ◌+ℤ◌, ◌*ℤ◌, nat_lt, nat_le, ◌+◌};
ghost use Rattle.ms_leb.specs.Leb128.{IsWithin, signed_at, unsigned_at};
ghost use Rattle.ms_leb.specs.refinement.Numbers.{Counts};

use crate::leb::Leb;

/// Whether a last byte of an unsigned number keeps to the bits that are left.
fn is_last(byte: u8, bits: u32) -> bool
    requires { byte < 128 }
    ensures { result ≡ nat_lt byte (2 ^ bits) }
{
    bits >= 7 || byte < 1 << bits
}

/// The number at the front, and how many bytes it takes.
pub fn unsigned(bytes: &[u8], bits: u32) -> Result<(u64, usize), Leb>
    requires { bits ≤ 64 }
    ensures value { Counts bytes.now result (unsigned_at bits bytes.now) }
    ensures small { IfOk result (λ x. x.0 < 2 ^ bits) }
    ensures count { IfOk result (λ x. x.1 ≤ length bytes.now) }
{
    match bytes {
        [] => Err(Leb::Short),
        [byte, ..] if *byte < 128 => {
            if !is_last(*byte, bits) {
                return Err(Leb::Long);
            }
            Ok((u64::from(*byte), 1))
        }
        [byte, rest @ ..] => {
            if bits <= 7 {
                return Err(Leb::Long);
            }
            let (high, count) = unsigned(rest, bits - 7)?;
            Ok((high * 128 + u64::from(*byte - 128), count + 1))
        }
    }
}

/// Whether a last byte below 64 of a signed number keeps to the bits that are left.
fn is_last_positive(byte: u8, bits: u32) -> bool
    requires byte { byte < 64 }
    requires bits { 0 < bits }
    ensures { result ≡ nat_lt byte (2 ^ (bits - 1)) }
{
    bits >= 7 || byte < 1 << (bits - 1)
}

/// Whether a last byte from 64 on of a signed number has copies of the sign in its unused bits.
fn is_last_negative(byte: u8, bits: u32) -> bool
    requires low { 64 ≤ byte }
    requires high { byte < 128 }
    requires bits { 0 < bits }
    ensures { result ≡ nat_le 128 (byte + 2 ^ (bits - 1)) }
{
    bits >= 7 || 128 <= byte + (1 << (bits - 1))
}

/// The number with seven more bits below it.
fn with_low_bits(high: i64, low: u8) -> i64
    requires high { IsWithin 56 high }
    requires low { low < 128 }
    ensures { result ≡ high *ℤ pos 128 +ℤ pos low }
{
    high * 128 + i64::from(low)
}

/// The signed number at the front, and how many bytes it takes.
pub fn signed(bytes: &[u8], bits: u32) -> Result<(i64, usize), Leb>
    requires some { 0 < bits }
    requires most { bits ≤ 64 }
    ensures value { Counts bytes.now result (signed_at bits bytes.now) }
    ensures small { IfOk result (λ x. IsWithin (bits - 1) x.0) }
    ensures count { IfOk result (λ x. x.1 ≤ length bytes.now) }
{
    match bytes {
        [] => Err(Leb::Short),
        [byte, ..] if *byte < 64 => {
            if !is_last_positive(*byte, bits) {
                return Err(Leb::Long);
            }
            Ok((i64::from(*byte), 1))
        }
        [byte, ..] if *byte < 128 => {
            if !is_last_negative(*byte, bits) {
                return Err(Leb::Long);
            }
            Ok((i64::from(*byte) - 128, 1))
        }
        [byte, rest @ ..] => {
            if bits <= 7 {
                return Err(Leb::Long);
            }
            let (high, count) = signed(rest, bits - 7)?;
            Ok((with_low_bits(high, *byte - 128), count + 1))
        }
    }
}
