//! What number tokens are worth (WebAssembly 1.0, 6.3.1).

ghost use Rattle.std.specs.Prelude.{◌≡◌, ◌+◌, ◌*◌, ◌^◌, ◌≤◌, ◌<◌, ◌⊎◌, pos, ◌-ℤ◌, MatchOption};
ghost use Rattle.ms_text_lex.specs.Classes.{hex};
ghost use Rattle.ms_text_lex.specs.Numbers.{constant_of, digit_of, index_of, is_negative, magnitude, radix, unsigned_value, with_digits};
ghost use Rattle.ms_text_lex.specs.Words.{has_sign};

use crate::class::hex;
use crate::words::{has_sign, is_hexadecimal};

fn digit_of(byte: u8) -> u8
    ensures value { result ≡ digit_of (hex byte) }
    ensures small { result < 16 }
{
    match hex(byte) {
        Some(digit) => digit,
        None => 0,
    }
}

/// With one digit more, or `None` if that is 2^64 or more.
fn with_digit(hexadecimal: bool, value: u64, byte: u8) -> Option<u64>
    ensures { MatchOption result (2 ^ 64 ≤ value * radix hexadecimal + digit_of (hex byte)) (λ n. n ≡ value * radix hexadecimal + digit_of (hex byte)) }
{
    let scaled = if hexadecimal {
        value.checked_mul(16)?
    } else {
        value.checked_mul(10)?
    };
    scaled.checked_add(u64::from(digit_of(byte)))
}

/// What digits are worth, or `None` if that is 2^64 or more.
fn with_digits(hexadecimal: bool, text: &[u8]) -> Option<u64>
    ensures { MatchOption result (2 ^ 64 ≤ with_digits hexadecimal 0 text.now) (λ n. (n ≡ with_digits hexadecimal 0 text.now) × (n < 2 ^ 64)) }
{
    let mut value: u64 = 0;
    for byte in text {
        if *byte != b'_' {
            let Some(next) = with_digit(hexadecimal, value, *byte) else {
                return None;
            };
            value = next;
        }
    }
    Some(value)
}

fn unsigned_value(text: &[u8]) -> Option<u64>
    ensures { MatchOption result (2 ^ 64 ≤ unsigned_value text.now) (λ n. (n ≡ unsigned_value text.now) × (n < 2 ^ 64)) }
{
    if is_hexadecimal(text) {
        match text {
            [_, _, digits @ ..] => with_digits(true, digits),
            _ => with_digits(true, &[]),
        }
    } else {
        with_digits(false, text)
    }
}

fn magnitude(text: &[u8]) -> Option<u64>
    ensures { MatchOption result (2 ^ 64 ≤ magnitude text.now) (λ n. (n ≡ magnitude text.now) × (n < 2 ^ 64)) }
{
    if has_sign(text) {
        match text {
            [_, digits @ ..] => unsigned_value(digits),
            [] => unsigned_value(text),
        }
    } else {
        unsigned_value(text)
    }
}

fn is_negative(text: &[u8]) -> bool
    ensures { result ≡ is_negative text.now }
{
    match text {
        [] => false,
        [first, ..] => *first == b'-',
    }
}

/// Below 0.
fn negated(value: u64) -> i64
    requires { value ≤ 2 ^ 63 }
    ensures { result ≡ pos 0 -ℤ pos value }
{
    if value == 1 << 63 {
        return i64::MIN;
    }
    -(value as i64)
}

/// The signed number of the same 32 bits.
fn wrapped_32(value: u64) -> i64
    requires high { 2 ^ 31 ≤ value }
    requires low { value < 2 ^ 32 }
    ensures { result ≡ pos value -ℤ pos (2 ^ 32) }
{
    value as i64 - (1 << 32)
}

/// The signed number of the same 64 bits.
fn wrapped_64(value: u64) -> i64
    requires high { 2 ^ 63 ≤ value }
    ensures { result ≡ pos value -ℤ pos (2 ^ 64) }
{
    value.cast_signed()
}

/// The signed number of 32 bits.
#[tactic(auto, using(crate::proofs::Digits::too_large_32))]
fn constant_32(text: &[u8]) -> Option<i64>
    ensures { result ≡ constant_of 32 text.now }
{
    let Some(value) = magnitude(text) else {
        return None;
    };
    if is_negative(text) {
        if value <= 1 << 31 {
            return Some(negated(value));
        }
        return None;
    }
    if value < 1 << 31 {
        return Some(value as i64);
    }
    if value < 1 << 32 {
        return Some(wrapped_32(value));
    }
    None
}

/// The signed number of 64 bits.
#[tactic(auto, using(crate::proofs::Digits::too_large_64))]
fn constant_64(text: &[u8]) -> Option<i64>
    ensures { result ≡ constant_of 64 text.now }
{
    let Some(value) = magnitude(text) else {
        return None;
    };
    if is_negative(text) {
        if value <= 1 << 63 {
            return Some(negated(value));
        }
        return None;
    }
    if value < 1 << 63 {
        return Some(value as i64);
    }
    Some(wrapped_64(value))
}

/// What the text of a number token is worth as a constant of 32 or 64 bits: from -2^(bits - 1) to 2^bits - 1, of which
/// those from 2^(bits - 1) on stand for the signed number of the same bits. `None` exactly where it is out of that range.
pub fn constant(text: &[u8], bits: u32) -> Option<i64>
    requires { (bits ≡ 32) ⊎ (bits ≡ 64) }
    ensures { result ≡ constant_of bits text.now }
{
    match bits {
        32 => constant_32(text),
        _ => constant_64(text),
    }
}

/// What the text of a number token is worth as an index or any other number of 0 to 2^32 - 1. `None` exactly where it
/// has a sign or is out of that range.
pub fn index(text: &[u8]) -> Option<u32>
    ensures { result ≡ index_of text.now }
{
    if has_sign(text) {
        return None;
    }
    let value = magnitude(text)?;
    u32::try_from(value).ok()
}

/// Whether a sign stands in front.
pub fn is_signed(text: &[u8]) -> bool
    ensures { result ≡ has_sign text.now }
{
    has_sign(text)
}
