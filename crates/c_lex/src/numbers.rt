//! Integer constants (C11, 6.4.4.1).

ghost use Rattle.std.specs.Prelude.{◌≡◌, ◌≤◌, ◌<◌, ◌+◌, ◌*◌, ◌^◌, ◌∷◌, [], MatchOption, Some, None};
ghost use Rattle.ms_bytes.specs.Texts.{run_len};
ghost use Rattle.c_lex.specs.Classes.{is_digit, worth};
ghost use Rattle.c_lex.specs.Numbers.{begins_with_0, constant_in, constant_of, first_holding, greatest, is_hexadecimal, is_l, is_ten, is_u, radix, suffix_of, types_of, value_of, with_suffix};

use crate::class::{Base, Class, run_len, worth};
use c_token::IntegerType;

/// What letters, digits and `_` behind a digit are.
#[derive(Clone, Copy)]
pub enum Constant {
    /// A value, and the first type that holds it.
    Is(u64, IntegerType),
    TooLarge,
    /// No constant.
    Wrong,
}

/// The suffix of a constant.
#[derive(Clone, Copy)]
pub enum Suffix {
    Plain,
    U,
    L,
    Ul,
    Ll,
    Ull,
}

fn scaled(base: Base, value: u64) -> Option<u64>
    ensures { MatchOption result (2 ^ 64 ≤ value * radix base) (λ n. n ≡ value * radix base) }
{
    match base {
        Base::Octal => value.checked_mul(8),
        Base::Decimal => value.checked_mul(10),
        Base::Hexadecimal => value.checked_mul(16),
    }
}

/// With one digit more, or `None` if that is 2^64 or more.
fn with_digit(base: Base, value: u64, byte: u8) -> Option<u64>
    ensures { MatchOption result (2 ^ 64 ≤ value * radix base + worth byte) (λ n. n ≡ value * radix base + worth byte) }
{
    let scaled = scaled(base, value)?;
    scaled.checked_add(u64::from(worth(byte)))
}

/// What digits are worth behind those that are worth `first`, or `None` if that is 2^64 or more.
pub fn value_of(base: Base, first: u64, digits: &[u8]) -> Option<u64>
    ensures { MatchOption result (2 ^ 64 ≤ value_of base first digits.now) (λ n. n ≡ value_of base first digits.now) }
{
    let mut value = first;
    for byte in digits {
        let Some(next) = with_digit(base, value, *byte) else {
            return None;
        };
        value = next;
    }
    Some(value)
}

fn is_u(byte: u8) -> bool
    ensures { result ≡ is_u byte }
{
    byte == b'u' || byte == b'U'
}

fn is_l(byte: u8) -> bool
    ensures { result ≡ is_l byte }
{
    byte == b'l' || byte == b'L'
}

fn suffix_of_one(a: u8) -> Option<Suffix>
    ensures { result ≡ suffix_of (a ∷ []) }
{
    if is_u(a) {
        return Some(Suffix::U);
    }
    if is_l(a) {
        return Some(Suffix::L);
    }
    None
}

fn suffix_of_two(a: u8, b: u8) -> Option<Suffix>
    ensures { result ≡ suffix_of (a ∷ b ∷ []) }
{
    if (is_u(a) && is_l(b)) || (is_l(a) && is_u(b)) {
        return Some(Suffix::Ul);
    }
    if is_l(a) && a == b {
        return Some(Suffix::Ll);
    }
    None
}

fn suffix_of_three(a: u8, b: u8, c: u8) -> Option<Suffix>
    ensures { result ≡ suffix_of (a ∷ b ∷ c ∷ []) }
{
    if (is_u(a) && is_l(b) && b == c) || (is_l(a) && a == b && is_u(c)) {
        return Some(Suffix::Ull);
    }
    None
}

/// The suffix that bytes spell.
fn suffix_of(text: &[u8]) -> Option<Suffix>
    ensures { result ≡ suffix_of text.now }
{
    match text {
        [] => Some(Suffix::Plain),
        [a] => suffix_of_one(*a),
        [a, b] => suffix_of_two(*a, *b),
        [a, b, c] => suffix_of_three(*a, *b, *c),
        [_, _, _, _, ..] => None,
    }
}

/// The greatest value of a type.
fn greatest(ty: IntegerType) -> u64
    ensures { result ≡ greatest ty }
{
    match ty {
        IntegerType::Int | IntegerType::Long => 0x7FFF_FFFF,
        IntegerType::UnsignedInt | IntegerType::UnsignedLong => 0xFFFF_FFFF,
        IntegerType::LongLong => 0x7FFF_FFFF_FFFF_FFFF,
        IntegerType::UnsignedLongLong => 0xFFFF_FFFF_FFFF_FFFF,
    }
}

/// The types that a constant may have, the first that holds it.
fn types_of(decimal: bool, suffix: Suffix) -> &'static [IntegerType]
    ensures { result.now ≡ types_of decimal suffix }
{
    match suffix {
        Suffix::Plain => {
            if decimal {
                &[IntegerType::Int, IntegerType::Long, IntegerType::LongLong]
            } else {
                &[
                    IntegerType::Int,
                    IntegerType::UnsignedInt,
                    IntegerType::Long,
                    IntegerType::UnsignedLong,
                    IntegerType::LongLong,
                    IntegerType::UnsignedLongLong,
                ]
            }
        }
        Suffix::U => &[
            IntegerType::UnsignedInt,
            IntegerType::UnsignedLong,
            IntegerType::UnsignedLongLong,
        ],
        Suffix::L => {
            if decimal {
                &[IntegerType::Long, IntegerType::LongLong]
            } else {
                &[
                    IntegerType::Long,
                    IntegerType::UnsignedLong,
                    IntegerType::LongLong,
                    IntegerType::UnsignedLongLong,
                ]
            }
        }
        Suffix::Ul => &[IntegerType::UnsignedLong, IntegerType::UnsignedLongLong],
        Suffix::Ll => {
            if decimal {
                &[IntegerType::LongLong]
            } else {
                &[IntegerType::LongLong, IntegerType::UnsignedLongLong]
            }
        }
        Suffix::Ull => &[IntegerType::UnsignedLongLong],
    }
}

/// The value with the first of the types that holds it.
fn first_holding(value: u64, types: &[IntegerType]) -> Constant
    ensures { result ≡ first_holding value types.now }
{
    for ty in types {
        if value <= greatest(*ty) {
            return Constant::Is(value, *ty);
        }
    }
    Constant::TooLarge
}

fn is_ten(base: Base) -> bool
    ensures { result ≡ is_ten base }
{
    matches!(base, Base::Decimal)
}

/// Digits with a suffix.
#[tactic(auto, using(crate::proofs::Digits::too_large))]
fn with_suffix(base: Base, digits: &[u8], suffix: Suffix) -> Constant
    ensures { result ≡ with_suffix base digits.now (Some suffix) }
{
    if digits.is_empty() {
        return Constant::Wrong;
    }
    let types = types_of(is_ten(base), suffix);
    match value_of(base, 0, digits) {
        None => Constant::TooLarge,
        Some(value) => first_holding(value, types),
    }
}

/// Digits of a base with a suffix.
fn constant_in(base: Base, text: &[u8]) -> Constant
    ensures { result ≡ constant_in base text.now }
{
    let n = run_len(Class::Digit(base), text);
    match suffix_of(&text[n..]) {
        None => Constant::Wrong,
        Some(suffix) => with_suffix(base, &text[..n], suffix),
    }
}

/// What a run of letters, digits and `_` is that begins with a digit.
pub fn constant_of(text: &[u8]) -> Constant
    ensures { result ≡ constant_of text.now }
{
    match text {
        [b'0', b'x' | b'X', digits @ ..] => constant_in(Base::Hexadecimal, digits),
        [b'0', ..] => constant_in(Base::Octal, text),
        _ => constant_in(Base::Decimal, text),
    }
}
