//! What a run of identifier characters is (WebAssembly 1.0, 6.2.2).

ghost use Rattle.std.specs.Prelude.{◌≡◌, Bool, true};
ghost use Rattle.ms_text_lex.specs.Words.{are_digits, has_sign, is_digit, is_hexadecimal, is_id, is_number, is_unsigned, is_word, kind_of};

use crate::class::{hex, is_decimal};
use crate::token::Kind;

fn is_digit(hexadecimal: bool, byte: u8) -> bool
    ensures { result ≡ is_digit hexadecimal byte }
{
    if hexadecimal {
        hex(byte).is_some()
    } else {
        is_decimal(byte)
    }
}

/// Whether these are digits with single underscores between them.
fn are_digits(hexadecimal: bool, text: &[u8]) -> bool
    ensures { (bare : Bool) → bare ≡ true → result ≡ are_digits hexadecimal bare text.now }
{
    let mut bare = true;
    for byte in text {
        if *byte == b'_' {
            if bare {
                return false;
            }
            bare = true;
        } else {
            if !is_digit(hexadecimal, *byte) {
                return false;
            }
            bare = false;
        }
    }
    !bare
}

pub fn has_sign(text: &[u8]) -> bool
    ensures { result ≡ has_sign text.now }
{
    match text {
        [] => false,
        [first, ..] => *first == b'+' || *first == b'-',
    }
}

/// Whether `0x` stands in front.
pub fn is_hexadecimal(text: &[u8]) -> bool
    ensures { result ≡ is_hexadecimal text.now }
{
    match text {
        [] => false,
        [_] => false,
        [first, second, ..] => *first == b'0' && *second == b'x',
    }
}

/// Whether these are digits, decimal or hexadecimal, without a sign.
pub fn is_unsigned(text: &[u8]) -> bool
    ensures { result ≡ is_unsigned text.now }
{
    if is_hexadecimal(text) {
        match text {
            [_, _, digits @ ..] => are_digits(true, digits),
            _ => are_digits(true, &[]),
        }
    } else {
        are_digits(false, text)
    }
}

fn is_number(text: &[u8]) -> bool
    ensures { result ≡ is_number text.now }
{
    if has_sign(text) {
        match text {
            [_, digits @ ..] => is_unsigned(digits),
            [] => is_unsigned(text),
        }
    } else {
        is_unsigned(text)
    }
}

fn is_id(text: &[u8]) -> bool
    ensures { result ≡ is_id text.now }
{
    match text {
        [] => false,
        [_] => false,
        [first, _, ..] => *first == b'$',
    }
}

fn is_word(text: &[u8]) -> bool
    ensures { result ≡ is_word text.now }
{
    match text {
        [] => false,
        [first, ..] => *first >= b'a' && *first <= b'z',
    }
}

/// What these identifier characters are.
pub fn kind_of(text: &[u8]) -> Kind
    ensures { result ≡ kind_of text.now }
{
    if is_id(text) {
        return Kind::Id;
    }
    if is_number(text) {
        return Kind::Number;
    }
    if is_word(text) {
        return Kind::Keyword;
    }
    Kind::Reserved
}
