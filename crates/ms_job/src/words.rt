//! Words and numbers.

ghost use Rattle.std.specs.Prelude.{◌≡◌, ◌≤◌, map, take, IfOk, IfSome};
ghost use Rattle.std.specs.List.{list_all};
ghost use Rattle.ms_job.specs.Jobs.{is_name, is_name_byte};
ghost use Rattle.ms_job.specs.refinement.Reading.{AddsDigit};
ghost use Rattle.ms_job.specs.Words.{number_within, words};

use std::alloc::{AllocError, Global};

/// How many words a line has at most, and one more: `reach`, a task, and 64 modules.
const ENOUGH: usize = 67;

/// The first words of a line, as many as tell whether there are too many.
pub(crate) fn words_of<'a>(alloc: Global, line: &'a str) -> Result<Vec<&'a str>, AllocError>
    ensures { IfOk result (λ v. map (λ word. word.now) v.items ≡ take 67 (words line.now)) }
{
    line.split(' ')
        .filter(|word| !word.is_empty())
        .take(ENOUGH)
        .collect(alloc)
}

/// The number of a word of digits alone, where it is from `low` to `high`. `None` exactly where there is none.
pub(crate) fn number(word: &[u8], low: u64, high: u64) -> Option<u64>
    ensures value { result ≡ number_within low high word.now }
    ensures range { IfSome result (λ n. (low ≤ n) × (n ≤ high)) }
{
    if word.is_empty() {
        return None;
    }
    let mut value = 0u64;
    for byte in word {
        value = with_digit(value, *byte)?;
    }
    (low <= value && value <= high).then_some(value)
}

/// The number with one digit more at its end. `None` where the byte is no digit, or the number isn't below 2^64.
fn with_digit(value: u64, byte: u8) -> Option<u64>
    ensures { AddsDigit value byte result }
{
    match byte {
        b'0'..=b'9' => value.checked_mul(10)?.checked_add(u64::from(byte - b'0')),
        _ => None,
    }
}

/// Whether a word may be the name of a module: 1 to 64 letters, digits, `_`, `-` and `.`, but not `env` or `c`.
pub(crate) fn is_name(word: &[u8]) -> bool
    ensures { result ≡ is_name word.now }
{
    if word.is_empty() {
        return false;
    }
    if word.len() > 64 {
        return false;
    }
    if word == b"env".as_slice() {
        return false;
    }
    if word == b"c".as_slice() {
        return false;
    }
    has_name_bytes(word)
}

/// Whether each byte of a word may stand in the name of a module.
fn has_name_bytes(word: &[u8]) -> bool
    ensures { result ≡ list_all is_name_byte word.now }
{
    word.iter().all(|byte| is_name_byte(*byte))
}

/// Whether a byte may stand in the name of a module.
fn is_name_byte(byte: u8) -> bool
    ensures { result ≡ is_name_byte byte }
{
    byte.is_ascii_alphanumeric() || byte == b'_' || byte == b'-' || byte == b'.'
}
