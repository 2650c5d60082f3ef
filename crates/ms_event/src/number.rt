//! Reading a number from the front of what is left of a line.

ghost use Rattle.std.specs.Prelude.{◌≡◌, ◌∷◌, ◌+◌, ◌*◌, ◌^◌, ◌<◌, ◌≤◌, MatchOption};
ghost use Rattle.ms_event.specs.Text.{IsId, IsWord};
ghost use Rattle.ms_event.specs.refinement.Reading.{IsStop, ReadsDigits, ReadsNumber, ReadsPair};

use ms_bytes::Cursor;

/// Takes a space and the number of an identity.
pub(crate) fn id(left: &mut Cursor) -> Option<u64>
    ensures { ReadsNumber IsId left.old.left left.new.left result }
{
    match left.take()? {
        b' ' => digits(left),
        _ => None,
    }
}

/// Takes a space and a number below 2^32.
pub(crate) fn word(left: &mut Cursor) -> Option<u32>
    ensures { ReadsNumber IsWord left.old.left left.new.left result }
{
    u32::try_from(id(left)?).ok()
}

/// Takes two numbers below 2^32, each behind a space.
pub(crate) fn pair(left: &mut Cursor) -> Option<(u32, u32)>
    ensures { ReadsPair IsWord left.old.left left.new.left result }
{
    let first = word(left)?;
    let second = word(left)?;
    Some((first, second))
}

/// Takes a number without leading zeros: behind a first digit 0 no further digit belongs to it.
fn digits(left: &mut Cursor) -> Option<u64>
    ensures { ReadsDigits IsId left.old.left left.new.left result }
{
    let first = digit(left)?;
    if first == 0 {
        return Some(0);
    }
    more_digits(u64::from(first), left)
}

/// Takes the digits behind a first one that is not 0.
fn more_digits(first: u64, left: &mut Cursor) -> Option<u64>
    requires positive { 0 < first }
    requires digit { first < 10 }
    ensures { ReadsDigits IsId ((48 + first) ∷ left.old.left) left.new.left result }
{
    let mut value = first;
    while let Some(next) = digit(left) {
        value = with_digit(value, next)?;
    }
    Some(value)
}

/// The number with one digit more at its end. `None` where it would not be below 2^64.
fn with_digit(value: u64, digit: u8) -> Option<u64>
    ensures { MatchOption result (2 ^ 64 ≤ value * 10 + digit) (λ n. IsId n × (n ≡ value * 10 + digit)) }
{
    value.checked_mul(10)?.checked_add(u64::from(digit))
}

/// Takes a digit. `None` exactly where none is next; then the cursor stays.
fn digit(left: &mut Cursor) -> Option<u8>
    ensures { MatchOption result (IsStop left.old.left × (left.new.left ≡ left.old.left)) (λ d. (d < 10) × (left.old.left ≡ (48 + d) ∷ left.new.left)) }
{
    match left.rest() {
        [byte @ b'0'..=b'9', ..] => {
            left.skip(1);
            Some(*byte - b'0')
        }
        _ => None,
    }
}
