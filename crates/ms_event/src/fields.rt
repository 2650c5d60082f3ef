//! The numbers of an event, which are all that stands behind its word but for the word of a sealed handle.

ghost use Rattle.std.specs.Prelude.{◌≡◌, ◌++◌, List, ℕ, Bool};
ghost use Rattle.std.specs.List.{AllByRecursion};
ghost use Rattle.ms_event.specs.Text.{IsId, IsWord, ending, numbers};
ghost use Rattle.ms_event.specs.refinement.Reading.{ReadsEnded, ReadsFive, ReadsOne, ReadsThree};

use crate::number::{id, pair, word};
use crate::text::SEALED;
use ms_bytes::Cursor;

/// One identity.
pub(crate) fn one_id(bytes: &[u8]) -> Option<u64>
    ensures { ReadsOne IsId bytes.now result }
{
    let mut left = Cursor::new(bytes);
    let id = id(&mut left)?;
    left.is_empty().then_some(id)
}

/// One number below 2^32.
pub(crate) fn one_word(bytes: &[u8]) -> Option<u32>
    ensures { ReadsOne IsWord bytes.now result }
{
    let mut left = Cursor::new(bytes);
    let number = word(&mut left)?;
    left.is_empty().then_some(number)
}

/// An identity and two numbers.
pub(crate) fn id_and_pair(bytes: &[u8]) -> Option<(u64, (u32, u32))>
    ensures { ReadsThree bytes.now result }
{
    let mut left = Cursor::new(bytes);
    let id = id(&mut left)?;
    let numbers = pair(&mut left)?;
    left.is_empty().then_some((id, numbers))
}

/// An identity and four numbers.
pub(crate) fn id_and_pairs(bytes: &[u8]) -> Option<(u64, (u32, u32), (u32, u32))>
    ensures { ReadsFive bytes.now result }
{
    let mut left = Cursor::new(bytes);
    let id = id(&mut left)?;
    let first = pair(&mut left)?;
    let second = pair(&mut left)?;
    left.is_empty().then_some((id, first, second))
}

/// An identity and four numbers, and whether the word of a sealed handle stands behind them.
pub(crate) fn id_and_pairs_ended(line: &[u8]) -> Option<(u64, (u32, u32), (u32, u32), bool)>
    ensures { ReadsEnded line.now result }
{
    let (numbers, sealed) = ended(line);
    let (id, first, second) = id_and_pairs(numbers)?;
    Some((id, first, second, sealed))
}

/// The line without the word of a sealed handle at its end, and whether the word stood there.
fn ended(line: &[u8]) -> (&[u8], bool)
    ensures found { line.now ≡ result.0.now ++ ending result.1 }
    ensures only { (ns : List ℕ) (sealed : Bool) → AllByRecursion IsId ns → line.now ≡ numbers ns ++ ending sealed → (result.0.now ≡ numbers ns) × (result.1 ≡ sealed) }
{
    match line.strip_suffix(SEALED.as_bytes()) {
        Some(front) => (front, true),
        None => (line, false),
    }
}
