//! The text of an event: a word and its numbers.

ghost use Rattle.std.specs.Prelude.{◌≡◌, [], ◌∷◌, ◌++◌, IfOk, IfSome, Some, string_bytes};
ghost use Rattle.ms_event.specs.declared.event.Event.{Event};
ghost use Rattle.ms_event.specs.Text.{IsInRange, ending, numbers, text};
ghost use Rattle.ms_event.specs.refinement.Reading.{Reads};

use crate::event::Event;
use crate::fields::{id_and_pair, id_and_pairs, id_and_pairs_ended, one_id, one_word};
use std::alloc::{AllocError, Global};

// The word of each kind of event.
const ALLOC: &str = "alloc";

const REFUSED: &str = "refused";

const SEAL: &str = "seal";

const SLICE: &str = "slice";

const READ: &str = "read";

const WRITE: &str = "write";

const FREE: &str = "free";

/// The word at the end of a line, with the space in front of it.
pub(crate) const SEALED: &str = " sealed";

impl Event {
    /// The text of the event, which has no line feed.
    pub fn print(&self, alloc: Global) -> Result<Vec<u8>, AllocError>
        ensures { IfOk result (λ v. v.items ≡ text self.now) }
    {
        let text = match *self {
            Event::Alloc { id, addr, size } => format!(in alloc; "{ALLOC} {id} {addr} {size}"),
            Event::Refused { size } => format!(in alloc; "{REFUSED} {size}"),
            Event::Seal { id, lo, hi } => format!(in alloc; "{SEAL} {id} {lo} {hi}"),
            Event::Slice {
                sealed,
                id,
                lo,
                hi,
                lo2,
                hi2,
            } => line_of_five(alloc, SLICE, id, (lo, hi), (lo2, hi2), sealed),
            Event::Read {
                sealed,
                id,
                lo,
                hi,
                addr,
                width,
            } => line_of_five(alloc, READ, id, (lo, hi), (addr, width), sealed),
            Event::Write {
                id,
                lo,
                hi,
                addr,
                width,
            } => format!(in alloc; "{WRITE} {id} {lo} {hi} {addr} {width}"),
            Event::Free { id } => format!(in alloc; "{FREE} {id}"),
        }?;
        Ok(text.into_bytes())
    }

    /// The event of this text, or `None` where the line is the text of no event.
    pub fn parse(line: &[u8]) -> Option<Event>
        ensures found { IfSome result (λ e. line.now ≡ text e) }
        ensures only { (e : Event) → IsInRange e → line.now ≡ text e → result ≡ Some e }
    {
        if let Some(numbers) = line.strip_prefix(ALLOC.as_bytes()) {
            alloc(numbers)
        } else if let Some(numbers) = line.strip_prefix(REFUSED.as_bytes()) {
            refused(numbers)
        } else if let Some(numbers) = line.strip_prefix(SEAL.as_bytes()) {
            seal(numbers)
        } else if let Some(numbers) = line.strip_prefix(SLICE.as_bytes()) {
            slice(numbers)
        } else if let Some(numbers) = line.strip_prefix(READ.as_bytes()) {
            read(numbers)
        } else if let Some(numbers) = line.strip_prefix(WRITE.as_bytes()) {
            write(numbers)
        } else if let Some(numbers) = line.strip_prefix(FREE.as_bytes()) {
            free(numbers)
        } else {
            None
        }
    }
}

/// A line of an identity and four numbers, which the word of a sealed handle may end.
fn line_of_five(
    alloc: Global,
    word: &str,
    id: u64,
    first: (u32, u32),
    second: (u32, u32),
    sealed: bool,
) -> Result<String, AllocError>
    ensures { IfOk result (λ line. string_bytes line ≡ (word.now ++ numbers (id ∷ first.0 ∷ first.1 ∷ second.0 ∷ second.1 ∷ [])) ++ ending sealed) }
{
    let line = five_numbers(alloc, word, id, first, second)?;
    with_ending(line, sealed)
}

/// A word, an identity and four numbers.
fn five_numbers(
    alloc: Global,
    word: &str,
    id: u64,
    first: (u32, u32),
    second: (u32, u32),
) -> Result<String, AllocError>
    ensures { IfOk result (λ line. string_bytes line ≡ word.now ++ numbers (id ∷ first.0 ∷ first.1 ∷ second.0 ∷ second.1 ∷ [])) }
{
    let (lo, hi) = first;
    let (from, to) = second;
    format!(in alloc; "{word} {id} {lo} {hi} {from} {to}")
}

/// The line, ended by the word of a sealed handle where it tells of one.
fn with_ending(line: String, sealed: bool) -> Result<String, AllocError>
    ensures { IfOk result (λ ended. string_bytes ended ≡ string_bytes line ++ ending sealed) }
{
    if sealed {
        let mut ended = line;
        ended.push_str(SEALED)?;
        return Ok(ended);
    }
    Ok(line)
}

// What each kind of event is read from, behind its word.
fn alloc(numbers: &[u8]) -> Option<Event>
    ensures { Reads (ALLOC.now ++ numbers.now) result }
{
    let (id, (addr, size)) = id_and_pair(numbers)?;
    Some(Event::Alloc { id, addr, size })
}

fn refused(numbers: &[u8]) -> Option<Event>
    ensures { Reads (REFUSED.now ++ numbers.now) result }
{
    let size = one_word(numbers)?;
    Some(Event::Refused { size })
}

fn seal(numbers: &[u8]) -> Option<Event>
    ensures { Reads (SEAL.now ++ numbers.now) result }
{
    let (id, (lo, hi)) = id_and_pair(numbers)?;
    Some(Event::Seal { id, lo, hi })
}

fn slice(numbers: &[u8]) -> Option<Event>
    ensures { Reads (SLICE.now ++ numbers.now) result }
{
    let (id, (lo, hi), (lo2, hi2), sealed) = id_and_pairs_ended(numbers)?;
    Some(Event::Slice {
        sealed,
        id,
        lo,
        hi,
        lo2,
        hi2,
    })
}

fn read(numbers: &[u8]) -> Option<Event>
    ensures { Reads (READ.now ++ numbers.now) result }
{
    let (id, (lo, hi), (addr, width), sealed) = id_and_pairs_ended(numbers)?;
    Some(Event::Read {
        sealed,
        id,
        lo,
        hi,
        addr,
        width,
    })
}

fn write(numbers: &[u8]) -> Option<Event>
    ensures { Reads (WRITE.now ++ numbers.now) result }
{
    let (id, (lo, hi), (addr, width)) = id_and_pairs(numbers)?;
    Some(Event::Write {
        id,
        lo,
        hi,
        addr,
        width,
    })
}

fn free(numbers: &[u8]) -> Option<Event>
    ensures { Reads (FREE.now ++ numbers.now) result }
{
    let id = one_id(numbers)?;
    Some(Event::Free { id })
}
