//! The parts that readers are made of: items, vectors of items, and items whose size stands before them.

ghost use Rattle.std.specs.Prelude.{◌≡◌};
ghost use Rattle.ms_bin_grammar.specs.Inside.{bounded_at, end_at};
ghost use Rattle.ms_bin_grammar.specs.Sizes.{sized};
ghost use Rattle.ms_bytes.specs.Codes.{byte_at};
ghost use Rattle.ms_bytes.specs.Texts.{marks_at};
ghost use Rattle.ms_bin_grammar.specs.Faults.{Binary, malformed};
ghost use Rattle.ms_bytes.specs.Repetition.{times};
ghost use Rattle.ms_bin_grammar.specs.Numbers.{number, vec};
ghost use Rattle.ms_bytes.specs.Spot.{Spot};
ghost use Rattle.ms_bin_read.specs.refinement.Readers.{Finds, Reads};

use crate::numbers::u32_of;
use ms_bin_grammar::ReadFault;
use ms_bytes::Cursor;
use ms_types::Vector;
use std::alloc::Global;

/// What is read from the front of bytes by its format.
pub trait Item: Sized + Drop {
    ghost format: { Binary Self };

    fn read(alloc: Global, c: &mut Cursor) -> Result<Self, ReadFault>
        ensures { Reads c.old c.new result (format.read c.old.end c.old.left) };
}

/// Reads a byte.
pub fn byte_of(c: &mut Cursor) -> Result<u8, ReadFault>
    ensures { Reads c.old c.new result (byte_at malformed c.old.end c.old.left) }
{
    let at = c.at();
    match c.take() {
        None => Err(ReadFault::Malformed { at }),
        Some(byte) => Ok(byte),
    }
}

/// Reads these bytes.
pub fn marks_of(marks: &[u8], c: &mut Cursor) -> Result<(), ReadFault>
    ensures { Reads c.old c.new result (marks_at malformed marks.now c.old.end c.old.left) }
{
    if !c.rest().starts_with(marks) {
        return Err(ReadFault::Malformed { at: c.at() });
    }
    c.skip(marks.len());
    Ok(())
}

impl Item for u32 {
    ghost format = { number };

    fn read(_alloc: Global, c: &mut Cursor) -> Result<Self, ReadFault> {
        u32_of(c)
    }
}

/// Reads so many items.
fn times<T: Item>(alloc: Global, count: u32, c: &mut Cursor) -> Result<Vector<T>, ReadFault>
    ensures { Reads c.old c.new result ((times count T.format).read c.old.end c.old.left) }
{
    let mut items = Vector::new(alloc);
    for _ in 0..count {
        items.push(T::read(alloc, c)?)?;
    }
    Ok(items)
}

impl<T: Item> Item for Vector<T> {
    ghost format = { vec T.format };

    #[tactic(auto, unfolding(ms_bin_grammar::specs::Numbers::vec))]
    fn read(alloc: Global, c: &mut Cursor) -> Result<Self, ReadFault> {
        let count = u32_of(c)?;
        times(alloc, count, c)
    }
}

/// Takes the bytes of an item whose size stands before them, as a cursor of their own.
#[tactic(auto, unfolding(ms_bin_grammar::specs::Inside::bounded_at))]
pub fn bounded<'a>(c: &mut Cursor<'a>) -> Result<Cursor<'a>, ReadFault>
    ensures { Reads c.old c.new result (bounded_at c.old.end c.old.left) }
{
    let at = c.at();
    let size = u32_of(c)? as usize;
    if c.len() < size {
        return Err(ReadFault::Malformed { at });
    }
    Ok(c.split(size))
}

/// Whether the bytes of an item have ended with it.
pub fn ended(c: &Cursor) -> Result<(), ReadFault>
    ensures { Finds result (end_at c.now.end c.now.left) }
{
    if c.is_empty() {
        Ok(())
    } else {
        Err(ReadFault::Malformed { at: c.at() })
    }
}

/// Reads an item whose size stands before it.
#[tactic(auto, unfolding(ms_bin_grammar::specs::Inside::sized_at))]
pub fn sized_of<T: Item>(alloc: Global, c: &mut Cursor) -> Result<T, ReadFault>
    ensures { Reads c.old c.new result ((sized T.format).read c.old.end c.old.left) }
{
    let mut inside = bounded(c)?;
    let item = T::read(alloc, &mut inside)?;
    ended(&inside)?;
    Ok(item)
}
