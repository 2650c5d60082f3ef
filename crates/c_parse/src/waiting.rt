//! The stack of productions that stand open.

ghost use Rattle.std.specs.Prelude.{◌≡◌, ◌+◌, [], ◌∷◌, max, IfSome, IfNone, OnOk, IfOk};
ghost use Rattle.c_productions.specs.refinement.Meaning.{overs};

use c_productions::Frame;
use std::alloc::{AllocError, Global};
use std::marker::Model;

/// The productions that stand open, the innermost last. Contracts see a list, the innermost first.
#[derive(Drop)]
pub struct Waiting {
    entries: Vec<Entry>,
    /// The least height that they have.
    floor: usize,
    /// How much higher they are than what is inside.
    rising: usize,
}

/// A production that stands open, with both figures of those behind it.
#[derive(Drop)]
struct Entry {
    frame: Frame,
    floor: usize,
    rising: usize,
}

impl Model for Waiting {
    ghost use Rattle.std.specs.Prelude.{List, reverse};
    ghost use Rattle.std.specs.Coded.{coded_list};
    ghost use Rattle.c_productions.specs.declared.frame.Frame.{Frame};
    ghost use Rattle.c_productions.specs.contracts.frame.Frame as frame_row;

    ghost Value = { List Frame };

    ghost coded = { coded_list frame_row.the_row.coded };

    ghost use Rattle.c_parse.specs.refinement.Waiting.{AreSummed, frames_of};

    ghost view = { λ w. frames_of (reverse w.entries.items) };

    ghost invariant = { λ w. AreSummed (reverse w.entries.items) w.floor w.rising };
}

/// A sum. One that passes a usize, which no memory could hold, is want of memory.
pub fn sum(a: usize, b: usize) -> Result<usize, AllocError>
    ensures { IfOk result (λ n. n ≡ a + b) }
{
    a.checked_add(b).ok_or(AllocError)
}

/// The greater of two numbers.
pub fn higher(a: usize, b: usize) -> usize
    ensures { result ≡ max a b }
{
    a.max(b)
}

impl Waiting {
    /// None. Takes no memory.
    pub fn new(alloc: Global) -> Self
        ensures { result ≡ [] }
    {
        Waiting {
            entries: Vec::new(alloc),
            floor: 0,
            rising: 0,
        }
    }

    /// One more, the innermost.
    pub fn push(&mut self, frame: Frame) -> Result<(), AllocError>
        ensures { OnOk result (self.new ≡ frame ∷ self.old) }
    {
        let least = sum(frame.rest.least(), frame.production.rise())?;
        let floor = self.over(higher(frame.base, least))?;
        let rising = sum(frame.production.rise(), self.rising)?;
        self.entries.push(Entry {
            frame,
            floor: self.floor,
            rising: self.rising,
        })?;
        self.floor = floor;
        self.rising = rising;
        Ok(())
    }

    /// Takes the innermost.
    pub fn pop(&mut self) -> Option<Frame>
        ensures some { IfSome result (λ frame. self.old ≡ frame ∷ self.new) }
        ensures none { IfNone result (self.old ≡ []) }
        ensures same { IfNone result (self.new ≡ []) }
    {
        let Entry {
            frame,
            floor,
            rising,
        } = self.entries.pop()?;
        self.floor = floor;
        self.rising = rising;
        Some(frame)
    }

    /// The least height of what they are part of, where this is the height inside.
    pub fn over(&self, inside: usize) -> Result<usize, AllocError>
        ensures { IfOk result (λ n. n ≡ overs self.now inside) }
    {
        Ok(higher(self.floor, sum(inside, self.rising)?))
    }
}
