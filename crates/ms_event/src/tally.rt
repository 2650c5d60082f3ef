//! How many events there were of each kind.

ghost use Rattle.std.specs.Prelude.{◌≡◌};
ghost use Rattle.ms_event.specs.refinement.Tally.{LeavesRoom, nothing, tallied};

use crate::event::Event;

/// How many events there were of each kind.
#[derive(Clone, Copy)]
pub struct Tally {
    /// Segments that were made.
    pub allocs: u64,
    /// Segments that were refused.
    pub refused: u64,
    /// Handles that were sealed and weren't before.
    pub seals: u64,
    /// Handles that were made of others.
    pub slices: u64,
    /// Reads.
    pub reads: u64,
    /// Writes.
    pub writes: u64,
    /// Segments that were freed.
    pub frees: u64,
}

impl Tally {
    /// No events.
    pub fn new() -> Self
        ensures { result ≡ nothing }
    {
        Tally {
            allocs: 0,
            refused: 0,
            seals: 0,
            slices: 0,
            reads: 0,
            writes: 0,
            frees: 0,
        }
    }

    /// One more event.
    #[inline(always)]
    pub fn count(&mut self, event: Event)
        requires { LeavesRoom 1 self.old }
        ensures { self.new ≡ tallied event self.old }
    {
        match event {
            Event::Alloc { .. } => self.allocs += 1,
            Event::Refused { .. } => self.refused += 1,
            Event::Seal { .. } => self.seals += 1,
            Event::Slice { .. } => self.slices += 1,
            Event::Read { .. } => self.reads += 1,
            Event::Write { .. } => self.writes += 1,
            Event::Free { .. } => self.frees += 1,
        }
    }
}
