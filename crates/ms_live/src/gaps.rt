//! The contract of what keeps live segments and finds places for new ones.

ghost use Rattle.std.specs.Prelude.{◌≡◌, ◌<◌, ◌≤◌, ◌++◌, ◌∷◌, ◌==◌, ℕ, List, [], Option, Some, All, IfOk, length, find, slice_get, true};

use ms_handle::Kind;
use std::alloc::{AllocError, Global};

/// How many segments may be live at once.
pub const MOST_LIVE: u32 = 65_536;

/// Each segment, and so each gap, begins at a multiple of this.
pub const ALIGNMENT: u64 = 16;

/// How many levels are enough for the keys of all gaps at any capacity: a multiple of 16 up to 2^32, by 16.
pub const GAP_LEVELS: u32 = 30;

/// A live segment.
#[derive(Clone, Copy, PartialEq, Eq)]
pub struct Live {
    /// Its identity, counted from 1.
    pub id: u64,
    /// The address of its first byte.
    pub base: u32,
    /// How many bytes it has.
    pub size: u32,
    /// What it was made as.
    pub kind: Kind,
}

/// The live segments within a capacity, in the order of their identities. No call but `new` takes memory.
pub trait Gaps: Sized + Drop {
    ghost use Rattle.ms_live.specs.declared.gaps.Live.{Live};
    ghost use Rattle.ms_live.specs.Place.{IsPlace, contains_id, without};

    /// How many addresses there are.
    ghost addresses: { Self → ℕ };

    /// The live segments.
    ghost live: { Self → List Live };

    /// No segment is live. Room for all that may be live is reserved.
    fn new(alloc: Global, capacity: u32) -> Result<Self, AllocError>
        ensures addresses { IfOk result (λ gaps. addresses gaps ≡ capacity) }
        ensures live { IfOk result (λ gaps. live gaps ≡ []) };

    /// The least multiple of 16 at which `n` addresses within the capacity lie in no live segment.
    fn place(&self, n: u32) -> Option<u32>
        ensures { IsPlace (live self.now) (addresses self.now) n result };

    /// A segment becomes live. Its identity is the newest one, and its base the place for its size.
    fn enter(&mut self, segment: Live)
        requires few { length (live self.old) < MOST_LIVE }
        requires newest { All (λ other. other.id < segment.id) (live self.old) }
        requires placed { IsPlace (live self.old) (addresses self.old) segment.size (Some segment.base) }
        ensures live { live self.new ≡ live self.old ++ segment ∷ [] }
        ensures addresses { addresses self.new ≡ addresses self.old };

    /// The segment of this identity, which is live, ends.
    fn leave(&mut self, id: u64)
        requires { contains_id id (live self.old) ≡ true }
        ensures live { live self.new ≡ without id (live self.old) }
        ensures addresses { addresses self.new ≡ addresses self.old };

    /// The live segment of this identity. `None` exactly where none has it.
    fn find(&self, id: u64) -> Option<Live>
        ensures { result ≡ find (λ segment. segment.id == id) (live self.now) };

    /// How many segments are live.
    fn count(&self) -> u32
        ensures { result ≡ length (live self.now) };

    /// The live segment with `i` older ones.
    fn nth(&self, i: u32) -> Live
        requires { i < length (live self.now) }
        ensures { slice_get (live self.now) i ≡ Some result };
}
