//! Live segments and gaps as trees.

ghost use Rattle.std.specs.Prelude.{◌≡◌, ◌+◌, ◌*◌, ◌<◌, ◌≤◌, ◌^◌, ℕ, cond, nat_lt, length, IsSome, Some};
ghost use Rattle.ms_gap_tree.specs.refinement.Rooms.{room_at, size_of};
ghost use Rattle.ms_gap_tree.specs.refinement.Tree.{half};
ghost use Rattle.ms_live.specs.refinement.Kept.{AreEnough, looked_at};
ghost use Rattle.ms_live.specs.refinement.Layout.{Begins, Ends, IsBegun, behind};
ghost use Rattle.ms_live.specs.Place.{IsPlace};

use crate::gaps::{ALIGNMENT, GAP_LEVELS, Gaps, Live, MOST_LIVE};
use crate::hinted::HintedIds;
use ms_gap_tree::{Item, Rooms, Steps, half};
use std::alloc::{AllocError, Global};
use std::marker::{Brand, Model};
use std::sync::ledger::{Blank, Ledger};

/// The live segments as a tree by identity, and the gaps between them as a tree by address. Each call goes down these
/// trees, and none goes through all segments.
#[derive(Drop)]
pub struct TreeGaps {
    capacity: u32,
    rooms: Rooms,
    ids: HintedIds,
}

impl Model for TreeGaps {
    ghost use Rattle.ms_live.specs.refinement.Kept.{IsKept, Kept};

    ghost Value = { Kept };

    ghost view = { λ g. record { addresses = g.capacity; live = g.ids; rooms = g.rooms } };

    ghost invariant = { λ g. IsKept (record { addresses = g.capacity; live = g.ids; rooms = g.rooms }) };
}

/// How many levels a tree has that has the keys of all gaps within a capacity: no more than it takes, since a search passes by each.
pub fn levels_for(capacity: u32) -> u32
    ensures { AreEnough result capacity }
{
    let last = (u64::from(capacity) + ALIGNMENT - 1) / ALIGNMENT;
    for levels in 1..GAP_LEVELS {
        if last < half(levels) {
            return levels;
        }
    }
    GAP_LEVELS
}

/// The key of the gap behind the segment.
fn behind(segment: Live) -> u64
    ensures { result ≡ behind segment }
{
    (u64::from(segment.base) + u64::from(segment.size) + ALIGNMENT - 1) / ALIGNMENT
}

/// A segment begins at the gap of its place: that has no room then, and behind the segment is what is left of it. One of
/// no bytes changes nothing.
fn begin(rooms: &mut Rooms, segment: Live)
    requires begun { 0 < segment.size → (key : ℕ) × (room : ℕ) × IsBegun (room_at rooms.old) segment key room }
    requires near { (key room : ℕ) → room_at rooms.old key ≡ Some room → 16 * key + room ≤ 2 ^ 32 }
    requires below { 0 < segment.size → behind segment < half rooms.old.levels }
    requires few { size_of rooms.old < rooms.old.most }
    ensures begins { 0 < segment.size → (key room : ℕ) → IsBegun (room_at rooms.old) segment key room → Begins (room_at rooms.old) (room_at rooms.new) segment key room }
    ensures same { segment.size ≡ 0 → rooms.new ≡ rooms.old }
    ensures size { size_of rooms.new ≡ cond (nat_lt 0 segment.size) 1 0 + size_of rooms.old }
    ensures levels { rooms.new.levels ≡ rooms.old.levels }
    ensures most { rooms.new.most ≡ rooms.old.most }
{
    if segment.size == 0 {
        return;
    }
    let key = u64::from(segment.base) / ALIGNMENT;
    let Some(room) = rooms.find(key) else {
        unreachable!()
    };
    let next = behind(segment);
    let left = (ALIGNMENT * key + room).saturating_sub(ALIGNMENT * next);
    rooms.cut(
        key,
        Item {
            key: next,
            room: left,
        },
    );
}

/// A segment ends: the gap before it and the one behind it are one. One of no bytes changes nothing.
fn end(rooms: &mut Rooms, capacity: u32, segment: Live)
    requires first { IsSome (room_at rooms.old 0) }
    requires back { 0 < segment.size → IsSome (room_at rooms.old (behind segment)) }
    requires near { (key room : ℕ) → room_at rooms.old key ≡ Some room → 16 * key + room ≤ 2 ^ 32 }
    requires within { 0 < segment.size → segment.base + segment.size ≤ capacity }
    requires levels { AreEnough rooms.old.levels capacity }
    ensures ends { 0 < segment.size → (key : ℕ) × (room : ℕ) × (rest : ℕ) × Ends capacity (room_at rooms.old) (room_at rooms.new) segment key room rest }
    ensures same { segment.size ≡ 0 → rooms.new ≡ rooms.old }
    ensures size { cond (nat_lt 0 segment.size) 1 0 + size_of rooms.new ≡ size_of rooms.old }
    ensures levels { rooms.new.levels ≡ rooms.old.levels }
    ensures most { rooms.new.most ≡ rooms.old.most }
{
    if segment.size == 0 {
        return;
    }
    let Some(before) = rooms.last(u64::from(segment.base) / ALIGNMENT) else {
        unreachable!()
    };
    let next = behind(segment);
    let Some(rest) = rooms.find(next) else {
        unreachable!()
    };
    let to = (ALIGNMENT * next + rest).min(u64::from(capacity));
    rooms.join(
        next,
        Item {
            key: before.key,
            room: to - ALIGNMENT * before.key,
        },
    );
}

/// The place, with steps that are not counted.
fn place_uncounted<L: Ledger>(gaps: &TreeGaps, n: u32, blank: Blank) -> Option<u32>
    requires name { blank.name ≡ L.name }
    requires parts { blank.parts ≡ L.parts }
    requires some { 0 < blank.parts }
    ensures { IsPlace gaps.now.live gaps.now.addresses n result }
{
    let mut steps = Steps::<L>::new(blank);
    gaps.place_counted(n, &mut steps)
}

impl TreeGaps {
    /// The least multiple of 16 at which `n` addresses within the capacity lie in no live segment. A step is a node that
    /// is looked at.
    pub fn place_counted<L: Ledger>(&self, n: u32, steps: &mut Steps<L>) -> Option<u32>
        ensures place { IsPlace self.now.live self.now.addresses n result }
        ensures steps { steps.new ≡ steps.old + looked_at self.now n }
        ensures most { looked_at self.now n ≤ 48 }
    {
        if n == 0 {
            return Some(0);
        }
        let key = self.rooms.lowest(u64::from(n), steps)?;
        Some((ALIGNMENT * key) as u32)
    }
}

impl Gaps for TreeGaps {
    ghost addresses = { λ gaps. gaps.addresses };

    ghost live = { λ gaps. gaps.live };

    fn new(alloc: Global, capacity: u32) -> Result<Self, AllocError> {
        let mut rooms = Rooms::new(alloc, levels_for(capacity), MOST_LIVE + 1)?;
        rooms.insert(Item {
            key: 0,
            room: u64::from(capacity),
        });
        Ok(TreeGaps {
            capacity,
            rooms,
            ids: HintedIds::new(alloc)?,
        })
    }

    fn place(&self, n: u32) -> Option<u32> {
        place_uncounted::<Brand>(self, n, Blank::new(1))
    }

    fn enter(&mut self, segment: Live) {
        begin(&mut self.rooms, segment);
        self.ids.push(segment);
    }

    fn leave(&mut self, id: u64) {
        let Some(segment) = self.ids.find(id) else {
            unreachable!()
        };
        end(&mut self.rooms, self.capacity, segment);
        self.ids.remove(id);
    }

    fn find(&self, id: u64) -> Option<Live> {
        self.ids.find(id)
    }

    fn count(&self) -> u32 {
        self.ids.count()
    }

    fn nth(&self, i: u32) -> Live {
        self.ids.nth(i)
    }
}
