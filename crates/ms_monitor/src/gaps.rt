//! The gaps between the live allocations, as rooms under keys: a key by 16 is the address at which a gap begins.

ghost use Rattle.std.specs.Prelude.{◌≡◌, ℕ, ◌+◌, ◌*◌, ◌/◌, ◌<◌, ◌≤◌, ◌^◌, ◌↔◌, IsTrue, IsSome, None, Some, cond, nat_lt};
ghost use Rattle.ms_gap_tree.specs.refinement.Rooms.{HasRoom, room_at, size_of};
ghost use Rattle.ms_gap_tree.specs.refinement.Tree.{half};
ghost use Rattle.ms_live.specs.refinement.Kept.{AreEnough};
ghost use Rattle.ms_live.specs.refinement.Layout as layout;
ghost use Rattle.ms_monitor.specs.refinement.Gaps.{IsBefore, IsNear, Splits, back, segment};

use ms_gap_tree::{Item, Rooms, Steps};
use ms_live::ALIGNMENT;
use std::marker::Brand;
use std::sync::ledger::{Blank, Ledger};

/// The key of the gap behind an allocation.
fn back(base: u32, size: u32) -> u64
    ensures { result ≡ back base size }
{
    (u64::from(base) + u64::from(size) + ALIGNMENT - 1) / ALIGNMENT
}

/// The last gap that begins at the address or before it.
pub(crate) fn gap_before(rooms: &Rooms, address: u32) -> Item
    requires { IsSome (room_at rooms.now 0) }
    ensures { IsBefore (room_at rooms.now) address result.key result.room }
{
    let Some(gap) = rooms.last(u64::from(address) / ALIGNMENT) else {
        unreachable!()
    };
    gap
}

/// Whether so many addresses from one on lie in the gap, which begins at the first of them or before it.
pub(crate) fn reaches(gap: Item, base: u32, size: u32) -> bool
    requires { 16 * gap.key + gap.room ≤ 2 ^ 32 }
    ensures { IsTrue result ↔ (0 < size → base + size ≤ 16 * gap.key + gap.room) }
{
    size == 0 || u64::from(base) + u64::from(size) <= ALIGNMENT * gap.key + gap.room
}

/// An allocation begins in the gap, which ends there; behind the allocation begins another. One of no bytes changes nothing.
pub(crate) fn split(rooms: &mut Rooms, gap: Item, base: u32, size: u32)
    requires before { IsBefore (room_at rooms.old) base gap.key gap.room }
    requires fits { 0 < size → base + size ≤ 16 * gap.key + gap.room }
    requires near { IsNear (room_at rooms.old) }
    requires absent { 0 < size → room_at rooms.old (back base size) ≡ None }
    requires below { 0 < size → back base size < half rooms.old.levels }
    requires few { size_of rooms.old < rooms.old.most }
    ensures splits { 0 < size → Splits (room_at rooms.old) (room_at rooms.new) base size gap.key gap.room }
    ensures same { size ≡ 0 → rooms.new ≡ rooms.old }
    ensures size { size_of rooms.new ≡ cond (nat_lt 0 size) 1 0 + size_of rooms.old }
    ensures levels { rooms.new.levels ≡ rooms.old.levels }
    ensures most { rooms.new.most ≡ rooms.old.most }
{
    if size == 0 {
        return;
    }
    let next = back(base, size);
    rooms.replace(Item {
        key: gap.key,
        room: u64::from(base) - ALIGNMENT * gap.key,
    });
    rooms.insert(Item {
        key: next,
        room: (ALIGNMENT * gap.key + gap.room).saturating_sub(ALIGNMENT * next),
    });
}

/// An allocation ends: the gap before it and the one behind it are one. One of no bytes changes nothing.
pub(crate) fn join(rooms: &mut Rooms, capacity: u32, base: u32, size: u32)
    requires first { IsSome (room_at rooms.old 0) }
    requires back { 0 < size → IsSome (room_at rooms.old (back base size)) }
    requires near { IsNear (room_at rooms.old) }
    requires within { 0 < size → base + size ≤ capacity }
    requires levels { AreEnough rooms.old.levels capacity }
    ensures ends { 0 < size → (key : ℕ) × (room : ℕ) × (rest : ℕ) × layout.Ends capacity (room_at rooms.old) (room_at rooms.new) (segment 0 base size) key room rest }
    ensures same { size ≡ 0 → rooms.new ≡ rooms.old }
    ensures size { cond (nat_lt 0 size) 1 0 + size_of rooms.new ≡ size_of rooms.old }
    ensures levels { rooms.new.levels ≡ rooms.old.levels }
    ensures most { rooms.new.most ≡ rooms.old.most }
{
    if size == 0 {
        return;
    }
    let before = gap_before(rooms, base);
    let next = back(base, size);
    let Some(rest) = rooms.find(next) else {
        unreachable!()
    };
    let to = (ALIGNMENT * next + rest).min(u64::from(capacity));
    rooms.join(
        next,
        Item {
            key: before.key,
            room: to - ALIGNMENT * before.key,
        },
    );
}

/// Whether a gap has so much room.
pub(crate) fn has_room(rooms: &Rooms, size: u32) -> bool
    ensures { IsTrue result ↔ ((key : ℕ) × HasRoom (room_at rooms.now) size key) }
{
    has_room_counted::<Brand>(rooms, size, Blank::new(1))
}

/// The same, with the nodes that are looked at counted.
fn has_room_counted<L: Ledger>(rooms: &Rooms, size: u32, blank: Blank) -> bool
    requires name { blank.name ≡ L.name }
    requires parts { blank.parts ≡ L.parts }
    requires some { 0 < blank.parts }
    ensures { IsTrue result ↔ ((key : ℕ) × HasRoom (room_at rooms.now) size key) }
{
    let mut steps = Steps::<L>::new(blank);
    rooms.lowest(u64::from(size), &mut steps).is_some()
}
