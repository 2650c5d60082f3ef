//! The judge.

ghost use Rattle.std.specs.Prelude.{◌≡◌, ◌<◌, ◌≤◌, ◌+◌, ◌%◌, ◌⊎◌, IfOk, IsTrue, ◌↔◌, Contains, None, false};
ghost use Rattle.ms_event.specs.Monitor.{most_live, nothing_yet};
ghost use Rattle.ms_monitor.specs.refinement.Colours.{colour_of, live_in};
ghost use Rattle.ms_monitor.specs.refinement.Judging.{Judges};
ghost use Rattle.ms_monitor.specs.refinement.Showing.{IsCovered, IsWhole, LieIn, Shows};
ghost use Rattle.ms_monitor.specs.refinement.Shades.{shade_of};

use crate::colours::{Colour, Colours};
use crate::gaps::{gap_before, has_room, join, reaches, split};
use crate::shades::{Part, Shades};
use ms_event::Event;
use ms_gap_tree::{Item, Rooms};
use ms_live::{MOST_LIVE, levels_for};
use std::alloc::{AllocError, Global};
use std::marker::Model;

/// Why a monitor doesn't go on.
#[derive(Clone, Copy, PartialEq, Eq)]
pub enum Verdict {
    /// The event may not come next.
    Reject,
    /// The event may come next, and there is no memory for the colour or the shade that it makes.
    Memory,
}

/// A colour monitor over so many addresses, after some events. Each call takes a number of steps that grows as the logarithm
/// of what is kept, and none goes over all addresses, colours or shades.
#[derive(Drop)]
pub struct Monitor {
    capacity: u32,
    colours: Colours,
    shades: Shades,
    rooms: Rooms,
}

impl Model for Monitor {
    ghost use Rattle.ms_monitor.specs.refinement.Kept.{IsKept, Kept};

    ghost Value = { Kept };

    ghost view = { λ m. record { capacity = m.capacity; colours = m.colours; shades = m.shades; rooms = m.rooms } };

    ghost invariant = { λ m. IsKept (record { capacity = m.capacity; colours = m.colours; shades = m.shades; rooms = m.rooms }) };
}

impl Monitor {
    /// The monitor before any event, over the addresses from 0 up to `capacity`, which is excluded.
    pub fn new(alloc: Global, capacity: u32) -> Result<Self, AllocError>
        ensures shows { IfOk result (λ m. Shows m nothing_yet) }
        ensures capacity { IfOk result (λ m. m.capacity ≡ capacity) }
    {
        let mut rooms = Rooms::new(alloc, levels_for(capacity), MOST_LIVE + 1)?;
        rooms.insert(Item {
            key: 0,
            room: u64::from(capacity),
        });
        Ok(Monitor {
            capacity,
            colours: Colours::new(alloc),
            shades: Shades::new(alloc),
            rooms,
        })
    }

    /// Goes on by an event, where the colour monitor has a successor. After an error nothing has changed.
    ///
    /// # Errors
    ///
    /// `Reject` exactly where the event may not come next; `Memory` where it may, and there is no memory for the colour or the
    /// shade that it makes.
    pub fn see(&mut self, event: &Event) -> Result<(), Verdict>
        ensures { Judges self.old self.new event.now result }
    {
        match *event {
            Event::Alloc { id, addr, size } => self.alloc(id, addr, size),
            Event::Refused { size } => self.refused(size),
            Event::Seal { id, lo, hi } => self.seal(id, lo, hi),
            Event::Slice {
                sealed,
                id,
                lo,
                hi,
                lo2,
                hi2,
            } => self.slice(
                Part {
                    colour: id,
                    lo,
                    hi,
                    sealed,
                },
                lo2,
                hi2,
            ),
            Event::Read {
                sealed,
                id,
                lo,
                hi,
                addr,
                width,
            } => self.access(
                Part {
                    colour: id,
                    lo,
                    hi,
                    sealed,
                },
                addr,
                width,
            ),
            Event::Write {
                id,
                lo,
                hi,
                addr,
                width,
            } => self.access(
                Part {
                    colour: id,
                    lo,
                    hi,
                    sealed: false,
                },
                addr,
                width,
            ),
            Event::Free { id } => self.free(id),
        }
    }

    /// A new allocation.
    fn alloc(&mut self, id: u64, base: u32, size: u32) -> Result<(), Verdict>
        ensures { Judges self.old self.new (Event.Alloc id base size) result }
    {
        if !may_begin(&self.colours, id, base) {
            return Err(Verdict::Reject);
        }
        let gap = gap_before(&self.rooms, base);
        if !reaches(gap, base, size) {
            return Err(Verdict::Reject);
        }
        let Ok(()) = self.colours.add(id, base, size) else {
            return Err(Verdict::Memory);
        };
        split(&mut self.rooms, gap, base, size);
        Ok(())
    }

    /// An allocation for which there was no room.
    fn refused(&self, size: u32) -> Result<(), Verdict>
        ensures { Judges self.now self.now (Event.Refused size) result }
    {
        if self.colours.live() == MOST_LIVE {
            return Ok(());
        }
        if has_room(&self.rooms, size) {
            return Err(Verdict::Reject);
        }
        Ok(())
    }

    /// The sealed shade beside a writable one.
    fn seal(&mut self, colour: u64, lo: u32, hi: u32) -> Result<(), Verdict>
        ensures { Judges self.old self.new (Event.Seal colour lo hi) result }
    {
        let writable = Part {
            colour,
            lo,
            hi,
            sealed: false,
        };
        if !knows(&self.colours, &self.shades, writable) {
            return Err(Verdict::Reject);
        }
        let part = Part {
            colour,
            lo,
            hi,
            sealed: true,
        };
        let Ok(()) = self.shades.add(part) else {
            return Err(Verdict::Memory);
        };
        Ok(())
    }

    /// A part of a shade, from `lo` to `hi` of its allocation, of the same sort.
    fn slice(&mut self, whole: Part, lo: u32, hi: u32) -> Result<(), Verdict>
        ensures { Judges self.old self.new (Event.Slice whole.sealed whole.colour whole.lo whole.hi lo hi) result }
    {
        if !knows(&self.colours, &self.shades, whole) {
            return Err(Verdict::Reject);
        }
        if !lies_in(lo, hi, whole) {
            return Err(Verdict::Reject);
        }
        let part = Part {
            colour: whole.colour,
            lo,
            hi,
            sealed: whole.sealed,
        };
        let Ok(()) = self.shades.add(part) else {
            return Err(Verdict::Memory);
        };
        Ok(())
    }

    /// An access through a shade, be it a read or, through a writable one, a write.
    fn access(&self, part: Part, address: u32, width: u32) -> Result<(), Verdict>
        ensures read { Judges self.now self.now (Event.Read part.sealed part.colour part.lo part.hi address width) result }
        ensures write { part.sealed ≡ false → Judges self.now self.now (Event.Write part.colour part.lo part.hi address width) result }
    {
        if !knows(&self.colours, &self.shades, part) {
            return Err(Verdict::Reject);
        }
        if !covers(&self.colours, part, address, width) {
            return Err(Verdict::Reject);
        }
        Ok(())
    }

    /// The end of an allocation.
    fn free(&mut self, id: u64) -> Result<(), Verdict>
        ensures { Judges self.old self.new (Event.Free id) result }
    {
        let Some(colour) = self.colours.find(id) else {
            return Err(Verdict::Reject);
        };
        if !colour.is_live {
            return Err(Verdict::Reject);
        }
        join(&mut self.rooms, self.capacity, colour.base, colour.size);
        self.colours.end(id, colour);
        Ok(())
    }
}

/// Whether an allocation of this colour may begin at the address, as far as its size doesn't matter.
fn may_begin(colours: &Colours, id: u64, base: u32) -> bool
    ensures { IsTrue result ↔ ((live_in colours.now < most_live) × (colour_of colours.now id ≡ None) × (base % 16 ≡ 0)) }
{
    colours.live() < MOST_LIVE && colours.find(id).is_none() && base % 16 == 0
}

/// Whether the shade is known, from its allocation or since it was sliced or sealed.
fn knows(colours: &Colours, shades: &Shades, part: Part) -> bool
    ensures { IsTrue result ↔ (IsWhole colours.now (shade_of part) ⊎ Contains shades.now (shade_of part)) }
{
    is_whole(colours, part) || shades.contains(part)
}

/// Whether the part is the writable shade of a whole allocation, be it live or not.
fn is_whole(colours: &Colours, part: Part) -> bool
    ensures { IsTrue result ↔ IsWhole colours.now (shade_of part) }
{
    match colours.find(part.colour) {
        Some(colour) => part.lo == 0 && part.hi == colour.size && !part.sealed,
        None => false,
    }
}

/// Whether a part from `lo` to `hi` lies in another one.
fn lies_in(lo: u32, hi: u32, whole: Part) -> bool
    ensures { IsTrue result ↔ ((whole.lo ≤ lo) × (lo ≤ hi) × (hi ≤ whole.hi)) }
{
    whole.lo <= lo && lo <= hi && hi <= whole.hi
}

/// Whether so many addresses are painted with the colour of the shade, at places inside it.
fn covers(colours: &Colours, part: Part, address: u32, width: u32) -> bool
    ensures { IsTrue result ↔ IsCovered colours.now (shade_of part) address width }
{
    if width == 0 {
        return true;
    }
    match colours.find(part.colour) {
        Some(colour) => colour.is_live && lie_in(colour, part, address, width),
        None => false,
    }
}

/// Whether so many addresses are those of an allocation, at places inside the part.
fn lie_in(colour: Colour, part: Part, address: u32, width: u32) -> bool
    ensures { IsTrue result ↔ LieIn colour (shade_of part) address width }
{
    let base = u64::from(colour.base);
    let from = u64::from(address);
    let to = from + u64::from(width);
    base + u64::from(part.lo) <= from
        && to <= base + u64::from(part.hi)
        && to <= base + u64::from(colour.size)
}
