//! Live segments as lists: the plain form.

ghost use Rattle.std.specs.Prelude.{◌≡◌, ◌<◌, ◌≤◌, vec_len, vec_capacity};
ghost use Rattle.ms_live.specs.declared.gaps.TheConstants.{MOST_LIVE};
ghost use Rattle.ms_live.specs.refinement.ByAddress.{by_address, no_later, placed_with};

use crate::gaps::{Gaps, Live, MOST_LIVE};
use crate::least_gap::least_place;
use std::alloc::{AllocError, Global};

/// The live segments as a list in the order of their identities, and those that have bytes as another one, in the order of their
/// addresses. To find a segment, or a place, it goes along a list once.
#[derive(Drop)]
pub struct ListGaps {
    capacity: u32,
    live: Vec<Live>,
    placed: Vec<Live>,
    ghost few: { vec_len live ≤ MOST_LIVE },
    ghost reserved: { MOST_LIVE ≤ vec_capacity live },
    ghost in_order: { placed.items ≡ by_address live.items },
    ghost room: { MOST_LIVE ≤ vec_capacity placed },
}

/// How many segments, from the front, begin no later than an address.
fn no_later(placed: &[Live], address: u32) -> usize
    ensures { result ≡ no_later address placed.now }
{
    let mut count = 0;
    while count < placed.len() && placed[count].base <= address {
        count += 1;
    }
    count
}

/// Puts a segment among those that have bytes, if it has some.
fn put_in(placed: &mut Vec<Live>, segment: Live)
    requires { vec_len placed.old < vec_capacity placed.old }
    ensures items { placed.new.items ≡ placed_with segment placed.old.items }
    ensures capacity { vec_capacity placed.old ≤ vec_capacity placed.new }
{
    if segment.size == 0 {
        return;
    }
    let at = no_later(placed.as_slice(), segment.base);
    // There is room for it, so that this takes no memory.
    let _ = placed.insert(at, segment);
}

impl Gaps for ListGaps {
    ghost addresses = { λ gaps. gaps.capacity };

    ghost live = { λ gaps. gaps.live.items };

    fn new(alloc: Global, capacity: u32) -> Result<Self, AllocError> {
        Ok(ListGaps {
            capacity,
            live: Vec::with_capacity(alloc, MOST_LIVE as usize)?,
            placed: Vec::with_capacity(alloc, MOST_LIVE as usize)?,
        })
    }

    fn place(&self, n: u32) -> Option<u32> {
        least_place(self.placed.as_slice(), self.capacity, n)
    }

    fn enter(&mut self, segment: Live) {
        put_in(&mut self.placed, segment);
        self.live.push_reserved(segment);
    }

    fn leave(&mut self, id: u64) {
        self.live.retain(|segment| segment.id != id);
        self.placed.retain(|segment| segment.id != id);
    }

    fn find(&self, id: u64) -> Option<Live> {
        self.live.iter().copied().find(|segment| segment.id == id)
    }

    fn count(&self) -> u32 {
        self.live.len() as u32
    }

    fn nth(&self, i: u32) -> Live {
        self.live[i as usize]
    }
}
