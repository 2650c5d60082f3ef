//! The masks of granules: which bytes are pieces of a handle.

ghost use Rattle.std.specs.Prelude.{◌≡◌, ◌↔◌, ◌≤◌, ◌<◌, ◌+◌, ◌*◌, ◌/◌, ◌%◌, ◌^◌, IsTrue, length};
ghost use Rattle.ms_tagged.specs.refinement.Granules.{Clears, Forgets, HoldData, piece_bit};

use crate::lanes::wipe;

/// How many bytes a granule has.
pub(crate) const GRANULE: usize = 16;

/// Whether the byte at a place is a piece.
pub(crate) fn is_piece(masks: &[u16], at: usize) -> bool
    requires { at / 16 < length masks.now }
    ensures { IsTrue result ↔ (piece_bit masks.now at ≡ 1) }
{
    (masks[at / GRANULE] >> (at % GRANULE)) & 1 == 1
}

/// Whether the bytes from one up to another are there and none is a piece. They are eight at most, so that they lie in one
/// granule or in two.
#[inline(always)]
pub(crate) fn hold_data(masks: &[u16], from: usize, to: usize) -> bool
    requires some { from < to }
    requires few { to ≤ from + 8 }
    ensures { IsTrue result ↔ HoldData masks.now from to }
{
    let (first, last) = (from / GRANULE, (to - 1) / GRANULE);
    if last >= masks.len() {
        return false;
    }
    if first == last && masks[first] == 0 {
        return true;
    }
    let place = (from % GRANULE) as u32;
    bits_from(masks[first], masks[last], place, (to - from) as u32) == 0
}

/// So many bits of two masks in a row, from a place in the first one on.
#[inline(always)]
fn bits_from(first: u16, second: u16, place: u32, count: u32) -> u32
    requires within { place < 16 }
    requires few { count ≤ 8 }
    ensures { result ≡ (second * 2 ^ 16 + first) / 2 ^ place % 2 ^ count }
{
    let both = (u32::from(second) << 16) | u32::from(first);
    (both >> place) & ((1 << count) - 1)
}

/// Says in the masks that the bytes from one up to another are no pieces any more.
pub(crate) fn forget(masks: &mut [u16], from: usize, to: usize)
    requires order { from ≤ to }
    requires within { to ≤ 16 * length masks.old }
    ensures { Forgets masks.old masks.new from to }
{
    let (first, last) = (from / GRANULE, to / GRANULE);
    if first == last {
        forget_in(masks, first, from % GRANULE, to % GRANULE);
        return;
    }
    forget_in(masks, first, from % GRANULE, GRANULE);
    forget_granules(masks, first + 1, last);
    forget_in(masks, last, 0, to % GRANULE);
}

/// The same of at most eight bytes, in whose granules there are seldom any pieces.
#[inline(always)]
pub(crate) fn forget_few(masks: &mut [u16], from: usize, to: usize)
    requires some { from < to }
    requires few { to ≤ from + 8 }
    requires within { to ≤ 16 * length masks.old }
    ensures { Forgets masks.old masks.new from to }
{
    if masks[from / GRANULE] == 0 && masks[(to - 1) / GRANULE] == 0 {
        return;
    }
    forget(masks, from, to);
}

/// The same of the bytes of one granule.
fn forget_in(masks: &mut [u16], granule: usize, from: usize, to: usize)
    requires order { from ≤ to }
    requires within { to ≤ 16 }
    requires there { from < to → granule < length masks.old }
    ensures { Forgets masks.old masks.new (16 * granule + from) (16 * granule + to) }
{
    if from < to {
        masks[granule] = without(masks[granule], from as u32, to as u32);
    }
}

/// The same of all bytes of some granules.
fn forget_granules(masks: &mut [u16], from: usize, to: usize)
    requires order { from ≤ to }
    requires within { to ≤ length masks.old }
    ensures { Forgets masks.old masks.new (16 * from) (16 * to) }
{
    wipe(masks, from, to);
}

/// The mask with the bits from one up to another made 0.
fn without(mask: u16, from: u32, to: u32) -> u16
    requires order { from ≤ to }
    requires within { to ≤ 16 }
    ensures { Clears mask result from to }
{
    let mask = u32::from(mask);
    ((mask >> to << to) | (mask & ((1 << from) - 1))) as u16
}
