//! The least place for a segment, by a walk along a list.

ghost use Rattle.std.specs.Prelude.{◌≡◌, ◌+◌, ◌<◌, ◌^◌};
ghost use Rattle.ms_live.specs.Overlap.{overlaps};
ghost use Rattle.ms_live.specs.Place.{IsPlace};
ghost use Rattle.ms_live.specs.refinement.ByAddress.{AreFrom, past};

use crate::gaps::{ALIGNMENT, Live};

/// The least multiple of 16 at which `n` addresses below `capacity` lie in no segment of the list, which is in the order of
/// their addresses.
pub(crate) fn least_place(placed: &[Live], capacity: u32, n: u32) -> Option<u32>
    requires { AreFrom 0 placed.now }
    ensures { IsPlace placed.now capacity n result }
{
    if n == 0 {
        return Some(0);
    }
    let size = u64::from(n);
    let mut candidate = 0;
    for i in 0..placed.len() {
        candidate = past(candidate, size, placed[i]);
    }
    if candidate + size <= u64::from(capacity) {
        Some(candidate as u32)
    } else {
        None
    }
}

/// A candidate for the place of `n` addresses, or the first place behind the segment if they overlap.
fn past(candidate: u64, n: u64, segment: Live) -> u64
    requires { candidate + n < 2 ^ 64 }
    ensures place { result ≡ past n candidate segment }
    ensures near { candidate < 2 ^ 34 → result < 2 ^ 34 }
{
    if overlaps(segment, candidate, n) {
        end(segment).next_multiple_of(ALIGNMENT)
    } else {
        candidate
    }
}

/// Whether one of the `n` addresses from the place on lies in the segment.
fn overlaps(segment: Live, place: u64, n: u64) -> bool
    requires { place + n < 2 ^ 64 }
    ensures { result ≡ overlaps place n segment }
{
    segment.size > 0 && u64::from(segment.base) < place + n && place < end(segment)
}

/// The first address behind the segment.
fn end(segment: Live) -> u64
    ensures { result ≡ segment.base + segment.size }
{
    u64::from(segment.base) + u64::from(segment.size)
}
