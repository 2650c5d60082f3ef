//! The live segments, and the addresses that handles lead to.

ghost use Rattle.std.specs.Prelude.{◌≡◌, ◌≤◌, ◌^◌, ◌<◌, ◌+◌, ◌-◌, ℕ, IfOk};
ghost use Rattle.ms_reach.specs.refinement.Leading.{EndBelow, IsInside, IsRising, found_in, range_of};

use ms_handle::Handle;
use ms_live::{Gaps, Live};
use ms_segment::Segments;
use ms_tagged::Tagged;
use std::alloc::{AllocError, Global};

/// Addresses from one up to another.
#[derive(Clone, Copy, PartialEq, Eq)]
pub struct Range {
    /// The first one.
    pub from: u32,
    /// The one behind the last.
    pub to: u32,
}

/// The live segments, in the order of their identities.
pub fn live_segments<G: Gaps, T: Tagged>(
    alloc: Global,
    segments: &Segments<G, T>,
) -> Result<Vec<Live>, AllocError>
    ensures { IfOk result (λ live. live.items ≡ segments.now.live) }
{
    let mut live = Vec::new(alloc);
    for i in 0..segments.live() {
        live.push(segments.live_at(i))?;
    }
    Ok(live)
}

/// The live segment of an identity, if there is one.
fn found(live: &[Live], id: u64) -> Option<Live>
    requires { IsRising live.now }
    ensures { result ≡ found_in live.now id }
{
    let mut low = 0;
    let mut high = live.len();
    while low < high {
        let middle = low + (high - low) / 2;
        let segment = live[middle];
        if segment.id == id {
            return Some(segment);
        }
        if segment.id < id {
            low = middle + 1;
        } else {
            high = middle;
        }
    }
    None
}

/// The addresses that a handle leads to: those of its live segment inside its bound.
pub fn range_of(live: &[Live], handle: Handle) -> Option<Range>
    requires rising { IsRising live.now }
    requires end { EndBelow live.now (2 ^ 32 - 1) }
    requires inside { IsInside live.now handle }
    ensures { result ≡ range_of live.now handle }
{
    let Handle::Good {
        id,
        base,
        length,
        ..
    } = handle
    else {
        return None;
    };
    let Some(segment) = found(live, id) else {
        return None;
    };
    Some(range_in(segment, base, length))
}

/// The addresses of a part of a segment.
fn range_in(segment: Live, base: u32, length: u32) -> Range
    requires { segment.base + base + length < 2 ^ 32 }
    ensures from { result.from ≡ segment.base + base }
    ensures to { result.to ≡ segment.base + base + length }
{
    let from = segment.base + base;
    Range {
        from,
        to: from + length,
    }
}

/// The least address below which all segments lie.
pub fn end_of(live: &[Live]) -> u32
    requires { EndBelow live.now (2 ^ 32 - 1) }
    ensures covers { EndBelow live.now result }
    ensures least { (n : ℕ) → EndBelow live.now n → result ≤ n }
{
    let mut end = 0;
    for i in 0..live.len() {
        let segment = live[i];
        end = end.max(segment.base + segment.size);
    }
    end
}
