//! Masks of granules, eight at a time.
ghost use Rattle.std.specs.Prelude.{◌≡◌, ◌-◌, ◌≤◌, ◌++◌, length, take, drop, replicate};
ghost use Rattle.std.specs.List.{list_any};
ghost use Rattle.ms_tagged.specs.refinement.Lanes.{has_piece};

use std::simd::prelude::*;

/// How many masks are looked at at once.
const LANES: usize = 8;

/// Whether some mask from one place up to another isn't 0.
pub fn any_piece(masks: &[u16], from: usize, to: usize) -> bool
    requires order { from ≤ to }
    requires within { to ≤ length masks.now }
    ensures { result ≡ has_piece (take (to - from) (drop from masks.now)) }
{
    let (blocks, rest) = masks[from..to].as_chunks::<LANES>();
    any_block_set(blocks) || any_set(rest)
}

/// Whether some mask of some block isn't 0.
fn any_block_set(blocks: &[[u16; LANES]]) -> bool
    ensures { result ≡ list_any has_piece blocks.now }
{
    blocks.iter().any(|block| is_block_set(block))
}

/// Whether some mask isn't 0.
fn any_set(masks: &[u16]) -> bool
    ensures { result ≡ has_piece masks.now }
{
    masks.iter().any(|mask| *mask != 0)
}

/// Whether some of eight masks isn't 0.
#[inline(always)]
fn is_block_set(block: &[u16; LANES]) -> bool
    ensures { result ≡ has_piece block.now }
{
    u16x8::from_array(*block)
        .simd_ne(u16x8::splat(0))
        .to_bitmask()
        != 0
}

/// Makes each mask from one place up to another 0. All others stay.
pub fn wipe(masks: &mut [u16], from: usize, to: usize)
    requires order { from ≤ to }
    requires within { to ≤ length masks.old }
    ensures { masks.new ≡ take from masks.old ++ replicate (to - from) 0 ++ drop to masks.old }
{
    wipe_all(&mut masks[from..to]);
}

/// Makes each mask 0.
fn wipe_all(masks: &mut [u16])
    ensures { masks.new ≡ replicate (length masks.old) 0 }
{
    let mut at = 0;
    while masks.len() - at >= LANES {
        u16x8::splat(0).copy_to_slice(&mut masks[at..]);
        at += LANES;
    }
    for rest in at..masks.len() {
        masks[rest] = 0;
    }
}
