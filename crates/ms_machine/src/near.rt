//! Moving a handle, in the cases that programs move most.

ghost use Rattle.std.specs.Prelude.{◌≡◌, IfSome, pos, negsuc, ◌*ℤ◌, ◌+ℤ◌, ◌≤ℤ◌};
ghost use Rattle.ms_handle.specs.Handle as handle;

use ms_handle::Handle;

/// The greatest offset of these cases: what 32 bits hold.
const MOST: i64 = 0xFFFF_FFFF;

/// Moves a good handle by `delta * scale` bytes, where its offsets before and behind aren't negative and, as `delta`, within
/// 32 bits; else `None`.
#[inline(always)]
pub(crate) fn near(h: Handle, delta: i64, scale: u32) -> Option<Handle>
    ensures { IfSome result (λ moved. moved ≡ handle.add h delta scale) }
{
    let Handle::Good {
        sealed,
        id,
        base,
        length,
        offset,
    } = h
    else {
        return None;
    };
    let Some(offset) = moved(offset, delta, scale) else {
        return None;
    };
    Some(Handle::Good {
        sealed,
        id,
        base,
        length,
        offset,
    })
}

/// The offset behind the move, in the same cases.
#[inline(always)]
fn moved(offset: i64, delta: i64, scale: u32) -> Option<i64>
    ensures { IfSome result (λ to. (to ≡ offset +ℤ delta *ℤ pos scale) × (pos 0 ≤ℤ to) × (to ≤ℤ pos 4294967295)) }
{
    if offset < 0 || offset > MOST {
        return None;
    }
    let Ok(delta) = i32::try_from(delta) else {
        return None;
    };
    let to = offset + distance(delta, scale);
    if to < 0 || to > MOST {
        return None;
    }
    Some(to)
}

/// How far a move goes.
#[inline(always)]
fn distance(delta: i32, scale: u32) -> i64
    ensures is { result ≡ delta *ℤ pos scale }
    ensures low { negsuc 9223372034707292159 ≤ℤ result }
    ensures high { result ≤ℤ pos 9223372030412324865 }
{
    i64::from(delta) * i64::from(scale)
}
