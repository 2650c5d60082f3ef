//! Moving, slicing, sealing and comparing handles.

ghost use Rattle.std.specs.Prelude.{◌≡◌, IsTrue, ◌↔◌, pos, negsuc, ◌+ℤ◌, ◌≤ℤ◌};
ghost use Rattle.ms_handle.specs.Handle.{HasBounds, add, difference, eq, farthest, moved, seal, slice};

use crate::handle::{Apart, Handle};

/// How far a handle may be from its base, in bytes either way: 2^40.
const FARTHEST: i64 = 0x100_0000_0000;

/// Moves a handle by `delta * scale` bytes. Further than 2^40 bytes from its base it is broken. The null handle is
/// broken by any move but that by 0 bytes.
pub fn add(h: Handle, delta: i64, scale: u32) -> Handle
    requires { HasBounds h }
    ensures moved { result ≡ add h delta scale }
    ensures bounds { HasBounds result }
{
    if delta == 0 || scale == 0 {
        return h;
    }
    match (h, delta.checked_mul(i64::from(scale))) {
        (
            Handle::Good {
                sealed,
                id,
                base,
                length,
                offset,
            },
            Some(distance),
        ) => moved(sealed, id, base, length, offset, distance),
        _ => Handle::Broken,
    }
}

/// The handle at `offset + distance`, or broken where that is too far.
fn moved(sealed: bool, id: u64, base: u32, length: u32, offset: i64, distance: i64) -> Handle
    requires { HasBounds (Handle.Good sealed id base length offset) }
    ensures moved { result ≡ moved (Handle.Good sealed id base length offset) distance }
    ensures bounds { HasBounds result }
{
    match offset.checked_add(distance) {
        Some(offset) if -FARTHEST <= offset && offset <= FARTHEST => Handle::Good {
            sealed,
            id,
            base,
            length,
            offset,
        },
        _ => Handle::Broken,
    }
}

/// The handle of the `len` bytes from `from` bytes behind the handle on, if they lie within its bound, else broken.
/// Whether the segment is live isn't looked at.
pub fn slice(h: Handle, from: u32, len: u32) -> Handle
    requires { HasBounds h }
    ensures sliced { result ≡ slice h from len }
    ensures bounds { HasBounds result }
{
    match h {
        Handle::Good {
            sealed,
            id,
            base,
            length,
            offset,
        } => {
            let start = offset + i64::from(from);
            if start < 0 || start + i64::from(len) > i64::from(length) {
                return Handle::Broken;
            }
            Handle::Good {
                sealed,
                id,
                base: base + start as u32,
                length: len,
                offset: 0,
            }
        }
        _ => Handle::Broken,
    }
}

/// The handle sealed: no store and no free goes through it, nor through what is moved or sliced from it. A sealed handle
/// stays as it is, as do the null and the broken one.
pub fn seal(h: Handle) -> Handle
    requires { HasBounds h }
    ensures sealed { result ≡ seal h }
    ensures bounds { HasBounds result }
{
    match h {
        Handle::Good {
            id,
            base,
            length,
            offset,
            ..
        } => Handle::Good {
            sealed: true,
            id,
            base,
            length,
            offset,
        },
        _ => h,
    }
}

/// Whether both are null, or both are good and at one place of one segment, sealed or not.
pub fn eq(a: Handle, b: Handle) -> bool
    requires a { HasBounds a }
    requires b { HasBounds b }
    ensures { result ≡ eq a b }
{
    match (a, b) {
        (Handle::Null, Handle::Null) => true,
        (
            Handle::Good {
                id,
                base,
                offset,
                ..
            },
            Handle::Good {
                id: other,
                base: other_base,
                offset: other_offset,
                ..
            },
        ) => id == other && place(base, offset) == place(other_base, other_offset),
        _ => false,
    }
}

/// The place in the segment that lies `offset` bytes behind `base`.
fn place(base: u32, offset: i64) -> i64
    requires low { negsuc 1099511627775 ≤ℤ offset }
    requires high { offset ≤ℤ farthest }
    ensures { result ≡ pos base +ℤ offset }
{
    i64::from(base) + offset
}

/// Whether the handle is null.
pub fn is_null(h: Handle) -> bool
    ensures { IsTrue result ↔ (h ≡ Handle.Null) }
{
    matches!(h, Handle::Null)
}

/// How many bytes the first handle is behind the second one. `Apart` exactly where they aren't both good and of one
/// segment.
pub fn diff(a: Handle, b: Handle) -> Result<i64, Apart>
    requires a { HasBounds a }
    requires b { HasBounds b }
    ensures { result ≡ difference a b }
{
    match (a, b) {
        (
            Handle::Good {
                id,
                base,
                offset,
                ..
            },
            Handle::Good {
                id: other,
                base: other_base,
                offset: other_offset,
                ..
            },
        ) if id == other => Ok(place(base, offset) - place(other_base, other_offset)),
        _ => Err(Apart),
    }
}
