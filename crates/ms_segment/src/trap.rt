//! Why an access or a freeing is a trap.

/// Why an access to the segment memory, or the end of a segment, is a trap. The first check that fails decides, in this
/// order; `Whole` and `Kind` are of `free` alone, `Bounds` of accesses alone, `Provenance` of loads alone, and `Readonly`
/// of stores and of `free`, where it is the last one.
#[derive(Clone, Copy, PartialEq, Eq)]
pub enum SegTrap {
    /// The handle is null.
    Null,
    /// The handle is broken.
    Invalid,
    /// The segment has ended.
    Freed,
    /// A byte lies outside the handle's bound.
    Bounds,
    /// The address of a handle isn't divisible by 16.
    Misaligned,
    /// A byte that is read as data is a piece of a handle.
    Provenance,
    /// The handle that is freed isn't one to the beginning of the whole segment.
    Whole,
    /// The segment was made as another kind.
    Kind,
    /// The handle is sealed.
    Readonly,
}
