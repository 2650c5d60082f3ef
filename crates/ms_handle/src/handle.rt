//! Handles as data.

/// What a segment was made as; it is freed as the same.
#[derive(Clone, Copy, PartialEq, Eq)]
pub enum Kind {
    /// Allocated on the heap.
    Heap,
    /// Allocated in a frame.
    Frame,
}

/// A handle.
#[derive(Clone, Copy, PartialEq, Eq)]
pub enum Handle {
    /// The null handle.
    Null,
    /// A handle that is no longer good for anything: moved too far, sliced past its bound, or torn in memory.
    Broken,
    /// A handle into a segment.
    Good {
        /// Whether the handle is sealed: no store and no free goes through it, nor through one that is made of it. It
        /// stands first, beside the tag of one byte, where it takes no room of its own.
        sealed: bool,
        /// The identity of the segment, counted from 1 and never used again.
        id: u64,
        /// The place in the segment where the handle's bound begins.
        base: u32,
        /// How many bytes the bound has.
        length: u32,
        /// The place of the handle, counted from `base`. It may lie outside the bound, within 2^40 either way.
        offset: i64,
    },
}

// A handle takes 32 bytes, which it does only with the two single bytes, the tag and `sealed`, side by side.
const _: () = prove!(size_of::<Handle>() == 32);

/// Two handles that aren't into one segment, so that they have no difference.
#[derive(Clone, Copy, PartialEq, Eq)]
pub struct Apart;
