//! How much is reached, as numbers.

/// How much is reached.
#[derive(Clone, Copy, PartialEq, Eq)]
pub struct Reach {
    /// How many live segments have a byte that is.
    pub segments: u32,
    /// How many bytes of segments are.
    pub bytes: u32,
}
