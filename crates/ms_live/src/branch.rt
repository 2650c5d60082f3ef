//! The nodes of the tree by identities.

use crate::gaps::Live;

/// The way to a tree of segments: its oldest one, and how many it has.
#[derive(Clone, Copy, PartialEq, Eq)]
pub struct Branch {
    /// Where the root lies in the arena.
    pub at: u32,
    pub count: u32,
    pub segment: Live,
}

/// The two halves of a tree: the other segments, by the half of its range that their identities lie in.
#[derive(Clone, Copy, PartialEq, Eq)]
pub struct Halves {
    pub lower: Option<Branch>,
    pub upper: Option<Branch>,
}

/// No halves.
pub(crate) const BLANK: Halves = Halves {
    lower: None,
    upper: None,
};
