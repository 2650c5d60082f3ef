//! The nodes of a tree of rooms.

/// What a tree keeps.
#[derive(Clone, Copy, PartialEq, Eq)]
pub struct Item {
    /// What the item is found by.
    pub key: u64,
    /// The greater it is, the nearer to the root.
    pub room: u64,
}

/// The way to a tree that has an item at least. It carries the item at the root, so that a search passes by a tree without a look at it.
#[derive(Clone, Copy, PartialEq, Eq)]
pub struct Link {
    /// Where the root lies in the arena.
    pub at: u32,
    pub item: Item,
}

/// The two halves of a tree.
#[derive(Clone, Copy, PartialEq, Eq)]
pub struct Node {
    pub left: Option<Link>,
    pub right: Option<Link>,
}

/// No halves.
pub(crate) const BLANK: Node = Node {
    left: None,
    right: None,
};
