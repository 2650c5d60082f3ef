//! What the readers of both formats allow. The definitions have the same in `specs/Bounds.antt`.

/// How many blocks may be in one another.
pub const MOST_BLOCKS: usize = 500;

/// How many locals a function may declare, its parameters not among them.
pub const MOST_LOCALS: usize = 50_000;
