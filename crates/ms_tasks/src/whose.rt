//! Whose step an entry is.

/// Whose step an entry is.
#[derive(Clone, Copy, PartialEq, Eq)]
pub enum Whose {
    /// A start function's.
    Start,
    /// The task's of this number.
    Task(u32),
}
