//! Why there is no crew.

/// Why there is no crew.
#[derive(Clone, Copy, Debug, PartialEq, Eq)]
pub enum Refusal {
    /// The task of this number: its module exports no function of this name, or one of another type.
    Task(u32),
    /// Memory has run out.
    Memory,
}
