//! Jumps (C11, 6.8.6).

/// The jumps that may stand somewhere: `break` in loops and switches, `continue` in loops.
#[derive(Clone, Copy, PartialEq, Eq)]
pub struct Jumps {
    pub breaks: bool,
    pub continues: bool,
}
