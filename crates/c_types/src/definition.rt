//! A struct that is defined.

ghost use Rattle.std.specs.Prelude.{◌≡◌, ◌<◌, ◌≤◌, length};
ghost use Rattle.std.specs.Prelude.{ℕ};

use crate::types::CType;

/// A struct that is defined, and its layout.
#[derive(Drop)]
pub struct Definition {
    pub members: Vec<CType>,
    /// Where each member begins.
    pub offsets: Vec<u64>,
    pub size: u64,
    /// At most 16.
    pub align: u8,
    /// How deep structs lie in it, itself counted.
    pub depth: u64,
    ghost aligned: { (0 < align) × (align ≤ 16) },
    ghost paired: { length offsets.items ≡ length members.items },
}
