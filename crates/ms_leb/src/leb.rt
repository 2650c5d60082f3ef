//! Why bytes begin with no LEB128 number.

/// Why there is no LEB128 number at the front of bytes (WebAssembly 1.0, 5.2.2).
#[derive(Clone, Copy, PartialEq, Eq)]
pub enum Leb {
    /// The bytes end inside the number.
    Short,
    /// There are too many bytes, or the unused bits of the last one are wrong.
    Long,
}
