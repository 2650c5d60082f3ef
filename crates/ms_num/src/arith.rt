//! Why a division has no result (WebAssembly 1.0, 4.3.2).

/// Why a division has no result.
#[derive(Clone, Copy, PartialEq, Eq)]
pub enum Arith {
    /// The divisor is 0.
    ZeroDivide,
    /// The quotient doesn't fit: the least signed number divided by -1.
    Overflow,
}
