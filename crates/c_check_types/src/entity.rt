//! What names stand for.

/// What a name stands for (C11, 6.2.3).
#[derive(Clone, Copy, PartialEq, Eq)]
pub enum Entity {
    /// A parameter or a variable of a function, by its slot.
    Local(u32),
    /// A variable at file scope, by its number.
    Global(u32),
    /// A function, by its number.
    Function(u32),
    /// An enumerator, by its number, an int, by its bits.
    Constant(u32),
}
