//! Operations of typed trees, at the types that they work at.

/// An operation on two integers of one promoted type (C11, 6.5.5 to 6.5.12). A shift's count is converted to the type of
/// what is shifted, which leaves it the same modulo the width.
#[derive(Clone, Copy, PartialEq, Eq)]
pub enum BinaryOp {
    Add,
    Sub,
    Mul,
    Div,
    Rem,
    And,
    Or,
    Xor,
    ShiftLeft,
    ShiftRight,
}

/// An operation on one integer of a promoted type (C11, 6.5.3.3). A `+` is the promotion alone.
#[derive(Clone, Copy, PartialEq, Eq)]
pub enum UnaryOp {
    Negate,
    Complement,
}

/// A comparison (C11, 6.5.8 and 6.5.9).
#[derive(Clone, Copy, PartialEq, Eq)]
pub enum RelOp {
    Equal,
    NotEqual,
    Less,
    LessEqual,
    Greater,
    GreaterEqual,
}

/// A variable.
#[derive(Clone, Copy, PartialEq, Eq)]
pub enum Variable {
    /// By its slot: the parameters and the variables of a function are numbered in the order of their declarators.
    Local(u32),
    /// At file scope, numbered in the order of their declarators.
    Global(u32),
}
