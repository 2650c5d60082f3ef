//! Numeric instructions (WebAssembly 1.0, 2.4.1).

ghost use Rattle.std.specs.Prelude.{◌≡◌};
ghost use Rattle.ms_module.specs.Accesses.{bits};

/// The width of an integer type (WebAssembly 1.0, 2.3.1).
#[derive(Clone, Copy, PartialEq, Eq)]
pub enum Width {
    /// 32 bits.
    W32,
    /// 64 bits.
    W64,
}

impl Width {
    /// How many bits there are.
    pub fn bits(self) -> u32
        ensures { result ≡ bits self }
    {
        match self {
            Width::W32 => 32,
            Width::W64 => 64,
        }
    }
}

/// An operation on one integer.
#[derive(Clone, Copy, PartialEq, Eq)]
pub enum UnOp {
    Clz,
    Ctz,
    Popcnt,
}

/// An operation on two integers. `S` reads them as signed, `U` as unsigned.
#[derive(Clone, Copy, PartialEq, Eq)]
pub enum BinOp {
    Add,
    Sub,
    Mul,
    DivS,
    DivU,
    RemS,
    RemU,
    And,
    Or,
    Xor,
    Shl,
    ShrS,
    ShrU,
    Rotl,
    Rotr,
}

/// A comparison of two integers. `S` reads them as signed, `U` as unsigned.
#[derive(Clone, Copy, PartialEq, Eq)]
pub enum RelOp {
    Eq,
    Ne,
    LtS,
    LtU,
    GtS,
    GtU,
    LeS,
    LeU,
    GeS,
    GeU,
}

/// A numeric instruction that is no constant (WebAssembly 1.0, 2.4.1), by the width of its operands.
#[derive(Clone, Copy, PartialEq, Eq)]
pub enum Numeric {
    /// `eqz`.
    Eqz(Width),
    /// A comparison.
    Compare(Width, RelOp),
    /// An operation on one integer.
    Unary(Width, UnOp),
    /// An operation on two integers.
    Binary(Width, BinOp),
    /// `i32.wrap_i64`.
    Wrap,
    /// `i64.extend_i32_s`.
    ExtendS,
    /// `i64.extend_i32_u`.
    ExtendU,
}
