//! The operators of expressions.

ghost use Rattle.std.specs.Prelude.{◌≡◌, ◌≤◌};
ghost use Rattle.c_tree.specs.Operators.{binary_level, left_of, makes, operand_of, right_of};

/// A binary operator (C11, 6.5.5 to 6.5.14).
#[derive(Clone, Copy)]
pub enum BinaryOp {
    Or,
    And,
    BitOr,
    BitXor,
    BitAnd,
    Equal,
    NotEqual,
    Less,
    Greater,
    AtMost,
    AtLeast,
    ShiftLeft,
    ShiftRight,
    Add,
    Sub,
    Mul,
    Div,
    Rem,
}

/// An assignment operator (C11, 6.5.16).
#[derive(Clone, Copy)]
pub enum AssignOp {
    Plain,
    Mul,
    Div,
    Rem,
    Add,
    Sub,
    ShiftLeft,
    ShiftRight,
    BitAnd,
    BitXor,
    BitOr,
}

/// What stands between two operands.
#[derive(Clone, Copy)]
pub enum Infix {
    Comma,
    Assign(AssignOp),
    Binary(BinaryOp),
}

/// An operator in front of its operand (C11, 6.5.3).
#[derive(Clone, Copy)]
pub enum UnaryOp {
    AddressOf,
    Deref,
    Plus,
    Minus,
    Complement,
    Not,
    Increment,
    Decrement,
    /// `sizeof` of an expression.
    SizeOf,
}

/// `++` or `--` behind its operand (C11, 6.5.2.4).
#[derive(Clone, Copy)]
pub enum StepOp {
    Increment,
    Decrement,
}

/// How a member is named (C11, 6.5.2.3).
#[derive(Clone, Copy)]
pub enum Access {
    /// `.`
    Dot,
    /// `->`
    Arrow,
}

impl BinaryOp {
    /// How tightly it binds.
    pub fn level(self) -> u8
        ensures level { result ≡ binary_level self }
        ensures small { result ≤ 12 }
    {
        match self {
            BinaryOp::Or => 3,
            BinaryOp::And => 4,
            BinaryOp::BitOr => 5,
            BinaryOp::BitXor => 6,
            BinaryOp::BitAnd => 7,
            BinaryOp::Equal | BinaryOp::NotEqual => 8,
            BinaryOp::Less | BinaryOp::Greater | BinaryOp::AtMost | BinaryOp::AtLeast => 9,
            BinaryOp::ShiftLeft | BinaryOp::ShiftRight => 10,
            BinaryOp::Add | BinaryOp::Sub => 11,
            BinaryOp::Mul | BinaryOp::Div | BinaryOp::Rem => 12,
        }
    }
}

impl Infix {
    /// The level of what it makes.
    pub fn makes(self) -> u8
        ensures { result ≡ makes self }
    {
        match self {
            Infix::Comma => 0,
            Infix::Assign(_) => 1,
            Infix::Binary(op) => op.level(),
        }
    }

    /// The least level of its left operand.
    pub fn left(self) -> u8
        ensures { result ≡ left_of self }
    {
        match self {
            Infix::Comma => 0,
            Infix::Assign(_) => 14,
            Infix::Binary(op) => op.level(),
        }
    }

    /// The least level of its right operand.
    pub fn right(self) -> u8
        ensures { result ≡ right_of self }
    {
        match self {
            Infix::Comma => 1,
            Infix::Assign(_) => 1,
            Infix::Binary(op) => op.level() + 1,
        }
    }
}

impl UnaryOp {
    /// The least level of its operand.
    pub fn operand(self) -> u8
        ensures { result ≡ operand_of self }
    {
        match self {
            UnaryOp::Increment | UnaryOp::Decrement | UnaryOp::SizeOf => 14,
            UnaryOp::AddressOf
            | UnaryOp::Deref
            | UnaryOp::Plus
            | UnaryOp::Minus
            | UnaryOp::Complement
            | UnaryOp::Not => 13,
        }
    }
}
