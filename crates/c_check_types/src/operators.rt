//! Binary operators by the operands that they take.

ghost use Rattle.std.specs.Prelude.{◌≡◌};
ghost use Rattle.c_check_types.specs.Operators as words;

use c_typed::{BinaryOp, RelOp};

/// A binary operator as typing sees it (C11, 6.5.5 to 6.5.14).
#[derive(Clone, Copy, PartialEq, Eq)]
pub enum Operator {
    And,
    Or,
    Equality(RelOp),
    Order(RelOp),
    /// On integers alone.
    Arithmetic(BinaryOp),
    Shift(BinaryOp),
    /// On integers, or a pointer and an integer.
    Plus,
    /// On integers, a pointer and an integer, or two pointers.
    Minus,
}

/// The operator that is written so.
pub fn operator_of(op: c_tree::BinaryOp) -> Operator
    ensures { result ≡ words.operator_of op }
{
    match op {
        c_tree::BinaryOp::Or => Operator::Or,
        c_tree::BinaryOp::And => Operator::And,
        c_tree::BinaryOp::BitOr => Operator::Arithmetic(BinaryOp::Or),
        c_tree::BinaryOp::BitXor => Operator::Arithmetic(BinaryOp::Xor),
        c_tree::BinaryOp::BitAnd => Operator::Arithmetic(BinaryOp::And),
        c_tree::BinaryOp::Equal => Operator::Equality(RelOp::Equal),
        c_tree::BinaryOp::NotEqual => Operator::Equality(RelOp::NotEqual),
        c_tree::BinaryOp::Less => Operator::Order(RelOp::Less),
        c_tree::BinaryOp::Greater => Operator::Order(RelOp::Greater),
        c_tree::BinaryOp::AtMost => Operator::Order(RelOp::LessEqual),
        c_tree::BinaryOp::AtLeast => Operator::Order(RelOp::GreaterEqual),
        c_tree::BinaryOp::ShiftLeft => Operator::Shift(BinaryOp::ShiftLeft),
        c_tree::BinaryOp::ShiftRight => Operator::Shift(BinaryOp::ShiftRight),
        c_tree::BinaryOp::Add => Operator::Plus,
        c_tree::BinaryOp::Sub => Operator::Minus,
        c_tree::BinaryOp::Mul => Operator::Arithmetic(BinaryOp::Mul),
        c_tree::BinaryOp::Div => Operator::Arithmetic(BinaryOp::Div),
        c_tree::BinaryOp::Rem => Operator::Arithmetic(BinaryOp::Rem),
    }
}
