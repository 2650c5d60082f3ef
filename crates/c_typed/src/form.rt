//! What an expression is before it is used (C11, 6.3.2.1 and 6.3.2.3).

use crate::tree::{Expr, Place};
use c_types::{CType, IntType};

/// How much is allocated.
#[derive(Drop)]
pub enum Amount {
    /// So many bytes, as malloc has it.
    Bytes(Box<Expr>),
    /// So many parts of so many bytes each, as calloc has it.
    Product(Box<Expr>, Box<Expr>),
}

/// What an expression is before it is used.
#[derive(Drop)]
pub enum Form<'a> {
    Place(Box<Place>, CType),
    /// A value of an integer type or a pointer type, or a void expression.
    Value(Box<Expr>, CType),
    /// A function, by a pointer to it, and its type.
    Designator(Box<Expr>, CType),
    /// A string literal.
    Text(&'a [u8]),
    /// The integer constant 0, which is a null constant, too.
    Zero(IntType),
    /// `NULL`.
    Null,
    /// A call of malloc or calloc, whose type is to come.
    Allocation(Amount),
}
