//! Small expressions, put together.

ghost use Rattle.std.specs.Prelude.{◌≡◌, IfOk, Some};
ghost use Rattle.c_types.specs.Types.{pointer, scalar_of, type_of};
ghost use Rattle.c_typed.specs.Forms as words;
ghost use Rattle.c_typed.specs.Tree as tree;
ghost use Rattle.c_typed.specs.refinement.Views.{expr_of};

use crate::tree::Expr;
use c_types::{CType, IntType, Scalar, same_integer};
use std::alloc::{AllocError, Global};

/// The value in a box.
pub fn boxed<T: Drop>(alloc: Global, value: T) -> Result<Box<T>, AllocError>
    ensures { IfOk result (λ b. b.value ≡ value) }
{
    Ok(Box::new(alloc, value)?)
}

/// A number of a type, by its bits. Takes no memory.
pub fn number(t: IntType, bits: u64) -> Expr
    ensures { expr_of result ≡ tree.number t bits }
{
    Expr::Number(t, bits)
}

/// The expression, thrown away. `Err`: want of memory.
pub fn discarded(alloc: Global, e: Expr) -> Result<Expr, AllocError>
    ensures { IfOk result (λ r. expr_of r ≡ tree.discard (expr_of e)) }
{
    Ok(Expr::Discard(boxed(alloc, e)?))
}

/// An integer at a type (C11, 6.3.1.3).
pub fn at_type(
    alloc: Global,
    from: IntType,
    to: IntType,
    e: Box<Expr>,
) -> Result<Box<Expr>, AllocError>
    ensures { IfOk result (λ r. expr_of r.value ≡ words.at_type from to (expr_of e.value)) }
{
    if same_integer(from, to) {
        Ok(e)
    } else {
        boxed(alloc, Expr::Convert(from, to, e))
    }
}

/// The null pointer to a type (C11, 6.3.2.3).
pub fn null_of(t: &CType) -> Expr
    ensures { expr_of result ≡ words.null_of (type_of t.now) }
{
    if t.is_function() {
        Expr::NoFunction
    } else {
        Expr::Null
    }
}

/// The null pointer to a type, in a box.
pub fn null_at(alloc: Global, t: &CType) -> Result<Box<Expr>, AllocError>
    ensures { IfOk result (λ r. expr_of r.value ≡ words.null_of (type_of t.now)) }
{
    boxed(alloc, null_of(t))
}

/// The number 0 of a type, in a box.
pub fn zero_of(alloc: Global, t: IntType) -> Result<Box<Expr>, AllocError>
    ensures { IfOk result (λ r. expr_of r.value ≡ tree.number t 0) }
{
    boxed(alloc, Expr::Number(t, 0))
}

/// What a pointer to a type is.
pub fn pointer_scalar(t: &CType) -> Scalar
    ensures { Some result ≡ scalar_of (pointer (type_of t.now)) }
{
    if t.is_function() {
        Scalar::Function
    } else {
        Scalar::Pointer
    }
}
