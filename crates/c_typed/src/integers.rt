//! Operators on integers (C11, 6.3.1.1, 6.3.1.8, 6.5.3.3, 6.5.5 to 6.5.12).

ghost use Rattle.std.specs.Prelude.{◌≡◌, IfOk};
ghost use Rattle.c_typed.specs.refinement.Views.{expr_of};
ghost use Rattle.c_typed.specs.Forms as words;
ghost use Rattle.c_typed.specs.refinement.FormViews.{form_of, integer_pair};

use crate::form::Form;
use crate::make::{at_type, boxed};
use crate::ops::{BinaryOp, RelOp};
use crate::tree::Expr;
use c_types::{CType, IntType};
use std::alloc::{AllocError, Global};

/// An integer at its promoted type (C11, 6.3.1.1).
pub fn promoted_value(alloc: Global, v: (Box<Expr>, IntType)) -> Result<Box<Expr>, AllocError>
    ensures { IfOk result (λ r. expr_of r.value ≡ words.promoted_value (integer_pair v)) }
{
    let (e, t) = v;
    at_type(alloc, t, t.promoted(), e)
}

/// An operation at the common type of both operands (C11, 6.3.1.8).
pub fn arithmetic<'a>(
    alloc: Global,
    op: BinaryOp,
    x: (Box<Expr>, IntType),
    y: (Box<Expr>, IntType),
) -> Result<Form<'a>, AllocError>
    ensures { IfOk result (λ f. form_of f ≡ words.arithmetic op (integer_pair x) (integer_pair y)) }
{
    let c = x.1.common(y.1);
    at_one_type(alloc, op, c, x, y)
}

/// A shift at the promoted type of the left operand (C11, 6.5.7).
pub fn shift<'a>(
    alloc: Global,
    op: BinaryOp,
    x: (Box<Expr>, IntType),
    y: (Box<Expr>, IntType),
) -> Result<Form<'a>, AllocError>
    ensures { IfOk result (λ f. form_of f ≡ words.shift op (integer_pair x) (integer_pair y)) }
{
    let c = x.1.promoted();
    at_one_type(alloc, op, c, x, y)
}

/// An operation at one type.
fn at_one_type<'a>(
    alloc: Global,
    op: BinaryOp,
    c: IntType,
    x: (Box<Expr>, IntType),
    y: (Box<Expr>, IntType),
) -> Result<Form<'a>, AllocError>
    ensures { IfOk result (λ f. form_of f ≡ words.at_one_type op c (integer_pair x) (integer_pair y)) }
{
    let (a, t) = x;
    let (b, u) = y;
    let a = at_type(alloc, t, c, a)?;
    let b = at_type(alloc, u, c, b)?;
    let e = boxed(alloc, Expr::Binary(op, c, a, b))?;
    Ok(Form::Value(e, CType::Int(c)))
}

/// A comparison at the common type (C11, 6.5.8 and 6.5.9).
pub fn compared<'a>(
    alloc: Global,
    op: RelOp,
    x: (Box<Expr>, IntType),
    y: (Box<Expr>, IntType),
) -> Result<Form<'a>, AllocError>
    ensures { IfOk result (λ f. form_of f ≡ words.compared op (integer_pair x) (integer_pair y)) }
{
    let (a, t) = x;
    let (b, u) = y;
    let c = t.common(u);
    let a = at_type(alloc, t, c, a)?;
    let b = at_type(alloc, u, c, b)?;
    let e = boxed(alloc, Expr::Compare(op, c, a, b))?;
    Ok(Form::Value(e, CType::Int(IntType::Int)))
}
