//! Operators on two operands (C11, 6.5.9 and 6.5.15).

ghost use Rattle.std.specs.Prelude.{◌≡◌, IfOk};
ghost use Rattle.c_types.specs.Types.{pointer, type_of};
ghost use Rattle.c_typed.specs.Tree as to;
ghost use Rattle.c_typed.specs.refinement.Views.{expr_of};
ghost use Rattle.c_check_types.specs.refinement.Views.{Gives};
ghost use Rattle.c_typed.specs.refinement.FormViews.{form_of, integer_pair};
ghost use Rattle.c_operators.specs.refinement.Views.{both_of};
ghost use Rattle.c_operators.specs.Operations as words;

use crate::beside::{Both, beside};
use crate::pointers::equal_pointers;
use c_check_types::Stop;
use c_typed::{Expr, Form, RelOp, at_type, boxed, compared, pointer_scalar};
use c_types::{CType, IntType, Scalar};
use std::alloc::{AllocError, Global};
use std::rc::Rc;

/// Equality (C11, 6.5.9).
pub fn equality<'a>(alloc: Global, op: RelOp, x: Form, y: Form) -> Result<Form<'a>, Stop>
    ensures { Gives form_of (words.equality op (form_of x.entry) (form_of y.entry)) result }
{
    let p = beside(alloc, x, y)?;
    equality_of(alloc, op, p)
}

/// The equality of two operands that go with each other.
fn equality_of<'a>(alloc: Global, op: RelOp, p: Both) -> Result<Form<'a>, Stop>
    ensures { Gives form_of (words.equality_of op (both_of p)) result }
{
    match p {
        Both::Integers(a, t, b, u) => Ok(compared(alloc, op, (a, t), (b, u))?),
        Both::Pointers(t, a, b) => Ok(equal_pointers(alloc, op, t.is_function(), a, b)?),
        Both::Voids(_, _) => Err(Stop::NoTyping),
    }
}

/// `c ? x : y` (C11, 6.5.15).
pub fn choice<'a>(alloc: Global, c: Box<Expr>, x: Form, y: Form) -> Result<Form<'a>, Stop>
    ensures { Gives form_of (words.choice (expr_of c.value) (form_of x.entry) (form_of y.entry)) result }
{
    let p = beside(alloc, x, y)?;
    Ok(choice_of(alloc, c, p)?)
}

/// The choice of two operands that go with each other.
fn choice_of<'a>(alloc: Global, c: Box<Expr>, p: Both) -> Result<Form<'a>, AllocError>
    ensures { IfOk result (λ f. form_of f ≡ words.choice_of (expr_of c.value) (both_of p)) }
{
    match p {
        Both::Integers(a, t, b, u) => chosen_integer(alloc, c, (a, t), (b, u)),
        Both::Pointers(t, a, b) => chosen_pointer(alloc, c, t, a, b),
        Both::Voids(a, b) => Ok(Form::Value(chosen(alloc, None, c, a, b)?, CType::Void)),
    }
}

/// The choice of two values.
fn chosen(
    alloc: Global,
    scalar: Option<Scalar>,
    c: Box<Expr>,
    a: Box<Expr>,
    b: Box<Expr>,
) -> Result<Box<Expr>, AllocError>
    ensures { IfOk result (λ e. expr_of e.value ≡ to.choose scalar (expr_of c.value) (expr_of a.value) (expr_of b.value)) }
{
    boxed(alloc, Expr::Choose(scalar, c, a, b))
}

/// The choice of two integers, at their common type.
fn chosen_integer<'a>(
    alloc: Global,
    c: Box<Expr>,
    x: (Box<Expr>, IntType),
    y: (Box<Expr>, IntType),
) -> Result<Form<'a>, AllocError>
    ensures { IfOk result (λ f. form_of f ≡ words.chosen_integer (expr_of c.value) (integer_pair x) (integer_pair y)) }
{
    let (a, t) = x;
    let (b, u) = y;
    let v = t.common(u);
    let a = at_type(alloc, t, v, a)?;
    let b = at_type(alloc, u, v, b)?;
    let e = chosen(alloc, Some(Scalar::Int(v)), c, a, b)?;
    Ok(Form::Value(e, CType::Int(v)))
}

/// The choice of two pointers to a type.
fn chosen_pointer<'a>(
    alloc: Global,
    c: Box<Expr>,
    t: Rc<CType>,
    a: Box<Expr>,
    b: Box<Expr>,
) -> Result<Form<'a>, AllocError>
    ensures { IfOk result (λ f. form_of f ≡ words.chosen (expr_of c.value) (pointer (type_of t.value)) (expr_of a.value) (expr_of b.value)) }
{
    let scalar = pointer_scalar(&t);
    let e = chosen(alloc, Some(scalar), c, a, b)?;
    Ok(Form::Value(e, CType::Pointer(t)))
}
