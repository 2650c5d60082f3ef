//! Operators on pointers (C11, 6.5.6, 6.5.8 and 6.5.9).

ghost use Rattle.std.specs.Prelude.{◌≡◌, false, IfOk};
ghost use Rattle.c_types.specs.declared.integers.IntType.TheVariants.{LongLong};
ghost use Rattle.c_types.specs.Types.{pointer, type_of};
ghost use Rattle.c_typed.specs.Tree as to;
ghost use Rattle.c_typed.specs.refinement.Views.{expr_of};
ghost use Rattle.c_check_types.specs.refinement.Views.{Obeys, Gives, state_of};
ghost use Rattle.c_typed.specs.Forms as forms;
ghost use Rattle.c_operators.specs.Operations as words;
ghost use Rattle.c_typed.specs.refinement.FormViews.{form_of, integer_pair};

use c_check_types::{Checker, Stop, same_type};
use c_typed::{Expr, Form, RelOp, at_type, boxed};
use c_types::{CType, IntType};
use std::alloc::{AllocError, Global};
use std::rc::Rc;

/// A pointer on, or back, by an integer; what it leads to has a size.
pub fn moved<'a>(
    checker: &mut Checker<'a>,
    back: bool,
    p: (Box<Expr>, Rc<CType>),
    i: (Box<Expr>, IntType),
) -> Result<Form<'a>, Stop>
    ensures { Obeys form_of (words.moved back (expr_of p.0.value, type_of p.1.value) (integer_pair i)) (state_of checker.old) (state_of checker.new) result }
{
    checker.size_of(&p.1)?;
    Ok(move_of(checker.alloc, back, p, i)?)
}

/// A pointer to what has a size, on, or back, by an integer.
fn move_of<'a>(
    alloc: Global,
    back: bool,
    p: (Box<Expr>, Rc<CType>),
    i: (Box<Expr>, IntType),
) -> Result<Form<'a>, AllocError>
    ensures { IfOk result (λ f. form_of f ≡ forms.value (to.move (type_of p.1.value) back (expr_of p.0.value) (forms.at_type i.1 LongLong (expr_of i.0.value))) (pointer (type_of p.1.value))) }
{
    let (p, t) = p;
    let (i, u) = i;
    let i = at_type(alloc, u, IntType::LongLong, i)?;
    let e = boxed(alloc, Expr::Move(t.share()?, back, p, i))?;
    Ok(Form::Value(e, CType::Pointer(t)))
}

/// A pointer on by an integer that stands first.
pub fn moved_by<'a>(
    checker: &mut Checker<'a>,
    i: (Box<Expr>, IntType),
    p: (Box<Expr>, Rc<CType>),
) -> Result<Form<'a>, Stop>
    ensures { Obeys form_of (words.moved_by (integer_pair i) (expr_of p.0.value, type_of p.1.value)) (state_of checker.old) (state_of checker.new) result }
{
    checker.size_of(&p.1)?;
    Ok(move_by_of(checker.alloc, i, p)?)
}

/// A pointer to what has a size, on by an integer that stands first.
fn move_by_of<'a>(
    alloc: Global,
    i: (Box<Expr>, IntType),
    p: (Box<Expr>, Rc<CType>),
) -> Result<Form<'a>, AllocError>
    ensures { IfOk result (λ f. form_of f ≡ forms.value (to.move_by (type_of p.1.value) (forms.at_type i.1 LongLong (expr_of i.0.value)) (expr_of p.0.value)) (pointer (type_of p.1.value))) }
{
    let (p, t) = p;
    let (i, u) = i;
    let i = at_type(alloc, u, IntType::LongLong, i)?;
    let e = boxed(alloc, Expr::MoveBy(t.share()?, i, p))?;
    Ok(Form::Value(e, CType::Pointer(t)))
}

/// The difference of two pointers, in elements.
pub fn difference<'a>(
    checker: &mut Checker<'a>,
    p: (Box<Expr>, Rc<CType>),
    q: (Box<Expr>, Rc<CType>),
) -> Result<Form<'a>, Stop>
    ensures { Obeys form_of (words.difference (expr_of p.0.value, type_of p.1.value) (expr_of q.0.value, type_of q.1.value)) (state_of checker.old) (state_of checker.new) result }
{
    let (p, t) = p;
    let (q, u) = q;
    if !same_type(&t, &u) {
        return Err(Stop::NoTyping);
    }
    checker.size_of(&t)?;
    let e = boxed(checker.alloc, Expr::Difference(t.share()?, p, q))?;
    Ok(Form::Value(e, CType::Int(IntType::LongLong)))
}

/// Whether two pointers are equal, or differ, or how they are ordered.
fn compared_pointers<'a>(
    alloc: Global,
    op: RelOp,
    p: Box<Expr>,
    q: Box<Expr>,
) -> Result<Form<'a>, AllocError>
    ensures { IfOk result (λ f. form_of f ≡ words.equal_pointers op false (expr_of p.value) (expr_of q.value)) }
{
    let e = boxed(alloc, Expr::ComparePointers(op, p, q))?;
    Ok(Form::Value(e, CType::Int(IntType::Int)))
}

/// Whether an operator asks for equality.
fn is_equal(op: RelOp) -> bool
    ensures { result ≡ words.is_equal op }
{
    match op {
        RelOp::Equal => true,
        RelOp::NotEqual => false,
        RelOp::Less => false,
        RelOp::LessEqual => false,
        RelOp::Greater => false,
        RelOp::GreaterEqual => false,
    }
}

/// The equality of two pointers to a type; pointers to functions have equality alone.
pub fn equal_pointers<'a>(
    alloc: Global,
    op: RelOp,
    to_function: bool,
    p: Box<Expr>,
    q: Box<Expr>,
) -> Result<Form<'a>, AllocError>
    ensures { IfOk result (λ f. form_of f ≡ words.equal_pointers op to_function (expr_of p.value) (expr_of q.value)) }
{
    if !to_function {
        return compared_pointers(alloc, op, p, q);
    }
    let e = boxed(alloc, Expr::SameFunction(is_equal(op), p, q))?;
    Ok(Form::Value(e, CType::Int(IntType::Int)))
}

/// The order of two pointers to one type, which isn't a function's.
pub fn ordered_pointers<'a>(
    alloc: Global,
    op: RelOp,
    p: (Box<Expr>, Rc<CType>),
    q: (Box<Expr>, Rc<CType>),
) -> Result<Form<'a>, Stop>
    ensures { Gives form_of (words.order op (expr_of p.0.value, pointer (type_of p.1.value)) (expr_of q.0.value, pointer (type_of q.1.value))) result }
{
    let (p, t) = p;
    let (q, u) = q;
    if t.is_function() || !same_type(&t, &u) {
        return Err(Stop::NoTyping);
    }
    Ok(compared_pointers(alloc, op, p, q)?)
}
