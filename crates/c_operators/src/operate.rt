//! Operators on two values (C11, 6.5.6 and 6.5.8).

ghost use Rattle.std.specs.Prelude.{◌≡◌};
ghost use Rattle.c_types.specs.Types.{integer, pointer, type_of};
ghost use Rattle.c_typed.specs.refinement.Views.{expr_of};
ghost use Rattle.c_check_types.specs.refinement.Views.{Obeys, Gives, state_of};
ghost use Rattle.c_operators.specs.Operations as words;
ghost use Rattle.c_typed.specs.refinement.FormViews.{form_of, value_pair};

use crate::pointers::{difference, moved, moved_by, ordered_pointers};
use c_check_types::{Checker, Stop};
use c_typed::{BinaryOp, Expr, Form, RelOp, arithmetic, compared};
use c_types::{CType, IntType};
use std::alloc::Global;
use std::rc::Rc;

/// `a + b` (C11, 6.5.6).
pub fn sum<'a>(
    checker: &mut Checker<'a>,
    x: (Box<Expr>, CType),
    y: (Box<Expr>, CType),
) -> Result<Form<'a>, Stop>
    ensures { Obeys form_of (words.sum (value_pair x) (value_pair y)) (state_of checker.old) (state_of checker.new) result }
{
    let (a, t) = x;
    match t {
        CType::Int(t) => int_plus(checker, (a, t), y),
        CType::Pointer(t) => pointer_plus(checker, (a, t), y),
        CType::Void => Err(Stop::NoTyping),
        CType::Struct(_) => Err(Stop::NoTyping),
        CType::Array(_, _) => Err(Stop::NoTyping),
        CType::Function(_) => Err(Stop::NoTyping),
    }
}

/// An integer and another value.
fn int_plus<'a>(
    checker: &mut Checker<'a>,
    x: (Box<Expr>, IntType),
    y: (Box<Expr>, CType),
) -> Result<Form<'a>, Stop>
    ensures { Obeys form_of (words.sum (expr_of x.0.value, integer x.1) (value_pair y)) (state_of checker.old) (state_of checker.new) result }
{
    let (b, u) = y;
    match u {
        CType::Int(u) => Ok(arithmetic(checker.alloc, BinaryOp::Add, x, (b, u))?),
        CType::Pointer(u) => moved_by(checker, x, (b, u)),
        CType::Void => Err(Stop::NoTyping),
        CType::Struct(_) => Err(Stop::NoTyping),
        CType::Array(_, _) => Err(Stop::NoTyping),
        CType::Function(_) => Err(Stop::NoTyping),
    }
}

/// A pointer and another value.
fn pointer_plus<'a>(
    checker: &mut Checker<'a>,
    x: (Box<Expr>, Rc<CType>),
    y: (Box<Expr>, CType),
) -> Result<Form<'a>, Stop>
    ensures { Obeys form_of (words.sum (expr_of x.0.value, pointer (type_of x.1.value)) (value_pair y)) (state_of checker.old) (state_of checker.new) result }
{
    let (b, u) = y;
    match u {
        CType::Int(u) => moved(checker, false, x, (b, u)),
        CType::Void => Err(Stop::NoTyping),
        CType::Struct(_) => Err(Stop::NoTyping),
        CType::Pointer(_) => Err(Stop::NoTyping),
        CType::Array(_, _) => Err(Stop::NoTyping),
        CType::Function(_) => Err(Stop::NoTyping),
    }
}

/// `a - b` (C11, 6.5.6).
pub fn minus<'a>(
    checker: &mut Checker<'a>,
    x: (Box<Expr>, CType),
    y: (Box<Expr>, CType),
) -> Result<Form<'a>, Stop>
    ensures { Obeys form_of (words.minus (value_pair x) (value_pair y)) (state_of checker.old) (state_of checker.new) result }
{
    let (a, t) = x;
    match t {
        CType::Int(t) => int_minus(checker, (a, t), y),
        CType::Pointer(t) => pointer_minus(checker, (a, t), y),
        CType::Void => Err(Stop::NoTyping),
        CType::Struct(_) => Err(Stop::NoTyping),
        CType::Array(_, _) => Err(Stop::NoTyping),
        CType::Function(_) => Err(Stop::NoTyping),
    }
}

/// An integer less another value.
fn int_minus<'a>(
    checker: &Checker<'a>,
    x: (Box<Expr>, IntType),
    y: (Box<Expr>, CType),
) -> Result<Form<'a>, Stop>
    ensures { Obeys form_of (words.minus (expr_of x.0.value, integer x.1) (value_pair y)) (state_of checker.now) (state_of checker.now) result }
{
    let (b, u) = y;
    match u {
        CType::Int(u) => Ok(arithmetic(checker.alloc, BinaryOp::Sub, x, (b, u))?),
        CType::Void => Err(Stop::NoTyping),
        CType::Struct(_) => Err(Stop::NoTyping),
        CType::Pointer(_) => Err(Stop::NoTyping),
        CType::Array(_, _) => Err(Stop::NoTyping),
        CType::Function(_) => Err(Stop::NoTyping),
    }
}

/// A pointer less another value.
fn pointer_minus<'a>(
    checker: &mut Checker<'a>,
    x: (Box<Expr>, Rc<CType>),
    y: (Box<Expr>, CType),
) -> Result<Form<'a>, Stop>
    ensures { Obeys form_of (words.minus (expr_of x.0.value, pointer (type_of x.1.value)) (value_pair y)) (state_of checker.old) (state_of checker.new) result }
{
    let (b, u) = y;
    match u {
        CType::Int(u) => moved(checker, true, x, (b, u)),
        CType::Pointer(u) => difference(checker, x, (b, u)),
        CType::Void => Err(Stop::NoTyping),
        CType::Struct(_) => Err(Stop::NoTyping),
        CType::Array(_, _) => Err(Stop::NoTyping),
        CType::Function(_) => Err(Stop::NoTyping),
    }
}

/// The order of two values (C11, 6.5.8).
pub fn order<'a>(
    alloc: Global,
    op: RelOp,
    x: (Box<Expr>, CType),
    y: (Box<Expr>, CType),
) -> Result<Form<'a>, Stop>
    ensures { Gives form_of (words.order op (value_pair x) (value_pair y)) result }
{
    let (a, t) = x;
    match t {
        CType::Int(t) => int_order(alloc, op, (a, t), y),
        CType::Pointer(t) => pointer_order(alloc, op, (a, t), y),
        CType::Void => Err(Stop::NoTyping),
        CType::Struct(_) => Err(Stop::NoTyping),
        CType::Array(_, _) => Err(Stop::NoTyping),
        CType::Function(_) => Err(Stop::NoTyping),
    }
}

/// An integer beside another value.
fn int_order<'a>(
    alloc: Global,
    op: RelOp,
    x: (Box<Expr>, IntType),
    y: (Box<Expr>, CType),
) -> Result<Form<'a>, Stop>
    ensures { Gives form_of (words.order op (expr_of x.0.value, integer x.1) (value_pair y)) result }
{
    let (b, u) = y;
    match u {
        CType::Int(u) => Ok(compared(alloc, op, x, (b, u))?),
        CType::Void => Err(Stop::NoTyping),
        CType::Struct(_) => Err(Stop::NoTyping),
        CType::Pointer(_) => Err(Stop::NoTyping),
        CType::Array(_, _) => Err(Stop::NoTyping),
        CType::Function(_) => Err(Stop::NoTyping),
    }
}

/// A pointer beside another value.
fn pointer_order<'a>(
    alloc: Global,
    op: RelOp,
    x: (Box<Expr>, Rc<CType>),
    y: (Box<Expr>, CType),
) -> Result<Form<'a>, Stop>
    ensures { Gives form_of (words.order op (expr_of x.0.value, pointer (type_of x.1.value)) (value_pair y)) result }
{
    let (b, u) = y;
    match u {
        CType::Pointer(u) => ordered_pointers(alloc, op, x, (b, u)),
        CType::Void => Err(Stop::NoTyping),
        CType::Int(_) => Err(Stop::NoTyping),
        CType::Struct(_) => Err(Stop::NoTyping),
        CType::Array(_, _) => Err(Stop::NoTyping),
        CType::Function(_) => Err(Stop::NoTyping),
    }
}
