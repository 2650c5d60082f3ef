//! Assignments (C11, 6.5.16, 6.5.2.4 and 6.5.3.1).

ghost use Rattle.std.specs.Prelude.{◌≡◌};
ghost use Rattle.c_types.specs.Types.{integer, pointer, type_of};
ghost use Rattle.c_typed.specs.refinement.Views.{expr_of, place_of};
ghost use Rattle.c_check_types.specs.refinement.Views.{Obeys, state_of};
ghost use Rattle.c_check_exprs.specs.Expressions as words;
ghost use Rattle.c_typed.specs.refinement.FormViews.{form_of, integer_pair, place_pair};

use c_check_types::{Checker, Operator, Stop, same_type};
use c_conversions::{as_place, assigned_to, integer_of};
use c_tree::{AssignOp, StepOp};
use c_typed::{BinaryOp, Expr, Form, Place, at_type, boxed};
use c_types::{CType, IntType};
use std::rc::Rc;

/// A struct from a place of that struct (C11, 6.5.16.1).
fn copied<'a>(
    checker: &mut Checker<'a>,
    n: u32,
    p: Box<Place>,
    q: (Box<Place>, CType),
) -> Result<Form<'a>, Stop>
    ensures { Obeys form_of (words.copied n (place_of p.value) (place_pair q)) (state_of checker.old) (state_of checker.new) result }
{
    let (q, t) = q;
    if !same_type(&CType::Struct(n), &t) {
        return Err(Stop::NoTyping);
    }
    checker.size_of(&t)?;
    let e = boxed(checker.alloc, Expr::Copy(n, p, q))?;
    Ok(Form::Value(e, CType::Void))
}

/// A value into a place that holds one.
fn stored<'a>(
    checker: &mut Checker<'a>,
    p: Box<Place>,
    t: CType,
    f: Form<'a>,
) -> Result<Form<'a>, Stop>
    ensures { Obeys form_of (words.stored (place_of p.value) (type_of t) (form_of f.entry)) (state_of checker.old) (state_of checker.new) result }
{
    let Some(scalar) = t.scalar() else {
        return Err(Stop::NoTyping);
    };
    let e = assigned_to(checker, &t, f)?;
    let e = boxed(checker.alloc, Expr::Assign(scalar, p, e))?;
    Ok(Form::Value(e, t))
}

/// `=` (C11, 6.5.16.1).
fn assigned<'a>(
    checker: &mut Checker<'a>,
    p: (Box<Place>, CType),
    f: Form<'a>,
) -> Result<Form<'a>, Stop>
    ensures { Obeys form_of (words.assigned (place_pair p) (form_of f.entry)) (state_of checker.old) (state_of checker.new) result }
{
    let (p, t) = p;
    match t {
        CType::Struct(n) => {
            let q = as_place(f)?;
            copied(checker, n, p, q)
        }
        CType::Int(t) => stored(checker, p, CType::Int(t), f),
        CType::Pointer(t) => stored(checker, p, CType::Pointer(t), f),
        CType::Void => Err(Stop::NoTyping),
        CType::Array(_, _) => Err(Stop::NoTyping),
        CType::Function(_) => Err(Stop::NoTyping),
    }
}

/// The operation of `op=` and its type, of the types of the place and of the operand.
fn worked(op: Operator, t: IntType, u: IntType) -> Option<(BinaryOp, IntType)>
    ensures { result ≡ words.worked op t u }
{
    match op {
        Operator::Arithmetic(op) => Some((op, t.common(u))),
        Operator::Shift(op) => Some((op, t.promoted())),
        Operator::Plus => Some((BinaryOp::Add, t.common(u))),
        Operator::Minus => Some((BinaryOp::Sub, t.common(u))),
        Operator::And => None,
        Operator::Or => None,
        Operator::Equality(_) => None,
        Operator::Order(_) => None,
    }
}

/// Whether an operator moves a pointer back.
fn goes_back(op: Operator) -> Option<bool>
    ensures { result ≡ words.goes_back op }
{
    match op {
        Operator::Plus => Some(false),
        Operator::Minus => Some(true),
        Operator::Arithmetic(_) => None,
        Operator::Shift(_) => None,
        Operator::And => None,
        Operator::Or => None,
        Operator::Equality(_) => None,
        Operator::Order(_) => None,
    }
}

/// `op=`, `++` or `--` on a place; whether it gives the old value.
fn updated<'a>(
    checker: &mut Checker<'a>,
    old: bool,
    op: Operator,
    p: (Box<Place>, CType),
    v: (Box<Expr>, IntType),
) -> Result<Form<'a>, Stop>
    ensures { Obeys form_of (words.updated old op (place_pair p) (integer_pair v)) (state_of checker.old) (state_of checker.new) result }
{
    let (p, t) = p;
    match t {
        CType::Int(t) => integer_updated(checker, old, op, (p, t), v),
        CType::Pointer(t) => pointer_updated(checker, old, op, (p, t), v),
        CType::Void => Err(Stop::NoTyping),
        CType::Struct(_) => Err(Stop::NoTyping),
        CType::Array(_, _) => Err(Stop::NoTyping),
        CType::Function(_) => Err(Stop::NoTyping),
    }
}

/// The same on a place of an integer type.
fn integer_updated<'a>(
    checker: &Checker<'a>,
    old: bool,
    op: Operator,
    p: (Box<Place>, IntType),
    v: (Box<Expr>, IntType),
) -> Result<Form<'a>, Stop>
    ensures { Obeys form_of (words.updated old op (place_of p.0.value, integer p.1) (integer_pair v)) (state_of checker.now) (state_of checker.now) result }
{
    let (p, t) = p;
    let (e, u) = v;
    let Some((op, w)) = worked(op, t, u) else {
        return Err(Stop::NoTyping);
    };
    let e = at_type(checker.alloc, u, w, e)?;
    let e = boxed(checker.alloc, Expr::Update(old, t, op, w, p, e))?;
    Ok(Form::Value(e, CType::Int(t)))
}

/// The same on a place of a pointer type.
fn pointer_updated<'a>(
    checker: &mut Checker<'a>,
    old: bool,
    op: Operator,
    p: (Box<Place>, Rc<CType>),
    v: (Box<Expr>, IntType),
) -> Result<Form<'a>, Stop>
    ensures { Obeys form_of (words.updated old op (place_of p.0.value, pointer (type_of p.1.value)) (integer_pair v)) (state_of checker.old) (state_of checker.new) result }
{
    let (p, t) = p;
    let (e, u) = v;
    let Some(back) = goes_back(op) else {
        return Err(Stop::NoTyping);
    };
    checker.size_of(&t)?;
    let e = at_type(checker.alloc, u, IntType::LongLong, e)?;
    let e = boxed(checker.alloc, Expr::Advance(old, t.share()?, back, p, e))?;
    Ok(Form::Value(e, CType::Pointer(t)))
}

/// `=` or `op=` (C11, 6.5.16).
pub fn assigning<'a>(
    checker: &mut Checker<'a>,
    op: Option<Operator>,
    p: (Box<Place>, CType),
    f: Form<'a>,
) -> Result<Form<'a>, Stop>
    ensures { Obeys form_of (words.assigning op (place_pair p) (form_of f.entry)) (state_of checker.old) (state_of checker.new) result }
{
    match op {
        None => assigned(checker, p, f),
        Some(op) => {
            let v = integer_of(checker, f)?;
            updated(checker, false, op, p, v)
        }
    }
}

/// By 1 (C11, 6.5.2.4 and 6.5.3.1).
pub fn stepped<'a>(
    checker: &mut Checker<'a>,
    old: bool,
    op: Operator,
    f: Form<'a>,
) -> Result<Form<'a>, Stop>
    ensures { Obeys form_of (words.stepped old op (form_of f.entry)) (state_of checker.old) (state_of checker.new) result }
{
    let p = as_place(f)?;
    let one = boxed(checker.alloc, Expr::Number(IntType::Int, 1))?;
    updated(checker, old, op, p, (one, IntType::Int))
}

/// The operator of `++` and `--`.
pub fn step_operator(op: StepOp) -> Operator
    ensures { result ≡ words.step_operator op }
{
    match op {
        StepOp::Increment => Operator::Plus,
        StepOp::Decrement => Operator::Minus,
    }
}

/// The operator of `op=`; `None`: `=`.
pub fn assign_operator(op: AssignOp) -> Option<Operator>
    ensures { result ≡ words.assign_operator op }
{
    match op {
        AssignOp::Plain => None,
        AssignOp::Mul => Some(Operator::Arithmetic(BinaryOp::Mul)),
        AssignOp::Div => Some(Operator::Arithmetic(BinaryOp::Div)),
        AssignOp::Rem => Some(Operator::Arithmetic(BinaryOp::Rem)),
        AssignOp::Add => Some(Operator::Plus),
        AssignOp::Sub => Some(Operator::Minus),
        AssignOp::ShiftLeft => Some(Operator::Shift(BinaryOp::ShiftLeft)),
        AssignOp::ShiftRight => Some(Operator::Shift(BinaryOp::ShiftRight)),
        AssignOp::BitAnd => Some(Operator::Arithmetic(BinaryOp::And)),
        AssignOp::BitXor => Some(Operator::Arithmetic(BinaryOp::Xor)),
        AssignOp::BitOr => Some(Operator::Arithmetic(BinaryOp::Or)),
    }
}
