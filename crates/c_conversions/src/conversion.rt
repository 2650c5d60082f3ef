//! How an expression is used (C11, 6.3).

ghost use Rattle.std.specs.Prelude.{◌≡◌, IfOk, Some};
ghost use Rattle.c_types.specs.Types.{integer, pointer, scalar_of, struct, type_of};
ghost use Rattle.c_typed.specs.Tree as to;
ghost use Rattle.c_typed.specs.refinement.Views.{expr_of, place_of};
ghost use Rattle.c_conversions.specs.Conversions as words;
ghost use Rattle.c_typed.specs.refinement.FormViews.{amount_of, boxed_expr, form_of, integer_pair, place_pair, value_pair};
ghost use Rattle.c_check_types.specs.State.{followed, given, pure};
ghost use Rattle.c_check_types.specs.refinement.Views.{Obeys, Gives, state_of};

use c_check_types::{Checker, Stop, same_type};
use c_typed::{Amount, Expr, Form, Made, Place, at_type, boxed, null_at, pointer_scalar, zero_of};
use c_types::{CType, IntType, Scalar};
use std::alloc::{AllocError, Global};
use std::rc::Rc;

/// A value with its type; NULL has none.
fn plain(alloc: Global, f: Form) -> Result<(Box<Expr>, CType), Stop>
    ensures { Gives value_pair (words.plain (form_of f.entry)) result }
{
    match f {
        Form::Value(e, t) => Ok((e, t)),
        Form::Zero(t) => Ok((zero_of(alloc, t)?, CType::Int(t))),
        Form::Place(_, _) => Err(Stop::NoTyping),
        Form::Designator(_, _) => Err(Stop::NoTyping),
        Form::Text(_) => Err(Stop::NoTyping),
        Form::Null => Err(Stop::NoTyping),
        Form::Allocation(_) => Err(Stop::NoTyping),
    }
}

fn as_integer(v: (Box<Expr>, CType)) -> Result<(Box<Expr>, IntType), Stop>
    ensures { Gives integer_pair (words.as_integer (expr_of v.0.value, type_of v.1)) result }
{
    let (e, t) = v;
    match t {
        CType::Int(t) => Ok((e, t)),
        CType::Void => Err(Stop::NoTyping),
        CType::Struct(_) => Err(Stop::NoTyping),
        CType::Pointer(_) => Err(Stop::NoTyping),
        CType::Array(_, _) => Err(Stop::NoTyping),
        CType::Function(_) => Err(Stop::NoTyping),
    }
}

/// A pointer, and what it leads to.
fn as_pointer(v: (Box<Expr>, CType)) -> Result<(Box<Expr>, CType), Stop>
    ensures { Gives value_pair (words.as_pointer (expr_of v.0.value, type_of v.1)) result }
{
    let (e, t) = v;
    match t {
        CType::Pointer(t) => Ok((e, t.share()?)),
        CType::Int(_) => Err(Stop::NoTyping),
        CType::Void => Err(Stop::NoTyping),
        CType::Struct(_) => Err(Stop::NoTyping),
        CType::Array(_, _) => Err(Stop::NoTyping),
        CType::Function(_) => Err(Stop::NoTyping),
    }
}

/// A place with its type.
pub fn as_place(f: Form) -> Result<(Box<Place>, CType), Stop>
    ensures { Gives place_pair (words.as_place (form_of f.entry)) result }
{
    match f {
        Form::Place(p, t) => Ok((p, t)),
        Form::Value(_, _) => Err(Stop::NoTyping),
        Form::Designator(_, _) => Err(Stop::NoTyping),
        Form::Text(_) => Err(Stop::NoTyping),
        Form::Zero(_) => Err(Stop::NoTyping),
        Form::Null => Err(Stop::NoTyping),
        Form::Allocation(_) => Err(Stop::NoTyping),
    }
}

/// A condition: an integer or a pointer (C11, 6.8.4.1).
fn condition(alloc: Global, v: (Box<Expr>, CType)) -> Result<Box<Expr>, Stop>
    ensures { Gives boxed_expr (words.condition (expr_of v.0.value, type_of v.1)) result }
{
    let (e, t) = v;
    match t {
        CType::Int(t) => Ok(integer_condition(alloc, e, t)?),
        CType::Pointer(t) => Ok(boxed(alloc, Expr::Truth(pointer_scalar(&t), e))?),
        CType::Void => Err(Stop::NoTyping),
        CType::Struct(_) => Err(Stop::NoTyping),
        CType::Array(_, _) => Err(Stop::NoTyping),
        CType::Function(_) => Err(Stop::NoTyping),
    }
}

fn integer_condition(alloc: Global, e: Box<Expr>, t: IntType) -> Result<Box<Expr>, AllocError>
    ensures { IfOk result (λ r. Some (expr_of r.value) ≡ words.condition (expr_of e.value, integer t)) }
{
    if t.bits() <= 32 {
        Ok(e)
    } else {
        boxed(alloc, Expr::Truth(Scalar::Int(t), e))
    }
}

/// A form as an integer type, as if by assignment (C11, 6.5.16.1).
fn to_integer(alloc: Global, t: IntType, f: Form) -> Result<Box<Expr>, Stop>
    ensures { Gives boxed_expr (words.to_integer t (form_of f.entry)) result }
{
    match f {
        Form::Value(e, u) => value_to_integer(alloc, t, e, u),
        Form::Zero(u) => Ok(at_type(alloc, u, t, zero_of(alloc, u)?)?),
        Form::Place(_, _) => Err(Stop::NoTyping),
        Form::Designator(_, _) => Err(Stop::NoTyping),
        Form::Text(_) => Err(Stop::NoTyping),
        Form::Null => Err(Stop::NoTyping),
        Form::Allocation(_) => Err(Stop::NoTyping),
    }
}

fn value_to_integer(alloc: Global, t: IntType, e: Box<Expr>, u: CType) -> Result<Box<Expr>, Stop>
    ensures { Gives boxed_expr (words.to_integer t (words.value (expr_of e.value) (type_of u))) result }
{
    match u {
        CType::Int(u) => Ok(at_type(alloc, u, t, e)?),
        CType::Void => Err(Stop::NoTyping),
        CType::Struct(_) => Err(Stop::NoTyping),
        CType::Pointer(_) => Err(Stop::NoTyping),
        CType::Array(_, _) => Err(Stop::NoTyping),
        CType::Function(_) => Err(Stop::NoTyping),
    }
}

/// A form as a pointer to a type.
fn to_pointer(alloc: Global, t: &CType, f: Form) -> Result<Box<Expr>, Stop>
    ensures { Gives boxed_expr (words.to_pointer (type_of t.now) (form_of f.entry)) result }
{
    match f {
        Form::Value(e, u) => value_to_pointer(t, e, u),
        Form::Zero(_) => Ok(null_at(alloc, t)?),
        Form::Null => Ok(null_at(alloc, t)?),
        Form::Place(_, _) => Err(Stop::NoTyping),
        Form::Designator(_, _) => Err(Stop::NoTyping),
        Form::Text(_) => Err(Stop::NoTyping),
        Form::Allocation(_) => Err(Stop::NoTyping),
    }
}

fn value_to_pointer(t: &CType, e: Box<Expr>, u: CType) -> Result<Box<Expr>, Stop>
    ensures { Gives boxed_expr (words.to_pointer (type_of t.now) (words.value (expr_of e.value) (type_of u))) result }
{
    match u {
        CType::Pointer(u) => {
            if same_type(t, &u) {
                Ok(e)
            } else {
                Err(Stop::NoTyping)
            }
        }
        CType::Int(_) => Err(Stop::NoTyping),
        CType::Void => Err(Stop::NoTyping),
        CType::Struct(_) => Err(Stop::NoTyping),
        CType::Array(_, _) => Err(Stop::NoTyping),
        CType::Function(_) => Err(Stop::NoTyping),
    }
}

/// A string literal that decays: it is made before `main` (C11, 6.4.5).
fn literal_pointer<'a>(checker: &mut Checker<'a>, bytes: &[u8]) -> Result<Form<'a>, Stop>
    ensures { Obeys form_of (words.literal_pointer bytes.now) (state_of checker.old) (state_of checker.new) result }
{
    let number = checker.literals;
    let next = number.checked_add(1).ok_or(Stop::Memory)?;
    let mut kept = Vec::new(checker.alloc);
    kept.extend_from_slice(bytes)?;
    checker.made.push(Made::Literal(kept))?;
    checker.literals = next;
    let e = boxed(checker.alloc, Expr::Literal(number))?;
    let char_type = Rc::new(checker.alloc, CType::Int(IntType::Char))?;
    Ok(Form::Value(e, CType::Pointer(char_type)))
}

/// What a place holds: an array decays, another place is read, a struct's isn't (C11, 6.3.2.1).
fn read_place<'a>(checker: &mut Checker<'a>, p: Box<Place>, t: CType) -> Result<Form<'a>, Stop>
    ensures { Obeys form_of (words.read_place (place_of p.value) (type_of t)) (state_of checker.old) (state_of checker.new) result }
{
    match t {
        CType::Array(t, n) => {
            let e = boxed(checker.alloc, Expr::Decay(t.share()?, n, p))?;
            Ok(Form::Value(e, CType::Pointer(t)))
        }
        CType::Int(t) => {
            let e = boxed(checker.alloc, Expr::Read(Scalar::Int(t), p))?;
            Ok(Form::Value(e, CType::Int(t)))
        }
        CType::Pointer(t) => {
            let e = boxed(checker.alloc, Expr::Read(pointer_scalar(&t), p))?;
            Ok(Form::Value(e, CType::Pointer(t)))
        }
        CType::Void => Err(Stop::NoTyping),
        CType::Struct(_) => Err(Stop::NoTyping),
        CType::Function(_) => Err(Stop::NoTyping),
    }
}

/// An operand: a value, the constant 0 or NULL.
pub fn operand<'a>(checker: &mut Checker<'a>, f: Form<'a>) -> Result<Form<'a>, Stop>
    ensures { Obeys form_of (words.operand (form_of f.entry)) (state_of checker.old) (state_of checker.new) result }
{
    match f {
        Form::Place(p, t) => read_place(checker, p, t),
        Form::Value(e, t) => Ok(Form::Value(e, t)),
        Form::Designator(e, t) => Ok(Form::Value(e, CType::Pointer(Rc::new(checker.alloc, t)?))),
        Form::Text(bytes) => literal_pointer(checker, bytes),
        Form::Zero(t) => Ok(Form::Zero(t)),
        Form::Null => Ok(Form::Null),
        Form::Allocation(_) => Err(Stop::NoTyping),
    }
}

/// A value and its type.
pub fn value_of<'a>(checker: &mut Checker<'a>, f: Form<'a>) -> Result<(Box<Expr>, CType), Stop>
    ensures { Obeys value_pair (words.value_of (form_of f.entry)) (state_of checker.old) (state_of checker.new) result }
{
    let v = operand(checker, f)?;
    plain(checker.alloc, v)
}

/// An integer and its type.
pub fn integer_of<'a>(checker: &mut Checker<'a>, f: Form<'a>) -> Result<(Box<Expr>, IntType), Stop>
    ensures { Obeys integer_pair (words.integer_of (form_of f.entry)) (state_of checker.old) (state_of checker.new) result }
{
    let v = value_of(checker, f)?;
    as_integer(v)
}

/// A pointer, and what it leads to.
pub fn pointer_of<'a>(checker: &mut Checker<'a>, f: Form<'a>) -> Result<(Box<Expr>, CType), Stop>
    ensures { Obeys value_pair (words.pointer_of (form_of f.entry)) (state_of checker.old) (state_of checker.new) result }
{
    let v = value_of(checker, f)?;
    as_pointer(v)
}

/// A condition.
pub fn condition_of<'a>(checker: &mut Checker<'a>, f: Form<'a>) -> Result<Box<Expr>, Stop>
    ensures { Obeys boxed_expr (words.condition_of (form_of f.entry)) (state_of checker.old) (state_of checker.new) result }
{
    let v = value_of(checker, f)?;
    condition(checker.alloc, v)
}

/// A form as a type, as if by assignment (C11, 6.5.16.1).
pub fn assigned_to<'a>(checker: &mut Checker<'a>, t: &CType, f: Form<'a>) -> Result<Box<Expr>, Stop>
    ensures { Obeys boxed_expr (words.assigned_to (type_of t.now) (form_of f.entry)) (state_of checker.old) (state_of checker.new) result }
{
    match t {
        CType::Int(t) => {
            let v = operand(checker, f)?;
            to_integer(checker.alloc, *t, v)
        }
        CType::Pointer(t) => pointer_from(checker, t, f),
        CType::Void => Err(Stop::NoTyping),
        CType::Struct(_) => Err(Stop::NoTyping),
        CType::Array(_, _) => Err(Stop::NoTyping),
        CType::Function(_) => Err(Stop::NoTyping),
    }
}

/// A form as a pointer to a type; malloc's call becomes one to a type with a size.
pub fn pointer_from<'a>(
    checker: &mut Checker<'a>,
    t: &CType,
    f: Form<'a>,
) -> Result<Box<Expr>, Stop>
    ensures { Obeys boxed_expr (words.assigned_to (pointer (type_of t.now)) (form_of f.entry)) (state_of checker.old) (state_of checker.new) result }
{
    match f {
        Form::Allocation(a) => allocated(checker, t, a),
        Form::Place(p, u) => operand_to_pointer(checker, t, Form::Place(p, u)),
        Form::Value(e, u) => operand_to_pointer(checker, t, Form::Value(e, u)),
        Form::Designator(e, u) => operand_to_pointer(checker, t, Form::Designator(e, u)),
        Form::Text(bytes) => operand_to_pointer(checker, t, Form::Text(bytes)),
        Form::Zero(u) => operand_to_pointer(checker, t, Form::Zero(u)),
        Form::Null => operand_to_pointer(checker, t, Form::Null),
    }
}

/// Malloc's or calloc's call as a pointer to a type with a size.
fn allocated<'a>(checker: &mut Checker<'a>, t: &CType, a: Amount) -> Result<Box<Expr>, Stop>
    ensures { Obeys boxed_expr (words.allocated (type_of t.now) (amount_of a)) (state_of checker.old) (state_of checker.new) result }
{
    checker.size_of(t)?;
    Ok(allocation_of(checker.alloc, t.share()?, a)?)
}

/// An allocation of elements of a type.
fn allocation_of(alloc: Global, t: CType, a: Amount) -> Result<Box<Expr>, AllocError>
    ensures { IfOk result (λ e. expr_of e.value ≡ words.allocation_of (type_of t) (amount_of a)) }
{
    match a {
        Amount::Bytes(e) => boxed(alloc, Expr::Malloc(t, e)),
        Amount::Product(n, e) => boxed(alloc, Expr::Calloc(t, n, e)),
    }
}

/// An operand as a pointer to a type.
fn operand_to_pointer<'a>(
    checker: &mut Checker<'a>,
    t: &CType,
    f: Form<'a>,
) -> Result<Box<Expr>, Stop>
    ensures { Obeys boxed_expr (λ s. followed (words.operand (form_of f.entry) s) (λ v. given (words.to_pointer (type_of t.now) v))) (state_of checker.old) (state_of checker.new) result }
{
    let v = operand(checker, f)?;
    to_pointer(checker.alloc, t, v)
}

/// A form that is thrown away (C11, 6.3.2.2).
pub fn thrown_away<'a>(checker: &mut Checker<'a>, f: Form<'a>) -> Result<Box<Expr>, Stop>
    ensures { Obeys boxed_expr (words.thrown_away (form_of f.entry)) (state_of checker.old) (state_of checker.new) result }
{
    match f {
        Form::Place(p, t) => place_thrown_away(checker, p, t),
        Form::Value(e, t) => value_thrown_away(checker, Form::Value(e, t)),
        Form::Designator(e, t) => value_thrown_away(checker, Form::Designator(e, t)),
        Form::Text(bytes) => value_thrown_away(checker, Form::Text(bytes)),
        Form::Zero(t) => value_thrown_away(checker, Form::Zero(t)),
        Form::Null => Err(Stop::NoTyping),
        Form::Allocation(_) => Err(Stop::NoTyping),
    }
}

fn place_thrown_away<'a>(
    checker: &mut Checker<'a>,
    p: Box<Place>,
    t: CType,
) -> Result<Box<Expr>, Stop>
    ensures { Obeys boxed_expr (words.thrown_away (words.place (place_of p.value) (type_of t))) (state_of checker.old) (state_of checker.new) result }
{
    match t {
        CType::Struct(n) => visited(checker, p, n),
        CType::Int(t) => value_thrown_away(checker, Form::Place(p, CType::Int(t))),
        CType::Pointer(t) => value_thrown_away(checker, Form::Place(p, CType::Pointer(t))),
        CType::Array(t, n) => value_thrown_away(checker, Form::Place(p, CType::Array(t, n))),
        CType::Void => Err(Stop::NoTyping),
        CType::Function(_) => Err(Stop::NoTyping),
    }
}

/// A struct's place that is thrown away; the struct has a size.
fn visited<'a>(checker: &mut Checker<'a>, p: Box<Place>, n: u32) -> Result<Box<Expr>, Stop>
    ensures { Obeys boxed_expr (words.thrown_away (words.place (place_of p.value) (struct n))) (state_of checker.old) (state_of checker.new) result }
{
    checker.size_of(&CType::Struct(n))?;
    Ok(boxed(checker.alloc, Expr::Visit(p))?)
}

/// The value of a form that is thrown away, without its type.
fn value_thrown_away<'a>(checker: &mut Checker<'a>, f: Form<'a>) -> Result<Box<Expr>, Stop>
    ensures { Obeys boxed_expr (λ s. followed (words.value_of (form_of f.entry) s) (λ v. pure v.0)) (state_of checker.old) (state_of checker.new) result }
{
    let (e, t) = value_of(checker, f)?;
    drop(t);
    Ok(e)
}
