//! Calls and casts (C11, 6.5.2.2 and 6.5.4).

ghost use Rattle.std.specs.Prelude.{◌≡◌, IfOk};
ghost use Rattle.c_types.specs.Types.{function, type_of};
ghost use Rattle.c_types.specs.refinement.Views.{types_in};
ghost use Rattle.c_check_types.specs.TypeEquality.{tys_of};
ghost use Rattle.c_typed.specs.Tree as to;
ghost use Rattle.c_typed.specs.refinement.Views.{expr_of};
ghost use Rattle.c_check_types.specs.refinement.Views.{Obeys, Gives, state_of};
ghost use Rattle.c_check_exprs.specs.Expressions as words;
ghost use Rattle.c_typed.specs.Forms as forms;
ghost use Rattle.c_typed.specs.refinement.FormViews.{boxed_expr, form_of};
ghost use Rattle.c_check_exprs.specs.refinement.Views.{exprs_in};

use c_check_types::{Checker, Stop};
use c_conversions::{assigned_to, integer_of, operand, thrown_away};
use c_typed::{Amount, Expr, Form, at_type, boxed};
use c_types::{CType, IntType, Scalar, Signature};
use std::alloc::{AllocError, Global};
use std::rc::Rc;

/// The function that is called by its number, if it is.
fn function_number(e: &Expr) -> Option<u32>
    ensures { result ≡ words.function_number (expr_of e.now) }
{
    match e {
        Expr::Function(n) => Some(*n),
        _ => None,
    }
}

/// A call of a function by its number.
fn direct_call(
    alloc: Global,
    n: u32,
    scalar: Option<Scalar>,
    es: Vec<Expr>,
) -> Result<Box<Expr>, AllocError>
    ensures { IfOk result (λ r. expr_of r.value ≡ to.call n scalar (words.exprs_of (exprs_in es.items))) }
{
    let e = boxed(alloc, Expr::Call(n, scalar, es))?;
    Ok(e)
}

/// A call through a pointer to a function of this type.
fn call_through(
    alloc: Global,
    callee: Box<Expr>,
    s: Rc<Signature>,
    scalar: Option<Scalar>,
    es: Vec<Expr>,
) -> Result<Box<Expr>, AllocError>
    ensures { IfOk result (λ r. expr_of r.value ≡ to.call_through (function (type_of s.value.result) (tys_of (types_in s.value.params.items))) scalar (expr_of callee.value) (words.exprs_of (exprs_in es.items))) }
{
    let e = boxed(
        alloc,
        Expr::CallThrough(CType::Function(s), scalar, callee, es),
    )?;
    Ok(e)
}

/// A call of a function of this type, by its number or through a pointer.
pub fn call_of(
    alloc: Global,
    e: Box<Expr>,
    s: Rc<Signature>,
    scalar: Option<Scalar>,
    es: Vec<Expr>,
) -> Result<Box<Expr>, AllocError>
    ensures { IfOk result (λ r. expr_of r.value ≡ words.call_of (words.function_number (expr_of e.value)) (expr_of e.value) (function (type_of s.value.result) (tys_of (types_in s.value.params.items))) scalar (words.exprs_of (exprs_in es.items))) }
{
    match function_number(&e) {
        Some(n) => direct_call(alloc, n, scalar, es),
        None => call_through(alloc, e, s, scalar, es),
    }
}

/// `free` takes a pointer to an object or a null constant.
pub fn freed(alloc: Global, f: Form) -> Result<Box<Expr>, Stop>
    ensures { Gives boxed_expr (words.freed (form_of f.entry)) result }
{
    match f {
        Form::Value(e, t) => value_freed(alloc, e, t),
        Form::Zero(_) => Ok(null_freed(alloc)?),
        Form::Null => Ok(null_freed(alloc)?),
        Form::Place(_, _) => Err(Stop::NoTyping),
        Form::Designator(_, _) => Err(Stop::NoTyping),
        Form::Text(_) => Err(Stop::NoTyping),
        Form::Allocation(_) => Err(Stop::NoTyping),
    }
}

/// `free` of a null constant.
fn null_freed(alloc: Global) -> Result<Box<Expr>, AllocError>
    ensures { IfOk result (λ r. expr_of r.value ≡ to.free to.null) }
{
    let e = boxed(alloc, Expr::Null)?;
    boxed(alloc, Expr::Free(e))
}

fn value_freed(alloc: Global, e: Box<Expr>, t: CType) -> Result<Box<Expr>, Stop>
    ensures { Gives boxed_expr (words.freed (forms.value (expr_of e.value) (type_of t))) result }
{
    match t {
        CType::Pointer(t) => {
            if t.is_function() {
                Err(Stop::NoTyping)
            } else {
                Ok(boxed(alloc, Expr::Free(e))?)
            }
        }
        CType::Void => Err(Stop::NoTyping),
        CType::Int(_) => Err(Stop::NoTyping),
        CType::Struct(_) => Err(Stop::NoTyping),
        CType::Array(_, _) => Err(Stop::NoTyping),
        CType::Function(_) => Err(Stop::NoTyping),
    }
}

/// `free(e)`.
pub fn freeing<'a>(checker: &mut Checker<'a>, f: Form<'a>) -> Result<Form<'a>, Stop>
    ensures { Obeys form_of (words.freeing (form_of f.entry)) (state_of checker.old) (state_of checker.new) result }
{
    let v = operand(checker, f)?;
    let e = freed(checker.alloc, v)?;
    Ok(Form::Value(e, CType::Void))
}

/// `putchar(e)`.
pub fn putting<'a>(checker: &mut Checker<'a>, f: Form<'a>) -> Result<Form<'a>, Stop>
    ensures { Obeys form_of (words.putting (form_of f.entry)) (state_of checker.old) (state_of checker.new) result }
{
    let e = assigned_to(checker, &CType::Int(IntType::Int), f)?;
    let e = boxed(checker.alloc, Expr::Putchar(e))?;
    Ok(Form::Value(e, CType::Int(IntType::Int)))
}

/// `malloc(e)`, whose type is to come.
pub fn allocating<'a>(checker: &mut Checker<'a>, f: Form<'a>) -> Result<Form<'a>, Stop>
    ensures { Obeys form_of (words.allocating (form_of f.entry)) (state_of checker.old) (state_of checker.new) result }
{
    let e = assigned_to(checker, &CType::Int(IntType::UnsignedInt), f)?;
    Ok(Form::Allocation(Amount::Bytes(e)))
}

/// A cast (C11, 6.5.4).
pub fn cast<'a>(checker: &mut Checker<'a>, t: CType, f: Form<'a>) -> Result<Form<'a>, Stop>
    ensures { Obeys form_of (words.cast (type_of t) (form_of f.entry)) (state_of checker.old) (state_of checker.new) result }
{
    match t {
        CType::Void => {
            let e = thrown_away(checker, f)?;
            let e = boxed(checker.alloc, Expr::Discard(e))?;
            Ok(Form::Value(e, CType::Void))
        }
        CType::Int(t) => {
            let (e, u) = integer_of(checker, f)?;
            let e = at_type(checker.alloc, u, t, e)?;
            Ok(Form::Value(e, CType::Int(t)))
        }
        CType::Pointer(t) => {
            let t = CType::Pointer(t);
            let e = assigned_to(checker, &t, f)?;
            Ok(Form::Value(e, t))
        }
        CType::Struct(_) => Err(Stop::NoTyping),
        CType::Array(_, _) => Err(Stop::NoTyping),
        CType::Function(_) => Err(Stop::NoTyping),
    }
}
