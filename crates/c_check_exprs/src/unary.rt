//! Unary operators (C11, 6.5.3).

ghost use Rattle.std.specs.Prelude.{◌≡◌, IfOk};
ghost use Rattle.c_types.specs.Types.{integer, type_of};
ghost use Rattle.c_typed.specs.Tree as to;
ghost use Rattle.c_typed.specs.refinement.Views.{expr_of, sized_of};
ghost use Rattle.c_check_types.specs.refinement.Views.{Obeys, state_of};
ghost use Rattle.c_check_exprs.specs.Expressions as words;
ghost use Rattle.c_typed.specs.Forms as forms;
ghost use Rattle.c_typed.specs.refinement.FormViews.{form_of};

use c_check_types::{Checker, Stop};
use c_conversions::{condition_of, integer_of, pointer_of};
use c_typed::{Expr, Form, Place, Sized, UnaryOp, boxed, promoted_value, zero_of};
use c_types::{CType, IntType};
use std::alloc::{AllocError, Global};
use std::rc::Rc;

/// What a pointer leads to: a function is that function (C11, 6.5.3.2).
fn led_to<'a>(alloc: Global, e: Box<Expr>, t: CType) -> Result<Form<'a>, AllocError>
    ensures { IfOk result (λ f. form_of f ≡ words.led_to (expr_of e.value) (type_of t)) }
{
    match t {
        CType::Function(s) => Ok(Form::Designator(e, CType::Function(s))),
        CType::Void => place_at(alloc, e, CType::Void),
        CType::Int(t) => place_at(alloc, e, CType::Int(t)),
        CType::Struct(n) => place_at(alloc, e, CType::Struct(n)),
        CType::Pointer(t) => place_at(alloc, e, CType::Pointer(t)),
        CType::Array(t, n) => place_at(alloc, e, CType::Array(t, n)),
    }
}

/// The place that a pointer leads to.
pub fn place_at<'a>(alloc: Global, e: Box<Expr>, t: CType) -> Result<Form<'a>, AllocError>
    ensures { IfOk result (λ f. form_of f ≡ forms.place (to.deref (expr_of e.value)) (type_of t)) }
{
    Ok(Form::Place(boxed(alloc, Place::Deref(e))?, t))
}

/// `*e` (C11, 6.5.3.2).
pub fn deref<'a>(checker: &mut Checker<'a>, f: Form<'a>) -> Result<Form<'a>, Stop>
    ensures { Obeys form_of (words.deref (form_of f.entry)) (state_of checker.old) (state_of checker.new) result }
{
    let (e, t) = pointer_of(checker, f)?;
    Ok(led_to(checker.alloc, e, t)?)
}

/// `&e` (C11, 6.5.3.2).
pub fn address<'a>(checker: &Checker<'a>, f: Form<'a>) -> Result<Form<'a>, Stop>
    ensures { Obeys form_of (words.address (form_of f.entry)) (state_of checker.now) (state_of checker.now) result }
{
    match f {
        Form::Place(p, t) => {
            let t = Rc::new(checker.alloc, t)?;
            let e = boxed(checker.alloc, Expr::Address(p))?;
            Ok(Form::Value(e, CType::Pointer(t)))
        }
        Form::Designator(e, t) => {
            let t = Rc::new(checker.alloc, t)?;
            Ok(Form::Value(e, CType::Pointer(t)))
        }
        Form::Value(_, _) => Err(Stop::NoTyping),
        Form::Text(_) => Err(Stop::NoTyping),
        Form::Zero(_) => Err(Stop::NoTyping),
        Form::Null => Err(Stop::NoTyping),
        Form::Allocation(_) => Err(Stop::NoTyping),
    }
}

/// `sizeof e` (C11, 6.5.3.4).
pub fn size<'a>(checker: &mut Checker<'a>, f: Form<'a>) -> Result<Form<'a>, Stop>
    ensures { Obeys form_of (words.size (form_of f.entry)) (state_of checker.old) (state_of checker.new) result }
{
    match f {
        Form::Place(p, t) => {
            let n = checker.size_of(&t)?;
            Ok(sized(checker.alloc, n as u32, Sized::Place(p))?)
        }
        Form::Value(e, t) => {
            let n = checker.size_of(&t)?;
            Ok(sized(checker.alloc, n as u32, Sized::Value(e))?)
        }
        Form::Text(bytes) => {
            let n = u32::try_from(bytes.len() + 1).map_err(|_| Stop::Memory)?;
            Ok(sized(checker.alloc, n, Sized::Nothing)?)
        }
        Form::Zero(t) => {
            let n = checker.size_of(&CType::Int(t))?;
            let e = zero_of(checker.alloc, t)?;
            Ok(sized(checker.alloc, n as u32, Sized::Value(e))?)
        }
        Form::Designator(_, _) => Err(Stop::NoTyping),
        Form::Null => Err(Stop::NoTyping),
        Form::Allocation(_) => Err(Stop::NoTyping),
    }
}

/// A size, which is a `size_t`.
pub fn sized<'a>(alloc: Global, n: u32, of: Sized) -> Result<Form<'a>, AllocError>
    ensures { IfOk result (λ f. form_of f ≡ forms.value (sized_of of n) (integer IntType.UnsignedInt)) }
{
    let e = boxed(alloc, Expr::SizeOf(n, of))?;
    Ok(Form::Value(e, CType::Int(IntType::UnsignedInt)))
}

/// `+e`: the promoted value (C11, 6.5.3.3).
pub fn plus<'a>(checker: &mut Checker<'a>, f: Form<'a>) -> Result<Form<'a>, Stop>
    ensures { Obeys form_of (words.plus (form_of f.entry)) (state_of checker.old) (state_of checker.new) result }
{
    let v = integer_of(checker, f)?;
    let t = v.1.promoted();
    let e = promoted_value(checker.alloc, v)?;
    Ok(Form::Value(e, CType::Int(t)))
}

/// `-e` and `~e`, at the promoted type (C11, 6.5.3.3).
pub fn signed<'a>(checker: &mut Checker<'a>, op: UnaryOp, f: Form<'a>) -> Result<Form<'a>, Stop>
    ensures { Obeys form_of (words.signed op (form_of f.entry)) (state_of checker.old) (state_of checker.new) result }
{
    let v = integer_of(checker, f)?;
    let t = v.1.promoted();
    let e = promoted_value(checker.alloc, v)?;
    let e = boxed(checker.alloc, Expr::Unary(op, t, e))?;
    Ok(Form::Value(e, CType::Int(t)))
}

/// `!e` (C11, 6.5.3.3).
pub fn not<'a>(checker: &mut Checker<'a>, f: Form<'a>) -> Result<Form<'a>, Stop>
    ensures { Obeys form_of (words.negated (form_of f.entry)) (state_of checker.old) (state_of checker.new) result }
{
    let c = condition_of(checker, f)?;
    let e = boxed(checker.alloc, Expr::Not(c))?;
    Ok(Form::Value(e, CType::Int(IntType::Int)))
}
