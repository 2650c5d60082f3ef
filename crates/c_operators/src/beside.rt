//! Two operands beside each other (C11, 6.5.9 and 6.5.15): a null constant takes the type of the pointer beside it.

ghost use Rattle.c_types.specs.Types.{integer, pointer, type_of, void as type_void};
ghost use Rattle.c_typed.specs.refinement.Views.{expr_of};
ghost use Rattle.c_check_types.specs.refinement.Views.{Gives};
ghost use Rattle.c_typed.specs.Forms as forms;
ghost use Rattle.c_typed.specs.refinement.FormViews.{form_of};
ghost use Rattle.c_operators.specs.refinement.Views.{both_of};
ghost use Rattle.c_operators.specs.Operations as words;

use c_check_types::{Stop, same_type};
use c_typed::{Expr, Form, null_at, zero_of};
use c_types::{CType, IntType};
use std::alloc::Global;
use std::rc::Rc;

/// Two operands that go with each other.
#[derive(Drop)]
pub enum Both {
    /// Integers with their types.
    Integers(Box<Expr>, IntType, Box<Expr>, IntType),
    /// Pointers to a type.
    Pointers(Rc<CType>, Box<Expr>, Box<Expr>),
    Voids(Box<Expr>, Box<Expr>),
}

/// Two operands, brought together.
pub fn beside(alloc: Global, x: Form, y: Form) -> Result<Both, Stop>
    ensures { Gives both_of (words.beside (form_of x.entry) (form_of y.entry)) result }
{
    match x {
        Form::Value(a, t) => value_beside(alloc, (a, t), y),
        Form::Zero(t) => zero_beside(alloc, t, y),
        Form::Null => null_beside(alloc, y),
        Form::Place(_, _) => Err(Stop::NoTyping),
        Form::Designator(_, _) => Err(Stop::NoTyping),
        Form::Text(_) => Err(Stop::NoTyping),
        Form::Allocation(_) => Err(Stop::NoTyping),
    }
}

/// A value beside an operand.
fn value_beside(alloc: Global, x: (Box<Expr>, CType), y: Form) -> Result<Both, Stop>
    ensures { Gives both_of (words.beside (forms.value (expr_of x.0.value) (type_of x.1)) (form_of y.entry)) result }
{
    let (a, t) = x;
    match t {
        CType::Int(t) => int_beside(alloc, (a, t), y),
        CType::Pointer(t) => pointer_beside(alloc, (a, t), y),
        CType::Void => void_beside(a, y),
        CType::Struct(_) => Err(Stop::NoTyping),
        CType::Array(_, _) => Err(Stop::NoTyping),
        CType::Function(_) => Err(Stop::NoTyping),
    }
}

/// An integer beside an operand.
fn int_beside(alloc: Global, x: (Box<Expr>, IntType), y: Form) -> Result<Both, Stop>
    ensures { Gives both_of (words.beside (forms.value (expr_of x.0.value) (integer x.1)) (form_of y.entry)) result }
{
    match y {
        Form::Value(b, u) => int_beside_value(x, (b, u)),
        Form::Zero(u) => Ok(Both::Integers(x.0, x.1, zero_of(alloc, u)?, u)),
        Form::Place(_, _) => Err(Stop::NoTyping),
        Form::Designator(_, _) => Err(Stop::NoTyping),
        Form::Text(_) => Err(Stop::NoTyping),
        Form::Null => Err(Stop::NoTyping),
        Form::Allocation(_) => Err(Stop::NoTyping),
    }
}

/// An integer beside a value.
fn int_beside_value(x: (Box<Expr>, IntType), y: (Box<Expr>, CType)) -> Result<Both, Stop>
    ensures { Gives both_of (words.beside (forms.value (expr_of x.0.value) (integer x.1)) (forms.value (expr_of y.0.value) (type_of y.1))) result }
{
    let (b, u) = y;
    match u {
        CType::Int(u) => Ok(Both::Integers(x.0, x.1, b, u)),
        CType::Void => Err(Stop::NoTyping),
        CType::Struct(_) => Err(Stop::NoTyping),
        CType::Pointer(_) => Err(Stop::NoTyping),
        CType::Array(_, _) => Err(Stop::NoTyping),
        CType::Function(_) => Err(Stop::NoTyping),
    }
}

/// The constant 0 beside an operand.
fn zero_beside(alloc: Global, t: IntType, y: Form) -> Result<Both, Stop>
    ensures { Gives both_of (words.beside (forms.zero t) (form_of y.entry)) result }
{
    match y {
        Form::Value(b, u) => zero_beside_value(alloc, t, (b, u)),
        Form::Zero(u) => {
            let x = zero_of(alloc, t)?;
            let y = zero_of(alloc, u)?;
            Ok(Both::Integers(x, t, y, u))
        }
        Form::Place(_, _) => Err(Stop::NoTyping),
        Form::Designator(_, _) => Err(Stop::NoTyping),
        Form::Text(_) => Err(Stop::NoTyping),
        Form::Null => Err(Stop::NoTyping),
        Form::Allocation(_) => Err(Stop::NoTyping),
    }
}

/// The constant 0 beside a value.
fn zero_beside_value(alloc: Global, t: IntType, y: (Box<Expr>, CType)) -> Result<Both, Stop>
    ensures { Gives both_of (words.beside (forms.zero t) (forms.value (expr_of y.0.value) (type_of y.1))) result }
{
    let (b, u) = y;
    match u {
        CType::Int(u) => Ok(Both::Integers(zero_of(alloc, t)?, t, b, u)),
        CType::Pointer(u) => {
            let null = null_at(alloc, &u)?;
            Ok(Both::Pointers(u, null, b))
        }
        CType::Void => Err(Stop::NoTyping),
        CType::Struct(_) => Err(Stop::NoTyping),
        CType::Array(_, _) => Err(Stop::NoTyping),
        CType::Function(_) => Err(Stop::NoTyping),
    }
}

/// A pointer beside an operand.
fn pointer_beside(alloc: Global, x: (Box<Expr>, Rc<CType>), y: Form) -> Result<Both, Stop>
    ensures { Gives both_of (words.beside (forms.value (expr_of x.0.value) (pointer (type_of x.1.value))) (form_of y.entry)) result }
{
    match y {
        Form::Value(b, u) => pointer_beside_value(x, (b, u)),
        Form::Zero(_) => pointer_beside_null(alloc, x),
        Form::Null => pointer_beside_null(alloc, x),
        Form::Place(_, _) => Err(Stop::NoTyping),
        Form::Designator(_, _) => Err(Stop::NoTyping),
        Form::Text(_) => Err(Stop::NoTyping),
        Form::Allocation(_) => Err(Stop::NoTyping),
    }
}

/// A pointer beside a null constant.
fn pointer_beside_null(alloc: Global, x: (Box<Expr>, Rc<CType>)) -> Result<Both, Stop>
    ensures { Gives both_of (words.beside (forms.value (expr_of x.0.value) (pointer (type_of x.1.value))) forms.null) result }
{
    let (a, t) = x;
    let null = null_at(alloc, &t)?;
    Ok(Both::Pointers(t, a, null))
}

/// A pointer beside a value.
fn pointer_beside_value(x: (Box<Expr>, Rc<CType>), y: (Box<Expr>, CType)) -> Result<Both, Stop>
    ensures { Gives both_of (words.beside (forms.value (expr_of x.0.value) (pointer (type_of x.1.value))) (forms.value (expr_of y.0.value) (type_of y.1))) result }
{
    let (b, u) = y;
    match u {
        CType::Pointer(u) => pointers_beside(x, (b, u)),
        CType::Void => Err(Stop::NoTyping),
        CType::Int(_) => Err(Stop::NoTyping),
        CType::Struct(_) => Err(Stop::NoTyping),
        CType::Array(_, _) => Err(Stop::NoTyping),
        CType::Function(_) => Err(Stop::NoTyping),
    }
}

/// Two pointers, to one type.
fn pointers_beside(x: (Box<Expr>, Rc<CType>), y: (Box<Expr>, Rc<CType>)) -> Result<Both, Stop>
    ensures { Gives both_of (words.beside (forms.value (expr_of x.0.value) (pointer (type_of x.1.value))) (forms.value (expr_of y.0.value) (pointer (type_of y.1.value)))) result }
{
    let (a, t) = x;
    let (b, u) = y;
    if !same_type(&t, &u) {
        return Err(Stop::NoTyping);
    }
    Ok(Both::Pointers(t, a, b))
}

/// NULL beside an operand.
fn null_beside(alloc: Global, y: Form) -> Result<Both, Stop>
    ensures { Gives both_of (words.beside forms.null (form_of y.entry)) result }
{
    match y {
        Form::Value(b, u) => null_beside_value(alloc, (b, u)),
        Form::Place(_, _) => Err(Stop::NoTyping),
        Form::Designator(_, _) => Err(Stop::NoTyping),
        Form::Text(_) => Err(Stop::NoTyping),
        Form::Zero(_) => Err(Stop::NoTyping),
        Form::Null => Err(Stop::NoTyping),
        Form::Allocation(_) => Err(Stop::NoTyping),
    }
}

/// NULL beside a value.
fn null_beside_value(alloc: Global, y: (Box<Expr>, CType)) -> Result<Both, Stop>
    ensures { Gives both_of (words.beside forms.null (forms.value (expr_of y.0.value) (type_of y.1))) result }
{
    let (b, u) = y;
    match u {
        CType::Pointer(u) => {
            let null = null_at(alloc, &u)?;
            Ok(Both::Pointers(u, null, b))
        }
        CType::Void => Err(Stop::NoTyping),
        CType::Int(_) => Err(Stop::NoTyping),
        CType::Struct(_) => Err(Stop::NoTyping),
        CType::Array(_, _) => Err(Stop::NoTyping),
        CType::Function(_) => Err(Stop::NoTyping),
    }
}

/// Void beside an operand.
fn void_beside(a: Box<Expr>, y: Form) -> Result<Both, Stop>
    ensures { Gives both_of (words.beside (forms.value (expr_of a.value) type_void) (form_of y.entry)) result }
{
    match y {
        Form::Value(b, u) => void_beside_value(a, (b, u)),
        Form::Place(_, _) => Err(Stop::NoTyping),
        Form::Designator(_, _) => Err(Stop::NoTyping),
        Form::Text(_) => Err(Stop::NoTyping),
        Form::Zero(_) => Err(Stop::NoTyping),
        Form::Null => Err(Stop::NoTyping),
        Form::Allocation(_) => Err(Stop::NoTyping),
    }
}

/// Void beside a value.
fn void_beside_value(a: Box<Expr>, y: (Box<Expr>, CType)) -> Result<Both, Stop>
    ensures { Gives both_of (words.beside (forms.value (expr_of a.value) type_void) (forms.value (expr_of y.0.value) (type_of y.1))) result }
{
    let (b, u) = y;
    match u {
        CType::Void => Ok(Both::Voids(a, b)),
        CType::Int(_) => Err(Stop::NoTyping),
        CType::Struct(_) => Err(Stop::NoTyping),
        CType::Pointer(_) => Err(Stop::NoTyping),
        CType::Array(_, _) => Err(Stop::NoTyping),
        CType::Function(_) => Err(Stop::NoTyping),
    }
}
