//! Functions that are defined (C11, 6.9.1): their parameters, slots and bodies.

ghost use Rattle.std.specs.Prelude.{◌≡◌, map, slice_get};
ghost use Rattle.c_types.specs.Types.{type_of};
ghost use Rattle.c_types.specs.refinement.Views.{types_in};
ghost use Rattle.c_typed.specs.refinement.Views.{function_of, stmt_of};
ghost use Rattle.c_check_types.specs.refinement.Views.{Obeys, Gives, name_of, parameters_in, state_of};
ghost use Rattle.c_declare.specs.Functions as words;

use crate::scope::{enters_local, new_slot};
use c_check_types::{Checker, Parameter, Stop};
use c_typed::{Function, Stmt, Subject};
use c_types::CType;
use std::mem;

/// A parameter, which may have no name.
fn enters_parameter<'a>(checker: &mut Checker<'a>, p: &Parameter<'a>) -> Result<(), Stop>
    ensures { Obeys (λ _. tt) (words.enters_parameter (name_of p.now.name) (type_of p.now.ty)) (state_of checker.old) (state_of checker.new) result }
{
    let t = p.ty.share()?;
    match p.name {
        None => {
            new_slot(checker, t)?;
            Ok(())
        }
        Some(name) => {
            enters_local(checker, name, t)?;
            Ok(())
        }
    }
}

/// The parameters, in order.
pub fn enters_parameters<'a>(
    checker: &mut Checker<'a>,
    params: &[Parameter<'a>],
) -> Result<(), Stop>
    ensures { Obeys (λ _. tt) (words.enters_parameters (parameters_in params.now)) (state_of checker.old) (state_of checker.new) result }
{
    for p in params {
        match enters_parameter(checker, p) {
            Ok(()) => (),
            Err(e) => return Err(e),
        }
    }
    Ok(())
}

/// Whether a function is declared and has no body.
fn has_no_body(functions: &[Function], n: u32) -> bool
    ensures { result ≡ words.has_no_body (slice_get (map function_of functions.now) n) }
{
    match functions.get(n as usize) {
        Some(f) => f.body.is_none(),
        None => false,
    }
}

/// A function is defined once.
pub fn is_declared_alone<'a>(checker: &Checker<'a>, n: u32) -> Result<(), Stop>
    ensures { Obeys (λ _. tt) (words.is_declared_alone n) (state_of checker.now) (state_of checker.now) result }
{
    if !has_no_body(checker.functions.as_slice(), n) {
        return Err(Stop::NoTyping);
    }
    Ok(())
}

/// Gives a function its slots and its body.
fn define(f: &mut Function, slots: Vec<CType>, body: Box<Stmt>)
    ensures { function_of f.new ≡ words.defined (function_of f.old) (types_in slots.items) (stmt_of body.value) }
{
    f.slots = slots;
    drop(mem::replace(&mut f.body, Some(Box::into_inner(body))));
}

/// Gives a function among others its slots and its body.
fn with_definition(
    functions: &mut Vec<Function>,
    n: u32,
    slots: Vec<CType>,
    body: Box<Stmt>,
) -> Result<(), Stop>
    ensures { Gives (λ _. map function_of functions.new.items) (words.with_definition (map function_of functions.old.items) n (types_in slots.items) (stmt_of body.value)) result }
{
    let n = n as usize;
    if functions.len() <= n {
        return Err(Stop::NoTyping);
    }
    let f = &mut functions[n];
    define(f, slots, body);
    Ok(())
}

/// Gives a function the slots that were made and its body.
pub fn with_body<'a>(checker: &mut Checker<'a>, n: u32, body: Box<Stmt>) -> Result<(), Stop>
    ensures { Obeys (λ _. tt) (words.with_body n (stmt_of body.value)) (state_of checker.old) (state_of checker.new) result }
{
    let slots = mem::replace(&mut checker.slots, Vec::new(checker.alloc));
    with_definition(&mut checker.functions, n, slots, body)?;
    checker.added(Subject::Body(n))
}

/// The result of a function's type.
pub fn result_in(t: &CType) -> Result<CType, Stop>
    ensures { Gives type_of (words.result_in (type_of t.now)) result }
{
    match t {
        CType::Function(s) => Ok(s.result.share()?),
        CType::Void => Err(Stop::NoTyping),
        CType::Int(_) => Err(Stop::NoTyping),
        CType::Struct(_) => Err(Stop::NoTyping),
        CType::Pointer(_) => Err(Stop::NoTyping),
        CType::Array(_, _) => Err(Stop::NoTyping),
    }
}
