//! Names (C11, 6.2.1 and 6.5.1).

ghost use Rattle.std.specs.Prelude.{◌≡◌, slice_get, IfOk, None};
ghost use Rattle.c_types.specs.Types.{integer, type_of};
ghost use Rattle.c_typed.specs.Tree as to;
ghost use Rattle.c_types.specs.refinement.Views.{types_in};
ghost use Rattle.c_check_types.specs.Scopes as scopes;
ghost use Rattle.c_check_types.specs.refinement.Views.{Obeys, Gives, state_of};
ghost use Rattle.c_check_exprs.specs.Expressions as words;
ghost use Rattle.c_typed.specs.refinement.FormViews.{form_of};
ghost use Rattle.c_typed.specs.Forms as forms;

use c_check_types::{Checker, Entity, LibraryName, Stop, entity_of, library};
use c_typed::{Expr, Form, Place, Variable, boxed};
use c_types::{CType, IntType};
use std::alloc::{AllocError, Global};

/// A type by its number.
pub fn type_at(types: &[CType], n: u32) -> Result<CType, Stop>
    ensures { Gives type_of (slice_get (types_in types.now) n) result }
{
    match types.get(n as usize) {
        Some(t) => Ok(t.share()?),
        None => Err(Stop::NoTyping),
    }
}

/// The type of a function.
fn function_type(checker: &Checker, n: u32) -> Result<CType, Stop>
    ensures { Obeys type_of (words.function_type n) (state_of checker.now) (state_of checker.now) result }
{
    match checker.functions.get(n as usize) {
        Some(f) => Ok(f.ty.share()?),
        None => Err(Stop::NoTyping),
    }
}

/// The form of a number of a type.
pub fn number<'a>(alloc: Global, n: u64, t: IntType) -> Result<Form<'a>, AllocError>
    ensures { IfOk result (λ f. form_of f ≡ forms.value (to.number t n) (integer t)) }
{
    let e = boxed(alloc, Expr::Number(t, n))?;
    Ok(Form::Value(e, CType::Int(t)))
}

/// The form of what a name stands for.
fn entity_form<'a>(checker: &Checker<'a>, e: Entity) -> Result<Form<'a>, Stop>
    ensures { Obeys form_of (words.entity_form e) (state_of checker.now) (state_of checker.now) result }
{
    match e {
        Entity::Local(n) => {
            let t = type_at(checker.slots.as_slice(), n)?;
            let p = boxed(checker.alloc, Place::Of(Variable::Local(n)))?;
            Ok(Form::Place(p, t))
        }
        Entity::Global(n) => {
            let t = type_at(checker.globals.as_slice(), n)?;
            let p = boxed(checker.alloc, Place::Of(Variable::Global(n)))?;
            Ok(Form::Place(p, t))
        }
        Entity::Function(n) => {
            let t = function_type(checker, n)?;
            let e = boxed(checker.alloc, Expr::Function(n))?;
            Ok(Form::Designator(e, t))
        }
        Entity::Constant(n) => Ok(number(checker.alloc, u64::from(n), IntType::Int)?),
    }
}

/// The form of a name. The library's functions stand where they are called alone.
pub fn name_form<'a>(checker: &Checker<'a>, name: &[u8]) -> Result<Form<'a>, Stop>
    ensures { Obeys form_of (words.name_form name.now (scopes.library name.now)) (state_of checker.now) (state_of checker.now) result }
{
    match library(name) {
        Some(LibraryName::Null) => Ok(Form::Null),
        Some(LibraryName::Eof) => Ok(number(checker.alloc, 0xFFFF_FFFF, IntType::Int)?),
        Some(LibraryName::Putchar) => Err(Stop::NoTyping),
        Some(LibraryName::Getchar) => Err(Stop::NoTyping),
        Some(LibraryName::Abort) => Err(Stop::NoTyping),
        Some(LibraryName::Malloc) => Err(Stop::NoTyping),
        Some(LibraryName::Calloc) => Err(Stop::NoTyping),
        Some(LibraryName::Free) => Err(Stop::NoTyping),
        None => declared_form(checker, name),
    }
}

/// The form of a name that is declared.
fn declared_form<'a>(checker: &Checker<'a>, name: &[u8]) -> Result<Form<'a>, Stop>
    ensures { Obeys form_of (words.name_form name.now None) (state_of checker.now) (state_of checker.now) result }
{
    match entity_of(&checker.scopes, name) {
        Some(e) => entity_form(checker, e),
        None => Err(Stop::NoTyping),
    }
}
