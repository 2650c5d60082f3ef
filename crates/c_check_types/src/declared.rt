//! What declarators declare.

ghost use Rattle.std.specs.Prelude.{◌≡◌};
ghost use Rattle.c_types.specs.Types.{type_of};
ghost use Rattle.c_check_types.specs.Types as words;
ghost use Rattle.c_check_types.specs.refinement.Views.{Gives, derived_of};

use crate::fault::Stop;
use c_types::CType;
use std::alloc::Global;
use std::rc::Rc;

/// What is declared: of a type, or an array of elements of a type whose length is to come.
#[derive(Drop)]
pub enum Derived {
    Whole(CType),
    Lengthless(CType),
}

/// A parameter (C11, 6.7.6.3).
#[derive(Drop)]
pub struct Parameter<'a> {
    pub name: Option<&'a [u8]>,
    pub ty: CType,
}

/// What a declarator declares (C11, 6.7.6).
#[derive(Drop)]
pub struct Declared<'a> {
    pub name: Option<&'a [u8]>,
    pub derived: Derived,
    /// The parameters that stand at the name, where it is a function's.
    pub params: Vec<Parameter<'a>>,
}

/// The type, where no length is missing.
pub fn whole_type(d: Derived) -> Result<CType, Stop>
    ensures { Gives type_of (words.whole_type (derived_of d)) result }
{
    match d {
        Derived::Whole(t) => Ok(t),
        Derived::Lengthless(_) => Err(Stop::NoTyping),
    }
}

/// A pointer to what is declared (C11, 6.7.6.1).
pub fn pointer_to(alloc: Global, d: Derived) -> Result<CType, Stop>
    ensures { Gives type_of (words.pointer_to (derived_of d)) result }
{
    match d {
        Derived::Whole(t) => lead_to(alloc, t),
        Derived::Lengthless(_) => Err(Stop::NoTyping),
    }
}

fn lead_to(alloc: Global, t: CType) -> Result<CType, Stop>
    ensures { Gives type_of (words.pointer_to (words.whole (type_of t))) result }
{
    match &t {
        CType::Void => return Err(Stop::NoTyping),
        CType::Int(_) => (),
        CType::Struct(_) => (),
        CType::Pointer(_) => (),
        CType::Array(_, _) => (),
        CType::Function(_) => (),
    }
    Ok(CType::Pointer(Rc::new(alloc, t)?))
}

/// The type of a result: void, an integer or a pointer (C11, 6.7.6.3).
pub fn result_type(d: Derived) -> Result<CType, Stop>
    ensures { Gives type_of (words.result_type (derived_of d)) result }
{
    match d {
        Derived::Whole(t) => result_of(t),
        Derived::Lengthless(_) => Err(Stop::NoTyping),
    }
}

fn result_of(t: CType) -> Result<CType, Stop>
    ensures { Gives type_of (words.result_type (words.whole (type_of t))) result }
{
    match t {
        CType::Void => Ok(CType::Void),
        CType::Int(t) => Ok(CType::Int(t)),
        CType::Pointer(t) => Ok(CType::Pointer(t)),
        CType::Struct(_) => Err(Stop::NoTyping),
        CType::Array(_, _) => Err(Stop::NoTyping),
        CType::Function(_) => Err(Stop::NoTyping),
    }
}

/// The type of a parameter: arrays and functions become pointers (C11, 6.7.6.3, paragraphs 7 and 8).
pub fn adjusted(alloc: Global, d: Derived) -> Result<CType, Stop>
    ensures { Gives type_of (words.adjusted (derived_of d)) result }
{
    match d {
        Derived::Whole(t) => parameter_type(alloc, t),
        Derived::Lengthless(t) => Ok(CType::Pointer(Rc::new(alloc, t)?)),
    }
}

fn parameter_type(alloc: Global, t: CType) -> Result<CType, Stop>
    ensures { Gives type_of (words.adjusted (words.whole (type_of t))) result }
{
    match t {
        CType::Void => Err(Stop::NoTyping),
        CType::Int(t) => Ok(CType::Int(t)),
        CType::Struct(_) => Err(Stop::NoTyping),
        CType::Pointer(t) => Ok(CType::Pointer(t)),
        CType::Array(t, _) => Ok(CType::Pointer(t)),
        CType::Function(s) => Ok(CType::Pointer(Rc::new(alloc, CType::Function(s))?)),
    }
}
