//! Types of C (C11, 6.2.5).

ghost use Rattle.std.specs.Prelude.{◌≡◌, IfOk};
ghost use Rattle.c_types.specs.Types.{is_function, scalar_of, type_of};

use crate::integers::IntType;
use std::alloc::AllocError;
use std::rc::Rc;

/// What one local, one operand or one leaf of an object holds (C11, 6.2.5, paragraph 21).
#[derive(Clone, Copy, PartialEq, Eq)]
pub enum Scalar {
    Int(IntType),
    /// A pointer to an object.
    Pointer,
    /// A pointer to a function.
    Function,
}

/// A type (C11, 6.2.5). Its parts are shared, so that a copy is made in one step.
#[cycle(types)]
#[derive(Drop)]
pub enum CType {
    Void,
    Int(IntType),
    /// A struct, by the number of its tag in `Structs`.
    Struct(u32),
    /// A pointer to an object or, where the type is a function's, to a function.
    Pointer(Rc<CType>),
    /// An array of so many elements.
    Array(Rc<CType>, u32),
    Function(Rc<Signature>),
}

/// The type of a function: its result and its parameters, in order.
#[cycle(types)]
#[derive(Drop)]
pub struct Signature {
    pub result: CType,
    pub params: Vec<CType>,
}

impl CType {
    /// The same type once more. `Err`: want of memory.
    pub fn share(&self) -> Result<CType, AllocError>
        ensures { IfOk result (λ t. type_of t ≡ type_of self.now) }
    {
        match self {
            CType::Void => Ok(CType::Void),
            CType::Int(t) => Ok(CType::Int(*t)),
            CType::Struct(n) => Ok(CType::Struct(*n)),
            CType::Pointer(t) => Ok(CType::Pointer(t.clone()?)),
            CType::Array(t, n) => Ok(CType::Array(t.clone()?, *n)),
            CType::Function(s) => Ok(CType::Function(s.clone()?)),
        }
    }

    /// Whether it is the type of a function.
    pub fn is_function(&self) -> bool
        ensures { result ≡ is_function (type_of self.now) }
    {
        match self {
            CType::Void => false,
            CType::Int(_) => false,
            CType::Struct(_) => false,
            CType::Pointer(_) => false,
            CType::Array(_, _) => false,
            CType::Function(_) => true,
        }
    }

    /// What an object of the type holds; `None` where that isn't one value.
    pub fn scalar(&self) -> Option<Scalar>
        ensures { result ≡ scalar_of (type_of self.now) }
    {
        match self {
            CType::Int(t) => Some(Scalar::Int(*t)),
            CType::Pointer(t) => {
                if t.is_function() {
                    Some(Scalar::Function)
                } else {
                    Some(Scalar::Pointer)
                }
            }
            CType::Void => None,
            CType::Struct(_) => None,
            CType::Array(_, _) => None,
            CType::Function(_) => None,
        }
    }
}
