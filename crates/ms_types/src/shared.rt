//! Function types that are shared, not copied.

ghost use Rattle.std.specs.Prelude.{◌≡◌, IfOk};

use crate::types::{FuncType, ValType};
use std::alloc::{AllocError, Global};
use std::marker::Model;
use std::rc::Rc;

/// A function type that several functions and entries of tables share. Contracts see the type.
#[derive(Drop)]
pub struct SharedType {
    ty: Rc<FuncType>,
}

impl Model for SharedType {
    ghost use Rattle.ms_types.specs.declared.types.FuncType.{FuncType};

    ghost Value = { FuncType };

    ghost view = { λ s. s.ty.value };
}

impl SharedType {
    /// A type that may be shared.
    pub fn new(alloc: Global, ty: FuncType) -> Result<Self, AllocError>
        ensures { IfOk result (λ s. s ≡ ty) }
    {
        Ok(SharedType {
            ty: Rc::new(alloc, ty)?,
        })
    }

    /// The same type once more, which is not copied.
    pub fn share(&self) -> Result<Self, AllocError>
        ensures { IfOk result (λ s. s ≡ self.now) }
    {
        Ok(SharedType {
            ty: self.ty.clone()?,
        })
    }

    /// The type.
    pub fn ty(&self) -> &FuncType
        ensures { result.now ≡ self.now }
    {
        &self.ty
    }

    /// The types of the parameters.
    pub fn params(&self) -> &[ValType]
        ensures { result.now ≡ self.now.params }
    {
        self.ty().params.as_slice()
    }

    /// The types of the results.
    pub fn results(&self) -> &[ValType]
        ensures { result.now ≡ self.now.results }
    {
        self.ty().results.as_slice()
    }
}
