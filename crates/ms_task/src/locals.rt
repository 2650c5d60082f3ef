//! The types of declared locals that are shared, not copied.

ghost use Rattle.std.specs.Prelude.{◌≡◌, ◌<◌, ◌^◌, [], IfOk, length, slice_get};
ghost use Rattle.ms_module.specs.refinement.Locals.{Rise, types_of};

use ms_module::{Locals, Run};
use ms_types::ValType;
use std::alloc::{AllocError, Global};
use std::marker::Model;
use std::rc::Rc;

/// Types that several values share.
#[derive(Drop)]
struct Shared {
    locals: Rc<Locals>,
}

impl Model for Shared {
    ghost use Rattle.std.specs.Prelude.{List};
    ghost use Rattle.ms_types.specs.declared.types.ValType.{ValType};

    ghost Value = { List ValType };

    ghost view = { λ s. s.locals.value };
}

impl Shared {
    fn new(alloc: Global, locals: Locals) -> Result<Self, AllocError>
        ensures { IfOk result (λ s. s ≡ locals) }
    {
        Ok(Shared {
            locals: Rc::new(alloc, locals)?,
        })
    }

    fn share(&self) -> Result<Self, AllocError>
        ensures { IfOk result (λ s. s ≡ self.now) }
    {
        Ok(Shared {
            locals: self.locals.clone()?,
        })
    }

    fn locals(&self) -> &Locals
        ensures { result.now ≡ self.now }
    {
        &self.locals
    }
}

/// The types of the locals that a function declares, which its calls share. Where there are none they take no memory.
/// Contracts see the list.
#[derive(Drop)]
pub struct SharedLocals {
    types: Option<Shared>,
}

impl Model for SharedLocals {
    ghost use Rattle.std.specs.Prelude.{List};
    ghost use Rattle.ms_types.specs.declared.types.ValType.{ValType};
    ghost use Rattle.ms_task.specs.refinement.Shared.{types_in};

    ghost Value = { List ValType };

    ghost view = { λ l. types_in l.types };
}

impl SharedLocals {
    /// Types that may be shared.
    pub fn new(alloc: Global, locals: Locals) -> Result<Self, AllocError>
        ensures { IfOk result (λ l. l ≡ locals) }
    {
        if locals.is_empty() {
            return Ok(SharedLocals::none());
        }
        Ok(SharedLocals {
            types: Some(Shared::new(alloc, locals)?),
        })
    }

    /// No locals. Takes no memory.
    pub fn none() -> Self
        ensures { result ≡ [] }
    {
        SharedLocals { types: None }
    }

    /// The same types once more, which are not copied.
    pub fn share(&self) -> Result<Self, AllocError>
        ensures { IfOk result (λ l. l ≡ self.now) }
    {
        match &self.types {
            None => Ok(SharedLocals::none()),
            Some(types) => Ok(SharedLocals {
                types: Some(types.share()?),
            }),
        }
    }

    /// How many there are.
    pub fn len(&self) -> usize
        ensures len { result ≡ length self.now }
        ensures few { result < 2 ^ 32 }
    {
        match &self.types {
            None => 0,
            Some(types) => types.locals().len(),
        }
    }

    /// The type of the local of this index.
    pub fn get(&self, index: u32) -> Option<ValType>
        ensures { result ≡ slice_get self.now index }
    {
        match &self.types {
            None => None,
            Some(types) => types.locals().get(index),
        }
    }

    /// The types as the fewest runs.
    pub fn runs(&self) -> &[Run]
        ensures types { types_of 0 result.now ≡ self.now }
        ensures rise { Rise 0 result.now }
    {
        match &self.types {
            None => &[],
            Some(types) => types.locals().runs(),
        }
    }
}
