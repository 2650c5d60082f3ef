//! That the context of a module is made with ample memory. What it has is proved.

use super::shared::{gives, module, one};
use ms_module::{Import, ImportDesc, Module, Name};
use ms_rules::Context;
use ms_types::Vector;
use std::alloc::{AllocError, Global};
use std::test::Fail;

fn import(alloc: Global) -> Result<Import, AllocError> {
    Ok(Import {
        module: Name::new(alloc, "m")?,
        name: Name::new(alloc, "n")?,
        desc: ImportDesc::Func(0),
    })
}

fn imports(alloc: Global) -> Result<Vector<Import>, AllocError> {
    one(alloc, import(alloc)?)
}

/// A module with a type, and an imported function of it.
fn with_import(alloc: Global) -> Result<Module, AllocError> {
    let imports = imports(alloc)?;
    let sigs = one(alloc, gives(alloc, Vector::new(alloc)))?;
    Ok(module(alloc, sigs, imports, Vector::new(alloc), Vector::new(alloc)))
}

#[test]
fn imports_are_there(rt: HostRuntime) -> Result<(), Fail> {
    let module = with_import(rt.alloc())?;
    let context = Context::of(rt.alloc(), &module)?;
    assert_eq!(rt; context.funcs_len(), 1);
    assert!(rt; context.func(0).is_some());
    assert!(rt; context.func(1).is_none());
    Ok(())
}
