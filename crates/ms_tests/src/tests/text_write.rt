//! A small module as text, with ample memory.

use super::shared::{Part, body, gives, main_export, module, one};
use ms_module::{Func, Locals, Module};
use ms_text_write::write;
use ms_types::{ValType, Vector};
use std::alloc::{AllocError, Global};
use std::process::Abort;
use std::test::Fail;

fn func<R: Abort>(rt: &R, alloc: Global) -> Result<Func, AllocError> {
    Ok(Func {
        sig: 0,
        locals: Locals::new(alloc),
        body: body(rt, alloc, &[Part::Const(7)])?,
    })
}

/// A module that exports a function which gives 7.
fn seven<R: Abort>(rt: &R, alloc: Global) -> Result<Module, AllocError> {
    let funcs = one(alloc, func(rt, alloc)?)?;
    let sigs = one(alloc, gives(alloc, one(alloc, ValType::I32)?))?;
    let exports = one(alloc, main_export(alloc)?)?;
    Ok(module(alloc, sigs, Vector::new(alloc), funcs, exports))
}

#[test]
fn function_that_gives_seven(rt: HostRuntime) -> Result<(), Fail> {
    let module = seven(&rt, rt.alloc())?;
    let text = write(rt.alloc(), &module)?;
    let wanted =
        b"(module\n  (type (func (result i32)))\n  (func (type 0)\n    i32.const 7)\n  (export \"main\" (func 0)))\n";
    assert!(rt; text.as_slice() == wanted.as_slice());
    Ok(())
}
