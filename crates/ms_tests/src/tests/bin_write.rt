//! That writing succeeds with ample memory. Which bytes are written is proved.

use super::shared::{Part, body, gives, main_export, module, one};
use ms_bin_write::write;
use ms_module::{Func, Locals, Module, Opening};
use ms_types::{ValType, Vector};
use std::alloc::{AllocError, Global};
use std::process::Abort;
use std::test::Fail;

/// The type `[] -> [i32]`, a function of it, its export as `main`, and its code: three locals in two runs, and an `if`.
const MODULE: [u8; 45] = [
    0x00, 0x61, 0x73, 0x6D, 0x01, 0x00, 0x00, 0x00, // the markers
    0x01, 0x05, 0x01, 0x60, 0x00, 0x01, 0x7F, // types
    0x03, 0x02, 0x01, 0x00, // functions
    0x07, 0x08, 0x01, 0x04, 0x6D, 0x61, 0x69, 0x6E, 0x00, 0x00, // export
    0x0A, 0x0E, 0x01, 0x0C, // the codes, and the size of the first
    0x02, 0x02, 0x7F, 0x01, 0x7E, // locals
    0x04, 0x40, 0x41, 0x7F, 0x0B, 0x0F, 0x0B, // the body
];

fn locals(alloc: Global) -> Result<Locals, AllocError> {
    let mut locals = Locals::new(alloc);
    locals.push(2, ValType::I32)?;
    if locals.len() < 9 {
        locals.push(1, ValType::I64)?;
    }
    Ok(locals)
}

fn func<R: Abort>(rt: &R, alloc: Global) -> Result<Func, AllocError> {
    let parts = [
        Part::Open(Opening::If, None),
        Part::Const(-1),
        Part::Close,
        Part::Return,
    ];
    Ok(Func {
        sig: 0,
        locals: locals(alloc)?,
        body: body(rt, alloc, &parts)?,
    })
}

fn function<R: Abort>(rt: &R, alloc: Global) -> Result<Module, AllocError> {
    let funcs = one(alloc, func(rt, alloc)?)?;
    let sigs = one(alloc, gives(alloc, one(alloc, ValType::I32)?))?;
    let exports = one(alloc, main_export(alloc)?)?;
    Ok(module(alloc, sigs, Vector::new(alloc), funcs, exports))
}

#[test]
fn writes_a_function(rt: HostRuntime) -> Result<(), Fail> {
    let module = function(&rt, rt.alloc())?;
    let bytes = write(rt.alloc(), &module)?;
    assert_eq!(rt; bytes.as_slice(), MODULE.as_slice());
    Ok(())
}
