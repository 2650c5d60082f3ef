//! What tests share: bodies, modules, and how a value is printed.

use ms_module::{Builder, Code, Export, ExportDesc, Func, Import, Instr, Module, Name, Opening};
use ms_types::{FuncType, ValType, Vector};
use std::alloc::{AllocError, Global};
use std::process::Abort;
use std::test::Fail;

/// What is added to a body.
#[derive(Clone, Copy)]
pub enum Part {
    Open(Opening, Option<ValType>),
    Const(i32),
    Nop,
    Drop,
    Return,
    Turn,
    Close,
}

/// Adds a part. A `Turn` begins the second sequence of an `if`.
pub fn add<R: Abort>(rt: &R, body: &mut Builder, part: Part) -> Result<(), AllocError> {
    match part {
        Part::Open(opening, ty) => body.open(opening, ty),
        Part::Const(n) => body.add(Instr::I32Const(n)),
        Part::Nop => body.add(Instr::Nop),
        Part::Drop => body.add(Instr::Drop),
        Part::Return => body.add(Instr::Return),
        Part::Turn => {
            assert!(rt; body.may_else());
            body.begin_else();
            Ok(())
        }
        Part::Close => {
            assert!(rt; body.depth() > 0);
            body.close()
        }
    }
}

pub fn add_all<R: Abort>(rt: &R, body: &mut Builder, parts: &[Part]) -> Result<(), AllocError> {
    for part in parts {
        add(rt, body, *part)?;
    }
    Ok(())
}

/// The body, no block of which is open.
pub fn finish<R: Abort>(rt: &R, body: Builder) -> Code {
    assert!(rt; body.depth() == 0);
    body.finish()
}

pub fn body<R: Abort>(rt: &R, alloc: Global, parts: &[Part]) -> Result<Code, AllocError> {
    let mut body = Builder::new(alloc)?;
    add_all(rt, &mut body, parts)?;
    Ok(finish(rt, body))
}

pub fn one<T: Drop>(alloc: Global, item: T) -> Result<Vector<T>, AllocError> {
    let mut items = Vector::new(alloc);
    items.push(item)?;
    Ok(items)
}

/// The type of a function without parameters.
pub fn gives(alloc: Global, results: Vector<ValType>) -> FuncType {
    FuncType {
        params: Vector::new(alloc),
        results,
    }
}

/// The export of function 0 as `main`.
pub fn main_export(alloc: Global) -> Result<Export, AllocError> {
    Ok(Export {
        name: Name::new(alloc, "main")?,
        desc: ExportDesc::Func(0),
    })
}

/// A module of these parts and no others.
pub fn module(
    alloc: Global,
    sigs: Vector<FuncType>,
    imports: Vector<Import>,
    funcs: Vector<Func>,
    exports: Vector<Export>,
) -> Module {
    Module {
        sigs,
        imports,
        funcs,
        tables: Vector::new(alloc),
        memories: Vector::new(alloc),
        globals: Vector::new(alloc),
        exports,
        elements: Vector::new(alloc),
        fills: Vector::new(alloc),
        start: None,
    }
}

/// How many types, imports, functions, tables, memories, globals, exports, elements and pieces of data a module has.
pub fn counts(module: &Module) -> [usize; 9] {
    [
        module.sigs.len(),
        module.imports.len(),
        module.funcs.len(),
        module.tables.len(),
        module.memories.len(),
        module.globals.len(),
        module.exports.len(),
        module.elements.len(),
        module.fills.len(),
    ]
}
