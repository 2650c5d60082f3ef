//! The parts of a module (WebAssembly 1.0, 2.5).

use crate::code::Code;
use crate::locals::Locals;
use crate::name::Name;
use ms_types::{FuncType, GlobalType, Limits, Vector};

/// What an import asks for (WebAssembly 1.0, 2.5.11).
#[derive(Clone, Copy, PartialEq, Eq)]
pub enum ImportDesc {
    /// A function, by the index of its type.
    Func(u32),
    /// A table of so many entries.
    Table(Limits),
    /// A memory of so many pages.
    Memory(Limits),
    /// A global of this type.
    Global(GlobalType),
}

/// An import (WebAssembly 1.0, 2.5.11).
#[derive(Drop)]
pub struct Import {
    /// The module that it comes from.
    pub module: Name,
    /// The name that it has there.
    pub name: Name,
    /// What it is.
    pub desc: ImportDesc,
}

/// A function (WebAssembly 1.0, 2.5.3).
#[derive(Drop)]
pub struct Func {
    /// The index of its type.
    pub sig: u32,
    /// The types of the locals that it declares, its parameters not among them.
    pub locals: Locals,
    /// Its body.
    pub body: Code,
}

/// A global (WebAssembly 1.0, 2.5.6).
#[derive(Drop)]
pub struct Global {
    /// Its type.
    pub ty: GlobalType,
    /// The constant expression of its first value.
    pub init: Code,
}

/// What an export gives, by its index (WebAssembly 1.0, 2.5.10).
#[derive(Clone, Copy, PartialEq, Eq)]
pub enum ExportDesc {
    Func(u32),
    Table(u32),
    Memory(u32),
    Global(u32),
}

/// An export (WebAssembly 1.0, 2.5.10).
#[derive(Drop)]
pub struct Export {
    /// The name that it is known by.
    pub name: Name,
    /// What it gives.
    pub desc: ExportDesc,
}

/// Entries that a table begins with (WebAssembly 1.0, 2.5.7).
#[derive(Drop)]
pub struct Element {
    /// The index of the table.
    pub table: u32,
    /// The constant expression of the place of the first entry.
    pub offset: Code,
    /// The indices of the functions.
    pub funcs: Vector<u32>,
}

/// Bytes that a memory begins with, a data segment of the standard (WebAssembly 1.0, 2.5.8).
#[derive(Drop)]
pub struct Fill {
    /// The index of the memory.
    pub memory: u32,
    /// The constant expression of the place of the first byte.
    pub offset: Code,
    /// The bytes.
    pub bytes: Vector<u8>,
}

/// A module (WebAssembly 1.0, 2.5).
#[derive(Drop)]
pub struct Module {
    /// The function types.
    pub sigs: Vector<FuncType>,
    /// The imports.
    pub imports: Vector<Import>,
    /// The functions, behind the imported ones in the index space.
    pub funcs: Vector<Func>,
    /// The sizes of the tables.
    pub tables: Vector<Limits>,
    /// The sizes of the memories.
    pub memories: Vector<Limits>,
    /// The globals, behind the imported ones in the index space.
    pub globals: Vector<Global>,
    /// The exports.
    pub exports: Vector<Export>,
    /// The entries of tables.
    pub elements: Vector<Element>,
    /// The bytes of memories.
    pub fills: Vector<Fill>,
    /// The index of the start function, if there is one.
    pub start: Option<u32>,
}
