//! What the sections of a module say so far.

use ms_module::{Element, Export, Fill, Func, Global, Import};
use ms_types::{FuncType, Limits, Vector};

/// What the sections so far say (WebAssembly 1.0, 5.5): the number of the last one that was no custom section, and what
/// each holds.
#[derive(Drop)]
pub struct Sections {
    /// The number of the last section that was no custom one, or 0.
    pub last: u8,
    /// The function types.
    pub sigs: Vector<FuncType>,
    /// The imports.
    pub imports: Vector<Import>,
    /// The indices of the functions' types.
    pub indices: Vector<u32>,
    /// The sizes of the tables.
    pub tables: Vector<Limits>,
    /// The sizes of the memories.
    pub memories: Vector<Limits>,
    /// The globals.
    pub globals: Vector<Global>,
    /// The exports.
    pub exports: Vector<Export>,
    /// The index of the start function.
    pub start: Option<u32>,
    /// The entries of tables.
    pub elements: Vector<Element>,
    /// The functions of the code section.
    pub funcs: Vector<Func>,
    /// The bytes of memories.
    pub fills: Vector<Fill>,
}
