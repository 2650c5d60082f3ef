//! Types of values, functions, globals and limits.

use crate::vector::Vector;

/// A value type (WebAssembly 1.0, 2.3.1), the type of handles among them.
#[derive(Clone, Copy, PartialEq, Eq)]
pub enum ValType {
    /// Integers of 32 bits.
    I32,
    /// Integers of 64 bits.
    I64,
    /// Handles into the segment memory.
    Handle,
}

/// A function type (WebAssembly 1.0, 2.3.3).
#[derive(Drop)]
pub struct FuncType {
    /// The types of the parameters.
    pub params: Vector<ValType>,
    /// The types of the results.
    pub results: Vector<ValType>,
}

/// How many bytes a page has, the unit in which the size of a memory is given (WebAssembly 1.0, 4.2.8).
pub const PAGE: usize = 65_536;

/// The size of a memory or a table, in pages or entries (WebAssembly 1.0, 2.3.4).
#[derive(Clone, Copy, PartialEq, Eq)]
pub struct Limits {
    /// The size at the beginning.
    pub min: u32,
    /// The greatest size, if there is one.
    pub max: Option<u32>,
}

/// The type of a global (WebAssembly 1.0, 2.3.6).
#[derive(Clone, Copy, PartialEq, Eq)]
pub struct GlobalType {
    /// The type of its value.
    pub ty: ValType,
    /// Whether the value may change.
    pub mutable: bool,
}
