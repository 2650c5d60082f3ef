//! Instructions.

use crate::access::{Linear, Segment};
use crate::br_table::BrTable;
use crate::numeric::Numeric;
use ms_types::ValType;

/// An instruction (WebAssembly 1.0, 2.4). Indices are those of the module, labels count from the innermost block.
///
/// A block names its sequence of instructions by its number in the body.
#[derive(Drop)]
pub enum Instr {
    Unreachable,
    Nop,
    /// Leaves a value of this type, if any, after its sequence.
    Block {
        ty: Option<ValType>,
        body: u32,
    },
    /// The same; a branch to it begins the sequence again.
    Loop {
        ty: Option<ValType>,
        body: u32,
    },
    /// Has a second sequence where there is an `else` that is not empty.
    If {
        ty: Option<ValType>,
        then: u32,
        other: Option<u32>,
    },
    Br(u32),
    BrIf(u32),
    BrTable(BrTable),
    Return,
    Call(u32),
    /// By the index of the function type.
    CallIndirect(u32),
    Drop,
    Select,
    LocalGet(u32),
    LocalSet(u32),
    LocalTee(u32),
    GlobalGet(u32),
    GlobalSet(u32),
    I32Const(i32),
    I64Const(i64),
    Numeric(Numeric),
    Linear(Linear),
    Segment(Segment),
}
