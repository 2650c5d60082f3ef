//! Modules as data (WebAssembly 1.0, chapter 2), on `ms_types` and the kinds of `ms_handle`.
//!
//! A body is its sequences of instructions, numbered in the order in which they begin. `specs/Building.antt`, the definition
//! to read first, says which sequences are those of a body; `Builder` makes them. `specs/Instructions.antt` is the one table
//! of opcodes and keywords that readers and writers of both formats cite.
#![tactic(auto)]

mod access;
mod br_table;
mod builder;
mod code;
mod instr;
mod laws;
mod limits;
mod locals;
mod module;
mod name;
mod numeric;
mod opcode;

pub use access::{Linear, LoadOp, MemArg, Segment, StoreOp};
pub use br_table::{BrTable, Targets};
pub use builder::{Arm, Builder, Open, Opening};
pub use code::Code;
pub use instr::Instr;
pub use laws::{bodies_have_a_depth, rows_are_apart};
pub use limits::{MOST_BLOCKS, MOST_LOCALS};
pub use locals::{Locals, Run};
pub use module::{Element, Export, ExportDesc, Fill, Func, Global, Import, ImportDesc, Module};
pub use name::Name;
pub use numeric::{BinOp, Numeric, RelOp, UnOp, Width};
pub use opcode::{ELSE_CODE, END_CODE, PREFIX, is_float_opcode, is_float_type, val_type_from_code};
