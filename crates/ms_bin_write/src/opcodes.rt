//! The opcodes of instructions (WebAssembly 1.0, 5.4), as the one table of them has them.

ghost use Rattle.std.specs.Prelude.{◌≡◌, None, codes};
ghost use Rattle.ms_module.specs.Instructions.{load_rows, opening_rows, segment_load_rows, segment_store_rows, store_rows};
ghost use Rattle.ms_flat.specs.Keywords.{code_of, load_word, opening_word, store_word};
ghost use Rattle.ms_flat.specs.refinement.Places.{block_of};
ghost use Rattle.ms_bin_write.specs.Types.{block_type_code, value_code};
ghost use Rattle.ms_bin_write.specs.Instrs.{kind_code, linear_code, numeric_code, opcode, segment_code};

use ms_bin_grammar::{FRAME, HEAP, NO_RESULT, opcodes, segment_codes};
use ms_handle::Kind;
use ms_module::BinOp::*;
use ms_module::LoadOp::{self, *};
use ms_module::Numeric::{self, *};
use ms_module::RelOp::*;
use ms_module::StoreOp::{self, *};
use ms_module::UnOp::*;
use ms_module::Width::{W32, W64};
use ms_module::{
    Instr, Linear, Opening, PREFIX, Segment, code_by_item, load_opcodes, numeric_opcodes,
    segment_load_codes, segment_store_codes, store_opcodes,
};
use ms_types::ValType;

/// The code of a value type.
#[tactic(auto, unfolding(crate::specs::Types::value_code, ms_module::specs::Instructions::value_rows))]
pub fn value_code(ty: ValType) -> u8
    ensures { result ≡ value_code ty }
{
    match ty {
        ValType::I32 => 0x7F,
        ValType::I64 => 0x7E,
        ValType::Handle => 0x58,
    }
}

/// The code of a block's type.
pub fn block_type_code(ty: Option<ValType>) -> u8
    ensures { result ≡ block_type_code ty }
{
    match ty {
        None => NO_RESULT,
        Some(ty) => value_code(ty),
    }
}

/// The opcode that opens a block.
#[tactic(auto, unfolding(ms_module::specs::Instructions::opening_rows))]
pub fn opening_code(opening: Opening) -> u8
    ensures { result ≡ code_of opening_rows (opening_word opening) }
{
    match opening {
        Opening::Block => opcodes::BLOCK,
        Opening::Loop => opcodes::LOOP,
        Opening::If => opcodes::IF,
    }
}

/// The opcode of a numeric instruction.
#[tactic(auto, unfolding(crate::specs::Instrs::numeric_code, ms_module::specs::Instructions::numeric_rows))]
fn numeric_code(op: Numeric) -> u8
    ensures { result ≡ numeric_code op }
{
    numeric_opcodes!(code_by_item op)
}

/// The opcode of a load.
#[tactic(auto, unfolding(ms_module::specs::Instructions::load_rows))]
fn load_code(op: LoadOp) -> u8
    ensures { result ≡ code_of load_rows (load_word (codes "load") op) }
{
    load_opcodes!(code_by_item op)
}

/// The opcode of a store.
#[tactic(auto, unfolding(ms_module::specs::Instructions::store_rows))]
fn store_code(op: StoreOp) -> u8
    ensures { result ≡ code_of store_rows (store_word (codes "store") op) }
{
    store_opcodes!(code_by_item op)
}

/// The opcode of an instruction on the linear memory.
#[tactic(auto, unfolding(crate::specs::Instrs::linear_code, ms_module::specs::Instructions::operand_rows))]
fn linear_code(instr: Linear) -> u8
    ensures { result ≡ linear_code instr }
{
    match instr {
        Linear::Load(op, _) => load_code(op),
        Linear::Store(op, _) => store_code(op),
        Linear::Size => opcodes::MEMORY_SIZE,
        Linear::Grow => opcodes::MEMORY_GROW,
    }
}

/// The byte behind the prefix of a load from a segment.
#[tactic(auto, unfolding(ms_module::specs::Instructions::segment_load_rows))]
fn segment_load_code(op: LoadOp) -> u8
    ensures { result ≡ code_of segment_load_rows (load_word (codes "segload") op) }
{
    segment_load_codes!(code_by_item op)
}

/// The byte behind the prefix of a store into a segment.
#[tactic(auto, unfolding(ms_module::specs::Instructions::segment_store_rows))]
fn segment_store_code(op: StoreOp) -> u8
    ensures { result ≡ code_of segment_store_rows (store_word (codes "segstore") op) }
{
    segment_store_codes!(code_by_item op)
}

/// The byte behind the prefix of an instruction on handles or segments.
#[tactic(auto, unfolding(crate::specs::Instrs::segment_code, ms_module::specs::Instructions::segment_rows))]
pub fn segment_code(instr: Segment) -> u8
    ensures { result ≡ segment_code instr }
{
    match instr {
        Segment::Null => segment_codes::HANDLE_NULL,
        Segment::New(_) => segment_codes::SEGMENT_NEW,
        Segment::Free(_) => segment_codes::SEGMENT_FREE,
        Segment::Add(_) => segment_codes::HANDLE_ADD,
        Segment::Slice => segment_codes::HANDLE_SLICE,
        Segment::Eq => segment_codes::HANDLE_EQ,
        Segment::IsNull => segment_codes::HANDLE_IS_NULL,
        Segment::Diff => segment_codes::HANDLE_DIFF,
        Segment::LoadHandle => segment_codes::HANDLE_LOAD,
        Segment::StoreHandle => segment_codes::HANDLE_STORE,
        Segment::Load(op) => segment_load_code(op),
        Segment::Store(op) => segment_store_code(op),
        Segment::Seal => segment_codes::HANDLE_SEAL,
    }
}

/// The byte of a kind of segments.
pub fn kind_code(kind: Kind) -> u8
    ensures { result ≡ kind_code kind }
{
    match kind {
        Kind::Heap => HEAP,
        Kind::Frame => FRAME,
    }
}

/// The opcode of an instruction that is no block.
#[tactic(auto, unfolding(crate::specs::Instrs::opcode, ms_module::specs::Instructions::operand_rows))]
pub fn opcode(instr: &Instr) -> u8
    requires { block_of instr.now ≡ None }
    ensures { result ≡ opcode instr.now }
{
    match instr {
        Instr::Block { .. } | Instr::Loop { .. } | Instr::If { .. } => unreachable!(),
        Instr::Unreachable => opcodes::UNREACHABLE,
        Instr::Nop => opcodes::NOP,
        Instr::Br(_) => opcodes::BR,
        Instr::BrIf(_) => opcodes::BR_IF,
        Instr::BrTable(_) => opcodes::BR_TABLE,
        Instr::Return => opcodes::RETURN,
        Instr::Call(_) => opcodes::CALL,
        Instr::CallIndirect(_) => opcodes::CALL_INDIRECT,
        Instr::Drop => opcodes::DROP,
        Instr::Select => opcodes::SELECT,
        Instr::LocalGet(_) => opcodes::LOCAL_GET,
        Instr::LocalSet(_) => opcodes::LOCAL_SET,
        Instr::LocalTee(_) => opcodes::LOCAL_TEE,
        Instr::GlobalGet(_) => opcodes::GLOBAL_GET,
        Instr::GlobalSet(_) => opcodes::GLOBAL_SET,
        Instr::I32Const(_) => opcodes::I32_CONST,
        Instr::I64Const(_) => opcodes::I64_CONST,
        Instr::Numeric(op) => numeric_code(*op),
        Instr::Linear(instr) => linear_code(*instr),
        Instr::Segment(_) => PREFIX,
    }
}
