//! Reading instructions that are no blocks (WebAssembly 1.0, 5.4).

ghost use Rattle.std.specs.Prelude.{◌≤◌, IfOk};
ghost use Rattle.ms_bytes.specs.Codes.{second_at};
ghost use Rattle.ms_module.specs.Numbered.{IsPlain};
ghost use Rattle.ms_bin_grammar.specs.Code.{br_table, kind, mem_arg, operations, plain, segment_accesses, segments};
ghost use Rattle.ms_bin_grammar.specs.declared.fault.ReadFault.TheVariants.{Malformed};
ghost use Rattle.ms_bin_read.specs.refinement.Readers.{Reads};

use crate::items::{Item, byte_of, marks_of};
use crate::numbers::{i32_of, i64_of, u32_of};
use ms_bin_grammar::{FRAME, HEAP, ReadFault, opcodes, segment_codes};
use ms_bytes::Cursor;
use ms_handle::Kind;
use ms_module::{
    BrTable, Instr, Linear, LoadOp, MemArg, Numeric, PREFIX, Segment, StoreOp, Targets,
    is_float_opcode,
};
use std::alloc::Global;

/// Reads the alignment and the offset of an access.
#[tactic(auto, unfolding(ms_bin_grammar::specs::Code::mem_arg))]
fn mem_arg_of(c: &mut Cursor) -> Result<MemArg, ReadFault>
    ensures read { Reads c.old c.new result (mem_arg.read c.old.end c.old.left) }
    ensures aligned { IfOk result (λ arg. arg.align ≤ 31) }
{
    let at = c.at();
    let align = u32_of(c)?;
    if align > 31 {
        return Err(ReadFault::Malformed { at });
    }
    let offset = u32_of(c)?;
    Ok(MemArg { align, offset })
}

/// Reads a kind of segments.
#[tactic(auto, unfolding(ms_bin_grammar::specs::Code::kind))]
fn kind_of(c: &mut Cursor) -> Result<Kind, ReadFault>
    ensures { Reads c.old c.new result (kind.read c.old.end c.old.left) }
{
    let at = c.at();
    match byte_of(c)? {
        HEAP => Ok(Kind::Heap),
        FRAME => Ok(Kind::Frame),
        _ => Err(ReadFault::Malformed { at }),
    }
}

/// The load from a segment, or the store into one, of this second byte.
#[tactic(auto, unfolding(ms_bin_grammar::specs::Code::segment_accesses))]
fn segment_access_of(at: usize, code: u8, c: &mut Cursor) -> Result<Instr, ReadFault>
    ensures read { Reads c.old c.new result (segment_accesses.read at code c.old.end c.old.left) }
    ensures plain { IfOk result IsPlain }
{
    if let Some(op) = LoadOp::from_segment_code(code) {
        return Ok(Instr::Segment(Segment::Load(op)));
    }
    if let Some(op) = StoreOp::from_segment_code(code) {
        return Ok(Instr::Segment(Segment::Store(op)));
    }
    Err(ReadFault::Malformed { at })
}

/// Reads what is behind the second byte of an instruction on handles or segments, which began at `at`.
#[tactic(auto, unfolding(ms_bin_grammar::specs::Code::segments, ms_module::specs::Instructions::segment_rows))]
fn segment_of(at: usize, code: u8, c: &mut Cursor) -> Result<Instr, ReadFault>
    ensures read { Reads c.old c.new result (segments.read at code c.old.end c.old.left) }
    ensures plain { IfOk result IsPlain }
{
    match code {
        segment_codes::HANDLE_NULL => Ok(Instr::Segment(Segment::Null)),
        segment_codes::SEGMENT_NEW => Ok(Instr::Segment(Segment::New(kind_of(c)?))),
        segment_codes::SEGMENT_FREE => Ok(Instr::Segment(Segment::Free(kind_of(c)?))),
        segment_codes::HANDLE_ADD => Ok(Instr::Segment(Segment::Add(u32_of(c)?))),
        segment_codes::HANDLE_SLICE => Ok(Instr::Segment(Segment::Slice)),
        segment_codes::HANDLE_EQ => Ok(Instr::Segment(Segment::Eq)),
        segment_codes::HANDLE_IS_NULL => Ok(Instr::Segment(Segment::IsNull)),
        segment_codes::HANDLE_DIFF => Ok(Instr::Segment(Segment::Diff)),
        segment_codes::HANDLE_LOAD => Ok(Instr::Segment(Segment::LoadHandle)),
        segment_codes::HANDLE_STORE => Ok(Instr::Segment(Segment::StoreHandle)),
        segment_codes::HANDLE_SEAL => Ok(Instr::Segment(Segment::Seal)),
        _ => segment_access_of(at, code, c),
    }
}

/// Reads the second byte of an instruction that began at `at`, and what is behind it.
fn second_of(at: usize, c: &mut Cursor) -> Result<Instr, ReadFault>
    ensures read { Reads c.old c.new result (second_at Malformed segments at c.old.end c.old.left) }
    ensures plain { IfOk result IsPlain }
{
    match c.take() {
        Some(code) => segment_of(at, code, c),
        None => Err(ReadFault::Malformed { at }),
    }
}

/// Reads what is behind an opcode at `at` that has neither an index nor a constant behind it.
#[tactic(auto, unfolding(ms_bin_grammar::specs::Code::operations, ms_bin_grammar::specs::Code::load, ms_bin_grammar::specs::Code::store))]
fn operation_of(at: usize, code: u8, c: &mut Cursor) -> Result<Instr, ReadFault>
    ensures read { Reads c.old c.new result (operations.read at code c.old.end c.old.left) }
    ensures plain { IfOk result IsPlain }
{
    if let Some(op) = Numeric::from_opcode(code) {
        return Ok(Instr::Numeric(op));
    }
    if let Some(op) = LoadOp::from_opcode(code) {
        return Ok(Instr::Linear(Linear::Load(op, mem_arg_of(c)?)));
    }
    if let Some(op) = StoreOp::from_opcode(code) {
        return Ok(Instr::Linear(Linear::Store(op, mem_arg_of(c)?)));
    }
    if code == PREFIX {
        return second_of(at, c);
    }
    if is_float_opcode(code) {
        return Err(ReadFault::Float { at });
    }
    Err(ReadFault::Malformed { at })
}

/// Reads the labels of a `br_table`.
#[tactic(auto, unfolding(ms_bin_grammar::specs::Code::br_table))]
fn br_table_of(alloc: Global, c: &mut Cursor) -> Result<BrTable, ReadFault>
    ensures { Reads c.old c.new result (br_table.read c.old.end c.old.left) }
{
    let labels = Item::read(alloc, c)?;
    let default = u32_of(c)?;
    Ok(BrTable::new(alloc, Targets { labels, default })?)
}

/// Reads what is behind an opcode at `at` that is that of no block.
#[tactic(auto, unfolding(ms_bin_grammar::specs::Code::plain, ms_module::specs::Instructions::operand_rows))]
pub fn plain_of(alloc: Global, at: usize, code: u8, c: &mut Cursor) -> Result<Instr, ReadFault>
    ensures read { Reads c.old c.new result (plain.read at code c.old.end c.old.left) }
    ensures plain { IfOk result IsPlain }
{
    match code {
        opcodes::UNREACHABLE => Ok(Instr::Unreachable),
        opcodes::NOP => Ok(Instr::Nop),
        opcodes::BR => Ok(Instr::Br(u32_of(c)?)),
        opcodes::BR_IF => Ok(Instr::BrIf(u32_of(c)?)),
        opcodes::BR_TABLE => Ok(Instr::BrTable(br_table_of(alloc, c)?)),
        opcodes::RETURN => Ok(Instr::Return),
        opcodes::CALL => Ok(Instr::Call(u32_of(c)?)),
        opcodes::CALL_INDIRECT => {
            let sig = u32_of(c)?;
            marks_of(&[0x00], c)?;
            Ok(Instr::CallIndirect(sig))
        }
        opcodes::DROP => Ok(Instr::Drop),
        opcodes::SELECT => Ok(Instr::Select),
        opcodes::LOCAL_GET => Ok(Instr::LocalGet(u32_of(c)?)),
        opcodes::LOCAL_SET => Ok(Instr::LocalSet(u32_of(c)?)),
        opcodes::LOCAL_TEE => Ok(Instr::LocalTee(u32_of(c)?)),
        opcodes::GLOBAL_GET => Ok(Instr::GlobalGet(u32_of(c)?)),
        opcodes::GLOBAL_SET => Ok(Instr::GlobalSet(u32_of(c)?)),
        opcodes::MEMORY_SIZE => {
            marks_of(&[0x00], c)?;
            Ok(Instr::Linear(Linear::Size))
        }
        opcodes::MEMORY_GROW => {
            marks_of(&[0x00], c)?;
            Ok(Instr::Linear(Linear::Grow))
        }
        opcodes::I32_CONST => Ok(Instr::I32Const(i32_of(c)?)),
        opcodes::I64_CONST => Ok(Instr::I64Const(i64_of(c)?)),
        _ => operation_of(at, code, c),
    }
}
