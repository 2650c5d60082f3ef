//! Writing bodies (WebAssembly 1.0, 6.5).

ghost use Rattle.std.specs.Prelude.{◌≡◌, ◌++◌, ◌≤◌, ◌^◌, OnOk, decimal};
ghost use Rattle.ms_module.specs.Numbered.{HasAlign, IsPlain};
ghost use Rattle.ms_flat.specs.refinement.Places.{item_of};
ghost use Rattle.ms_text_write.specs.Parts.{spaced};
ghost use Rattle.ms_flat.specs.refinement.Ranges.{CodeFits, InstrFits, ItemFits, LinearFits, SegmentFits, TargetsFit};
ghost use Rattle.ms_text_write.specs.Instrs.{ItemIsPlain, align_text, block_type_text, body_text, constant_text, item_text, kind_word, linear_operands, mem_arg_text, number_text, offset_text, operands, segment_operands};

use crate::parts::{write_behind, write_indexed, write_number, write_signed};
use crate::types::write_group;
use crate::words::{opening_word, write_keyword};
use ms_flat::{Step, Walk};
use ms_handle::Kind;
use ms_module::{BrTable, Code, Instr, Linear, MemArg, Segment};
use ms_text_grammar::{ALIGN_FRONT, ELSE_WORD, END_WORD, OFFSET_FRONT, Word};
use ms_types::ValType;
use std::alloc::{AllocError, Global};

/// Writes a number behind a space.
fn write_operand(number: u32, out: &mut Vec<u8>) -> Result<(), AllocError>
    ensures { OnOk result (out.new.items ≡ out.old.items ++ number_text number) }
{
    out.push(b' ')?;
    write_number(number, out)
}

/// Writes a constant behind a space.
fn write_constant(value: i64, out: &mut Vec<u8>) -> Result<(), AllocError>
    ensures { OnOk result (out.new.items ≡ out.old.items ++ constant_text value) }
{
    out.push(b' ')?;
    write_signed(value, out)
}

/// Writes the offset of an access; nothing at 0.
fn write_offset(offset: u32, out: &mut Vec<u8>) -> Result<(), AllocError>
    ensures { OnOk result (out.new.items ≡ out.old.items ++ offset_text offset) }
{
    if offset == 0 {
        return Ok(());
    }
    out.push(b' ')?;
    out.extend_from_slice(OFFSET_FRONT)?;
    write_number(offset, out)
}

/// How many bytes an alignment is.
fn align_bytes(align: u32) -> u32
    requires { align ≤ 31 }
    ensures { result ≡ 2 ^ align }
{
    1 << align
}

/// Writes the alignment of an access; nothing where it is natural.
fn write_align(natural: u32, align: u32, out: &mut Vec<u8>) -> Result<(), AllocError>
    requires { align ≤ 31 }
    ensures { OnOk result (out.new.items ≡ out.old.items ++ align_text natural align) }
{
    let bytes = align_bytes(align);
    if bytes == natural {
        return Ok(());
    }
    out.push(b' ')?;
    out.extend_from_slice(ALIGN_FRONT)?;
    write_number(bytes, out)
}

/// Writes the offset and the alignment of an access of so many bytes.
#[tactic(auto, unfolding(crate::specs::Instrs::mem_arg_text))]
fn write_mem_arg(natural: u32, arg: MemArg, out: &mut Vec<u8>) -> Result<(), AllocError>
    requires { arg.align ≤ 31 }
    ensures { OnOk result (out.new.items ≡ out.old.items ++ mem_arg_text natural arg) }
{
    write_offset(arg.offset, out)?;
    write_align(natural, arg.align, out)
}

/// Writes the operands of an instruction on the linear memory.
fn write_linear(instr: Linear, out: &mut Vec<u8>) -> Result<(), AllocError>
    requires { HasAlign instr }
    ensures written { OnOk result (out.new.items ≡ out.old.items ++ linear_operands instr) }
    ensures within { LinearFits instr }
{
    match instr {
        Linear::Load(op, arg) => write_mem_arg(op.bytes(), arg, out),
        Linear::Store(op, arg) => write_mem_arg(op.bytes(), arg, out),
        Linear::Size | Linear::Grow => Ok(()),
    }
}

/// The word of a kind of segments.
fn kind_word(kind: Kind) -> &'static [u8]
    ensures { result.now ≡ kind_word kind }
{
    match kind {
        Kind::Heap => Word::Heap.spelling(),
        Kind::Frame => Word::Frame.spelling(),
    }
}

/// Writes the operands of an instruction on handles or segments.
fn write_segment(instr: Segment, out: &mut Vec<u8>) -> Result<(), AllocError>
    ensures written { OnOk result (out.new.items ≡ out.old.items ++ segment_operands instr) }
    ensures within { SegmentFits instr }
{
    match instr {
        Segment::New(kind) | Segment::Free(kind) => {
            out.push(b' ')?;
            out.extend_from_slice(kind_word(kind))
        }
        Segment::Add(scale) => write_operand(scale, out),
        _ => Ok(()),
    }
}

/// Writes the labels of a `br_table`, the default one last.
fn write_targets(alloc: Global, targets: &BrTable, out: &mut Vec<u8>) -> Result<(), AllocError>
    ensures written { OnOk result (out.new.items ≡ out.old.items ++ (spaced decimal targets.now.labels ++ number_text targets.now.default)) }
    ensures within { OnOk result (TargetsFit targets.now) }
{
    write_behind(alloc, b" ", targets.labels(), out)?;
    write_operand(targets.default(), out)
}

/// Writes the operands of an instruction.
fn write_operands(alloc: Global, instr: &Instr, out: &mut Vec<u8>) -> Result<(), AllocError>
    requires { IsPlain instr.now }
    ensures written { OnOk result (out.new.items ≡ out.old.items ++ operands instr.now) }
    ensures within { OnOk result (InstrFits instr.now) }
{
    match instr {
        Instr::Br(number)
        | Instr::BrIf(number)
        | Instr::Call(number)
        | Instr::LocalGet(number)
        | Instr::LocalSet(number)
        | Instr::LocalTee(number)
        | Instr::GlobalGet(number)
        | Instr::GlobalSet(number) => write_operand(*number, out),
        Instr::BrTable(targets) => write_targets(alloc, targets, out),
        Instr::CallIndirect(sig) => {
            out.push(b' ')?;
            write_indexed(Word::Type, *sig, out)
        }
        Instr::I32Const(value) => write_constant(i64::from(*value), out),
        Instr::I64Const(value) => write_constant(*value, out),
        Instr::Linear(instr) => write_linear(*instr, out),
        Instr::Segment(instr) => write_segment(*instr, out),
        _ => Ok(()),
    }
}

/// Writes the type of a block's result, if it has one.
fn write_block_type(alloc: Global, ty: Option<ValType>, out: &mut Vec<u8>) -> Result<(), AllocError>
    ensures { OnOk result (out.new.items ≡ out.old.items ++ block_type_text ty) }
{
    let Some(ty) = ty else {
        return Ok(());
    };
    write_group(alloc, Word::Result, &[ty], out)
}

/// Writes an item of a body.
#[tactic(auto, unfolding(crate::specs::Instrs::item_text))]
fn write_step(alloc: Global, step: Step<'_>, out: &mut Vec<u8>) -> Result<(), AllocError>
    requires { ItemIsPlain (item_of step) }
    ensures written { OnOk result (out.new.items ≡ out.old.items ++ item_text (item_of step.entry)) }
    ensures within { OnOk result (ItemFits (item_of step.entry)) }
{
    match step {
        Step::Plain(instr) => {
            write_keyword(instr, out)?;
            write_operands(alloc, instr, out)
        }
        Step::Begin { opening, ty } => {
            out.extend_from_slice(opening_word(opening))?;
            write_block_type(alloc, ty, out)
        }
        Step::Else => out.extend_from_slice(ELSE_WORD),
        Step::End => out.extend_from_slice(END_WORD),
    }
}

/// Writes the items of a body from left to right, each behind a lead.
#[tactic(auto, unfolding(crate::specs::Instrs::body_text))]
pub fn write_body(
    alloc: Global,
    lead: &[u8],
    body: &Code,
    out: &mut Vec<u8>,
) -> Result<(), AllocError>
    ensures written { OnOk result (out.new.items ≡ out.old.items ++ body_text lead.now body.now) }
    ensures within { OnOk result (CodeFits body.now) }
{
    let mut walk = Walk::new(alloc, body);
    while let Some(step) = walk.next()? {
        out.extend_from_slice(lead)?;
        write_step(alloc, step, out)?;
    }
    Ok(())
}
