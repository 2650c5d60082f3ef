//! Writing bodies (WebAssembly 1.0, 5.4).

ghost use Rattle.std.specs.Prelude.{◌≡◌, ◌++◌, ◌<◌, ◌^◌, OnOk};
ghost use Rattle.ms_flat.specs.refinement.Places.{IsStep, block_of, item_of};
ghost use Rattle.ms_bin_write.specs.Instrs.{body_bytes, item_bytes, linear_operands, mem_arg_bytes, operands, segment_operands};
ghost use Rattle.ms_bin_write.specs.Parts.{number_bytes, vec_bytes};
ghost use Rattle.ms_flat.specs.refinement.Ranges.{AllFit, CodeFits, InstrFits, ItemFits, LinearFits, NumberFits, SegmentFits};

use crate::items::{Item, write_vec};
use crate::opcodes::{block_type_code, kind_code, opcode, opening_code, segment_code};
use ms_flat::{Step, Walk};
use ms_leb::{write_s, write_u};
use ms_module::{BrTable, Code, ELSE_CODE, END_CODE, Instr, Linear, MemArg, Segment};
use std::alloc::{AllocError, Global};

/// Writes the alignment and the offset of an access.
fn write_mem_arg(arg: MemArg, out: &mut Vec<u8>) -> Result<(), AllocError>
    ensures { OnOk result (out.new.items ≡ out.old.items ++ mem_arg_bytes arg) }
{
    write_u(u64::from(arg.align), out)?;
    write_u(u64::from(arg.offset), out)
}

/// Writes what stands behind the opcode of an instruction on the linear memory.
fn write_linear(instr: Linear, out: &mut Vec<u8>) -> Result<(), AllocError>
    ensures written { OnOk result (out.new.items ≡ out.old.items ++ linear_operands instr) }
    ensures within { LinearFits instr }
{
    match instr {
        Linear::Load(_, arg) => write_mem_arg(arg, out),
        Linear::Store(_, arg) => write_mem_arg(arg, out),
        Linear::Size | Linear::Grow => {
            out.push(0x00)?;
            Ok(())
        }
    }
}

/// Writes what stands behind the two bytes of an instruction on handles or segments.
fn write_segment(instr: Segment, out: &mut Vec<u8>) -> Result<(), AllocError>
    ensures written { OnOk result (out.new.items ≡ out.old.items ++ segment_operands instr) }
    ensures within { SegmentFits instr }
{
    match instr {
        Segment::New(kind) | Segment::Free(kind) => {
            out.push(kind_code(kind))?;
            Ok(())
        }
        Segment::Add(scale) => write_u(u64::from(scale), out),
        _ => Ok(()),
    }
}

/// Writes the labels of a `br_table`.
fn write_targets(alloc: Global, targets: &BrTable, out: &mut Vec<u8>) -> Result<(), AllocError>
    ensures written { OnOk result (out.new.items ≡ out.old.items ++ (vec_bytes number_bytes targets.now.labels ++ number_bytes targets.now.default)) }
    ensures within { OnOk result (AllFit NumberFits targets.now.labels × (targets.now.default < 2 ^ 32)) }
{
    write_vec(alloc, targets.labels(), out)?;
    write_u(u64::from(targets.default()), out)
}

/// Writes the operands of an instruction.
fn write_operands(alloc: Global, instr: &Instr, out: &mut Vec<u8>) -> Result<(), AllocError>
    ensures written { OnOk result (out.new.items ≡ out.old.items ++ operands instr.now) }
    ensures within { OnOk result (InstrFits instr.now) }
{
    match instr {
        Instr::Br(number)
        | Instr::BrIf(number)
        | Instr::Call(number)
        | Instr::LocalGet(number)
        | Instr::LocalSet(number)
        | Instr::LocalTee(number)
        | Instr::GlobalGet(number)
        | Instr::GlobalSet(number) => write_u(u64::from(*number), out),
        Instr::BrTable(targets) => write_targets(alloc, targets, out),
        Instr::CallIndirect(sig) => {
            write_u(u64::from(*sig), out)?;
            out.push(0x00)?;
            Ok(())
        }
        Instr::I32Const(value) => write_s(i64::from(*value), out),
        Instr::I64Const(value) => write_s(*value, out),
        Instr::Linear(instr) => write_linear(*instr, out),
        Instr::Segment(instr) => {
            out.push(segment_code(*instr))?;
            write_segment(*instr, out)
        }
        _ => Ok(()),
    }
}

/// Writes an item of a body.
fn write_step(alloc: Global, step: Step<'_>, out: &mut Vec<u8>) -> Result<(), AllocError>
    requires { IsStep step }
    ensures written { OnOk result (out.new.items ≡ out.old.items ++ item_bytes (item_of step.entry)) }
    ensures within { OnOk result (ItemFits (item_of step.entry)) }
{
    match step {
        Step::Plain(instr) => {
            out.push(opcode(instr))?;
            write_operands(alloc, instr, out)
        }
        Step::Begin { opening, ty } => {
            out.push(opening_code(opening))?;
            out.push(block_type_code(ty))?;
            Ok(())
        }
        Step::Else => {
            out.push(ELSE_CODE)?;
            Ok(())
        }
        Step::End => {
            out.push(END_CODE)?;
            Ok(())
        }
    }
}

/// Writes the instructions of a body or of a constant expression, and an `end`.
impl Item for Code {
    ghost bytes = { body_bytes };

    ghost fits = { CodeFits };

    #[tactic(auto, unfolding(crate::specs::Instrs::body_bytes))]
    fn write(&self, alloc: Global, out: &mut Vec<u8>) -> Result<(), AllocError> {
        let mut walk = Walk::new(alloc, self);
        while let Some(step) = walk.next()? {
            write_step(alloc, step, out)?;
        }
        out.push(END_CODE)?;
        Ok(())
    }
}
