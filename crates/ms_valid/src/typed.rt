//! Instructions that have one type each, and linear accesses (WebAssembly 1.0, 3.3.1 and 3.3.4).

ghost use Rattle.std.specs.Prelude.{◌≡◌, ◌≤◌, ◌^◌, IfOk, IsTrue, ◌↔◌};
ghost use Rattle.ms_rules.specs.Instructions.{instr_type, numeric_type, segment_type};
ghost use Rattle.ms_rules.specs.Typing.{LinearTyped, IsAligned, HasType};
ghost use Rattle.ms_valid.specs.refinement.Shape.{DecidesOn};

use crate::operands::Operands;
use ms_module::{Linear, Numeric, Segment};
use ms_rules::{
    linear_params, linear_result, numeric_params, numeric_result, segment_params, segment_result,
};
use ms_types::ValType;
use std::alloc::AllocError;

/// Takes these parameters and gives this result.
fn apply(
    operands: &mut Operands,
    params: &[ValType],
    ty: Option<ValType>,
) -> Result<bool, AllocError>
    ensures { IfOk result (λ b. DecidesOn b operands.old (HasType (instr_type params.now ty)) operands.new) }
{
    if !operands.take_params(params) {
        return Ok(false);
    }
    operands.give_result(ty)?;
    Ok(true)
}

/// A numeric instruction.
pub fn numeric(operands: &mut Operands, instr: Numeric) -> Result<bool, AllocError>
    ensures { IfOk result (λ b. DecidesOn b operands.old (HasType (numeric_type instr)) operands.new) }
{
    Ok(apply(operands, numeric_params(instr), numeric_result(instr))?)
}

/// An instruction on handles and segments.
pub fn segment(operands: &mut Operands, instr: Segment) -> Result<bool, AllocError>
    ensures { IfOk result (λ b. DecidesOn b operands.old (HasType (segment_type instr)) operands.new) }
{
    Ok(apply(operands, segment_params(instr), segment_result(instr))?)
}

/// Whether 2 to this power is at most so many bytes.
fn is_within(align: u32, bytes: u32) -> bool
    ensures { IsTrue result ↔ 2 ^ align ≤ bytes }
{
    align < 32 && 1 << align <= bytes
}

/// Whether the alignment is at most the natural one.
fn is_aligned(instr: Linear) -> bool
    ensures { IsTrue result ↔ IsAligned instr }
{
    match instr {
        Linear::Load(op, arg) => is_within(arg.align, op.bytes()),
        Linear::Store(op, arg) => is_within(arg.align, op.bytes()),
        _ => true,
    }
}

/// An instruction on the linear memory, where there are so many memories.
pub fn linear(operands: &mut Operands, memories: usize, instr: Linear) -> Result<bool, AllocError>
    ensures { IfOk result (λ b. DecidesOn b operands.old (LinearTyped memories instr) operands.new) }
{
    if memories == 0 {
        return Ok(false);
    }
    if !is_aligned(instr) {
        return Ok(false);
    }
    Ok(apply(operands, linear_params(instr), linear_result(instr))?)
}
