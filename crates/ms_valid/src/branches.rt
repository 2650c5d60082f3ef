//! Branches (WebAssembly 1.0, 3.3.5), by what the label takes.

ghost use Rattle.std.specs.Prelude.{◌≡◌, slice_get, Some, IfOk, IsTrue, ◌↔◌};
ghost use Rattle.ms_rules.specs.Typing.{AllTake, BrTyped, BrTableTyped, BrIfTyped};
ghost use Rattle.ms_valid.specs.refinement.Shape.{DecidesOn};

use crate::operands::Operands;
use ms_module::BrTable;
use ms_types::{Stack, ValType};
use std::alloc::AllocError;

/// What the label of this index takes, if there is such a label.
pub fn label_at(labels: &Stack<Option<ValType>>, index: u32) -> Option<Option<ValType>>
    ensures { result ≡ slice_get labels.now index }
{
    if index as usize >= labels.len() {
        return None;
    }
    Some(labels.get(index as usize))
}

/// Takes the operand of a label, to which control then goes.
pub fn leave(operands: &mut Operands, label: Option<ValType>) -> bool
    ensures { DecidesOn result operands.old (BrTyped (Some label)) operands.new }
{
    if !operands.take_result(label) {
        return false;
    }
    operands.jump();
    true
}

/// The same under a condition.
fn leave_if(operands: &mut Operands, label: Option<ValType>) -> Result<bool, AllocError>
    ensures { IfOk result (λ b. DecidesOn b operands.old (BrIfTyped (Some label)) operands.new) }
{
    if !operands.take(ValType::I32) {
        return Ok(false);
    }
    if !operands.take_result(label) {
        return Ok(false);
    }
    operands.give_result(label)?;
    Ok(true)
}

/// `br`.
pub fn branch(operands: &mut Operands, label: Option<Option<ValType>>) -> bool
    ensures { DecidesOn result operands.old (BrTyped label) operands.new }
{
    match label {
        None => false,
        Some(ty) => leave(operands, ty),
    }
}

/// `br_if`.
pub fn branch_if(
    operands: &mut Operands,
    label: Option<Option<ValType>>,
) -> Result<bool, AllocError>
    ensures { IfOk result (λ b. DecidesOn b operands.old (BrIfTyped label) operands.new) }
{
    match label {
        None => Ok(false),
        Some(ty) => leave_if(operands, ty),
    }
}

/// Whether each of these labels is there and takes this result type.
fn all_take(labels: &Stack<Option<ValType>>, targets: &[u32], ty: Option<ValType>) -> bool
    ensures { IsTrue result ↔ AllTake labels.now ty targets.now }
{
    for target in targets {
        match label_at(labels, *target) {
            None => {
                return false;
            }
            Some(label) => {
                if label != ty {
                    return false;
                }
            }
        }
    }
    true
}

/// `br_table`.
pub fn branch_table(
    operands: &mut Operands,
    labels: &Stack<Option<ValType>>,
    table: &BrTable,
) -> bool
    ensures { DecidesOn result operands.old (BrTableTyped labels.now table.now.labels table.now.default) operands.new }
{
    let Some(ty) = label_at(labels, table.default()) else {
        return false;
    };
    if !all_take(labels, table.labels(), ty) {
        return false;
    }
    if !operands.take(ValType::I32) {
        return false;
    }
    leave(operands, ty)
}
