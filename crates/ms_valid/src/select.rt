//! `select` (WebAssembly 1.0, 3.3.2).

ghost use Rattle.std.specs.Prelude.{IfOk, MatchOption, ◌↔◌};
ghost use Rattle.ms_types.specs.declared.types.ValType.{ValType};
ghost use Rattle.ms_rules.specs.Typing.{SelectTyped};
ghost use Rattle.ms_valid.specs.refinement.Shape.{Allows, DecidesOn, Merges};

use crate::operands::Operands;
use ms_types::ValType;
use std::alloc::AllocError;

/// `select`.
pub fn select(operands: &mut Operands) -> Result<bool, AllocError>
    ensures { IfOk result (λ b. DecidesOn b operands.old SelectTyped operands.new) }
{
    if !operands.take(ValType::I32) {
        return Ok(false);
    }
    Ok(merge(operands)?)
}

/// Takes two operands of one type and gives one of them.
fn merge(operands: &mut Operands) -> Result<bool, AllocError>
    ensures { IfOk result (λ b. DecidesOn b operands.old Merges operands.new) }
{
    let Some(a) = operands.pop() else {
        return Ok(false);
    };
    let Some(b) = operands.pop() else {
        return Ok(false);
    };
    match meet(a, b) {
        None => Ok(false),
        Some(slot) => {
            operands.push(slot)?;
            Ok(true)
        }
    }
}

/// The slot that admits what both admit, if they admit one type.
fn meet(a: Option<ValType>, b: Option<ValType>) -> Option<Option<ValType>>
    ensures { MatchOption result ((t : ValType) → Allows a t → Allows b t → ⊥) (λ slot. (t : ValType) → Allows slot t ↔ (Allows a t × Allows b t)) }
{
    match (a, b) {
        (None, _) => Some(b),
        (_, None) => Some(a),
        (Some(x), Some(y)) => { if x == y { Some(a) } else { None } }
    }
}
