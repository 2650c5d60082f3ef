//! Variable instructions (WebAssembly 1.0, 3.3.3), by what the index names.

ghost use Rattle.std.specs.Prelude.{IfOk};
ghost use Rattle.ms_rules.specs.Typing.{LocalGetTyped, GlobalGetTyped, LocalSetTyped, GlobalSetTyped, LocalTeeTyped};
ghost use Rattle.ms_valid.specs.refinement.Shape.{DecidesOn};

use crate::operands::Operands;
use ms_types::{GlobalType, ValType};
use std::alloc::AllocError;

/// `local.get`.
pub fn get(operands: &mut Operands, local: Option<ValType>) -> Result<bool, AllocError>
    ensures { IfOk result (λ b. DecidesOn b operands.old (LocalGetTyped local) operands.new) }
{
    match local {
        None => Ok(false),
        Some(ty) => {
            operands.give(ty)?;
            Ok(true)
        }
    }
}

/// `local.set`.
pub fn set(operands: &mut Operands, local: Option<ValType>) -> bool
    ensures { DecidesOn result operands.old (LocalSetTyped local) operands.new }
{
    match local {
        None => false,
        Some(ty) => operands.take(ty),
    }
}

/// `local.tee`.
pub fn tee(operands: &mut Operands, local: Option<ValType>) -> Result<bool, AllocError>
    ensures { IfOk result (λ b. DecidesOn b operands.old (LocalTeeTyped local) operands.new) }
{
    match local {
        None => Ok(false),
        Some(ty) => {
            if !operands.take(ty) {
                return Ok(false);
            }
            operands.give(ty)?;
            Ok(true)
        }
    }
}

/// `global.get`.
pub fn get_global(operands: &mut Operands, global: Option<GlobalType>) -> Result<bool, AllocError>
    ensures { IfOk result (λ b. DecidesOn b operands.old (GlobalGetTyped global) operands.new) }
{
    match global {
        None => Ok(false),
        Some(global) => {
            operands.give(global.ty)?;
            Ok(true)
        }
    }
}

/// `global.set`.
pub fn set_global(operands: &mut Operands, global: Option<GlobalType>) -> bool
    ensures { DecidesOn result operands.old (GlobalSetTyped global) operands.new }
{
    match global {
        None => false,
        Some(global) => global.mutable && operands.take(global.ty),
    }
}
