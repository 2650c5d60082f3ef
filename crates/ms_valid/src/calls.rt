//! Calls (WebAssembly 1.0, 3.3.5), by the type of what is called.

ghost use Rattle.std.specs.Prelude.{◌≡◌, ◌≤◌, ◌<◌, ℕ, List, [], ◌∷◌, length, IfOk, IsTrue, ◌↔◌, slice_get, MatchOption, Option, Some};
ghost use Rattle.ms_types.specs.declared.types.ValType.{ValType};
ghost use Rattle.ms_rules.specs.Typing.{CallTyped, CallIndirectTyped, Invokes, types};
ghost use Rattle.ms_valid.specs.refinement.Shape.{DecidesOn};

use crate::operands::Operands;
use crate::scope::Scope;
use ms_types::{FuncType, ValType};
use std::alloc::AllocError;

/// These types as a result type, if they are one.
pub fn result_of(results: &[ValType]) -> Option<Option<ValType>>
    ensures { MatchOption result ((ty : Option ValType) → results.now ≡ types ty → ⊥) (λ ty. results.now ≡ types ty) }
{
    match results.len() {
        0 => Some(None),
        1 => Some(Some(results[0])),
        _ => None,
    }
}

/// Takes the parameters of a function and gives its result. More results than one can't be given.
pub fn invoke(operands: &mut Operands, func: &FuncType) -> Result<bool, AllocError>
    ensures { IfOk result (λ b. DecidesOn b operands.old (Invokes func.now) operands.new) }
{
    let Some(ty) = result_of(func.results.as_slice()) else {
        return Ok(false);
    };
    if !operands.take_params(func.params.as_slice()) {
        return Ok(false);
    }
    operands.give_result(ty)?;
    Ok(true)
}

/// `call`.
pub fn call(operands: &mut Operands, scope: &Scope, index: u32) -> Result<bool, AllocError>
    ensures { IfOk result (λ b. DecidesOn b operands.old (CallTyped (slice_get scope.now.context.funcs index)) operands.new) }
{
    let Some(func) = scope.func(index) else {
        return Ok(false);
    };
    Ok(invoke(operands, func)?)
}

/// `call_indirect`, by the index of the function type.
pub fn call_indirect(operands: &mut Operands, scope: &Scope, index: u32) -> Result<bool, AllocError>
    ensures { IfOk result (λ b. DecidesOn b operands.old (CallIndirectTyped (length scope.now.context.tables) (slice_get scope.now.context.sigs index)) operands.new) }
{
    if scope.tables() == 0 {
        return Ok(false);
    }
    let Some(func) = scope.sig(index) else {
        return Ok(false);
    };
    if !operands.take(ValType::I32) {
        return Ok(false);
    }
    Ok(invoke(operands, func)?)
}
