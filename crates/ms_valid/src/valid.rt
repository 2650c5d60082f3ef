//! Modules that are well typed, and which part of one is not.

ghost use Rattle.std.specs.Prelude.{◌≡◌, ◌≤◌, ◌<◌, ◌^◌, IfErr, IfOk, MatchResult};
ghost use Rattle.ms_rules.specs.Context.{context_of};
ghost use Rattle.ms_rules.specs.Modules.{WellTyped};
ghost use Rattle.ms_valid.specs.Refusals.{DoesRefuse};
ghost use Rattle.ms_valid.specs.refinement.Untyped.{IsFirstUntypedOf};
ghost use Rattle.ms_valid.specs.declared.refusal.Part.TheVariants.{Function};
ghost use Rattle.ms_valid.specs.declared.refusal.Refusal.TheVariants.{Invalid, Memory};

use crate::body::Checker;
use crate::head::is_head_typed;
use crate::refusal::{Part, Refusal};
use ms_module::{Func, Module};
use ms_rules::Context;
use std::alloc::{AllocError, Global};
use std::marker::Model;

/// A module that is well typed. Contracts see the module.
#[derive(Drop)]
pub struct Valid {
    module: Module,
}

impl Model for Valid {
    ghost use Rattle.ms_module.specs.declared.module.Module.{Module};
    ghost use Rattle.ms_rules.specs.Modules.{WellTyped};

    ghost Value = { Module };

    ghost view = { λ v. v.«module» };

    ghost invariant = { λ v. WellTyped v.«module» };
}

impl Valid {
    /// The module.
    pub fn module(&self) -> &Module
        ensures same { result.now ≡ self.now }
        ensures typed { WellTyped self.now }
    {
        &self.module
    }

    /// The module itself.
    pub fn into_module(self) -> Module
        ensures same { result ≡ self }
        ensures typed { WellTyped self }
    {
        self.module
    }
}

/// Takes a module that is well typed. Any other is given back, with the part that is not.
pub fn validate(alloc: Global, module: Module) -> Result<Valid, (Module, Refusal)>
    ensures valid { IfOk result (λ v. (v ≡ «module») × WellTyped «module») }
    ensures refused { IfErr result (λ e. (e.0 ≡ «module») × DoesRefuse «module» e.1) }
    ensures complete { WellTyped «module» → IfErr result (λ e. e.1 ≡ Memory) }
{
    match judge(alloc, &module) {
        Ok(()) => Ok(Valid { module }),
        Err(refusal) => Err((module, refusal)),
    }
}

/// Whether a module is well typed, or what is not.
fn judge(alloc: Global, module: &Module) -> Result<(), Refusal>
    ensures { MatchResult result (λ _. WellTyped «module».now) (DoesRefuse «module».now) }
{
    let context = Context::of(alloc, module)?;
    judge_in(alloc, &context, module)
}

/// The same in the module's context.
fn judge_in(alloc: Global, context: &Context, module: &Module) -> Result<(), Refusal>
    requires { context.now ≡ context_of «module».now }
    ensures { MatchResult result (λ _. WellTyped «module».now) (DoesRefuse «module».now) }
{
    if !is_head_typed(alloc, module, context)? {
        return Err(Refusal::Invalid { part: Part::Head });
    }
    match first_untyped(alloc, context, module.funcs.as_slice())? {
        None => Ok(()),
        Some(number) => Err(at_function(context.funcs_len() - module.funcs.len() + number)),
    }
}

/// The refusal of the function of this index, which fits 32 bits unless memory has run out before.
fn at_function(index: usize) -> Refusal
    ensures fits { index < 2 ^ 32 → result ≡ Invalid (Function index) }
    ensures past { 2 ^ 32 ≤ index → result ≡ Memory }
{
    match u32::try_from(index) {
        Ok(index) => Refusal::Invalid {
            part: Part::Function(index),
        },
        Err(_) => Refusal::Memory,
    }
}

/// The first function whose body is not typed, by its number among these.
fn first_untyped(
    alloc: Global,
    context: &Context,
    funcs: &[Func],
) -> Result<Option<usize>, AllocError>
    ensures { IfOk result (IsFirstUntypedOf context.now funcs.now) }
{
    let mut checker = Checker::new(alloc);
    first_untyped_by(&mut checker, context, funcs)
}

/// The same by a checker.
fn first_untyped_by(
    checker: &mut Checker,
    context: &Context,
    funcs: &[Func],
) -> Result<Option<usize>, AllocError>
    ensures { IfOk result (IsFirstUntypedOf context.now funcs.now) }
{
    for (number, func) in funcs.iter().enumerate() {
        if !checker.is_func_typed(context, func)? {
            return Ok(Some(number));
        }
    }
    Ok(None)
}
