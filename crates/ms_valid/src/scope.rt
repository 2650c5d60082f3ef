//! What the instructions of a body refer to.

ghost use Rattle.std.specs.Prelude.{◌≡◌, ◌≢◌, ◌++◌, ◌<◌, length, slice_get, MatchOption, Some, None};
ghost use Rattle.ms_types.specs.declared.types.FuncType.{FuncType};
ghost use Rattle.ms_module.specs.Numbered.{AllNameWithin, sequence_at};
ghost use Rattle.ms_rules.specs.Context.{inside};
ghost use Rattle.ms_valid.specs.refinement.Scope.{scope};

use ms_module::{Code, Instr, Locals};
use ms_rules::Context;
use ms_types::{FuncType, GlobalType, ValType};
use std::marker::Model;

/// The body of a function, and what its instructions refer to (WebAssembly 1.0, 3.4.1).
#[derive(Drop)]
pub struct Scope<'a> {
    context: &'a Context<'a>,
    params: &'a [ValType],
    locals: &'a Locals,
    returns: Option<ValType>,
    code: &'a Code,
}

impl<'a> Model for Scope<'a> {
    ghost use Rattle.std.specs.Prelude.{◌++◌};
    ghost use Rattle.ms_rules.specs.Context.{inside};
    ghost use Rattle.ms_valid.specs.refinement.Scope.{Scope as Surroundings, scope};

    ghost Value = { Surroundings };

    ghost view = { λ s. scope (inside s.context.now (s.params.now ++ s.locals.now) s.returns) s.code.now };
}

impl<'a> Scope<'a> {
    /// The body of a function with these parameters, declared locals and result.
    pub fn new(
        context: &'a Context<'a>,
        params: &'a [ValType],
        locals: &'a Locals,
        returns: Option<ValType>,
        code: &'a Code,
    ) -> Self
        ensures { result ≡ scope (inside context.now (params.now ++ locals.now) returns) code.now }
    {
        Scope {
            context,
            params,
            locals,
            returns,
            code,
        }
    }

    /// The type of the local of this index.
    pub fn local(&self, index: u32) -> Option<ValType>
        ensures { result ≡ slice_get self.now.context.locals index }
    {
        let index = index as usize;
        if index < self.params.len() {
            return Some(self.params[index]);
        }
        self.locals.get((index - self.params.len()) as u32)
    }

    /// The type of the global of this index.
    pub fn global(&self, index: u32) -> Option<GlobalType>
        ensures { result ≡ slice_get self.now.context.globals index }
    {
        self.context.global(index)
    }

    /// The type of the function of this index.
    pub fn func(&self, index: u32) -> Option<&'a FuncType>
        ensures { MatchOption result ((t : FuncType) → slice_get self.now.context.funcs index ≢ Some (Some t)) (λ t. slice_get self.now.context.funcs index ≡ Some (Some t.now)) }
    {
        self.context.func(index)
    }

    /// The function type of this index.
    pub fn sig(&self, index: u32) -> Option<&'a FuncType>
        ensures { MatchOption result (slice_get self.now.context.sigs index ≡ None) (λ t. slice_get self.now.context.sigs index ≡ Some t.now) }
    {
        self.context.sig(index)
    }

    /// How many tables there are.
    pub fn tables(&self) -> usize
        ensures { result ≡ length self.now.context.tables }
    {
        self.context.tables().len()
    }

    /// How many memories there are.
    pub fn memories(&self) -> usize
        ensures { result ≡ length self.now.context.memories }
    {
        self.context.memories().len()
    }

    /// What `return` takes.
    pub fn returns(&self) -> Option<ValType>
        ensures { self.now.context.returns ≡ Some result }
    {
        self.returns
    }

    /// The instructions of the sequence of this number. Those that they name begin after it.
    pub fn sequence(&self, number: usize) -> &'a [Instr]
        requires { number < length self.now.code }
        ensures instrs { result.now ≡ sequence_at self.now.code number }
        ensures later { AllNameWithin (length self.now.code) number result.now }
    {
        self.code.sequence(number)
    }
}
