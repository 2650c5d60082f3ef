//! Typing of whole bodies: blocks in one another, without recursion on them.

ghost use Rattle.std.specs.Prelude.{◌≡◌, ◌∷◌, ◌<◌, [], false, true, length, IfOk, IsTrue, ◌↔◌, Ok, Some, None};
ghost use Rattle.ms_module.specs.Numbered.{ElseWithin, NamesWithin};
ghost use Rattle.ms_rules.specs.Modules.{FuncTyped};
ghost use Rattle.ms_rules.specs.Typing.{InstrTyped, OtherTyped, Typed};
ghost use Rattle.ms_valid.specs.refinement.Shape.{shape, DecidesOn};

use crate::calls::result_of;
use crate::control::simple;
use crate::operands::Operands;
use crate::scope::Scope;
use ms_module::{Func, Instr};
use ms_rules::Context;
use ms_types::{Stack, ValType};
use std::alloc::{AllocError, Global};

/// Tells whether bodies of functions are typed. Keeps its memory from one to the next.
#[derive(Drop)]
pub struct Checker {
    alloc: Global,
    /// What the labels of the blocks around take, the innermost block topmost.
    labels: Stack<Option<ValType>>,
    /// Operands that are not in use.
    spare: Vec<Operands>,
}

impl Checker {
    /// A checker. Takes no memory.
    pub fn new(alloc: Global) -> Self
        ensures { result.labels ≡ [] }
    {
        Checker {
            alloc,
            labels: Stack::new(alloc),
            spare: Vec::new(alloc),
        }
    }

    /// Whether the body of a function leaves the function's result (WebAssembly 1.0, 3.4.1).
    pub fn is_func_typed(&mut self, context: &Context, func: &Func) -> Result<bool, AllocError>
        ensures { IfOk result (λ b. IsTrue b ↔ FuncTyped context.now func.now) }
    {
        let Some(sig) = context.sig(func.sig) else {
            return Ok(false);
        };
        let Some(ty) = result_of(sig.results.as_slice()) else {
            return Ok(false);
        };
        let scope = Scope::new(context, sig.params.as_slice(), &func.locals, ty, &func.body);
        prove!(func.body.len() > 0);
        self.labels.clear();
        Ok(self.sequence(&scope, 0, ty, ty)?)
    }

    /// No operands, in memory that was in use before, if there is some.
    fn operands(&mut self) -> Operands
        ensures none { result ≡ shape [] false }
        ensures labels { self.new.labels ≡ self.old.labels }
    {
        match self.spare.pop() {
            None => Operands::new(self.alloc),
            Some(operands) => {
                let mut operands = operands;
                operands.clear();
                operands
            }
        }
    }

    /// Whether the sequence of this number is typed, inside a block whose label takes this result type.
    #[cycle(nested)]
    fn sequence(
        &mut self,
        scope: &Scope,
        number: usize,
        label: Option<ValType>,
        ty: Option<ValType>,
    ) -> Result<bool, AllocError>
        requires within { number < length scope.now.code }
        ensures typed { IfOk result (λ b. IsTrue b ↔ Typed scope.now.context scope.now.code (label ∷ self.old.labels) number ty) }
        ensures labels { result ≡ Ok true → self.new.labels ≡ self.old.labels }
    {
        self.labels.push(label)?;
        let mut operands = self.operands();
        for instr in scope.sequence(number) {
            if !self.instr(scope, &mut operands, number, instr)? {
                return Ok(false);
            }
        }
        self.labels.pop();
        let ends = operands.ends(ty);
        self.spare.push(operands)?;
        Ok(ends)
    }

    /// Whether an instruction of this sequence is typed, and what it makes of the operands.
    #[cycle(nested)]
    fn instr(
        &mut self,
        scope: &Scope,
        operands: &mut Operands,
        number: usize,
        instr: &Instr,
    ) -> Result<bool, AllocError>
        requires within { number < length scope.now.code }
        requires later { NamesWithin (length scope.now.code) number instr.now }
        ensures typed { IfOk result (λ b. DecidesOn b operands.old (InstrTyped (Typed scope.now.context scope.now.code) scope.now.context self.old.labels instr.now) operands.new) }
        ensures labels { result ≡ Ok true → self.new.labels ≡ self.old.labels }
    {
        match instr {
            Instr::Block { ty, body } => {
                if !self.sequence(scope, *body as usize, *ty, *ty)? {
                    return Ok(false);
                }
                operands.give_result(*ty)?;
                Ok(true)
            }
            Instr::Loop { ty, body } => {
                if !self.sequence(scope, *body as usize, None, *ty)? {
                    return Ok(false);
                }
                operands.give_result(*ty)?;
                Ok(true)
            }
            Instr::If { ty, then, other } => {
                if !operands.take(ValType::I32) {
                    return Ok(false);
                }
                if !self.sequence(scope, *then as usize, *ty, *ty)? {
                    return Ok(false);
                }
                if !self.other(scope, *then as usize, *other, *ty)? {
                    return Ok(false);
                }
                operands.give_result(*ty)?;
                Ok(true)
            }
            _ => Ok(simple(operands, scope, &self.labels, instr)?),
        }
    }

    /// Whether the else arm is typed, which begins after this sequence, if there is one.
    #[cycle(nested)]
    fn other(
        &mut self,
        scope: &Scope,
        number: usize,
        arm: Option<u32>,
        ty: Option<ValType>,
    ) -> Result<bool, AllocError>
        requires within { number < length scope.now.code }
        requires later { ElseWithin (length scope.now.code) number arm }
        ensures typed { IfOk result (λ b. IsTrue b ↔ OtherTyped (Typed scope.now.context scope.now.code) self.old.labels ty arm) }
        ensures labels { result ≡ Ok true → self.new.labels ≡ self.old.labels }
    {
        match arm {
            None => Ok(ty.is_none()),
            Some(arm) => Ok(self.sequence(scope, arm as usize, ty, ty)?),
        }
    }
}
