//! Typing of instructions that have no sequence inside, branches and calls among them (WebAssembly 1.0, 3.3).

ghost use Rattle.std.specs.Prelude.{IfOk};
ghost use Rattle.ms_rules.specs.Typing.{InstrTyped, Typed};
ghost use Rattle.ms_valid.specs.refinement.Shape.{DecidesOn, IsSimple};

use crate::branches::{branch, branch_if, branch_table, label_at, leave};
use crate::calls::{call, call_indirect};
use crate::operands::Operands;
use crate::scope::Scope;
use crate::select::select;
use crate::typed::{linear, numeric, segment};
use crate::variables::{get, get_global, set, set_global, tee};
use ms_module::Instr;
use ms_types::{Stack, ValType};
use std::alloc::AllocError;

/// An instruction that has no sequence inside.
pub fn simple(
    operands: &mut Operands,
    scope: &Scope,
    labels: &Stack<Option<ValType>>,
    instr: &Instr,
) -> Result<bool, AllocError>
    requires { IsSimple instr.now }
    ensures { IfOk result (λ b. DecidesOn b operands.old (InstrTyped (Typed scope.now.context scope.now.code) scope.now.context labels.now instr.now) operands.new) }
{
    match instr {
        Instr::Unreachable => {
            operands.jump();
            Ok(true)
        }
        Instr::Nop => Ok(true),
        Instr::Br(label) => Ok(branch(operands, label_at(labels, *label))),
        Instr::BrIf(label) => Ok(branch_if(operands, label_at(labels, *label))?),
        Instr::BrTable(table) => Ok(branch_table(operands, labels, table)),
        Instr::Return => Ok(leave(operands, scope.returns())),
        Instr::Call(func) => Ok(call(operands, scope, *func)?),
        Instr::CallIndirect(sig) => Ok(call_indirect(operands, scope, *sig)?),
        Instr::Drop => Ok(operands.take_any()),
        Instr::Select => Ok(select(operands)?),
        Instr::LocalGet(local) => Ok(get(operands, scope.local(*local))?),
        Instr::LocalSet(local) => Ok(set(operands, scope.local(*local))),
        Instr::LocalTee(local) => Ok(tee(operands, scope.local(*local))?),
        Instr::GlobalGet(global) => Ok(get_global(operands, scope.global(*global))?),
        Instr::GlobalSet(global) => Ok(set_global(operands, scope.global(*global))),
        Instr::I32Const(_) => {
            operands.give(ValType::I32)?;
            Ok(true)
        }
        Instr::I64Const(_) => {
            operands.give(ValType::I64)?;
            Ok(true)
        }
        Instr::Numeric(instr) => Ok(numeric(operands, *instr)?),
        Instr::Linear(instr) => Ok(linear(operands, scope.memories(), *instr)?),
        Instr::Segment(instr) => Ok(segment(operands, *instr)?),
        _ => unreachable!(),
    }
}
