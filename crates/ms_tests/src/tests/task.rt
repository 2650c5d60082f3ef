//! That the calls which take memory succeed with ample memory. What each does to a thread is proved.

ghost use Rattle.std.specs.Prelude.{◌≡◌, ◌≢◌, ℕ, List, [], IsTrue, Option, Some, slice_get};
ghost use Rattle.ms_types.specs.declared.types.ValType.{ValType};
ghost use Rattle.ms_task.specs.Control.{Stuck, call_on, if_on};
ghost use Rattle.ms_task.specs.refinement.View.{at_next};
ghost use Rattle.ms_task.specs.declared.func.FuncInst.{FuncInst};

use super::shared::{Part, body, gives};
use ms_linear::{Room, Value};
use ms_module::{Locals, Opening};
use ms_task::{FuncInst, SharedLocals, Task};
use ms_types::{SharedType, ValType, Vector};
use std::alloc::{AllocError, Global};
use std::process::Abort;
use std::test::Fail;

/// A function `[] -> []` with a local, whose body is a block with one instruction.
fn func<R: Abort>(rt: &R, alloc: Global) -> Result<FuncInst, AllocError> {
    let parts = [Part::Open(Opening::Block, None), Part::Nop, Part::Close];
    let body = body(rt, alloc, &parts)?;
    let mut locals = Locals::new(alloc);
    locals.push(1, ValType::I64)?;
    let ty = gives(alloc, Vector::new(alloc));
    Ok(FuncInst {
        instance: 0,
        ty: SharedType::new(alloc, ty)?,
        host: None,
        locals: SharedLocals::new(alloc, locals)?,
        body,
    })
}

fn has_no_parameters(ty: &SharedType) -> bool
    ensures { IsTrue result → ty.now.params ≡ [] }
{
    ty.params().is_empty()
}

fn can_start(funcs: &[FuncInst], address: u32) -> bool
    ensures { IsTrue result → (g : FuncInst) × (slice_get funcs.now address ≡ Some g) × (g.ty.params ≡ []) }
{
    if address as usize >= funcs.len() {
        return false;
    }
    has_no_parameters(&funcs[address as usize].ty)
}

fn can_choose(task: &Task, next: usize) -> bool
    ensures { IsTrue result → (funcs : List FuncInst) (then : ℕ) (other : Option ℕ) (ty : Option ValType) → if_on funcs then other ty (at_next funcs task.now next) ≢ Stuck }
{
    matches!(task.operands.last(), Some(Value::I32(_)))
}

fn can_call(task: &Task, funcs: &[FuncInst], address: u32, next: usize) -> bool
    ensures { IsTrue result → call_on funcs.now address (at_next funcs.now task.now next) ≢ Stuck }
{
    if address as usize >= funcs.len() {
        return false;
    }
    funcs[address as usize].ty.params().len() <= task.operands.len()
}

/// Opens a block, and one arm of an `if`.
fn open<R: Abort>(rt: &R, task: &mut Task, funcs: &[FuncInst]) -> Result<(), AllocError> {
    task.block(1, None, 1, false)?;
    task.operands.push(Value::I32(1))?;
    assert!(rt; can_choose(task, 1));
    task.if_else(funcs, 1, None, None, 1)
}

#[test]
fn begins_opens_and_calls(rt: HostRuntime) -> Result<(), Fail> {
    let funcs = [func(&rt, rt.alloc())?];
    assert!(rt; can_start(&funcs, 0));
    let room = Room::new(rt.alloc())?;
    let mut task = Task::start(rt.alloc(), &room, &funcs, 0)?;
    assert!(rt; !task.has_ended(&funcs));
    open(&rt, &mut task, &funcs)?;
    assert!(rt; can_call(&task, &funcs, 0, 1));
    assert!(rt; task.call(&funcs, 0, 1) == Ok(()));
    assert_eq!(rt; task.frames.len(), 1);
    Ok(())
}
