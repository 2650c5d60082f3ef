//! Constants, and parametric and variable instructions (WebAssembly 1.0, 4.4.1 to 4.4.3), each in a small function.
//!
//! All but `global.set` leave the task at its place: who carries them out puts it behind them, or goes on there.

ghost use Rattle.std.specs.Prelude.{◌≡◌, OnErr, OnOk};
ghost use Rattle.ms_machine.specs.refinement.Doing.{Can, Carries, DoesInstr, TellsNone};
ghost use Rattle.ms_module.specs.declared.instr.Instr.TheVariants as instr;

use crate::fault::Fault;
use crate::lookup::{global, global_address};
use crate::store::Store;
use ms_event::Event;
use ms_linear::{Cell, Value};
use ms_segment::SegmentMemory;
use ms_task::Task;
use std::alloc::AllocError;

/// `nop`.
pub(crate) fn nop<M: SegmentMemory>(
    store: &Store<M>,
    task: &mut Task,
    next: usize,
) -> Result<(), AllocError>
    ensures ok { OnOk result (Carries instr.Nop next store.now task.old task.new) }
    ensures err { OnErr result (task.new ≡ task.old) }
{
    let _ = store;
    let _ = next;
    Ok(())
}

/// `i32.const`.
pub(crate) fn i32_const<M: SegmentMemory>(
    store: &Store<M>,
    task: &mut Task,
    n: i32,
    next: usize,
) -> Result<(), AllocError>
    ensures ok { OnOk result (Carries (instr.I32Const n) next store.now task.old task.new) }
    ensures err { OnErr result (task.new ≡ task.old) }
{
    let _ = store;
    let _ = next;
    task.operands.push_cell(Cell::of_i32(n.cast_unsigned()))
}

/// `i64.const`.
pub(crate) fn i64_const<M: SegmentMemory>(
    store: &Store<M>,
    task: &mut Task,
    n: i64,
    next: usize,
) -> Result<(), AllocError>
    ensures ok { OnOk result (Carries (instr.I64Const n) next store.now task.old task.new) }
    ensures err { OnErr result (task.new ≡ task.old) }
{
    let _ = store;
    let _ = next;
    task.operands.push_cell(Cell::of_i64(n.cast_unsigned()))
}

/// `drop`.
pub(crate) fn discard<M: SegmentMemory>(
    store: &Store<M>,
    task: &mut Task,
    next: usize,
) -> Result<(), AllocError>
    requires { Can instr.Drop next store.now task.old }
    ensures ok { OnOk result (Carries instr.Drop next store.now task.old task.new) }
    ensures err { OnErr result (task.new ≡ task.old) }
{
    let _ = store;
    let _ = next;
    task.operands.cut(1);
    Ok(())
}

/// `select`.
pub(crate) fn select<M: SegmentMemory>(
    store: &Store<M>,
    task: &mut Task,
    next: usize,
) -> Result<(), AllocError>
    requires { Can instr.Select next store.now task.old }
    ensures ok { OnOk result (Carries instr.Select next store.now task.old task.new) }
    ensures err { OnErr result (task.new ≡ task.old) }
{
    let _ = store;
    let _ = next;
    let Value::I32(n) = task.operands.get(0) else {
        unreachable!()
    };
    let other = task.operands.cell(1);
    task.operands.cut(2);
    if n == 0 {
        task.operands.set_top_cell(other);
    }
    Ok(())
}

/// `local.get`.
pub(crate) fn local_get<M: SegmentMemory>(
    store: &Store<M>,
    task: &mut Task,
    x: u32,
    next: usize,
) -> Result<(), AllocError>
    requires { Can (instr.LocalGet x) next store.now task.old }
    ensures ok { OnOk result (Carries (instr.LocalGet x) next store.now task.old task.new) }
    ensures err { OnErr result (task.new ≡ task.old) }
{
    let _ = store;
    let _ = next;
    if let Some(cell) = task.frames.get_near(x as usize) {
        if task.operands.push_within(cell) {
            return Ok(());
        }
    }
    task.frames.push_to(x as usize, &mut task.operands)
}

/// `local.set`.
pub(crate) fn local_set<M: SegmentMemory>(
    store: &Store<M>,
    task: &mut Task,
    x: u32,
    next: usize,
) -> Result<(), AllocError>
    requires { Can (instr.LocalSet x) next store.now task.old }
    ensures ok { OnOk result (Carries (instr.LocalSet x) next store.now task.old task.new) }
    ensures err { OnErr result (task.new ≡ task.old) }
{
    let _ = store;
    let _ = next;
    task.frames.set_to_top(x as usize, &task.operands)?;
    task.operands.cut(1);
    Ok(())
}

/// `local.tee`.
pub(crate) fn local_tee<M: SegmentMemory>(
    store: &Store<M>,
    task: &mut Task,
    x: u32,
    next: usize,
) -> Result<(), AllocError>
    requires { Can (instr.LocalTee x) next store.now task.old }
    ensures ok { OnOk result (Carries (instr.LocalTee x) next store.now task.old task.new) }
    ensures err { OnErr result (task.new ≡ task.old) }
{
    let _ = store;
    let _ = next;
    task.frames.set_to_top(x as usize, &task.operands)
}

/// `global.get`.
pub(crate) fn global_get<M: SegmentMemory>(
    store: &Store<M>,
    task: &mut Task,
    x: u32,
    next: usize,
) -> Result<(), AllocError>
    requires { Can (instr.GlobalGet x) next store.now task.old }
    ensures ok { OnOk result (Carries (instr.GlobalGet x) next store.now task.old task.new) }
    ensures err { OnErr result (task.new ≡ task.old) }
{
    let _ = next;
    let cell = global(store, task, x).value;
    task.operands.push_cell(cell)
}

/// `global.set`.
pub(crate) fn global_set<M: SegmentMemory>(
    store: &mut Store<M>,
    task: &mut Task,
    x: u32,
    next: usize,
) -> Result<Option<Event>, Fault>
    requires { Can (instr.GlobalSet x) next store.old task.old }
    ensures does { DoesInstr (instr.GlobalSet x) next store.old task.old store.new task.new result }
    ensures tells { TellsNone result }
{
    let address = global_address(store, task, x);
    store.set_global(address, task.operands.cell(0));
    task.operands.cut(1);
    task.go_to(next);
    Ok(None)
}
