//! What the indices of a task's current module stand for in the store (WebAssembly 1.0, 4.2.5).

ghost use Rattle.std.specs.Prelude.{◌≡◌, ◌≢◌, None, Some};
ghost use Rattle.ms_machine.specs.Store.{at, func_address, global_address, instance_of, memory_address, table_address, type_at};
ghost use Rattle.ms_task.specs.refinement.View.{frame_of};

use crate::store::{Instance, Store};
use ms_linear::{GlobalInst, Table};
use ms_segment::SegmentMemory;
use ms_task::Task;
use ms_types::FuncType;

/// The instance of the current function's module.
#[inline(always)]
fn instance<'a, M: SegmentMemory>(store: &'a Store<M>, task: &Task) -> &'a Instance
    requires { instance_of store.now (frame_of task.now) ≢ None }
    ensures { instance_of store.now (frame_of task.now) ≡ Some result.now }
{
    store.instance(task.function())
}

/// The address of a function.
#[inline(always)]
pub(crate) fn func_address<M: SegmentMemory>(store: &Store<M>, task: &Task, x: u32) -> u32
    requires { func_address (instance_of store.now (frame_of task.now)) x ≢ None }
    ensures { func_address (instance_of store.now (frame_of task.now)) x ≡ Some result }
{
    instance(store, task).funcs.as_slice()[x as usize]
}

/// A function type.
pub(crate) fn func_type<'a, M: SegmentMemory>(
    store: &'a Store<M>,
    task: &Task,
    x: u32,
) -> &'a FuncType
    requires { type_at (instance_of store.now (frame_of task.now)) x ≢ None }
    ensures { type_at (instance_of store.now (frame_of task.now)) x ≡ Some result.now }
{
    instance(store, task).types.as_slice()[x as usize].ty()
}

/// The table.
pub(crate) fn table<'a, M: SegmentMemory>(store: &'a Store<M>, task: &Task) -> &'a Table
    requires { at store.now.tables (table_address (instance_of store.now (frame_of task.now))) ≢ None }
    ensures { at store.now.tables (table_address (instance_of store.now (frame_of task.now))) ≡ Some result.now }
{
    let Some(address) = instance(store, task).table else {
        unreachable!()
    };
    &store.tables[address as usize]
}

/// The address of the linear memory.
#[inline(always)]
pub(crate) fn memory_address<M: SegmentMemory>(store: &Store<M>, task: &Task) -> u32
    requires { memory_address (instance_of store.now (frame_of task.now)) ≢ None }
    ensures { memory_address (instance_of store.now (frame_of task.now)) ≡ Some result }
{
    let Some(address) = instance(store, task).memory else {
        unreachable!()
    };
    address
}

/// The address of a global.
#[inline(always)]
pub(crate) fn global_address<M: SegmentMemory>(store: &Store<M>, task: &Task, x: u32) -> u32
    requires { global_address (instance_of store.now (frame_of task.now)) x ≢ None }
    ensures { global_address (instance_of store.now (frame_of task.now)) x ≡ Some result }
{
    instance(store, task).globals.as_slice()[x as usize]
}

/// A global.
#[inline(always)]
pub(crate) fn global<M: SegmentMemory>(store: &Store<M>, task: &Task, x: u32) -> GlobalInst
    requires { at store.now.globals (global_address (instance_of store.now (frame_of task.now)) x) ≢ None }
    ensures { at store.now.globals (global_address (instance_of store.now (frame_of task.now)) x) ≡ Some result }
{
    store.globals[global_address(store, task, x) as usize]
}
