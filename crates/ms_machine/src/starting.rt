//! The start of a task.

ghost use Rattle.std.specs.Prelude.{◌≡◌, ◌↔◌, List, [], ◌∷◌, IfOk, IsTrue, Some, slice_get};
ghost use Rattle.ms_event.specs.declared.event.Event.{Event};
ghost use Rattle.ms_machine.specs.refinement.Holding.{ThreadFits};
ghost use Rattle.ms_machine.specs.refinement.Safety.{Sound};
ghost use Rattle.ms_machine.specs.Typing.{StoreTyped, TaskTyped, outline_of};
ghost use Rattle.ms_task.specs.Control.{exited, started};
ghost use Rattle.ms_task.specs.Thread.{Thread};
ghost use Rattle.ms_task.specs.refinement.View.{thread_of};
ghost use Rattle.ms_task.specs.declared.func.FuncInst.{FuncInst};

use crate::store::Store;
use ms_linear::Room;
use ms_segment::SegmentMemory;
use ms_task::Task;
use std::alloc::{AllocError, Global};

/// A task that carries out the function of an address, which has no parameters, and takes its memory of a room. It may have
/// ended already, where the function's body is empty.
pub fn start<M: SegmentMemory>(
    alloc: Global,
    room: &Room,
    store: &Store<M>,
    address: u32,
) -> Result<Task, AllocError>
    requires store { StoreTyped (outline_of store.now) }
    requires there { (g : FuncInst) × (slice_get store.now.funcs address ≡ Some g) × (g.ty.params ≡ []) }
    ensures start { (g : FuncInst) → slice_get store.now.funcs address ≡ Some g → IfOk result (λ t. thread_of store.now.funcs t ≡ exited (started store.now.funcs address g)) }
    ensures task { IfOk result (λ t. TaskTyped (outline_of store.now) (thread_of store.now.funcs t)) }
    ensures fits { IfOk result (λ t. ThreadFits store.now (thread_of store.now.funcs t)) }
    ensures sound { IfOk result (λ t. (events : List Event) (threads : List Thread) → Sound events store.now threads → Sound events store.now (thread_of store.now.funcs t ∷ threads)) }
{
    Task::start(alloc, room, &store.funcs, address)
}

/// Whether a task of the store has nothing left to do.
pub fn has_ended<M: SegmentMemory>(store: &Store<M>, task: &Task) -> bool
    ensures { IsTrue result ↔ ((thread_of store.now.funcs task.now).work ≡ []) }
{
    task.has_ended(&store.funcs)
}
