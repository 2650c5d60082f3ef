//! Numeric instructions, and those on the linear memory and on segments, on the store.

ghost use Rattle.std.specs.Prelude.{◌≡◌, ◌<◌, ◌^◌};
ghost use Rattle.ms_event.specs.refinement.Tally.{LeavesRoom};
ghost use Rattle.ms_machine.specs.refinement.Doing.{Can, DoesInstr, DoesTold, Stays, TellsNone};
ghost use Rattle.ms_machine.specs.refinement.Holding.{Each, Fits};
ghost use Rattle.ms_machine.specs.Step.{act};
ghost use Rattle.ms_module.specs.declared.instr.Instr.TheVariants as instr;
ghost use Rattle.ms_task.specs.refinement.View.{at_next, thread_of};

use crate::fault::{Fault, of_fault, of_operate};
use crate::lookup::memory_address;
use crate::segment::{self, Told};
use crate::store::Store;
use ms_event::{Event, Tally};
use ms_module::{Linear, Numeric, Segment};
use ms_segment::SegmentMemory;
use ms_task::Task;

/// A numeric instruction.
pub(crate) fn numeric<M: SegmentMemory>(
    store: &Store<M>,
    task: &mut Task,
    i: Numeric,
    next: usize,
) -> Result<Option<Event>, Fault>
    requires { Can (instr.Numeric i) next store.now task.old }
    ensures does { DoesInstr (instr.Numeric i) next store.now task.old store.now task.new result }
    ensures stays { Stays task.old next task.new result }
{
    let _ = store;
    match ms_operate::numeric(i, &mut task.operands) {
        Ok(()) => {
            task.go_to(next);
            Ok(None)
        }
        Err(trap) => Err(Fault::Trap(of_operate(trap))),
    }
}

/// An instruction on the linear memory.
#[inline(always)]
pub(crate) fn linear<M: SegmentMemory>(
    store: &mut Store<M>,
    task: &mut Task,
    i: Linear,
    next: usize,
) -> Result<Option<Event>, Fault>
    requires { Can (instr.Linear i) next store.old task.old }
    ensures does { DoesInstr (instr.Linear i) next store.old task.old store.new task.new result }
    ensures tells { TellsNone result }
{
    let address = memory_address(store, task);
    let memory = &mut store.memories[address as usize];
    match ms_operate::linear(i, memory, &mut task.operands) {
        Ok(()) => {}
        Err(fault) => return Err(of_fault(fault)),
    }
    task.go_to(next);
    Ok(None)
}

/// An instruction on handles and segments.
pub(crate) fn segment<M: SegmentMemory>(
    store: &mut Store<M>,
    task: &mut Task,
    i: Segment,
    next: usize,
) -> Result<Option<Event>, Fault>
    requires can { Can (instr.Segment i) next store.old task.old }
    requires few { store.old.segments.made < 2 ^ 63 }
    requires fit { Each (Fits store.old.segments) task.old.operands }
    ensures { DoesInstr (instr.Segment i) next store.old task.old store.new task.new result }
{
    match segment::segment(i, &mut store.segments, &mut task.operands) {
        Ok(event) => {
            task.go_to(next);
            Ok(event)
        }
        Err(fault) => Err(fault),
    }
}

/// The same, where what it tells is only counted.
#[inline(always)]
pub(crate) fn segment_counted<M: SegmentMemory>(
    store: &mut Store<M>,
    task: &mut Task,
    i: Segment,
    next: usize,
    tally: &mut Tally,
) -> Told
    requires can { Can (instr.Segment i) next store.old task.old }
    requires few { store.old.segments.made < 2 ^ 63 }
    requires fit { Each (Fits store.old.segments) task.old.operands }
    requires room { LeavesRoom 1 tally.old }
    ensures { DoesTold (act store.old (instr.Segment i) (at_next store.old.funcs task.old next)) store.old (thread_of store.old.funcs task.old) tally.old store.new (thread_of store.new.funcs task.new) tally.new result }
{
    match segment::segment_counted(i, &mut store.segments, &mut task.operands, tally) {
        Told::Done => {
            task.go_to(next);
            Told::Done
        }
        Told::Not => Told::Not,
        Told::Memory => Told::Memory,
    }
}
