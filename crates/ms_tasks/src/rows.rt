//! Entries in a row for one task, where the start functions have ended.

ghost use Rattle.std.specs.Prelude.{◌≡◌, ◌≢◌, ℕ, ◌+◌, ◌<◌, ◌≤◌, ◌^◌, ◌++◌, true, false, List, length, replicate, slice_get};
ghost use Rattle.ms_handle.specs.declared.handle.Handle.{Handle};
ghost use Rattle.ms_segment.specs.Memory.{IsFit};
ghost use Rattle.ms_machine.specs.Crews.{Results, are_ended, ends, results, run_entries};
ghost use Rattle.ms_machine.specs.Typing.{outline_of};
ghost use Rattle.ms_tasks.specs.refinement.Logs.{CountsUpTo};
ghost use Rattle.ms_tasks.specs.refinement.Parts.{HaltsBy, CountsInput, CountsOut, IsWell};
ghost use Rattle.ms_tasks.specs.refinement.Ready.{IsReady};
ghost use Rattle.ms_tasks.specs.refinement.Rows.{IsGoing, IsIdle, crew_in, threads_in};

use crate::burst::{Halt, burst};
use crate::log::Log;
use crate::whose::Whose;
use ms_machine::{Store, has_ended};
use ms_outside::{Sink, Source};
use ms_segment::SegmentMemory;
use ms_task::Task;

/// Whether all tasks have ended.
pub(crate) fn all_ended<M: SegmentMemory>(store: &Store<M>, tasks: &[Task]) -> bool
    ensures { result ≡ are_ended (threads_in store.now tasks.now) }
{
    for task in tasks {
        if !has_ended(store, task) {
            return false;
        }
    }
    true
}

/// Whether there is no such task, or it has ended.
#[inline(always)]
fn is_idle<M: SegmentMemory>(store: &Store<M>, tasks: &[Task], k: u32) -> bool
    ensures idle { result ≡ true → IsIdle (slice_get (threads_in store.now tasks.now) k) }
    ensures going { result ≡ false → IsGoing (slice_get (threads_in store.now tasks.now) k) }
    ensures there { result ≡ false → k < length tasks.now }
{
    if k as usize >= tasks.len() {
        return true;
    }
    has_ended(store, &tasks[k as usize])
}

/// At most so many steps of a task that has more to do.
#[inline(always)]
fn row<M: SegmentMemory, I: Source, O: Sink>(
    store: &mut Store<M>,
    tasks: &mut [Task],
    k: u32,
    most: u64,
    input: &mut I,
    out: &mut O,
    log: &mut Log,
) -> (Halt, u64)
    requires there { k < length tasks.old }
    requires going { IsGoing (slice_get (threads_in store.old tasks.old) k) }
    requires ready { IsReady (crew_in store.old tasks.old) }
    requires few { store.old.segments.made + most < 2 ^ 63 }
    requires within { CountsUpTo log.old.entries log.old.trace }
    requires room { log.old.entries + most < 2 ^ 63 }
    ensures run { (rest : List ℕ) → HaltsBy result.0 (run_entries (replicate most k ++ rest) (crew_in store.old tasks.old)) (run_entries (replicate result.1 k ++ rest) (crew_in store.new tasks.new)) (run_entries rest (crew_in store.new tasks.new)) (crew_in store.new tasks.new) (I.left input.old) (I.left input.new) (O.held out.old) (O.held out.new) log.old log.new }
    ensures ready { IsWell result.0 → IsReady (crew_in store.new tasks.new) }
    ensures ended { result.0 ≡ Halt.Ended → IsIdle (slice_get (threads_in store.new tasks.new) k) }
    ensures paused { result.0 ≡ Halt.Paused → (result.1 ≡ 0) × (are_ended (threads_in store.new tasks.new) ≡ false) }
    ensures outline { IsWell result.0 → outline_of store.new ≡ outline_of store.old }
    ensures others { IsWell result.0 → (h : Handle) → IsFit store.old.segments h → IsFit store.new.segments h }
    ensures made { IsWell result.0 → store.new.segments.made + result.1 ≤ store.old.segments.made + most }
    ensures entries { IsWell result.0 → log.new.entries + result.1 ≡ log.old.entries + most }
    ensures within { IsWell result.0 → CountsUpTo log.new.entries log.new.trace }
    ensures input_faults { CountsInput result.0 (I.faults input.old) (I.faults input.new) }
    ensures out_faults { CountsOut result.0 (O.faults out.old) (O.faults out.new) }
{
    let task = &mut tasks[k as usize];
    burst(store, task, Whose::Task(k), most, input, out, log)
}

/// So many entries in a row for one task, where not all tasks have ended. It gives how many entries are left.
#[inline(always)]
pub(crate) fn turn<M: SegmentMemory, I: Source, O: Sink>(
    store: &mut Store<M>,
    tasks: &mut [Task],
    k: u32,
    most: u64,
    input: &mut I,
    out: &mut O,
    log: &mut Log,
) -> (Halt, u64)
    requires ready { IsReady (crew_in store.old tasks.old) }
    requires going { are_ended (threads_in store.old tasks.old) ≡ false }
    requires few { store.old.segments.made + most < 2 ^ 63 }
    requires within { CountsUpTo log.old.entries log.old.trace }
    requires room { log.old.entries + most < 2 ^ 63 }
    ensures run { (rest : List ℕ) → HaltsBy result.0 (run_entries (replicate most k ++ rest) (crew_in store.old tasks.old)) (ends (Results (results (threads_in store.new tasks.new))) (crew_in store.new tasks.new)) (run_entries rest (crew_in store.new tasks.new)) (crew_in store.new tasks.new) (I.left input.old) (I.left input.new) (O.held out.old) (O.held out.new) log.old log.new }
    ensures ready { IsWell result.0 → IsReady (crew_in store.new tasks.new) }
    ensures paused { result.0 ≡ Halt.Paused → (result.1 ≡ 0) × (are_ended (threads_in store.new tasks.new) ≡ false) }
    ensures outline { IsWell result.0 → outline_of store.new ≡ outline_of store.old }
    ensures others { IsWell result.0 → (h : Handle) → IsFit store.old.segments h → IsFit store.new.segments h }
    ensures made { IsWell result.0 → store.new.segments.made + result.1 ≤ store.old.segments.made + most }
    ensures entries { IsWell result.0 → log.new.entries + result.1 ≡ log.old.entries + most }
    ensures within { IsWell result.0 → CountsUpTo log.new.entries log.new.trace }
    ensures input_faults { CountsInput result.0 (I.faults input.old) (I.faults input.new) }
    ensures out_faults { CountsOut result.0 (O.faults out.old) (O.faults out.new) }
{
    if is_idle(store, tasks, k) {
        log.count(most);
        return (Halt::Paused, 0);
    }
    let (halt, left) = row(store, tasks, k, most, input, out, log);
    match halt {
        Halt::Ended => {}
        _ => return (halt, left),
    }
    if all_ended(store, tasks) {
        return (Halt::Ended, left);
    }
    log.count(left);
    (Halt::Paused, 0)
}
