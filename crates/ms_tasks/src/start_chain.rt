//! The start functions, one after the other.

ghost use Rattle.std.specs.Prelude.{◌≡◌, ◌≢◌, ℕ, ◌+◌, ◌-◌, ◌<◌, ◌≤◌, ◌^◌, List, [], drop, length};
ghost use Rattle.ms_handle.specs.declared.handle.Handle.{Handle};
ghost use Rattle.ms_segment.specs.Memory.{IsFit};
ghost use Rattle.ms_machine.specs.Crews.{Crew, OutOfBudget, Start, ahead, ends, run_entries};
ghost use Rattle.ms_machine.specs.refinement.Holding.{StoreFits, ThreadFits};
ghost use Rattle.ms_machine.specs.Store.{Store as StoreView};
ghost use Rattle.ms_machine.specs.Typing.{StoreTyped, TaskTyped, outline_of};
ghost use Rattle.ms_task.specs.Thread.{Thread};
ghost use Rattle.ms_task.specs.refinement.View.{thread_of};
ghost use Rattle.ms_tasks.specs.refinement.Logs.{CountsUpTo};
ghost use Rattle.ms_tasks.specs.refinement.Parts.{HaltsBy, CountsInput, CountsOut, IsRow, IsWell};
ghost use Rattle.ms_tasks.specs.refinement.Ready.{IsReady};
ghost use Rattle.ms_tasks.specs.refinement.Rows.{begun_with, chain_in, threads_in};

use crate::burst::{Halt, burst};
use crate::log::Log;
use crate::whose::Whose;
use ms_machine::{Store, has_ended};
use ms_outside::{Sink, Source};
use ms_segment::SegmentMemory;
use ms_task::Task;

/// At most so many steps of a start function, which may have ended. It gives why they were halted, and how many are left.
fn run_start<M: SegmentMemory, I: Source, O: Sink>(
    store: &mut Store<M>,
    task: &mut Task,
    most: u64,
    input: &mut I,
    out: &mut O,
    log: &mut Log,
) -> (Halt, u64)
    requires store { StoreTyped (outline_of store.old) }
    requires task { TaskTyped (outline_of store.old) (thread_of store.old.funcs task.old) }
    requires few { store.old.segments.made + most < 2 ^ 63 }
    requires store_fits { StoreFits store.old }
    requires task_fits { ThreadFits store.old (thread_of store.old.funcs task.old) }
    requires within { CountsUpTo log.old.entries log.old.trace }
    requires room { log.old.entries + most < 2 ^ 63 }
    ensures run { (next : StoreView → Thread → Crew) (entries : List ℕ) → IsRow (Start) next most entries → HaltsBy result.0 (run_entries entries (next store.old (thread_of store.old.funcs task.old))) (run_entries (drop (most - result.1) entries) (next store.new (thread_of store.new.funcs task.new))) (run_entries (drop most entries) (next store.new (thread_of store.new.funcs task.new))) (next store.new (thread_of store.new.funcs task.new)) (I.left input.old) (I.left input.new) (O.held out.old) (O.held out.new) log.old log.new }
    ensures outline { IsWell result.0 → outline_of store.new ≡ outline_of store.old }
    ensures task { IsWell result.0 → TaskTyped (outline_of store.new) (thread_of store.new.funcs task.new) }
    ensures store_fits { IsWell result.0 → StoreFits store.new }
    ensures task_fits { IsWell result.0 → ThreadFits store.new (thread_of store.new.funcs task.new) }
    ensures others { IsWell result.0 → (h : Handle) → IsFit store.old.segments h → IsFit store.new.segments h }
    ensures made { IsWell result.0 → store.new.segments.made + result.1 ≤ store.old.segments.made + most }
    ensures entries { IsWell result.0 → log.new.entries + result.1 ≡ log.old.entries + most }
    ensures within { IsWell result.0 → CountsUpTo log.new.entries log.new.trace }
    ensures left { result.1 ≤ most }
    ensures ended { result.0 ≡ Halt.Ended → (thread_of store.new.funcs task.new).work ≡ [] }
    ensures paused { result.0 ≡ Halt.Paused → (result.1 ≡ 0) × ((thread_of store.new.funcs task.new).work ≢ []) }
    ensures input_faults { CountsInput result.0 (I.faults input.old) (I.faults input.new) }
    ensures out_faults { CountsOut result.0 (O.faults out.old) (O.faults out.new) }
{
    if has_ended(store, task) {
        return (Halt::Ended, most);
    }
    burst(store, task, Whose::Start, most, input, out, log)
}

/// Runs the start functions, in order, for so many entries at most, whatever these name. It gives how many are left.
pub(crate) fn run_chain<M: SegmentMemory, I: Source, O: Sink>(
    store: &mut Store<M>,
    chain: &mut [Task],
    most: u64,
    input: &mut I,
    out: &mut O,
    log: &mut Log,
) -> (Halt, u64)
    requires ready { IsReady (chain_in store.old chain.old []) }
    requires few { store.old.segments.made + most < 2 ^ 63 }
    requires within { CountsUpTo log.old.entries log.old.trace }
    requires room { log.old.entries + most < 2 ^ 63 }
    ensures run { (entries : List ℕ) (tasks : List Thread) → length entries ≡ most → HaltsBy result.0 (run_entries entries (begun_with store.old (threads_in store.old chain.old) tasks)) (run_entries (drop (most - result.1) entries) (begun_with store.new [] tasks)) (ends OutOfBudget (begun_with store.new (threads_in store.new chain.new) tasks)) (begun_with store.new (threads_in store.new chain.new) tasks) (I.left input.old) (I.left input.new) (O.held out.old) (O.held out.new) log.old log.new }
    ensures left { result.1 ≤ most }
    ensures ended { result.0 ≡ Halt.Ended → ahead (threads_in store.new chain.new) ≡ [] }
    ensures ready { IsWell result.0 → IsReady (chain_in store.new chain.new []) }
    ensures outline { IsWell result.0 → outline_of store.new ≡ outline_of store.old }
    ensures others { IsWell result.0 → (h : Handle) → IsFit store.old.segments h → IsFit store.new.segments h }
    ensures made { IsWell result.0 → store.new.segments.made + result.1 ≤ store.old.segments.made + most }
    ensures entries { IsWell result.0 → log.new.entries + result.1 ≡ log.old.entries + most }
    ensures within { IsWell result.0 → CountsUpTo log.new.entries log.new.trace }
    ensures input_faults { CountsInput result.0 (I.faults input.old) (I.faults input.new) }
    ensures out_faults { CountsOut result.0 (O.faults out.old) (O.faults out.new) }
{
    let mut left = most;
    for i in 0..chain.len() {
        let task = &mut chain[i];
        let (halt, rest) = run_start(store, task, left, input, out, log);
        left = rest;
        match halt {
            Halt::Ended => {}
            _ => return (halt, left),
        }
    }
    (Halt::Ended, left)
}
