//! A whole run: the start functions, then the tasks.

ghost use Rattle.std.specs.Prelude.{◌≡◌, ◌+◌, ◌<◌, ◌≤◌, ◌^◌, false, length};
ghost use Rattle.ms_handle.specs.declared.handle.Handle.{Handle};
ghost use Rattle.ms_segment.specs.Memory.{IsFit};
ghost use Rattle.ms_machine.specs.Crews.{OutOfBudget, Results, are_ended, begun, ends, results, run_entries, run_of};
ghost use Rattle.ms_machine.specs.Typing.{outline_of};
ghost use Rattle.ms_tasks.specs.refinement.Logs.{CountsUpTo};
ghost use Rattle.ms_tasks.specs.refinement.Parts.{HaltsBy, CountsInput, CountsOut, IsWell};
ghost use Rattle.ms_tasks.specs.refinement.Ready.{IsReady};
ghost use Rattle.ms_tasks.specs.refinement.Rows.{all_in, crew_in, threads_in};
ghost use Rattle.ms_tasks.specs.refinement.Schedules.{HasEntries, HasTurns, entries_of, part_of};

use crate::burst::Halt;
use crate::by_list::run_listed;
use crate::by_turns::run_turns;
use crate::log::Log;
use crate::rows::all_ended;
use crate::schedule::{Entries, Schedule};
use crate::start_chain::run_chain;
use ms_machine::Store;
use ms_outside::{Sink, Source};
use ms_segment::SegmentMemory;
use ms_task::Task;

/// The entries of a schedule from one on, so many, where the start functions have ended and not all tasks have.
fn run_tasks<M: SegmentMemory, I: Source, O: Sink>(
    store: &mut Store<M>,
    tasks: &mut [Task],
    schedule: &Schedule,
    from: u64,
    most: u64,
    input: &mut I,
    out: &mut O,
    log: &mut Log,
) -> Halt
    requires turns { HasTurns schedule.now }
    requires entries { HasEntries schedule.now (from + most) }
    requires tasks { (0 < length tasks.old) × (length tasks.old < 2 ^ 32) }
    requires ready { IsReady (crew_in store.old tasks.old) }
    requires going { are_ended (threads_in store.old tasks.old) ≡ false }
    requires few { store.old.segments.made + most < 2 ^ 63 }
    requires within { CountsUpTo log.old.entries log.old.trace }
    requires room { log.old.entries + most < 2 ^ 63 }
    requires all { from + most < 2 ^ 63 }
    ensures run { HaltsBy result (run_entries (part_of schedule.now (length tasks.old) from most) (crew_in store.old tasks.old)) (ends (Results (results (threads_in store.new tasks.new))) (crew_in store.new tasks.new)) (ends OutOfBudget (crew_in store.new tasks.new)) (crew_in store.new tasks.new) (I.left input.old) (I.left input.new) (O.held out.old) (O.held out.new) log.old log.new }
    ensures ready { IsWell result → IsReady (crew_in store.new tasks.new) }
    ensures outline { IsWell result → outline_of store.new ≡ outline_of store.old }
    ensures others { IsWell result → (h : Handle) → IsFit store.old.segments h → IsFit store.new.segments h }
    ensures made { IsWell result → store.new.segments.made ≤ store.old.segments.made + most }
    ensures entries { IsWell result → log.new.entries ≤ log.old.entries + most }
    ensures within { IsWell result → CountsUpTo log.new.entries log.new.trace }
    ensures input_faults { CountsInput result (I.faults input.old) (I.faults input.new) }
    ensures out_faults { CountsOut result (O.faults out.old) (O.faults out.new) }
{
    let only = schedule.only;
    match &schedule.entries {
        Entries::Turns(q) => run_turns(store, tasks, only, *q, from, most, input, out, log),
        Entries::Listed(entries) => {
            let part = &entries[from as usize..(from + most) as usize];
            run_listed(store, tasks, only, part, input, out, log)
        }
    }
}

/// Runs the start functions, and then the tasks by a schedule, for so many entries at most.
pub(crate) fn run_all<M: SegmentMemory, I: Source, O: Sink>(
    store: &mut Store<M>,
    chain: &mut [Task],
    tasks: &mut [Task],
    schedule: &Schedule,
    budget: u64,
    input: &mut I,
    out: &mut O,
    log: &mut Log,
) -> Halt
    requires turns { HasTurns schedule.now }
    requires tasks { (0 < length tasks.old) × (length tasks.old < 2 ^ 32) }
    requires ready { IsReady (all_in store.old chain.old tasks.old) }
    requires few { store.old.segments.made + budget < 2 ^ 63 }
    requires within { CountsUpTo log.old.entries log.old.trace }
    requires room { log.old.entries + budget < 2 ^ 63 }
    ensures run { HaltsBy result (run_of (entries_of schedule.now (length tasks.old) budget) (all_in store.old chain.old tasks.old)) (ends (Results (results (threads_in store.new tasks.new))) (begun (all_in store.new chain.new tasks.new))) (ends OutOfBudget (begun (all_in store.new chain.new tasks.new))) (begun (all_in store.new chain.new tasks.new)) (I.left input.old) (I.left input.new) (O.held out.old) (O.held out.new) log.old log.new }
    ensures ready { IsWell result → IsReady (all_in store.new chain.new tasks.new) }
    ensures outline { IsWell result → outline_of store.new ≡ outline_of store.old }
    ensures made { IsWell result → store.new.segments.made ≤ store.old.segments.made + budget }
    ensures entries { IsWell result → log.new.entries ≤ log.old.entries + budget }
    ensures within { IsWell result → CountsUpTo log.new.entries log.new.trace }
    ensures input_faults { CountsInput result (I.faults input.old) (I.faults input.new) }
    ensures out_faults { CountsOut result (O.faults out.old) (O.faults out.new) }
{
    let most = schedule.most(budget);
    let (halt, left) = run_chain(store, chain, most, input, out, log);
    match halt {
        Halt::Ended => {}
        _ => return halt,
    }
    if all_ended(store, tasks) {
        return Halt::Ended;
    }
    run_tasks(store, tasks, schedule, most - left, left, input, out, log)
}
