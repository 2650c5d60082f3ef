//! Runs by a list of entries, where the start functions have ended.

ghost use Rattle.std.specs.Prelude.{◌≡◌, ◌+◌, ◌<◌, ◌≤◌, ◌^◌, ◌++◌, false, drop, length, replicate};
ghost use Rattle.ms_handle.specs.declared.handle.Handle.{Handle};
ghost use Rattle.ms_segment.specs.Memory.{IsFit};
ghost use Rattle.ms_machine.specs.Crews.{OutOfBudget, Results, are_ended, ends, results, run_entries};
ghost use Rattle.ms_machine.specs.Typing.{outline_of};
ghost use Rattle.ms_tasks.specs.refinement.Logs.{CountsUpTo};
ghost use Rattle.ms_tasks.specs.refinement.Parts.{HaltsBy, CountsInput, CountsOut, IsWell};
ghost use Rattle.ms_tasks.specs.refinement.Ready.{IsReady};
ghost use Rattle.ms_tasks.specs.refinement.Rows.{crew_in, threads_in};
ghost use Rattle.ms_tasks.specs.Alone.{by_only};

use crate::burst::Halt;
use crate::log::Log;
use crate::rows::turn;
use crate::schedule::named;
use ms_machine::Store;
use ms_outside::{Sink, Source};
use ms_segment::SegmentMemory;
use ms_task::Task;

/// How many of the first entries name this task.
fn row_of(entries: &[u32], k: u32) -> usize
    ensures within { result ≤ length entries.now }
    ensures row { entries.now ≡ replicate result k ++ drop result entries.now }
{
    let mut row = 0;
    while row < entries.len() {
        if entries[row] != k {
            return row;
        }
        row += 1;
    }
    row
}

/// The entries of a list, where not all tasks have ended, and perhaps one is named alone.
pub(crate) fn run_listed<M: SegmentMemory, I: Source, O: Sink>(
    store: &mut Store<M>,
    tasks: &mut [Task],
    only: Option<u32>,
    entries: &[u32],
    input: &mut I,
    out: &mut O,
    log: &mut Log,
) -> Halt
    requires tasks { length tasks.old < 2 ^ 32 }
    requires ready { IsReady (crew_in store.old tasks.old) }
    requires going { are_ended (threads_in store.old tasks.old) ≡ false }
    requires few { store.old.segments.made + length entries.now < 2 ^ 63 }
    requires within { CountsUpTo log.old.entries log.old.trace }
    requires room { log.old.entries + length entries.now < 2 ^ 63 }
    ensures run { HaltsBy result (run_entries (by_only only (length tasks.old) entries.now) (crew_in store.old tasks.old)) (ends (Results (results (threads_in store.new tasks.new))) (crew_in store.new tasks.new)) (ends OutOfBudget (crew_in store.new tasks.new)) (crew_in store.new tasks.new) (I.left input.old) (I.left input.new) (O.held out.old) (O.held out.new) log.old log.new }
    ensures ready { IsWell result → IsReady (crew_in store.new tasks.new) }
    ensures outline { IsWell result → outline_of store.new ≡ outline_of store.old }
    ensures others { IsWell result → (h : Handle) → IsFit store.old.segments h → IsFit store.new.segments h }
    ensures made { IsWell result → store.new.segments.made ≤ store.old.segments.made + length entries.now }
    ensures entries { IsWell result → log.new.entries ≤ log.old.entries + length entries.now }
    ensures within { IsWell result → CountsUpTo log.new.entries log.new.trace }
    ensures input_faults { CountsInput result (I.faults input.old) (I.faults input.new) }
    ensures out_faults { CountsOut result (O.faults out.old) (O.faults out.new) }
{
    let count = tasks.len() as u32;
    let mut at = 0;
    while at < entries.len() {
        let k = entries[at];
        let row = 1 + row_of(&entries[at + 1..], k);
        let task = named(only, count, k);
        let (halt, _) = turn(store, tasks, task, row as u64, input, out, log);
        match halt {
            Halt::Paused => {}
            _ => return halt,
        }
        at += row;
    }
    Halt::Paused
}
