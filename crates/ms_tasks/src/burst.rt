//! Several steps of one task in a row.

ghost use Rattle.std.specs.Prelude.{◌≡◌, ◌≢◌, ◌+◌, ◌-◌, ◌<◌, ◌≤◌, ◌^◌, ℕ, List, [], drop};
ghost use Rattle.ms_handle.specs.declared.handle.Handle.{Handle};
ghost use Rattle.ms_segment.specs.Memory.{IsFit};
ghost use Rattle.ms_machine.specs.Crews.{Crew, run_entries};
ghost use Rattle.ms_machine.specs.refinement.Holding.{StoreFits, ThreadFits};
ghost use Rattle.ms_machine.specs.Store.{Store as StoreView};
ghost use Rattle.ms_machine.specs.Typing.{StoreTyped, TaskTyped, outline_of};
ghost use Rattle.ms_task.specs.Thread.{Thread};
ghost use Rattle.ms_task.specs.refinement.View.{thread_of};
ghost use Rattle.ms_tasks.specs.refinement.Logs.{CountsUpTo};
ghost use Rattle.ms_tasks.specs.refinement.Parts.{HaltsBy, CountsInput, CountsOut, IsRow, IsWell};
ghost use Rattle.ms_tasks.specs.refinement.Steppers.{whose_of};

use crate::log::Log;
use crate::whose::Whose;
use ms_host::TrapKind;
use ms_machine::{Stepped, Store, Stretch, step};
use ms_outside::{Sink, Source};
use ms_segment::SegmentMemory;
use ms_task::Task;

/// Why a burst of steps was halted.
#[derive(Clone, Copy, PartialEq, Eq)]
pub(crate) enum Halt {
    /// The task has nothing left to do.
    Ended,
    /// So many steps were made.
    Paused,
    /// A step of this one stopped the program.
    Trap(Whose, TrapKind),
    /// The input failed.
    ReadFault,
    /// The output failed.
    WriteFault,
    /// Memory has run out.
    Memory,
}

/// At most so many steps of a task that has more to do, whose entries are this one's. It gives why they were halted, and how
/// many are left.
///
/// Where all of them are quiet, nothing else is called: by turns of 1 most are such.
#[inline(always)]
pub(crate) fn burst<M: SegmentMemory, I: Source, O: Sink>(
    store: &mut Store<M>,
    task: &mut Task,
    whose: Whose,
    most: u64,
    input: &mut I,
    out: &mut O,
    log: &mut Log,
) -> (Halt, u64)
    requires store { StoreTyped (outline_of store.old) }
    requires task { TaskTyped (outline_of store.old) (thread_of store.old.funcs task.old) }
    requires going { (thread_of store.old.funcs task.old).work ≢ [] }
    requires few { store.old.segments.made + most < 2 ^ 63 }
    requires store_fits { StoreFits store.old }
    requires task_fits { ThreadFits store.old (thread_of store.old.funcs task.old) }
    requires within { CountsUpTo log.old.entries log.old.trace }
    requires room { log.old.entries + most < 2 ^ 63 }
    ensures run { (next : StoreView → Thread → Crew) (entries : List ℕ) → IsRow (whose_of whose) next most entries → HaltsBy result.0 (run_entries entries (next store.old (thread_of store.old.funcs task.old))) (run_entries (drop (most - result.1) entries) (next store.new (thread_of store.new.funcs task.new))) (run_entries (drop most entries) (next store.new (thread_of store.new.funcs task.new))) (next store.new (thread_of store.new.funcs task.new)) (I.left input.old) (I.left input.new) (O.held out.old) (O.held out.new) log.old log.new }
    ensures outline { IsWell result.0 → outline_of store.new ≡ outline_of store.old }
    ensures task { IsWell result.0 → TaskTyped (outline_of store.new) (thread_of store.new.funcs task.new) }
    ensures store_fits { IsWell result.0 → StoreFits store.new }
    ensures task_fits { IsWell result.0 → ThreadFits store.new (thread_of store.new.funcs task.new) }
    ensures others { IsWell result.0 → (h : Handle) → IsFit store.old.segments h → IsFit store.new.segments h }
    ensures made { IsWell result.0 → store.new.segments.made + result.1 ≤ store.old.segments.made + most }
    ensures entries { IsWell result.0 → log.new.entries + result.1 ≡ log.old.entries + most }
    ensures within { IsWell result.0 → CountsUpTo log.new.entries log.new.trace }
    ensures left { result.1 ≤ most }
    ensures ended { result.0 ≡ Halt.Ended → (thread_of store.new.funcs task.new).work ≡ [] }
    ensures paused { result.0 ≡ Halt.Paused → (result.1 ≡ 0) × ((thread_of store.new.funcs task.new).work ≢ []) }
    ensures input_faults { CountsInput result.0 (I.faults input.old) (I.faults input.new) }
    ensures out_faults { CountsOut result.0 (O.faults out.old) (O.faults out.new) }
{
    let (stretch, rest) = log.run_quietly(store, task, most);
    match stretch {
        Stretch::Paused => {}
        Stretch::Ended => {
            log.count(most - rest);
            return (Halt::Ended, rest);
        }
        Stretch::Memory => return (Halt::Memory, rest),
    }
    log.count(most - rest);
    if rest == 0 {
        return (Halt::Paused, 0);
    }
    go_loudly(store, task, whose, rest, input, out, log)
}

/// The same, where the outside may see the first step. A step is made by itself, and quiet ones that follow it are made in a row.
#[inline(never)]
fn go_loudly<M: SegmentMemory, I: Source, O: Sink>(
    store: &mut Store<M>,
    task: &mut Task,
    whose: Whose,
    most: u64,
    input: &mut I,
    out: &mut O,
    log: &mut Log,
) -> (Halt, u64)
    requires store { StoreTyped (outline_of store.old) }
    requires task { TaskTyped (outline_of store.old) (thread_of store.old.funcs task.old) }
    requires going { (thread_of store.old.funcs task.old).work ≢ [] }
    requires few { store.old.segments.made + most < 2 ^ 63 }
    requires store_fits { StoreFits store.old }
    requires task_fits { ThreadFits store.old (thread_of store.old.funcs task.old) }
    requires within { CountsUpTo log.old.entries log.old.trace }
    requires room { log.old.entries + most < 2 ^ 63 }
    ensures run { (next : StoreView → Thread → Crew) (entries : List ℕ) → IsRow (whose_of whose) next most entries → HaltsBy result.0 (run_entries entries (next store.old (thread_of store.old.funcs task.old))) (run_entries (drop (most - result.1) entries) (next store.new (thread_of store.new.funcs task.new))) (run_entries (drop most entries) (next store.new (thread_of store.new.funcs task.new))) (next store.new (thread_of store.new.funcs task.new)) (I.left input.old) (I.left input.new) (O.held out.old) (O.held out.new) log.old log.new }
    ensures outline { IsWell result.0 → outline_of store.new ≡ outline_of store.old }
    ensures task { IsWell result.0 → TaskTyped (outline_of store.new) (thread_of store.new.funcs task.new) }
    ensures store_fits { IsWell result.0 → StoreFits store.new }
    ensures task_fits { IsWell result.0 → ThreadFits store.new (thread_of store.new.funcs task.new) }
    ensures others { IsWell result.0 → (h : Handle) → IsFit store.old.segments h → IsFit store.new.segments h }
    ensures made { IsWell result.0 → store.new.segments.made + result.1 ≤ store.old.segments.made + most }
    ensures entries { IsWell result.0 → log.new.entries + result.1 ≡ log.old.entries + most }
    ensures within { IsWell result.0 → CountsUpTo log.new.entries log.new.trace }
    ensures left { result.1 ≤ most }
    ensures ended { result.0 ≡ Halt.Ended → (thread_of store.new.funcs task.new).work ≡ [] }
    ensures paused { result.0 ≡ Halt.Paused → (result.1 ≡ 0) × ((thread_of store.new.funcs task.new).work ≢ []) }
    ensures input_faults { CountsInput result.0 (I.faults input.old) (I.faults input.new) }
    ensures out_faults { CountsOut result.0 (O.faults out.old) (O.faults out.new) }
{
    let mut left = most;
    while left > 0 {
        match step(store, task, input, out) {
            Stepped::On(event) => {
                let Ok(()) = log.see(event) else {
                    return (Halt::Memory, left);
                };
            }
            Stepped::Ended(_, event) => {
                let Ok(()) = log.see(event) else {
                    return (Halt::Memory, left);
                };
                log.count(most - (left - 1));
                return (Halt::Ended, left - 1);
            }
            Stepped::Trap(kind) => {
                log.count(most - (left - 1));
                return (Halt::Trap(whose, kind), left - 1);
            }
            Stepped::ReadFault => return (Halt::ReadFault, left),
            Stepped::WriteFault => return (Halt::WriteFault, left),
            Stepped::Memory => return (Halt::Memory, left),
        }
        match log.run_quietly(store, task, left - 1) {
            (Stretch::Paused, rest) => left = rest,
            (Stretch::Ended, rest) => {
                log.count(most - rest);
                return (Halt::Ended, rest);
            }
            (Stretch::Memory, rest) => return (Halt::Memory, rest),
        }
    }
    log.count(most);
    (Halt::Paused, 0)
}
