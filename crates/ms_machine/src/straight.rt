//! Steps in a row of which the outside sees nothing: all but those that call the host or go through a table, and, where the events of the
//! segment memory are kept, those that may tell one.

ghost use Rattle.std.specs.Prelude.{◌≡◌, ◌≢◌, ◌<◌, ◌≤◌, ◌+◌, ◌-◌, ◌^◌, [], None, false, length, IsTrue, MatchOption, Some};
ghost use Rattle.ms_event.specs.refinement.Tally.{LeavesRoom};
ghost use Rattle.ms_handle.specs.declared.handle.Handle.{Handle};
ghost use Rattle.ms_machine.specs.refinement.StraightLine.{DoesAgain, DoesCall, DoesMeet, DoesQuietly, DoesTell, DoesWork, IsAgain, IsCalm, IsHalted, IsIn, IsNext};
ghost use Rattle.ms_machine.specs.refinement.Doing.{Can, Carries};
ghost use Rattle.ms_machine.specs.refinement.Holding.{Each, Fits, StoreFits, ThreadFits};
ghost use Rattle.ms_machine.specs.Step.{Next, act};
ghost use Rattle.ms_machine.specs.Typing.{StoreTyped, TaskTyped, outline_of};
ghost use Rattle.ms_module.specs.declared.instr.Instr.TheVariants as instr;
ghost use Rattle.ms_segment.specs.Memory.{IsFit};
ghost use Rattle.ms_task.specs.Control.{exited};
ghost use Rattle.ms_task.specs.Thread.{sequence, with_first};
ghost use Rattle.ms_task.specs.refinement.View.{at_next, before, thread_of};

use crate::fault::Fault;
use crate::lookup::func_address;
use crate::segment::Told;
use crate::store::Store;
use crate::{control, memory, plain, segment};
use ms_event::Tally;
use ms_module::{Instr, Linear, Numeric, Segment};
use ms_segment::SegmentMemory;
use ms_task::{CallFault, Task};

/// Carries out a numeric instruction, or says that it traps; then nothing has changed.
#[inline(always)]
fn numeric<M: SegmentMemory>(store: &Store<M>, task: &mut Task, i: Numeric, next: usize) -> bool
    requires { Can (instr.Numeric i) next store.now task.old }
    ensures on { IsTrue result → Carries (instr.Numeric i) next store.now task.old task.new }
    ensures off { result ≡ false → task.new ≡ task.old }
{
    let _ = store;
    let _ = next;
    ms_operate::numeric(i, &mut task.operands).is_ok()
}

/// Carries out an instruction on handles alone, or says that it didn't; then nothing has changed.
#[inline(always)]
fn carry_on_handles<M: SegmentMemory>(
    store: &Store<M>,
    task: &mut Task,
    i: Segment,
    next: usize,
) -> bool
    requires can { Can (instr.Segment i) next store.now task.old }
    requires fit { Each (Fits store.now.segments) task.old.operands }
    ensures on { IsTrue result → Carries (instr.Segment i) next store.now task.old task.new }
    ensures off { result ≡ false → task.new ≡ task.old }
{
    let _ = next;
    segment::on_handles(i, &store.segments, &mut task.operands)
}

/// Carries out an instruction that stays within its sequence, behind which the task goes on at `next`, or says that it
/// didn't; then nothing has changed.
#[inline(always)]
fn carry_straight<M: SegmentMemory>(
    store: &Store<M>,
    task: &mut Task,
    instr: &Instr,
    next: usize,
) -> bool
    requires { Can instr.now next store.now task.old }
    ensures on { IsTrue result → Carries instr.now next store.now task.old task.new }
    ensures off { result ≡ false → task.new ≡ task.old }
{
    match *instr {
        Instr::Nop => plain::nop(store, task, next).is_ok(),
        Instr::Drop => plain::discard(store, task, next).is_ok(),
        Instr::Select => plain::select(store, task, next).is_ok(),
        Instr::LocalGet(x) => plain::local_get(store, task, x, next).is_ok(),
        Instr::LocalSet(x) => plain::local_set(store, task, x, next).is_ok(),
        Instr::LocalTee(x) => plain::local_tee(store, task, x, next).is_ok(),
        Instr::GlobalGet(x) => plain::global_get(store, task, x, next).is_ok(),
        Instr::I32Const(n) => plain::i32_const(store, task, n, next).is_ok(),
        Instr::I64Const(n) => plain::i64_const(store, task, n, next).is_ok(),
        Instr::Numeric(i) => numeric(store, task, i, next),
        _ => false,
    }
}

/// Carries out a jump, or says that it didn't, since memory has run out.
#[inline(always)]
fn jump<M: SegmentMemory>(store: &Store<M>, task: &mut Task, instr: &Instr, next: usize) -> bool
    requires before { before store.now.funcs task.old next ≡ Some instr.now }
    requires can { Can instr.now next store.now task.old }
    ensures { IsTrue result → act store.now instr.now (at_next store.now.funcs task.old next) ≡ Next store.now (thread_of store.now.funcs task.new) None }
{
    match *instr {
        Instr::Block { ty, body } => control::block(store, task, ty, body, next).is_ok(),
        Instr::Loop { ty, body } => control::begin_loop(store, task, ty, body, next).is_ok(),
        Instr::If { ty, then, other } => {
            control::if_else(store, task, ty, then, other, next).is_ok()
        }
        Instr::Br(label) => control::br(store, task, label, next).is_ok(),
        Instr::BrIf(label) => control::br_if(store, task, label, next).is_ok(),
        Instr::BrTable(ref table) => {
            task.branch_by_table(&store.funcs, table, next);
            true
        }
        Instr::Return => control::return_(store, task, next).is_ok(),
        _ => false,
    }
}

/// What came of a call.
#[derive(Clone, Copy)]
pub(crate) enum Called {
    /// The function was entered.
    Made,
    /// It is a function of the host, or too many calls are open. Nothing has changed.
    Not,
    /// Memory has run out.
    Memory,
}

/// A call of a function that has a body, behind which the task goes on at `next`.
#[inline(always)]
fn call<M: SegmentMemory>(store: &Store<M>, task: &mut Task, x: u32, next: usize) -> Called
    requires { Can (instr.Call x) next store.now task.old }
    ensures { DoesCall result (instr.Call x) next store.now task.old task.new }
{
    let address = func_address(store, task, x);
    if store.host(address).is_some() {
        return Called::Not;
    }
    match task.call(&store.funcs, address, next) {
        Ok(()) => Called::Made,
        Err(CallFault::TooDeep) => Called::Not,
        Err(CallFault::Memory) => Called::Memory,
    }
}

/// What came of an instruction.
#[derive(Clone, Copy)]
pub(crate) enum CarriedOut<'a> {
    /// It was carried out, but that the task was left at its place: it goes on behind the instruction, in the same sequence.
    On,
    /// It was carried out, but for the exit of blocks and calls that are then at their ends.
    Behind,
    /// It was carried out, and behind it a loop was begun again: two steps. The task goes on in this sequence.
    Again(&'a [Instr]),
    /// It works on the linear memory. Nothing has changed.
    Linear(Linear),
    /// It sets the global of this index. Nothing has changed.
    Global(u32),
    /// It works on segments. Nothing has changed.
    Segment(Segment),
    /// It was not carried out. Nothing has changed.
    Not,
    /// Memory has run out.
    Memory,
}

/// An instruction that stays within its sequence, behind which the task goes on at `next`.
#[inline(always)]
fn straight<'a, M: SegmentMemory>(
    store: &'a Store<M>,
    task: &mut Task,
    instr: &Instr,
    next: usize,
) -> CarriedOut<'a>
    requires can { Can instr.now next store.now task.old }
    ensures done { DoesQuietly result instr.now next store.now task.old task.new }
    ensures once { ¬ IsAgain result }
{
    if !carry_straight(store, task, instr, next) {
        return CarriedOut::Not;
    }
    CarriedOut::On
}

/// An instruction on handles alone, in the same way; of each other one on segments it says that it is one.
///
/// It has an arm of its own in `quietly`, since each arm that `straight` has makes the code longer by all that is straight.
#[inline(always)]
fn on_handles<'a, M: SegmentMemory>(
    store: &'a Store<M>,
    task: &mut Task,
    i: Segment,
    next: usize,
) -> CarriedOut<'a>
    requires can { Can (instr.Segment i) next store.now task.old }
    requires fit { Each (Fits store.now.segments) task.old.operands }
    ensures done { DoesQuietly result (instr.Segment i) next store.now task.old task.new }
    ensures once { ¬ IsAgain result }
{
    if !carry_on_handles(store, task, i, next) {
        return CarriedOut::Segment(i);
    }
    CarriedOut::On
}

/// A jump, behind which the task goes on at `next` where it doesn't lead elsewhere.
#[inline(always)]
fn leap<'a, M: SegmentMemory>(
    store: &'a Store<M>,
    task: &mut Task,
    instr: &Instr,
    next: usize,
) -> CarriedOut<'a>
    requires before { before store.now.funcs task.old next ≡ Some instr.now }
    requires can { Can instr.now next store.now task.old }
    ensures done { DoesQuietly result instr.now next store.now task.old task.new }
    ensures off { result ≢ CarriedOut.On }
    ensures once { ¬ IsAgain result }
{
    if jump(store, task, instr, next) {
        CarriedOut::Behind
    } else {
        CarriedOut::Memory
    }
}

/// A branch to a loop, which is begun again; `None` where the instruction isn't one, and nothing has changed.
#[inline(always)]
fn repeat<'a, M: SegmentMemory>(
    store: &'a Store<M>,
    task: &mut Task,
    instr: &Instr,
    next: usize,
) -> Option<&'a [Instr]>
    requires { Can instr.now next store.now task.old }
    ensures { MatchOption result (task.new ≡ task.old) (λ code. DoesAgain code.now store.now (with_first instr.now (at_next store.now.funcs task.old next)) task.new) }
{
    match *instr {
        Instr::Br(label) => task.repeat(&store.funcs, label),
        Instr::BrIf(label) => task.repeat_if(&store.funcs, label, next),
        _ => None,
    }
}

/// Goes on behind a branch that isn't taken, or says that it did nothing.
#[inline(always)]
fn pass<M: SegmentMemory>(store: &Store<M>, task: &mut Task, instr: &Instr, next: usize) -> bool
    requires { Can instr.now next store.now task.old }
    ensures on { IsTrue result → Carries instr.now next store.now task.old task.new }
    ensures off { result ≡ false → task.new ≡ task.old }
{
    match *instr {
        Instr::BrIf(label) => task.pass(&store.funcs, label, next),
        _ => false,
    }
}

/// A branch. Where `two` steps may be made, one to a loop begins it again.
#[inline(always)]
fn branch<'a, M: SegmentMemory>(
    store: &'a Store<M>,
    task: &mut Task,
    instr: &Instr,
    next: usize,
    two: bool,
) -> CarriedOut<'a>
    requires before { before store.now.funcs task.old next ≡ Some instr.now }
    requires can { Can instr.now next store.now task.old }
    ensures done { DoesQuietly result instr.now next store.now task.old task.new }
    ensures again { IsAgain result → IsTrue two }
{
    if pass(store, task, instr, next) {
        return CarriedOut::On;
    }
    if !two {
        return leap(store, task, instr, next);
    }
    match repeat(store, task, instr, next) {
        Some(code) => CarriedOut::Again(code),
        None => leap(store, task, instr, next),
    }
}

/// Carries out an instruction that takes the store as it is, behind which the task goes on at `next`, or two of them, where `two`
/// says that so many may be carried out; or it says what the instruction is.
///
/// Each has an arm of its own, so that one jump of the processor leads to its code.
#[inline(always)]
fn quietly<'a, M: SegmentMemory>(
    store: &'a Store<M>,
    task: &mut Task,
    instr: &Instr,
    next: usize,
    two: bool,
) -> CarriedOut<'a>
    requires before { before store.now.funcs task.old next ≡ Some instr.now }
    requires can { Can instr.now next store.now task.old }
    requires fit { Each (Fits store.now.segments) task.old.operands }
    ensures done { DoesQuietly result instr.now next store.now task.old task.new }
    ensures again { IsAgain result → IsTrue two }
{
    match *instr {
        Instr::Nop => straight(store, task, instr, next),
        Instr::Drop => straight(store, task, instr, next),
        Instr::Select => straight(store, task, instr, next),
        Instr::LocalGet(_) => straight(store, task, instr, next),
        Instr::LocalSet(_) => straight(store, task, instr, next),
        Instr::LocalTee(_) => straight(store, task, instr, next),
        Instr::GlobalGet(_) => straight(store, task, instr, next),
        Instr::I32Const(_) => straight(store, task, instr, next),
        Instr::I64Const(_) => straight(store, task, instr, next),
        Instr::Numeric(_) => straight(store, task, instr, next),
        Instr::Segment(i) => on_handles(store, task, i, next),
        Instr::Block { .. } => leap(store, task, instr, next),
        Instr::Loop { .. } => leap(store, task, instr, next),
        Instr::If { .. } => leap(store, task, instr, next),
        Instr::Br(_) => branch(store, task, instr, next, two),
        Instr::BrIf(_) => branch(store, task, instr, next, two),
        Instr::BrTable(_) => leap(store, task, instr, next),
        Instr::Return => leap(store, task, instr, next),
        Instr::Call(x) => match call(store, task, x, next) {
            Called::Made => CarriedOut::Behind,
            Called::Not => CarriedOut::Not,
            Called::Memory => CarriedOut::Memory,
        },
        Instr::Linear(i) => CarriedOut::Linear(i),
        Instr::GlobalSet(x) => CarriedOut::Global(x),
        _ => CarriedOut::Not,
    }
}

/// Exits the blocks and calls that are at their ends, and gives the sequence in which the task goes on, or nothing where it has
/// ended.
#[inline(always)]
fn leave<'a, M: SegmentMemory>(store: &'a Store<M>, task: &mut Task) -> Option<&'a [Instr]>
    ensures exited { thread_of store.now.funcs task.new ≡ exited (thread_of store.now.funcs task.old) }
    ensures code { MatchOption result ((thread_of store.now.funcs task.new).work ≡ []) (λ code. IsIn code.now store.now.funcs task.new) }
{
    match task.resume(&store.funcs) {
        Some(code) => Some(code),
        None => None,
    }
}

/// What instructions in a row came to.
#[derive(Clone, Copy)]
pub(crate) enum Met {
    /// No steps are left, or the next one is another's.
    Paused,
    /// The task has ended.
    Ended,
    /// The next instruction works on the linear memory; behind it the task goes on at this place, where another instruction
    /// may be known to stand.
    Linear(Linear, usize, bool),
    /// The next instruction sets the global of this index, in the same way.
    Global(u32, usize, bool),
    /// The next instruction works on segments, in the same way.
    Segment(Segment, usize, bool),
    /// Memory has run out.
    Memory,
}

/// Carries out the next instructions of a task, at most so many, as long as they take the store as it is. It gives how many
/// are left.
#[inline(always)]
fn go<M: SegmentMemory>(store: &Store<M>, task: &mut Task, most: u64) -> (Met, u64)
    requires store { StoreTyped (outline_of store.now) }
    requires task { TaskTyped (outline_of store.now) (thread_of store.now.funcs task.old) }
    requires going { (thread_of store.now.funcs task.old).work ≢ [] }
    requires store_fits { StoreFits store.now }
    requires task_fits { ThreadFits store.now (thread_of store.now.funcs task.old) }
    ensures left { result.1 ≤ most }
    ensures met { DoesMeet result.0 result.1 most store.now (thread_of store.now.funcs task.old) task.new }
{
    let mut left = most;
    let mut place = task.place();
    let mut rest = &task.code(&store.funcs)[place..];
    while left > 0 {
        let next = place + 1;
        let more = rest.len() > 1;
        match quietly(store, task, &rest[0], next, left > 1) {
            CarriedOut::On => {
                rest = &rest[1..];
                if rest.is_empty() {
                    task.go_to(next);
                    match leave(store, task) {
                        Some(code) => {
                            place = task.place();
                            rest = &code[place..];
                        }
                        None => return (Met::Ended, left - 1),
                    }
                } else {
                    place = next;
                }
            }
            CarriedOut::Behind => match leave(store, task) {
                Some(code) => {
                    place = task.place();
                    rest = &code[place..];
                }
                None => return (Met::Ended, left - 1),
            },
            CarriedOut::Again(code) => {
                place = task.place();
                rest = &code[place..];
                left -= 1;
            }
            CarriedOut::Linear(i) => {
                task.go_to(place);
                return (Met::Linear(i, next, more), left);
            }
            CarriedOut::Global(x) => {
                task.go_to(place);
                return (Met::Global(x, next, more), left);
            }
            CarriedOut::Segment(i) => {
                task.go_to(place);
                return (Met::Segment(i, next, more), left);
            }
            CarriedOut::Not => {
                task.go_to(place);
                return (Met::Paused, left);
            }
            CarriedOut::Memory => return (Met::Memory, left),
        }
        left -= 1;
    }
    task.go_to(place);
    (Met::Paused, 0)
}

/// What came of an instruction that changes the store.
#[derive(Clone, Copy)]
pub(crate) enum Worked {
    /// The task has more to do.
    On,
    /// The task has ended.
    Ended,
    /// It was not carried out. Nothing has changed.
    Not,
    /// Memory has run out.
    Memory,
}

/// Carries out an instruction on the linear memory, behind which the task goes on at `next`, and exits the blocks and calls
/// that are then at their ends: none where `more` says that another instruction stands there.
#[inline(always)]
fn linear<M: SegmentMemory>(
    store: &mut Store<M>,
    task: &mut Task,
    i: Linear,
    next: usize,
    more: bool,
) -> Worked
    requires next { IsNext (instr.Linear i) next store.old task.old }
    requires more { IsTrue more → next < length (sequence store.old.funcs task.old.function task.old.sequence) }
    ensures { DoesWork result store.old (thread_of store.old.funcs task.old) store.new (thread_of store.new.funcs task.new) }
{
    match memory::linear(store, task, i, next) {
        Ok(_) => {
            if more {
                return Worked::On;
            }
            if task.exit_ended(&store.funcs) {
                return Worked::Ended;
            }
            Worked::On
        }
        Err(Fault::Trap(_)) => Worked::Not,
        Err(_) => Worked::Memory,
    }
}

/// Sets a global, in the same way.
#[inline(always)]
fn global<M: SegmentMemory>(
    store: &mut Store<M>,
    task: &mut Task,
    x: u32,
    next: usize,
    more: bool,
) -> Worked
    requires next { IsNext (instr.GlobalSet x) next store.old task.old }
    requires more { IsTrue more → next < length (sequence store.old.funcs task.old.function task.old.sequence) }
    ensures { DoesWork result store.old (thread_of store.old.funcs task.old) store.new (thread_of store.new.funcs task.new) }
{
    match plain::global_set(store, task, x, next) {
        Ok(_) => {
            if more {
                return Worked::On;
            }
            if task.exit_ended(&store.funcs) {
                return Worked::Ended;
            }
            Worked::On
        }
        Err(Fault::Trap(_)) => Worked::Not,
        Err(_) => Worked::Memory,
    }
}

/// Carries out an instruction on segments, in the same way, and counts what it tells.
#[inline(always)]
fn on_segments<M: SegmentMemory>(
    store: &mut Store<M>,
    task: &mut Task,
    i: Segment,
    next: usize,
    more: bool,
    tally: &mut Tally,
) -> Worked
    requires next { IsNext (instr.Segment i) next store.old task.old }
    requires more { IsTrue more → next < length (sequence store.old.funcs task.old.function task.old.sequence) }
    requires few { store.old.segments.made < 2 ^ 63 }
    requires fit { Each (Fits store.old.segments) task.old.operands }
    requires room { LeavesRoom 1 tally.old }
    ensures { DoesTell result store.old (thread_of store.old.funcs task.old) tally.old store.new (thread_of store.new.funcs task.new) tally.new }
{
    match memory::segment_counted(store, task, i, next, tally) {
        Told::Done => {
            if more {
                return Worked::On;
            }
            if task.exit_ended(&store.funcs) {
                return Worked::Ended;
            }
            Worked::On
        }
        Told::Not => Worked::Not,
        Told::Memory => Worked::Memory,
    }
}

/// What quiet steps in a row came to.
#[derive(Clone, Copy, PartialEq, Eq)]
pub enum Stretch {
    /// No steps are left, or the next one is not quiet.
    Paused,
    /// The task has ended.
    Ended,
    /// Memory has run out. The task is not to be run again.
    Memory,
}

/// Makes the next steps of a task, at most so many, as long as the outside sees nothing of them and no call goes through a
/// table. It gives how many are left. What they tell of the segment memory is counted; where it is to be kept, they tell
/// nothing.
#[inline(always)]
fn go_quietly<M: SegmentMemory>(
    store: &mut Store<M>,
    task: &mut Task,
    most: u64,
    keep: bool,
    tally: &mut Tally,
) -> (Stretch, u64)
    requires store { StoreTyped (outline_of store.old) }
    requires task { TaskTyped (outline_of store.old) (thread_of store.old.funcs task.old) }
    requires going { (thread_of store.old.funcs task.old).work ≢ [] }
    requires few { store.old.segments.made + most < 2 ^ 63 }
    requires store_fits { StoreFits store.old }
    requires task_fits { ThreadFits store.old (thread_of store.old.funcs task.old) }
    requires room { LeavesRoom most tally.old }
    ensures left { result.1 ≤ most }
    ensures steps { IsHalted result.0 keep (most - result.1) store.old (thread_of store.old.funcs task.old) tally.old store.new (thread_of store.new.funcs task.new) tally.new }
{
    let mut left = most;
    while left > 0 {
        let (met, rest) = go(store, task, left);
        let worked = match met {
            Met::Paused => return (Stretch::Paused, rest),
            Met::Ended => return (Stretch::Ended, rest),
            Met::Memory => return (Stretch::Memory, rest),
            Met::Linear(i, next, more) => linear(store, task, i, next, more),
            Met::Global(x, next, more) => global(store, task, x, next, more),
            Met::Segment(i, next, more) => {
                if keep {
                    return (Stretch::Paused, rest);
                }
                on_segments(store, task, i, next, more, tally)
            }
        };
        match worked {
            Worked::On => left = rest - 1,
            Worked::Ended => return (Stretch::Ended, rest - 1),
            Worked::Not => return (Stretch::Paused, rest),
            Worked::Memory => return (Stretch::Memory, rest),
        }
    }
    (Stretch::Paused, left)
}

/// Makes the next steps of a task, at most so many, as long as the outside sees nothing of them and no call goes through a
/// table. It gives how many are left. What they tell of the segment memory is counted; where it is to be kept, they tell
/// nothing.
///
/// The task stays well typed, and handles that fit go on fitting, those of other tasks too. Where memory has run out nothing is
/// said of the store and the task.
#[inline(never)]
#[tactic(auto, using(crate::proofs::StraightLine::halted_typed, crate::proofs::StraightLine::halted_grows))]
pub fn run_quietly<M: SegmentMemory>(
    store: &mut Store<M>,
    task: &mut Task,
    most: u64,
    keep: bool,
    tally: &mut Tally,
) -> (Stretch, u64)
    requires store { StoreTyped (outline_of store.old) }
    requires task { TaskTyped (outline_of store.old) (thread_of store.old.funcs task.old) }
    requires going { (thread_of store.old.funcs task.old).work ≢ [] }
    requires few { store.old.segments.made + most < 2 ^ 63 }
    requires store_fits { StoreFits store.old }
    requires task_fits { ThreadFits store.old (thread_of store.old.funcs task.old) }
    requires room { LeavesRoom most tally.old }
    ensures left { result.1 ≤ most }
    ensures steps { IsHalted result.0 keep (most - result.1) store.old (thread_of store.old.funcs task.old) tally.old store.new (thread_of store.new.funcs task.new) tally.new }
    ensures outline { IsCalm result.0 → outline_of store.new ≡ outline_of store.old }
    ensures task { IsCalm result.0 → TaskTyped (outline_of store.new) (thread_of store.new.funcs task.new) }
    ensures store_fits { IsCalm result.0 → StoreFits store.new }
    ensures task_fits { IsCalm result.0 → ThreadFits store.new (thread_of store.new.funcs task.new) }
    ensures others { IsCalm result.0 → (h : Handle) → IsFit store.old.segments h → IsFit store.new.segments h }
    ensures made { IsCalm result.0 → store.new.segments.made ≤ store.old.segments.made + (most - result.1) }
{
    go_quietly(store, task, most, keep, tally)
}
