//! One step of a task.

ghost use Rattle.std.specs.Prelude.{◌≡◌, ◌≢◌, ℕ, ◌+◌, ◌<◌, ◌≤◌, ◌^◌, ◌++◌, List, [], ◌∷◌, length, Err, IfOk, IsTrue, Ok, OnErr, OnOk, Option, None, Some};
ghost use Rattle.ms_handle.specs.declared.handle.Handle.{Handle};
ghost use Rattle.ms_machine.specs.refinement.Accesses.{counted_all};
ghost use Rattle.ms_machine.specs.refinement.Doing.{Can, DoesFirst, LeavesStore, with_more};
ghost use Rattle.ms_machine.specs.refinement.Holding.{Each, Fits, StoreFits, ThreadFits};
ghost use Rattle.ms_machine.specs.Moves as moves;
ghost use Rattle.ms_machine.specs.Moves.{move_for};
ghost use Rattle.ms_machine.specs.Step.{Stuck, act, begin};
ghost use Rattle.ms_machine.specs.Running.{with_event};
ghost use Rattle.ms_machine.specs.refinement.Safety.{Sound};
ghost use Rattle.ms_machine.specs.refinement.Stepped.{CountsInput, CountsOut, DoesStep, IsWell, event_of};
ghost use Rattle.ms_machine.specs.Typing.{StoreTyped, TaskTyped, outline_of};
ghost use Rattle.ms_segment.specs.Memory.{IsFit};
ghost use Rattle.ms_event.specs.declared.event.Event.{Event};
ghost use Rattle.ms_task.specs.Thread.{Begins, Thread};
ghost use Rattle.ms_task.specs.declared.func.FuncInst.{FuncInst};
ghost use Rattle.ms_task.specs.refinement.View.{at_next, before, thread_of};

use crate::fault::Fault;
use crate::hosting::ask_host;
use crate::stepped::Stepped;
use crate::store::Store;
use crate::{control, memory, plain};
use ms_event::Event;
use ms_host::TrapKind;
use ms_module::Instr;
use ms_outside::{Sink, Source};
use ms_segment::SegmentMemory;
use ms_task::Task;
use std::alloc::AllocError;

/// The same with a word on what follows.
#[inline(always)]
fn and_more(
    outcome: Result<Option<Event>, Fault>,
    more: bool,
) -> Result<(Option<Event>, bool), Fault>
    ensures { result ≡ with_more outcome more }
{
    match outcome {
        Ok(event) => Ok((event, more)),
        Err(fault) => Err(fault),
    }
}

/// The same of an instruction that left the task at its place, behind which it goes on at `next`.
#[inline(always)]
fn go_on(
    done: Result<(), AllocError>,
    task: &mut Task,
    next: usize,
    more: bool,
) -> Result<(Option<Event>, bool), Fault>
    ensures ok { OnOk done ((result ≡ Ok (None, more)) × ((funcs : List FuncInst) → thread_of funcs task.new ≡ at_next funcs task.old next)) }
    ensures err { OnErr done (result ≡ Err Fault.Memory) }
{
    match done {
        Ok(()) => {
            task.go_to(next);
            Ok((None, more))
        }
        Err(_) => Err(Fault::Memory),
    }
}

/// Carries out an instruction that leaves the store as it is, behind which the task goes on at `next`, where `more` says that
/// another one stands. It says `true` only where that one is then the first thing left to do.
#[inline(always)]
fn carry_out<M: SegmentMemory>(
    store: &Store<M>,
    task: &mut Task,
    instr: &Instr,
    next: usize,
    more: bool,
) -> Result<(Option<Event>, bool), Fault>
    requires still { LeavesStore instr.now }
    requires before { before store.now.funcs task.old next ≡ Some instr.now }
    requires can { Can instr.now next store.now task.old }
    requires more { IsTrue more → Begins (at_next store.now.funcs task.old next).work }
    ensures done { DoesFirst (act store.now instr.now (at_next store.now.funcs task.old next)) store.now (thread_of store.now.funcs task.old) store.now (thread_of store.now.funcs task.new) result }
    ensures more { IfOk result (λ x. IsTrue x.1 → Begins (thread_of store.now.funcs task.new).work) }
{
    match *instr {
        Instr::Unreachable => Err(Fault::Trap(TrapKind::Unreachable)),
        Instr::Nop => go_on(plain::nop(store, task, next), task, next, more),
        Instr::Block { ty, body } => and_more(control::block(store, task, ty, body, next), false),
        Instr::Loop { ty, body } => and_more(
            control::begin_loop(store, task, ty, body, next),
            false,
        ),
        Instr::If { ty, then, other } => {
            and_more(control::if_else(store, task, ty, then, other, next), false)
        }
        Instr::Br(label) => and_more(control::br(store, task, label, next), false),
        Instr::BrIf(label) => and_more(control::br_if(store, task, label, next), false),
        Instr::BrTable(ref table) => {
            task.branch_by_table(&store.funcs, table, next);
            Ok((None, false))
        }
        Instr::Return => and_more(control::return_(store, task, next), false),
        Instr::Call(x) => and_more(control::call(store, task, x, next), false),
        Instr::CallIndirect(x) => and_more(control::call_indirect(store, task, x, next), false),
        Instr::Drop => go_on(plain::discard(store, task, next), task, next, more),
        Instr::Select => go_on(plain::select(store, task, next), task, next, more),
        Instr::LocalGet(x) => go_on(plain::local_get(store, task, x, next), task, next, more),
        Instr::LocalSet(x) => go_on(plain::local_set(store, task, x, next), task, next, more),
        Instr::LocalTee(x) => go_on(plain::local_tee(store, task, x, next), task, next, more),
        Instr::GlobalGet(x) => go_on(plain::global_get(store, task, x, next), task, next, more),
        Instr::I32Const(n) => go_on(plain::i32_const(store, task, n, next), task, next, more),
        Instr::I64Const(n) => go_on(plain::i64_const(store, task, n, next), task, next, more),
        Instr::Numeric(i) => and_more(memory::numeric(store, task, i, next), more),
        Instr::GlobalSet(_) => unreachable!(),
        Instr::Linear(_) => unreachable!(),
        Instr::Segment(_) => unreachable!(),
    }
}

/// Carries out the first instruction. It says `true` only where another instruction is then the first thing left to do.
#[inline(always)]
fn perform<M: SegmentMemory>(
    store: &mut Store<M>,
    task: &mut Task,
) -> Result<(Option<Event>, bool), Fault>
    requires begins { Begins (thread_of store.old.funcs task.old).work }
    requires can { begin store.old (thread_of store.old.funcs task.old) ≢ Stuck }
    requires few { store.old.segments.made < 2 ^ 63 }
    requires fit { Each (Fits store.old.segments) task.old.operands }
    ensures done { DoesFirst (begin store.old (thread_of store.old.funcs task.old)) store.old (thread_of store.old.funcs task.old) store.new (thread_of store.new.funcs task.new) result }
    ensures more { IfOk result (λ x. IsTrue x.1 → Begins (thread_of store.new.funcs task.new).work) }
{
    let here: &Store<M> = store;
    let fetched = task.fetch(&here.funcs);
    let next = fetched.next;
    let more = fetched.more;
    match *fetched.instr {
        Instr::GlobalSet(x) => and_more(plain::global_set(store, task, x, next), more),
        Instr::Linear(i) => and_more(memory::linear(store, task, i, next), more),
        Instr::Segment(i) => and_more(memory::segment(store, task, i, next), more),
        _ => carry_out(here, task, fetched.instr, next, more),
    }
}

/// One step of a task that is not stuck.
#[inline(always)]
fn advance<M: SegmentMemory, I: Source, O: Sink>(
    store: &mut Store<M>,
    task: &mut Task,
    input: &mut I,
    out: &mut O,
) -> Stepped
    requires begins { Begins (thread_of store.old.funcs task.old).work }
    requires can { move_for store.old (thread_of store.old.funcs task.old) None ≢ moves.Stuck }
    requires few { store.old.segments.made < 2 ^ 63 }
    requires fit { Each (Fits store.old.segments) task.old.operands }
    ensures step { DoesStep result (move_for store.old (thread_of store.old.funcs task.old)) store.old (thread_of store.old.funcs task.old) store.new (thread_of store.new.funcs task.new) (I.left input.old) (I.left input.new) (O.held out.old) (O.held out.new) }
    ensures input_faults { CountsInput result (I.faults input.old) (I.faults input.new) }
    ensures out_faults { CountsOut result (O.faults out.old) (O.faults out.new) }
{
    match perform(store, task) {
        Ok((event, more)) => {
            if more {
                return Stepped::On(event);
            }
            if task.exit_ended(&store.funcs) {
                return Stepped::Ended(task.operands.last(), event);
            }
            Stepped::On(event)
        }
        Err(Fault::Trap(kind)) => Stepped::Trap(kind),
        Err(Fault::Host(host)) => ask_host(store, task, host, input, out),
        Err(Fault::Memory) => Stepped::Memory,
    }
}

/// One step of a task that has not ended: it carries out one instruction, or a call of the host, and exits the blocks and
/// calls that are then at their ends.
///
/// A well-typed task of a well-typed store is never stuck, and stays well typed; handles that fit go on fitting, those of
/// other tasks too; and each handle that the colour monitor knows it goes on knowing, after the step's event (`sound`). A
/// trap changes nothing. The step is that for what the take from the input gave, if it takes.
///
/// `ReadFault` comes only where the input's count of faults rose, `WriteFault` only where that of the output did. After
/// them, and after `Memory`, the store is as before and the task is not to be run again; the output then has the byte of this
/// step at most, and the input is as before.
#[inline(always)]
pub fn step<M: SegmentMemory, I: Source, O: Sink>(
    store: &mut Store<M>,
    task: &mut Task,
    input: &mut I,
    out: &mut O,
) -> Stepped
    requires store { StoreTyped (outline_of store.old) }
    requires task { TaskTyped (outline_of store.old) (thread_of store.old.funcs task.old) }
    requires going { (thread_of store.old.funcs task.old).work ≢ [] }
    requires few { store.old.segments.made < 2 ^ 63 }
    requires store_fits { StoreFits store.old }
    requires task_fits { ThreadFits store.old (thread_of store.old.funcs task.old) }
    ensures never_stuck { (got : Option ℕ) → move_for store.old (thread_of store.old.funcs task.old) got ≢ moves.Stuck }
    ensures step { DoesStep result (move_for store.old (thread_of store.old.funcs task.old)) store.old (thread_of store.old.funcs task.old) store.new (thread_of store.new.funcs task.new) (I.left input.old) (I.left input.new) (O.held out.old) (O.held out.new) }
    ensures input_faults { CountsInput result (I.faults input.old) (I.faults input.new) }
    ensures out_faults { CountsOut result (O.faults out.old) (O.faults out.new) }
    ensures outline { IsWell result → outline_of store.new ≡ outline_of store.old }
    ensures task { IsWell result → TaskTyped (outline_of store.new) (thread_of store.new.funcs task.new) }
    ensures store_fits { IsWell result → StoreFits store.new }
    ensures task_fits { IsWell result → ThreadFits store.new (thread_of store.new.funcs task.new) }
    ensures others { IsWell result → (h : Handle) → IsFit store.old.segments h → IsFit store.new.segments h }
    ensures sound { IsWell result → (events : List Event) (threads : List Thread) → Sound events store.old (thread_of store.old.funcs task.old ∷ threads) → Sound (events ++ with_event (event_of result) []) store.new (thread_of store.new.funcs task.new ∷ threads) × (length store.new.segments.bytes ≡ length store.old.segments.bytes) }
    ensures made { IsWell result → store.new.segments.made ≤ store.old.segments.made + 1 }
    ensures accesses { IsWell result → store.new.segments.accesses ≡ counted_all (with_event (event_of result) []) store.old.segments.accesses }
{
    advance(store, task, input, out)
}
