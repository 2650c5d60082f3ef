//! Control instructions on the store (WebAssembly 1.0, 4.4.5).

ghost use Rattle.std.specs.Prelude.{◌≡◌, ◌≢◌, ◌<◌, Some, length, slice_get};
ghost use Rattle.ms_machine.specs.refinement.Doing.{Can, DoesInstr, DoesOutcome, IsQuiet, TellsNone};
ghost use Rattle.ms_machine.specs.Step.{Stuck, asks, called, host_in, popped, table_trap};
ghost use Rattle.ms_machine.specs.Store.{Store as Spec};
ghost use Rattle.ms_module.specs.declared.instr.Instr.TheVariants as instr;
ghost use Rattle.ms_task.specs.refinement.View.{at_next, before, thread_of};

use crate::fault::Fault;
use crate::lookup::{func_address, func_type, table};
use crate::store::Store;
use ms_event::Event;
use ms_host::{Host, TrapKind};
use ms_linear::{CallTrap, Value, target};
use ms_segment::SegmentMemory;
use ms_task::{CallFault, Task};
use ms_types::ValType;

/// `block`.
#[inline(always)]
pub(crate) fn block<M: SegmentMemory>(
    store: &Store<M>,
    task: &mut Task,
    ty: Option<ValType>,
    body: u32,
    next: usize,
) -> Result<Option<Event>, Fault>
    ensures does { DoesInstr (instr.Block ty body) next store.now task.old store.now task.new result }
    ensures quiet { IsQuiet task.old task.new result }
{
    let _ = store;
    match task.block(body, ty, next, false) {
        Ok(()) => Ok(None),
        Err(_) => Err(Fault::Memory),
    }
}

/// `loop`, which stands before `next`.
#[inline(always)]
pub(crate) fn begin_loop<M: SegmentMemory>(
    store: &Store<M>,
    task: &mut Task,
    ty: Option<ValType>,
    body: u32,
    next: usize,
) -> Result<Option<Event>, Fault>
    requires { before store.now.funcs task.old next ≡ Some (instr.Loop ty body) }
    ensures does { DoesInstr (instr.Loop ty body) next store.now task.old store.now task.new result }
    ensures quiet { IsQuiet task.old task.new result }
{
    let _ = store;
    match task.block(body, None, next, true) {
        Ok(()) => Ok(None),
        Err(_) => Err(Fault::Memory),
    }
}

/// `if`.
#[inline(always)]
pub(crate) fn if_else<M: SegmentMemory>(
    store: &Store<M>,
    task: &mut Task,
    ty: Option<ValType>,
    then_: u32,
    other: Option<u32>,
    next: usize,
) -> Result<Option<Event>, Fault>
    requires { Can (instr.If ty then_ other) next store.now task.old }
    ensures does { DoesInstr (instr.If ty then_ other) next store.now task.old store.now task.new result }
    ensures tells { TellsNone result }
{
    match task.if_else(&store.funcs, then_, other, ty, next) {
        Ok(()) => Ok(None),
        Err(_) => Err(Fault::Memory),
    }
}

/// `br`.
#[tactic(auto, using(crate::proofs::Branches::br_can, crate::proofs::Branches::br_does))]
#[inline(always)]
pub(crate) fn br<M: SegmentMemory>(
    store: &Store<M>,
    task: &mut Task,
    label: u32,
    next: usize,
) -> Result<Option<Event>, Fault>
    requires { Can (instr.Br label) next store.now task.old }
    ensures does { DoesInstr (instr.Br label) next store.now task.old store.now task.new result }
    ensures quiet { IsQuiet task.old task.new result }
{
    let _ = next;
    task.branch(&store.funcs, label as usize);
    Ok(None)
}

/// `br_if`.
#[inline(always)]
pub(crate) fn br_if<M: SegmentMemory>(
    store: &Store<M>,
    task: &mut Task,
    label: u32,
    next: usize,
) -> Result<Option<Event>, Fault>
    requires { Can (instr.BrIf label) next store.now task.old }
    ensures does { DoesInstr (instr.BrIf label) next store.now task.old store.now task.new result }
    ensures quiet { IsQuiet task.old task.new result }
{
    task.branch_if(&store.funcs, label, next);
    Ok(None)
}

/// `return`.
#[tactic(auto, using(crate::proofs::Branches::return_can, crate::proofs::Branches::return_does))]
#[inline(always)]
pub(crate) fn return_<M: SegmentMemory>(
    store: &Store<M>,
    task: &mut Task,
    next: usize,
) -> Result<Option<Event>, Fault>
    requires { Can instr.Return next store.now task.old }
    ensures does { DoesInstr instr.Return next store.now task.old store.now task.new result }
    ensures quiet { IsQuiet task.old task.new result }
{
    let _ = next;
    task.return_from(&store.funcs);
    Ok(None)
}

/// A call of the host's function: it goes on behind the call, or stops.
fn ask(task: &mut Task, host: Host, next: usize) -> Result<Option<Event>, Fault>
    ensures { (store : Spec) → DoesOutcome (asks host (at_next store.funcs task.old next)) store (thread_of store.funcs task.old) store (thread_of store.funcs task.new) result }
{
    match host {
        Host::Abort => Err(Fault::Trap(TrapKind::Abort)),
        _ => {
            task.go_to(next);
            Err(Fault::Host(host))
        }
    }
}

/// The same, where the index into the table is topmost.
fn ask_by_table(task: &mut Task, host: Host, next: usize) -> Result<Option<Event>, Fault>
    requires { 0 < length task.old.operands }
    ensures { (store : Spec) → DoesOutcome (asks host (popped (at_next store.funcs task.old next))) store (thread_of store.funcs task.old) store (thread_of store.funcs task.new) result }
{
    match host {
        Host::Abort => Err(Fault::Trap(TrapKind::Abort)),
        _ => {
            task.operands.cut(1);
            task.go_to(next);
            Err(Fault::Host(host))
        }
    }
}

/// `call`.
pub(crate) fn call<M: SegmentMemory>(
    store: &Store<M>,
    task: &mut Task,
    x: u32,
    next: usize,
) -> Result<Option<Event>, Fault>
    requires { Can (instr.Call x) next store.now task.old }
    ensures { DoesInstr (instr.Call x) next store.now task.old store.now task.new result }
{
    let address = func_address(store, task, x);
    if let Some(host) = store.host(address) {
        return ask(task, host, next);
    }
    match task.call(&store.funcs, address, next) {
        Ok(()) => Ok(None),
        Err(CallFault::TooDeep) => Err(Fault::Trap(TrapKind::Depth)),
        Err(CallFault::Memory) => Err(Fault::Memory),
    }
}

/// A call of the function of an address, where the index into the table is topmost.
fn call_at<M: SegmentMemory>(
    store: &Store<M>,
    task: &mut Task,
    address: u32,
    next: usize,
) -> Result<Option<Event>, Fault>
    requires index { 0 < length task.old.operands }
    requires can { called store.now address (popped (at_next store.now.funcs task.old next)) (host_in (slice_get store.now.funcs address)) ≢ Stuck }
    ensures { DoesOutcome (called store.now address (popped (at_next store.now.funcs task.old next)) (host_in (slice_get store.now.funcs address))) store.now (thread_of store.now.funcs task.old) store.now (thread_of store.now.funcs task.new) result }
{
    if let Some(host) = store.host(address) {
        return ask_by_table(task, host, next);
    }
    if !task.may_call() {
        return Err(Fault::Trap(TrapKind::Depth));
    }
    task.operands.cut(1);
    match task.call(&store.funcs, address, next) {
        Ok(()) => Ok(None),
        Err(_) => Err(Fault::Memory),
    }
}

/// `call_indirect`. The table, the element and the type are looked at before the depth.
pub(crate) fn call_indirect<M: SegmentMemory>(
    store: &Store<M>,
    task: &mut Task,
    x: u32,
    next: usize,
) -> Result<Option<Event>, Fault>
    requires { Can (instr.CallIndirect x) next store.now task.old }
    ensures { DoesInstr (instr.CallIndirect x) next store.now task.old store.now task.new result }
{
    let table = table(store, task);
    let ty = func_type(store, task, x);
    let Value::I32(i) = task.operands.get(0) else {
        unreachable!()
    };
    match target(table, i, ty) {
        Ok(func) => { call_at(store, task, func.address, next) }
        Err(trap) => Err(Fault::Trap(of_target(trap))),
    }
}

/// The trap of a call that goes nowhere.
fn of_target(trap: CallTrap) -> TrapKind
    ensures { result ≡ table_trap trap }
{
    match trap {
        CallTrap::Outside => TrapKind::Table,
        CallTrap::Empty => TrapKind::Element,
        CallTrap::Signature => TrapKind::Signature,
    }
}
