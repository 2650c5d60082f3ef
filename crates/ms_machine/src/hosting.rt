//! Calls of the host.

ghost use Rattle.std.specs.Prelude.{◌≡◌, ◌≢◌, ℕ, false, true, List, [], Option, None, slice_get};
ghost use Rattle.ms_host.specs.declared.host.Host.TheVariants as hosts;
ghost use Rattle.ms_machine.specs.refinement.Doing.{IsAsking};
ghost use Rattle.ms_machine.specs.Hosting as effects;
ghost use Rattle.ms_machine.specs.Hosting.{host_on, takes};
ghost use Rattle.ms_machine.specs.Moves.{hosted};
ghost use Rattle.ms_machine.specs.refinement.Stepped.{CountsInput, CountsOut, DoesExit, DoesStep};
ghost use Rattle.ms_task.specs.refinement.View.{thread_of};

use crate::stepped::Stepped;
use crate::store::Store;
use ms_host::{Host, PutFault, getchar, putchar};
use ms_linear::Value;
use ms_outside::{Sink, Source};
use ms_segment::SegmentMemory;
use ms_task::Task;

/// What the host was asked for, with its arguments on the operands: a byte that is put, or one that is taken.
pub(crate) fn ask_host<M: SegmentMemory, I: Source, O: Sink>(
    store: &Store<M>,
    task: &mut Task,
    host: Host,
    input: &mut I,
    out: &mut O,
) -> Stepped
    requires asking { IsAsking host }
    requires can { host_on host None task.old.operands ≢ effects.Stuck }
    ensures step { DoesStep result (λ got. hosted store.now (thread_of store.now.funcs task.old) (takes host) (host_on host got task.old.operands)) store.now (thread_of store.now.funcs task.old) store.now (thread_of store.now.funcs task.new) (I.left input.old) (I.left input.new) (O.held out.old) (O.held out.new) }
    ensures input_faults { CountsInput result (I.faults input.old) (I.faults input.new) }
    ensures out_faults { CountsOut result (O.faults out.old) (O.faults out.new) }
{
    match host {
        Host::Putchar => put_byte(store, task, out),
        Host::Getchar => take_byte(store, task, input),
        Host::Abort => unreachable!(),
    }
}

/// `putchar`, whose argument is topmost.
fn put_byte<M: SegmentMemory, O: Sink>(store: &Store<M>, task: &mut Task, out: &mut O) -> Stepped
    requires can { host_on hosts.Putchar None task.old.operands ≢ effects.Stuck }
    ensures step { (left : Option (List ℕ)) → DoesStep result (λ got. hosted store.now (thread_of store.now.funcs task.old) false (host_on hosts.Putchar got task.old.operands)) store.now (thread_of store.now.funcs task.old) store.now (thread_of store.now.funcs task.new) left left (O.held out.old) (O.held out.new) }
    ensures counts { (result ≢ Stepped.ReadFault) × CountsOut result (O.faults out.old) (O.faults out.new) }
{
    let Value::I32(n) = task.operands.get(0) else {
        unreachable!()
    };
    match putchar(out, n) {
        Ok(byte) => task.operands.set_top(Value::I32(byte)),
        Err(PutFault::Failed) => return Stepped::WriteFault,
        Err(PutFault::Memory) => return Stepped::Memory,
    }
    exit(store, task)
}

/// `getchar`. There is room for what it gives before the take, so that want of memory takes nothing.
fn take_byte<M: SegmentMemory, I: Source>(
    store: &Store<M>,
    task: &mut Task,
    input: &mut I,
) -> Stepped
    ensures step { (held : Option (List ℕ)) → DoesStep result (λ got. hosted store.now (thread_of store.now.funcs task.old) true (host_on hosts.Getchar got task.old.operands)) store.now (thread_of store.now.funcs task.old) store.now (thread_of store.now.funcs task.new) (I.left input.old) (I.left input.new) held held }
    ensures counts { (result ≢ Stepped.WriteFault) × CountsInput result (I.faults input.old) (I.faults input.new) }
{
    let Ok(()) = task.operands.push(Value::I32(0)) else {
        return Stepped::Memory;
    };
    let Ok(number) = getchar(input) else {
        return Stepped::ReadFault;
    };
    task.operands.set_top(Value::I32(number));
    exit(store, task)
}

/// Exits the blocks and calls that are at their ends.
fn exit<M: SegmentMemory>(store: &Store<M>, task: &mut Task) -> Stepped
    ensures { DoesExit result (thread_of store.now.funcs task.old) (thread_of store.now.funcs task.new) }
{
    if task.exit_ended(&store.funcs) {
        return Stepped::Ended(task.operands.last(), None);
    }
    Stepped::On(None)
}
