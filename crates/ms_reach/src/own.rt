//! The values of a task and of instances, from which handles are followed.

ghost use Rattle.std.specs.Prelude.{◌≡◌, ◌≤◌, ◌^◌, ◌-◌, ◌++◌, OnOk, drop, flat_map, length, slice_get, take};
ghost use Rattle.ms_machine.specs.refinement.Holding.{Each, EachGlobal};
ghost use Rattle.ms_reach.specs.Count.{is_among};
ghost use Rattle.ms_reach.specs.Reach.{is_in};
ghost use Rattle.ms_reach.specs.refinement.Closing.{Gathers};
ghost use Rattle.ms_reach.specs.refinement.Leading.{EndBelow, IsRising, IsValueInside};
ghost use Rattle.ms_reach.specs.refinement.OwnValues.{floor_in, lent_values, lowest, task_values, value_at, values_of};

use crate::closing::Closing;
use ms_linear::{GlobalInst, Operands};
use ms_live::Live;
use ms_machine::{Store, has_ended};
use ms_segment::SegmentMemory;
use ms_task::{Frames, FuncInst, Mark, Marks, Task};
use std::alloc::AllocError;

/// What lies below the last call of a task whose caller isn't of the set.
#[derive(Clone, Copy)]
struct Cut {
    /// How many operands.
    operands: usize,
    /// How many locals, counted over all frames.
    locals: usize,
}

/// What lies below it, where so many locals lie below the current frame.
fn cut_of(funcs: &[FuncInst], marks: &Marks, set: &[u32], base: usize) -> Cut
    ensures operands { result.operands ≡ floor_in (is_among set.now) funcs.now marks.now }
    ensures locals { result.locals ≡ lowest (is_among set.now) funcs.now base marks.now }
{
    let mut low = base;
    for n in 0..marks.len() {
        let Mark::Activation {
            height,
            function,
            base,
            ..
        } = marks.get(n)
        else {
            continue;
        };
        if !is_inside(funcs, function, set) {
            return Cut {
                operands: height,
                locals: low,
            };
        }
        low = base.min(low);
    }
    Cut {
        operands: 0,
        locals: low,
    }
}

/// Whether the function of an address is of an instance of the set.
fn is_inside(funcs: &[FuncInst], function: usize, set: &[u32]) -> bool
    ensures { result ≡ is_in (is_among set.now) (slice_get funcs.now function) }
{
    match funcs.get(function) {
        Some(func) => set.contains(&func.instance),
        None => false,
    }
}

/// What the locals of all frames lead to, from this number on, is to be looked at.
fn add_locals(
    closing: &mut Closing,
    live: &[Live],
    frames: &Frames,
    at: usize,
) -> Result<(), AllocError>
    requires rising { IsRising live.now }
    requires end { EndBelow live.now (2 ^ 32 - 1) }
    requires inside { Each (IsValueInside live.now) (drop at (frames.now.0 ++ frames.now.1)) }
    ensures { OnOk result (Gathers live.now (drop at (frames.now.0 ++ frames.now.1)) closing.old closing.new) }
{
    for i in 0..frames.total().saturating_sub(at) {
        closing.add_value(live, frames.local(at + i).value())?;
    }
    Ok(())
}

/// What the topmost operands lead to, so many of them, is to be looked at.
fn add_operands(
    closing: &mut Closing,
    live: &[Live],
    operands: &Operands,
    n: usize,
) -> Result<(), AllocError>
    requires rising { IsRising live.now }
    requires end { EndBelow live.now (2 ^ 32 - 1) }
    requires inside { Each (IsValueInside live.now) (take n operands.now) }
    requires within { n ≤ length operands.now }
    ensures { OnOk result (Gathers live.now (take n operands.now) closing.old closing.new) }
{
    for i in 0..n {
        closing.add_value(live, operands.get(i))?;
    }
    Ok(())
}

/// What the values of a task lead to, those above the last call whose caller isn't of the set, is to be looked at.
fn add_task(
    closing: &mut Closing,
    live: &[Live],
    funcs: &[FuncInst],
    task: &Task,
    set: &[u32],
) -> Result<(), AllocError>
    requires rising { IsRising live.now }
    requires end { EndBelow live.now (2 ^ 32 - 1) }
    requires inside { Each (IsValueInside live.now) (task_values (is_among set.now) funcs.now task.now) }
    ensures { OnOk result (Gathers live.now (task_values (is_among set.now) funcs.now task.now) closing.old closing.new) }
{
    let cut = cut_of(funcs, task.marks(), set, task.frames.base());
    let n = task.operands.len().saturating_sub(cut.operands);
    add_operands(closing, live, &task.operands, n)?;
    add_locals(closing, live, &task.frames, cut.locals)
}

/// What the values of a task lead to is to be looked at, unless it has ended: then it has none.
pub fn add_own<M: SegmentMemory>(
    closing: &mut Closing,
    live: &[Live],
    store: &Store<M>,
    task: &Task,
    set: &[u32],
) -> Result<(), AllocError>
    requires rising { IsRising live.now }
    requires end { EndBelow live.now (2 ^ 32 - 1) }
    requires inside { Each (IsValueInside live.now) (task_values (is_among set.now) store.now.funcs task.now) }
    ensures { OnOk result (Gathers live.now (lent_values (is_among set.now) store.now.funcs task.now) closing.old closing.new) }
{
    if has_ended(store, task) {
        return Ok(());
    }
    add_task(closing, live, store.funcs(), task, set)
}

/// What the global of an address leads to is to be looked at, if there is one.
fn add_global(
    closing: &mut Closing,
    live: &[Live],
    globals: &[GlobalInst],
    address: u32,
) -> Result<(), AllocError>
    requires rising { IsRising live.now }
    requires end { EndBelow live.now (2 ^ 32 - 1) }
    requires inside { EachGlobal (IsValueInside live.now) globals.now }
    ensures { OnOk result (Gathers live.now (value_at globals.now address) closing.old closing.new) }
{
    match globals.get(address as usize) {
        Some(global) => closing.add_value(live, global.value.value()),
        None => Ok(()),
    }
}

/// What the globals of these addresses lead to is to be looked at.
fn add_globals(
    closing: &mut Closing,
    live: &[Live],
    globals: &[GlobalInst],
    addresses: &[u32],
) -> Result<(), AllocError>
    requires rising { IsRising live.now }
    requires end { EndBelow live.now (2 ^ 32 - 1) }
    requires inside { EachGlobal (IsValueInside live.now) globals.now }
    ensures { OnOk result (Gathers live.now (flat_map (value_at globals.now) addresses.now) closing.old closing.new) }
{
    for i in 0..addresses.len() {
        add_global(closing, live, globals, addresses[i])?;
    }
    Ok(())
}

/// What the globals of the instance of a number lead to is to be looked at, if there is one.
fn add_instance<M: SegmentMemory>(
    closing: &mut Closing,
    live: &[Live],
    store: &Store<M>,
    number: u32,
) -> Result<(), AllocError>
    requires rising { IsRising live.now }
    requires end { EndBelow live.now (2 ^ 32 - 1) }
    requires inside { EachGlobal (IsValueInside live.now) store.now.globals }
    ensures { OnOk result (Gathers live.now (values_of store.now number) closing.old closing.new) }
{
    match store.instances().get(number as usize) {
        Some(instance) => add_globals(closing, live, store.globals(), instance.globals.as_slice()),
        None => Ok(()),
    }
}

/// What the globals of the instances of the set lead to is to be looked at.
pub fn add_instances<M: SegmentMemory>(
    closing: &mut Closing,
    live: &[Live],
    store: &Store<M>,
    set: &[u32],
) -> Result<(), AllocError>
    requires rising { IsRising live.now }
    requires end { EndBelow live.now (2 ^ 32 - 1) }
    requires inside { EachGlobal (IsValueInside live.now) store.now.globals }
    ensures { OnOk result (Gathers live.now (flat_map (values_of store.now) set.now) closing.old closing.new) }
{
    for i in 0..set.len() {
        add_instance(closing, live, store, set[i])?;
    }
    Ok(())
}
