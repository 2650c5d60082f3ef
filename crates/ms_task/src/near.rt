//! Locals near the beginning of a frame: its arguments, and the first ones that it declares.

ghost use Rattle.std.specs.Prelude.{◌≡◌, ◌+◌, ◌≤◌, ◌++◌, length, map, min, replicate, reverse, take, vec_len, vec_capacity};
ghost use Rattle.ms_linear.specs.Values.{default_of};
ghost use Rattle.ms_task.specs.refinement.Far.{near};

use crate::far::NEAR;
use crate::locals::SharedLocals;
use ms_linear::{Cell, Operands, Value};

/// Adds the locals of a frame that are near, for which there is room: arguments, of which the last is the topmost operand, and
/// the first declared ones.
#[inline(always)]
pub(crate) fn fill(items: &mut Vec<Cell>, operands: &Operands, n: usize, types: &SharedLocals)
    requires within { n ≤ length operands.now }
    requires room { vec_len items.old + (n + min (length types.now) near) ≤ vec_capacity items.old }
    ensures { items.new.items ≡ (items.old.items ++ reverse (take n operands.now)) ++ map default_of (take near types.now) }
{
    push_arguments(items, operands, n);
    push_declared(items, types);
}

/// Adds arguments.
#[inline(always)]
fn push_arguments(items: &mut Vec<Cell>, operands: &Operands, n: usize)
    requires within { n ≤ length operands.now }
    requires room { vec_len items.old + n ≤ vec_capacity items.old }
    ensures items { items.new.items ≡ items.old.items ++ reverse (take n operands.now) }
    ensures len { vec_len items.new ≡ vec_len items.old + n }
    ensures capacity { vec_capacity items.new ≡ vec_capacity items.old }
{
    for i in 0..n {
        items.push_reserved(operands.cell(n - 1 - i));
    }
}

/// Adds the first declared locals, a run of one type at a time.
#[inline(always)]
fn push_declared(items: &mut Vec<Cell>, types: &SharedLocals)
    requires { vec_len items.old + min (length types.now) near ≤ vec_capacity items.old }
    ensures { items.new.items ≡ items.old.items ++ map default_of (take near types.now) }
{
    let mut from = 0;
    for run in types.runs() {
        if from >= NEAR {
            return;
        }
        let n = run.end.min(NEAR) - from;
        push_run(items, Cell::of(Value::default_of(run.ty)), n);
        from = run.end;
    }
}

/// Adds the same value so many times.
#[inline(always)]
fn push_run(items: &mut Vec<Cell>, v: Cell, n: u32)
    requires { vec_len items.old + n ≤ vec_capacity items.old }
    ensures items { items.new.items ≡ items.old.items ++ replicate n v }
    ensures len { vec_len items.new ≡ vec_len items.old + n }
    ensures capacity { vec_capacity items.new ≡ vec_capacity items.old }
{
    for _ in 0..n {
        items.push_reserved(v);
    }
}
