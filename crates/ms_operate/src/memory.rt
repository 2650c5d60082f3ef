//! Carrying out instructions on the linear memory.

ghost use Rattle.std.specs.Prelude.{◌≡◌, ◌≢◌};
ghost use Rattle.ms_module.specs.declared.access.Linear.TheVariants.{Load, Store, Size, Grow};
ghost use Rattle.ms_operate.specs.Memories.{linear_on};
ghost use Rattle.ms_operate.specs.Effects.{DoesInMemory, Stuck};

use crate::access::{number, number_for, value_of};
use crate::trap::{Fault, Trap};
use ms_linear::{Linear as LinearMemory, Operands, Value};
use ms_module::{Linear, LoadOp, MemArg, StoreOp, Width};

/// Carries out an instruction on the linear memory. Where it stops the program, or memory runs out, nothing has changed.
#[inline(always)]
pub fn linear(i: Linear, memory: &mut LinearMemory, operands: &mut Operands) -> Result<(), Fault>
    requires { linear_on i memory.old operands.old ≢ Stuck }
    ensures { DoesInMemory (linear_on i memory.old operands.old) operands.old operands.new memory.old memory.new result }
{
    match i {
        Linear::Load(op, arg) => load(op, arg, memory, operands),
        Linear::Store(op, arg) => store(op, arg, memory, operands),
        Linear::Size => size(memory, operands),
        Linear::Grow => grow(memory, operands),
    }
}

/// A load from the address that is the topmost operand.
///
/// The operations are told apart here, so that each is a constant in what is done with it.
#[inline(always)]
fn load(
    op: LoadOp,
    arg: MemArg,
    memory: &LinearMemory,
    operands: &mut Operands,
) -> Result<(), Fault>
    requires { linear_on (Load op arg) memory.now operands.old ≢ Stuck }
    ensures { DoesInMemory (linear_on (Load op arg) memory.now operands.old) operands.old operands.new memory.now memory.now result }
{
    match op {
        LoadOp::I32Load => load_by(LoadOp::I32Load, arg, memory, operands),
        LoadOp::I64Load => load_by(LoadOp::I64Load, arg, memory, operands),
        LoadOp::I32Load8S => load_by(LoadOp::I32Load8S, arg, memory, operands),
        LoadOp::I32Load8U => load_by(LoadOp::I32Load8U, arg, memory, operands),
        LoadOp::I32Load16S => load_by(LoadOp::I32Load16S, arg, memory, operands),
        LoadOp::I32Load16U => load_by(LoadOp::I32Load16U, arg, memory, operands),
        LoadOp::I64Load8S => load_by(LoadOp::I64Load8S, arg, memory, operands),
        LoadOp::I64Load8U => load_by(LoadOp::I64Load8U, arg, memory, operands),
        LoadOp::I64Load16S => load_by(LoadOp::I64Load16S, arg, memory, operands),
        LoadOp::I64Load16U => load_by(LoadOp::I64Load16U, arg, memory, operands),
        LoadOp::I64Load32S => load_by(LoadOp::I64Load32S, arg, memory, operands),
        LoadOp::I64Load32U => load_by(LoadOp::I64Load32U, arg, memory, operands),
    }
}

/// The same, by one operation.
#[inline(always)]
fn load_by(
    op: LoadOp,
    arg: MemArg,
    memory: &LinearMemory,
    operands: &mut Operands,
) -> Result<(), Fault>
    requires { linear_on (Load op arg) memory.now operands.old ≢ Stuck }
    ensures { DoesInMemory (linear_on (Load op arg) memory.now operands.old) operands.old operands.new memory.now memory.now result }
{
    let base = number(Width::W32, operands.cell(0));
    match memory.load(base + u64::from(arg.offset), op.bytes()) {
        Ok(n) => {
            operands.set_top_cell(value_of(op, n));
            Ok(())
        }
        Err(_) => Err(Fault::Trap(Trap::Linear)),
    }
}

/// A store of the topmost operand to the address that is below it, with the operations told apart in the same way.
#[inline(always)]
fn store(
    op: StoreOp,
    arg: MemArg,
    memory: &mut LinearMemory,
    operands: &mut Operands,
) -> Result<(), Fault>
    requires { linear_on (Store op arg) memory.old operands.old ≢ Stuck }
    ensures { DoesInMemory (linear_on (Store op arg) memory.old operands.old) operands.old operands.new memory.old memory.new result }
{
    match op {
        StoreOp::I32Store => store_by(StoreOp::I32Store, arg, memory, operands),
        StoreOp::I64Store => store_by(StoreOp::I64Store, arg, memory, operands),
        StoreOp::I32Store8 => store_by(StoreOp::I32Store8, arg, memory, operands),
        StoreOp::I32Store16 => store_by(StoreOp::I32Store16, arg, memory, operands),
        StoreOp::I64Store8 => store_by(StoreOp::I64Store8, arg, memory, operands),
        StoreOp::I64Store16 => store_by(StoreOp::I64Store16, arg, memory, operands),
        StoreOp::I64Store32 => store_by(StoreOp::I64Store32, arg, memory, operands),
    }
}

/// The same, by one operation.
#[inline(always)]
fn store_by(
    op: StoreOp,
    arg: MemArg,
    memory: &mut LinearMemory,
    operands: &mut Operands,
) -> Result<(), Fault>
    requires { linear_on (Store op arg) memory.old operands.old ≢ Stuck }
    ensures { DoesInMemory (linear_on (Store op arg) memory.old operands.old) operands.old operands.new memory.old memory.new result }
{
    let value = number_for(op, operands.cell(0));
    let base = number(Width::W32, operands.cell(1));
    match memory.store(base + u64::from(arg.offset), op.bytes(), value) {
        Ok(()) => {
            operands.cut(2);
            Ok(())
        }
        Err(_) => Err(Fault::Trap(Trap::Linear)),
    }
}

/// `memory.size` on the operands.
fn size(memory: &LinearMemory, operands: &mut Operands) -> Result<(), Fault>
    ensures { DoesInMemory (linear_on Size memory.now operands.old) operands.old operands.new memory.now memory.now result }
{
    match operands.push(Value::I32(memory.len())) {
        Ok(()) => Ok(()),
        Err(_) => Err(Fault::Memory),
    }
}

/// `memory.grow` on the operands.
fn grow(memory: &mut LinearMemory, operands: &mut Operands) -> Result<(), Fault>
    requires { linear_on Grow memory.old operands.old ≢ Stuck }
    ensures { DoesInMemory (linear_on Grow memory.old operands.old) operands.old operands.new memory.old memory.new result }
{
    let Value::I32(n) = operands.get(0) else {
        unreachable!()
    };
    match memory.grow(n) {
        Ok(Some(before)) => {
            operands.set_top(Value::I32(before));
            Ok(())
        }
        Ok(None) => {
            operands.set_top(Value::I32(u32::MAX));
            Ok(())
        }
        Err(_) => Err(Fault::Memory),
    }
}
