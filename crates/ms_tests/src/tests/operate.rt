//! That the instructions which take memory succeed with ample memory. What each makes of its operands is proved.

ghost use Rattle.std.specs.Prelude.{◌≢◌, List, ◌∷◌, IsTrue};
ghost use Rattle.ms_linear.specs.declared.value.Value.{Value};
ghost use Rattle.ms_linear.specs.Memory.{Memory};
ghost use Rattle.ms_operate.specs.Memories.{linear_on};
ghost use Rattle.ms_operate.specs.Effects.{Stuck};

use ms_linear::{Linear as LinearMemory, Operands, Room, Value};
use ms_module::Linear;
use ms_operate::linear;
use ms_types::Limits;
use std::alloc::{AllocError, Global};
use std::process::Abort;
use std::test::Fail;

/// Whether the instruction takes this as its topmost operand.
fn takes(i: Linear, top: Value) -> bool
    ensures { (m : Memory) → (rest : List Value) → IsTrue result → linear_on i m (top ∷ rest) ≢ Stuck }
{
    match (i, top) {
        (Linear::Size, _) => true,
        (Linear::Grow, Value::I32(_)) => true,
        _ => false,
    }
}

/// Carries out the instruction on one operand, and gives the topmost one then.
fn carry_out(
    rt: &impl Abort,
    alloc: Global,
    memory: &mut LinearMemory,
    i: Linear,
    top: Value,
) -> Result<Option<Value>, AllocError> {
    let mut operands = Operands::new(alloc, Room::new(alloc)?);
    operands.push(top)?;
    assert!(rt; takes(i, top));
    assert!(rt; linear(i, memory, &mut operands) == Ok(()));
    Ok(operands.last())
}

#[test]
fn grows(rt: HostRuntime) -> Result<(), Fail> {
    let mut memory = LinearMemory::new(rt.alloc(), Limits { min: 1, max: None })?;
    let rows = [
        (Linear::Size, 1),
        (Linear::Grow, 1),
        (Linear::Size, 3),
        (Linear::Grow, 3),
    ];
    for (i, want) in rows {
        assert!(rt;
            carry_out(&rt, rt.alloc(), &mut memory, i, Value::I32(2))? == Some(Value::I32(want))
        );
    }
    Ok(())
}
