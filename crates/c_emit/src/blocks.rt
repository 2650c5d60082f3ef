//! The variables of a block (C11, 6.2.4): those that are objects are made where it begins, and end where it does.

ghost use Rattle.std.specs.Prelude.{◌≡◌, ◌++◌, ◌∷◌, [], List, None, get_or, length, reverse, IfOk, OnOk};
ghost use Rattle.ms_module.specs.declared.access.Segment.TheVariants.{Add, Store};
ghost use Rattle.ms_module.specs.declared.access.StoreOp.TheVariants.{I32Store8};
ghost use Rattle.ms_module.specs.declared.instr.Instr.TheVariants.{LocalGet, LocalSet, Segment as SegmentOf, Unreachable};
ghost use Rattle.ms_emit.specs.Codes.{◌⨾◌, block, choice, no_code, one, plain};
ghost use Rattle.ms_emit.specs.refinement.Parts.{Adds};
ghost use Rattle.c_types.specs.Types.{scalar_of, type_of, void};
ghost use Rattle.c_typed.specs.declared.ops.Variable.{Variable};
ghost use Rattle.c_typed.specs.declared.ops.Variable.TheVariants.{Local};
ghost use Rattle.c_code.specs.Operations.{i32, i64, new_frame};
ghost use Rattle.c_code.specs.Statements as words;
ghost use Rattle.c_code.specs.Targets.{Target as Site, scratch_handle};

use crate::accesses::tee;
use crate::adding::{add, add_three, add_two, begin, end};
use crate::body::Body;
use crate::exits::free_last;
use crate::operations::{i32_of, i64_of, zero_of};
use crate::target::Target;
use c_typed::Variable;
use c_types::CType;
use ms_handle::Kind;
use ms_module::{Instr, Opening, Segment, StoreOp};
use std::alloc::AllocError;

/// Begins the variables of a block, and says how many of them are objects, which go behind `objects`, the first one last.
pub fn enter(
    body: &mut Body,
    t: &Target,
    objects: &mut Vec<Variable>,
    slots: &[u32],
) -> Result<u32, AllocError>
    ensures code { OnOk result (Adds body.old body.new (words.enters t.now.target t.now.slots slots.now)) }
    ensures objects { OnOk result (objects.new.items ≡ objects.old.items ++ reverse (words.objects_in t.now.target t.now.slots slots.now)) }
    ensures count { IfOk result (λ n. n ≡ length (words.objects_in t.now.target t.now.slots slots.now)) }
{
    enter_slots(body, t, slots)?;
    let before = objects.len();
    push_objects(t, objects, slots)?;
    u32::try_from(objects.len() - before).map_err(|_| AllocError)
}

/// The objects among the slots of a block go behind `objects`, the first one last.
fn push_objects(t: &Target, objects: &mut Vec<Variable>, slots: &[u32]) -> Result<(), AllocError>
    ensures { OnOk result (objects.new.items ≡ objects.old.items ++ reverse (words.objects_in t.now.target t.now.slots slots.now)) }
{
    for slot in slots.iter().rev() {
        push_object(t, objects, *slot)?;
    }
    Ok(())
}

/// The variable of a slot, if it is an object.
fn push_object(t: &Target, objects: &mut Vec<Variable>, slot: u32) -> Result<(), AllocError>
    ensures { OnOk result (objects.new.items ≡ objects.old.items ++ words.objects_in t.now.target t.now.slots (slot ∷ [])) }
{
    let v = Variable::Local(slot);
    if t.is_object(v)? {
        objects.push(v)?;
    }
    Ok(())
}

/// Begins the variables of a block.
fn enter_slots(body: &mut Body, t: &Target, slots: &[u32]) -> Result<(), AllocError>
    ensures { OnOk result (Adds body.old body.new (words.enters t.now.target t.now.slots slots.now)) }
{
    for slot in slots {
        enter_slot(body, t, *slot)?;
    }
    Ok(())
}

/// Begins a variable: as a new object, or with 0.
fn enter_slot(body: &mut Body, t: &Target, slot: u32) -> Result<(), AllocError>
    ensures { OnOk result (Adds body.old body.new (words.entered t.now.target (t.now.target.is_object (Local slot)) (Local slot) (get_or t.now.slots slot void))) }
{
    let v = Variable::Local(slot);
    let ty = t.slot_type(slot)?;
    if t.is_object(v)? {
        return make(body, t, v, t.size(ty)?);
    }
    zero(body, t, v, ty)
}

/// A variable that is no object, and has a scalar's type, begins with 0.
#[tactic(auto, using(crate::proofs::Steps::nothing_added, crate::proofs::Items::zero_is_plain))]
fn zero(body: &mut Body, t: &Target, v: Variable, ty: &CType) -> Result<(), AllocError>
    ensures { OnOk result (Adds body.old body.new (words.zeroed t.now.target v (scalar_of (type_of ty.now)))) }
{
    match ty.scalar() {
        Some(scalar) => add_two(body, zero_of(scalar), t.set(v)?),
        None => Ok(()),
    }
}

/// An object of so many bytes; one that is refused ends the program.
#[tactic(auto, using(crate::proofs::Steps::then))]
pub fn make(body: &mut Body, t: &Target, v: Variable, size: u32) -> Result<(), AllocError>
    ensures { OnOk result (Adds body.old body.new (words.made t.now.target v size)) }
{
    new_frame(body, size)?;
    tee(body, t, v)?;
    add(body, Instr::Segment(Segment::IsNull))?;
    stop_if(body)
}

/// An object of so many bytes.
fn new_frame(body: &mut Body, size: u32) -> Result<(), AllocError>
    ensures { OnOk result (Adds body.old body.new (new_frame size)) }
{
    add_two(
        body,
        i32_of(size),
        Instr::Segment(Segment::New(Kind::Frame)),
    )
}

/// Ends the program where a condition holds.
#[tactic(auto, using(crate::proofs::Steps::may_end, crate::proofs::Steps::then_only))]
fn stop_if(body: &mut Body) -> Result<(), AllocError>
    ensures { OnOk result (Adds body.old body.new (choice None (one Unreachable) no_code)) }
{
    begin(body, Opening::If, None)?;
    add(body, Instr::Unreachable)?;
    end(body)
}

/// Frees the last objects, so many, and takes them off.
pub fn leave(
    body: &mut Body,
    t: &Target,
    objects: &mut Vec<Variable>,
    count: u32,
) -> Result<(), AllocError>
    ensures code { (vs ws : List Variable) → objects.old.items ≡ ws ++ reverse vs → count ≡ length vs → OnOk result (Adds body.old body.new (words.freed t.now.target vs)) }
    ensures objects { (vs ws : List Variable) → objects.old.items ≡ ws ++ reverse vs → count ≡ length vs → OnOk result (objects.new.items ≡ ws) }
{
    free_last(body, t, objects, count as usize)?;
    objects.truncate(objects.len().saturating_sub(count as usize));
    Ok(())
}

/// A string's bytes into the array of the handle on the stack.
#[tactic(auto, using(crate::proofs::Steps::then))]
pub fn put_bytes(body: &mut Body, t: &Target, bytes: &[u8]) -> Result<(), AllocError>
    ensures { OnOk result (Adds body.old body.new (one (LocalSet (scratch_handle t.now.target)) ⨾ words.bytes_put t.now.target 0 bytes.now)) }
{
    let handle = t.scratch_handle()?;
    add(body, Instr::LocalSet(handle))?;
    put_each(body, handle, bytes)
}

/// A string's bytes into the array of a handle in a local.
fn put_each(body: &mut Body, handle: u32, bytes: &[u8]) -> Result<(), AllocError>
    ensures { (site : Site) → handle ≡ scratch_handle site → OnOk result (Adds body.old body.new (words.bytes_put site 0 bytes.now)) }
{
    let mut i = 0u64;
    for byte in bytes {
        put_byte(body, handle, i, *byte)?;
        i += 1;
    }
    Ok(())
}

/// The i-th byte.
#[tactic(auto, using(crate::proofs::Steps::then_plain))]
fn put_byte(body: &mut Body, handle: u32, i: u64, byte: u8) -> Result<(), AllocError>
    ensures { OnOk result (Adds body.old body.new (plain (LocalGet handle ∷ i64 i ∷ SegmentOf (Add 1) ∷ i32 byte ∷ SegmentOf (Store I32Store8) ∷ []))) }
{
    add(body, Instr::LocalGet(handle))?;
    add(body, i64_of(i))?;
    add_three(
        body,
        Instr::Segment(Segment::Add(1)),
        i32_of(u32::from(byte)),
        Instr::Segment(Segment::Store(StoreOp::I32Store8)),
    )
}
