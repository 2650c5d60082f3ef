//! Variables and handles, what is read and written through them (C11, 6.3.2.1, 6.5.16), and memory that is made (7.22.3).

ghost use Rattle.std.specs.Prelude.{◌+◌, [], ◌∷◌, None, Some, OnOk};
ghost use Rattle.c_types.specs.Layout.{size};
ghost use Rattle.c_types.specs.Types.{type_of};
ghost use Rattle.c_typed.specs.refinement.Views.{place_of};
ghost use Rattle.c_code.specs.Expressions as words;
ghost use Rattle.c_code.specs.Leaves.{leaves};
ghost use Rattle.c_code.specs.Operations as operations;
ghost use Rattle.c_code.specs.Targets as targets;
ghost use Rattle.ms_emit.specs.Codes.{Code, choice, no_code, one, plain, ◌⨾◌};
ghost use Rattle.ms_emit.specs.refinement.Parts.{Adds};
ghost use Rattle.ms_handle.specs.declared.handle.Kind.TheVariants as kinds;
ghost use Rattle.ms_module.specs.declared.access.Segment.TheVariants as segments;
ghost use Rattle.ms_module.specs.declared.instr.Instr.TheVariants as instrs;
ghost use Rattle.ms_module.specs.declared.numeric.BinOp.TheVariants as bins;
ghost use Rattle.ms_module.specs.declared.numeric.Numeric.TheVariants as numerics;
ghost use Rattle.ms_module.specs.declared.numeric.RelOp.TheVariants as rels;
ghost use Rattle.ms_module.specs.declared.numeric.Width.TheVariants as widths;
ghost use Rattle.ms_types.specs.declared.types.ValType.TheVariants as vals;

use crate::adding::{add, add_five, add_three, add_two, begin, end, turn};
use crate::body::Body;
use crate::leaves::copy_leaves;
use crate::operations::{eqz, i32_of, i64_of, load, op, rel, store};
use crate::target::Target;
use c_typed::{Place, Variable};
use c_types::{CType, Scalar};
use ms_handle::Kind;
use ms_module::{BinOp, Instr, Numeric, Opening, RelOp, Segment, Width};
use ms_types::ValType;
use std::alloc::AllocError;

// ---- variables, literals and handles

/// What a variable holds: its handle, if it is an object.
pub fn variable(body: &mut Body, t: &Target, v: Variable) -> Result<(), AllocError>
    ensures { OnOk result (Adds body.old body.new (one (targets.get t.now.target v))) }
{
    add(body, t.get(v)?)
}

pub fn variable_twice(body: &mut Body, t: &Target, v: Variable) -> Result<(), AllocError>
    ensures { OnOk result (Adds body.old body.new (plain (targets.get t.now.target v ∷ targets.get t.now.target v ∷ []))) }
{
    add_two(body, t.get(v)?, t.get(v)?)
}

/// A function's entry in the table.
pub fn function(body: &mut Body, t: &Target, n: u32) -> Result<(), AllocError>
    ensures { OnOk result (Adds body.old body.new (one (operations.i32 (t.now.target.entry n)))) }
{
    add(body, i32_of(t.entry(n)?))
}

/// The pointer to a literal: it is sealed here, since a pointer to it may be formed before its bytes are written.
pub fn literal(body: &mut Body, t: &Target, n: u32) -> Result<(), AllocError>
    ensures { OnOk result (Adds body.old body.new (plain (instrs.GlobalGet (t.now.target.globals + n) ∷ instrs.Segment segments.Seal ∷ []))) }
{
    add_two(
        body,
        Instr::GlobalGet(t.literal(n)?),
        Instr::Segment(Segment::Seal),
    )
}

/// Narrows a handle to so many bytes from so many on.
pub fn slice(body: &mut Body, from: u32, length: u32) -> Result<(), AllocError>
    ensures { OnOk result (Adds body.old body.new (operations.slice from length)) }
{
    add_three(
        body,
        i32_of(from),
        i32_of(length),
        Instr::Segment(Segment::Slice),
    )
}

/// The handle of so many bytes of a variable from so many on.
#[tactic(auto, using(crate::proofs::Steps::then))]
pub fn slice_of(
    body: &mut Body,
    t: &Target,
    v: Variable,
    from: u32,
    length: u32,
) -> Result<(), AllocError>
    ensures { OnOk result (Adds body.old body.new (one (targets.get t.now.target v) ⨾ operations.slice from length)) }
{
    variable(body, t, v)?;
    slice(body, from, length)
}

// ---- what a handle leads to is read

/// It is read.
#[tactic(auto, using(crate::proofs::Plain::load_plain))]
pub fn fetch(body: &mut Body, s: Scalar) -> Result<(), AllocError>
    ensures { OnOk result (Adds body.old body.new (one (operations.load s))) }
{
    add(body, load(s))
}

/// The handle stays below it.
#[tactic(auto, using(crate::proofs::Plain::load_plain))]
pub fn fetch_above(body: &mut Body, t: &Target, s: Scalar) -> Result<(), AllocError>
    ensures { OnOk result (Adds body.old body.new (plain (instrs.LocalTee (targets.scratch_place t.now.target) ∷ instrs.LocalGet (targets.scratch_place t.now.target) ∷ operations.load s ∷ []))) }
{
    let place = t.scratch_place()?;
    add_three(
        body,
        Instr::LocalTee(place),
        Instr::LocalGet(place),
        load(s),
    )
}

/// The handle stays between it and it.
#[tactic(auto, using(crate::proofs::Plain::load_plain))]
pub fn fetch_around(body: &mut Body, t: &Target, s: Scalar) -> Result<(), AllocError>
    ensures { OnOk result (Adds body.old body.new (plain (instrs.LocalTee (targets.scratch_place t.now.target) ∷ operations.load s ∷ instrs.LocalTee (targets.scratch_of t.now.target s) ∷ instrs.LocalGet (targets.scratch_place t.now.target) ∷ instrs.LocalGet (targets.scratch_of t.now.target s) ∷ []))) }
{
    let (place, value) = (t.scratch_place()?, t.scratch_of(s)?);
    add_five(
        body,
        Instr::LocalTee(place),
        load(s),
        Instr::LocalTee(value),
        Instr::LocalGet(place),
        Instr::LocalGet(value),
    )
}

// ---- the value on the stack is written (6.5.16, 6.5.2.4, 6.5.3.1)

/// It is set, and stays.
pub fn tee(body: &mut Body, t: &Target, v: Variable) -> Result<(), AllocError>
    ensures { OnOk result (Adds body.old body.new (targets.tee t.now.target v)) }
{
    match v {
        Variable::Local(_) => {
            let Instr::LocalSet(n) = t.set(v)? else {
                return Err(AllocError);
            };
            add(body, Instr::LocalTee(n))
        }
        Variable::Global(n) => add_two(body, Instr::GlobalSet(n), Instr::GlobalGet(n)),
    }
}

/// It is set, and gone.
fn set(body: &mut Body, t: &Target, v: Variable) -> Result<(), AllocError>
    ensures { OnOk result (Adds body.old body.new (one (targets.set t.now.target v))) }
{
    add(body, t.set(v)?)
}

/// It is stored, and stays.
#[tactic(auto, using(crate::proofs::Plain::store_plain))]
fn store_over(body: &mut Body, t: &Target, s: Scalar) -> Result<(), AllocError>
    ensures { OnOk result (Adds body.old body.new (words.written t.now.target None s)) }
{
    let x = t.scratch_of(s)?;
    add_three(body, Instr::LocalTee(x), store(s), Instr::LocalGet(x))
}

/// It is written to a place, whose handle stands below it if it isn't a plain variable, and stays.
fn write_over(body: &mut Body, t: &Target, p: &Place, s: Scalar) -> Result<(), AllocError>
    ensures { OnOk result (Adds body.old body.new (words.written t.now.target (targets.plain_in t.now.target (place_of p.now)) s)) }
{
    match t.plain_in(p)? {
        Some(v) => tee(body, t, v),
        None => store_over(body, t, s),
    }
}

/// It is written there, and gone.
#[tactic(auto, using(crate::proofs::Plain::store_plain))]
pub fn write(body: &mut Body, t: &Target, p: &Place, s: Scalar) -> Result<(), AllocError>
    ensures { OnOk result (Adds body.old body.new (words.put t.now.target (targets.plain_in t.now.target (place_of p.now)) s)) }
{
    match t.plain_in(p)? {
        Some(v) => set(body, t, v),
        None => add(body, store(s)),
    }
}

/// It is written there, and stays where it is kept.
pub fn write_kept(
    body: &mut Body,
    t: &Target,
    kept: bool,
    p: &Place,
    s: Scalar,
) -> Result<(), AllocError>
    ensures { OnOk result (Adds body.old body.new (words.ended t.now.target kept (targets.plain_in t.now.target (place_of p.now)) s)) }
{
    if kept {
        write_over(body, t, p, s)
    } else {
        write(body, t, p, s)
    }
}

/// A struct is copied from the second place on the stack to the first (6.5.16.1).
#[tactic(auto, using(crate::proofs::Steps::then))]
pub fn copy_struct(body: &mut Body, t: &Target, n: u32) -> Result<(), AllocError>
    ensures { OnOk result (Adds body.old body.new (plain (instrs.LocalSet (targets.scratch_handle t.now.target) ∷ instrs.LocalSet (targets.scratch_place t.now.target) ∷ []) ⨾ words.leaves_copied t.now.target (leaves t.now.target.structs n))) }
{
    let (from, to) = (t.scratch_handle()?, t.scratch_place()?);
    set_places(body, t)?;
    copy_leaves(body, t, n, from, to)
}

fn set_places(body: &mut Body, t: &Target) -> Result<(), AllocError>
    ensures { OnOk result (Adds body.old body.new (plain (instrs.LocalSet (targets.scratch_handle t.now.target) ∷ instrs.LocalSet (targets.scratch_place t.now.target) ∷ []))) }
{
    let (from, to) = (t.scratch_handle()?, t.scratch_place()?);
    add_two(body, Instr::LocalSet(from), Instr::LocalSet(to))
}

// ---- memory (7.22.3)

/// As many elements of this size as the number of bytes on the stack holds.
fn new_elements(body: &mut Body, size: u32) -> Result<(), AllocError>
    ensures { OnOk result (Adds body.old body.new (operations.new_heap size)) }
{
    add_five(
        body,
        i32_of(size),
        op(Width::W32, BinOp::DivU),
        i32_of(size),
        op(Width::W32, BinOp::Mul),
        Instr::Segment(Segment::New(Kind::Heap)),
    )
}

/// As many elements of a type.
pub fn new_heap(body: &mut Body, t: &Target, u: &CType) -> Result<(), AllocError>
    ensures { OnOk result (Adds body.old body.new (operations.new_heap (size t.now.target.structs (type_of u.now)))) }
{
    let size = t.size(u)?;
    new_elements(body, size)
}

/// The same where the number of bytes is known.
pub fn new_known(body: &mut Body, t: &Target, u: &CType, bytes: u64) -> Result<(), AllocError>
    ensures { (unused : Code) → OnOk result (Adds body.old body.new (words.allocated (size t.now.target.structs (type_of u.now)) (Some bytes) unused)) }
{
    let size = u64::from(t.size(u)?);
    if size == 0 {
        return Err(AllocError);
    }
    let Ok(whole) = u32::try_from(bytes / size * size) else {
        return Err(AllocError);
    };
    add_two(
        body,
        i32_of(whole),
        Instr::Segment(Segment::New(Kind::Heap)),
    )
}

/// As many bytes as the product of two numbers; a null pointer where an i32 can't hold it.
#[tactic(auto, using(crate::proofs::Steps::then))]
pub fn new_product(body: &mut Body, t: &Target, u: &CType) -> Result<(), AllocError>
    ensures { OnOk result (Adds body.old body.new (plain (instrs.Numeric numerics.ExtendU ∷ operations.op widths.W64 bins.Mul ∷ instrs.LocalTee (targets.scratch_i64 t.now.target) ∷ operations.i64 4294967295 ∷ operations.rel widths.W64 rels.GtU ∷ []) ⨾ choice (Some vals.Handle) (one (instrs.Segment segments.Null)) (plain (instrs.LocalGet (targets.scratch_i64 t.now.target) ∷ instrs.Numeric numerics.Wrap ∷ []) ⨾ operations.new_heap (size t.now.target.structs (type_of u.now))))) }
{
    multiply(body, t)?;
    new_if_small(body, t, u)
}

/// The product in 64 bits, and whether it is past 32.
fn multiply(body: &mut Body, t: &Target) -> Result<(), AllocError>
    ensures { OnOk result (Adds body.old body.new (plain (instrs.Numeric numerics.ExtendU ∷ operations.op widths.W64 bins.Mul ∷ instrs.LocalTee (targets.scratch_i64 t.now.target) ∷ operations.i64 4294967295 ∷ operations.rel widths.W64 rels.GtU ∷ []))) }
{
    let product = t.scratch_i64()?;
    add_five(
        body,
        Instr::Numeric(Numeric::ExtendU),
        op(Width::W64, BinOp::Mul),
        Instr::LocalTee(product),
        i64_of(4_294_967_295),
        rel(Width::W64, RelOp::GtU),
    )
}

#[tactic(auto, using(crate::proofs::Steps::may_turn, crate::proofs::Steps::second_may_end))]
fn new_if_small(body: &mut Body, t: &Target, u: &CType) -> Result<(), AllocError>
    ensures { OnOk result (Adds body.old body.new (choice (Some vals.Handle) (one (instrs.Segment segments.Null)) (plain (instrs.LocalGet (targets.scratch_i64 t.now.target) ∷ instrs.Numeric numerics.Wrap ∷ []) ⨾ operations.new_heap (size t.now.target.structs (type_of u.now))))) }
{
    begin(body, Opening::If, Some(ValType::Handle))?;
    add(body, Instr::Segment(Segment::Null))?;
    turn(body);
    new_small(body, t, u)?;
    end(body)
}

#[tactic(auto, using(crate::proofs::Steps::then))]
fn new_small(body: &mut Body, t: &Target, u: &CType) -> Result<(), AllocError>
    ensures { OnOk result (Adds body.old body.new (plain (instrs.LocalGet (targets.scratch_i64 t.now.target) ∷ instrs.Numeric numerics.Wrap ∷ []) ⨾ operations.new_heap (size t.now.target.structs (type_of u.now)))) }
{
    small_product(body, t)?;
    new_heap(body, t, u)
}

fn small_product(body: &mut Body, t: &Target) -> Result<(), AllocError>
    ensures { OnOk result (Adds body.old body.new (plain (instrs.LocalGet (targets.scratch_i64 t.now.target) ∷ instrs.Numeric numerics.Wrap ∷ []))) }
{
    let product = t.scratch_i64()?;
    add_two(
        body,
        Instr::LocalGet(product),
        Instr::Numeric(Numeric::Wrap),
    )
}

/// What the handle on the stack leads to is freed; a null pointer is passed over (7.22.3.3).
#[tactic(auto, using(crate::proofs::Steps::then))]
pub fn free_heap(body: &mut Body, t: &Target) -> Result<(), AllocError>
    ensures { OnOk result (Adds body.old body.new (plain (instrs.LocalTee (targets.scratch_handle t.now.target) ∷ instrs.Segment segments.IsNull ∷ operations.eqz ∷ []) ⨾ choice None (plain (instrs.LocalGet (targets.scratch_handle t.now.target) ∷ instrs.Segment (segments.Free kinds.Heap) ∷ [])) no_code)) }
{
    keep_unless_null(body, t)?;
    free_kept(body, t)
}

fn keep_unless_null(body: &mut Body, t: &Target) -> Result<(), AllocError>
    ensures { OnOk result (Adds body.old body.new (plain (instrs.LocalTee (targets.scratch_handle t.now.target) ∷ instrs.Segment segments.IsNull ∷ operations.eqz ∷ []))) }
{
    let handle = t.scratch_handle()?;
    add_three(
        body,
        Instr::LocalTee(handle),
        Instr::Segment(Segment::IsNull),
        eqz(),
    )
}

#[tactic(auto, using(crate::proofs::Steps::may_end))]
fn free_kept(body: &mut Body, t: &Target) -> Result<(), AllocError>
    ensures { OnOk result (Adds body.old body.new (choice None (plain (instrs.LocalGet (targets.scratch_handle t.now.target) ∷ instrs.Segment (segments.Free kinds.Heap) ∷ [])) no_code)) }
{
    begin(body, Opening::If, None)?;
    free_handle(body, t)?;
    end(body)
}

fn free_handle(body: &mut Body, t: &Target) -> Result<(), AllocError>
    ensures { OnOk result (Adds body.old body.new (plain (instrs.LocalGet (targets.scratch_handle t.now.target) ∷ instrs.Segment (segments.Free kinds.Heap) ∷ []))) }
{
    let handle = t.scratch_handle()?;
    add_two(
        body,
        Instr::LocalGet(handle),
        Instr::Segment(Segment::Free(Kind::Heap)),
    )
}
