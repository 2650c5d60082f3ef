//! The code of operators (C11, 6.5): their operands stand on the stack.

ghost use Rattle.std.specs.Prelude.{pos, negsuc, [], ◌∷◌, if◌then◌else◌, OnOk};
ghost use Rattle.c_types.specs.Layout.{size};
ghost use Rattle.c_types.specs.Types.{type_of};
ghost use Rattle.c_types.specs.declared.integers.IntType.TheVariants.{LongLong};
ghost use Rattle.c_code.specs.Operations as words;
ghost use Rattle.c_code.specs.Targets.{scratch_handle, scratch_i64, waiting};
ghost use Rattle.ms_emit.specs.Codes.{one, plain};
ghost use Rattle.ms_emit.specs.refinement.Parts.{Adds};
ghost use Rattle.c_emit.specs.refinement.Steps.{Begins};
ghost use Rattle.ms_module.specs.declared.builder.Opening.TheVariants.{If};
ghost use Rattle.ms_module.specs.declared.access.Segment.TheVariants as segments;
ghost use Rattle.ms_module.specs.declared.instr.Instr.TheVariants as instrs;
ghost use Rattle.ms_module.specs.declared.numeric.BinOp.TheVariants as bins;
ghost use Rattle.ms_module.specs.declared.numeric.RelOp.TheVariants as rels;
ghost use Rattle.ms_module.specs.declared.numeric.Width.TheVariants as widths;

use crate::adding::{add, add_five, add_three, add_two, begin};
use crate::body::Body;
use crate::operations::{
    compared, i32_of, i64_of, ones, op, operated, rel, val_option, width_of, zero_of_width,
};
use crate::target::Target;
use c_typed::{BinaryOp, RelOp as Relation};
use c_types::{CType, IntType, Scalar};
use ms_module::{BinOp, Instr, Opening, RelOp, Segment, Width};
use std::alloc::AllocError;

// ---- integers

/// A constant of 32 bits.
pub fn constant(body: &mut Body, n: u32) -> Result<(), AllocError>
    ensures { OnOk result (Adds body.old body.new (one (words.i32 n))) }
{
    add(body, i32_of(n))
}

/// 0 of a type.
#[tactic(auto, using(crate::proofs::Plain::constant_plain))]
pub fn zero(body: &mut Body, t: IntType) -> Result<(), AllocError>
    ensures { OnOk result (Adds body.old body.new (one (words.constant (words.width_of t) (pos 0)))) }
{
    add(body, zero_of_width(width_of(t)))
}

/// The second number from the first.
pub fn subtract(body: &mut Body, t: IntType) -> Result<(), AllocError>
    ensures { OnOk result (Adds body.old body.new (one (words.op (words.width_of t) bins.Sub))) }
{
    add(body, op(width_of(t), BinOp::Sub))
}

/// All bits the other way.
#[tactic(auto, using(crate::proofs::Plain::constant_plain))]
pub fn complement(body: &mut Body, t: IntType) -> Result<(), AllocError>
    ensures { OnOk result (Adds body.old body.new (plain (words.constant (words.width_of t) (negsuc 0) ∷ words.op (words.width_of t) bins.Xor ∷ []))) }
{
    add_two(body, ones(width_of(t)), op(width_of(t), BinOp::Xor))
}

/// 6.5.5 to 6.5.7, 6.5.10 to 6.5.12.
pub fn operate(body: &mut Body, o: BinaryOp, t: IntType) -> Result<(), AllocError>
    ensures { OnOk result (Adds body.old body.new (one (words.operated o t))) }
{
    add(body, operated(o, t))
}

/// 6.5.8, 6.5.9.
pub fn compare(body: &mut Body, r: Relation, t: IntType) -> Result<(), AllocError>
    ensures { OnOk result (Adds body.old body.new (one (words.compared r t))) }
{
    add(body, compared(r, t))
}

// ---- pointers

/// Whether two functions are the same, or whether they differ.
pub fn compare_functions(body: &mut Body, same: bool) -> Result<(), AllocError>
    ensures { OnOk result (Adds body.old body.new (one (words.rel widths.W32 (if same then rels.Eq else rels.Ne)))) }
{
    if same {
        add(body, rel(Width::W32, RelOp::Eq))
    } else {
        add(body, rel(Width::W32, RelOp::Ne))
    }
}

/// By the sign of their difference.
pub fn order(body: &mut Body, r: Relation) -> Result<(), AllocError>
    ensures { OnOk result (Adds body.old body.new (plain (instrs.Segment segments.Diff ∷ words.i64 0 ∷ words.compared r LongLong ∷ []))) }
{
    add_three(
        body,
        Instr::Segment(Segment::Diff),
        i64_of(0),
        compared(r, IntType::LongLong),
    )
}

/// Their difference in elements of a type.
pub fn differ(body: &mut Body, t: &Target, u: &CType) -> Result<(), AllocError>
    ensures { OnOk result (Adds body.old body.new (plain (instrs.Segment segments.Diff ∷ words.i64 (size t.now.target.structs (type_of u.now)) ∷ words.op widths.W64 bins.DivS ∷ []))) }
{
    let size = t.size(u)?;
    add_three(
        body,
        Instr::Segment(Segment::Diff),
        i64_of(u64::from(size)),
        op(Width::W64, BinOp::DivS),
    )
}

/// The pointer below the number goes on by so many elements of a type.
pub fn step_on(body: &mut Body, t: &Target, u: &CType) -> Result<(), AllocError>
    ensures { OnOk result (Adds body.old body.new (one (instrs.Segment (segments.Add (size t.now.target.structs (type_of u.now)))))) }
{
    let size = t.size(u)?;
    add(body, Instr::Segment(Segment::Add(size)))
}

/// It goes back, where 0 stands between them.
pub fn step_back(body: &mut Body, t: &Target, u: &CType) -> Result<(), AllocError>
    ensures { OnOk result (Adds body.old body.new (plain (words.op widths.W64 bins.Sub ∷ instrs.Segment (segments.Add (size t.now.target.structs (type_of u.now))) ∷ []))) }
{
    let size = t.size(u)?;
    add_two(
        body,
        op(Width::W64, BinOp::Sub),
        Instr::Segment(Segment::Add(size)),
    )
}

/// The pointer above the number goes on.
pub fn step_by(body: &mut Body, t: &Target, u: &CType) -> Result<(), AllocError>
    ensures { OnOk result (Adds body.old body.new (plain (instrs.LocalSet (scratch_handle t.now.target) ∷ instrs.LocalSet (scratch_i64 t.now.target) ∷ instrs.LocalGet (scratch_handle t.now.target) ∷ instrs.LocalGet (scratch_i64 t.now.target) ∷ instrs.Segment (segments.Add (size t.now.target.structs (type_of u.now))) ∷ []))) }
{
    let (size, handle, number) = (t.size(u)?, t.scratch_handle()?, t.scratch_i64()?);
    add_five(
        body,
        Instr::LocalSet(handle),
        Instr::LocalSet(number),
        Instr::LocalGet(handle),
        Instr::LocalGet(number),
        Instr::Segment(Segment::Add(size)),
    )
}

// ---- control

/// Begins the choice between two expressions of this scalar (6.5.15).
#[tactic(auto, using(crate::proofs::Steps::begins))]
pub fn begin_choice(body: &mut Body, s: Option<Scalar>) -> Result<(), AllocError>
    ensures { OnOk result (Begins body.old body.new If (words.val_option s)) }
{
    begin(body, Opening::If, val_option(s))
}

// ---- calls (6.5.2.2)

/// Of a function by its number.
pub fn call_function(body: &mut Body, t: &Target, n: u32) -> Result<(), AllocError>
    ensures { OnOk result (Adds body.old body.new (one (instrs.Call (t.now.target.index n)))) }
{
    add(body, Instr::Call(t.index(n)?))
}

/// The function that is called through a pointer waits while `d` other values do.
pub fn wait(body: &mut Body, t: &Target, d: u32) -> Result<(), AllocError>
    ensures { OnOk result (Adds body.old body.new (one (instrs.LocalSet (waiting t.now.target d)))) }
{
    add(body, Instr::LocalSet(t.waiting(d)?))
}

/// It is called, by its type.
pub fn call_waiting(body: &mut Body, t: &Target, d: u32, u: &CType) -> Result<(), AllocError>
    ensures { OnOk result (Adds body.old body.new (plain (instrs.LocalGet (waiting t.now.target d) ∷ instrs.CallIndirect (t.now.target.sig (type_of u.now)) ∷ []))) }
{
    let (waiting, sig) = (t.waiting(d)?, t.sig(u)?);
    add_two(body, Instr::LocalGet(waiting), Instr::CallIndirect(sig))
}
