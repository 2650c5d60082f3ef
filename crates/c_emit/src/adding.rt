//! The builder's calls (`ms_module`), and instructions without a block, one behind the other.

ghost use Rattle.std.specs.Prelude.{◌≡◌, ◌<◌, ◌∷◌, [], length, true, OnOk};
ghost use Rattle.ms_emit.specs.Codes.{one, plain};
ghost use Rattle.ms_emit.specs.refinement.Parts.{Adds};
ghost use Rattle.ms_module.specs.Building.{may_else};
ghost use Rattle.ms_module.specs.Numbered.{IsPlain};
ghost use Rattle.c_emit.specs.refinement.Steps.{Begins, Ends, Turns};

use crate::body::Body;
use ms_module::{Instr, Opening};
use ms_types::ValType;
use std::alloc::AllocError;

/// An instruction that is no block.
#[tactic(auto, using(crate::proofs::Steps::added))]
pub fn add(body: &mut Body, i: Instr) -> Result<(), AllocError>
    requires { IsPlain i }
    ensures { OnOk result (Adds body.old body.new (one i)) }
{
    body.add(i)
}

/// Two of them.
#[tactic(auto, using(crate::proofs::Steps::then_plain))]
pub fn add_two(body: &mut Body, i: Instr, j: Instr) -> Result<(), AllocError>
    requires { IsPlain i × IsPlain j }
    ensures { OnOk result (Adds body.old body.new (plain (i ∷ j ∷ []))) }
{
    add(body, i)?;
    add(body, j)
}

/// Three of them.
#[tactic(auto, using(crate::proofs::Steps::then_plain))]
pub fn add_three(body: &mut Body, i: Instr, j: Instr, k: Instr) -> Result<(), AllocError>
    requires { IsPlain i × IsPlain j × IsPlain k }
    ensures { OnOk result (Adds body.old body.new (plain (i ∷ j ∷ k ∷ []))) }
{
    add(body, i)?;
    add_two(body, j, k)
}

/// Four of them.
#[tactic(auto, using(crate::proofs::Steps::then_plain))]
pub fn add_four(body: &mut Body, i: Instr, j: Instr, k: Instr, l: Instr) -> Result<(), AllocError>
    requires { IsPlain i × IsPlain j × IsPlain k × IsPlain l }
    ensures { OnOk result (Adds body.old body.new (plain (i ∷ j ∷ k ∷ l ∷ []))) }
{
    add(body, i)?;
    add_three(body, j, k, l)
}

/// Five of them.
#[tactic(auto, using(crate::proofs::Steps::then_plain))]
pub fn add_five(
    body: &mut Body,
    i: Instr,
    j: Instr,
    k: Instr,
    l: Instr,
    m: Instr,
) -> Result<(), AllocError>
    requires { IsPlain i × IsPlain j × IsPlain k × IsPlain l × IsPlain m }
    ensures { OnOk result (Adds body.old body.new (plain (i ∷ j ∷ k ∷ l ∷ m ∷ []))) }
{
    add(body, i)?;
    add_four(body, j, k, l, m)
}

/// Begins a block.
#[tactic(auto, using(crate::proofs::Steps::begins))]
pub fn begin(body: &mut Body, opening: Opening, ty: Option<ValType>) -> Result<(), AllocError>
    ensures { OnOk result (Begins body.old body.new opening ty) }
{
    body.open(opening, ty)
}

/// Begins its else arm.
#[tactic(auto, using(crate::proofs::Steps::turns))]
pub fn turn(body: &mut Body)
    requires { may_else body.old.blocks ≡ true }
    ensures { Turns body.old body.new }
{
    body.begin_else();
}

/// Ends it.
#[tactic(auto, using(crate::proofs::Steps::ends))]
pub fn end(body: &mut Body) -> Result<(), AllocError>
    requires { 0 < length body.old.blocks }
    ensures { OnOk result (Ends body.old body.new) }
{
    body.close()
}
