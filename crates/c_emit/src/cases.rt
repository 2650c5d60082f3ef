//! The group with which a switch goes on (C11, 6.8.4.2).

ghost use Rattle.std.specs.Prelude.{◌≡◌, ◌∷◌, [], None, MatchOption, OnOk};
ghost use Rattle.ms_module.specs.declared.instr.Instr.TheVariants.{LocalGet, LocalSet, Select};
ghost use Rattle.ms_module.specs.declared.numeric.RelOp.TheVariants.{LeU, Ne};
ghost use Rattle.ms_module.specs.declared.numeric.Width.TheVariants.{W32};
ghost use Rattle.ms_emit.specs.Codes.{no_code, one, plain};
ghost use Rattle.ms_emit.specs.refinement.Parts.{Adds};
ghost use Rattle.c_meaning.specs.Integers.{value_of};
ghost use Rattle.c_meaning.specs.Statements.{group_at, or_else};
ghost use Rattle.c_code.specs.Operations.{constant, i32, rel as compared, width_of as width};
ghost use Rattle.c_code.specs.Statements as words;
ghost use Rattle.c_code.specs.Targets.{Target as Site, waiting};

use crate::adding::{add, add_three, add_two};
use crate::body::Body;
use crate::operations::{i32_of, number, rel, width_of};
use crate::target::Target;
use c_typed::Case;
use c_types::IntType;
use ms_module::{Instr, RelOp, Width};
use std::alloc::AllocError;

/// Whether the switch goes on with a group or with one before it.
pub fn test_group(body: &mut Body, t: &Target, d: u32, number: u32) -> Result<(), AllocError>
    ensures { OnOk result (Adds body.old body.new (plain (LocalGet (waiting t.now.target d) ∷ i32 number ∷ compared W32 LeU ∷ []))) }
{
    add_three(
        body,
        Instr::LocalGet(t.waiting(d)?),
        i32_of(number),
        rel(Width::W32, RelOp::LeU),
    )
}

/// The operand into its local, and the number of the group that is chosen where no label is equal.
pub fn choose_default(
    body: &mut Body,
    operand: u32,
    cases: &[Case],
    groups: u32,
) -> Result<(), AllocError>
    ensures { OnOk result (Adds body.old body.new (plain (LocalSet operand ∷ i32 (or_else (group_at None cases.now) groups) ∷ []))) }
{
    add_two(
        body,
        Instr::LocalSet(operand),
        i32_of(default_group(cases, groups)),
    )
}

/// The group of `default`, else the number behind all.
fn default_group(cases: &[Case], groups: u32) -> u32
    ensures { result ≡ or_else (group_at None cases.now) groups }
{
    for case in cases {
        if let None = case.label {
            return case.group;
        }
    }
    groups
}

/// The number of the group on the operands, unless a label is equal: then that of the label.
pub fn choose(body: &mut Body, u: IntType, operand: u32, cases: &[Case]) -> Result<(), AllocError>
    ensures { (site : Site) → OnOk result (Adds body.old body.new (words.chosen site u operand cases.now)) }
{
    for case in cases {
        choose_case(body, u, operand, *case)?;
    }
    Ok(())
}

/// The group of this label, where it is equal.
#[tactic(auto, using(crate::proofs::Steps::nothing_added, crate::proofs::Steps::then_plain, crate::proofs::Items::constant_is_plain))]
fn choose_case(body: &mut Body, u: IntType, operand: u32, case: Case) -> Result<(), AllocError>
    ensures { OnOk result (MatchOption case.label (Adds body.old body.new no_code) (λ n. Adds body.old body.new (plain (i32 case.group ∷ LocalGet operand ∷ constant (width u) (value_of u n) ∷ compared (width u) Ne ∷ Select ∷ [])))) }
{
    let Some(label) = case.label else {
        return Ok(());
    };
    add(body, i32_of(case.group))?;
    add(body, Instr::LocalGet(operand))?;
    add_three(
        body,
        number(u, label),
        rel(width_of(u), RelOp::Ne),
        Instr::Select,
    )
}
