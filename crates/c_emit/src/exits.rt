//! Ways out of blocks (C11, 6.8.6): where a statement stands, what a jump frees, and where it goes.

ghost use Rattle.std.specs.Prelude.{◌≡◌, ◌++◌, ◌∷◌, [], List, None, length, reverse, take, IfOk, OnOk};
ghost use Rattle.ms_handle.specs.declared.handle.Kind.TheVariants.{Frame};
ghost use Rattle.ms_module.specs.declared.access.Segment.TheVariants.{Free};
ghost use Rattle.ms_module.specs.declared.instr.Instr.TheVariants.{Br, Segment as SegmentOf, Return};
ghost use Rattle.ms_emit.specs.Codes.{◌⨾◌, block, one, plain};
ghost use Rattle.ms_emit.specs.refinement.Parts.{Adds};
ghost use Rattle.c_typed.specs.declared.ops.Variable.{Variable};
ghost use Rattle.c_code.specs.Statements as words;
ghost use Rattle.c_code.specs.Targets as targets;
ghost use Rattle.c_code.specs.Targets.{waiting};
ghost use Rattle.c_emit.specs.refinement.Exits.{exits_of, leaving_of};

use crate::adding::{add, add_two};
use crate::body::Body;
use crate::leaves::sum;
use crate::operations::ones;
use crate::target::Target;
use c_typed::Variable;
use ms_handle::Kind;
use ms_module::{Instr, Segment, Width};
use std::alloc::AllocError;

/// Where a statement stands (C11, 6.8.6): how many of the objects of the open blocks lie inside what `break` leaves and inside the
/// loop that `continue` goes on; their labels; and what stands in front of the branch of `break`.
#[derive(Clone, Copy)]
pub struct Exits {
    pub left_by_break: u32,
    pub left_by_continue: u32,
    pub break_label: u32,
    pub continue_label: u32,
    /// The local of a switch that waits, which `break` leaves.
    pub leaving: Option<u32>,
}

impl Exits {
    /// In a function's body, outside of loops.
    pub fn at_body() -> Exits
        ensures { (vs : List Variable) → exits_of result vs ≡ words.at_body vs }
    {
        Exits {
            left_by_break: 0,
            left_by_continue: 0,
            break_label: 0,
            continue_label: 0,
            leaving: None,
        }
    }

    /// Within a block of the machine.
    pub fn within(self) -> Result<Exits, AllocError>
        ensures { IfOk result (λ x. (vs : List Variable) → exits_of x vs ≡ words.within (exits_of self vs)) }
    {
        Ok(Exits {
            left_by_break: self.left_by_break,
            left_by_continue: self.left_by_continue,
            break_label: sum(self.break_label, 1)?,
            continue_label: sum(self.continue_label, 1)?,
            leaving: self.leaving,
        })
    }

    /// Within a block of C that has so many objects.
    pub fn with_objects(self, count: u32) -> Result<Exits, AllocError>
        ensures { IfOk result (λ x. (vs ws : List Variable) → count ≡ length vs → exits_of x (vs ++ ws) ≡ words.with_objects vs (exits_of self ws)) }
    {
        Ok(Exits {
            left_by_break: sum(count, self.left_by_break)?,
            left_by_continue: sum(count, self.left_by_continue)?,
            break_label: self.break_label,
            continue_label: self.continue_label,
            leaving: self.leaving,
        })
    }

    /// Within the body of a loop.
    pub fn in_loop(continues: bool) -> Exits
        ensures { (x : words.Exits) → exits_of result x.objects ≡ words.in_loop continues x }
    {
        Exits {
            left_by_break: 0,
            left_by_continue: 0,
            break_label: if continues { 2 } else { 1 },
            continue_label: 0,
            leaving: None,
        }
    }

    /// Within a group of a switch that waits in this local.
    pub fn in_group(self, waiting: u32) -> Result<Exits, AllocError>
        ensures { IfOk result (λ x. (vs : List Variable) → exits_of x vs ≡ words.in_group waiting (exits_of self vs)) }
    {
        Ok(Exits {
            left_by_break: 0,
            left_by_continue: self.left_by_continue,
            break_label: 0,
            continue_label: sum(self.continue_label, 1)?,
            leaving: Some(waiting),
        })
    }
}

/// `return`: all objects are freed.
#[tactic(auto, using(crate::proofs::Steps::then))]
pub fn return_nothing(body: &mut Body, t: &Target, objects: &[Variable]) -> Result<(), AllocError>
    ensures { OnOk result (Adds body.old body.new (words.freed t.now.target (reverse objects.now) ⨾ one Return)) }
{
    free_all(body, t, objects)?;
    add(body, Instr::Return)
}

/// Frees all objects, the last one first.
fn free_all(body: &mut Body, t: &Target, objects: &[Variable]) -> Result<(), AllocError>
    ensures { OnOk result (Adds body.old body.new (words.freed t.now.target (reverse objects.now))) }
{
    free_last(body, t, objects, objects.len())
}

/// `break`.
#[tactic(auto, using(crate::proofs::Steps::then))]
pub fn break_out(
    body: &mut Body,
    t: &Target,
    objects: &[Variable],
    exits: Exits,
) -> Result<(), AllocError>
    ensures { OnOk result (Adds body.old body.new (words.freed t.now.target (take exits.left_by_break (reverse objects.now)) ⨾ leaving_of exits.leaving ⨾ one (Br exits.break_label))) }
{
    free_last(body, t, objects, exits.left_by_break as usize)?;
    pass_groups(body, exits.leaving)?;
    add(body, Instr::Br(exits.break_label))
}

/// A switch that waits in this local goes on with no group.
#[tactic(auto, using(crate::proofs::Steps::nothing_added))]
fn pass_groups(body: &mut Body, leaving: Option<u32>) -> Result<(), AllocError>
    ensures { OnOk result (Adds body.old body.new (leaving_of leaving)) }
{
    match leaving {
        Some(waiting) => add_two(body, ones(Width::W32), Instr::LocalSet(waiting)),
        None => Ok(()),
    }
}

/// `continue`.
#[tactic(auto, using(crate::proofs::Steps::then))]
pub fn go_on(
    body: &mut Body,
    t: &Target,
    objects: &[Variable],
    exits: Exits,
) -> Result<(), AllocError>
    ensures { OnOk result (Adds body.old body.new (words.freed t.now.target (take exits.left_by_continue (reverse objects.now)) ⨾ one (Br exits.continue_label))) }
{
    free_last(body, t, objects, exits.left_by_continue as usize)?;
    add(body, Instr::Br(exits.continue_label))
}

/// Frees the last objects, so many, the last one first.
pub fn free_last(
    body: &mut Body,
    t: &Target,
    objects: &[Variable],
    count: usize,
) -> Result<(), AllocError>
    ensures { OnOk result (Adds body.old body.new (words.freed t.now.target (take count (reverse objects.now)))) }
{
    for v in objects.iter().rev().take(count) {
        free(body, t, *v)?;
    }
    Ok(())
}

/// Frees an object.
fn free(body: &mut Body, t: &Target, v: Variable) -> Result<(), AllocError>
    ensures { OnOk result (Adds body.old body.new (plain (targets.get t.now.target v ∷ SegmentOf (Free Frame) ∷ []))) }
{
    add_two(body, t.get(v)?, Instr::Segment(Segment::Free(Kind::Frame)))
}
