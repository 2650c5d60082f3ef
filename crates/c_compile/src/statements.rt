//! The code of statements (C11, 6.8): they leave the operands as they were.

ghost use Rattle.std.specs.Prelude.{◌≡◌, None, true, false, if◌then◌else◌, reverse, suc, OnOk};
ghost use Rattle.ms_module.specs.declared.instr.Instr.TheVariants.{BrIf};
ghost use Rattle.ms_emit.specs.Codes.{◌⨾◌, block, one};
ghost use Rattle.ms_emit.specs.refinement.Parts.{Adds};
ghost use Rattle.c_typed.specs.declared.ops.Variable.{Variable};
ghost use Rattle.c_typed.specs.Parts.{sequence};
ghost use Rattle.c_typed.specs.Tree as tree;
ghost use Rattle.c_typed.specs.refinement.Views.{expr_of, list_of, place_of, step_of, stmt_of};
ghost use Rattle.c_code.specs.Expressions.{decayed as array, expr, is_deref, place, step};
ghost use Rattle.c_code.specs.Operations.{width_of as width};
ghost use Rattle.c_code.specs.Statements as words;
ghost use Rattle.c_code.specs.Targets.{scratch_of_width, waiting};
ghost use Rattle.c_emit.specs.refinement.Exits.{exits_of};

use crate::values::{decayed, thrown, value};
use c_emit::adding::{add, begin, end, turn};
use c_emit::blocks::{enter, leave, put_bytes};
use c_emit::body::Body;
use c_emit::cases::{choose, choose_default, test_group};
use c_emit::exits::{Exits, break_out, go_on, return_nothing};
use c_emit::leaves::sum;
use c_emit::operations::width_of;
use c_emit::target::Target;
use c_typed::{Case, Expr, Place, Stmt, Variable};
use c_types::IntType;
use ms_module::{Instr, Opening};
use std::alloc::AllocError;

/// Adds the code of a statement. `objects` are those of the open blocks, the innermost last, which stay as they were.
#[cycle(statements)]
pub fn stmt(
    body: &mut Body,
    t: &Target,
    objects: &mut Vec<Variable>,
    d: u32,
    exits: Exits,
    s: &Stmt,
) -> Result<(), AllocError>
    ensures code { OnOk result (Adds body.old body.new (words.stmt t.now.target t.now.slots d (exits_of exits (reverse objects.old.items)) (stmt_of s.now))) }
    ensures objects { OnOk result (objects.new.items ≡ objects.old.items) }
{
    match s {
        Stmt::Nothing => Ok(()),
        Stmt::Perform(e) => thrown(body, t, d, e),
        Stmt::Fill(p, n, bytes) => fill(body, t, d, p, *n, bytes),
        Stmt::If(c, a, b) => {
            value(body, t, d, c)?;
            begin(body, Opening::If, None)?;
            arm(body, t, objects, d, exits, a)?;
            turn(body);
            arm(body, t, objects, d, exits, b)?;
            end(body)
        }
        Stmt::Loop(c, after, s) => test_first(body, t, objects, d, s, after, c),
        Stmt::DoWhile(s, c) => test_last(body, t, objects, d, s, c),
        Stmt::Switch(u, e, slots, cases, groups) => {
            switch(body, t, objects, d, exits, groups, *u, e, slots, cases)
        }
        Stmt::Scope(slots, ss) => scope(body, t, objects, d, exits, ss, slots),
        Stmt::Return(e) => return_value(body, t, objects, d, e),
        Stmt::ReturnNothing => return_nothing(body, t, objects),
        Stmt::Break => break_out(body, t, objects, exits),
        Stmt::Continue => go_on(body, t, objects, exits),
    }
}

/// A statement within a block of the machine.
#[cycle(statements)]
fn arm(
    body: &mut Body,
    t: &Target,
    objects: &mut Vec<Variable>,
    d: u32,
    exits: Exits,
    s: &Stmt,
) -> Result<(), AllocError>
    ensures code { OnOk result (Adds body.old body.new (words.stmt t.now.target t.now.slots d (words.within (exits_of exits (reverse objects.old.items))) (stmt_of s.now))) }
    ensures objects { OnOk result (objects.new.items ≡ objects.old.items) }
{
    stmt(body, t, objects, d, exits.within()?, s)
}

/// One statement behind another.
#[cycle(statements)]
fn stmts(
    body: &mut Body,
    t: &Target,
    objects: &mut Vec<Variable>,
    d: u32,
    exits: Exits,
    ss: &[Stmt],
) -> Result<(), AllocError>
    ensures code { OnOk result (Adds body.old body.new (words.stmts t.now.target t.now.slots d (exits_of exits (reverse objects.old.items)) (sequence (list_of ss.now)))) }
    ensures objects { OnOk result (objects.new.items ≡ objects.old.items) }
{
    for s in ss {
        stmt(body, t, objects, d, exits, s)?;
    }
    Ok(())
}

/// A block (6.8.2): its objects last as long as it does.
#[cycle(statements)]
fn scope(
    body: &mut Body,
    t: &Target,
    objects: &mut Vec<Variable>,
    d: u32,
    exits: Exits,
    ss: &[Stmt],
    slots: &[u32],
) -> Result<(), AllocError>
    ensures code { OnOk result (Adds body.old body.new (words.stmt t.now.target t.now.slots d (exits_of exits (reverse objects.old.items)) (tree.scope slots.now (sequence (list_of ss.now))))) }
    ensures objects { OnOk result (objects.new.items ≡ objects.old.items) }
{
    let count = enter(body, t, objects, slots)?;
    stmts(body, t, objects, d, exits.with_objects(count)?, ss)?;
    leave(body, t, objects, count)
}

// ---- loops (6.8.5): the test in front, and again behind each iteration. Of where the loop stands its body sees the objects alone.

/// `while` and `for`.
#[cycle(statements)]
#[tactic(auto, using(c_emit::proofs::Steps::may_end))]
fn test_first(
    body: &mut Body,
    t: &Target,
    objects: &mut Vec<Variable>,
    d: u32,
    s: &Stmt,
    after: &Option<Expr>,
    c: &Expr,
) -> Result<(), AllocError>
    ensures code { OnOk result (Adds body.old body.new (words.stmt t.now.target t.now.slots d (words.at_body (reverse objects.old.items)) (tree.loop (expr_of c.now) (step_of after.now) (stmt_of s.now)))) }
    ensures objects { OnOk result (objects.new.items ≡ objects.old.items) }
{
    value(body, t, d, c)?;
    begin(body, Opening::If, None)?;
    iterated(body, t, objects, d, s, after, c)?;
    end(body)
}

/// `do`.
#[cycle(statements)]
#[tactic(auto, using(c_emit::proofs::Steps::may_end))]
fn test_last(
    body: &mut Body,
    t: &Target,
    objects: &mut Vec<Variable>,
    d: u32,
    s: &Stmt,
    c: &Expr,
) -> Result<(), AllocError>
    ensures code { OnOk result (Adds body.old body.new (words.stmt t.now.target t.now.slots d (words.at_body (reverse objects.old.items)) (tree.do_while (stmt_of s.now) (expr_of c.now)))) }
    ensures objects { OnOk result (objects.new.items ≡ objects.old.items) }
{
    begin(body, Opening::Block, None)?;
    iterated(body, t, objects, d, s, &None, c)?;
    end(body)
}

/// The iterations of a loop.
#[cycle(statements)]
#[tactic(auto, using(c_emit::proofs::Steps::may_end))]
fn iterated(
    body: &mut Body,
    t: &Target,
    objects: &mut Vec<Variable>,
    d: u32,
    s: &Stmt,
    after: &Option<Expr>,
    c: &Expr,
) -> Result<(), AllocError>
    ensures code { OnOk result (Adds body.old body.new (words.iterated t.now.target (words.continues (stmt_of s.now)) (words.stmt t.now.target t.now.slots d (words.in_loop (words.continues (stmt_of s.now)) (words.at_body (reverse objects.old.items))) (stmt_of s.now)) (step t.now.target d (step_of after.now)) (expr t.now.target true d (expr_of c.now)))) }
    ensures objects { OnOk result (objects.new.items ≡ objects.old.items) }
{
    begin(body, Opening::Loop, None)?;
    iteration(body, t, objects, d, s)?;
    go_round(body, t, d, after, c)?;
    end(body)
}

/// The body of a loop, in a block of its own where it has a `continue`.
#[cycle(statements)]
#[tactic(auto, using(c_emit::proofs::Steps::may_end))]
fn iteration(
    body: &mut Body,
    t: &Target,
    objects: &mut Vec<Variable>,
    d: u32,
    s: &Stmt,
) -> Result<(), AllocError>
    ensures code { OnOk result (Adds body.old body.new (if words.continues (stmt_of s.now) then block None (words.stmt t.now.target t.now.slots d (words.in_loop true (words.at_body (reverse objects.old.items))) (stmt_of s.now)) else (words.stmt t.now.target t.now.slots d (words.in_loop false (words.at_body (reverse objects.old.items))) (stmt_of s.now)))) }
    ensures objects { OnOk result (objects.new.items ≡ objects.old.items) }
{
    if !continues(s) {
        return stmt(body, t, objects, d, Exits::in_loop(false), s);
    }
    begin(body, Opening::Block, None)?;
    stmt(body, t, objects, d, Exits::in_loop(true), s)?;
    end(body)
}

/// What stands behind the body of a loop: what is evaluated after each iteration, and the test.
#[tactic(auto, using(c_emit::proofs::Steps::then))]
fn go_round(
    body: &mut Body,
    t: &Target,
    d: u32,
    after: &Option<Expr>,
    c: &Expr,
) -> Result<(), AllocError>
    ensures { OnOk result (Adds body.old body.new (step t.now.target d (step_of after.now) ⨾ expr t.now.target true d (expr_of c.now) ⨾ one (BrIf 0))) }
{
    evaluate(body, t, d, after)?;
    value(body, t, d, c)?;
    add(body, Instr::BrIf(0))
}

/// What is evaluated after each iteration.
#[tactic(auto, using(c_emit::proofs::Steps::nothing_added))]
fn evaluate(body: &mut Body, t: &Target, d: u32, after: &Option<Expr>) -> Result<(), AllocError>
    ensures { OnOk result (Adds body.old body.new (step t.now.target d (step_of after.now))) }
{
    match after {
        Some(e) => thrown(body, t, d, e),
        None => Ok(()),
    }
}

/// Whether a `continue` in the statement belongs to a loop around it.
#[cycle(continuing)]
fn continues(s: &Stmt) -> bool
    ensures { result ≡ words.continues (stmt_of s.now) }
{
    match s {
        Stmt::Continue => true,
        Stmt::If(_, a, b) => continues(a) || continues(b),
        Stmt::Switch(_, _, _, _, groups) => any_continues(groups),
        Stmt::Scope(_, ss) => any_continues(ss),
        _ => false,
    }
}

/// Whether one in these statements does.
#[cycle(continuing)]
fn any_continues(ss: &[Stmt]) -> bool
    ensures { result ≡ words.any_continues (sequence (list_of ss.now)) }
{
    for s in ss {
        if continues(s) {
            return true;
        }
    }
    false
}

// ---- jumps (6.8.6)

/// `return` with a value.
#[tactic(auto, using(c_emit::proofs::Steps::then))]
fn return_value(
    body: &mut Body,
    t: &Target,
    objects: &[Variable],
    d: u32,
    e: &Expr,
) -> Result<(), AllocError>
    ensures { OnOk result (Adds body.old body.new (words.stmt t.now.target t.now.slots d (words.at_body (reverse objects.now)) (tree.return (expr_of e.now)))) }
{
    value(body, t, d, e)?;
    return_nothing(body, t, objects)
}

// ---- switches (6.8.4.2)

/// A switch: its groups are carried out from that one on which its operand leads to.
#[cycle(statements)]
fn switch(
    body: &mut Body,
    t: &Target,
    objects: &mut Vec<Variable>,
    d: u32,
    exits: Exits,
    groups: &[Stmt],
    u: IntType,
    e: &Expr,
    slots: &[u32],
    cases: &[Case],
) -> Result<(), AllocError>
    ensures code { OnOk result (Adds body.old body.new (words.stmt t.now.target t.now.slots d (exits_of exits (reverse objects.old.items)) (tree.switch u (expr_of e.now) slots.now cases.now (sequence (list_of groups.now))))) }
    ensures objects { OnOk result (objects.new.items ≡ objects.old.items) }
{
    select(body, t, d, u, e, cases, groups.len())?;
    let count = enter(body, t, objects, slots)?;
    let inside = exits.with_objects(count)?.in_group(t.waiting(d)?)?;
    grouped(body, t, objects, d, inside, groups)?;
    leave(body, t, objects, count)
}

/// The groups of a switch.
#[cycle(statements)]
fn grouped(
    body: &mut Body,
    t: &Target,
    objects: &mut Vec<Variable>,
    d: u32,
    exits: Exits,
    groups: &[Stmt],
) -> Result<(), AllocError>
    ensures code { OnOk result (Adds body.old body.new (words.groups t.now.target t.now.slots d (exits_of exits (reverse objects.old.items)) 0 (sequence (list_of groups.now)))) }
    ensures objects { OnOk result (objects.new.items ≡ objects.old.items) }
{
    let mut number = 0u32;
    for s in groups {
        group(body, t, objects, d, exits, number, s)?;
        number = sum(number, 1)?;
    }
    Ok(())
}

/// A group is carried out where the switch goes on with it or with one before it.
#[cycle(statements)]
#[tactic(auto, using(c_emit::proofs::Steps::may_end))]
fn group(
    body: &mut Body,
    t: &Target,
    objects: &mut Vec<Variable>,
    d: u32,
    exits: Exits,
    number: u32,
    s: &Stmt,
) -> Result<(), AllocError>
    ensures code { OnOk result (Adds body.old body.new (words.group_from t.now.target (waiting t.now.target d) number (words.stmt t.now.target t.now.slots (suc d) (exits_of exits (reverse objects.old.items)) (stmt_of s.now)))) }
    ensures objects { OnOk result (objects.new.items ≡ objects.old.items) }
{
    let deeper = sum(d, 1)?;
    test_group(body, t, d, number)?;
    begin(body, Opening::If, None)?;
    stmt(body, t, objects, deeper, exits, s)?;
    end(body)
}

/// The number of the group with which a switch goes on, into the local that waits.
fn select(
    body: &mut Body,
    t: &Target,
    d: u32,
    u: IntType,
    e: &Expr,
    cases: &[Case],
    groups: usize,
) -> Result<(), AllocError>
    ensures { OnOk result (Adds body.old body.new (words.selected t.now.target u (scratch_of_width t.now.target (width u)) (waiting t.now.target d) cases.now groups (expr t.now.target true d (expr_of e.now)))) }
{
    let operand = t.scratch_of_width(width_of(u))?;
    let Ok(groups) = u32::try_from(groups) else {
        return Err(AllocError);
    };
    select_into(body, t, d, u, e, operand, t.waiting(d)?, cases, groups)
}

/// The same, by the local of the operand and the one that waits.
fn select_into(
    body: &mut Body,
    t: &Target,
    d: u32,
    u: IntType,
    e: &Expr,
    operand: u32,
    waiting: u32,
    cases: &[Case],
    groups: u32,
) -> Result<(), AllocError>
    ensures { OnOk result (Adds body.old body.new (words.selected t.now.target u operand waiting cases.now groups (expr t.now.target true d (expr_of e.now)))) }
{
    value(body, t, d, e)?;
    choose_default(body, operand, cases, groups)?;
    choose(body, u, operand, cases)?;
    add(body, Instr::LocalSet(waiting))
}

// ---- strings (6.7.9, paragraph 14)

/// A string's bytes into the array of a place.
#[tactic(auto, using(c_emit::proofs::Steps::then))]
fn fill(
    body: &mut Body,
    t: &Target,
    d: u32,
    p: &Place,
    n: u32,
    bytes: &[u8],
) -> Result<(), AllocError>
    ensures { OnOk result (Adds body.old body.new (words.filled t.now.target (array (is_deref (place_of p.now)) n (place t.now.target d (place_of p.now))) bytes.now)) }
{
    decayed(body, t, d, n, p)?;
    put_bytes(body, t, bytes)
}
