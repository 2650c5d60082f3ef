//! What a unit uses outside of `sizeof`: functions that are called or are values, the types of functions that are called through
//! pointers, and structs that are copied.

ghost use Rattle.std.specs.Prelude.{◌≡◌, ◌==◌, ◌||◌, ◌∷◌, [], false, map, IfOk, OnOk};
ghost use Rattle.c_types.specs.Layout.{Table};
ghost use Rattle.c_types.specs.Types.{type_of};
ghost use Rattle.c_typed.specs.Parts.{sequence};
ghost use Rattle.c_typed.specs.refinement.Views.{body_of, expr_of, function_of, list_of, made_of, place_of, step_of, stmt_of, typed_of};
ghost use Rattle.c_code.specs.Limits.{is_long_copy};
ghost use Rattle.c_code.specs.Uses as words;
ghost use Rattle.c_place.specs.refinement.Lists.{exprs_in};
ghost use Rattle.c_place.specs.refinement.Marks.{marked_from};
ghost use Rattle.c_emit.specs.refinement.Found.{Finds, found, in_one, no_uses};
ghost use Rattle.c_emit.specs.refinement.Used.{AreUses};

use crate::leaves::{MOST_LEAVES, leaves};
use crate::signatures::Signatures;
use c_typed::{Expr, Function, Made, Place, Stmt, TypedUnit};
use c_types::{CType, Structs};
use std::alloc::{AllocError, Global};

/// What is used.
#[derive(Drop)]
pub struct Uses {
    /// Whether each function is called or is a value.
    pub used: Vec<bool>,
    /// Whether each function is a value.
    pub named: Vec<bool>,
    /// The types of functions that are called through pointers.
    pub through: Signatures,
    /// Whether a struct of more than 64 leaves is copied.
    pub has_long_copy: bool,
    alloc: Global,
}

/// What a unit uses: what is made before `main`, and then its functions.
pub fn uses_of(alloc: Global, unit: &TypedUnit) -> Result<Uses, AllocError>
    ensures { IfOk result (λ x. AreUses (typed_of unit.now) x) }
{
    let mut uses = no_uses(alloc, unit.functions.len())?;
    in_made(&mut uses, &unit.structs, &unit.made)?;
    in_functions(&mut uses, &unit.structs, &unit.functions)?;
    Ok(uses)
}

/// None of so many functions.
fn no_uses(alloc: Global, count: usize) -> Result<Uses, AllocError>
    ensures { IfOk result (λ x. found x ≡ no_uses count) }
{
    Ok(Uses {
        used: vec![in alloc; false; count]?,
        named: vec![in alloc; false; count]?,
        through: Signatures::new(alloc),
        has_long_copy: false,
        alloc,
    })
}

fn in_made(uses: &mut Uses, structs: &Structs, made: &[Made]) -> Result<(), AllocError>
    ensures { OnOk result (Finds structs.now (words.in_made (map made_of made.now)) (found uses.old) (found uses.new)) }
{
    for m in made {
        in_one(uses, structs, m)?;
    }
    Ok(())
}

fn in_one(uses: &mut Uses, structs: &Structs, m: &Made) -> Result<(), AllocError>
    ensures { OnOk result (Finds structs.now (in_one (made_of m.now)) (found uses.old) (found uses.new)) }
{
    match m {
        Made::Global(_, ss) => in_stmts(uses, structs, ss),
        Made::Literal(_) => Ok(()),
    }
}

fn in_functions(uses: &mut Uses, structs: &Structs, fs: &[Function]) -> Result<(), AllocError>
    ensures { OnOk result (Finds structs.now (words.in_functions (map function_of fs.now)) (found uses.old) (found uses.new)) }
{
    for f in fs {
        in_body(uses, structs, &f.body)?;
    }
    Ok(())
}

fn in_body(uses: &mut Uses, structs: &Structs, body: &Option<Stmt>) -> Result<(), AllocError>
    ensures { OnOk result (Finds structs.now (words.in_body (body_of body.now)) (found uses.old) (found uses.new)) }
{
    match body {
        None => Ok(()),
        Some(s) => in_stmt(uses, structs, s),
    }
}

/// Sets the flag of this number, if there is one.
fn set(flags: &mut Vec<bool>, number: u32)
    ensures { flags.new.items ≡ marked_from 0 (λ k. number == k || false) flags.old.items }
{
    let place = number as usize;
    if place < flags.len() {
        flags[place] = true;
    }
}

/// A function that is called.
fn called(uses: &mut Uses, number: u32)
    ensures { (structs : Table) → Finds structs (words.calls number ∷ []) (found uses.old) (found uses.new) }
{
    set(&mut uses.used, number);
}

/// A function that is a value.
fn named(uses: &mut Uses, number: u32)
    ensures { (structs : Table) → Finds structs (words.names number ∷ []) (found uses.old) (found uses.new) }
{
    set(&mut uses.used, number);
    set(&mut uses.named, number);
}

/// The type of a function that is called through a pointer.
fn called_through(uses: &mut Uses, t: &CType) -> Result<(), AllocError>
    ensures { (structs : Table) → OnOk result (Finds structs (words.through (type_of t.now) ∷ []) (found uses.old) (found uses.new)) }
{
    uses.through.add(t)
}

/// A struct that is copied.
fn copied(uses: &mut Uses, structs: &Structs, number: u32) -> Result<(), AllocError>
    ensures { OnOk result (Finds structs.now (words.copies number ∷ []) (found uses.old) (found uses.new)) }
{
    uses.has_long_copy |= is_long(uses.alloc, structs, number)?;
    Ok(())
}

/// Whether a struct has more leaves than a copy may have.
fn is_long(alloc: Global, structs: &Structs, number: u32) -> Result<bool, AllocError>
    ensures { IfOk result (λ b. b ≡ is_long_copy structs.now (words.copies number)) }
{
    match leaves(alloc, structs, number, MOST_LEAVES)? {
        None => Ok(true),
        Some(_) => Ok(false),
    }
}

#[cycle(using)]
fn in_place(uses: &mut Uses, structs: &Structs, p: &Place) -> Result<(), AllocError>
    ensures { OnOk result (Finds structs.now (words.in_place (place_of p.now)) (found uses.old) (found uses.new)) }
{
    match p {
        Place::Of(_) => Ok(()),
        Place::Deref(e) => in_expr(uses, structs, e),
        Place::Member(p, _, _) => in_place(uses, structs, p),
    }
}

#[cycle(using)]
fn in_exprs(uses: &mut Uses, structs: &Structs, es: &[Expr]) -> Result<(), AllocError>
    ensures { OnOk result (Finds structs.now (words.in_exprs (exprs_in es.now)) (found uses.old) (found uses.new)) }
{
    for e in es {
        in_expr(uses, structs, e)?;
    }
    Ok(())
}

#[cycle(using)]
#[tactic(auto, using(crate::proofs::Using::finds_then))]
fn in_expr(uses: &mut Uses, structs: &Structs, e: &Expr) -> Result<(), AllocError>
    ensures { OnOk result (Finds structs.now (words.in_expr (expr_of e.now)) (found uses.old) (found uses.new)) }
{
    match e {
        Expr::Number(_, _) => Ok(()),
        Expr::Null => Ok(()),
        Expr::NoFunction => Ok(()),
        Expr::Literal(_) => Ok(()),
        Expr::Getchar => Ok(()),
        Expr::Abort => Ok(()),
        Expr::SizeOf(_, _) => Ok(()),
        Expr::Function(n) => {
            named(uses, *n);
            Ok(())
        }
        Expr::Read(_, p) => in_place(uses, structs, p),
        Expr::Decay(_, _, p) => in_place(uses, structs, p),
        Expr::Visit(p) => in_place(uses, structs, p),
        Expr::Address(p) => in_place(uses, structs, p),
        Expr::Convert(_, _, a) => in_expr(uses, structs, a),
        Expr::Truth(_, a) => in_expr(uses, structs, a),
        Expr::Not(a) => in_expr(uses, structs, a),
        Expr::Unary(_, _, a) => in_expr(uses, structs, a),
        Expr::Putchar(a) => in_expr(uses, structs, a),
        Expr::Malloc(_, a) => in_expr(uses, structs, a),
        Expr::Free(a) => in_expr(uses, structs, a),
        Expr::Discard(a) => in_expr(uses, structs, a),
        Expr::Binary(_, _, a, b) => {
            in_expr(uses, structs, a)?;
            in_expr(uses, structs, b)
        }
        Expr::Compare(_, _, a, b) => {
            in_expr(uses, structs, a)?;
            in_expr(uses, structs, b)
        }
        Expr::ComparePointers(_, a, b) => {
            in_expr(uses, structs, a)?;
            in_expr(uses, structs, b)
        }
        Expr::SameFunction(_, a, b) => {
            in_expr(uses, structs, a)?;
            in_expr(uses, structs, b)
        }
        Expr::Difference(_, a, b) => {
            in_expr(uses, structs, a)?;
            in_expr(uses, structs, b)
        }
        Expr::Move(_, _, a, b) => {
            in_expr(uses, structs, a)?;
            in_expr(uses, structs, b)
        }
        Expr::MoveBy(_, a, b) => {
            in_expr(uses, structs, a)?;
            in_expr(uses, structs, b)
        }
        Expr::And(a, b) => {
            in_expr(uses, structs, a)?;
            in_expr(uses, structs, b)
        }
        Expr::Or(a, b) => {
            in_expr(uses, structs, a)?;
            in_expr(uses, structs, b)
        }
        Expr::Comma(a, b) => {
            in_expr(uses, structs, a)?;
            in_expr(uses, structs, b)
        }
        Expr::Calloc(_, a, b) => {
            in_expr(uses, structs, a)?;
            in_expr(uses, structs, b)
        }
        Expr::Choose(_, c, a, b) => {
            in_expr(uses, structs, c)?;
            in_expr(uses, structs, a)?;
            in_expr(uses, structs, b)
        }
        Expr::Assign(_, p, a) => {
            in_place(uses, structs, p)?;
            in_expr(uses, structs, a)
        }
        Expr::Update(_, _, _, _, p, a) => {
            in_place(uses, structs, p)?;
            in_expr(uses, structs, a)
        }
        Expr::Advance(_, _, _, p, a) => {
            in_place(uses, structs, p)?;
            in_expr(uses, structs, a)
        }
        Expr::Copy(n, p, q) => {
            copied(uses, structs, *n)?;
            in_place(uses, structs, p)?;
            in_place(uses, structs, q)
        }
        Expr::Call(n, _, es) => {
            called(uses, *n);
            in_exprs(uses, structs, es)
        }
        Expr::CallThrough(t, _, a, es) => {
            called_through(uses, t)?;
            in_expr(uses, structs, a)?;
            in_exprs(uses, structs, es)
        }
    }
}

/// What is evaluated after each iteration.
fn in_step(uses: &mut Uses, structs: &Structs, e: &Option<Expr>) -> Result<(), AllocError>
    ensures { OnOk result (Finds structs.now (words.in_step (step_of e.now)) (found uses.old) (found uses.new)) }
{
    match e {
        None => Ok(()),
        Some(e) => in_expr(uses, structs, e),
    }
}

#[cycle(using_statements)]
#[tactic(auto, using(crate::proofs::Using::finds_then))]
fn in_stmt(uses: &mut Uses, structs: &Structs, s: &Stmt) -> Result<(), AllocError>
    ensures { OnOk result (Finds structs.now (words.in_stmt (stmt_of s.now)) (found uses.old) (found uses.new)) }
{
    match s {
        Stmt::Nothing => Ok(()),
        Stmt::ReturnNothing => Ok(()),
        Stmt::Break => Ok(()),
        Stmt::Continue => Ok(()),
        Stmt::Perform(e) => in_expr(uses, structs, e),
        Stmt::Fill(p, _, _) => in_place(uses, structs, p),
        Stmt::If(c, a, b) => {
            in_expr(uses, structs, c)?;
            in_stmt(uses, structs, a)?;
            in_stmt(uses, structs, b)
        }
        Stmt::Loop(c, after, s) => {
            in_expr(uses, structs, c)?;
            in_step(uses, structs, after)?;
            in_stmt(uses, structs, s)
        }
        Stmt::DoWhile(s, c) => {
            in_stmt(uses, structs, s)?;
            in_expr(uses, structs, c)
        }
        Stmt::Switch(_, e, _, _, groups) => {
            in_expr(uses, structs, e)?;
            in_stmts(uses, structs, groups)
        }
        Stmt::Scope(_, ss) => in_stmts(uses, structs, ss),
        Stmt::Return(e) => in_expr(uses, structs, e),
    }
}

#[cycle(using_statements)]
fn in_stmts(uses: &mut Uses, structs: &Structs, ss: &[Stmt]) -> Result<(), AllocError>
    ensures { OnOk result (Finds structs.now (words.in_stmts (sequence (list_of ss.now))) (found uses.old) (found uses.new)) }
{
    for s in ss {
        in_stmt(uses, structs, s)?;
    }
    Ok(())
}
