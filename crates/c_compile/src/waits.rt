//! How many values wait at once: functions that are called through pointers, while their arguments are evaluated, and groups with
//! which switches go on.

ghost use Rattle.std.specs.Prelude.{◌≡◌, ◌+◌, List, ◌∷◌, map, max, IfOk};
ghost use Rattle.c_typed.specs.Parts.{sequence};
ghost use Rattle.c_typed.specs.Tree as tree;
ghost use Rattle.c_typed.specs.Tree.{Typed};
ghost use Rattle.c_typed.specs.refinement.Views.{expr_of, list_of, made_of, place_of, step_of, stmt_of};
ghost use Rattle.c_code.specs.Modules.{waits_made};
ghost use Rattle.c_code.specs.Uses as words;
ghost use Rattle.c_place.specs.refinement.Lists.{exprs_in};

use c_typed::{Expr, Made, Place, Stmt};
use std::alloc::AllocError;

fn greater(a: u32, b: u32) -> u32
    ensures { result ≡ max a b }
{
    if a < b { b } else { a }
}

/// One more.
fn more(n: u32) -> Result<u32, AllocError>
    ensures { IfOk result (λ k. k ≡ n + 1) }
{
    match n.checked_add(1) {
        Some(k) => Ok(k),
        None => Err(AllocError),
    }
}

#[cycle(waiting)]
fn of_place(p: &Place) -> Result<u32, AllocError>
    ensures { IfOk result (λ n. n ≡ words.waits_place (place_of p.now)) }
{
    match p {
        Place::Of(_) => Ok(0),
        Place::Deref(e) => of_expr(e),
        Place::Member(p, _, _) => of_place(p),
    }
}

#[cycle(waiting)]
fn of_expr(e: &Expr) -> Result<u32, AllocError>
    ensures { IfOk result (λ n. n ≡ words.waits (expr_of e.now)) }
{
    match e {
        Expr::Number(_, _) => Ok(0),
        Expr::Null => Ok(0),
        Expr::NoFunction => Ok(0),
        Expr::Function(_) => Ok(0),
        Expr::Literal(_) => Ok(0),
        Expr::Getchar => Ok(0),
        Expr::Abort => Ok(0),
        Expr::SizeOf(_, _) => Ok(0),
        Expr::Read(_, p) => of_place(p),
        Expr::Decay(_, _, p) => of_place(p),
        Expr::Visit(p) => of_place(p),
        Expr::Address(p) => of_place(p),
        Expr::Convert(_, _, a) => of_expr(a),
        Expr::Truth(_, a) => of_expr(a),
        Expr::Not(a) => of_expr(a),
        Expr::Unary(_, _, a) => of_expr(a),
        Expr::Putchar(a) => of_expr(a),
        Expr::Malloc(_, a) => of_expr(a),
        Expr::Free(a) => of_expr(a),
        Expr::Discard(a) => of_expr(a),
        Expr::Binary(_, _, a, b) => Ok(greater(of_expr(a)?, of_expr(b)?)),
        Expr::Compare(_, _, a, b) => Ok(greater(of_expr(a)?, of_expr(b)?)),
        Expr::ComparePointers(_, a, b) => Ok(greater(of_expr(a)?, of_expr(b)?)),
        Expr::SameFunction(_, a, b) => Ok(greater(of_expr(a)?, of_expr(b)?)),
        Expr::Difference(_, a, b) => Ok(greater(of_expr(a)?, of_expr(b)?)),
        Expr::Move(_, _, a, b) => Ok(greater(of_expr(a)?, of_expr(b)?)),
        Expr::MoveBy(_, a, b) => Ok(greater(of_expr(a)?, of_expr(b)?)),
        Expr::And(a, b) => Ok(greater(of_expr(a)?, of_expr(b)?)),
        Expr::Or(a, b) => Ok(greater(of_expr(a)?, of_expr(b)?)),
        Expr::Comma(a, b) => Ok(greater(of_expr(a)?, of_expr(b)?)),
        Expr::Calloc(_, a, b) => Ok(greater(of_expr(a)?, of_expr(b)?)),
        Expr::Choose(_, c, a, b) => Ok(greater(of_expr(c)?, greater(of_expr(a)?, of_expr(b)?))),
        Expr::Assign(_, p, a) => Ok(greater(of_place(p)?, of_expr(a)?)),
        Expr::Update(_, _, _, _, p, a) => Ok(greater(of_place(p)?, of_expr(a)?)),
        Expr::Advance(_, _, _, p, a) => Ok(greater(of_place(p)?, of_expr(a)?)),
        Expr::Copy(_, p, q) => Ok(greater(of_place(p)?, of_place(q)?)),
        Expr::Call(_, _, es) => of_exprs(es),
        Expr::CallThrough(_, _, a, es) => Ok(greater(of_expr(a)?, more(of_exprs(es)?)?)),
    }
}

#[cycle(waiting)]
fn of_exprs(es: &[Expr]) -> Result<u32, AllocError>
    ensures { IfOk result (λ n. n ≡ words.waits_all (exprs_in es.now)) }
{
    let mut most = 0;
    for e in es {
        most = greater(most, of_expr(e)?);
    }
    Ok(most)
}

/// In a statement.
#[cycle(waiting_statements)]
pub fn waits_stmt(s: &Stmt) -> Result<u32, AllocError>
    ensures { IfOk result (λ n. n ≡ words.waits_stmt (stmt_of s.now)) }
{
    match s {
        Stmt::Nothing => Ok(0),
        Stmt::ReturnNothing => Ok(0),
        Stmt::Break => Ok(0),
        Stmt::Continue => Ok(0),
        Stmt::Perform(e) => of_expr(e),
        Stmt::Fill(p, _, _) => of_place(p),
        Stmt::If(c, a, b) => Ok(greater(of_expr(c)?, greater(waits_stmt(a)?, waits_stmt(b)?))),
        Stmt::Loop(c, after, s) => Ok(greater(
            of_expr(c)?,
            greater(of_step(after)?, waits_stmt(s)?),
        )),
        Stmt::DoWhile(s, c) => Ok(greater(waits_stmt(s)?, of_expr(c)?)),
        Stmt::Switch(_, e, _, _, groups) => Ok(greater(of_expr(e)?, more(waits_stmts(groups)?)?)),
        Stmt::Scope(_, ss) => waits_stmts(ss),
        Stmt::Return(e) => of_expr(e),
    }
}

fn of_step(e: &Option<Expr>) -> Result<u32, AllocError>
    ensures { IfOk result (λ n. n ≡ words.waits_step (step_of e.now)) }
{
    match e {
        None => Ok(0),
        Some(e) => of_expr(e),
    }
}

#[cycle(waiting_statements)]
fn waits_stmts(ss: &[Stmt]) -> Result<u32, AllocError>
    ensures { IfOk result (λ n. n ≡ words.waits_stmts (sequence (list_of ss.now))) }
{
    let mut most = 0;
    for s in ss {
        most = greater(most, waits_stmt(s)?);
    }
    Ok(most)
}

/// In what is made before `main`.
pub fn waits_made(made: &[Made]) -> Result<u32, AllocError>
    ensures { (u : Typed) → IfOk result (λ n. n ≡ waits_made u (map made_of made.now)) }
{
    let mut most = 0;
    for m in made {
        most = greater(most, waits_one(m)?);
    }
    Ok(most)
}

fn waits_one(m: &Made) -> Result<u32, AllocError>
    ensures { (u : Typed) → (ms : List tree.Made) → IfOk result (λ n. max n (waits_made u ms) ≡ waits_made u (made_of m.now ∷ ms)) }
{
    match m {
        Made::Global(_, ss) => waits_stmts(ss),
        Made::Literal(_) => Ok(0),
    }
}
