//! Marking the variables that an `&` stands before (C11, 6.5.3.2), in one pass over a tree.

ghost use Rattle.std.specs.Prelude.{◌≡◌, ◌||◌, ℕ};
ghost use Rattle.c_typed.specs.Objects.{in_expr, in_exprs, in_place, in_stmt, in_stmts, is_of};
ghost use Rattle.c_typed.specs.Parts.{sequence};
ghost use Rattle.c_typed.specs.refinement.Views.{expr_of, list_of, place_of, sized_of, step_of, stmt_of};
ghost use Rattle.c_place.specs.refinement.Lists.{exprs_in};
ghost use Rattle.c_place.specs.refinement.Marks.{in_iteration, marked};

use crate::marks::Marks;
use c_typed::{Expr, Place, Sized, Stmt};

#[cycle(marking)]
fn place(marks: &mut Marks, p: &Place)
    ensures { marks.new ≡ marked (λ v. in_place v (place_of p.now)) marks.old }
{
    match p {
        Place::Of(_) => {}
        Place::Deref(e) => expr(marks, e),
        Place::Member(p, _, _) => place(marks, p),
    }
}

/// A place that an `&` stands before.
#[cycle(marking)]
fn address(marks: &mut Marks, p: &Place)
    ensures { marks.new ≡ marked (λ v. is_of v (place_of p.now) || in_place v (place_of p.now)) marks.old }
{
    match p {
        Place::Of(v) => marks.mark(*v),
        Place::Deref(e) => expr(marks, e),
        Place::Member(p, _, _) => place(marks, p),
    }
}

#[cycle(marking)]
fn exprs(marks: &mut Marks, es: &[Expr])
    ensures { marks.new ≡ marked (λ v. in_exprs v (exprs_in es.now)) marks.old }
{
    for e in es {
        expr(marks, e);
    }
}

/// The operand of a `sizeof`.
#[cycle(marking)]
fn sized(marks: &mut Marks, operand: &Sized)
    ensures { (n : ℕ) → marks.new ≡ marked (λ v. in_expr v (sized_of operand.now n)) marks.old }
{
    match operand {
        Sized::Place(p) => place(marks, p),
        Sized::Value(e) => expr(marks, e),
        Sized::Nothing => {}
    }
}

#[cycle(marking)]
fn expr(marks: &mut Marks, e: &Expr)
    ensures { marks.new ≡ marked (λ v. in_expr v (expr_of e.now)) marks.old }
{
    match e {
        Expr::Number(_, _) => {}
        Expr::Null => {}
        Expr::NoFunction => {}
        Expr::Function(_) => {}
        Expr::Literal(_) => {}
        Expr::Getchar => {}
        Expr::Abort => {}
        Expr::Read(_, p) => place(marks, p),
        Expr::Decay(_, _, p) => place(marks, p),
        Expr::Visit(p) => place(marks, p),
        Expr::Address(p) => address(marks, p),
        Expr::Convert(_, _, a) => expr(marks, a),
        Expr::Truth(_, a) => expr(marks, a),
        Expr::Not(a) => expr(marks, a),
        Expr::Unary(_, _, a) => expr(marks, a),
        Expr::Putchar(a) => expr(marks, a),
        Expr::Malloc(_, a) => expr(marks, a),
        Expr::Free(a) => expr(marks, a),
        Expr::Discard(a) => expr(marks, a),
        Expr::SizeOf(_, operand) => sized(marks, operand),
        Expr::Binary(_, _, a, b) => {
            expr(marks, a);
            expr(marks, b);
        }
        Expr::Compare(_, _, a, b) => {
            expr(marks, a);
            expr(marks, b);
        }
        Expr::ComparePointers(_, a, b) => {
            expr(marks, a);
            expr(marks, b);
        }
        Expr::SameFunction(_, a, b) => {
            expr(marks, a);
            expr(marks, b);
        }
        Expr::Difference(_, a, b) => {
            expr(marks, a);
            expr(marks, b);
        }
        Expr::Move(_, _, a, b) => {
            expr(marks, a);
            expr(marks, b);
        }
        Expr::MoveBy(_, a, b) => {
            expr(marks, a);
            expr(marks, b);
        }
        Expr::And(a, b) => {
            expr(marks, a);
            expr(marks, b);
        }
        Expr::Or(a, b) => {
            expr(marks, a);
            expr(marks, b);
        }
        Expr::Comma(a, b) => {
            expr(marks, a);
            expr(marks, b);
        }
        Expr::Calloc(_, a, b) => {
            expr(marks, a);
            expr(marks, b);
        }
        Expr::Choose(_, c, a, b) => {
            expr(marks, c);
            expr(marks, a);
            expr(marks, b);
        }
        Expr::Assign(_, p, a) => {
            place(marks, p);
            expr(marks, a);
        }
        Expr::Update(_, _, _, _, p, a) => {
            place(marks, p);
            expr(marks, a);
        }
        Expr::Advance(_, _, _, p, a) => {
            place(marks, p);
            expr(marks, a);
        }
        Expr::Copy(_, p, q) => {
            place(marks, p);
            place(marks, q);
        }
        Expr::Call(_, _, es) => exprs(marks, es),
        Expr::CallThrough(_, _, a, es) => {
            expr(marks, a);
            exprs(marks, es);
        }
    }
}

/// A statement.
#[cycle(statements)]
pub fn stmt(marks: &mut Marks, s: &Stmt)
    ensures { marks.new ≡ marked (λ v. in_stmt v (stmt_of s.now)) marks.old }
{
    match s {
        Stmt::Nothing => {}
        Stmt::ReturnNothing => {}
        Stmt::Break => {}
        Stmt::Continue => {}
        Stmt::Perform(e) => expr(marks, e),
        Stmt::Fill(p, _, _) => place(marks, p),
        Stmt::If(c, a, b) => {
            expr(marks, c);
            stmt(marks, a);
            stmt(marks, b);
        }
        Stmt::Loop(c, after, s) => {
            expr(marks, c);
            iteration(marks, after, s);
        }
        Stmt::DoWhile(s, c) => {
            stmt(marks, s);
            expr(marks, c);
        }
        Stmt::Switch(_, e, _, _, groups) => {
            expr(marks, e);
            stmts(marks, groups);
        }
        Stmt::Scope(_, ss) => stmts(marks, ss),
        Stmt::Return(e) => expr(marks, e),
    }
}

/// The body of a loop, and what is evaluated behind each iteration.
#[cycle(statements)]
fn iteration(marks: &mut Marks, after: &Option<Expr>, s: &Stmt)
    ensures { marks.new ≡ marked (λ v. in_iteration v (step_of after.now) (stmt_of s.now)) marks.old }
{
    match after {
        None => stmt(marks, s),
        Some(e) => {
            expr(marks, e);
            stmt(marks, s);
        }
    }
}

#[cycle(statements)]
fn stmts(marks: &mut Marks, ss: &[Stmt])
    ensures { marks.new ≡ marked (λ v. in_stmts v (sequence (list_of ss.now))) marks.old }
{
    for s in ss {
        stmt(marks, s);
    }
}
