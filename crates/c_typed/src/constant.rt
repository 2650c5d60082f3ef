//! What variables at file scope may be given: constants (C11, 6.7.9, paragraph 4).

ghost use Rattle.std.specs.Prelude.{◌≡◌};
ghost use Rattle.c_typed.specs.Constants as words;
ghost use Rattle.c_typed.specs.refinement.Views.{expr_of, list_of, place_of, stmt_of};

use crate::ops::Variable;
use crate::tree::{Expr, Place, Stmt};

#[tactic(auto, using(crate::proofs::Constants::no_number))]
fn is_number(e: &Expr) -> bool
    ensures { result ≡ words.is_number (expr_of e.now) }
{
    match e {
        Expr::Number(_, _) => true,
        Expr::Null
        | Expr::NoFunction
        | Expr::Function(_)
        | Expr::Literal(_)
        | Expr::Read(_, _)
        | Expr::Decay(_, _, _)
        | Expr::Address(_)
        | Expr::Convert(_, _, _)
        | Expr::Truth(_, _)
        | Expr::Not(_)
        | Expr::Unary(_, _, _)
        | Expr::Binary(_, _, _, _)
        | Expr::Compare(_, _, _, _)
        | Expr::ComparePointers(_, _, _)
        | Expr::SameFunction(_, _, _)
        | Expr::Difference(_, _, _)
        | Expr::Move(_, _, _, _)
        | Expr::MoveBy(_, _, _)
        | Expr::And(_, _)
        | Expr::Or(_, _)
        | Expr::Choose(_, _, _, _)
        | Expr::Comma(_, _)
        | Expr::Assign(_, _, _)
        | Expr::Update(_, _, _, _, _, _)
        | Expr::Advance(_, _, _, _, _)
        | Expr::Copy(_, _, _)
        | Expr::Call(_, _, _)
        | Expr::CallThrough(_, _, _, _)
        | Expr::Putchar(_)
        | Expr::Getchar
        | Expr::Abort
        | Expr::Malloc(_, _)
        | Expr::Calloc(_, _, _)
        | Expr::Free(_)
        | Expr::Discard(_)
        | Expr::Visit(_)
        | Expr::SizeOf(_, _) => false,
    }
}

/// Whether it is a variable at file scope, or a part of it.
#[cycle(constant)]
fn is_part(p: &Place) -> bool
    ensures { result ≡ words.is_part (place_of p.now) }
{
    match p {
        Place::Of(Variable::Global(_)) => true,
        Place::Of(Variable::Local(_)) => false,
        Place::Deref(e) => is_way(e),
        Place::Member(p, _, _) => is_part(p),
    }
}

/// Whether it is the pointer to an element of an array that is such a part.
#[cycle(constant)]
#[tactic(auto, using(crate::proofs::Constants::no_way))]
fn is_way(e: &Expr) -> bool
    ensures { result ≡ words.is_way (expr_of e.now) }
{
    match e {
        Expr::Decay(_, _, p) => is_part(p),
        Expr::Move(_, _, a, b) => is_way(a) && is_number(b),
        Expr::Number(_, _)
        | Expr::Null
        | Expr::NoFunction
        | Expr::Function(_)
        | Expr::Literal(_)
        | Expr::Read(_, _)
        | Expr::Address(_)
        | Expr::Convert(_, _, _)
        | Expr::Truth(_, _)
        | Expr::Not(_)
        | Expr::Unary(_, _, _)
        | Expr::Binary(_, _, _, _)
        | Expr::Compare(_, _, _, _)
        | Expr::ComparePointers(_, _, _)
        | Expr::SameFunction(_, _, _)
        | Expr::Difference(_, _, _)
        | Expr::MoveBy(_, _, _)
        | Expr::And(_, _)
        | Expr::Or(_, _)
        | Expr::Choose(_, _, _, _)
        | Expr::Comma(_, _)
        | Expr::Assign(_, _, _)
        | Expr::Update(_, _, _, _, _, _)
        | Expr::Advance(_, _, _, _, _)
        | Expr::Copy(_, _, _)
        | Expr::Call(_, _, _)
        | Expr::CallThrough(_, _, _, _)
        | Expr::Putchar(_)
        | Expr::Getchar
        | Expr::Abort
        | Expr::Malloc(_, _)
        | Expr::Calloc(_, _, _)
        | Expr::Free(_)
        | Expr::Discard(_)
        | Expr::Visit(_)
        | Expr::SizeOf(_, _) => false,
    }
}

/// Whether it is a number, a null pointer, or an address (C11, 6.6).
#[tactic(auto, using(crate::proofs::Constants::no_constant))]
fn is_constant(e: &Expr) -> bool
    ensures { result ≡ words.is_constant (expr_of e.now) }
{
    match e {
        Expr::Number(_, _) | Expr::Null | Expr::NoFunction | Expr::Function(_) | Expr::Literal(_) =>
            true,
        Expr::Address(p) => is_part(p),
        Expr::Decay(_, _, _) | Expr::Move(_, _, _, _) => is_way(e),
        Expr::Read(_, _)
        | Expr::Convert(_, _, _)
        | Expr::Truth(_, _)
        | Expr::Not(_)
        | Expr::Unary(_, _, _)
        | Expr::Binary(_, _, _, _)
        | Expr::Compare(_, _, _, _)
        | Expr::ComparePointers(_, _, _)
        | Expr::SameFunction(_, _, _)
        | Expr::Difference(_, _, _)
        | Expr::MoveBy(_, _, _)
        | Expr::And(_, _)
        | Expr::Or(_, _)
        | Expr::Choose(_, _, _, _)
        | Expr::Comma(_, _)
        | Expr::Assign(_, _, _)
        | Expr::Update(_, _, _, _, _, _)
        | Expr::Advance(_, _, _, _, _)
        | Expr::Copy(_, _, _)
        | Expr::Call(_, _, _)
        | Expr::CallThrough(_, _, _, _)
        | Expr::Putchar(_)
        | Expr::Getchar
        | Expr::Abort
        | Expr::Malloc(_, _)
        | Expr::Calloc(_, _, _)
        | Expr::Free(_)
        | Expr::Discard(_)
        | Expr::Visit(_)
        | Expr::SizeOf(_, _) => false,
    }
}

/// Whether it is an assignment of a constant.
#[tactic(auto, using(crate::proofs::Constants::no_assignment))]
fn assigns_constant(e: &Expr) -> bool
    ensures { result ≡ words.assigns_constant (expr_of e.now) }
{
    match e {
        Expr::Assign(_, p, e) => is_part(p) && is_constant(e),
        Expr::Number(_, _)
        | Expr::Null
        | Expr::NoFunction
        | Expr::Function(_)
        | Expr::Literal(_)
        | Expr::Read(_, _)
        | Expr::Decay(_, _, _)
        | Expr::Address(_)
        | Expr::Convert(_, _, _)
        | Expr::Truth(_, _)
        | Expr::Not(_)
        | Expr::Unary(_, _, _)
        | Expr::Binary(_, _, _, _)
        | Expr::Compare(_, _, _, _)
        | Expr::ComparePointers(_, _, _)
        | Expr::SameFunction(_, _, _)
        | Expr::Difference(_, _, _)
        | Expr::Move(_, _, _, _)
        | Expr::MoveBy(_, _, _)
        | Expr::And(_, _)
        | Expr::Or(_, _)
        | Expr::Choose(_, _, _, _)
        | Expr::Comma(_, _)
        | Expr::Update(_, _, _, _, _, _)
        | Expr::Advance(_, _, _, _, _)
        | Expr::Copy(_, _, _)
        | Expr::Call(_, _, _)
        | Expr::CallThrough(_, _, _, _)
        | Expr::Putchar(_)
        | Expr::Getchar
        | Expr::Abort
        | Expr::Malloc(_, _)
        | Expr::Calloc(_, _, _)
        | Expr::Free(_)
        | Expr::Discard(_)
        | Expr::Visit(_)
        | Expr::SizeOf(_, _) => false,
    }
}

/// Whether it is that, or gives a string's bytes.
fn gives_constant(s: &Stmt) -> bool
    ensures { result ≡ words.gives_constant (stmt_of s.now) }
{
    match s {
        Stmt::Perform(e) => assigns_constant(e),
        Stmt::Fill(p, _, _) => is_part(p),
        Stmt::Nothing
        | Stmt::If(_, _, _)
        | Stmt::Loop(_, _, _)
        | Stmt::DoWhile(_, _)
        | Stmt::Switch(_, _, _, _, _)
        | Stmt::Scope(_, _)
        | Stmt::Return(_)
        | Stmt::ReturnNothing
        | Stmt::Break
        | Stmt::Continue => false,
    }
}

/// Whether each gives a constant to a variable at file scope or to a part of one.
pub fn give_constants(values: &[Stmt]) -> bool
    ensures { result ≡ words.give_constants (list_of values.now) }
{
    for s in values {
        if !gives_constant(s) {
            return false;
        }
    }
    true
}
