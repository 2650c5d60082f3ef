//! Typed statements, put together.

ghost use Rattle.std.specs.Prelude.{◌≡◌, ◌++◌, ◌∷◌, [], IfOk, OnOk};
ghost use Rattle.c_typed.specs.Tree as to;
ghost use Rattle.c_typed.specs.Parts as words;
ghost use Rattle.c_typed.specs.refinement.Views.{boxed_step, expr_of, list_of, path_place, place_of, stmt_of};

use crate::make::boxed;
use crate::path::{Path, place_at};
use crate::tree::{Case, Expr, Place, Stmt};
use c_types::{IntType, Scalar};
use std::alloc::{AllocError, Global};

/// An expression whose value is thrown away.
pub fn perform(alloc: Global, e: Box<Expr>) -> Result<Box<Stmt>, AllocError>
    ensures { IfOk result (λ s. stmt_of s.value ≡ to.perform (expr_of e.value)) }
{
    boxed(alloc, Stmt::Perform(Box::into_inner(e)))
}

/// A value that is written.
pub fn assign(
    alloc: Global,
    scalar: Scalar,
    path: &Path,
    value: Box<Expr>,
) -> Result<Box<Stmt>, AllocError>
    ensures { IfOk result (λ s. stmt_of s.value ≡ to.perform (to.assign scalar (path_place path.now) (expr_of value.value))) }
{
    let p = place_at(alloc, path)?;
    let e = boxed(alloc, Expr::Assign(scalar, p, value))?;
    perform(alloc, e)
}

/// A struct that is copied.
pub fn copy(alloc: Global, n: u32, path: &Path, from: Box<Place>) -> Result<Box<Stmt>, AllocError>
    ensures { IfOk result (λ s. stmt_of s.value ≡ to.perform (to.copy n (path_place path.now) (place_of from.value))) }
{
    let p = place_at(alloc, path)?;
    let e = boxed(alloc, Expr::Copy(n, p, from))?;
    perform(alloc, e)
}

/// The bytes of a string that are written into an array of so many char.
pub fn fill(alloc: Global, path: &Path, count: u32, bytes: &[u8]) -> Result<Box<Stmt>, AllocError>
    ensures { IfOk result (λ s. stmt_of s.value ≡ to.fill (path_place path.now) count bytes.now) }
{
    let mut kept = Vec::new(alloc);
    kept.extend_from_slice(bytes)?;
    let p = place_at(alloc, path)?;
    boxed(alloc, Stmt::Fill(Box::into_inner(p), count, kept))
}

/// One statement more.
pub fn add(done: &mut Vec<Stmt>, s: Box<Stmt>) -> Result<(), AllocError>
    ensures { OnOk result (list_of done.new.items ≡ list_of done.old.items ++ stmt_of s.value ∷ []) }
{
    done.push(Box::into_inner(s))?;
    Ok(())
}

/// A choice between two statements.
pub fn if_else(
    alloc: Global,
    test: Box<Expr>,
    a: Box<Stmt>,
    b: Box<Stmt>,
) -> Result<Box<Stmt>, AllocError>
    ensures { IfOk result (λ s. stmt_of s.value ≡ to.if_else (expr_of test.value) (stmt_of a.value) (stmt_of b.value)) }
{
    boxed(alloc, Stmt::If(Box::into_inner(test), a, b))
}

/// A loop without a step.
pub fn while_loop(alloc: Global, test: Box<Expr>, body: Box<Stmt>) -> Result<Box<Stmt>, AllocError>
    ensures { IfOk result (λ s. stmt_of s.value ≡ to.loop (expr_of test.value) None (stmt_of body.value)) }
{
    boxed(alloc, Stmt::Loop(Box::into_inner(test), None, body))
}

/// A loop.
pub fn loop_of(
    alloc: Global,
    test: Box<Expr>,
    step: Option<Box<Expr>>,
    body: Box<Stmt>,
) -> Result<Box<Stmt>, AllocError>
    ensures { IfOk result (λ s. stmt_of s.value ≡ to.loop (expr_of test.value) (boxed_step step) (stmt_of body.value)) }
{
    match step {
        None => while_loop(alloc, test, body),
        Some(step) => boxed(
            alloc,
            Stmt::Loop(Box::into_inner(test), Some(Box::into_inner(step)), body),
        ),
    }
}

/// A loop whose condition is evaluated after each iteration.
pub fn do_while(alloc: Global, body: Box<Stmt>, test: Box<Expr>) -> Result<Box<Stmt>, AllocError>
    ensures { IfOk result (λ s. stmt_of s.value ≡ to.do_while (stmt_of body.value) (expr_of test.value)) }
{
    boxed(alloc, Stmt::DoWhile(body, Box::into_inner(test)))
}

/// A `switch` on an integer of this type.
pub fn switch(
    alloc: Global,
    t: IntType,
    e: Box<Expr>,
    slots: Vec<u32>,
    cases: Vec<Case>,
    groups: Vec<Stmt>,
) -> Result<Box<Stmt>, AllocError>
    ensures { IfOk result (λ s. stmt_of s.value ≡ to.switch t (expr_of e.value) slots.items cases.items (words.sequence (list_of groups.items))) }
{
    switch_on(alloc, t, Box::into_inner(e), slots, cases, groups)
}

/// A `switch` on an integer of this type.
fn switch_on(
    alloc: Global,
    t: IntType,
    e: Expr,
    slots: Vec<u32>,
    cases: Vec<Case>,
    groups: Vec<Stmt>,
) -> Result<Box<Stmt>, AllocError>
    ensures { IfOk result (λ s. stmt_of s.value ≡ to.switch t (expr_of e) slots.items cases.items (words.sequence (list_of groups.items))) }
{
    let s = boxed(alloc, Stmt::Switch(t, e, slots, cases, groups))?;
    Ok(s)
}

/// A result that is returned.
pub fn return_value(alloc: Global, e: Box<Expr>) -> Result<Box<Stmt>, AllocError>
    ensures { IfOk result (λ s. stmt_of s.value ≡ to.return (expr_of e.value)) }
{
    boxed(alloc, Stmt::Return(Box::into_inner(e)))
}

/// What is declared in a scope, and what is done there.
pub fn scope(alloc: Global, slots: Vec<u32>, done: Vec<Stmt>) -> Result<Box<Stmt>, AllocError>
    ensures { IfOk result (λ s. stmt_of s.value ≡ to.scope slots.items (words.sequence (list_of done.items))) }
{
    let s = boxed(alloc, Stmt::Scope(slots, done))?;
    Ok(s)
}
