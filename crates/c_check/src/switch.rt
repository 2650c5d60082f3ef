//! The labels of a switch (C11, 6.8.1 and 6.8.4.2).

ghost use Rattle.std.specs.Prelude.{◌≡◌, ◌∷◌, ◌++◌, IfOk, OnOk};
ghost use Rattle.c_types.specs.Types.{type_of};
ghost use Rattle.c_typed.specs.refinement.FormViews.{integer_pair};
ghost use Rattle.c_typed.specs.refinement.Views.{list_of, stmt_of};
ghost use Rattle.c_check_types.specs.refinement.Views.{Obeys, state_of};
ghost use Rattle.c_check_exprs.specs.Expressions.{typing};
ghost use Rattle.c_check.specs.Statements as words;
ghost use Rattle.c_check.specs.refinement.Views.{declaring_of};

use crate::declaring::Declaring;
use c_check_exprs::typed_integer;
use c_check_types::{Checker, Stop, value_at};
use c_tree::Expr as Written;
use c_typed::{Case, Expr, Stmt, add, promoted_value, scope, switch};
use c_types::IntType;
use std::alloc::{AllocError, Global};
use std::mem;

/// Whether there are no statements.
fn is_nothing(done: &[Stmt]) -> bool
    ensures { result ≡ words.is_nothing (list_of done.now) }
{
    match done {
        [] => true,
        [_, ..] => false,
    }
}

/// The statements behind the last label, if there are any, as a group of their own.
fn with_group(alloc: Global, groups: &mut Vec<Stmt>, done: Vec<Stmt>) -> Result<(), AllocError>
    ensures { OnOk result (list_of groups.new.items ≡ words.with_group (list_of groups.old.items) (list_of done.items)) }
{
    let _groups = &groups;
    if is_nothing(done.as_slice()) {
        return Ok(());
    }
    let s = scope(alloc, Vec::new(alloc), done)?;
    add(groups, s)
}

/// A label behind what is done so far.
fn with_case(alloc: Global, d: &mut Declaring, label: Option<u64>) -> Result<(), AllocError>
    ensures { OnOk result (declaring_of d.new ≡ words.with_case (declaring_of d.old) label) }
{
    let done = mem::replace(&mut d.done, Vec::new(alloc));
    with_group(alloc, &mut d.groups, done)?;
    let Ok(group) = u32::try_from(d.groups.len()) else {
        return Err(AllocError);
    };
    d.cases.push(Case { label, group })?;
    Ok(())
}

/// A `case` of this number, which no other one has.
fn labelled<'a>(checker: &Checker<'a>, n: u64, d: &mut Declaring) -> Result<(), Stop>
    ensures { Obeys (λ _. declaring_of d.new) (words.labelled n (declaring_of d.old)) (state_of checker.now) (state_of checker.now) result }
{
    if d.labels.contains(n) {
        return Err(Stop::NoTyping);
    }
    d.labels.add(n)?;
    with_case(checker.alloc, d, Some(n))?;
    Ok(())
}

/// A `default`, the only one.
fn defaulted<'a>(checker: &Checker<'a>, d: &mut Declaring) -> Result<(), Stop>
    ensures { Obeys (λ _. declaring_of d.new) (words.defaulted (declaring_of d.old)) (state_of checker.now) (state_of checker.now) result }
{
    if d.has_default {
        return Err(Stop::NoTyping);
    }
    d.has_default = true;
    with_case(checker.alloc, d, None)?;
    Ok(())
}

/// A `case`, which stands in the braces of a switch alone.
pub fn case_label<'a>(
    checker: &mut Checker<'a>,
    labels: Option<IntType>,
    e: &'a Written,
    d: &mut Declaring,
) -> Result<(), Stop>
    ensures { Obeys (λ _. declaring_of d.new) (words.case_label labels e.now (declaring_of d.old)) (state_of checker.old) (state_of checker.new) result }
{
    let Some(t) = labels else {
        return Err(Stop::NoTyping);
    };
    let c = checker.constant(e)?;
    let Some(n) = value_at(t, c) else {
        return Err(Stop::NoTyping);
    };
    labelled(checker, n, d)
}

/// A `default`, which stands in the braces of a switch alone.
pub fn default_label<'a>(
    checker: &Checker<'a>,
    labels: Option<IntType>,
    d: &mut Declaring,
) -> Result<(), Stop>
    ensures { Obeys (λ _. declaring_of d.new) (words.default_label labels (declaring_of d.old)) (state_of checker.now) (state_of checker.now) result }
{
    match labels {
        Some(_) => defaulted(checker, d),
        None => Err(Stop::NoTyping),
    }
}

/// The operand of a switch, promoted.
pub fn switched_on<'a>(
    checker: &mut Checker<'a>,
    e: &'a Written,
) -> Result<(Box<Expr>, IntType), Stop>
    ensures { Obeys integer_pair (words.switched_on (typing e.now)) (state_of checker.old) (state_of checker.new) result }
{
    let v = typed_integer(checker, e)?;
    let t = v.1.promoted();
    let e = promoted_value(checker.alloc, v)?;
    Ok((e, t))
}

/// The switch on an operand.
pub fn switch_of(
    alloc: Global,
    v: (Box<Expr>, IntType),
    d: Declaring,
) -> Result<Box<Stmt>, AllocError>
    ensures { IfOk result (λ s. stmt_of s.value ≡ words.switch_of (integer_pair v) (declaring_of d)) }
{
    let (e, t) = v;
    let mut groups = d.groups;
    with_group(alloc, &mut groups, d.done)?;
    switch(alloc, t, e, d.slots, d.cases, groups)
}
