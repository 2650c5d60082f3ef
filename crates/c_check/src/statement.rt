//! Statements (C11, 6.8) and the bodies of functions (6.9.1).

ghost use Rattle.std.specs.Prelude.{◌≡◌, IfOk};
ghost use Rattle.c_types.specs.Types.{type_of};
ghost use Rattle.c_typed.specs.refinement.Views.{boxed_step, stmt_of};
ghost use Rattle.c_tree.specs.Statements as tree;
ghost use Rattle.c_check_types.specs.refinement.Views.{Obeys, state_of};
ghost use Rattle.c_typed.specs.refinement.FormViews.{boxed_expr};
ghost use Rattle.c_typed.specs.Statements.{in_loop, in_switch, no_jumps};
ghost use Rattle.c_check.specs.Statements as words;
ghost use Rattle.c_check.specs.refinement.Views.{boxed_stmt, declaring_of, item_rule};

use crate::declaring::{Declaring, and_done, declaration_of, nothing_done, scope_of};
use crate::switch::{case_label, default_label, switch_of, switched_on};
use c_check_exprs::{performed, typed_as, typed_condition};
use c_check_types::{Checker, Stop};
use c_declare::{closed, opened};
use c_tree::{
    Block, Expr as Written, ForFirst, ForFirstNode, Item, Jump, Statement, StatementNode,
};
use c_typed::{
    Expr, Jumps, Stmt, boxed, do_while, if_else, loop_of, perform, return_value, while_loop,
};
use c_types::{CType, IntType};
use std::alloc::{AllocError, Global};

/// The test of a `for`; a missing one holds (C11, 6.8.5.3).
fn test_of<'a>(checker: &mut Checker<'a>, e: &'a Option<Written>) -> Result<Box<Expr>, Stop>
    ensures { Obeys boxed_expr (words.test_of e.now) (state_of checker.old) (state_of checker.new) result }
{
    match e {
        None => Ok(boxed(checker.alloc, Expr::Number(IntType::Int, 1))?),
        Some(e) => typed_condition(checker, e),
    }
}

/// The step of a `for`, if it has one.
fn step_of<'a>(checker: &mut Checker<'a>, e: &'a Option<Written>) -> Result<Option<Box<Expr>>, Stop>
    ensures { Obeys boxed_step (words.step_of e.now) (state_of checker.old) (state_of checker.new) result }
{
    match e {
        None => Ok(None),
        Some(e) => {
            let v = performed(checker, e)?;
            Ok(Some(v))
        }
    }
}

/// What stands first in a `for`.
fn first_of<'a>(
    checker: &mut Checker<'a>,
    first: &'a ForFirst,
    d: &mut Declaring,
) -> Result<(), Stop>
    ensures { Obeys (λ _. declaring_of d.new) (words.first_of first.now (declaring_of d.old)) (state_of checker.old) (state_of checker.new) result }
{
    match first.node() {
        ForFirstNode::Nothing => Ok(()),
        ForFirstNode::Expr(e) => {
            let v = performed(checker, e)?;
            let s = perform(checker.alloc, v)?;
            and_done(d, s)?;
            Ok(())
        }
        ForFirstNode::Declaration(s, xs) => declaration_of(checker, s.node(), xs, d),
    }
}

/// A loop behind what stands first in its `for`.
fn in_front_of_loop(
    alloc: Global,
    first: &ForFirst,
    d: Declaring,
    s: Box<Stmt>,
) -> Result<Box<Stmt>, AllocError>
    ensures { IfOk result (λ r. stmt_of r.value ≡ words.in_front_of_loop first.now (declaring_of d) (stmt_of s.value)) }
{
    match first.node() {
        ForFirstNode::Nothing => Ok(s),
        ForFirstNode::Expr(_) => scope_with(alloc, d, s),
        ForFirstNode::Declaration(_, _) => scope_with(alloc, d, s),
    }
}

/// A scope with one statement more.
fn scope_with(alloc: Global, d: Declaring, s: Box<Stmt>) -> Result<Box<Stmt>, AllocError>
    ensures { IfOk result (λ r. stmt_of r.value ≡ words.scope_of (words.and_done (declaring_of d) (stmt_of s.value))) }
{
    let mut d = d;
    and_done(&mut d, s)?;
    scope_of(alloc, d)
}

/// A result that is returned, converted as if by assignment (C11, 6.8.6.4).
fn returned<'a>(checker: &mut Checker<'a>, t: &CType, e: &'a Written) -> Result<Box<Stmt>, Stop>
    ensures { Obeys boxed_stmt (words.returned (type_of t.now) e.now) (state_of checker.old) (state_of checker.new) result }
{
    let v = typed_as(checker, e, t)?;
    Ok(return_value(checker.alloc, v)?)
}

/// Whether a type is void.
fn is_void(t: &CType) -> bool
    ensures { result ≡ words.is_void (type_of t.now) }
{
    match t {
        CType::Void => true,
        CType::Int(_) => false,
        CType::Struct(_) => false,
        CType::Pointer(_) => false,
        CType::Array(_, _) => false,
        CType::Function(_) => false,
    }
}

/// A return without a value, in a function with this result.
fn returned_nothing<'a>(checker: &Checker<'a>, t: &CType) -> Result<Box<Stmt>, Stop>
    ensures { Obeys boxed_stmt (words.returned_nothing (type_of t.now)) (state_of checker.now) (state_of checker.now) result }
{
    if !is_void(t) {
        return Err(Stop::NoTyping);
    }
    Ok(boxed(checker.alloc, Stmt::ReturnNothing)?)
}

/// A jump.
fn jump_of(j: Jump) -> Stmt
    ensures { stmt_of result ≡ words.jump_of j }
{
    match j {
        Jump::Break => Stmt::Break,
        Jump::Continue => Stmt::Continue,
    }
}

/// Whether a jump may stand there.
fn may_jump(x: Jump, j: Jumps) -> bool
    ensures { result ≡ words.may_jump x j }
{
    match x {
        Jump::Break => j.breaks,
        Jump::Continue => j.continues,
    }
}

/// A jump, where it may stand.
fn jumped<'a>(checker: &Checker<'a>, x: Jump, j: Jumps) -> Result<Box<Stmt>, Stop>
    ensures { Obeys boxed_stmt (words.jumped x j) (state_of checker.now) (state_of checker.now) result }
{
    if !may_jump(x, j) {
        return Err(Stop::NoTyping);
    }
    Ok(boxed(checker.alloc, jump_of(x))?)
}

/// The jumps that may stand in the body of a function.
pub fn no_jumps() -> Jumps
    ensures { result ≡ no_jumps }
{
    Jumps {
        breaks: false,
        continues: false,
    }
}

/// The jumps that may stand in a loop.
fn in_loop() -> Jumps
    ensures { result ≡ in_loop }
{
    Jumps {
        breaks: true,
        continues: true,
    }
}

/// The jumps that may stand in a switch.
fn in_switch(j: Jumps) -> Jumps
    ensures { result ≡ in_switch j }
{
    Jumps {
        breaks: true,
        continues: j.continues,
    }
}

/// A statement of a function with this result, by the jumps that may stand there.
#[cycle(statement)]
fn statement<'a>(
    checker: &mut Checker<'a>,
    s: &'a Statement,
    result_type: &CType,
    j: Jumps,
) -> Result<Box<Stmt>, Stop>
    ensures { Obeys boxed_stmt (words.statement s.now (type_of result_type.now) j) (state_of checker.old) (state_of checker.new) result }
{
    match s.node() {
        StatementNode::Block(is) => block(checker, is, result_type, j),
        StatementNode::Plain(e) => {
            let v = performed(checker, e)?;
            Ok(perform(checker.alloc, v)?)
        }
        StatementNode::Empty => Ok(boxed(checker.alloc, Stmt::Nothing)?),
        StatementNode::IfThen(c, a) => {
            let test = typed_condition(checker, c)?;
            let s = statement(checker, a, result_type, j)?;
            let nothing = boxed(checker.alloc, Stmt::Nothing)?;
            Ok(if_else(checker.alloc, test, s, nothing)?)
        }
        StatementNode::IfElse(c, a, b) => {
            let test = typed_condition(checker, c)?;
            let s = statement(checker, a, result_type, j)?;
            let t = statement(checker, b, result_type, j)?;
            Ok(if_else(checker.alloc, test, s, t)?)
        }
        StatementNode::While(c, a) => {
            let test = typed_condition(checker, c)?;
            let s = statement(checker, a, result_type, in_loop())?;
            Ok(while_loop(checker.alloc, test, s)?)
        }
        StatementNode::DoWhile(a, c) => {
            let s = statement(checker, a, result_type, in_loop())?;
            let test = typed_condition(checker, c)?;
            Ok(do_while(checker.alloc, s, test)?)
        }
        StatementNode::For(a, c, b, body) => for_loop(checker, a, c, b, body, result_type, j),
        StatementNode::Switch(e, is) => switch(checker, e, is, result_type, j),
        StatementNode::ReturnNone => returned_nothing(checker, result_type),
        StatementNode::ReturnValue(e) => returned(checker, result_type, e),
        StatementNode::Jump(x) => jumped(checker, *x, j),
    }
}

/// A block (C11, 6.8.2).
#[cycle(statement)]
fn block<'a>(
    checker: &mut Checker<'a>,
    is: &'a Block,
    result_type: &CType,
    j: Jumps,
) -> Result<Box<Stmt>, Stop>
    ensures { Obeys boxed_stmt (words.statement (tree.block is.now) (type_of result_type.now) j) (state_of checker.old) (state_of checker.new) result }
{
    opened(checker)?;
    let mut d = nothing_done(checker.alloc);
    items(checker, is, result_type, j, None, &mut d)?;
    closed(checker)?;
    Ok(scope_of(checker.alloc, d)?)
}

/// A `switch` (C11, 6.8.4.2).
#[cycle(statement)]
fn switch<'a>(
    checker: &mut Checker<'a>,
    e: &'a Written,
    is: &'a Block,
    result_type: &CType,
    j: Jumps,
) -> Result<Box<Stmt>, Stop>
    ensures { Obeys boxed_stmt (words.statement (tree.switch e.now is.now) (type_of result_type.now) j) (state_of checker.old) (state_of checker.new) result }
{
    let v = switched_on(checker, e)?;
    opened(checker)?;
    let mut d = nothing_done(checker.alloc);
    items(checker, is, result_type, in_switch(j), Some(v.1), &mut d)?;
    closed(checker)?;
    Ok(switch_of(checker.alloc, v, d)?)
}

/// A `for`, which is a block of its own (C11, 6.8.5.3).
#[cycle(statement)]
fn for_loop<'a>(
    checker: &mut Checker<'a>,
    a: &'a ForFirst,
    c: &'a Option<Written>,
    b: &'a Option<Written>,
    body: &'a Statement,
    result_type: &CType,
    j: Jumps,
) -> Result<Box<Stmt>, Stop>
    ensures { Obeys boxed_stmt (words.statement (tree.for_loop a.now c.now b.now body.now) (type_of result_type.now) j) (state_of checker.old) (state_of checker.new) result }
{
    opened(checker)?;
    let s = for_parts(checker, a, c, b, body, result_type)?;
    closed(checker)?;
    Ok(s)
}

/// A loop, behind what comes first.
#[cycle(statement)]
fn for_parts<'a>(
    checker: &mut Checker<'a>,
    a: &'a ForFirst,
    c: &'a Option<Written>,
    b: &'a Option<Written>,
    body: &'a Statement,
    result_type: &CType,
) -> Result<Box<Stmt>, Stop>
    ensures { Obeys boxed_stmt (words.for_parts a.now c.now b.now (words.statement body.now (type_of result_type.now) in_loop)) (state_of checker.old) (state_of checker.new) result }
{
    let mut d = nothing_done(checker.alloc);
    first_of(checker, a, &mut d)?;
    let test = test_of(checker, c)?;
    let step = step_of(checker, b)?;
    let s = statement(checker, body, result_type, in_loop())?;
    let s = loop_of(checker.alloc, test, step, s)?;
    Ok(in_front_of_loop(checker.alloc, a, d, s)?)
}

/// What stands in a block, behind what is done so far.
#[cycle(statement)]
pub fn items<'a>(
    checker: &mut Checker<'a>,
    is: &'a Block,
    result_type: &CType,
    j: Jumps,
    labels: Option<IntType>,
    so_far: &mut Declaring,
) -> Result<(), Stop>
    ensures { Obeys (λ _. declaring_of so_far.new) (words.items is.now (type_of result_type.now) j labels (declaring_of so_far.old)) (state_of checker.old) (state_of checker.new) result }
{
    for i in is.items() {
        match item(checker, i, result_type, j, labels, so_far) {
            Ok(()) => (),
            Err(e) => return Err(e),
        }
    }
    Ok(())
}

/// A statement, a declaration or a label in a block or a switch.
#[cycle(statement)]
fn item<'a>(
    checker: &mut Checker<'a>,
    i: &'a Item,
    result_type: &CType,
    j: Jumps,
    labels: Option<IntType>,
    so_far: &mut Declaring,
) -> Result<(), Stop>
    ensures { Obeys (λ _. declaring_of so_far.new) (item_rule i.now (type_of result_type.now) j labels (declaring_of so_far.old)) (state_of checker.old) (state_of checker.new) result }
{
    match i {
        Item::Statement(s) => {
            let t = statement(checker, s, result_type, j)?;
            and_done(so_far, t)?;
            Ok(())
        }
        Item::Declaration(s, xs) => declaration_of(checker, s.node(), xs, so_far),
        Item::Case(e) => case_label(checker, labels, e, so_far),
        Item::Default => default_label(checker, labels, so_far),
    }
}
