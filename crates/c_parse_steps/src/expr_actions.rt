//! The words that go on behind an expression.

ghost use Rattle.std.specs.Prelude.{◌≡◌};
ghost use Rattle.c_parse_steps.specs.refinement.Calls.{Acted};
ghost use Rattle.c_productions.specs.refinement.Table.{access_name, are_no_args, next_argument, level_at, on_mark, postfix, tail, takes_type, action, type_in_parens};

use crate::acting::Outcome;
use c_productions::{
    Kind, Production, Terminal, Value, access_at, infix_at, is_specifier, step_at,
};
use c_token::{Mark, Word};
use c_tree::{Access, Args, Expr, ExprNode};
use std::alloc::{AllocError, Global};

/// The level of choices.
const CHOICE: u8 = 2;

/// The level of casts.
const CAST: u8 = 13;

/// The level of postfix expressions.
const POSTFIX: u8 = 15;

/// The least level of an expression of this kind.
fn level_at(kind: Kind) -> u8
    ensures { result ≡ level_at kind }
{
    match kind {
        Kind::Expr(level) => level,
        _ => 14,
    }
}

/// What goes on behind a postfix expression.
fn postfix(alloc: Global, e: Expr, mark: Mark) -> Result<Outcome, AllocError>
    ensures { Acted (postfix e mark) (Value.Expr e) result }
{
    if let Some(op) = step_at(mark) {
        let whole = Expr::new(alloc, ExprNode::After(op, e))?;
        return Ok(Outcome::Joined(Value::Expr(whole)));
    }
    if let Some(op) = access_at(mark) {
        return Ok(Outcome::Joined(Value::Access(op, e)));
    }
    if Terminal::OpenBracket.is_mark(mark) {
        return Ok(Outcome::Opens(Production::Index, Value::Expr(e)));
    }
    if Terminal::OpenParen.is_mark(mark) {
        return Ok(Outcome::Joined(Value::Call(e, Args::new(alloc))));
    }
    Ok(Outcome::Stuck(Value::Expr(e)))
}

/// What goes on behind an expression, at a mark.
fn tail_mark(alloc: Global, level: u8, e: Expr, mark: Mark) -> Result<Outcome, AllocError>
    ensures { Acted (tail level e mark) (Value.Expr e) result }
{
    if let Some(op) = infix_at(mark) {
        if level <= op.makes() && op.left() <= e.level() {
            return Ok(Outcome::Opens(Production::Between(op), Value::Expr(e)));
        }
        return Ok(Outcome::Stuck(Value::Expr(e)));
    }
    if Terminal::Question.is_mark(mark) {
        if level <= CHOICE && 3 <= e.level() {
            return Ok(Outcome::Opens(Production::Choice, Value::Expr(e)));
        }
        return Ok(Outcome::Stuck(Value::Expr(e)));
    }
    if POSTFIX <= e.level() {
        return postfix(alloc, e, mark);
    }
    Ok(Outcome::Stuck(Value::Expr(e)))
}

/// What goes on behind an expression.
pub fn tail(alloc: Global, kind: Kind, e: Expr, word: &Word) -> Result<Outcome, AllocError>
    ensures { Acted (action kind (Value.Expr e) word.now) (Value.Expr e) result }
{
    match word {
        Word::Mark(mark) => tail_mark(alloc, level_at(kind), e, *mark),
        _ => Ok(Outcome::Stuck(Value::Expr(e))),
    }
}

/// Whether the name of a type in parentheses may stand there by itself.
fn takes_type(kind: Kind) -> bool
    ensures { result ≡ takes_type kind }
{
    matches!(kind, Kind::SizeofOperand)
}

/// What goes on behind an opening parenthesis where an expression is wanted.
pub fn paren_action(kind: Kind, word: &Word) -> Result<Outcome, AllocError>
    ensures { Acted (action kind Value.Paren word.now) Value.Paren result }
{
    if !is_specifier(word) {
        return Ok(Outcome::Begins(Production::Parenthesised, Value::Paren));
    }
    if takes_type(kind) {
        return Ok(Outcome::Begins(Production::TypeName, Value::Paren));
    }
    if level_at(kind) <= CAST {
        return Ok(Outcome::Begins(Production::Cast, Value::Paren));
    }
    Ok(Outcome::Stuck(Value::Paren))
}

/// Whether there are no arguments.
#[tactic(auto, using(crate::proofs::Empty::no_args))]
fn are_no_args(args: &Args) -> bool
    ensures { result ≡ are_no_args args.now }
{
    args.items().is_empty()
}

/// What goes on behind a call's arguments.
pub fn call_action(
    alloc: Global,
    callee: Expr,
    args: Args,
    word: &Word,
) -> Result<Outcome, AllocError>
    ensures { Acted (action Kind.Statement (Value.Call callee args) word.now) (Value.Call callee args) result }
{
    if Terminal::CloseParen.is(word) {
        let whole = Expr::new(alloc, ExprNode::Call(callee, args))?;
        return Ok(Outcome::Joined(Value::Expr(whole)));
    }
    if are_no_args(&args) {
        return Ok(Outcome::Begins(Production::Argument, Value::Call(callee, args)));
    }
    if Terminal::Comma.is(word) {
        return Ok(Outcome::Opens(Production::Argument, Value::Call(callee, args)));
    }
    Ok(Outcome::Stuck(Value::Call(callee, args)))
}

/// The name behind `.` or `->`.
pub fn access_name(alloc: Global, op: Access, e: Expr, word: &Word) -> Result<Outcome, AllocError>
    ensures { Acted (access_name op e word.now) (Value.Access op e) result }
{
    match word {
        Word::Name(name) => {
            let name = name.copy(alloc)?;
            let whole = Expr::new(alloc, ExprNode::Member(op, e, name))?;
            Ok(Outcome::Joined(Value::Expr(whole)))
        }
        _ => Ok(Outcome::Stuck(Value::Access(op, e))),
    }
}
