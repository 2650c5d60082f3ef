//! The words that go on in statements and in structures.

ghost use Rattle.std.specs.Prelude.{◌≡◌, IfOk, Ok, true};
ghost use Rattle.c_parse_steps.specs.refinement.Calls.{Acted};
ghost use Rattle.c_productions.specs.refinement.Table.{action, are_no, items_end, items_tail, member_tail, members_end, members_tail, statement_item, takes_labels};

use crate::acting::Outcome;
use c_productions::{
    Holder, Kind, Production, Terminal, Value, is_case, is_default, is_else, is_specifier,
};
use c_token::{Bytes, Word};
use c_tree::{
    Block, Declarators, Expr, ExternalForm, Jump, MemberHead, Members, OuterSpecifier, Piece,
    Statement, StatementNode,
};
use std::alloc::{AllocError, Global};

/// What goes on behind the first statement of an `if` (C11, 6.8.4).
pub fn if_action(test: Expr, first: Statement, word: &Word) -> Result<Outcome, AllocError>
    ensures { Acted (action Kind.Statement (Value.If test first) word.now) (Value.If test first) result }
{
    if is_else(word) && !first.ends_open() {
        return Ok(Outcome::Opens(Production::Else, Value::If(test, first)));
    }
    Ok(Outcome::Stuck(Value::If(test, first)))
}

/// What items in braces are as a whole: a block, the body of a function, or a switch.
fn items_end(alloc: Global, holder: Holder, block: Block) -> Result<Value, AllocError>
    ensures { IfOk result (λ v. v ≡ items_end holder block) }
{
    match holder {
        Holder::Block => {
            let whole = Statement::new(alloc, StatementNode::Block(block))?;
            Ok(Value::Statement(whole))
        }
        Holder::Function(d) => Ok(Value::Form(ExternalForm::Function(d, block))),
        Holder::Switch(e) => {
            let whole = Statement::new(alloc, StatementNode::Switch(e, block))?;
            Ok(Value::Statement(whole))
        }
    }
}

/// Whether labels may stand right in these braces.
fn takes_labels(holder: &Holder) -> bool
    ensures { result ≡ takes_labels holder.now }
{
    match holder {
        Holder::Switch(_) => true,
        Holder::Block => false,
        Holder::Function(_) => false,
    }
}

/// What begins where a statement or a label is wanted (C11, 6.8.1).
fn statement_item(holder: Holder, block: Block, word: &Word) -> Outcome
    ensures { Acted (statement_item holder word.now) (Value.Items holder block) (Ok result) }
{
    if is_case(word) {
        if takes_labels(&holder) {
            return Outcome::Opens(Production::Case, Value::Items(holder, block));
        }
        return Outcome::Stuck(Value::Items(holder, block));
    }
    if is_default(word) {
        if takes_labels(&holder) {
            return Outcome::Opens(Production::Default, Value::Items(holder, block));
        }
        return Outcome::Stuck(Value::Items(holder, block));
    }
    Outcome::Begins(Production::Item, Value::Items(holder, block))
}

/// What goes on behind items in braces (C11, 6.8.2).
pub fn items_tail(
    alloc: Global,
    holder: Holder,
    block: Block,
    word: &Word,
) -> Result<Outcome, AllocError>
    ensures { Acted (items_tail holder block word.now) (Value.Items holder block) result }
{
    if Terminal::CloseBrace.is(word) {
        let whole = items_end(alloc, holder, block)?;
        return Ok(Outcome::Joined(whole));
    }
    if is_specifier(word) {
        return Ok(Outcome::Begins(Production::Declaration, Value::Items(holder, block)));
    }
    Ok(statement_item(holder, block, word))
}

/// The semicolon behind `break` or `continue`.
pub fn jump_action(alloc: Global, jump: Jump, word: &Word) -> Result<Outcome, AllocError>
    ensures { Acted (action Kind.Statement (Value.Jump jump) word.now) (Value.Jump jump) result }
{
    if Terminal::Semicolon.is(word) {
        let whole = Statement::new(alloc, StatementNode::Jump(jump))?;
        return Ok(Outcome::Joined(Value::Statement(whole)));
    }
    Ok(Outcome::Stuck(Value::Jump(jump)))
}

/// The closing brace of the innermost structure.
fn members_end(alloc: Global, tag: Bytes, members: Members, depth: usize) -> Outcome
    ensures { Acted (members_end tag members depth) (Value.Members tag members depth true) (Ok result) }
{
    if 1 <= depth {
        let none = Declarators::new(alloc);
        return Outcome::Joined(Value::Member(tag, members, depth - 1, MemberHead::Close, none));
    }
    Outcome::Joined(Value::Outer(OuterSpecifier::Struct(tag, members)))
}

/// What goes on behind the members of a structure (C11, 6.7.2.1).
pub fn members_tail(
    alloc: Global,
    tag: Bytes,
    members: Members,
    depth: usize,
    some: bool,
    word: &Word,
) -> Result<Outcome, AllocError>
    ensures { Acted (members_tail tag members depth some word.now) (Value.Members tag members depth some) result }
{
    if Terminal::CloseBrace.is(word) {
        if some {
            return Ok(members_end(alloc, tag, members, depth));
        }
        return Ok(Outcome::Stuck(Value::Members(tag, members, depth, some)));
    }
    if is_specifier(word) {
        return Ok(Outcome::Begins(
            Production::MemberSpecifier,
            Value::Members(tag, members, depth, some),
        ));
    }
    Ok(Outcome::Stuck(Value::Members(tag, members, depth, some)))
}

/// Whether there are no declarators.
#[tactic(auto, using(crate::proofs::Empty::none))]
fn are_none(declarators: &Declarators) -> bool
    ensures { result ≡ are_no declarators.now }
{
    declarators.items().is_empty()
}

/// What goes on behind the declarators of a member (C11, 6.7.2.1).
pub fn member_tail(
    tag: Bytes,
    members: Members,
    depth: usize,
    head: MemberHead,
    declarators: Declarators,
    word: &Word,
) -> Result<Outcome, AllocError>
    ensures { Acted (member_tail tag members depth head declarators word.now) (Value.Member tag members depth head declarators) result }
{
    if are_none(&declarators) {
        return Ok(Outcome::Begins(
            Production::MemberDeclarator,
            Value::Member(tag, members, depth, head, declarators),
        ));
    }
    if Terminal::Comma.is(word) {
        return Ok(Outcome::Opens(
            Production::MemberDeclarator,
            Value::Member(tag, members, depth, head, declarators),
        ));
    }
    if Terminal::Semicolon.is(word) {
        let members = members.with(Piece::Member(head, declarators))?;
        return Ok(Outcome::Joined(Value::Members(tag, members, depth, true)));
    }
    Ok(Outcome::Stuck(Value::Member(tag, members, depth, head, declarators)))
}
