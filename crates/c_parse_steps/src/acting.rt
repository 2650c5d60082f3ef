//! What becomes of a value in hand at a word.

ghost use Rattle.std.specs.Prelude.{◌≡◌};
ghost use Rattle.c_parse_steps.specs.refinement.Calls.{Acted};
ghost use Rattle.c_productions.specs.refinement.Table.{action};

use crate::begin::begin;
use crate::declarator_actions::{array_action, declarator_tail, function_action, open_declarator};
use crate::enum_actions::enumerators_tail;
use crate::expr_actions::{access_name, call_action, paren_action, tail};
use crate::inits_actions::{element_action, inits_tail};
use crate::other_actions::{if_action, items_tail, jump_action, member_tail, members_tail};
use crate::specifier_actions::{enum_tag_name, specifier_tail, tag_name};
use c_productions::{Kind, Production, Value};
use c_token::Word;
use std::alloc::{AllocError, Global};

/// What becomes of a value in hand.
#[derive(Drop)]
pub enum Outcome {
    /// The word is taken, and this is in hand.
    Joined(Value),
    /// The word is taken, and the production stands open with this value first.
    Opens(Production, Value),
    /// The production stands open with this value first, and the word comes next.
    Begins(Production, Value),
    /// The word doesn't belong to it.
    Stuck(Value),
}

/// What becomes of a value in hand at a word.
pub fn action(alloc: Global, kind: Kind, value: Value, word: &Word) -> Result<Outcome, AllocError>
    ensures { Acted (action kind value word.now) value result }
{
    match value {
        Value::Start => begin(alloc, kind, word),
        Value::Expr(e) => tail(alloc, kind, e, word),
        Value::Paren => paren_action(kind, word),
        Value::Call(callee, args) => call_action(alloc, callee, args, word),
        Value::Access(op, e) => access_name(alloc, op, e, word),
        Value::TypeName(s, d) => Ok(Outcome::Stuck(Value::TypeName(s, d))),
        Value::Declarator(d) => declarator_tail(alloc, d, word),
        Value::Array(d) => array_action(alloc, d, word),
        Value::OpenDeclarator => open_declarator(alloc, kind, word),
        Value::Function(d, parameters) => function_action(alloc, d, parameters, word),
        Value::Specifier(s) => specifier_tail(alloc, kind, s, word),
        Value::Tag => tag_name(alloc, word),
        Value::Opens(tag) => Ok(Outcome::Stuck(Value::Opens(tag))),
        Value::EnumTag => enum_tag_name(alloc, kind, word),
        Value::Enumerators(tag, enumerators, last) => {
            enumerators_tail(alloc, tag, enumerators, last, word)
        }
        Value::Enum(tag, enumerators, comma) => {
            Ok(Outcome::Stuck(Value::Enum(tag, enumerators, comma)))
        }
        Value::Initialiser(v) => Ok(Outcome::Stuck(Value::Initialiser(v))),
        Value::Braces(values, comma) => element_action(alloc, values, comma, word),
        Value::Inits(inits, last) => inits_tail(alloc, kind, inits, last, word),
        Value::Statement(s) => Ok(Outcome::Stuck(Value::Statement(s))),
        Value::If(test, first) => if_action(test, first, word),
        Value::Items(holder, block) => items_tail(alloc, holder, block, word),
        Value::Jump(jump) => jump_action(alloc, jump, word),
        Value::ForFirst(first) => Ok(Outcome::Stuck(Value::ForFirst(first))),
        Value::Test(clause) => Ok(Outcome::Stuck(Value::Test(clause))),
        Value::Step(clause) => Ok(Outcome::Stuck(Value::Step(clause))),
        Value::Outer(outer) => Ok(Outcome::Stuck(Value::Outer(outer))),
        Value::Members(tag, members, open, some) => members_tail(
            alloc, tag, members, open, some, word,
        ),
        Value::Member(tag, members, open, head, declarators) => {
            member_tail(tag, members, open, head, declarators, word)
        }
        Value::Form(form) => Ok(Outcome::Stuck(Value::Form(form))),
        Value::External(outer, form) => Ok(Outcome::Stuck(Value::External(outer, form))),
    }
}
