//! The words that go on in the braces of an enumeration (C11, 6.7.2.2).

ghost use Rattle.std.specs.Prelude.{◌≡◌, None, Some};
ghost use Rattle.c_parse_steps.specs.refinement.Calls.{Acted};
ghost use Rattle.c_productions.specs.refinement.Table.{are_no, enumerator_name, enumerator_tail, enumerators_tail, has_no_constant};

use crate::acting::Outcome;
use c_productions::{Production, Terminal, Value};
use c_token::{Bytes, Word};
use c_tree::{Enumerator, Enumerators, Expr};
use std::alloc::{AllocError, Global};

/// Whether there are no enumerators.
#[tactic(auto, using(crate::proofs::Empty::none))]
fn are_none(enumerators: &Enumerators) -> bool
    ensures { result ≡ are_no enumerators.now }
{
    enumerators.items().is_empty()
}

/// Whether an enumerator has no value.
fn has_no_constant(value: &Option<Expr>) -> bool
    ensures { result ≡ has_no_constant value.now }
{
    match value {
        Some(_) => false,
        None => true,
    }
}

/// The name of the next enumerator.
fn enumerator_name(
    alloc: Global,
    tag: Option<Bytes>,
    enumerators: Enumerators,
    word: &Word,
) -> Result<Outcome, AllocError>
    ensures { Acted (enumerator_name tag enumerators word.now) (Value.Enumerators tag enumerators None) result }
{
    match word {
        Word::Name(name) => {
            let last = Enumerator {
                name: name.copy(alloc)?,
                value: None,
            };
            Ok(Outcome::Joined(Value::Enumerators(tag, enumerators, Some(last))))
        }
        _ => Ok(Outcome::Stuck(Value::Enumerators(tag, enumerators, None))),
    }
}

/// What goes on behind an enumerator.
fn enumerator_tail(
    tag: Option<Bytes>,
    enumerators: Enumerators,
    last: Enumerator,
    word: &Word,
) -> Result<Outcome, AllocError>
    ensures { Acted (enumerator_tail tag enumerators last word.now) (Value.Enumerators tag enumerators (Some last)) result }
{
    if Terminal::Equals.is(word) {
        if has_no_constant(&last.value) {
            return Ok(Outcome::Opens(
                Production::EnumValue,
                Value::Enumerators(tag, enumerators, Some(last)),
            ));
        }
        return Ok(Outcome::Stuck(Value::Enumerators(tag, enumerators, Some(last))));
    }
    if Terminal::Comma.is(word) {
        let all = enumerators.with(last)?;
        return Ok(Outcome::Joined(Value::Enumerators(tag, all, None)));
    }
    if Terminal::CloseBrace.is(word) {
        let all = enumerators.with(last)?;
        return Ok(Outcome::Joined(Value::Enum(tag, all, false)));
    }
    Ok(Outcome::Stuck(Value::Enumerators(tag, enumerators, Some(last))))
}

/// What goes on behind an opening brace or a comma.
fn next_enumerator(
    alloc: Global,
    tag: Option<Bytes>,
    enumerators: Enumerators,
    word: &Word,
) -> Result<Outcome, AllocError>
    ensures { Acted (enumerators_tail tag enumerators None word.now) (Value.Enumerators tag enumerators None) result }
{
    if Terminal::CloseBrace.is(word) {
        if are_none(&enumerators) {
            return Ok(Outcome::Stuck(Value::Enumerators(tag, enumerators, None)));
        }
        return Ok(Outcome::Joined(Value::Enum(tag, enumerators, true)));
    }
    enumerator_name(alloc, tag, enumerators, word)
}

/// What goes on in the braces of an enumeration.
pub fn enumerators_tail(
    alloc: Global,
    tag: Option<Bytes>,
    enumerators: Enumerators,
    last: Option<Enumerator>,
    word: &Word,
) -> Result<Outcome, AllocError>
    ensures { Acted (enumerators_tail tag enumerators last word.now) (Value.Enumerators tag enumerators last) result }
{
    match last {
        Some(last) => enumerator_tail(tag, enumerators, last, word),
        None => next_enumerator(alloc, tag, enumerators, word),
    }
}
