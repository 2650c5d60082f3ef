//! The words that go on behind initializers and declarators with initializers.

ghost use Rattle.std.specs.Prelude.{◌≡◌};
ghost use Rattle.c_parse_steps.specs.refinement.Calls.{Acted};
ghost use Rattle.c_productions.specs.refinement.Table.{are_no_values, form_end, has_no_value, inits_tail, is_single, next_element};

use crate::acting::Outcome;
use c_productions::{Holder, Kind, Production, Terminal, Value};
use c_token::Word;
use c_tree::{Block, ExternalForm, Init, Initialiser, InitialiserNode, Initialisers, Inits};
use std::alloc::{AllocError, Global};

/// Whether there are no initializers.
#[tactic(auto, using(crate::proofs::Empty::no_values))]
pub fn are_no_values(values: &Initialisers) -> bool
    ensures { result ≡ are_no_values values.now }
{
    values.items().is_empty()
}

/// What goes on behind initializers in braces (C11, 6.7.9).
pub fn element_action(
    alloc: Global,
    values: Initialisers,
    comma: bool,
    word: &Word,
) -> Result<Outcome, AllocError>
    ensures { Acted (next_element values comma word.now) (Value.Braces values comma) result }
{
    if are_no_values(&values) {
        return Ok(Outcome::Begins(Production::Element, Value::Braces(values, comma)));
    }
    if Terminal::CloseBrace.is(word) {
        let whole = Initialiser::new(alloc, InitialiserNode::Braces(values, comma))?;
        return Ok(Outcome::Joined(Value::Initialiser(whole)));
    }
    if comma {
        return Ok(Outcome::Begins(Production::Element, Value::Braces(values, comma)));
    }
    if Terminal::Comma.is(word) {
        return Ok(Outcome::Joined(Value::Braces(values, true)));
    }
    Ok(Outcome::Stuck(Value::Braces(values, comma)))
}

/// Whether a declarator has no initializer.
fn has_no_value(value: &Option<Initialiser>) -> bool
    ensures { result ≡ has_no_value value.now }
{
    match value {
        Some(_) => false,
        None => true,
    }
}

/// Whether this is one declarator without an initializer.
#[tactic(auto, using(crate::proofs::Empty::none))]
fn is_single(inits: &Inits, last: &Init) -> bool
    ensures { result ≡ is_single inits.now last.now }
{
    inits.items().is_empty() && has_no_value(&last.value)
}

/// What ends the declarators of an external declaration (C11, 6.9).
fn form_end(
    alloc: Global,
    kind: Kind,
    inits: Inits,
    last: Init,
    word: &Word,
) -> Result<Outcome, AllocError>
    ensures { Acted (form_end kind inits last word.now) (Value.Inits inits last) result }
{
    match kind {
        Kind::Form => {
            if Terminal::Semicolon.is(word) {
                let whole = ExternalForm::Declaration(inits.with(last)?);
                return Ok(Outcome::Joined(Value::Form(whole)));
            }
            if Terminal::OpenBrace.is(word) && is_single(&inits, &last) {
                let body = Value::Items(Holder::Function(last.declarator), Block::new(alloc));
                return Ok(Outcome::Joined(body));
            }
            Ok(Outcome::Stuck(Value::Inits(inits, last)))
        }
        _ => Ok(Outcome::Stuck(Value::Inits(inits, last))),
    }
}

/// What goes on behind declarators with initializers (C11, 6.7).
pub fn inits_tail(
    alloc: Global,
    kind: Kind,
    inits: Inits,
    last: Init,
    word: &Word,
) -> Result<Outcome, AllocError>
    ensures { Acted (inits_tail kind inits last word.now) (Value.Inits inits last) result }
{
    if Terminal::Comma.is(word) {
        return Ok(Outcome::Opens(Production::NextInit, Value::Inits(inits, last)));
    }
    if Terminal::Equals.is(word) {
        if has_no_value(&last.value) {
            return Ok(Outcome::Opens(Production::InitValue, Value::Inits(inits, last)));
        }
        return Ok(Outcome::Stuck(Value::Inits(inits, last)));
    }
    form_end(alloc, kind, inits, last, word)
}
