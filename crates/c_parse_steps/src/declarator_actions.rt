//! The words that go on behind a declarator.

ghost use Rattle.std.specs.Prelude.{◌≡◌, IfOk, Ok};
ghost use Rattle.c_parse_steps.specs.refinement.Calls.{Acted};
ghost use Rattle.c_productions.specs.refinement.Table.{closed, core_at, declarator_tail, direct_mark, is_pointer, open_declarator, sole_void, action};
ghost use Rattle.c_tree.specs.Tree.{function, nothing, no_parameters};

use crate::acting::Outcome;
use crate::begin::may_be_nothing;
use c_productions::{Kind, Production, Terminal, Value, is_specifier};
use c_token::{Mark, Word};
use c_tree::{Core, Declarator, DeclaratorNode, Parameters, SpecifierNode};
use std::alloc::{AllocError, Global};

/// Whether it is a pointer.
fn is_pointer(d: &Declarator) -> bool
    ensures { result ≡ is_pointer d.now }
{
    match d.node() {
        DeclaratorNode::Pointer(_) => true,
        DeclaratorNode::Named(_) => false,
        DeclaratorNode::Nothing => false,
        DeclaratorNode::Array(_) => false,
        DeclaratorNode::Sized(_, _) => false,
        DeclaratorNode::Wrapped(_) => false,
        DeclaratorNode::Function(_, _) => false,
        DeclaratorNode::FunctionVoid(_) => false,
    }
}

/// What goes on behind a direct declarator, at a mark.
fn direct_mark(alloc: Global, d: Declarator, mark: Mark) -> Outcome
    ensures { Acted (direct_mark d mark) (Value.Declarator d) (Ok result) }
{
    if Terminal::OpenBracket.is_mark(mark) {
        return Outcome::Joined(Value::Array(d));
    }
    if Terminal::OpenParen.is_mark(mark) {
        return Outcome::Joined(Value::Function(d, Parameters::new(alloc)));
    }
    Outcome::Stuck(Value::Declarator(d))
}

/// What goes on behind a declarator (C11, 6.7.6).
pub fn declarator_tail(alloc: Global, d: Declarator, word: &Word) -> Result<Outcome, AllocError>
    ensures { Acted (declarator_tail d word.now) (Value.Declarator d) result }
{
    if is_pointer(&d) {
        return Ok(Outcome::Stuck(Value::Declarator(d)));
    }
    match word {
        Word::Mark(mark) => Ok(direct_mark(alloc, d, *mark)),
        _ => Ok(Outcome::Stuck(Value::Declarator(d))),
    }
}

/// What goes on behind an opening bracket.
pub fn array_action(alloc: Global, d: Declarator, word: &Word) -> Result<Outcome, AllocError>
    ensures { Acted (action Kind.Statement (Value.Array d) word.now) (Value.Array d) result }
{
    if Terminal::CloseBracket.is(word) {
        let whole = Declarator::new(alloc, DeclaratorNode::Array(d))?;
        return Ok(Outcome::Joined(Value::Declarator(whole)));
    }
    Ok(Outcome::Begins(Production::Sized, Value::Array(d)))
}

/// What a declarator of this kind has in the name's place.
fn core_at(kind: Kind) -> Core
    ensures { result ≡ core_at kind }
{
    match kind {
        Kind::Declarator(core, _) => core,
        _ => Core::Name,
    }
}

/// A function's declarator without a name and without parameters.
fn bare_function(alloc: Global) -> Result<Declarator, AllocError>
    ensures { IfOk result (λ d. d ≡ function nothing no_parameters) }
{
    let nothing = Declarator::new(alloc, DeclaratorNode::Nothing)?;
    Declarator::new(
        alloc,
        DeclaratorNode::Function(nothing, Parameters::new(alloc)),
    )
}

/// What goes on behind an opening parenthesis where a declarator is wanted.
pub fn open_declarator(alloc: Global, kind: Kind, word: &Word) -> Result<Outcome, AllocError>
    ensures { Acted (open_declarator (core_at kind) word.now) Value.OpenDeclarator result }
{
    let core = core_at(kind);
    if Terminal::CloseParen.is(word) {
        if may_be_nothing(core) {
            let whole = bare_function(alloc)?;
            return Ok(Outcome::Joined(Value::Declarator(whole)));
        }
        return Ok(Outcome::Stuck(Value::OpenDeclarator));
    }
    if is_specifier(word) {
        if may_be_nothing(core) {
            return Ok(Outcome::Begins(Production::Parameter, Value::OpenDeclarator));
        }
        return Ok(Outcome::Stuck(Value::OpenDeclarator));
    }
    Ok(Outcome::Begins(Production::Wrap(core), Value::OpenDeclarator))
}

/// Whether `void` stands alone.
#[tactic(auto, using(crate::proofs::Empty::many))]
fn sole_void(parameters: &Parameters) -> bool
    ensures { result ≡ sole_void parameters.now }
{
    match parameters.items() {
        [] => false,
        [only] => match only.specifier.node() {
            SpecifierNode::Void => matches!(only.declarator.node(), DeclaratorNode::Nothing),
            _ => false,
        },
        [_, _, ..] => false,
    }
}

/// A function's declarator with these parameters.
fn closed(alloc: Global, d: Declarator, parameters: Parameters) -> Result<Declarator, AllocError>
    ensures { IfOk result (λ whole. whole ≡ closed d parameters) }
{
    if sole_void(&parameters) {
        return Declarator::new(alloc, DeclaratorNode::FunctionVoid(d));
    }
    Declarator::new(alloc, DeclaratorNode::Function(d, parameters))
}

/// What goes on behind parameters.
pub fn function_action(
    alloc: Global,
    d: Declarator,
    parameters: Parameters,
    word: &Word,
) -> Result<Outcome, AllocError>
    ensures { Acted (action Kind.Statement (Value.Function d parameters) word.now) (Value.Function d parameters) result }
{
    if Terminal::CloseParen.is(word) {
        let whole = closed(alloc, d, parameters)?;
        return Ok(Outcome::Joined(Value::Declarator(whole)));
    }
    if parameters.is_empty() {
        if is_specifier(word) {
            return Ok(Outcome::Begins(Production::Parameter, Value::Function(d, parameters)));
        }
        return Ok(Outcome::Stuck(Value::Function(d, parameters)));
    }
    if Terminal::Comma.is(word) {
        return Ok(Outcome::Opens(Production::Parameter, Value::Function(d, parameters)));
    }
    Ok(Outcome::Stuck(Value::Function(d, parameters)))
}
