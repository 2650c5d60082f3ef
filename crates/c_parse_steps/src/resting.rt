//! Values that are complete, and how high the others will be.

ghost use Rattle.std.specs.Prelude.{◌≡◌, None, IfOk};
ghost use Rattle.c_productions.specs.refinement.Table.{enum_rests, inits_rest, least, nothing_at, rests, specifier_rests};

use crate::inits_actions::are_no_values;
use c_productions::{Kind, Value};
use c_token::Bytes;
use c_tree::{
    Core, Declarator, DeclaratorNode, Enumerators, OuterSpecifier, Specifier, Statement,
    StatementNode, above,
};
use std::alloc::{AllocError, Global};

/// A declarator that is nothing, where that may be.
fn nothing_at(alloc: Global, kind: Kind) -> Result<Option<Value>, AllocError>
    ensures { IfOk result (λ v. v ≡ nothing_at kind) }
{
    match kind {
        Kind::Declarator(Core::Nothing, false) => {
            let nothing = Declarator::new(alloc, DeclaratorNode::Nothing)?;
            Ok(Some(Value::Declarator(nothing)))
        }
        Kind::Declarator(Core::Either, false) => {
            let nothing = Declarator::new(alloc, DeclaratorNode::Nothing)?;
            Ok(Some(Value::Declarator(nothing)))
        }
        _ => Ok(None),
    }
}

/// What a specifier is at its end.
fn specifier_rests(kind: Kind, specifier: Specifier) -> Value
    ensures { result ≡ specifier_rests kind specifier }
{
    match kind {
        Kind::OuterSpecifier => Value::Outer(OuterSpecifier::Plain(specifier)),
        _ => Value::Specifier(specifier),
    }
}

/// What the definition of an enumeration is at its end.
fn enum_rests(kind: Kind, tag: Option<Bytes>, enumerators: Enumerators, comma: bool) -> Value
    ensures { result ≡ enum_rests kind tag enumerators comma }
{
    match kind {
        Kind::OuterSpecifier => Value::Outer(OuterSpecifier::Enum(tag, enumerators, comma)),
        _ => Value::Enum(tag, enumerators, comma),
    }
}

/// A value that wants more.
fn incomplete(_value: Value) -> Option<Value>
    ensures { result ≡ None }
{
    None
}

/// The value where no further word belongs to it, if it is complete.
pub fn rests(alloc: Global, kind: Kind, value: Value) -> Result<Option<Value>, AllocError>
    ensures { IfOk result (λ v. v ≡ rests kind value) }
{
    match value {
        Value::Start => nothing_at(alloc, kind),
        Value::Expr(e) => Ok(Some(Value::Expr(e))),
        Value::TypeName(s, d) => Ok(Some(Value::TypeName(s, d))),
        Value::Declarator(d) => Ok(Some(Value::Declarator(d))),
        Value::Specifier(s) => Ok(Some(specifier_rests(kind, s))),
        Value::Opens(tag) => Ok(Some(Value::Opens(tag))),
        Value::Enum(tag, enumerators, comma) => {
            Ok(Some(enum_rests(kind, tag, enumerators, comma)))
        }
        Value::Initialiser(v) => Ok(Some(Value::Initialiser(v))),
        Value::Inits(inits, last) => match kind {
            Kind::Inits => Ok(Some(Value::Inits(inits, last))),
            _ => Ok(None),
        },
        Value::Statement(s) => Ok(Some(Value::Statement(s))),
        Value::If(test, first) => {
            let whole = Statement::new(alloc, StatementNode::IfThen(test, first))?;
            Ok(Some(Value::Statement(whole)))
        }
        Value::ForFirst(first) => Ok(Some(Value::ForFirst(first))),
        Value::Test(clause) => Ok(Some(Value::Test(clause))),
        Value::Step(clause) => Ok(Some(Value::Step(clause))),
        Value::Outer(outer) => Ok(Some(Value::Outer(outer))),
        Value::Form(form) => Ok(Some(Value::Form(form))),
        Value::External(outer, form) => Ok(Some(Value::External(outer, form))),
        other => Ok(incomplete(other)),
    }
}

/// The least height of a parenthesis where an expression is wanted.
fn least_paren(kind: Kind) -> usize
    ensures { result ≡ least kind Value.Paren }
{
    match kind {
        Kind::SizeofOperand => 0,
        _ => 2,
    }
}

/// The least height of a parenthesis where a declarator is wanted.
fn least_open(kind: Kind) -> usize
    ensures { result ≡ least kind Value.OpenDeclarator }
{
    match kind {
        Kind::Declarator(Core::Nothing, _) => 1,
        Kind::Declarator(Core::Either, _) => 1,
        _ => 2,
    }
}

/// The least height of what a value becomes as a part of this kind.
pub fn least(kind: Kind, value: &Value) -> Result<usize, AllocError>
    ensures { IfOk result (λ n. n ≡ least kind value.now) }
{
    match value {
        Value::Start => Ok(kind.least()),
        Value::Paren => Ok(least_paren(kind)),
        Value::OpenDeclarator => Ok(least_open(kind)),
        Value::Braces(values, _) => {
            if are_no_values(values) {
                return Ok(2);
            }
            above(values.height())
        }
        _ => value.height(),
    }
}
