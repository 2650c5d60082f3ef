//! The words that go on behind a specifier.

ghost use Rattle.std.specs.Prelude.{◌≡◌, Ok};
ghost use Rattle.c_parse_steps.specs.refinement.Calls.{Acted};
ghost use Rattle.c_productions.specs.refinement.Table.{and_integer, braces_begin, enum_tag_name, may_define, members_begin, specifier_tail, stuck, tag_name};

use crate::acting::Outcome;
use c_productions::{Kind, Terminal, Value, integer_at};
use c_token::{Bytes, Word};
use c_tree::{Enumerators, IntegerWord, Members, Specifier, SpecifierNode};
use std::alloc::{AllocError, Global};

/// One more word of an integer type.
fn and_integer(
    alloc: Global,
    specifier: Specifier,
    word: IntegerWord,
) -> Result<Outcome, AllocError>
    ensures { Acted (and_integer specifier word) (Value.Specifier specifier) result }
{
    let more = match specifier.node() {
        SpecifierNode::Integer(words) => words.with(word),
        SpecifierNode::Void => None,
        SpecifierNode::SizeT => None,
        SpecifierNode::PtrdiffT => None,
        SpecifierNode::Struct(_) => None,
        SpecifierNode::Enum(_) => None,
    };
    match more {
        Some(words) => {
            let whole = Specifier::new(alloc, SpecifierNode::Integer(words))?;
            Ok(Outcome::Joined(Value::Specifier(whole)))
        }
        None => Ok(Outcome::Stuck(Value::Specifier(specifier))),
    }
}

/// Whether braces may stand in a specifier of this kind.
fn may_define(kind: Kind) -> bool
    ensures { result ≡ may_define kind }
{
    matches!(kind, Kind::OuterSpecifier | Kind::MemberSpecifier)
}

/// The members of a structure behind its opening brace.
fn members_begin(alloc: Global, kind: Kind, tag: Bytes) -> Outcome
    ensures { Acted (members_begin kind tag) (Value.Specifier (SpecifierNode.Struct tag)) (Ok result) }
{
    match kind {
        Kind::OuterSpecifier => {
            Outcome::Joined(Value::Members(tag, Members::new(alloc), 0, false))
        }
        _ => Outcome::Joined(Value::Opens(tag)),
    }
}

/// A specifier behind which no brace stands.
fn unbraced(alloc: Global, node: SpecifierNode) -> Result<Outcome, AllocError>
    ensures { Acted stuck (Value.Specifier node) result }
{
    let whole = Specifier::new(alloc, node)?;
    Ok(Outcome::Stuck(Value::Specifier(whole)))
}

/// What goes on at an opening brace where braces may stand.
fn braces_begin(alloc: Global, kind: Kind, specifier: Specifier) -> Result<Outcome, AllocError>
    ensures { Acted (braces_begin kind specifier) (Value.Specifier specifier) result }
{
    match specifier.into_node() {
        SpecifierNode::Struct(tag) => Ok(members_begin(alloc, kind, tag)),
        SpecifierNode::Enum(tag) => {
            let begun = Value::Enumerators(Some(tag), Enumerators::new(alloc), None);
            Ok(Outcome::Joined(begun))
        }
        SpecifierNode::Void => unbraced(alloc, SpecifierNode::Void),
        SpecifierNode::Integer(words) => unbraced(alloc, SpecifierNode::Integer(words)),
        SpecifierNode::SizeT => unbraced(alloc, SpecifierNode::SizeT),
        SpecifierNode::PtrdiffT => unbraced(alloc, SpecifierNode::PtrdiffT),
    }
}

/// What goes on behind a specifier (C11, 6.7.2).
pub fn specifier_tail(
    alloc: Global,
    kind: Kind,
    specifier: Specifier,
    word: &Word,
) -> Result<Outcome, AllocError>
    ensures { Acted (specifier_tail kind specifier word.now) (Value.Specifier specifier) result }
{
    match word {
        Word::Keyword(keyword) => match integer_at(*keyword) {
            Some(integer) => and_integer(alloc, specifier, integer),
            None => Ok(Outcome::Stuck(Value::Specifier(specifier))),
        },
        Word::Mark(mark) => {
            if Terminal::OpenBrace.is_mark(*mark) && may_define(kind) {
                return braces_begin(alloc, kind, specifier);
            }
            Ok(Outcome::Stuck(Value::Specifier(specifier)))
        }
        _ => Ok(Outcome::Stuck(Value::Specifier(specifier))),
    }
}

/// The tag behind `struct`.
pub fn tag_name(alloc: Global, word: &Word) -> Result<Outcome, AllocError>
    ensures { Acted (tag_name word.now) Value.Tag result }
{
    match word {
        Word::Name(name) => {
            let name = name.copy(alloc)?;
            let whole = Specifier::new(alloc, SpecifierNode::Struct(name))?;
            Ok(Outcome::Joined(Value::Specifier(whole)))
        }
        _ => Ok(Outcome::Stuck(Value::Tag)),
    }
}

/// The tag or the opening brace behind `enum` (C11, 6.7.2.2).
pub fn enum_tag_name(alloc: Global, kind: Kind, word: &Word) -> Result<Outcome, AllocError>
    ensures { Acted (enum_tag_name kind word.now) Value.EnumTag result }
{
    if let Word::Name(name) = word {
        let name = name.copy(alloc)?;
        let whole = Specifier::new(alloc, SpecifierNode::Enum(name))?;
        return Ok(Outcome::Joined(Value::Specifier(whole)));
    }
    if Terminal::OpenBrace.is(word) && may_define(kind) {
        let begun = Value::Enumerators(None, Enumerators::new(alloc), None);
        return Ok(Outcome::Joined(begun));
    }
    Ok(Outcome::Stuck(Value::EnumTag))
}
