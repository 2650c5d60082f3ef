//! Type fields by their identifiers, and the first type use that differs from the field that it names.

ghost use Rattle.std.specs.Prelude.{◌≡◌, IfOk, OnOk, length};
ghost use Rattle.ms_text_lex.specs.declared.token.Token.{Token};
ghost use Rattle.ms_text_lex.specs.Tokens.{text_of};
ghost use Rattle.ms_text_grammar.specs.Identifiers.{found, is_named};
ghost use Rattle.ms_text_grammar.specs.FieldKinds.{type_ids};
ghost use Rattle.ms_text_grammar.specs.Faults.{kept};
ghost use Rattle.ms_text_grammar.specs.Scans.{differing, is_other};
ghost use Rattle.ms_text_grammar.specs.TypeUses.{field_at, index_in};
ghost use Rattle.ms_text_read.specs.refinement.Names.{look, or_else};

use crate::compare::is_other;
use ms_text_grammar::{Index, Placed, TypeField, TypeUse};
use ms_text_lex::{Token, text_of};
use std::alloc::{AllocError, Global};
use std::collections::BTreeMap;

/// The number of the first type field of each identifier.
type Names<'a> = BTreeMap<&'a [u8], usize>;

/// The number at a text.
fn number_at<'a>(names: &Names<'a>, text: &'a [u8]) -> Option<usize>
    ensures { result ≡ look names.now text.now }
{
    names.get(&text).copied()
}

/// The number of a type field at its identifier, if it has one that is no other's before it.
fn note<'a>(
    names: &mut Names<'a>,
    source: &'a [u8],
    id: Option<Token>,
    number: usize,
) -> Result<(), AllocError>
    ensures { OnOk result ((name : Token) → look names.new (text_of source.now name) ≡ or_else (look names.old (text_of source.now name)) (kept (is_named source.now id name) number)) }
{
    let Some(id) = id else {
        return Ok(());
    };
    let text = text_of(source, id);
    if number_at(names, text).is_some() {
        return Ok(());
    }
    let _ = names.insert(text, number)?;
    Ok(())
}

/// The type fields by their identifiers.
fn names_of<'a>(
    alloc: Global,
    source: &'a [u8],
    fields: &[TypeField],
) -> Result<Names<'a>, AllocError>
    ensures { IfOk result (λ names. (name : Token) → look names (text_of source.now name) ≡ found source.now (type_ids fields.now) name 0) }
{
    let mut names = BTreeMap::new(alloc);
    for (i, field) in fields.iter().enumerate() {
        note(&mut names, source, field.id, i)?;
    }
    Ok(names)
}

/// Which type field a use names.
fn index_in<'a>(
    source: &'a [u8],
    fields: &[TypeField],
    names: &Names<'a>,
    sig: Option<Index>,
) -> Option<usize>
    requires { (name : Token) → look names.now (text_of source.now name) ≡ found source.now (type_ids fields.now) name 0 }
    ensures { result ≡ index_in source.now fields.now sig }
{
    let _ = fields;
    match sig {
        None => None,
        Some(Index::Number(n)) => Some(n as usize),
        Some(Index::Name(id)) => number_at(names, text_of(source, id)),
    }
}

/// Whether a use names a type field that differs from what it writes.
fn differs<'a>(source: &'a [u8], fields: &[TypeField], names: &Names<'a>, sig: &TypeUse) -> bool
    requires { (name : Token) → look names.now (text_of source.now name) ≡ found source.now (type_ids fields.now) name 0 }
    ensures { result ≡ is_other (field_at fields.now (index_in source.now fields.now sig.now.sig)) sig.now }
{
    let Some(n) = index_in(source, fields, names, sig.sig) else {
        return false;
    };
    match fields.get(n) {
        None => false,
        Some(field) => is_other(field, sig),
    }
}

/// The first use that names a type field which differs from what it writes.
pub fn differing(
    alloc: Global,
    source: &[u8],
    fields: &[TypeField],
    uses: &[Placed],
) -> Result<Option<usize>, AllocError>
    ensures { IfOk result (λ at. at ≡ differing source.now fields.now uses.now) }
{
    let names = names_of(alloc, source, fields)?;
    for placed in uses {
        if differs(source, fields, &names, &placed.sig) {
            return Ok(Some(placed.at));
        }
    }
    Ok(None)
}
