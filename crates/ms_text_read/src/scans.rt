//! What is looked for in all tokens, beside the grammar.

ghost use Rattle.std.specs.Prelude.{◌≡◌, IfOk, length};
ghost use Rattle.ms_text_grammar.specs.Bounds.{usual};
ghost use Rattle.ms_text_grammar.specs.Scans.{field_behind, fields_in, ok_value, placed, too_deep, up_to, uses_in};
ghost use Rattle.ms_text_grammar.specs.Types.{type_use};

use crate::compare::is_other;
use ms_text_grammar::{Index, Placed, TextFault, TypeField, TypeUse, Word};
use ms_text_lex::{Kind, Token, text_of};
use ms_text_parts::{Words, next_begins, next_closes, type_field, type_use};
use ms_types::Vector;
use std::alloc::{AllocError, Global};

/// How many parentheses may be in one another.
const MOST_PARENS: usize = 1000;

/// The first parenthesis that opens where a thousand are open.
pub fn too_deep(tokens: &[Token]) -> Option<usize>
    ensures { result ≡ too_deep usual.parens 0 tokens.now }
{
    let mut depth: usize = 0;
    for token in tokens {
        match token.kind {
            Kind::Open => {
                if depth >= MOST_PARENS {
                    return Some(token.at);
                }
                depth += 1;
            }
            Kind::Close => depth = depth.saturating_sub(1),
            _ => {}
        }
    }
    None
}

/// The tokens before a place.
pub fn up_to(at: usize, tokens: &[Token]) -> &[Token]
    ensures { result.now ≡ up_to at tokens.now }
{
    for (i, token) in tokens.iter().enumerate() {
        if token.at >= at {
            return &tokens[..i];
        }
    }
    tokens
}

/// The type field whose `type` has just been passed, if there is one.
fn field_behind(
    alloc: Global,
    source: &[u8],
    rest: &[Token],
) -> Result<Option<TypeField>, AllocError>
    ensures { IfOk result (λ f. f ≡ field_behind source.now rest.now) }
{
    let mut c = Words::new(source, rest);
    match type_field(alloc, &mut c) {
        Ok(field) => {
            if next_closes(&c) {
                Ok(Some(field))
            } else {
                Ok(None)
            }
        }
        Err(TextFault::Memory) => Err(AllocError),
        Err(_) => Ok(None),
    }
}

/// The type fields among tokens.
pub fn fields_in(
    alloc: Global,
    source: &[u8],
    tokens: &[Token],
) -> Result<Vector<TypeField>, AllocError>
    ensures { IfOk result (λ fs. fs ≡ fields_in source.now tokens.now) }
{
    let mut fields = Vector::new(alloc);
    let mut left = tokens;
    while let [_, rest @ ..] = left {
        let c = Words::new(source, left);
        if next_begins(Word::Type, &c) {
            if let [_, behind @ ..] = rest {
                if let Some(field) = field_behind(alloc, source, behind)? {
                    fields.push(field)?;
                }
            }
        }
        left = rest;
    }
    Ok(fields)
}

/// The type use that begins here, if there is one.
fn use_at(
    alloc: Global,
    source: &[u8],
    left: &[Token],
    at: usize,
) -> Result<Option<Placed>, AllocError>
    ensures { IfOk result (λ u. u ≡ placed at (ok_value ((type_use source.now).read (length source.now) left.now))) }
{
    let mut c = Words::new(source, left);
    match type_use(alloc, &mut c) {
        Ok(sig) => Ok(Some(Placed { at, sig })),
        Err(TextFault::Memory) => Err(AllocError),
        Err(_) => Ok(None),
    }
}

/// The type uses with `(type x)` among tokens.
pub fn uses_in(alloc: Global, source: &[u8], tokens: &[Token]) -> Result<Vector<Placed>, AllocError>
    ensures { IfOk result (λ us. us ≡ uses_in source.now tokens.now) }
{
    let mut uses = Vector::new(alloc);
    let mut left = tokens;
    while let [first, rest @ ..] = left {
        let at = first.at;
        let c = Words::new(source, left);
        if next_begins(Word::Type, &c) {
            if let Some(placed) = use_at(alloc, source, left, at)? {
                uses.push(placed)?;
            }
        }
        left = rest;
    }
    Ok(uses)
}
