//! Labels (WebAssembly 1.0, 6.5.1): identifiers of the open blocks, the innermost first.

ghost use Rattle.std.specs.Prelude.{◌≡◌, IfOk, Option};
ghost use Rattle.ms_text_grammar.specs.Identifiers.{each, found, identified, is_named, resolved};
ghost use Rattle.ms_text_names.specs.refinement.Answers.{Adds};

use crate::names::number;
use ms_text_grammar::Index;
use ms_text_lex::{Token, text_of};
use ms_types::{Stack, Vector};
use std::alloc::{AllocError, Global};

/// Whether a label has this identifier.
fn is_named(source: &[u8], label: Option<Token>, id: Token) -> bool
    ensures { result ≡ is_named source.now label id }
{
    match label {
        None => false,
        Some(other) => text_of(source, other) == text_of(source, id),
    }
}

/// The innermost block of this label, at most 2^32.
fn found(source: &[u8], labels: &Stack<Option<Token>>, id: Token) -> Result<Option<u32>, AllocError>
    ensures { IfOk result (λ n. n ≡ found source.now labels.now id 0) }
{
    for depth in 0..labels.len() {
        if is_named(source, labels.get(depth), id) {
            return Ok(Some(number(depth)?));
        }
    }
    Ok(None)
}

/// The index of a label; where it is unknown, its place is wrong.
pub fn label_identified(
    source: &[u8],
    labels: &Stack<Option<Token>>,
    id: Token,
    wrong: &mut Vec<usize>,
) -> Result<u32, AllocError>
    ensures { IfOk result (λ n. Adds wrong.old.items wrong.new.items n (identified source.now labels.now id)) }
{
    match found(source, labels, id)? {
        Some(n) => Ok(n),
        None => {
            wrong.push(id.at)?;
            Ok(0)
        }
    }
}

/// What the index of a label stands for.
fn label_resolved(
    source: &[u8],
    labels: &Stack<Option<Token>>,
    index: Index,
    wrong: &mut Vec<usize>,
) -> Result<u32, AllocError>
    ensures { IfOk result (λ n. Adds wrong.old.items wrong.new.items n (resolved source.now labels.now index)) }
{
    match index {
        Index::Number(n) => Ok(n),
        Index::Name(id) => label_identified(source, labels, id, wrong),
    }
}

/// What the indices of labels stand for, one after the other.
pub fn labels_resolved(
    alloc: Global,
    source: &[u8],
    labels: &Stack<Option<Token>>,
    indices: &[Index],
    wrong: &mut Vec<usize>,
) -> Result<Vec<u32>, AllocError>
    ensures { IfOk result (λ ns. Adds wrong.old.items wrong.new.items ns.items (each (resolved source.now labels.now) indices.now)) }
{
    let mut numbers = Vec::new(alloc);
    for index in indices {
        numbers.push(label_resolved(source, labels, *index, wrong)?)?;
    }
    Ok(numbers)
}
