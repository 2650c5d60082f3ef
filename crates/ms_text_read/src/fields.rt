//! Reading the tokens of a source as fields.

ghost use Rattle.std.specs.Prelude.{◌≡◌, ◌⊎◌, IfErr, IfOk, List, Option, Ok, Err, length};
ghost use Rattle.ms_text_grammar.specs.declared.fault.TextFault.TheVariants.{Memory};
ghost use Rattle.ms_text_grammar.specs.declared.surface.Field.{Field};
ghost use Rattle.ms_text_grammar.specs.declared.fault.TextFault.{TextFault};
ghost use Rattle.ms_text_grammar.specs.Bounds.{usual};
ghost use Rattle.ms_text_grammar.specs.Scans.{earlier, first_stop, limit_at, mismatch, place, with_mismatch, too_deep, up_to};
ghost use Rattle.ms_text_grammar.specs.TextSpells.{FieldsSpelled};
ghost use Rattle.ms_text_parts.specs.refinement.Readers.{fault_of};
ghost use Rattle.ms_text_read.specs.refinement.Fields.{Finds, FoundBy, IsFirstStop};

use crate::file::whole_file;
use crate::names::differing;
use crate::scans::{fields_in, too_deep, up_to, uses_in};
use ms_text_grammar::{Counted, Field, TextFault};
use ms_text_lex::Token;
use ms_text_parts::Words;
use ms_types::Vector;
use std::alloc::{AllocError, Global};

/// Where a fault stands.
fn place_of(fault: TextFault) -> usize
    ensures { (f : TextFault) → fault_of fault ≡ Option.Some f → result ≡ place f }
{
    match fault {
        TextFault::Syntax { at } => at,
        TextFault::Range { at } => at,
        TextFault::Float { at } => at,
        TextFault::Limit { which: _, at } => at,
        TextFault::Name { at } => at,
        TextFault::Lex(_) => 0,
        TextFault::Memory => 0,
    }
}

/// The first type use among tokens that names a type field which differs from what it writes.
fn mismatch(alloc: Global, source: &[u8], tokens: &[Token]) -> Result<Option<usize>, AllocError>
    ensures { IfOk result (λ at. at ≡ mismatch source.now tokens.now) }
{
    let fields = fields_in(alloc, source, tokens)?;
    let uses = uses_in(alloc, source, tokens)?;
    differing(alloc, source, fields.as_slice(), uses.as_slice())
}

/// A fault, or a type use before it that differs from its type field.
fn with_mismatch(alloc: Global, source: &[u8], tokens: &[Token], stop: TextFault) -> TextFault
    ensures found { (f : TextFault) → fault_of stop ≡ Option.Some f → FoundBy (fault_of result) (with_mismatch source.now tokens.now (Option.Some f)) }
    ensures memory { fault_of stop ≡ Option.None → fault_of result ≡ Option.None }
{
    if let TextFault::Memory = stop {
        return TextFault::Memory;
    }
    let place = place_of(stop);
    match mismatch(alloc, source, up_to(place, tokens)) {
        Err(_) => TextFault::Memory,
        Ok(None) => stop,
        Ok(Some(at)) => {
            if at <= place {
                TextFault::Syntax { at }
            } else {
                stop
            }
        }
    }
}

/// A fault of the grammar, or a parenthesis before it that is too deep.
fn with_depth(tokens: &[Token], stop: TextFault) -> TextFault
    ensures found { (f : TextFault) → fault_of stop ≡ Option.Some f → earlier (Option.Some f) (limit_at (too_deep usual.parens 0 tokens.now)) ≡ fault_of result }
    ensures memory { fault_of stop ≡ Option.None → fault_of result ≡ Option.None }
{
    if let TextFault::Memory = stop {
        return TextFault::Memory;
    }
    match too_deep(tokens) {
        None => stop,
        Some(at) => {
            if place_of(stop) <= at {
                stop
            } else {
                TextFault::Limit {
                    which: Counted::Parens,
                    at,
                }
            }
        }
    }
}

/// The fields that tokens of a source spell, or their first fault.
fn of_tokens(alloc: Global, source: &[u8], tokens: &[Token]) -> Result<Vector<Field>, TextFault>
    ensures { Finds source.now tokens.now result }
{
    let mut c = Words::new(source, tokens);
    match whole_file(alloc, &mut c) {
        Err(stop) => Err(with_mismatch(alloc, source, tokens, with_depth(tokens, stop))),
        Ok(fields) => {
            if let Some(at) = too_deep(tokens) {
                let stop = TextFault::Limit {
                    which: Counted::Parens,
                    at,
                };
                return Err(with_mismatch(alloc, source, tokens, stop));
            }
            match mismatch(alloc, source, tokens) {
                Err(_) => Err(TextFault::Memory),
                Ok(Some(at)) => Err(TextFault::Syntax { at }),
                Ok(None) => Ok(fields),
            }
        }
    }
}

/// Reads the fields that these tokens of a source spell, with at most 500 blocks and 1,000 parentheses in one another and
/// 50,000 declared locals in a function. The tokens are those that `lex` gives for the source.
///
/// Any other tokens have a first fault, and its place is that of the first token such that no text begins with the tokens up to it,
/// or of a type use that differs from its type field and is whole: `Syntax`, `Range`, `Float`, or `Limit`. `Memory` where memory ran
/// out.
pub fn fields(alloc: Global, source: &[u8], tokens: &[Token]) -> Result<Vector<Field>, TextFault>
    // What is read is spelled so.
    ensures found { IfOk result (λ f. FieldsSpelled source.now tokens.now f) }
    // What is spelled so is read, unless memory runs out.
    ensures only { (f : List Field) → FieldsSpelled source.now tokens.now f → (result ≡ Ok f) ⊎ (result ≡ Err Memory) }
    // A fault is the first that the tokens have, and at its place.
    ensures fault { IfErr result (λ e. IsFirstStop source.now tokens.now e) }
    // The first fault that the tokens have is told, unless memory runs out.
    ensures stops { (first : TextFault) → first_stop source.now tokens.now ≡ Option.Some first → (result ≡ Err first) ⊎ (result ≡ Err Memory) }
{
    match of_tokens(alloc, source, tokens) {
        Ok(fields) => Ok(fields),
        Err(fault) => Err(fault),
    }
}
