//! Parentheses, words, identifiers and strings.

ghost use Rattle.std.specs.Prelude.{◌≡◌, ◌&&◌, length, IfOk};
ghost use Rattle.std.specs.Str.{is_utf8};
ghost use Rattle.ms_text_lex.specs.Values.{value_of};
ghost use Rattle.ms_text_grammar.specs.Tokens.{begins, begins_id, closes, is_text, opens};
ghost use Rattle.ms_text_grammar.specs.Parts.{closing, identifier, keyword, name, no_group, opening, optional_id, string, the};
ghost use Rattle.ms_text_parts.specs.refinement.Readers.{Reads};

use crate::words::{Words, bad, is_close, is_id, is_open, is_text, is_word};
use ms_names::utf8;
use ms_text_grammar::{TextFault, Word};
use ms_text_lex::{Token, string_value};
use std::alloc::{AllocError, Global};

/// Whether an opening parenthesis is next.
pub fn next_opens(c: &Words) -> bool
    ensures { result ≡ opens c.now.left }
{
    match c.rest() {
        [] => false,
        [token, ..] => is_open(*token),
    }
}

/// Whether a closing parenthesis is next.
pub fn next_closes(c: &Words) -> bool
    ensures { result ≡ closes c.now.left }
{
    match c.rest() {
        [] => false,
        [token, ..] => is_close(*token),
    }
}

/// Whether an identifier is next.
pub fn next_is_id(c: &Words) -> bool
    ensures { result ≡ begins_id c.now.left }
{
    match c.rest() {
        [] => false,
        [token, ..] => is_id(*token),
    }
}

/// Whether an opening parenthesis and this word are next.
pub fn next_begins(word: Word, c: &Words) -> bool
    ensures { result ≡ begins c.now.source word c.now.left }
{
    match c.rest() {
        [] => false,
        [_] => false,
        [first, second, ..] => is_open(*first) && is_word(c.source(), word.spelling(), *second),
    }
}

/// Takes an opening parenthesis.
pub fn opening(c: &mut Words) -> Result<Token, TextFault>
    ensures { Reads c.old c.new result ((opening c.old.source).read (length c.old.source) c.old.left) }
{
    let [token, ..] = c.rest() else {
        return Err(bad(c));
    };
    let token = *token;
    if !is_open(token) {
        return Err(bad(c));
    }
    c.skip();
    Ok(token)
}

/// Takes a closing parenthesis.
pub fn closing(c: &mut Words) -> Result<Token, TextFault>
    ensures { Reads c.old c.new result ((closing c.old.source).read (length c.old.source) c.old.left) }
{
    let [token, ..] = c.rest() else {
        return Err(bad(c));
    };
    let token = *token;
    if !is_close(token) {
        return Err(bad(c));
    }
    c.skip();
    Ok(token)
}

/// Takes an identifier.
pub fn identifier(c: &mut Words) -> Result<Token, TextFault>
    ensures { Reads c.old c.new result ((identifier c.old.source).read (length c.old.source) c.old.left) }
{
    let [token, ..] = c.rest() else {
        return Err(bad(c));
    };
    let token = *token;
    if !is_id(token) {
        return Err(bad(c));
    }
    c.skip();
    Ok(token)
}

/// Takes a string.
pub fn string(c: &mut Words) -> Result<Token, TextFault>
    ensures { Reads c.old c.new result ((string c.old.source).read (length c.old.source) c.old.left) }
{
    let [token, ..] = c.rest() else {
        return Err(bad(c));
    };
    let token = *token;
    if !is_text(token) {
        return Err(bad(c));
    }
    c.skip();
    Ok(token)
}

/// Whether a token is a string that stands for UTF-8.
fn is_name(alloc: Global, source: &[u8], token: Token) -> Result<bool, AllocError>
    ensures { IfOk result (λ b. b ≡ (is_text token.kind && is_utf8 (value_of source.now token))) }
{
    if !is_text(token) {
        return Ok(false);
    }
    let value = string_value(alloc, source, token)?;
    Ok(utf8(value.as_slice()).is_some())
}

/// Takes a string that stands for UTF-8.
pub fn name(alloc: Global, c: &mut Words) -> Result<Token, TextFault>
    ensures { Reads c.old c.new result ((name c.old.source).read (length c.old.source) c.old.left) }
{
    let [token, ..] = c.rest() else {
        return Err(bad(c));
    };
    let token = *token;
    if !is_name(alloc, c.source(), token)? {
        return Err(bad(c));
    }
    c.skip();
    Ok(token)
}

/// Takes the keyword of this text.
pub fn keyword(text: &[u8], c: &mut Words) -> Result<Token, TextFault>
    ensures { Reads c.old c.new result ((keyword c.old.source text.now).read (length c.old.source) c.old.left) }
{
    let [token, ..] = c.rest() else {
        return Err(bad(c));
    };
    let token = *token;
    if !is_word(c.source(), text, token) {
        return Err(bad(c));
    }
    c.skip();
    Ok(token)
}

/// Takes a word.
pub fn the(word: Word, c: &mut Words) -> Result<Token, TextFault>
    ensures { Reads c.old c.new result ((the c.old.source word).read (length c.old.source) c.old.left) }
{
    keyword(word.spelling(), c)
}

/// Takes an identifier, if there is one.
#[tactic(auto, unfolding(ms_text_grammar::specs::Parts::optional_id, ms_text_grammar::specs::Parts::id_by))]
pub fn optional_id(c: &mut Words) -> Result<Option<Token>, TextFault>
    ensures { Reads c.old c.new result ((optional_id c.old.source).read (length c.old.source) c.old.left) }
{
    if next_is_id(c) {
        let token = identifier(c)?;
        return Ok(Some(token));
    }
    Ok(None)
}

/// Takes nothing, where groups might have gone on: behind a further opening parenthesis the word is wrong.
#[tactic(auto, unfolding(ms_text_grammar::specs::Parts::no_group, ms_text_grammar::specs::Parts::group_ends))]
pub fn no_group(c: &mut Words) -> Result<(), TextFault>
    ensures { Reads c.old c.new result ((no_group c.old.source).read (length c.old.source) c.old.left) }
{
    if next_opens(c) {
        let _ = opening(c)?;
        return Err(bad(c));
    }
    Ok(())
}
