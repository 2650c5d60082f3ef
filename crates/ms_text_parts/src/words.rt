//! The tokens of a source, from left to right.

ghost use Rattle.std.specs.Prelude.{◌≡◌, ◌<◌, Some, drop, length, nat_eq};
ghost use Rattle.std.specs.Str.{bytes_eq};
ghost use Rattle.ms_module.specs.Instructions.{begins_with, has_inside, is_float_word};
ghost use Rattle.ms_text_grammar.specs.Faults.{bad, is_float, place_of};
ghost use Rattle.ms_text_grammar.specs.Tokens.{is_close, is_id, is_keyword, is_number, is_open, is_text, is_word};
ghost use Rattle.ms_text_parts.specs.refinement.Readers.{fault_of};

use ms_text_grammar::TextFault;
use ms_text_lex::{Kind, Token, text_of};
use std::marker::Model;

/// A source, and the tokens of it that are left. Contracts see both.
#[derive(Drop)]
pub struct Words<'a> {
    source: &'a [u8],
    left: &'a [Token],
}

impl<'a> Model for Words<'a> {
    ghost use Rattle.ms_text_grammar.specs.Tokens.{Spot};

    ghost Value = { Spot };

    ghost view = { λ w. record { source = w.source.now; left = w.left.now } };
}

impl<'a> Words<'a> {
    /// All of these tokens of a source.
    pub fn new(source: &'a [u8], tokens: &'a [Token]) -> Self
        ensures source { result.source ≡ source.now }
        ensures left { result.left ≡ tokens.now }
    {
        Words {
            source,
            left: tokens,
        }
    }

    /// The source.
    pub fn source(&self) -> &'a [u8]
        ensures { result.now ≡ self.now.source }
    {
        self.source
    }

    /// The tokens that are left.
    pub fn rest(&self) -> &'a [Token]
        ensures { result.now ≡ self.now.left }
    {
        self.left
    }

    /// How many tokens are left.
    pub fn len(&self) -> usize
        ensures { result ≡ length self.now.left }
    {
        self.left.len()
    }

    /// Goes over a token.
    pub fn skip(&mut self)
        requires { 0 < length self.old.left }
        ensures left { self.new.left ≡ drop 1 self.old.left }
        ensures source { self.new.source ≡ self.old.source }
    {
        self.left = &self.left[1..];
    }

    /// The place of the next token, or the length of the source.
    pub fn at(&self) -> usize
        ensures { result ≡ place_of (length self.now.source) self.now.left }
    {
        match self.left {
            [] => self.source.len(),
            [token, ..] => token.at,
        }
    }
}

/// Whether a token is a keyword, known or not.
pub fn is_keyword(token: Token) -> bool
    ensures { result ≡ is_keyword token.kind }
{
    matches!(token.kind, Kind::Keyword)
}

/// Whether a token is an opening parenthesis.
pub fn is_open(token: Token) -> bool
    ensures { result ≡ is_open token.kind }
{
    matches!(token.kind, Kind::Open)
}

/// Whether a token is a closing parenthesis.
pub fn is_close(token: Token) -> bool
    ensures { result ≡ is_close token.kind }
{
    matches!(token.kind, Kind::Close)
}

/// Whether a token is an identifier.
pub fn is_id(token: Token) -> bool
    ensures { result ≡ is_id token.kind }
{
    matches!(token.kind, Kind::Id)
}

/// Whether a token is a number.
pub fn is_number(token: Token) -> bool
    ensures { result ≡ is_number token.kind }
{
    matches!(token.kind, Kind::Number)
}

/// Whether a token is a string.
pub fn is_text(token: Token) -> bool
    ensures { result ≡ is_text token.kind }
{
    matches!(token.kind, Kind::Text)
}

/// Whether a token is the keyword of this text.
pub fn is_word(source: &[u8], text: &[u8], token: Token) -> bool
    ensures { result ≡ is_word source.now text.now token }
{
    is_keyword(token) && text_of(source, token) == text
}

/// Whether a part stands anywhere in a text.
fn has_inside(part: &[u8], text: &[u8]) -> bool
    ensures { result ≡ has_inside part.now text.now }
{
    let mut left = text;
    while let [_, rest @ ..] = left {
        if left.starts_with(part) {
            return true;
        }
        left = rest;
    }
    false
}

/// Whether a word is one of floating-point numbers.
fn is_float_word(text: &[u8]) -> bool
    ensures { result ≡ is_float_word text.now }
{
    text == b"f32".as_slice()
        || text == b"f64".as_slice()
        || text.starts_with(b"f32.")
        || text.starts_with(b"f64.")
        || has_inside(b"_f32", text)
        || has_inside(b"_f64", text)
}

/// Whether a token is a keyword of floating-point numbers.
pub fn is_float(source: &[u8], token: Token) -> bool
    ensures { result ≡ is_float source.now token }
{
    is_keyword(token) && is_float_word(text_of(source, token))
}

/// The fault where the next token may not stand there.
pub fn bad(c: &Words) -> TextFault
    ensures { fault_of result ≡ Some (bad c.now.source (length c.now.source) c.now.left) }
{
    let at = c.at();
    match c.rest() {
        [] => TextFault::Syntax { at },
        [token, ..] => {
            if is_float(c.source(), *token) {
                TextFault::Float { at }
            } else {
                TextFault::Syntax { at }
            }
        }
    }
}
