//! What begins, by the bytes in front.

ghost use Rattle.std.specs.Prelude.{◌≡◌, drop};
ghost use Rattle.c_lex.specs.Lexing.{lead_by, lead_of, mark_lead, next_byte};
ghost use Rattle.c_lex.specs.Marks.{one, three, two};

use crate::class::{Class, is_decimal, is_in, is_letter};
use crate::marks::{one, three, two};
use c_token::Mark;
use ms_bytes::Cursor;

/// What begins.
#[derive(Clone, Copy)]
pub enum Lead {
    Blanks,
    LineEnd,
    /// `//`.
    LineComment,
    /// `/*`.
    Comment,
    /// `#`, where the line has only blanks before it.
    Hash,
    Identifier,
    Number,
    /// A string literal.
    Quote,
    /// A character constant.
    Apostrophe,
    /// A punctuator of one byte.
    One(Mark),
    /// A punctuator of two bytes.
    Two(Mark),
    /// A punctuator of three bytes.
    Three(Mark),
    /// No token, blank or comment.
    Nothing,
}

/// The punctuator that is longest.
fn mark_lead(a: u8, b: u8, c: u8) -> Lead
    ensures { result ≡ mark_lead (three a b c) (two a b) (one a) }
{
    if let Some(mark) = three(a, b, c) {
        return Lead::Three(mark);
    }
    if let Some(mark) = two(a, b) {
        return Lead::Two(mark);
    }
    match one(a) {
        Some(mark) => Lead::One(mark),
        None => Lead::Nothing,
    }
}

/// What begins with these bytes.
fn lead_by(fresh: bool, a: u8, b: u8, c: u8) -> Lead
    ensures { result ≡ lead_by fresh a b c }
{
    if is_in(Class::Blank, a) {
        return Lead::Blanks;
    }
    if a == b'\n' {
        return Lead::LineEnd;
    }
    if is_letter(a) {
        return Lead::Identifier;
    }
    if is_decimal(a) {
        return Lead::Number;
    }
    if a == b'"' {
        return Lead::Quote;
    }
    if a == b'\'' {
        return Lead::Apostrophe;
    }
    if a == b'#' {
        return if fresh { Lead::Hash } else { Lead::Nothing };
    }
    if a == b'/' && b == b'/' {
        return Lead::LineComment;
    }
    if a == b'/' && b == b'*' {
        return Lead::Comment;
    }
    mark_lead(a, b, c)
}

/// The first byte, or 0 where there is none.
fn next_byte(bytes: &[u8]) -> u8
    ensures { result ≡ next_byte bytes.now }
{
    match bytes {
        [] => 0,
        [first, ..] => *first,
    }
}

/// What is next. `fresh`: the line has only blanks before it, and did not begin inside a comment.
pub fn lead_of(fresh: bool, c: &Cursor) -> Lead
    ensures { result ≡ lead_of fresh c.now.left }
{
    match c.rest() {
        [] => Lead::Nothing,
        [a] => lead_by(fresh, *a, 0, 0),
        [a, rest @ ..] => lead_by(fresh, *a, next_byte(rest), next_byte(&rest[1..])),
    }
}
