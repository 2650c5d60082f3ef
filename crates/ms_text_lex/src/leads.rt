//! What begins, by the bytes in front.

ghost use Rattle.std.specs.Prelude.{◌≡◌};
ghost use Rattle.ms_bytes.specs.Spot.{first_is};
ghost use Rattle.ms_text_lex.specs.Lexing.{lead_by, lead_of};

use crate::class::{is_blank, is_idchar};
use ms_bytes::Cursor;

/// What begins.
#[derive(Clone, Copy)]
pub enum Lead {
    Blanks,
    /// `;;`.
    LineComment,
    /// `(;`.
    BlockComment,
    /// `(` alone.
    Open,
    Close,
    /// A string.
    Quote,
    /// Identifier characters.
    Word,
    /// No token, blank or comment.
    Nothing,
}

/// Whether this is the first byte.
fn first_is(byte: u8, rest: &[u8]) -> bool
    ensures { result ≡ first_is byte rest.now }
{
    match rest {
        [] => false,
        [first, ..] => *first == byte,
    }
}

/// What begins with a byte and those behind it.
fn lead_by(byte: u8, rest: &[u8]) -> Lead
    ensures { result ≡ lead_by byte rest.now }
{
    if is_blank(byte) {
        return Lead::Blanks;
    }
    if byte == b';' {
        return if first_is(b';', rest) {
            Lead::LineComment
        } else {
            Lead::Nothing
        };
    }
    if byte == b'(' {
        return if first_is(b';', rest) {
            Lead::BlockComment
        } else {
            Lead::Open
        };
    }
    if byte == b')' {
        return Lead::Close;
    }
    if byte == b'"' {
        return Lead::Quote;
    }
    if is_idchar(byte) {
        return Lead::Word;
    }
    Lead::Nothing
}

/// What is next.
pub fn lead_of(c: &Cursor) -> Lead
    ensures { result ≡ lead_of c.now.left }
{
    match c.rest() {
        [] => Lead::Nothing,
        [first, rest @ ..] => lead_by(*first, rest),
    }
}
