//! Tokens (WebAssembly 1.0, 6.2.2).

ghost use Rattle.std.specs.Prelude.{◌≡◌};
ghost use Rattle.ms_text_lex.specs.Tokens.{text_of};

/// What a token is.
#[derive(Clone, Copy, PartialEq, Eq)]
pub enum Kind {
    /// `(`.
    Open,
    /// `)`.
    Close,
    /// Identifier characters with a small letter in front, whether the word is known or not.
    Keyword,
    /// `$` and at least one identifier character more (6.3.5).
    Id,
    /// Decimal or hexadecimal digits, perhaps with a sign (6.3.1).
    Number,
    /// A string in its quotes (6.3.3).
    Text,
    /// Identifier characters that are none of these.
    Reserved,
}

/// A token: its kind, and the places in the source, counted from 0, at which it begins and behind which it ends.
#[derive(Clone, Copy, PartialEq, Eq)]
pub struct Token {
    pub kind: Kind,
    pub at: usize,
    pub end: usize,
}

/// The bytes of a token of this source: `source[token.at..token.end]`. Of another source, as many of them as there are.
pub fn text_of(source: &[u8], token: Token) -> &[u8]
    ensures { result.now ≡ text_of source.now token }
{
    let at = token.at.min(source.len());
    let rest = &source[at..];
    let len = token.end.saturating_sub(token.at).min(rest.len());
    &rest[..len]
}
