//! What becomes of a text.

ghost use Rattle.std.specs.Prelude.{◌≡◌};
ghost use Rattle.c_tests.specs.Texts.{TypesText, is_text};

use crate::refusal::Refusal;
use c_check::check;
use c_lex::lex;
use c_parse::parse;
use c_typed::Typed;
use std::alloc::Global;

/// Whether a row is a text: it is neither empty nor a heading, which begins with `// `.
pub fn is_text(row: &str) -> bool
    ensures { result ≡ is_text row.now }
{
    match row.as_bytes() {
        [] => false,
        bytes => !bytes.starts_with(b"// "),
    }
}

/// The typed tree of a text of C, or why there is none. Want of memory, in whichever step, says nothing of the text.
pub fn typed(alloc: Global, text: &[u8]) -> Result<Typed, Refusal>
    ensures { TypesText text.now result }
{
    let tokens = match lex(alloc, text) {
        Ok(tokens) => tokens,
        Err(fault) => return Err(Refusal::Lex(fault)),
    };
    let unit = match parse(alloc, tokens.as_slice(), text.len()) {
        Ok(unit) => unit,
        Err(fault) => return Err(Refusal::Parse(fault)),
    };
    match check(alloc, unit) {
        Ok(tree) => Ok(tree),
        Err(fault) => Err(Refusal::Check(fault)),
    }
}
