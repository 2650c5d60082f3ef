//! Names and data: what string tokens stand for (WebAssembly 1.0, 6.3.3 and 6.3.4).

ghost use Rattle.std.specs.Prelude.{◌≡◌, IfOk};
ghost use Rattle.ms_text_grammar.specs.ResolvedParts.{text_values};
ghost use Rattle.ms_text_lex.specs.Values.{value_of};

use ms_module::Name;
use ms_text_lex::{Token, append_value, string_value};
use std::alloc::{AllocError, Global};
use std::str::from_utf8;

/// The name that a string token stands for.
pub fn name_of(alloc: Global, source: &[u8], token: Token) -> Result<Name, AllocError>
    ensures { IfOk result (λ name. name ≡ value_of source.now token) }
{
    let bytes = string_value(alloc, source, token)?;
    match from_utf8(bytes.as_slice()) {
        Ok(text) => Name::new(alloc, text),
        // Never comes: a name that the grammar gives is UTF-8. Fields of another origin have the only answer that is
        // left, want of memory, since a name can't hold other bytes.
        Err(_) => Err(AllocError),
    }
}

/// The bytes of strings, one behind the other.
pub fn text_values(alloc: Global, source: &[u8], strings: &[Token]) -> Result<Vec<u8>, AllocError>
    ensures { IfOk result (λ bytes. bytes.items ≡ text_values source.now strings.now) }
{
    let mut bytes = Vec::new(alloc);
    for string in strings {
        append_value(alloc, &mut bytes, source, *string)?;
    }
    Ok(bytes)
}
