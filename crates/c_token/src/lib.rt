//! Tokens of C (C11, 6.4): keywords, identifiers, constants, string literals and punctuators.
//!
//! A token is a word and the place of its first byte. The lexer makes tokens, the parser reads them, and the grammar
//! says which words a tree is spelled with. It stands on nothing. `Word` is the definition to read first.
#![tactic(auto)]

mod bytes;
mod word;

pub use bytes::Bytes;
pub use word::{IntegerType, Keyword, Mark, Token, Word};
