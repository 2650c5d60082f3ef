//! The lexer of the text format (WebAssembly 1.0, 6.2 and 6.3): bytes to tokens, and what tokens are worth.
//!
//! `lex` gives the tokens exactly where the bytes are a list of tokens, else the first fault and its place. The readers
//! below it follow the definition from left to right, each proved to give what its format gives. It stands on `ms_bytes`,
//! the formats, `ms_names`, which tells UTF-8, and `ms_types`, the vectors. Read `Lexes` in `specs/Lexing.antt` first.
#![tactic(auto)]

mod class;
mod comments;
mod fault;
mod leads;
mod lexer;
mod numbers;
mod steps;
mod strings;
mod token;
mod values;
mod words;

pub use fault::LexFault;
pub use lexer::lex;
pub use numbers::{constant, index, is_signed};
pub use token::{Kind, Token, text_of};
pub use values::{append_value, string_value};
pub use words::is_unsigned;
