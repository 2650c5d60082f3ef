//! The lexer of C (C11, 6.4): bytes to tokens.
//!
//! `lex` gives the tokens exactly where the bytes are a list of tokens, else the first fault and its place. The readers
//! below it follow the definition from left to right, each proved to give what its format gives. It stands on `c_token`,
//! the tokens, and `ms_bytes`, the formats. Read `Lexes` in `specs/Lexing.antt` first.
#![tactic(auto)]

mod class;
mod comments;
mod fault;
mod keywords;
mod leads;
mod lexer;
mod literals;
mod marks;
mod numbers;
mod steps;

pub use fault::CLex;
pub use lexer::lex;
