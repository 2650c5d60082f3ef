//! Why a text is not read as a module.

ghost use Rattle.std.specs.Prelude.{◌≡◌};
ghost use Rattle.ms_text_grammar.specs.declared.fault.TextFault.TheVariants.{Memory};

use ms_text_lex::LexFault;
use std::alloc::{AllocError, AllocFailed};
use thiserror::Error;

/// What a limit is on.
#[derive(Clone, Copy, Debug, PartialEq, Eq)]
pub enum Counted {
    /// Blocks in one another, at most 500.
    Blocks,
    /// Locals that a function declares, at most 50,000.
    Locals,
    /// Parentheses in one another, at most 1,000.
    Parens,
}

/// Why a text is not read as a module, and where: a place is that of a token's first byte, counted from 0, or the length of
/// the text.
#[derive(Clone, Copy, Debug, PartialEq, Eq, Error)]
pub enum TextFault {
    /// It has no tokens. The fault of the lexer is not want of memory.
    #[error("{0}")]
    Lex(LexFault),
    /// No text goes on so: the token there may not stand behind those before it, or the text ends too early.
    #[error("no such word may stand at byte {at}")]
    Syntax { at: usize },
    /// A number passes its range there.
    #[error("a number out of its range at byte {at}")]
    Range { at: usize },
    /// A keyword of floating-point numbers stands there.
    #[error("floating-point numbers at byte {at}")]
    Float { at: usize },
    /// The token there passes a limit.
    #[error("a limit is passed at byte {at}")]
    Limit { which: Counted, at: usize },
    /// An identifier there is unknown, or known already.
    #[error("an unknown or repeated identifier at byte {at}")]
    Name { at: usize },
    /// Memory ran out.
    #[error("memory ran out")]
    Memory,
}

impl From<AllocError> for TextFault {
    ghost from_gives = { λ _ e. e ≡ Memory };

    fn from(_e: AllocError) -> TextFault {
        TextFault::Memory
    }
}

impl<T: Drop> From<AllocFailed<T>> for TextFault {
    ghost from_gives = { λ _ e. e ≡ Memory };

    fn from(_e: AllocFailed<T>) -> TextFault {
        TextFault::Memory
    }
}
