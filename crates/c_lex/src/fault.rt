//! Why bytes are not a list of tokens.

ghost use Rattle.std.specs.Prelude.{◌≡◌};
ghost use Rattle.c_lex.specs.declared.fault.CLex.TheVariants.{Memory};

use std::alloc::{AllocError, AllocFailed};
use thiserror::Error;

/// Why bytes are not a list of tokens, and where, counted from 0.
#[derive(Clone, Copy, Debug, PartialEq, Eq, Error)]
pub enum CLex {
    /// No token, blank or comment begins there; or an escape begins there that is none, or doesn't fit a byte; or a
    /// character constant that hasn't exactly one character; or a number that is no integer constant.
    #[error("no token begins at byte {at}")]
    Char { at: usize },
    /// A comment begins there that doesn't end, or a literal that doesn't end on its line.
    #[error("what begins at byte {at} is not closed")]
    Unclosed { at: usize },
    /// A line begins there with a `#`, and is no inclusion of `<stdio.h>`, `<stdlib.h>` or `<stddef.h>`.
    #[error("no such directive at byte {at}")]
    Directive { at: usize },
    /// An integer constant begins there that no type of its suffix holds.
    #[error("the constant at byte {at} is too big")]
    TooBig { at: usize },
    /// Memory ran out.
    #[error("memory ran out")]
    Memory,
}

impl From<AllocError> for CLex {
    ghost from_gives = { λ _ e. e ≡ Memory };

    fn from(_e: AllocError) -> CLex {
        CLex::Memory
    }
}

impl<T: Drop> From<AllocFailed<T>> for CLex {
    ghost from_gives = { λ _ e. e ≡ Memory };

    fn from(_e: AllocFailed<T>) -> CLex {
        CLex::Memory
    }
}
