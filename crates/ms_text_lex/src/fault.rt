//! Why bytes are not a list of tokens.

ghost use Rattle.std.specs.Prelude.{◌≡◌};
ghost use Rattle.ms_text_lex.specs.declared.fault.LexFault.TheVariants.{Memory};

use std::alloc::{AllocError, AllocFailed};
use thiserror::Error;

/// Why bytes are not a list of tokens, and where, counted from 0.
#[derive(Clone, Copy, Debug, PartialEq, Eq, Error)]
pub enum LexFault {
    /// No token, blank or comment begins there; or a string begins there with a wrong byte or escape in it; or a string
    /// or a comment that isn't UTF-8.
    #[error("no token begins at byte {at}")]
    Char { at: usize },
    /// A string or a comment begins there that the end of the text cuts off.
    #[error("what begins at byte {at} is not closed")]
    Unclosed { at: usize },
    /// Memory ran out.
    #[error("memory ran out")]
    Memory,
}

impl From<AllocError> for LexFault {
    ghost from_gives = { λ _ e. e ≡ Memory };

    fn from(_e: AllocError) -> LexFault {
        LexFault::Memory
    }
}

impl<T: Drop> From<AllocFailed<T>> for LexFault {
    ghost from_gives = { λ _ e. e ≡ Memory };

    fn from(_e: AllocFailed<T>) -> LexFault {
        LexFault::Memory
    }
}
