//! Why tokens are no translation unit.

ghost use Rattle.std.specs.Prelude.{◌≡◌};
ghost use Rattle.c_parse.specs.declared.fault.CParse.TheVariants.{Memory};

use std::alloc::{AllocError, AllocFailed};
use thiserror::Error;

/// Why tokens are no translation unit that is read, and where, counted from 0.
#[derive(Clone, Copy, Debug, PartialEq, Eq, Error)]
pub enum CParse {
    /// No unit begins with the tokens up to the one at this place; or, where this is the end of the source, the tokens
    /// are none.
    #[error("no unit goes on with the token at byte {at}")]
    Syntax { at: usize },
    /// With the tokens up to the one at this place units begin, and each has a height above 200.
    #[error("what stands at byte {at} is too deep in other parts")]
    TooDeep { at: usize },
    /// Memory ran out.
    #[error("memory ran out")]
    Memory,
}

impl From<AllocError> for CParse {
    ghost from_gives = { λ _ e. e ≡ Memory };

    fn from(_e: AllocError) -> CParse {
        CParse::Memory
    }
}

impl<T: Drop> From<AllocFailed<T>> for CParse {
    ghost from_gives = { λ _ e. e ≡ Memory };

    fn from(_e: AllocFailed<T>) -> CParse {
        CParse::Memory
    }
}
