//! Why a rule has no answer.

ghost use Rattle.std.specs.Prelude.{◌≡◌};

use std::alloc::{AllocError, AllocFailed};
use thiserror::Error;

/// Why a rule has no answer, within a declaration.
#[derive(Clone, Copy, Debug, PartialEq, Eq, Error)]
pub enum Stop {
    /// The rule has no answer.
    #[error("there is no typing")]
    NoTyping,
    /// Memory ran out.
    #[error("memory ran out")]
    Memory,
}

impl From<AllocError> for Stop {
    ghost use Rattle.c_check_types.specs.declared.fault.Stop.TheVariants.{Memory as stop_memory};

    ghost from_gives = { λ _ e. e ≡ stop_memory };

    fn from(_e: AllocError) -> Stop {
        Stop::Memory
    }
}

impl<T: Drop> From<AllocFailed<T>> for Stop {
    ghost use Rattle.c_check_types.specs.declared.fault.Stop.TheVariants.{Memory as stop_memory};

    ghost from_gives = { λ _ e. e ≡ stop_memory };

    fn from(_e: AllocFailed<T>) -> Stop {
        Stop::Memory
    }
}
