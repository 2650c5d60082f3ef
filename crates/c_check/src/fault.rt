//! Why a unit has no typed tree.

ghost use Rattle.std.specs.Prelude.{◌≡◌};
ghost use Rattle.c_check.specs.declared.fault.CCheck.TheVariants.{Memory};

use std::alloc::{AllocError, AllocFailed};
use thiserror::Error;

/// Why there is no typed tree.
#[derive(Clone, Copy, Debug, PartialEq, Eq, Error)]
pub enum CCheck {
    /// Up to this top-level declaration, which begins there, the unit has no typing.
    #[error("the declaration at byte {at} has no typing")]
    NoTyping { at: usize },
    /// Memory ran out.
    #[error("memory ran out")]
    Memory,
}

impl From<AllocError> for CCheck {
    ghost from_gives = { λ _ e. e ≡ Memory };

    fn from(_e: AllocError) -> CCheck {
        CCheck::Memory
    }
}

impl<T: Drop> From<AllocFailed<T>> for CCheck {
    ghost from_gives = { λ _ e. e ≡ Memory };

    fn from(_e: AllocFailed<T>) -> CCheck {
        CCheck::Memory
    }
}
