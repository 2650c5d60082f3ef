//! Why a module is not taken.

ghost use Rattle.std.specs.Prelude.{◌≡◌};
ghost use Rattle.ms_valid.specs.declared.refusal.Refusal.TheVariants.{Memory};

use std::alloc::AllocError;
use thiserror::Error;

/// The part of a module that is wrong.
#[derive(Clone, Copy, Debug, PartialEq, Eq)]
pub enum Part {
    /// All but the bodies of functions.
    Head,
    /// The body of this function of the function index space, the first that is not typed.
    Function(u32),
}

/// Why a module is not taken.
#[derive(Clone, Copy, Debug, PartialEq, Eq, Error)]
pub enum Refusal {
    /// A part of it is not well typed.
    #[error("a part of the module is not well typed")]
    Invalid { part: Part },
    /// Memory ran out.
    #[error("memory ran out")]
    Memory,
}

impl From<AllocError> for Refusal {
    ghost from_gives = { λ _ e. e ≡ Memory };

    fn from(_: AllocError) -> Self {
        Refusal::Memory
    }
}
