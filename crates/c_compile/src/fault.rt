//! Why a unit isn't compiled.

ghost use Rattle.std.specs.Prelude.{◌≡◌};
ghost use Rattle.c_compile.specs.declared.fault.CFault.TheVariants.{Memory};

use std::alloc::AllocError;
use thiserror::Error;

/// What of a unit is past a limit of the compiler, in the order in which they are looked at.
#[derive(Clone, Copy, Debug, PartialEq, Eq, Error)]
pub enum Limit {
    /// A function has more than 10,000 parameters and variables.
    #[error("a function has too many variables")]
    Locals,
    /// A struct that is copied holds more than 64 scalars.
    #[error("a struct that is copied is too large")]
    Copy,
    /// More than 65,535 functions are used as values.
    #[error("too many functions are used as values")]
    Functions,
}

/// Why a unit isn't compiled.
#[derive(Drop)]
pub enum CFault {
    /// It passes this limit.
    Limit(Limit),
    /// Want of memory, or a number that an instruction can't hold.
    Memory,
}

impl From<AllocError> for CFault {
    ghost from_gives = { λ _ f. f ≡ Memory };

    fn from(_: AllocError) -> CFault {
        CFault::Memory
    }
}
