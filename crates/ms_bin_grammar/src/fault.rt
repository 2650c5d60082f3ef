//! Why bytes are not read as a module.

ghost use Rattle.std.specs.Prelude.{◌≡◌};
ghost use Rattle.ms_bin_grammar.specs.declared.fault.ReadFault.TheVariants.{Memory};

use std::alloc::{AllocError, AllocFailed};
use thiserror::Error;

/// What a limit is on.
#[derive(Clone, Copy, Debug, PartialEq, Eq)]
pub enum Counted {
    /// Blocks in one another, at most 500.
    Blocks,
    /// Locals that a function declares, at most 50,000.
    Locals,
}

/// Why bytes are not read as a module, and where: the place, counted from 0, at which the first wrong item begins.
#[derive(Clone, Copy, Debug, PartialEq, Eq, Error)]
pub enum ReadFault {
    /// Nothing that may stand there begins there, or the bytes end before they should.
    #[error("no such item may stand at byte {at}")]
    Malformed { at: usize },
    /// A type or an instruction of floating-point numbers stands there.
    #[error("floating-point numbers at byte {at}")]
    Float { at: usize },
    /// The item that begins there passes a limit.
    #[error("a limit is passed at byte {at}")]
    Limit { which: Counted, at: usize },
    /// Memory ran out.
    #[error("memory ran out")]
    Memory,
}

impl From<AllocError> for ReadFault {
    ghost from_gives = { λ _ e. e ≡ Memory };

    fn from(_e: AllocError) -> ReadFault {
        ReadFault::Memory
    }
}

impl<T: Drop> From<AllocFailed<T>> for ReadFault {
    ghost from_gives = { λ _ e. e ≡ Memory };

    fn from(_e: AllocFailed<T>) -> ReadFault {
        ReadFault::Memory
    }
}
