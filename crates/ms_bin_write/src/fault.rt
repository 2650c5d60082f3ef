//! Why a module has no bytes that are written.

ghost use Rattle.std.specs.Prelude.{◌≡◌};
ghost use Rattle.ms_bin_write.specs.declared.fault.BinFault.TheVariants.{Memory};

use std::alloc::{AllocError, AllocFailed};
use thiserror::Error;

/// Why a module is not written.
#[derive(Clone, Copy, Debug, PartialEq, Eq, Error)]
pub enum BinFault {
    /// A section or a function's body would have 2^32 bytes or more.
    #[error("a section would have 4294967296 bytes or more")]
    Large,
    /// Memory ran out.
    #[error("memory ran out")]
    Memory,
}

impl From<AllocError> for BinFault {
    ghost from_gives = { λ _ e. e ≡ Memory };

    fn from(_e: AllocError) -> BinFault {
        BinFault::Memory
    }
}

impl<T: Drop> From<AllocFailed<T>> for BinFault {
    ghost from_gives = { λ _ e. e ≡ Memory };

    fn from(_e: AllocFailed<T>) -> BinFault {
        BinFault::Memory
    }
}
