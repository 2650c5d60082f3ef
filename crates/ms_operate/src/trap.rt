//! Why an instruction stops the program.

ghost use Rattle.std.specs.Prelude.{◌≡◌};

use std::alloc::AllocError;

/// Why an instruction stops the program.
#[derive(Clone, Copy, PartialEq, Eq)]
pub enum Trap {
    /// A division by zero.
    Zero,
    /// A quotient that doesn't fit.
    Overflow,
    /// An access outside the linear memory.
    Linear,
}

/// Why an instruction was not carried out.
#[derive(Clone, Copy, PartialEq, Eq)]
pub enum Fault {
    /// It stops the program.
    Trap(Trap),
    /// Memory has run out.
    Memory,
}

impl From<AllocError> for Fault {
    ghost use Rattle.ms_operate.specs.declared.trap.Fault.TheVariants.{Memory};

    ghost from_gives = { λ _ f. f ≡ Memory };

    fn from(_: AllocError) -> Self {
        Fault::Memory
    }
}
