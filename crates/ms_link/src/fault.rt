//! Why modules are not linked.

ghost use Rattle.ms_machine.specs.Externs.{fault_at};
ghost use Rattle.ms_link.specs.refinement.Answers.{IsFault};

use ms_machine::Why;
use std::alloc::AllocError;

/// Why there is no store.
#[derive(Clone, Copy, PartialEq, Eq)]
pub enum LinkFault {
    /// An item of a module, both by their numbers from 0, is the first that isn't linked.
    Refused {
        /// The number of the module.
        module: u32,
        /// An import by its number; 0 for a table and 1 for a memory that is too large; elements by their number, and data behind
        /// them, that reach past the end.
        item: u32,
        /// What is wrong with it.
        why: Why,
    },
    /// Memory has run out, or there is more of a kind than 32 bits count.
    Memory,
}

impl From<AllocError> for LinkFault {
    ghost use Rattle.std.specs.Prelude.{◌≡◌};
    ghost use Rattle.ms_link.specs.declared.fault.LinkFault.TheVariants.{Memory};

    ghost from_gives = { λ _ f. f ≡ Memory };

    fn from(_: AllocError) -> Self {
        LinkFault::Memory
    }
}

/// The fault of an item of a module.
pub(crate) fn refused(module: usize, item: usize, why: Why) -> LinkFault
    ensures { IsFault (fault_at «module» item why) result }
{
    match (u32::try_from(module), u32::try_from(item)) {
        (Ok(module), Ok(item)) => LinkFault::Refused { module, item, why },
        _ => LinkFault::Memory,
    }
}
