//! Why an instruction was not carried out.

ghost use Rattle.std.specs.Prelude.{◌≡◌};
ghost use Rattle.ms_machine.specs.refinement.Doing.{fault_of};
ghost use Rattle.ms_machine.specs.Segments.{trap_of as segment_trap_of};
ghost use Rattle.ms_machine.specs.Step.{trap_of};

use ms_host::{Host, TrapKind};
use ms_operate::{Fault as OperateFault, Trap};
use ms_segment::SegTrap;
use std::alloc::AllocError;

/// Why an instruction was not carried out.
#[derive(Clone, Copy, PartialEq, Eq)]
pub(crate) enum Fault {
    /// It stops the program.
    Trap(TrapKind),
    /// The host is called; the task goes on behind the call.
    Host(Host),
    /// Memory has run out.
    Memory,
}

impl From<AllocError> for Fault {
    ghost use Rattle.ms_machine.specs.declared.fault.Fault.TheVariants.{Memory};

    ghost from_gives = { λ _ f. f ≡ Memory };

    fn from(_: AllocError) -> Self {
        Fault::Memory
    }
}

/// The trap of an instruction on numbers or on the linear memory.
pub(crate) fn of_operate(trap: Trap) -> TrapKind
    ensures { result ≡ trap_of trap }
{
    match trap {
        Trap::Zero => TrapKind::Zero,
        Trap::Overflow => TrapKind::Overflow,
        Trap::Linear => TrapKind::Linear,
    }
}

/// The fault of an instruction on the linear memory.
pub(crate) fn of_fault(fault: OperateFault) -> Fault
    ensures { result ≡ fault_of fault }
{
    match fault {
        OperateFault::Trap(trap) => Fault::Trap(of_operate(trap)),
        OperateFault::Memory => Fault::Memory,
    }
}

/// The trap of a call on the segment memory.
pub(crate) fn of_segment(trap: SegTrap) -> TrapKind
    ensures { result ≡ segment_trap_of trap }
{
    match trap {
        SegTrap::Null => TrapKind::Null,
        SegTrap::Invalid => TrapKind::Invalid,
        SegTrap::Freed => TrapKind::Freed,
        SegTrap::Bounds => TrapKind::Bounds,
        SegTrap::Misaligned => TrapKind::Misaligned,
        SegTrap::Provenance => TrapKind::Provenance,
        SegTrap::Whole => TrapKind::Whole,
        SegTrap::Kind => TrapKind::Kind,
        SegTrap::Readonly => TrapKind::Readonly,
    }
}
