//! How a run ends.

ghost use Rattle.std.specs.Prelude.{◌≡◌};
ghost use Rattle.ms_tasks.specs.refinement.Runs.{answer_of};
ghost use Rattle.ms_tasks.specs.refinement.Making.{stop_in};

use crate::burst::Halt;
use crate::whose::Whose;
use ms_host::TrapKind;

/// How a run ended.
#[derive(Clone, Copy, PartialEq, Eq)]
pub enum Ran {
    /// The start functions and all tasks have ended.
    Results,
    /// A step of this one stopped the program.
    Trap(Whose, TrapKind),
    /// The budget, or the schedule, is used up.
    Budget,
    /// The input failed.
    ReadFault,
    /// The output failed.
    WriteFault,
    /// Memory has run out.
    Memory,
}

/// What the halt of all is called.
pub(crate) fn ran_of(halt: Halt) -> Ran
    ensures { result ≡ answer_of halt }
{
    match halt {
        Halt::Ended => Ran::Results,
        Halt::Paused => Ran::Budget,
        Halt::Trap(whose, kind) => Ran::Trap(whose, kind),
        Halt::ReadFault => Ran::ReadFault,
        Halt::WriteFault => Ran::WriteFault,
        Halt::Memory => Ran::Memory,
    }
}

/// The step that stopped a program: whose it was, and how it trapped.
#[derive(Clone, Copy, PartialEq, Eq)]
pub struct Stop {
    pub whose: Whose,
    pub kind: TrapKind,
}

/// The step that stopped the program, if one did.
pub(crate) fn stop_of(ran: Ran) -> Option<Stop>
    ensures { result ≡ stop_in ran }
{
    match ran {
        Ran::Trap(whose, kind) => Some(Stop { whose, kind }),
        Ran::Results => None,
        Ran::Budget => None,
        Ran::ReadFault => None,
        Ran::WriteFault => None,
        Ran::Memory => None,
    }
}
