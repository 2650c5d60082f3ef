//! Judging a whole trace.

ghost use Rattle.ms_monitor.specs.refinement.Answers.{JudgesTrace};

use crate::monitor::{Monitor, Verdict};
use ms_event::Event;
use std::alloc::Global;

/// Why a trace isn't accepted.
#[derive(Clone, Copy, PartialEq, Eq)]
pub enum JudgeFault {
    /// The event of this number, counted from 1, is the first that may not come next.
    Rejected { n: usize },
    /// Memory ran out.
    Memory,
}

/// Whether the colour monitor accepts a trace, over the addresses from 0 up to `capacity`, which is excluded.
///
/// # Errors
///
/// `Rejected` exactly where an event may not come next, with the number of the first one; `Memory` may stand in place of any
/// answer.
pub fn judge(alloc: Global, capacity: u32, events: &[Event]) -> Result<(), JudgeFault>
    ensures { JudgesTrace capacity events.now result }
{
    let Ok(mut monitor) = Monitor::new(alloc, capacity) else {
        return Err(JudgeFault::Memory);
    };
    for (at, event) in events.iter().enumerate() {
        match monitor.see(event) {
            Ok(()) => {}
            Err(Verdict::Reject) => return Err(JudgeFault::Rejected { n: at + 1 }),
            Err(Verdict::Memory) => return Err(JudgeFault::Memory),
        }
    }
    Ok(())
}
