//! What came of a step.

use ms_event::Event;
use ms_host::TrapKind;
use ms_linear::Value;

/// What came of a step.
#[derive(Clone, Copy, PartialEq, Eq)]
pub enum Stepped {
    /// The task has more to do.
    On(Option<Event>),
    /// The task has ended, and left a value or none.
    Ended(Option<Value>, Option<Event>),
    /// The program is stopped. Nothing has changed.
    Trap(TrapKind),
    /// The input failed.
    ReadFault,
    /// The output failed.
    WriteFault,
    /// Memory has run out.
    Memory,
}
