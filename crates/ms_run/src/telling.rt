//! What is told of a run beside its end.

use ms_module::Name;
use ms_types::Vector;

/// What a job asks for.
#[derive(Drop)]
pub struct Telling {
    /// The file that the events are written to.
    pub trace: Option<Name>,
    /// Whether the numbers of steps and of events are reported.
    pub counts: bool,
    /// Whether the live segments are reported.
    pub dump: bool,
    /// Which sets of modules are asked what they reach, each behind the number of a task.
    pub reach: Vector<(u32, Vector<u32>)>,
    /// Whether it is reported how each task stands.
    pub each: bool,
}
