//! What a job says.

use ms_module::Name;
use ms_types::Vector;

/// A job: the modules of a run, its tasks, and how they are run.
#[derive(Drop)]
pub struct Job {
    /// The modules in the order in which they are linked, at most 64: the name of each, and its file.
    pub modules: Vector<(Name, Name)>,
    /// The tasks in order, at least 1 and at most 64: for each the number of its module, from 0, and an export's name.
    pub tasks: Vector<(u32, Name)>,
    /// How many entries in a row name one task where no file tells the schedule, 1 to 1,000,000.
    pub turns: u32,
    /// The file that tells the schedule.
    pub schedule: Option<Name>,
    /// How many entries are used at most, up to 10^12; with a trace up to 10^6.
    pub budget: u64,
    /// How many bytes the segment memory has, 16 to 1,073,741,824.
    pub memory: u32,
    /// The file that the events of the segment memory are written to.
    pub trace: Option<Name>,
    /// Whether the live segments are reported at the end.
    pub dump: bool,
    /// What is asked of reach, at most 64: for each the number of a task, and those of 1 to 64 different modules.
    pub reach: Vector<(u32, Vector<u32>)>,
    /// Whether it is reported at the end how each task stands, and whether it is apart from all others.
    pub each: bool,
    /// The number of the task whose entries alone name one: those of all others name a task that isn't there.
    pub only: Option<u32>,
    /// Whether the numbers of steps and of events are reported in front of the end; no line of a job's text asks for it.
    pub counts: bool,
}
