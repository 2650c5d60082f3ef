//! Why a text is no job or no schedule.

ghost use Rattle.std.specs.Prelude.{◌≡◌};
ghost use Rattle.ms_job.specs.declared.fault.JobFault.TheVariants as job;
ghost use Rattle.ms_job.specs.declared.fault.SchedFault.TheVariants as sched;

use std::alloc::{AllocError, AllocFailed};
use thiserror::Error;

/// Why a text is no job. Faults of lines come before the other two, and `NoTask` before `Budget`.
#[derive(Clone, Copy, Debug, PartialEq, Eq, Error)]
pub enum JobFault {
    /// Line `n`, from 1, is the first one that isn't UTF-8 or breaks a rule.
    #[error("line {n} breaks a rule")]
    Line { n: usize },
    /// No line names a task.
    #[error("no task")]
    NoTask,
    /// A trace is asked for and the budget is above 10^6.
    #[error("the budget is too large for a trace")]
    Budget,
    /// Memory ran out.
    #[error("memory ran out")]
    Memory,
}

/// Why a text is no schedule.
#[derive(Clone, Copy, Debug, PartialEq, Eq, Error)]
pub enum SchedFault {
    /// The first word that is no number below 2^32 begins at byte `at`, from 0.
    #[error("no number at byte {at}")]
    At { at: usize },
    /// Memory ran out.
    #[error("memory ran out")]
    Memory,
}

impl From<AllocError> for JobFault {
    ghost from_gives = { λ _ e. e ≡ job.Memory };

    fn from(_e: AllocError) -> JobFault {
        JobFault::Memory
    }
}

impl<T: Drop> From<AllocFailed<T>> for SchedFault {
    ghost from_gives = { λ _ e. e ≡ sched.Memory };

    fn from(_e: AllocFailed<T>) -> SchedFault {
        SchedFault::Memory
    }
}
