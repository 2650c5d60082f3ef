//! Texts of jobs and schedules: which modules a run has, which tasks, and in which order these take their steps.
//!
//! `parse` reads a job and `schedule` the numbers of a schedule, or each says the first fault. It stands on `ms_names` for
//! UTF-8, `ms_module`, `ms_types` and `ms_rules`. Read `specs/Jobs.antt` first, which is the format line by line;
//! `specs/Bounds.antt` says what holds of each job, and `specs/Schedules.antt` has the other format.
#![tactic(auto)]

mod draft;
mod entries;
mod fault;
mod job;
mod lines;
mod reader;
mod words;

pub use draft::MOST_TURNS;
pub use entries::schedule;
pub use fault::{JobFault, SchedFault};
pub use job::Job;
pub use reader::parse;
