//! Crews: a store, its start functions and its tasks, and runs of them by a schedule.
//!
//! It stands on `ms_machine`. Read `specs/Crews.antt` there first, which says what a run of a crew is, on lists; then here
//! `specs/Tasks.antt` for the crew of a store, `specs/States.antt` for how its tasks stand, `specs/Joined.antt` for which of them
//! nothing joins, and of `specs/refinement` `Ready.antt` for crews that may be run, `Schedules.antt` for their entries,
//! `Outside.antt` for what a run leaves outside, and `Logs.antt` for its log.
#![tactic(auto)]

mod all;
mod burst;
mod by_list;
mod by_turns;
mod crew;
mod finding;
mod laws;
mod log;
mod parts;
mod ran;
mod refusal;
mod rows;
mod schedule;
mod start_chain;
mod starting;
mod state;
mod whose;

pub use crew::Crew;
pub use laws::runs_are_safe;
pub use log::Log;
pub use ran::{Ran, Stop};
pub use refusal::Refusal;
pub use schedule::{Entries, Schedule};
pub use state::TaskState;
pub use whose::Whose;
