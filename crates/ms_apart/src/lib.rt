//! Tasks of a crew that nothing joins: what one of them puts, and how it ends, is what it puts and how it ends alone.
//!
//! There is no code, but the law as a clause (`laws.rt`). It stands on the crews (`ms_tasks`), where `specs/Joined.antt` says which
//! tasks nothing joins. Read `specs/Runs.antt` here, which says what a run shows of one task, with `specs/Ranks.antt` for its events.
#![tactic(auto)]

mod laws;

pub use laws::tasks_are_apart;
