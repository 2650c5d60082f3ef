//! The machine: a store, and one step of a task on it (WebAssembly 1.0, chapter 4), with the segment memory.
//!
//! It stands on `ms_task`, `ms_host`, `ms_operate`, `ms_segment`, `ms_rules` and `ms_outside`. Read `specs/Step.antt` first, which says
//! what a step does, on lists, and `specs/Moves.antt`, which adds the input and the output; then `specs/Typing.antt` for well-typed
//! tasks, and `specs/refinement/Safety.antt` for what ties each handle to the colour monitor. What crates above do is defined here, too:
//! `specs/Externs.antt` and `specs/Linked.antt` for linking, `specs/Crews.antt` for runs of several tasks.
#![tactic(auto)]

mod control;
mod externs;
mod fault;
mod hosting;
mod lookup;
mod machine;
mod memory;
mod near;
mod plain;
mod segment;
mod starting;
mod stepped;
mod store;
mod straight;

pub use externs::{Extern, Why};
pub use machine::step;
pub use ms_task::Task;
pub use starting::{has_ended, start};
pub use stepped::Stepped;
pub use store::{Instance, Store};
pub use straight::{Stretch, run_quietly};
