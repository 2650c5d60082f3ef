//! What a set of instances can reach of a store, and steps of a task on stores that differ outside of it: the memory that a set of
//! instances can't reach neither changes nor matters.
//!
//! The laws are clauses of functions without code (`laws.rt`); `reach` counts what is reached. It stands on the machine
//! (`ms_machine`). Read `specs/Reach.antt` first, then `specs/Confined.antt` and `specs/Walks.antt`, and for `reach`
//! `specs/Count.antt`.
#![tactic(auto)]

mod amount;
mod chunks;
mod closing;
mod counting;
mod laws;
mod leading;
mod marked;
mod own;

pub use amount::Reach;
pub use counting::reach;
pub use laws::{runs_are_confined, steps_are_confined};
