//! The segment memory: segments that are made, freed, and read and written through handles.
//!
//! It stands on `ms_live`, `ms_tagged`, `ms_handle` and `ms_event`. It is generic over how live segments and tagged bytes are
//! kept, and proved once, by what `Gaps` and `Tagged` say. Read `specs/Memory.antt` first: the memory on plain lists, and what
//! each access checks, in its order.
#![tactic(auto)]

mod access;
mod memory;
mod segments;
mod trap;

pub use memory::SegmentMemory;
pub use segments::Segments;
pub use trap::SegTrap;
