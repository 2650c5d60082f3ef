//! Tasks: frames, operands, labels and calls, and the control instructions (WebAssembly 1.0, 4.2.12 and 4.4.5).
//!
//! It stands on `ms_linear` and `ms_module`. Read `specs/Thread.antt` first, what a thread is on plain lists, and then
//! `specs/Control.antt`, where control instructions lead.
#![tactic(auto)]

mod control;
mod far;
mod frames;
mod func;
mod locals;
mod marks;
mod near;
mod repeat;
mod task;

pub use control::CallFault;
pub use frames::Frames;
pub use func::FuncInst;
pub use locals::SharedLocals;
pub use marks::{Mark, Marks};
pub use task::{Fetched, Task};
