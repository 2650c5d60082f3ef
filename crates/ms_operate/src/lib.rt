//! What numeric instructions, and those on the linear memory, make of the operands (WebAssembly 1.0, 4.4.1 and 4.4.4).
//!
//! It stands on `ms_linear`, `ms_module` and `ms_num`. Read `specs/Numbers.antt` first, and `specs/Memories.antt`: each is a
//! function on the list of operands, with an outcome for a trap.
#![tactic(auto)]

mod access;
mod memory;
mod numbers;
mod trap;

pub use access::{number_for, value_of};
pub use memory::linear;
pub use numbers::numeric;
pub use trap::{Fault, Trap};
