//! Bodies in the order in which they are written (WebAssembly 1.0, 5.4.1 and 6.5.2), on `ms_module`.
//!
//! A body as data is numbered sequences. `specs/Flat.antt`, to be read first, says which items it is from left to right:
//! instructions, and the beginnings, `else`s and `end`s of blocks; the builder of bodies makes the same sequences of them
//! (`flat_bodies_are_rebuilt`). `Walk` gives the items one by one to the writers of both formats, without recursion.
#![tactic(auto)]

mod laws;
mod walk;

pub use laws::flat_bodies_are_rebuilt;
pub use walk::{Step, Walk};
