//! Which variables of a typed unit are objects in memory (C11, 6.2.4): arrays, structs, and what an `&` stands before.
//!
//! It stands on the typed tree (`c_typed`) and on units that are well typed (`c_typed`). Read `specs/Flags.antt` first, which
//! has a flag for each variable, by `is_object` of `c_typed/specs/Objects.antt`; then `specs/Marks.antt`, what a walk over a tree
//! marks.
#![tactic(auto)]

mod marks;
mod objects;
mod walk;

pub use objects::{Objects, find_objects};
