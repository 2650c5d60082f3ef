//! What the code of C is made of: the instructions of each operation, access, jump and block, as calls on a body that is being built.
//!
//! Nothing here goes over expressions or statements but to see what a unit uses (`uses`): `c_compile` does, and calls these for each node.
//! `target` has what code refers to: the places of variables, and from `tables` the indices of functions, their entries and types. It
//! stands on the builder of bodies (`ms_module`), whose calls make the code of each part (`ms_emit`), and on the definition of the code
//! (`c_code`): each call adds exactly the definition's part, as its contract says.
#![tactic(auto)]

pub mod accesses;
pub mod adding;
pub mod blocks;
pub mod body;
pub mod cases;
pub mod conversions;
pub mod exits;
pub mod leaves;
pub mod operations;
pub mod operators;
pub mod signatures;
pub mod tables;
pub mod target;
pub mod uses;
