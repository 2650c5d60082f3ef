//! The compiler: the module of a typed unit of C.
//!
//! It stands on units that are well typed (`c_typed`), on which of their variables are objects (`c_place`), and on the parts that code
//! is made of (`c_emit`). Read `specs/Modules.antt` of `c_code` first: the module is exactly `compiled`. `values` and `statements` have
//! a function for each group of nodes.
#![tactic(auto)]

mod fault;
mod functions;
mod known;
mod statements;
mod unit;
mod values;
mod waits;

pub use fault::{CFault, Limit};
pub use unit::compile;
