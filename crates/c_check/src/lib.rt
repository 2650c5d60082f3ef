//! Typing of C's units (C11, 6.7 to 6.9): from what was written to the typed tree.
//!
//! Statements, declarations and units have rules in `specs/`, which give the typed tree or have no answer; each
//! rule is a function on what is known at a place in a unit. It stands on `c_check_exprs` and `c_declare`. Read
//! `specs/Units.antt` first, then `specs/Statements.antt`; `proofs/Trees.antt` has units whose typing is computed.
#![tactic(auto)]

mod declaring;
mod definition;
mod fault;
mod global;
mod initialiser;
mod labels;
mod statement;
mod switch;
mod unit;

pub use fault::CCheck;
pub use unit::check;
