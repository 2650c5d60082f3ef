//! What declarations of C make known (C11, 6.2.1 to 6.2.3, 6.7 and 6.9.1).
//!
//! Names enter scopes, structs are defined by their members, functions get their slots and bodies, and initializers say by
//! their form what is known of a variable without typing an expression. It stands on `c_check_types`, what is known at a
//! place in a unit and its rules. Read `specs/Structs.antt` first, then `specs/Initials.antt`.
#![tactic(auto)]

mod enumerations;
mod functions;
mod initials;
mod scope;
mod structs;

pub use functions::{enters_parameters, is_declared_alone, result_in, with_body};
pub use initials::{bare, fills, is_address, is_reference, variable_type};
pub use scope::{closed, declares_function, enters_global, enters_local, opened};
pub use structs::outer;
