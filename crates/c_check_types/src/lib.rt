//! Names, types and integer constant expressions of C (C11, 6.2, 6.6, 6.7.2, 6.7.6 and 6.7.7), as typing reads them.
//!
//! Each rule of the definition is a function on what is known at a place in a unit; the code answers as the rule does. It
//! stands on `c_tree`, what was written, `c_types` and `c_typed`, types and typed trees, and `ms_num`, the numbers of
//! constants. Read `specs/State.antt` first, then `specs/Types.antt`.
#![tactic(auto)]

mod checker;
mod constants;
mod declarators;
mod declared;
mod entity;
mod fault;
mod names;
mod operators;
mod prelude;
mod types;

pub use checker::{Checker, Scope, entity_in, entity_of};
pub use constants::{
    Constant, a_number, binary, cast, character_bits, choice, constant_bits, constant_type,
    converted, int_of, natural, unary, value_at,
};
pub use declared::{Declared, Derived, Parameter, adjusted, pointer_to, result_type, whole_type};
pub use entity::Entity;
pub use fault::Stop;
pub use names::{Names, owned};
pub use operators::{Operator, operator_of};
pub use prelude::{LibraryName, library};
pub use types::{function_type, measured, same_type};
