//! How expressions of C are used (C11, 6.3): converted, decayed, read, tested, assigned or thrown away.
//!
//! It stands on `c_check_types`, names and types, and on `c_typed`, the typed tree and the forms that expressions have before
//! they are used. Read `specs/Forms.antt`.
#![tactic(auto)]

mod conversion;

pub use conversion::{
    as_place, assigned_to, condition_of, integer_of, operand, pointer_from, pointer_of,
    thrown_away, value_of,
};
