//! Typing of C's expressions (C11, 6.5): from what was written to typed expressions.
//!
//! Each form of an expression has a rule in `specs/`, which gives what the expression is or has no answer; conversions,
//! decays, readings and tests become nodes. It stands on `c_conversions` and `c_operators`, what uses and operators make of
//! expressions, and `c_check_types`, names, types and constant expressions. Read `specs/Expressions.antt` first.
#![tactic(auto)]

mod assign;
mod call;
mod expression;
mod member;
mod name;
mod unary;

pub use expression::{performed, typed_as, typed_condition, typed_integer, typed_place, typing};
pub use member::member_type;
