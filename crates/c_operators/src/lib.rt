//! What operators of C make of two values or operands (C11, 6.5.6 to 6.5.9, 6.5.15), but for those on integers alone.
//!
//! It stands on `c_check_types`, names and types, and on `c_typed`, the typed tree with its forms. Read
//! `specs/Operations.antt`.
#![tactic(auto)]

mod beside;
mod operands;
mod operate;
mod pointers;

pub use operands::{choice, equality};
pub use operate::{minus, order, sum};
