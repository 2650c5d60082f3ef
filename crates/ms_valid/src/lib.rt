//! The validator (WebAssembly 1.0, chapter 3, with the algorithm of its appendix in its own words).
//!
//! It stands on `ms_rules`: `validate` is `Ok` exactly where the module is well typed by the rules there. Read
//! `specs/Shape.antt` first: what is known of the operands is a set of stacks, and each instruction makes the new set of the
//! old one that its rule says, so that the validator is sound and complete at once.
#![tactic(auto)]

mod body;
mod branches;
mod calls;
mod constants;
mod control;
mod exports;
mod expressions;
mod head;
mod limits;
mod operands;
mod refusal;
mod scope;
mod select;
mod typed;
mod valid;
mod variables;

pub use refusal::{Part, Refusal};
pub use valid::{Valid, validate};
