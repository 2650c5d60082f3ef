//! What a parser of C has in hand and what it still wants (C11, 6.5 to 6.9), word by word.
//!
//! A value is in hand; with the next word it grows, or a production of the table opens that wants further parts, or it is complete
//! and goes to the frame that waits for it. It stands on `c_productions`, whose `specs/Table.antt` is the definition to read first;
//! `proofs/` has the laws of the table: what is spelled so is read so, and each state can be completed at its least height.
#![tactic(auto)]

mod acting;
mod begin;
mod declarator_actions;
mod enum_actions;
mod expr_actions;
mod inits_actions;
mod other_actions;
mod resting;
mod specifier_actions;

pub use acting::{Outcome, action};
pub use resting::{least, rests};
