//! The reader of binary modules (WebAssembly 1.0, chapter 5).
//!
//! `read` gives a module exactly where the bytes are a spelling of it. The readers below it follow the grammar of
//! `ms_bin_grammar` from left to right, each proved to give what its format gives, with the place of the first fault. Read
//! `specs/Readers.antt` for how that is said.
#![tactic(auto)]

mod body;
mod funcs;
mod instrs;
mod items;
mod names;
mod numbers;
mod parts;
mod reader;
mod sections;
mod steps;
mod types;

pub use ms_bin_grammar::{Counted, ReadFault};
pub use reader::read;
