//! The parser of C (C11, 6.5 to 6.9): tokens to a translation unit.
//!
//! `parse` gives the unit exactly where the tokens are one by the grammar, else the first place up to which none begins.
//! It is a loop over the table of `c_productions` and `c_parse_steps`, with a stack of the productions that stand open; it stands on the trees
//! of `c_tree` and the tokens of `c_token`. Read `specs/Units.antt` first, beside `specs/Grammar.antt` of `c_tree`.
#![tactic(auto)]

mod fault;
mod parser;
mod runs;
mod steps;
mod waiting;

pub use fault::CParse;
pub use parser::parse;
