//! The table of a parser of C (C11, 6.5 to 6.9): its kinds and productions, what a production wants, and what is built of its
//! parts.
//!
//! Each nonterminal of the grammar is a kind. A production is a list of the words and parts that are still to come, and the tree
//! that they make. It stands on `c_tree` and `c_token`; what a word does is `c_parse_steps`. `specs/Table.antt` is the definition
//! to read first.
#![tactic(auto)]

mod building;
mod classes;
mod frame;
mod heights;
mod kind;
mod productions;
mod value;

pub use building::build;
pub use classes::{
    access_at, infix_at, integer_at, is_case, is_default, is_else, is_enum, is_sizeof,
    is_specifier, is_struct, prefix_at, step_at,
};
pub use frame::{Frame, Parts, Rest};
pub use kind::{Kind, Production, Symbol, Terminal};
pub use value::{Holder, Value};
