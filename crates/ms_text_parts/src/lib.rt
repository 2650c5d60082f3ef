//! The readers of the parts that text is made of (WebAssembly 1.0, 6.3 and 6.4): parentheses, words, numbers, types.
//!
//! Each gives what its format of `ms_text_grammar` gives, on which it stands: see `specs/Readers.antt` first. `Words` is the
//! cursor over the tokens of a source, and `run` takes steps as long as there is another one.
#![tactic(auto)]

mod block_types;
mod groups;
mod locals;
mod numbers;
mod parts;
mod steps;
mod types;
mod words;

pub use block_types::block_type;
pub use locals::all_locals;
pub use numbers::{
    constant_32, constant_64, index, mem_arg, next_is_index, number, optional_index,
};
pub use parts::{
    closing, keyword, name, next_begins, next_closes, next_is_id, no_group, opening, optional_id,
    string, the,
};
pub use steps::{Steps, run};
pub use types::{global_type, limits, table_type, type_field, type_use, unnamed_use};
pub use words::{Words, bad, is_close, is_keyword, is_open, is_word};
