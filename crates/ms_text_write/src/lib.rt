//! The writer of texts (WebAssembly 1.0, chapter 6), on `ms_flat`, which goes through bodies and has the keywords.
//!
//! `write` gives the one text of a module that `specs/Shown.antt`, to be read first, says: indices alone, flat instructions, a
//! line a field. Within the limits of texts (`specs/Limits.antt`) it spells that module and no other, by `ms_text_grammar`.
//! Those of `laws.rt` say that each part is read as what it is, and that a module that bytes spell is the one of its text.
#![tactic(auto)]

mod body;
mod fields;
mod funcs;
mod laws;
mod parts;
mod types;
mod words;
mod writer;

pub use laws::{
    constants_are_read_back, disassembled_modules_are_read_back, indices_are_read_back,
    keywords_are_read_back, strings_are_read_back,
};
pub use writer::write;
