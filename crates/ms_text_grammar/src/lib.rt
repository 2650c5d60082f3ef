//! The grammar of the text format (WebAssembly 1.0, chapter 6): from tokens to fields with identifiers, and to a module.
//!
//! It stands on `ms_text_lex` (tokens), `ms_module` (the module as data, and the table of keywords of instructions) and the
//! formats of `ms_bytes`. Read `specs/TextSpells.antt` first: `TextSpells bytes module` says that a text spells a module, and
//! `Stops bytes why` why it spells none. The code is what a reader gives on the way: fields, frames of bodies, faults.
#![tactic(auto)]

mod fault;
mod frame;
mod keyword;
mod laws;
mod placed;
mod surface;
mod word;

pub use fault::{Counted, TextFault};
pub use frame::{Frame, Fresh, Sign};
pub use keyword::{ALIGN_FRONT, ELSE_WORD, END_WORD, Keyword, OFFSET_FRONT};
pub use laws::{
    fields_are_spelled_in_one_way, folded_instructions_are_taken, greater_bounds_spell_it,
    one_module_is_spelled, scanned_uses_are_those_of_fields,
};
pub use placed::Placed;
pub use surface::{
    Body, Entry, ExternKind, Field, ImportNames, Index, Item, Op, Param, Plain, TypeField, TypeUse,
};
pub use word::Word;
