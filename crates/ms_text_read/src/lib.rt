//! Reading a module of the text format (WebAssembly 1.0, chapter 6).
//!
//! `read` gives the module exactly where `TextSpells` says that the text spells it, else why it spells none: read
//! `specs/TextSpells.antt` of `ms_text_grammar` first. It stands on the lexer (`ms_text_lex`), the readers of parts and
//! bodies (`ms_text_parts`, `ms_text_bodies`) and the replacing of identifiers by indices (`ms_text_resolve`). The module
//! `fields` goes from tokens to fields, with the first fault of all (`first_stop` in `specs/Scans.antt` there).
#![tactic(auto)]

mod compare;
mod entries;
mod fields;
mod file;
mod laws;
mod lists;
mod names;
mod others;
mod reader;
mod scans;

pub use laws::texts_spell_one_module;
pub use reader::read;
