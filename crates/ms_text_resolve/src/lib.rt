//! From fields with identifiers to a module (WebAssembly 1.0, 6.1.3 and 6.6): the second stage of reading a text.
//!
//! It stands on `ms_text_grammar`, whose `specs/Elaborating.antt` is the definition to read first, on `ms_text_names` (what
//! identifiers and type uses stand for) and on the builder of bodies of `ms_module`. `resolve` gives the module exactly where
//! each identifier is known and none is repeated, else the least place of one that is not.
#![tactic(auto)]

mod body;
mod exports;
mod funcs;
mod gather;
mod imports;
mod instrs;
mod modules;
mod segments;
mod texts;

pub use modules::resolve;
