//! The writer of binary modules (WebAssembly 1.0, chapter 5).
//!
//! `write` gives the one spelling of a module that `specs/Written.antt`, to be read first, says: with the shortest numbers, the
//! fewest runs of locals, no empty section and no custom one. The functions below it write a part each at the end of bytes. It
//! stands on `ms_bin_grammar`, by which the bytes spell the module, and on `ms_flat`, which goes through bodies.
#![tactic(auto)]

mod body;
mod fault;
mod funcs;
mod items;
mod opcodes;
mod parts;
mod types;
mod writer;

pub use fault::BinFault;
pub use writer::write;
