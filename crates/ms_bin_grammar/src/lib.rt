//! The grammar of binary modules (WebAssembly 1.0, chapter 5).
//!
//! It stands on `ms_module` (the module as data), `ms_leb` and the formats of `ms_bytes`. Read `specs/Module.antt` first:
//! `Spells bytes module` says that the bytes are a spelling of the module, and `Stops bytes fault` where bytes that spell none
//! go wrong. The code is what a reader gives beside a module, the faults and what the sections so far say, and the opcodes that reading and
//! writing have in common.
#![tactic(auto)]

mod codes;
mod fault;
mod laws;
mod sections;

pub use codes::{ANY_FUNC, FRAME, FUNC_TYPE, HEAP, NO_RESULT, opcodes, segment_codes};
pub use fault::{Counted, ReadFault};
pub use laws::{greater_bounds_spell_it, one_module_is_spelled};
pub use sections::Sections;
