//! Laws of compiled code that need no run: the module of a well-typed unit of C is valid WebAssembly, exports what the unit defines,
//! and has no more blocks, locals, loops and calls than the unit asks for.
//!
//! There is no code. It stands on the module of a unit (`c_code`), on the judgement of C's types (`c_typed`) and on the rules
//! of validation (`ms_rules`). The laws are the clauses of `src/laws.rt`; in `proofs/`, `Typing.antt` says what it is for code that
//! is put together to be typed, `Names.antt` what the indices in a function's code have to name, and `Bounded.antt` what blocks,
//! loops and calls code has.
#![tactic(auto)]

mod laws;

pub use laws::{
    compiled_declares_few_locals, compiled_exports_its_functions, compiled_is_valid,
    compiled_loops_and_calls, compiled_nests,
};
