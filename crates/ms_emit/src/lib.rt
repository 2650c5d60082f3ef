//! Code that is put together of parts (WebAssembly 1.0, 2.4): what each part adds to a body that is built.
//!
//! It stands on the builder of bodies (`ms_module`). Read `specs/Codes.antt`: a part is its instructions and the sequences of the
//! blocks in it, by the number of the first of these. The laws of `laws` say that the builder's calls make the code of each part.
#![tactic(auto)]

mod laws;

pub use laws::{builds_in_parts, parts_add_up};
