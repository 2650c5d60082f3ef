//! Reading bodies of the text format (WebAssembly 1.0, 6.5), flat and folded.
//!
//! Each reader gives what its format of `ms_text_grammar` gives (`specs/Bodies.antt` there is the one to read first). It stands
//! on the cursor of `ms_text_parts`. What is open is a list of frames, so that nothing recurs on nesting; keywords are found
//! by their letters (`specs/Classes.antt`).
#![tactic(auto)]

mod advances;
mod bodies;
mod heads;
mod instructions;
mod lookup;
mod words;
mod work;

pub use bodies::{body, folded_body};
