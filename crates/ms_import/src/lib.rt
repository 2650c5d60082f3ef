//! Imports (WebAssembly 1.0, 4.5.4): what an import of the next module is given of the modules before, or why it is given nothing.
//!
//! It stands on `ms_machine`, which has the definitions: read its `specs/Externs.antt` first, which says where an import is looked for
//! and whether what is found is of the kind and the type that are wanted. `Made` is what the modules linked so far have made, seen as
//! the record of that name; `Made::resolved` answers exactly as defined there, and `Made::with_instance` adds a module
//! (`specs/Adding.antt`). An instance among them is `Known`: its exports are found by their names.
#![tactic(auto)]

mod known;
mod looking;
mod made;
mod matching;

pub use known::Known;
pub use made::Made;
