//! Linking (WebAssembly 1.0, 4.5.4): several modules, and the functions of the host, to one store.
//!
//! It stands on `ms_import`, which finds what an import is given, and on `ms_machine`, which has the definitions: read its
//! `specs/Linked.antt` first, the store or the first fault. `link` is exactly that. Its clauses: `link`, the definition; `typed`, the
//! store is well typed; `fits`, its handles fit; `sound`, it is safe before anything has happened; `starts`, each start function is
//! there and takes and gives nothing. All hold whatever the modules share.
#![tactic(auto)]

mod adding;
mod constant;
mod fault;
mod fitting;
mod hosting;
mod linking;
mod making;
mod putting;
mod storing;

pub use fault::LinkFault;
pub use linking::link;
pub use ms_machine::Why;
