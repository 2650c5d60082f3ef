//! What identifiers and type uses of a text stand for (WebAssembly 1.0, 6.1.3, 6.5.1 and 6.6.3).
//!
//! It stands on `ms_text_grammar` and `ms_text_lex`. `Space` finds the first entry of an identifier without a scan; `Context`
//! holds the index spaces of a module and its types with those that uses add, `LocalIds` those of a function's locals. The
//! definitions are `Identifiers`, `FieldKinds` and `TypeUses` in the `specs/` of `ms_text_grammar`; read `specs/Settings.antt` and
//! `specs/Answers.antt` next.
#![tactic(auto)]

mod context;
mod gather;
mod kinds;
mod labels;
mod locals;
mod names;
mod sigs;
mod space;

pub use context::Context;
pub use kinds::{Tally, kind_of, same_kind};
pub use labels::{label_identified, labels_resolved};
pub use locals::LocalIds;
pub use names::{enter_all, number};
pub use space::Space;
