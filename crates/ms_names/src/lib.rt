//! Names: whether bytes are UTF-8 (WebAssembly 1.0, 5.2.4), and names by numbers.
//!
//! It stands on `indexmap`. What UTF-8 is, is the standard library's `is_utf8`; read `specs/Numbered.antt` for the numbers.
#![tactic(auto)]

mod table;
mod text;

pub use table::{NameTable, Seen};
pub use text::utf8;
