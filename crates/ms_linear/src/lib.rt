//! Values, globals, the linear memory and tables (WebAssembly 1.0, 4.2).
//!
//! It stands on `ms_types`, `ms_handle` and, for numbers as bytes, `ms_bytes`. Read `specs/Memory.antt` first: the linear
//! memory is a list of bytes, an access a part of it; `specs/Table.antt` says which function a call through a table goes to.
#![tactic(auto)]

mod bounded;
mod global;
mod memory;
mod number;
mod operands;
mod room;
mod table;
mod value;

pub use bounded::BoundedStack;
pub use global::GlobalInst;
pub use memory::{Linear, MOST_PAGES, Outside};
pub use operands::{Cell, Operands};
pub use room::{MOST_HELD, Room};
pub use table::{CallTrap, Entry, FuncRef, MOST_ENTRIES, Table, target};
pub use value::Value;
