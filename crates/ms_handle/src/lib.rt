//! Handles, the references into the segment memory, and the arithmetic on them.
//!
//! A handle names one allocation by its identity, a part of it by base and length, and a place by an offset from the
//! base. Arithmetic moves the offset and looks at no memory: only an access checks it. A sealed handle is good for reading
//! alone, and so is each that is made of it. It stands on nothing. Read `specs/Handle.antt` first: the arithmetic on
//! integers without bounds.
#![tactic(auto)]

mod arithmetic;
mod handle;

pub use arithmetic::{add, diff, eq, is_null, seal, slice};
pub use handle::{Apart, Handle, Kind};
