//! The types of C (C11, 6.2.5) and their layout.
//!
//! Integer types with their ranks, widths and conversions; types whose parts are shared; the structs that are defined, each
//! with its layout, and from them sizes, alignments and offsets. It stands on no other crate. `specs/Types.antt` is the
//! definition to read first, then `specs/Layout.antt`. What is true of layouts is said by the laws of `laws.rt`.
#![tactic(auto)]

mod definition;
mod integers;
mod laws;
mod layout;
mod structs;
mod types;

pub use integers::{IntType, same_integer};
pub use laws::{members_are_placed, rounds_up, structs_nest, types_are_aligned};
pub use layout::MOST_BYTES;
pub use structs::{Structs, align, offset, size};
pub use types::{CType, Scalar, Signature};
