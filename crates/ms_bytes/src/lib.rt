//! Bytes that are read from left to right, numbers as bytes, and the library of formats.
//!
//! The definitions in `specs/` are the parts that formats are made of, over any kind of text (bytes, tokens) and any kind of
//! fault: what a format's items are spelled like, how they are read, and that the two agree. The files that end in `Laws` are
//! lemmas, which stand there because a format carries its laws. It stands on nothing. Read `specs/Format.antt` first, and
//! `specs/Spot.antt` for the cursor.
#![tactic(auto)]

mod cursor;
mod little;

pub use cursor::Cursor;
pub use little::{get_le, put_le};
