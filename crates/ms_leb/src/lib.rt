//! Numbers of LEB128 (WebAssembly 1.0, 5.2.2): how they are spelled, reading them, and writing them.
//!
//! It stands on `ms_bytes`. Read `specs/Leb128.antt` first: `UnsignedAt` and `SignedAt` say that a number of so many bits is
//! spelled at the front of bytes. `specs/Shortest.antt` has the spellings that are written.
#![tactic(auto)]

mod leb;
mod numbers;
mod read;
mod write;

pub use leb::Leb;
pub use read::{read_s, read_u};
pub use write::{write_s, write_u};
