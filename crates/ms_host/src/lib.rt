//! The host: why a program stops, and the host's three functions, `putchar`, `getchar` and `abort`.
//!
//! `putchar` puts one byte to a sink, `getchar` takes one byte from a source; a fault is the sink's or the source's, which has
//! counted it. It stands on `ms_outside`. Read `specs/Host.antt` first, and `specs/Words.antt` for the words of traps.
#![tactic(auto)]

mod host;
mod trap;

pub use host::{Host, PutFault, TakeFault, abort, getchar, putchar};
pub use trap::TrapKind;
