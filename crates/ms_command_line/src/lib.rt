//! The words of the command line, for the commands `exec`, `run`, `check`, `asm`, `dis`, `compile`, `judge` and `stress`, and their usage
//! lines.
//!
//! `parse_words` gives what the words ask for exactly where the definition of the commands takes them. It stands on
//! `clap`. Read `specs/Commands.antt` first: each command is one row, from which the command line and its usage line
//! follow. Then `specs/Asked.antt` says what words that are taken ask for.
#![tactic(auto)]

mod definition;
mod lines;
mod matched;
mod parse;
mod request;

pub use definition::{BUDGET, DEFAULT_BUDGET, DEFAULT_MEMORY, MEMORY, NumberOption};
pub use lines::usage;
pub use parse::parse_words;
pub use request::{Request, WordsFault};
