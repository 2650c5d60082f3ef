//! The outside of the program, as three traits: a source of bytes, a sink of bytes, and a shelf of named files. Each says what
//! a call means on what the object holds, where the object tells it, and counts its faults, and sources and sinks their calls: a
//! generic caller can't raise a count by itself. `Sure..` are in memory and never fail, `Mem..`, for tests, fail at the calls
//! that they are told to fail at, and `StdSource`, `StdSink` and `FileShelf` are over the system. It stands on nothing. Read
//! `specs/Sink.antt`, `specs/Shelf.antt` and `specs/refinement/Source.antt` first.
#![tactic(auto)]

mod count;
mod device;
mod fault_counts;
mod file_shelf;
mod mem_shelf;
mod mem_sink;
mod mem_source;
mod script;
mod shelf;
mod sink;
mod source;
mod std_sink;
mod std_source;
mod sure_shelf;
mod sure_sink;
mod sure_source;
mod system;

pub use device::{Disk, Fault, ReadDevice, WriteDevice};
pub use file_shelf::FileShelf;
pub use mem_shelf::MemShelf;
pub use mem_sink::MemSink;
pub use mem_source::MemSource;
pub use shelf::{Fetched, Shelf};
pub use sink::{Put, Sink};
pub use source::{Got, Source};
pub use std_sink::StdSink;
pub use std_source::StdSource;
pub use sure_shelf::SureShelf;
pub use sure_sink::SureSink;
pub use sure_source::SureSource;
pub use system::{SystemDisk, SystemReader, SystemWriter};
