//! What words ask for.

use thiserror::Error;

/// What the words of a command line ask for. Files are named as they are written in the words.
#[derive(Clone, Copy, PartialEq, Eq)]
pub enum Request<'a> {
    /// Run the module in the file: at most `budget` steps, with `memory` bytes of segment memory.
    Exec {
        file: &'a str,
        budget: u64,
        memory: u32,
    },
    /// Run the modules and the tasks that a job names.
    Run {
        job: &'a str,
    },
    /// Validate the module in the file.
    Check {
        file: &'a str,
    },
    /// Write the module in the file, a text, to `out` in the binary format.
    Asm {
        file: &'a str,
        out: &'a str,
    },
    /// Write the module in the file to `out` in the text format.
    Dis {
        file: &'a str,
        out: &'a str,
    },
    /// Write the module of the file, a unit of C, to `out` in the binary format.
    Compile {
        file: &'a str,
        out: &'a str,
    },
    /// Judge the trace in the file, of a run with `memory` bytes of segment memory.
    Judge {
        file: &'a str,
        memory: u32,
    },
    /// Run the program that allocates and frees by `count` random numbers, which begin with `seed`.
    Stress {
        seed: u64,
        count: u64,
    },
}

/// Why words are no request.
#[derive(Clone, Copy, Debug, PartialEq, Eq, Error)]
pub enum WordsFault {
    /// The definition of the commands refuses the words; those that ask for help, too.
    #[error("the words are no command of the program")]
    Refused,
    /// Memory ran out.
    #[error("memory ran out")]
    Memory,
}
