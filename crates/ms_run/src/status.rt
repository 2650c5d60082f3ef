//! The statuses with which the program ends.

ghost use Rattle.std.specs.Prelude.{◌≡◌};

/// A status. Its number is the exit status of the program.
#[derive(Clone, Copy, PartialEq, Eq)]
pub enum Status {
    /// All was done.
    Done = 0,
    /// The program was stopped.
    Trapped = 1,
    /// The words ask for nothing.
    Usage = 2,
    /// The input is refused.
    Refused = 3,
    /// The budget of the run is used up.
    OutOfBudget = 4,
    /// A file could not be read.
    ReadFault = 5,
    /// The report could not be put.
    WriteFault = 6,
    /// Memory ran out.
    OutOfMemory = 7,
    /// A file has too many bytes.
    TooLong = 8,
}

impl Status {
    ghost use Rattle.ms_run.specs.refinement.Statuses.{code_of};

    /// The exit status of the program.
    pub fn code(self) -> u8
        ensures { result ≡ code_of self }
    {
        self as u8
    }
}
