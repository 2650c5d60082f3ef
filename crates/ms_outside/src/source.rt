//! The contract of a source of bytes.

ghost use Rattle.std.specs.Prelude.{ℕ, List, Option};
ghost use Rattle.ms_outside.specs.Faults.{CountsCall};
ghost use Rattle.ms_outside.specs.refinement.Source.{CountsTake, GivesByte, Takes};

/// What a take from a source gives.
#[derive(Clone, Copy, PartialEq, Eq)]
pub enum Got {
    /// The next byte.
    Byte(u8),
    /// The source has ended.
    End,
    /// The source failed, which it has counted.
    Failed,
}

/// Bytes that come from outside, one at a time.
pub trait Source {
    /// The bytes that are left, where the source tells them.
    ghost left: { Self → Option (List ℕ) };

    /// How many takes there were so far. A source that doesn't count them stands at the last value of a `u64`.
    ghost takes: { Self → ℕ };

    /// How many takes have failed so far.
    ghost faults: { Self → ℕ };

    /// Takes the next byte. After `Failed` what is left stays.
    fn take(&mut self) -> Got
        ensures left { Takes result (left self.old) (left self.new) }
        ensures byte { GivesByte result }
        ensures takes { CountsCall (takes self.old) (takes self.new) }
        ensures faults { CountsTake result (faults self.old) (faults self.new) };
}
