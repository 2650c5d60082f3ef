//! The contract of a sink of bytes.

ghost use Rattle.std.specs.Prelude.{ℕ, List, Option};
ghost use Rattle.ms_outside.specs.Faults.{CountsCall};
ghost use Rattle.ms_outside.specs.Sink.{CountsPut, Puts};

/// What a put into a sink, or a write to a shelf, gives.
#[derive(Clone, Copy, PartialEq, Eq)]
pub enum Put {
    /// It holds the piece.
    Done,
    /// It failed, which it has counted. It holds a first part of the piece, perhaps nothing of it.
    Failed,
    /// Memory ran out. It is unchanged.
    Memory,
}

/// Bytes that go outside, a piece at a time.
pub trait Sink {
    /// The bytes that the sink holds, where it tells them.
    ghost held: { Self → Option (List ℕ) };

    /// How many puts there were so far. A sink that doesn't count them stands at the last value of a `u64`.
    ghost puts: { Self → ℕ };

    /// How many puts have failed so far.
    ghost faults: { Self → ℕ };

    /// Puts a piece at the end of what the sink holds.
    fn put(&mut self, piece: &[u8]) -> Put
        ensures held { Puts result piece.now (held self.old) (held self.new) }
        ensures puts { CountsCall (puts self.old) (puts self.new) }
        ensures faults { CountsPut result (faults self.old) (faults self.new) };
}
