//! What the adapters ask of the system: calls that fail or don't, each of whose faults the device counts itself.
//!
//! The adapters are generic over these traits, so they can't raise a count by themselves, nor pass for flushed or for
//! opened what wasn't. The impls in `system.rt` are all that stands between them and the standard library.

ghost use Rattle.std.specs.Prelude.{◌≡◌, ℕ, List, Option, IfOk, OnOk};
ghost use Rattle.std.specs.Io.{ReadsAtMost, WritesAtMost};
ghost use Rattle.std.specs.Io.KnownBytes.{Keeps, ReadConsumes, WriteAppends};
ghost use Rattle.ms_outside.specs.refinement.Devices.{CountsOutcome, TakesSome};

/// A call of a device failed, which the device has counted.
#[derive(Clone, Copy, PartialEq, Eq)]
pub struct Fault;

/// A device that gives bytes.
pub trait ReadDevice {
    /// The bytes that are left, where they are known.
    ghost left: { Self → Option (List ℕ) };

    /// How many calls have failed so far.
    ghost faults: { Self → ℕ };

    /// Reads some bytes into the front of a buffer, and answers how many: none only at the end, or with no room.
    fn read(&mut self, buf: &mut [u8]) -> Result<usize, Fault>
        ensures bound { ReadsAtMost result buf.new }
        ensures bytes { ReadConsumes (left self.old) (left self.new) result buf.new }
        ensures faults { CountsOutcome result (faults self.old) (faults self.new) };
}

/// A device that takes bytes.
pub trait WriteDevice {
    /// The bytes that it holds, where they are known.
    ghost held: { Self → Option (List ℕ) };

    /// Whether all that it holds has been flushed.
    ghost is_flushed: { Self → Type 0 };

    /// How many calls have failed so far.
    ghost faults: { Self → ℕ };

    /// Writes a front of a piece, and answers its length. To take nothing of a piece that isn't empty is a fault.
    fn write(&mut self, piece: &[u8]) -> Result<usize, Fault>
        ensures bound { WritesAtMost result piece.now }
        ensures some { TakesSome result piece.now }
        ensures bytes { WriteAppends (held self.old) (held self.new) result piece.now }
        ensures faults { CountsOutcome result (faults self.old) (faults self.new) };

    /// Passes on what the device may have kept back.
    fn flush(&mut self) -> Result<(), Fault>
        ensures flushed { OnOk result (is_flushed self.new) }
        ensures bytes { Keeps (held self.old) (held self.new) }
        ensures faults { CountsOutcome result (faults self.old) (faults self.new) };
}

/// Files by name, each a device while it is open. An open file goes on with the count of its disk, and gives it back.
pub trait Disk {
    type Reader: ReadDevice;

    type Writer: WriteDevice;

    /// Whether the file was opened under this name.
    ghost is_opened: { Self.Reader → List ℕ → Type 0 };

    /// Whether the file was created under this name.
    ghost is_created: { Self.Writer → List ℕ → Type 0 };

    /// How many opens, and reads of files, have failed so far.
    ghost read_faults: { Self → ℕ };

    /// How many creations, and writes of files, have failed so far.
    ghost write_faults: { Self → ℕ };

    /// Opens the file of this name for reading.
    fn open(&mut self, name: &str) -> Result<Self::Reader, Fault>
        ensures name { IfOk result (λ file. is_opened file name.now) }
        ensures counts { IfOk result (λ file. Self.Reader.faults file ≡ read_faults self.old) }
        ensures reads { CountsOutcome result (read_faults self.old) (read_faults self.new) }
        ensures writes { write_faults self.new ≡ write_faults self.old };

    /// Makes an empty file of this name, in place of the one that there is.
    fn create(&mut self, name: &str) -> Result<Self::Writer, Fault>
        ensures name { IfOk result (λ file. is_created file name.now) }
        ensures counts { IfOk result (λ file. Self.Writer.faults file ≡ write_faults self.old) }
        ensures writes { CountsOutcome result (write_faults self.old) (write_faults self.new) }
        ensures reads { read_faults self.new ≡ read_faults self.old };

    /// Closes a file that was read.
    fn close_reader(&mut self, file: Self::Reader)
        ensures reads { read_faults self.new ≡ Self.Reader.faults file }
        ensures writes { write_faults self.new ≡ write_faults self.old };

    /// Closes a file that was written.
    fn close_writer(&mut self, file: Self::Writer)
        ensures writes { write_faults self.new ≡ Self.Writer.faults file }
        ensures reads { read_faults self.new ≡ read_faults self.old };
}
