//! The contract of a shelf of files.

ghost use Rattle.std.specs.Prelude.{◌≡◌, ℕ, List, Option};
ghost use Rattle.ms_outside.specs.Files.{Files};

use crate::sink::Put;
use std::alloc::Global;

/// What reading a file from a shelf gives.
#[derive(Drop)]
pub enum Fetched {
    /// All bytes of the file.
    Bytes(Vec<u8>),
    /// The file has more bytes than the limit.
    TooLong,
    /// The read failed, which the shelf has counted.
    Failed,
    /// Memory ran out.
    Memory,
}

/// Files by name.
pub trait Shelf {
    ghost use Rattle.ms_outside.specs.Shelf.{CountsRead, Fetches, SameCounts, Writes};
    ghost use Rattle.ms_outside.specs.Sink.{CountsPut};

    /// The files, where the shelf tells them. A name that isn't among them is absent.
    ghost files: { Self → Option Files };

    /// How many reads of a name have failed so far.
    ghost read_faults: { Self → List ℕ → ℕ };

    /// How many writes have failed so far, of whatever name.
    ghost write_faults: { Self → ℕ };

    /// Reads a file of at most `limit` bytes. The files stay. An absent name reads as no bytes, or fails.
    fn read(&mut self, alloc: Global, name: &str, limit: u32) -> Fetched
        ensures answer { Fetches name.now limit (files self.old) result }
        ensures files { files self.new ≡ files self.old }
        ensures faults { CountsRead name.now result (read_faults self.old) (read_faults self.new) }
        ensures writes { write_faults self.new ≡ write_faults self.old };

    /// Writes a file: the name then has these bytes, whatever it had. After `Failed` it has a first part of them, or is
    /// as before; after `Memory` it is as before. All other names stay.
    fn write(&mut self, alloc: Global, name: &str, bytes: &[u8]) -> Put
        ensures files { Writes name.now bytes.now result (files self.old) (files self.new) }
        ensures reads { SameCounts (read_faults self.old) (read_faults self.new) }
        ensures faults { CountsPut result (write_faults self.old) (write_faults self.new) };
}
