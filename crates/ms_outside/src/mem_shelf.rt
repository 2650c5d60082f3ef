//! A shelf in memory whose calls fail by scripts.

ghost use Rattle.std.specs.Prelude.{◌≡◌, ◌≤◌, false, IfOk, OnErr, IsTrue, ◌↔◌, length, option_copied};
ghost use Rattle.std.specs.FinMap.{empty, get, insert};
ghost use Rattle.ms_outside.specs.Files.{bytes_of, count_of};
ghost use Rattle.ms_outside.specs.refinement.Memory.{Folder, read_fails};
ghost use Rattle.ms_outside.specs.refinement.Script.{also_failing, called, counted, next_fails, no_script};
ghost use Rattle.ms_outside.specs.Shelf.{CountsRead, Fetches, SameCounts, Writes};
ghost use Rattle.ms_outside.specs.Sink.{CountsPut};

use crate::count::one_more_fault;
use crate::fault_counts::FaultCounts;
use crate::script::Script;
use crate::shelf::{Fetched, Shelf};
use crate::sink::Put;
use crate::sure_shelf::SureShelf;
use std::alloc::{AllocError, Global};
use std::marker::Model;

/// A shelf of files in memory, for tests: its reads and writes fail where scripts have it, and so does the read of an
/// absent name.
#[derive(Drop)]
pub struct MemShelf {
    content: SureShelf,
    reads: Script,
    read_faults: FaultCounts,
    writes: Script,
    write_faults: u64,
}

impl Model for MemShelf {
    ghost use Rattle.ms_outside.specs.refinement.Memory.{Folder, folder_code};

    ghost Value = { Folder };

    ghost coded = { folder_code };

    ghost view = { λ s. record {
      files = s.content;
      reads = s.reads;
      read_faults = s.read_faults;
      writes = s.writes;
      write_faults = s.write_faults;
    } };
}

impl MemShelf {
    /// A shelf with no file, none of whose reads and writes is to fail.
    pub fn new(alloc: Global) -> MemShelf
        ensures { result ≡ record {
          files = empty;
          reads = no_script;
          read_faults = empty;
          writes = no_script;
          write_faults = 0;
        } }
    {
        MemShelf {
            content: SureShelf::new(alloc),
            reads: Script::new(alloc),
            read_faults: FaultCounts::new(alloc),
            writes: Script::new(alloc),
            write_faults: 0,
        }
    }

    /// Sets the bytes of the file of this name, which counts as no write. An error leaves the shelf unchanged.
    pub fn add(&mut self, alloc: Global, name: &str, bytes: Vec<u8>) -> Result<(), AllocError>
        ensures ok { IfOk result (λ _. self.new ≡ record self.old { files = insert self.old.files name.now bytes.items }) }
        ensures err { OnErr result (self.new ≡ self.old) }
    {
        self.content.add(alloc, name, bytes)
    }

    /// The bytes of the file of this name, if there is one.
    pub fn get(&self, name: &str) -> Option<&[u8]>
        ensures { option_copied result ≡ get self.now.files name.now }
    {
        self.content.get(name)
    }

    /// The read of this number, counted from 1, is to fail too. An error leaves the shelf unchanged.
    pub fn fail_read_at(&mut self, call: u64) -> Result<(), AllocError>
        ensures ok { IfOk result (λ _. self.new ≡ record self.old { reads = also_failing call self.old.reads }) }
        ensures err { OnErr result (self.new ≡ self.old) }
    {
        self.reads.fail_at(call)
    }

    /// The write of this number, counted from 1, is to fail too. An error leaves the shelf unchanged.
    pub fn fail_write_at(&mut self, call: u64) -> Result<(), AllocError>
        ensures ok { IfOk result (λ _. self.new ≡ record self.old { writes = also_failing call self.old.writes }) }
        ensures err { OnErr result (self.new ≡ self.old) }
    {
        self.writes.fail_at(call)
    }

    /// How many reads of this name failed, at most `u64::MAX`.
    pub fn read_faults(&self, name: &str) -> u64
        ensures { result ≡ count_of self.now.read_faults name.now }
    {
        self.read_faults.of(name)
    }

    /// How many writes failed, at most `u64::MAX`.
    pub fn write_faults(&self) -> u64
        ensures { result ≡ self.now.write_faults }
    {
        self.write_faults
    }
}

impl Shelf for MemShelf {
    ghost use Rattle.std.specs.Prelude.{Some};

    ghost files = { λ s. Some s.files };

    ghost read_faults = { λ s name. count_of s.read_faults name };

    ghost write_faults = { λ s. s.write_faults };

    /// A read that is to fail answers `Memory` where memory for the name's first count is refused.
    fn read(&mut self, alloc: Global, name: &str, limit: u32) -> Fetched
        ensures answer { Fetches name.now limit (Some self.old.files) result }
        ensures files { Some self.new.files ≡ Some self.old.files }
        ensures faults { CountsRead name.now result (count_of self.old.read_faults) (count_of self.new.read_faults) }
        ensures writes { self.new.write_faults ≡ self.old.write_faults }
        ensures failed { result ≡ Fetched.Failed → IsTrue (read_fails self.old name.now) }
        ensures known { (result ≡ Fetched.Failed → ⊥) → (result ≡ Fetched.Memory → ⊥) → read_fails self.old name.now ≡ false }
        ensures script { (self.new.reads ≡ called self.old.reads) × (self.new.writes ≡ self.old.writes) }
    {
        let is_scripted = self.reads.call();
        if is_scripted || self.content.get(name).is_none() {
            if self.read_faults.count(alloc, name).is_err() {
                return Fetched::Memory;
            }
            return Fetched::Failed;
        }
        self.content.read(alloc, name, limit)
    }

    /// A failed write leaves the file as it was.
    fn write(&mut self, alloc: Global, name: &str, bytes: &[u8]) -> Put
        ensures files { Writes name.now bytes.now result (Some self.old.files) (Some self.new.files) }
        ensures reads { SameCounts (count_of self.old.read_faults) (count_of self.new.read_faults) }
        ensures faults { CountsPut result self.old.write_faults self.new.write_faults }
        ensures failed { (result ≡ Put.Failed) ↔ IsTrue (next_fails self.old.writes) }
        ensures script { (self.new.writes ≡ called self.old.writes) × (self.new.reads ≡ self.old.reads) }
        ensures counted { self.new.write_faults ≡ counted (next_fails self.old.writes) self.old.write_faults }
        ensures stays { result ≡ Put.Failed → self.new.files ≡ self.old.files }
    {
        if self.writes.call() {
            self.write_faults = one_more_fault(self.write_faults);
            return Put::Failed;
        }
        self.content.write(alloc, name, bytes)
    }
}
