//! A shelf that never fails.

ghost use Rattle.std.specs.Prelude.{◌≡◌, ◌≢◌, ◌≤◌, IfOk, OnErr, length, option_copied};
ghost use Rattle.std.specs.FinMap.{empty, get, insert};
ghost use Rattle.ms_outside.specs.Files.{bytes_of};
ghost use Rattle.ms_outside.specs.refinement.Kept.{Copies, files_of};
ghost use Rattle.ms_outside.specs.Shelf.{CountsRead, Fetches, SameCounts, Writes};
ghost use Rattle.ms_outside.specs.Sink.{CountsPut};

use crate::shelf::{Fetched, Shelf};
use crate::sink::Put;
use std::alloc::{AllocError, Global};
use std::collections::BTreeMap;
use std::marker::Model;

/// A shelf of files in memory that never fails. An absent name reads as no bytes.
#[derive(Drop)]
pub struct SureShelf {
    kept: BTreeMap<String, Vec<u8>>,
}

impl Model for SureShelf {
    ghost use Rattle.ms_outside.specs.Files.{Files};
    ghost use Rattle.ms_outside.specs.refinement.Memory.{files_code};

    ghost Value = { Files };

    ghost coded = { files_code };

    ghost use Rattle.ms_outside.specs.refinement.Kept.{files_of};

    ghost view = { λ s. files_of s.kept.entries };
}

impl SureShelf {
    /// A shelf with no file.
    pub fn new(alloc: Global) -> SureShelf
        ensures { result ≡ empty }
    {
        SureShelf {
            kept: BTreeMap::new(alloc),
        }
    }

    /// Sets the bytes of the file of this name. An error leaves the shelf unchanged.
    pub fn add(&mut self, alloc: Global, name: &str, bytes: Vec<u8>) -> Result<(), AllocError>
        ensures ok { IfOk result (λ _. self.new ≡ insert self.old name.now bytes.items) }
        ensures err { OnErr result (self.new ≡ self.old) }
    {
        let key = String::from_str(alloc, name)?;
        self.kept.insert(key, bytes)?;
        Ok(())
    }

    /// The bytes of the file of this name, if there is one.
    pub fn get(&self, name: &str) -> Option<&[u8]>
        ensures { option_copied result ≡ get self.now name.now }
    {
        match self.kept.get(name) {
            None => None,
            Some(bytes) => Some(bytes.as_slice()),
        }
    }
}

impl Shelf for SureShelf {
    ghost use Rattle.std.specs.Prelude.{Some};

    ghost files = { λ files. Some files };

    ghost read_faults = { λ _ _. 0 };

    ghost write_faults = { λ _. 0 };

    fn read(&mut self, alloc: Global, name: &str, limit: u32) -> Fetched
        ensures answer { Fetches name.now limit (Some self.old) result }
        ensures files { Some self.new ≡ Some self.old }
        ensures faults { CountsRead name.now result (λ _. 0) (λ _. 0) }
        ensures sure { result ≢ Fetched.Failed }
        ensures memory { result ≡ Fetched.Memory → length (bytes_of self.old name.now) ≤ limit }
    {
        copied(alloc, self.get(name).unwrap_or(&[]), limit)
    }

    fn write(&mut self, alloc: Global, name: &str, bytes: &[u8]) -> Put
        ensures files { Writes name.now bytes.now result (Some self.old) (Some self.new) }
        ensures faults { CountsPut result 0 0 }
        ensures sure { result ≢ Put.Failed }
    {
        let Ok(copy) = Vec::from_slice(alloc, bytes) else {
            return Put::Memory;
        };
        match self.add(alloc, name, copy) {
            Ok(()) => Put::Done,
            Err(_) => Put::Memory,
        }
    }
}

/// A copy of the bytes, if they are within the limit.
fn copied(alloc: Global, bytes: &[u8], limit: u32) -> Fetched
    ensures { Copies bytes.now limit result }
{
    if bytes.len() > limit as usize {
        return Fetched::TooLong;
    }
    match Vec::from_slice(alloc, bytes) {
        Ok(copy) => Fetched::Bytes(copy),
        Err(_) => Fetched::Memory,
    }
}
