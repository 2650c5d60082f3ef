//! A shelf of the files of a disk.

ghost use Rattle.std.specs.Prelude.{◌≡◌, ℕ, List};
ghost use Rattle.ms_outside.specs.refinement.Adapters.{ReadsFile, ReadsToEnd, WritesFile};
ghost use Rattle.ms_outside.specs.Shelf.{CountsRead, Fetches, SameCounts, Writes};
ghost use Rattle.ms_outside.specs.Sink.{CountsPut};
ghost use Rattle.ms_outside.specs.refinement.System.{disk_read_faults, disk_write_faults, shelf_disk};

use crate::device::{Disk, ReadDevice};
use crate::shelf::{Fetched, Shelf};
use crate::sink::Put;
use crate::std_sink::write_and_flush;
use crate::system::SystemDisk;
use std::alloc::Global;
use std::rt::Files;

/// How many bytes a read asks for at most.
const CHUNK: usize = 8192;

/// A shelf of the files of a disk.
///
/// It doesn't tell its files, since nothing is known of a file system. It has one count of failed reads, whatever the
/// name.
#[derive(Drop)]
pub struct FileShelf<D> {
    disk: D,
}

impl<R: Files> FileShelf<SystemDisk<R>> {
    /// A shelf of the files that the runtime reaches, whose names are paths, with no fault so far.
    pub fn new(rt: R) -> FileShelf<SystemDisk<R>>
        ensures reads { disk_read_faults (shelf_disk result) ≡ 0 }
        ensures writes { disk_write_faults (shelf_disk result) ≡ 0 }
    {
        FileShelf {
            disk: SystemDisk::new(rt),
        }
    }

    /// How many reads failed, of whatever name, at most `u64::MAX`.
    pub fn read_faults(&self) -> u64
        ensures { result ≡ disk_read_faults (shelf_disk self.now) }
    {
        self.disk.read_faults()
    }

    /// How many writes failed, of whatever name, at most `u64::MAX`.
    pub fn write_faults(&self) -> u64
        ensures { result ≡ disk_write_faults (shelf_disk self.now) }
    {
        self.disk.write_faults()
    }
}

impl<D: Disk> Shelf for FileShelf<D> {
    ghost use Rattle.std.specs.Prelude.{None};
    ghost use Rattle.ms_outside.specs.refinement.System.{shelf_disk};

    ghost files = { λ _. None };

    ghost read_faults = { λ s _. D.read_faults (shelf_disk s) };

    ghost write_faults = { λ s. D.write_faults (shelf_disk s) };

    fn read(&mut self, alloc: Global, name: &str, limit: u32) -> Fetched
        ensures answer { Fetches name.now limit None result }
        ensures faults { CountsRead name.now result (λ _. D.read_faults (shelf_disk self.old)) (λ _. D.read_faults (shelf_disk self.new)) }
        ensures writes { D.write_faults (shelf_disk self.new) ≡ D.write_faults (shelf_disk self.old) }
        ensures reads { ReadsFile (λ file. D.is_opened file name.now) D.Reader.left limit result }
    {
        let Ok(mut file) = self.disk.open(name) else {
            return Fetched::Failed;
        };
        let fetched = read_to_end(alloc, &mut file, limit);
        self.disk.close_reader(file);
        fetched
    }

    fn write(&mut self, alloc: Global, name: &str, bytes: &[u8]) -> Put
        ensures files { Writes name.now bytes.now result None None }
        ensures reads { SameCounts (λ _. D.read_faults (shelf_disk self.old)) (λ _. D.read_faults (shelf_disk self.new)) }
        ensures faults { CountsPut result (D.write_faults (shelf_disk self.old)) (D.write_faults (shelf_disk self.new)) }
        ensures writes { WritesFile (λ file. D.is_created file name.now) D.Writer.held D.Writer.is_flushed bytes.now result }
    {
        let Ok(mut file) = self.disk.create(name) else {
            return Put::Failed;
        };
        let answer = write_and_flush(&mut file, bytes);
        self.disk.close_writer(file);
        answer
    }
}

/// Reads to the end, of at most `limit` bytes, and never more than one byte beyond them.
fn read_to_end<F: ReadDevice>(alloc: Global, file: &mut F, limit: u32) -> Fetched
    ensures reads { ReadsToEnd limit (F.left file.old) (F.left file.new) result }
    ensures faults { (name : List ℕ) → CountsRead name result (λ _. F.faults file.old) (λ _. F.faults file.new) }
{
    let most = limit as usize + 1;
    let mut bytes = Vec::new(alloc);
    let mut chunk = [0u8; CHUNK];
    while bytes.len() < most {
        let asked = (most - bytes.len()).min(CHUNK);
        match file.read(&mut chunk[..asked]) {
            Ok(0) => return Fetched::Bytes(bytes),
            Ok(n) => {
                if bytes.extend_from_slice(&chunk[..n]).is_err() {
                    return Fetched::Memory;
                }
            }
            Err(_) => return Fetched::Failed,
        }
    }
    Fetched::TooLong
}
