//! The devices of the system: the standard library's readers, writers and files, whose faults are counted here and
//! nowhere else.

ghost use Rattle.std.specs.Prelude.{◌≡◌};
ghost use Rattle.ms_outside.specs.refinement.System.{disk_read_faults, disk_write_faults, reader_faults, reader_of, writer_faults, writer_of};

use crate::count::one_more_fault;
use crate::device::{Disk, Fault, ReadDevice, WriteDevice};
use std::fs;
use std::io::{Read, Write};
use std::rt::Files;

/// A reader of the standard library.
#[derive(Drop)]
pub struct SystemReader<R> {
    reader: R,
    faults: u64,
}

impl<R: Read> SystemReader<R> {
    /// A device over this reader, which goes on from this count.
    pub fn new(reader: R, faults: u64) -> SystemReader<R>
        ensures reader { reader_of result ≡ reader }
        ensures faults { reader_faults result ≡ faults }
    {
        SystemReader { reader, faults }
    }

    /// How many reads failed, at most `u64::MAX`.
    pub fn faults(&self) -> u64
        ensures { result ≡ reader_faults self.now }
    {
        self.faults
    }
}

impl<R: Read> ReadDevice for SystemReader<R> {
    ghost use Rattle.ms_outside.specs.refinement.System.{reader_faults, reader_of};

    ghost left = { λ s. R.remaining (reader_of s) };

    ghost faults = { λ s. reader_faults s };

    fn read(&mut self, buf: &mut [u8]) -> Result<usize, Fault> {
        match self.reader.read(buf) {
            Ok(n) => Ok(n),
            Err(_) => {
                self.faults = one_more_fault(self.faults);
                Err(Fault)
            }
        }
    }
}

/// A writer of the standard library.
#[derive(Drop)]
pub struct SystemWriter<W> {
    writer: W,
    faults: u64,
}

impl<W: Write> SystemWriter<W> {
    /// A device over this writer, which goes on from this count.
    pub fn new(writer: W, faults: u64) -> SystemWriter<W>
        ensures writer { writer_of result ≡ writer }
        ensures faults { writer_faults result ≡ faults }
    {
        SystemWriter { writer, faults }
    }

    /// How many writes and flushes failed, at most `u64::MAX`.
    pub fn faults(&self) -> u64
        ensures { result ≡ writer_faults self.now }
    {
        self.faults
    }
}

impl<W: Write> WriteDevice for SystemWriter<W> {
    ghost use Rattle.ms_outside.specs.refinement.System.{writer_faults, writer_of};

    ghost held = { λ s. W.contents (writer_of s) };

    ghost is_flushed = { λ _. Unit {0} };

    ghost faults = { λ s. writer_faults s };

    fn write(&mut self, piece: &[u8]) -> Result<usize, Fault> {
        match self.writer.write(piece) {
            Ok(n) if n > 0 || piece.is_empty() => Ok(n),
            _ => {
                self.faults = one_more_fault(self.faults);
                Err(Fault)
            }
        }
    }

    fn flush(&mut self) -> Result<(), Fault> {
        match self.writer.flush() {
            Ok(()) => Ok(()),
            Err(_) => {
                self.faults = one_more_fault(self.faults);
                Err(Fault)
            }
        }
    }
}

/// The files that a runtime reaches, whose names are paths.
#[derive(Drop)]
pub struct SystemDisk<R> {
    rt: R,
    read_faults: u64,
    write_faults: u64,
}

impl<R: Files> SystemDisk<R> {
    /// The files that the runtime reaches, with no fault so far.
    pub fn new(rt: R) -> SystemDisk<R>
        ensures reads { disk_read_faults result ≡ 0 }
        ensures writes { disk_write_faults result ≡ 0 }
    {
        SystemDisk {
            rt,
            read_faults: 0,
            write_faults: 0,
        }
    }

    /// How many opens and reads failed, at most `u64::MAX`.
    pub fn read_faults(&self) -> u64
        ensures { result ≡ disk_read_faults self.now }
    {
        self.read_faults
    }

    /// How many creations, writes and flushes failed, at most `u64::MAX`.
    pub fn write_faults(&self) -> u64
        ensures { result ≡ disk_write_faults self.now }
    {
        self.write_faults
    }
}

impl<R: Files> Disk for SystemDisk<R> {
    ghost use Rattle.ms_outside.specs.refinement.System.{disk_read_faults, disk_write_faults};

    type Reader = SystemReader<R::File>;

    type Writer = SystemWriter<R::File>;

    ghost is_opened = { λ _ _. Unit {0} };

    ghost is_created = { λ _ _. Unit {0} };

    ghost read_faults = { λ s. disk_read_faults s };

    ghost write_faults = { λ s. disk_write_faults s };

    fn open(&mut self, name: &str) -> Result<SystemReader<R::File>, Fault> {
        match fs::open(&self.rt, name) {
            Ok(file) => Ok(SystemReader::new(file, self.read_faults)),
            Err(_) => {
                self.read_faults = one_more_fault(self.read_faults);
                Err(Fault)
            }
        }
    }

    fn create(&mut self, name: &str) -> Result<SystemWriter<R::File>, Fault> {
        match fs::create(&self.rt, name) {
            Ok(file) => Ok(SystemWriter::new(file, self.write_faults)),
            Err(_) => {
                self.write_faults = one_more_fault(self.write_faults);
                Err(Fault)
            }
        }
    }

    fn close_reader(&mut self, file: SystemReader<R::File>) {
        self.read_faults = file.faults();
    }

    fn close_writer(&mut self, file: SystemWriter<R::File>) {
        self.write_faults = file.faults();
    }
}
