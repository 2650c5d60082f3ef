//! Sources, sinks and shelves that fail in the middle.

use ms_host::getchar;
use ms_outside::{
    Fetched, FileShelf, Got, MemShelf, MemSink, MemSource, Put, Shelf, Sink, Source, StdSink,
    StdSource, SureShelf, SureSink, SureSource, SystemDisk,
};
use std::alloc::{AllocError, AllocGlobal, Global};
use std::io::{ErrorKind, Read, Write};
use std::process::Abort;
use std::rt::Files;
use std::test::Fail;
use std::{env, fs, io, process};

/// What a call of a reader does.
#[derive(Clone, Copy, Debug)]
enum Turn {
    Gives(u8),
    Fails,
    Ends,
}

/// A reader whose calls do these turns, and that has then ended.
#[derive(Drop)]
struct Turns {
    turns: [Turn; 4],
    next: usize,
}

impl Read for Turns {
    fn read(&mut self, buf: &mut [u8]) -> io::Result<usize> {
        let Some(turn) = self.turns.get(self.next) else {
            return Ok(0);
        };
        self.next += 1;
        match (buf, turn) {
            ([first, ..], Turn::Gives(byte)) => {
                *first = *byte;
                Ok(1)
            }
            (_, Turn::Fails) => Err(io::Error::from(ErrorKind::Other)),
            _ => Ok(0),
        }
    }
}

/// A source that ends once, and has a byte behind its end.
#[derive(Drop)]
struct BehindTheEnd {
    has_ended: bool,
}

impl Source for BehindTheEnd {
    ghost use Rattle.std.specs.Prelude.{None};
    ghost use Rattle.ms_outside.specs.Faults.{last_count};

    ghost left = { λ _. None };

    ghost takes = { λ _. last_count };

    ghost faults = { λ _. 0 };

    fn take(&mut self) -> Got {
        if self.has_ended {
            return Got::Byte(9);
        }
        self.has_ended = true;
        Got::End
    }
}

/// What a writer does once it has no room left.
#[derive(Clone, Copy, PartialEq, Eq)]
enum AtEnd {
    Fails,
    TakesNothing,
}

/// A writer that takes one byte a call while it has room, and whose flush may fail.
#[derive(Drop)]
struct Slow {
    held: Vec<u8>,
    room: u16,
    at_end: AtEnd,
    flushes: bool,
}

impl Write for Slow {
    fn write(&mut self, buf: &[u8]) -> io::Result<usize> {
        match buf {
            [first, ..] if self.room > 0 => {
                self.room -= 1;
                self.held.push(*first)?;
                Ok(1)
            }
            _ if self.at_end == AtEnd::Fails => Err(io::Error::from(ErrorKind::Other)),
            _ => Ok(0),
        }
    }

    fn flush(&mut self) -> io::Result<()> {
        if self.flushes {
            Ok(())
        } else {
            Err(io::Error::from(ErrorKind::Other))
        }
    }
}

#[test]
fn source_in_memory(rt: HostRuntime) -> Result<(), Fail> {
    let mut source = MemSource::new(rt.alloc(), [7, 8].to_vec(rt.alloc())?);
    source.fail_at(2)?;
    let takes = [
        (Got::Byte(7), 0),
        (Got::Failed, 1),
        (Got::Byte(8), 1),
        (Got::End, 1),
        (Got::End, 1),
    ];
    for (got, faults) in takes {
        assert!(rt; source.take() == got);
        assert_eq!(rt; source.faults(), faults);
    }
    Ok(())
}

#[test]
fn getchar_leaves_what_is_behind_an_end(rt: HostRuntime) {
    let mut source = BehindTheEnd { has_ended: false };
    assert!(rt; getchar(&mut source) == Ok(u32::MAX));
    assert!(rt; source.take() == Got::Byte(9));
}

/// Each row is the piece, the answer, what is then held, and the faults.
fn expect_puts<R: Abort>(rt: &R, sink: &mut MemSink, rows: &[(&[u8], Put, &[u8], u64)]) {
    for (piece, answer, held, faults) in rows {
        assert!(rt; sink.put(piece) == *answer);
        assert_eq!(rt; sink.held(), *held);
        assert_eq!(rt; sink.faults(), *faults);
    }
}

#[test]
fn sink_in_memory(rt: HostRuntime) -> Result<(), Fail> {
    let mut sink = MemSink::new(rt.alloc(), 2)?;
    sink.fail_at(2)?;
    let rows = [
        (b"a".as_slice(), Put::Done, b"a".as_slice(), 0),
        (b"bc", Put::Failed, b"a", 1),
        (b"bcd", Put::Done, b"abcd", 1),
        (b"", Put::Done, b"abcd", 1),
    ];
    expect_puts(&rt, &mut sink, &rows);
    Ok(())
}

fn put_on<S: Shelf>(alloc: Global, shelf: &mut S, name: &str, bytes: &[u8]) -> Put {
    shelf.write(alloc, name, bytes)
}

fn read_from<S: Shelf>(
    alloc: Global,
    shelf: &mut S,
    name: &str,
    limit: u32,
) -> Result<String, Fail> {
    let text = match shelf.read(alloc, name, limit) {
        Fetched::Bytes(bytes) => format!(in alloc; "Bytes({bytes:?})")?,
        Fetched::TooLong => format!(in alloc; "TooLong")?,
        Fetched::Failed => format!(in alloc; "Failed")?,
        Fetched::Memory => format!(in alloc; "Memory")?,
    };
    Ok(text)
}

/// Each row is what is written to a name, the answer, what it then has, and the faults of writes.
fn expect_writes<R: Abort>(
    rt: &R,
    alloc: Global,
    shelf: &mut MemShelf,
    rows: &[(&str, &[u8], Put, &[u8], u64)],
) {
    for (name, bytes, answer, kept, faults) in rows {
        assert!(rt; put_on(alloc, shelf, name, bytes) == *answer);
        assert_eq!(rt; shelf.get(name), Some(*kept));
        assert_eq!(rt; shelf.write_faults(), *faults);
    }
}

/// Each row is a name, the limit, the answer, and the faults of reads of this name.
fn expect_reads<R: Abort>(
    rt: &R,
    alloc: Global,
    shelf: &mut MemShelf,
    rows: &[(&str, u32, &str, u64)],
) -> Result<(), Fail> {
    for (name, limit, answer, faults) in rows {
        let text = read_from(alloc, shelf, name, *limit)?;
        assert_eq!(rt; text.as_str(), *answer, "{name} within {limit}");
        assert_eq!(rt; shelf.read_faults(name), *faults);
    }
    Ok(())
}

/// A shelf with one file, whose second read and second write fail.
fn scripted_shelf(alloc: Global) -> Result<MemShelf, AllocError> {
    let bytes = [1].to_vec(alloc)?;
    let mut shelf = MemShelf::new(alloc);
    shelf.add(alloc, "a b", bytes)?;
    shelf.fail_read_at(2)?;
    shelf.fail_write_at(2)?;
    Ok(shelf)
}

#[test]
fn shelf_in_memory(rt: HostRuntime) -> Result<(), Fail> {
    let mut shelf = scripted_shelf(rt.alloc())?;
    let writes = [
        ("a b", b"123".as_slice(), Put::Done, b"123".as_slice(), 0),
        ("a b", b"4", Put::Failed, b"123", 1),
        ("long", b"1234", Put::Done, b"1234", 1),
    ];
    expect_writes(&rt, rt.alloc(), &mut shelf, &writes);
    let reads = [
        ("a b", 3, "Bytes([49, 50, 51])", 0),
        ("a b", 3, "Failed", 1),
        ("a b", 3, "Bytes([49, 50, 51])", 1),
        ("a", 3, "Failed", 1),
        ("a", 3, "Failed", 2),
        ("long", 3, "TooLong", 0),
        ("long", 4, "Bytes([49, 50, 51, 52])", 0),
    ];
    expect_reads(&rt, rt.alloc(), &mut shelf, &reads)
}

#[test]
fn source_and_sink_that_never_fail(rt: HostRuntime) -> Result<(), Fail> {
    let mut source = SureSource::new([7].to_vec(rt.alloc())?);
    assert!(rt; source.take() == Got::Byte(7));
    assert!(rt; source.take() == Got::End);
    let mut sink = SureSink::new(rt.alloc(), 1)?;
    assert!(rt; sink.put(b"abc") == Put::Done);
    assert_eq!(rt; sink.held(), b"abc".as_slice());
    Ok(())
}

#[test]
fn shelf_that_never_fails(rt: HostRuntime) -> Result<(), Fail> {
    let mut shelf = SureShelf::new(rt.alloc());
    assert!(rt; put_on(rt.alloc(), &mut shelf, "a", b"1") == Put::Done);
    for (name, answer) in [("a", "Bytes([49])"), ("b", "Bytes([])")] {
        let text = read_from(rt.alloc(), &mut shelf, name, 1)?;
        assert_eq!(rt; text.as_str(), answer);
    }
    Ok(())
}

#[test]
fn source_over_a_reader_that_fails(rt: HostRuntime) {
    let turns = [Turn::Fails, Turn::Gives(9), Turn::Fails, Turn::Ends];
    let mut source = StdSource::new(Turns { turns, next: 0 });
    let takes = [
        (Got::Failed, 1),
        (Got::Byte(9), 1),
        (Got::Failed, 2),
        (Got::End, 2),
    ];
    for (got, faults) in takes {
        assert!(rt; source.take() == got);
        assert_eq!(rt; source.faults(), faults);
    }
}

fn expect_slow_put<R: Abort>(rt: &R, writer: &mut Slow, piece: &[u8], answer: Put, faults: u64) {
    let mut sink = StdSink::new(writer);
    assert!(rt; sink.put(piece) == answer);
    assert_eq!(rt; sink.faults(), faults);
}

#[test]
fn sink_over_writers_that_fail(rt: HostRuntime) -> Result<(), Fail> {
    let long = vec![in rt.alloc(); 7u8; 20_000]?;
    let long = long.as_slice();
    let abc = b"abc".as_slice();
    // the piece, the room, what comes at its end, whether a flush succeeds, the answer, what is held, and the faults
    let cases = [
        (long, 20_000, AtEnd::Fails, true, Put::Done, long, 0),
        (abc, 2, AtEnd::Fails, true, Put::Failed, b"ab", 1),
        (abc, 0, AtEnd::Fails, true, Put::Failed, b"", 1),
        (abc, 1, AtEnd::TakesNothing, true, Put::Failed, b"a", 1),
        (abc, 3, AtEnd::Fails, false, Put::Failed, abc, 1),
    ];
    for (piece, room, at_end, flushes, answer, held, faults) in cases {
        let mut writer = Slow {
            held: Vec::new(rt.alloc()),
            room,
            at_end,
            flushes,
        };
        expect_slow_put(&rt, &mut writer, piece, answer, faults);
        assert_eq!(rt; writer.held.as_slice(), held, "room {room}");
    }
    Ok(())
}

/// Writes each piece to a path in turn, and reads it back.
fn expect_pieces<R: Abort + AllocGlobal + Files, S: Shelf>(
    rt: &R,
    shelf: &mut S,
    path: &str,
    pieces: &[&[u8]],
) -> Result<(), Fail> {
    for bytes in pieces {
        assert!(rt; put_on(rt.alloc(), shelf, path, bytes) == Put::Done);
        assert_eq!(rt; fs::read(rt, path)?.as_slice(), *bytes);
        match shelf.read(rt.alloc(), path, 20_000) {
            Fetched::Bytes(read) => assert_eq!(rt; read.as_slice(), *bytes),
            _ => assert!(rt; false, "{path}"),
        }
    }
    Ok(())
}

/// Each row is a path, the limit, the answer, and the faults of all reads.
fn expect_files<R: Abort + Files>(
    rt: &R,
    alloc: Global,
    shelf: &mut FileShelf<SystemDisk<&R>>,
    rows: &[(&str, u32, &str, u64)],
) -> Result<(), Fail> {
    for (path, limit, answer, faults) in rows {
        let text = read_from(alloc, shelf, path, *limit)?;
        assert_eq!(rt; text.as_str(), *answer, "{path} within {limit}");
        assert_eq!(rt; shelf.read_faults(), *faults);
    }
    Ok(())
}

/// Writes and reads a file at this path, and tries the path of a folder and one where no file can be.
fn try_files<R: Abort + AllocGlobal + Files>(
    rt: &R,
    path: &str,
    folder: &str,
    missing: &str,
) -> Result<(), Fail> {
    let long = vec![in rt.alloc(); 7u8; 20_000]?;
    let mut shelf = FileShelf::new(rt);
    expect_pieces(rt, &mut shelf, path, &[long.as_slice(), b"", b"abc"])?;
    assert!(rt; put_on(rt.alloc(), &mut shelf, missing, b"abc") == Put::Failed);
    assert_eq!(rt; shelf.write_faults(), 1);
    let reads = [
        (path, 3, "Bytes([97, 98, 99])", 0),
        (path, 2, "TooLong", 0),
        (path, 0, "TooLong", 0),
        (missing, 9, "Failed", 1),
        (folder, 9, "Failed", 2),
        (path, u32::MAX, "Bytes([97, 98, 99])", 2),
    ];
    expect_files(rt, rt.alloc(), &mut shelf, &reads)
}

#[test]
fn shelf_of_files(rt: HostRuntime) -> Result<(), Fail> {
    let id = process::id(rt.process());
    let name = format!(in rt.alloc(); " shelf of files é {id} ")?;
    let folder = env::temp_dir(&rt)?;
    let path = folder.join(rt.alloc(), name.as_str())?;
    let missing = path.join(rt.alloc(), "missing")?;
    try_files(&rt, path.as_str(), folder.as_str(), missing.as_str())?;
    fs::remove_file(&rt, path.as_str())?;
    Ok(())
}
