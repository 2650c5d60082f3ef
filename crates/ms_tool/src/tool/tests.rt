//! The program over fakes: a table of rows that were worked out by hand, as a text that the test reads.

mod rows;
mod stores;

use super::*;
use ms_outside::{Got, MemShelf, MemSink, MemSource};
use std::alloc::AllocError;
use std::process::Abort;
use std::test::Fail;

/// The lines that `usage` stands for.
const USAGE: &str = "usage: mswasm exec FILE [--budget N] [--memory N]
usage: mswasm run JOB
usage: mswasm check FILE
usage: mswasm asm FILE OUT
usage: mswasm dis FILE OUT
usage: mswasm compile FILE OUT
usage: mswasm judge FILE [--memory N]
usage: mswasm stress SEED COUNT
";

/// What is outside.
#[derive(Drop)]
struct Outside {
    shelf: MemShelf,
    input: MemSource,
    out: MemSink,
    report: MemSink,
}

/// A text without the blank that it may begin with.
fn behind_blank(text: &str) -> &str {
    text.strip_prefix(' ').unwrap_or(text)
}

/// The key in front of the colon of a line, and the value behind it.
fn halves(line: &str) -> Result<(&str, &str), Fail> {
    let (key, text) = line.split_once(':').ok_or(line)?;
    Ok((key, behind_blank(text)))
}

/// The two words of a key, of which the second may be missing.
fn key_words(key: &str) -> (&str, &str) {
    match key.split_once(' ') {
        Some(words) => words,
        None => (key, ""),
    }
}

/// The value of a key that a row has once, or not at all.
fn field<'a>(row: &'a str, key: &str) -> Result<Option<&'a str>, Fail> {
    let mut found = None;
    for line in row.lines() {
        let (left, value) = halves(line)?;
        if left == key {
            if found.is_some() {
                return Err(Fail::new(line));
            }
            found = Some(value);
        }
    }
    Ok(found)
}

/// The value of a key that a row has once.
fn needed<'a>(row: &'a str, key: &str) -> Result<&'a str, Fail> {
    let value = field(row, key)?;
    Ok(value.ok_or(row)?)
}

/// Adds lines, between which ` / ` stands.
fn add_lines(bytes: &mut Vec<u8>, lines: &str) -> Result<(), AllocError> {
    if !lines.is_empty() {
        for line in lines.split(" / ") {
            bytes.extend_from_slice(line.as_bytes())?;
            bytes.extend_from_slice(b"\n")?;
        }
    }
    Ok(())
}

/// Adds the bytes of pairs of hexadecimal digits.
fn add_hex(bytes: &mut Vec<u8>, pairs: &str) -> Result<(), Fail> {
    for pair in pairs.split_whitespace() {
        bytes.push(u8::from_str_radix(pair, 16)?)?;
    }
    Ok(())
}

/// Adds a text as often as the number in front of it says.
fn add_many(bytes: &mut Vec<u8>, value: &str) -> Result<(), Fail> {
    let (count, text) = value.split_once(' ').ok_or(value)?;
    for _ in 0..count.parse::<u32>()? {
        bytes.extend_from_slice(text.as_bytes())?;
    }
    Ok(())
}

/// Adds what a value says in the way of its key.
fn add(bytes: &mut Vec<u8>, way: &str, value: &str) -> Result<(), Fail> {
    match way {
        "text" => Ok(bytes.extend_from_slice(value.as_bytes())?),
        "lines" => Ok(add_lines(bytes, value)?),
        "hex" => add_hex(bytes, value),
        "many" => add_many(bytes, value),
        _ => Err(Fail::new(way)),
    }
}

/// Adds to a file, which may be there.
fn add_to_file(
    alloc: Global,
    shelf: &mut MemShelf,
    way: &str,
    name: &str,
    value: &str,
) -> Result<(), Fail> {
    let mut bytes = Vec::new(alloc);
    if let Some(held) = shelf.get(name) {
        bytes.extend_from_slice(held)?;
    }
    add(&mut bytes, way, value)?;
    Ok(shelf.add(alloc, name, bytes)?)
}

/// Lets the call of this number, from 1, of a device fail.
fn let_fail(outside: &mut Outside, device: &str, call: u64) -> Result<(), Fail> {
    match device {
        "read" => Ok(outside.shelf.fail_read_at(call)?),
        "write" => Ok(outside.shelf.fail_write_at(call)?),
        "input" => Ok(outside.input.fail_at(call)?),
        "out" => Ok(outside.out.fail_at(call)?),
        "report" => Ok(outside.report.fail_at(call)?),
        _ => Err(Fail::new(device)),
    }
}

/// Reads a line of what is outside. Lines of what is asked and wanted are passed over.
fn read_line(alloc: Global, outside: &mut Outside, line: &str) -> Result<(), Fail> {
    let (key, value) = halves(line)?;
    let (way, name) = key_words(key);
    match way {
        "text" | "lines" | "hex" | "many" => {
            add_to_file(alloc, &mut outside.shelf, way, name, value)
        }
        "fails" => let_fail(outside, name, value.parse::<u64>()?),
        "row"
        | "input"
        | "before"
        | "words"
        | "status"
        | "report"
        | "rest"
        | "out"
        | "took"
        | "wrote" => Ok(()),
        _ => Err(Fail::new(line)),
    }
}

/// The objects outside, with no file yet.
fn nothing(alloc: Global, input: &str) -> Result<Outside, AllocError> {
    let bytes = Vec::from_slice(alloc, input.as_bytes())?;
    let out = MemSink::new(alloc, 16)?;
    let report = MemSink::new(alloc, 256)?;
    Ok(Outside {
        shelf: MemShelf::new(alloc),
        input: MemSource::new(alloc, bytes),
        out,
        report,
    })
}

/// Reads what is outside of a row.
fn read_outside(alloc: Global, outside: &mut Outside, lines: &str) -> Result<(), Fail> {
    for line in lines.lines() {
        if !line.is_empty() && !line.starts_with('#') {
            read_line(alloc, outside, line)?;
        }
    }
    Ok(())
}

/// What the program answers to words.
fn answer_to(alloc: Global, words: &[&str], outside: &mut Outside) -> Status {
    tool(
        alloc,
        words,
        &mut outside.shelf,
        &mut outside.input,
        &mut outside.out,
        &mut outside.report,
    )
}

/// The same to the words of a line, behind the program's name.
fn answer_to_line(alloc: Global, line: &str, outside: &mut Outside) -> Result<Status, Fail> {
    let mut words = Vec::new(alloc);
    words.push("mswasm")?;
    for word in line.split_whitespace() {
        words.push(word)?;
    }
    Ok(answer_to(alloc, words.as_slice(), outside))
}

/// The bytes that a row wants by the value of this key, none where it is missing.
fn wanted(alloc: Global, row: &str, key: &str, way: &str) -> Result<Vec<u8>, Fail> {
    let mut bytes = Vec::new(alloc);
    if let Some(value) = field(row, key)? {
        add(&mut bytes, way, value)?;
    }
    Ok(bytes)
}

/// The report that is wanted of a row.
fn wanted_report(alloc: Global, row: &str) -> Result<Vec<u8>, Fail> {
    if field(row, "report")? == Some("usage") {
        return Ok(Vec::from_slice(alloc, USAGE.as_bytes())?);
    }
    wanted(alloc, row, "report", "lines")
}

/// The bytes as a text.
fn shown(bytes: &[u8]) -> &str {
    str::from_utf8(bytes).unwrap_or("no text")
}

/// Whether these bytes are those that are wanted.
fn expect_bytes(rt: &impl Abort, row: &str, what: &str, held: &[u8], wanted: &[u8]) {
    let held_text = shown(held);
    assert!(rt; held == wanted, "{what} is {held_text} in {row}");
}

/// The status that is wanted.
fn wanted_status(row: &str) -> Result<u8, Fail> {
    let number = needed(row, "status")?;
    Ok(number.parse::<u8>()?)
}

/// Whether the status is the one that is wanted.
fn expect_status(rt: &impl Abort, row: &str, status: Status) -> Result<(), Fail> {
    let wanted = wanted_status(row)?;
    assert_eq!(rt; status.code(), wanted, "the status in {row}");
    Ok(())
}

/// What stands behind the first line of a text.
fn behind_line(text: &[u8]) -> &[u8] {
    match text.iter().position(|byte| *byte == b'\n') {
        Some(end) => &text[end + 1..],
        None => b"".as_slice(),
    }
}

/// Whether the report is the one that is wanted, or what stands behind its first line.
fn expect_report<R: Abort + AllocGlobal>(rt: &R, row: &str, report: &[u8]) -> Result<(), Fail> {
    if field(row, "rest")?.is_some() {
        let lines = wanted(rt.alloc(), row, "rest", "lines")?;
        let behind = behind_line(report);
        expect_bytes(rt, row, "the rest of the report", behind, lines.as_slice());
        return Ok(());
    }
    let lines = wanted_report(rt.alloc(), row)?;
    expect_bytes(rt, row, "the report", report, lines.as_slice());
    Ok(())
}

/// Whether the report and the output are those that are wanted.
fn expect_sinks<R: Abort + AllocGlobal>(
    rt: &R,
    row: &str,
    report: &MemSink,
    out: &MemSink,
) -> Result<(), Fail> {
    expect_report(rt, row, report.held())?;
    let text = wanted(rt.alloc(), row, "out", "text")?;
    expect_bytes(rt, row, "the output", out.held(), text.as_slice());
    Ok(())
}

/// What is left of the input, behind what was taken.
fn expect_input<R: Abort + AllocGlobal>(
    rt: &R,
    row: &str,
    input: &mut MemSource,
) -> Result<(), Fail> {
    let mut all = wanted(rt.alloc(), row, "took", "text")?;
    for _ in 0..8 {
        if let Got::Byte(byte) = input.take() {
            all.push(byte)?;
        }
    }
    let given = field(row, "input")?.unwrap_or("hi");
    expect_bytes(rt, row, "the input", all.as_slice(), given.as_bytes());
    Ok(())
}

/// Whether the file `o` is what is wanted, or isn't there.
fn expect_file<R: Abort + AllocGlobal>(rt: &R, row: &str, held: Option<&[u8]>) -> Result<(), Fail> {
    let is_wanted = field(row, "wrote lines")?.is_some() || field(row, "wrote hex")?.is_some();
    assert_eq!(rt; held.is_some(), is_wanted, "whether o is there in {row}");
    let mut bytes = wanted(rt.alloc(), row, "wrote lines", "lines")?;
    if bytes.is_empty() {
        bytes = wanted(rt.alloc(), row, "wrote hex", "hex")?;
    }
    expect_bytes(
        rt,
        row,
        "o",
        held.unwrap_or(b"".as_slice()),
        bytes.as_slice(),
    );
    Ok(())
}

/// Whether a row comes out so where this is outside.
fn expect_in<R: Abort + AllocGlobal>(rt: &R, row: &str, outside: &mut Outside) -> Result<(), Fail> {
    if let Some(words) = field(row, "before")? {
        answer_to_line(rt.alloc(), words, outside)?;
        outside.report = MemSink::new(rt.alloc(), 256)?;
    }
    let words = needed(row, "words")?;
    let status = answer_to_line(rt.alloc(), words, outside)?;
    expect_status(rt, row, status)?;
    expect_sinks(rt, row, &outside.report, &outside.out)?;
    expect_input(rt, row, &mut outside.input)?;
    expect_file(rt, row, outside.shelf.get("o"))
}

/// Whether a row comes out so.
fn expect_row<R: Abort + AllocGlobal>(rt: &R, row: &str) -> Result<(), Fail> {
    let input = field(row, "input")?.unwrap_or("hi");
    let mut outside = nothing(rt.alloc(), input)?;
    read_outside(rt.alloc(), &mut outside, rows::FILES)?;
    read_outside(rt.alloc(), &mut outside, row)?;
    expect_in(rt, row, &mut outside)
}

/// Whether each row of a table comes out so. Gives how many there are.
fn expect_rows<R: Abort + AllocGlobal>(rt: &R, table: &str) -> Result<usize, Fail> {
    let mut count = 0u32;
    for part in table.split("\n\n") {
        if !part.starts_with('#') {
            expect_row(rt, part)?;
            count = count.wrapping_add(1);
        }
    }
    Ok(count as usize)
}

#[test]
fn worked_rows(rt: HostRuntime) -> Result<(), Fail> {
    let mut count = 0usize;
    for table in rows::TABLES {
        count = count.wrapping_add(expect_rows(&rt, table)?);
    }
    assert_eq!(rt; count, 213);
    Ok(())
}
