//! Putting an answer into the report, line by line.

ghost use Rattle.std.specs.Prelude.{◌≡◌, ◌⊎◌, ◌<◌, ◌++◌, ℕ, List, [], IfOk, Some, length, string_bytes};
ghost use Rattle.ms_outside.specs.Shelf.{SameCounts};
ghost use Rattle.ms_run.specs.Reporting.{AreLines, Delivers, Reports, ReportsFault, ReportsJobFault};
ghost use Rattle.ms_run.specs.Observed.{reported, shelved};

use crate::lines::{job_line, load_line};
use crate::loading::LoadFault;
use crate::status::Status;
use ms_job::JobFault;
use ms_outside::{Put, Shelf, Sink};
use std::alloc::{AllocError, Global};

/// The first line of a text, with the line feed that ends it, and what stands behind it. Where no line ends, it is all of the text.
fn split_line(text: &[u8]) -> (&[u8], &[u8])
    requires some { 0 < length text.now }
    ensures parts { text.now ≡ result.0.now ++ result.1.now }
    ensures shorter { length result.1.now < length text.now }
    ensures line { AreLines result.0.now ⊎ (result.1.now ≡ []) }
{
    match text.iter().position(|byte| *byte == b'\n') {
        Some(at) => text.split_at(at + 1),
        None => (text, &[]),
    }
}

/// Puts the lines of a text, each by one put, and gives the status, or that of a fault. Behind a put that isn't done there is none.
pub fn answer<R: Sink>(report: &mut R, status: Status, text: &[u8]) -> Status
    ensures { Reports status text.now
        (reported R.held R.faults report.old report.new)
        result }
{
    let mut left = text;
    while !left.is_empty() {
        let (line, behind) = split_line(left);
        match report.put(line) {
            Put::Done => {}
            Put::Failed => return Status::WriteFault,
            Put::Memory => return Status::OutOfMemory,
        }
        left = behind;
    }
    status
}

/// Puts a line, if there was memory for it, and gives the status, or that of a fault.
pub fn answer_line<R: Sink>(
    report: &mut R,
    status: Status,
    line: Result<String, AllocError>,
) -> Status
    ensures { (text : List ℕ) → IfOk line (λ t. string_bytes t ≡ text) → Reports status text
        (reported R.held R.faults report.old report.new)
        result }
{
    match line {
        Ok(text) => answer(report, status, text.as_bytes()),
        Err(_) => Status::OutOfMemory,
    }
}

/// Writes a file, puts the lines of the text, and gives the status, or that of a fault. Where the file isn't written whole nothing is
/// put.
pub fn write_and_answer<F: Shelf, R: Sink>(
    alloc: Global,
    name: &str,
    bytes: &[u8],
    status: Status,
    text: &[u8],
    shelf: &mut F,
    report: &mut R,
) -> Status
    ensures delivered { Delivers
        (record { status = status; report = text.now; file = Some (record { name = name.now; bytes = bytes.now }) })
        (shelved F.files F.read_faults F.write_faults shelf.old shelf.new)
        (reported R.held R.faults report.old report.new)
        result }
    ensures reads { SameCounts (F.read_faults shelf.old) (F.read_faults shelf.new) }
{
    match shelf.write(alloc, name, bytes) {
        Put::Done => answer(report, status, text),
        Put::Failed => Status::WriteFault,
        Put::Memory => Status::OutOfMemory,
    }
}

/// Puts why a file is no valid module, `what` being refused, if it isn't want of memory, and gives the status, or that of a fault.
pub fn answer_fault<R: Sink>(alloc: Global, what: &str, fault: LoadFault, report: &mut R) -> Status
    ensures { ReportsFault what.now fault
        (reported R.held R.faults report.old report.new)
        result }
{
    match fault {
        LoadFault::Memory => Status::OutOfMemory,
        fault => answer_line(report, Status::Refused, load_line(alloc, what, fault)),
    }
}

/// Puts why a text is no job, if it isn't want of memory, and gives the status, or that of a fault.
pub fn answer_job_fault<R: Sink>(alloc: Global, fault: JobFault, report: &mut R) -> Status
    ensures { ReportsJobFault fault
        (reported R.held R.faults report.old report.new)
        result }
{
    match fault {
        JobFault::Memory => Status::OutOfMemory,
        fault => answer_line(report, Status::Refused, job_line(alloc, fault)),
    }
}
