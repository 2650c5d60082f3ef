//! Reading the bytes of a file from the shelf.

ghost use Rattle.std.specs.Prelude.{IfErr, IfOk};
ghost use Rattle.ms_run.specs.Answers.{HasBytes, Unfound};
ghost use Rattle.ms_run.specs.Reporting.{Holds, IsFound, IsUntouched, Tells};
ghost use Rattle.ms_run.specs.Observed.{reported, shelved};

use crate::lines::file_line;
use crate::report::answer_line;
use crate::status::Status;
use ms_outside::{Fetched, Shelf, Sink};
use std::alloc::Global;

/// How many bytes a file may have.
const MOST_BYTES: u32 = 4_194_304;

/// The bytes of the file, or the status where it can't be read or is too long, with its line put into the report.
pub fn fetch<F: Shelf, R: Sink>(
    alloc: Global,
    file: &str,
    shelf: &mut F,
    report: &mut R,
) -> Result<Vec<u8>, Status>
    ensures bytes { IfOk result (λ bytes. HasBytes (Holds (F.files shelf.old)) file.now bytes.items) }
    ensures untouched { IfOk result (λ _. IsUntouched
        (shelved F.files F.read_faults F.write_faults shelf.old shelf.new)
        (reported R.held R.faults report.old report.new)) }
    ensures printed { IfErr result (Tells
        (Unfound (IsFound (shelved F.files F.read_faults F.write_faults shelf.old shelf.new)) file.now)
        (shelved F.files F.read_faults F.write_faults shelf.old shelf.new)
        (reported R.held R.faults report.old report.new)) }
{
    match shelf.read(alloc, file, MOST_BYTES) {
        Fetched::Bytes(bytes) => Ok(bytes),
        Fetched::TooLong => Err(answer_line(
            report,
            Status::TooLong,
            file_line(alloc, "too long ", file),
        )),
        Fetched::Failed => Err(answer_line(
            report,
            Status::ReadFault,
            file_line(alloc, "read fault ", file),
        )),
        Fetched::Memory => Err(Status::OutOfMemory),
    }
}
