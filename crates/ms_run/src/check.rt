//! `check`: a file is read and validated.

ghost use Rattle.std.specs.Prelude.{◌≡◌};
ghost use Rattle.ms_run.specs.Answers.{Checks};
ghost use Rattle.ms_run.specs.Reporting.{IsFound, Tells};
ghost use Rattle.ms_run.specs.Observed.{reported, shelved};

use crate::lines::valid_line;
use crate::loading::load_file;
use crate::report::answer;
use crate::status::Status;
use ms_outside::{Shelf, Sink, Source};
use std::alloc::Global;

/// `check FILE`: reads a module from the shelf and validates it. Whether it is valid goes to the report, or the first
/// fault with its place.
pub fn check_file<F: Shelf, I: Source, O: Sink, R: Sink>(
    alloc: Global,
    file: &str,
    shelf: &mut F,
    _input: &mut I,
    _out: &mut O,
    report: &mut R,
) -> Status
    ensures printed { Tells (Checks (IsFound (shelved F.files F.read_faults F.write_faults shelf.old shelf.new)) file.now)
        (shelved F.files F.read_faults F.write_faults shelf.old shelf.new)
        (reported R.held R.faults report.old report.new)
        result }
    ensures input { (I.left _input.new ≡ I.left _input.old) × (I.faults _input.new ≡ I.faults _input.old) }
    ensures out { (O.held _out.new ≡ O.held _out.old) × (O.faults _out.new ≡ O.faults _out.old) }
{
    match load_file(alloc, "", file, shelf, report) {
        Ok(_valid) => answer(report, Status::Done, valid_line()),
        Err(status) => status,
    }
}
