//! `judge`: a trace against the colour monitor.

ghost use Rattle.std.specs.Prelude.{◌≡◌};
ghost use Rattle.ms_run.specs.Answers.{Judges};
ghost use Rattle.ms_run.specs.Observed.{reported, shelved};
ghost use Rattle.ms_run.specs.Reporting.{IsFound, ReportsVerdict, Tells};

use crate::fetch::fetch;
use crate::lines::{accepted_line, rejected_line, trace_line};
use crate::report::answer_line;
use crate::status::Status;
use ms_monitor::{JudgeFault, TraceFault, parse_trace};
use ms_outside::{Shelf, Sink, Source};
use std::alloc::Global;

/// Judges the text of a trace: all its lines are read before its first event is judged.
fn judge_text<R: Sink>(alloc: Global, text: &[u8], memory: u32, report: &mut R) -> Status
    ensures { ReportsVerdict memory text.now
        (reported R.held R.faults report.old report.new)
        result }
{
    let events = match parse_trace(alloc, text) {
        Ok(events) => events,
        Err(TraceFault::Line { n }) => {
            return answer_line(report, Status::Refused, trace_line(alloc, n));
        }
        Err(TraceFault::Memory) => return Status::OutOfMemory,
    };
    let events = events.as_slice();
    match ms_monitor::judge(alloc, memory, events) {
        Ok(()) => answer_line(report, Status::Done, accepted_line(alloc, events.len())),
        Err(JudgeFault::Rejected { n }) => {
            answer_line(report, Status::Trapped, rejected_line(alloc, n))
        }
        Err(JudgeFault::Memory) => Status::OutOfMemory,
    }
}

/// `judge FILE`: reads a trace from the shelf, an event a line, and judges it by the colour monitor, over a segment memory of
/// `memory` bytes. How many events were accepted goes to the report, or the number of the first line that is no event, or
/// that of the first event that isn't accepted.
pub fn judge<F: Shelf, I: Source, O: Sink, R: Sink>(
    alloc: Global,
    file: &str,
    memory: u32,
    shelf: &mut F,
    _input: &mut I,
    _out: &mut O,
    report: &mut R,
) -> Status
    ensures printed { Tells (Judges (IsFound (shelved F.files F.read_faults F.write_faults shelf.old shelf.new)) file.now memory)
        (shelved F.files F.read_faults F.write_faults shelf.old shelf.new)
        (reported R.held R.faults report.old report.new)
        result }
    ensures input { (I.left _input.new ≡ I.left _input.old) × (I.faults _input.new ≡ I.faults _input.old) }
    ensures out { (O.held _out.new ≡ O.held _out.old) × (O.faults _out.new ≡ O.faults _out.old) }
{
    match fetch(alloc, file, shelf, report) {
        Ok(bytes) => judge_text(alloc, bytes.as_slice(), memory, report),
        Err(status) => status,
    }
}
