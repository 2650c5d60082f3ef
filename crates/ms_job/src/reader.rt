//! The reader of jobs.

ghost use Rattle.std.specs.Prelude.{◌≡◌, IfOk, MatchResult, Ok, Err};
ghost use Rattle.std.specs.Str.Lines.{lines};
ghost use Rattle.ms_job.specs.refinement.Bounds.{IsBounded};
ghost use Rattle.ms_job.specs.Jobs.{checked, job_in, no_lines, with_lines};
ghost use Rattle.ms_job.specs.refinement.Reading.{ReadsJob, ReadsLines};

use crate::draft::{Draft, Stop};
use crate::fault::JobFault;
use crate::job::Job;
use crate::lines::split_line;
use ms_command_line::{DEFAULT_BUDGET, DEFAULT_MEMORY};
use std::alloc::Global;

/// The greatest budget of a run with a trace.
const MOST_TRACED: u64 = 1_000_000;

/// How many entries in a row name one task where no line says it.
const TURNS: u32 = 1;

/// The job that a text says, or its first fault.
///
/// A text is lines, ended by LF or CR LF, the last one perhaps by nothing. Empty lines and those that begin with `#` say
/// nothing; each other one is words separated by spaces, as `module NAME FILE`.
pub fn parse(alloc: Global, text: &[u8]) -> Result<Job, JobFault>
    ensures job { ReadsJob (job_in text.now) result }
    ensures bounds { IfOk result IsBounded }
{
    finish(draft(alloc, text)?)
}

/// What the lines of a text say.
fn draft(alloc: Global, text: &[u8]) -> Result<Draft, JobFault>
    ensures { ReadsLines (with_lines 1 no_lines (lines text.now)) result }
{
    let mut draft = Draft::new(alloc);
    let mut left = text;
    let mut n = 0;
    while !left.is_empty() {
        let (line, rest) = split_line(left);
        n += 1;
        match draft.line(alloc, line) {
            Ok(()) => left = rest,
            Err(Stop::Broken) => return Err(JobFault::Line { n }),
            Err(Stop::Memory) => return Err(JobFault::Memory),
        }
    }
    Ok(draft)
}

/// The job of what its lines say.
fn finish(draft: Draft) -> Result<Job, JobFault>
    ensures { result ≡ checked (Ok draft) }
{
    if draft.tasks.is_empty() {
        return Err(JobFault::NoTask);
    }
    let budget = draft.budget.unwrap_or(DEFAULT_BUDGET);
    if draft.trace.is_some() && budget > MOST_TRACED {
        return Err(JobFault::Budget);
    }
    Ok(Job {
        modules: draft.modules,
        tasks: draft.tasks,
        turns: draft.turns.unwrap_or(TURNS),
        schedule: draft.schedule,
        budget,
        memory: draft.memory.unwrap_or(DEFAULT_MEMORY),
        trace: draft.trace,
        dump: draft.dump,
        reach: draft.reach,
        each: draft.each,
        only: draft.only,
        counts: false,
    })
}
