//! Reading the files of a job: its modules, and its schedule.

ghost use Rattle.std.specs.Prelude.{◌≡◌, ◌<◌, IfErr, IfOk, length, string_bytes};
ghost use Rattle.ms_tasks.specs.refinement.Schedules.{HasTurns, entries_of};
ghost use Rattle.ms_run.specs.Answers.{HasModule, Unloaded};
ghost use Rattle.ms_run.specs.Jobs.{AllLoaded, FirstUnloaded, HasEntries, HasNumbers, Unnumbered, Unscheduled, what_of};
ghost use Rattle.ms_run.specs.Observed.{reported, shelved};
ghost use Rattle.ms_run.specs.Reporting.{Holds, IsFound, IsUntouched, Tells};

use crate::fetch::fetch;
use crate::lines::schedule_line;
use crate::loading::load_file;
use crate::report::answer_line;
use crate::status::Status;
use ms_job::{Job, SchedFault, schedule};
use ms_module::Name;
use ms_outside::{Shelf, Sink};
use ms_tasks::{Entries, Schedule};
use ms_valid::Valid;
use std::alloc::{AllocError, Global};

/// How the report tells of a module that is refused.
#[derive(Clone, Copy, PartialEq, Eq)]
pub enum Naming {
    /// There is no other one.
    Only,
    /// By its number, from 0.
    Numbered,
}

impl Naming {
    /// What stands before the words of the refusal of the module of a number.
    fn what(self, alloc: Global, number: usize) -> Result<String, AllocError>
        ensures { IfOk result (λ t. string_bytes t ≡ what_of self number) }
    {
        match self {
            Naming::Only => Ok(String::new(alloc)),
            Naming::Numbered => format!(in alloc; "module {number} "),
        }
    }
}

/// The module of a name and a file, which has a number among others, or the status where it has none, with its line put into the
/// report.
fn load_named<F: Shelf, R: Sink>(
    alloc: Global,
    naming: Naming,
    number: usize,
    named: &(Name, Name),
    shelf: &mut F,
    report: &mut R,
) -> Result<(Name, Valid), Status>
    ensures name { IfOk result (λ m. m.0 ≡ named.now.0) }
    ensures module { IfOk result (λ m. HasModule (Holds (F.files shelf.old)) named.now.1 m.1) }
    ensures untouched { IfOk result (λ _. IsUntouched
        (shelved F.files F.read_faults F.write_faults shelf.old shelf.new)
        (reported R.held R.faults report.old report.new)) }
    ensures printed { IfErr result (Tells
        (Unloaded (IsFound (shelved F.files F.read_faults F.write_faults shelf.old shelf.new)) (what_of naming number) named.now.1)
        (shelved F.files F.read_faults F.write_faults shelf.old shelf.new)
        (reported R.held R.faults report.old report.new)) }
{
    let Ok(what) = naming.what(alloc, number) else {
        return Err(Status::OutOfMemory);
    };
    let Ok(name) = Name::new(alloc, named.0.as_str()) else {
        return Err(Status::OutOfMemory);
    };
    match load_file(alloc, what.as_str(), named.1.as_str(), shelf, report) {
        Ok(valid) => Ok((name, valid)),
        Err(status) => Err(status),
    }
}

/// The modules of these names and files, in order, or the status where one has none, with its line put into the report.
pub fn load_all<F: Shelf, R: Sink>(
    alloc: Global,
    naming: Naming,
    files: &[(Name, Name)],
    shelf: &mut F,
    report: &mut R,
) -> Result<Vec<(Name, Valid)>, Status>
    ensures modules { IfOk result (λ modules. AllLoaded (Holds (F.files shelf.old)) files.now modules.items) }
    ensures untouched { IfOk result (λ _. IsUntouched
        (shelved F.files F.read_faults F.write_faults shelf.old shelf.new)
        (reported R.held R.faults report.old report.new)) }
    ensures printed { IfErr result (Tells
        (FirstUnloaded (IsFound (shelved F.files F.read_faults F.write_faults shelf.old shelf.new)) naming 0 files.now)
        (shelved F.files F.read_faults F.write_faults shelf.old shelf.new)
        (reported R.held R.faults report.old report.new)) }
{
    let mut modules = Vec::new(alloc);
    let mut number = 0;
    for named in files {
        let loaded = match load_named(alloc, naming, number, named, shelf, report) {
            Ok(loaded) => loaded,
            Err(status) => return Err(status),
        };
        let Ok(()) = modules.push(loaded) else {
            return Err(Status::OutOfMemory);
        };
        number += 1;
    }
    Ok(modules)
}

/// The numbers of a schedule's file, or the status where there are none, with its line put into the report.
fn listed<F: Shelf, R: Sink>(
    alloc: Global,
    file: &str,
    shelf: &mut F,
    report: &mut R,
) -> Result<Vec<u32>, Status>
    ensures numbers { IfOk result (λ numbers. HasNumbers (Holds (F.files shelf.old)) file.now numbers.items) }
    ensures untouched { IfOk result (λ _. IsUntouched
        (shelved F.files F.read_faults F.write_faults shelf.old shelf.new)
        (reported R.held R.faults report.old report.new)) }
    ensures printed { IfErr result (Tells
        (Unnumbered (IsFound (shelved F.files F.read_faults F.write_faults shelf.old shelf.new)) file.now)
        (shelved F.files F.read_faults F.write_faults shelf.old shelf.new)
        (reported R.held R.faults report.old report.new)) }
{
    let bytes = match fetch(alloc, file, shelf, report) {
        Ok(bytes) => bytes,
        Err(status) => return Err(status),
    };
    match schedule(alloc, bytes.as_slice()) {
        Ok(numbers) => Ok(numbers.into_vec()),
        Err(SchedFault::At { at }) => Err(answer_line(
            report,
            Status::Refused,
            schedule_line(alloc, at),
        )),
        Err(SchedFault::Memory) => Err(Status::OutOfMemory),
    }
}

/// The schedule of a job, or the status where its file has none, with its line put into the report.
pub fn schedule_of<F: Shelf, R: Sink>(
    alloc: Global,
    job: &Job,
    shelf: &mut F,
    report: &mut R,
) -> Result<Schedule, Status>
    requires turns { 0 < job.now.turns }
    ensures entries { IfOk result (λ s. HasEntries (Holds (F.files shelf.old)) job.now (entries_of s (length job.now.tasks) job.now.budget)) }
    ensures turns { IfOk result HasTurns }
    ensures untouched { IfOk result (λ _. IsUntouched
        (shelved F.files F.read_faults F.write_faults shelf.old shelf.new)
        (reported R.held R.faults report.old report.new)) }
    ensures printed { IfErr result (Tells
        (Unscheduled (IsFound (shelved F.files F.read_faults F.write_faults shelf.old shelf.new)) job.now)
        (shelved F.files F.read_faults F.write_faults shelf.old shelf.new)
        (reported R.held R.faults report.old report.new)) }
{
    let only = job.only;
    match &job.schedule {
        None => Ok(Schedule {
            entries: Entries::Turns(job.turns),
            only,
        }),
        Some(file) => match listed(alloc, file.as_str(), shelf, report) {
            Ok(numbers) => Ok(Schedule {
                entries: Entries::Listed(numbers),
                only,
            }),
            Err(status) => Err(status),
        },
    }
}
