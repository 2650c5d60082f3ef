//! `exec` and `run`: the files of a job are read, its modules are linked, and its tasks are run.

ghost use Rattle.std.specs.Prelude.{◌≡◌, ◌≤◌, ◌<◌, ◌^◌, IfOk};
ghost use Rattle.ms_command_line.specs.Commands as options;
ghost use Rattle.ms_job.specs.refinement.Bounds.{IsBounded};
ghost use Rattle.ms_job.specs.declared.job.Job.{Job};
ghost use Rattle.ms_machine.specs.Crews.{Input};
ghost use Rattle.ms_machine.specs.Running.{MayGive};
ghost use Rattle.ms_run.specs.Flows.{DidRun, Flows};
ghost use Rattle.ms_run.specs.Jobs.{HasJob, RunOfFile, RunOfJob, RunsFile, RunsJob, exec_job};
ghost use Rattle.ms_run.specs.Observed.{flowed, reported, shelved};
ghost use Rattle.ms_run.specs.Reporting.{Holds, IsFound};
ghost use Rattle.ms_run.specs.SafeRuns.{IsEnd, RanSafely};
ghost use Rattle.ms_run.specs.declared.gathering.Naming.TheVariants.{Only};

use crate::execution::execute;
use crate::fetch::fetch;
use crate::gathering::{Naming, load_all, schedule_of};
use crate::report::answer_job_fault;
use crate::status::Status;
use crate::telling::Telling;
use ms_job::{Job, MOST_TURNS, parse};
use ms_live::{Gaps, TreeGaps};
use ms_module::Name;
use ms_outside::{Shelf, Sink, Source};
use ms_tagged::{Granules, Tagged};
use ms_types::Vector;
use std::alloc::{AllocError, Global};

/// Runs a job whose text was read: reads the files that it names, validates and links its modules, and runs its start functions and
/// its tasks, over stores whose segments are placed by `G` and kept by `T`. `exec` and `run` are this call over the stores of the
/// program; which ones they are makes no difference to its answer.
///
/// The job is as one that a text says: its modules have different names, it has 1 to 64 tasks with turns of at least 1, a budget of
/// at most 10^12 and at most 2^30 bytes of segment memory. `naming` says how the report tells of a module that is refused. What
/// becomes of `input` and `out` is as `exec` says.
#[allow(clippy::too_many_arguments)]
pub fn run_parsed<G: Gaps, T: Tagged, F: Shelf, I: Source, O: Sink, R: Sink>(
    alloc: Global,
    naming: Naming,
    job: Job,
    shelf: &mut F,
    input: &mut I,
    out: &mut O,
    report: &mut R,
) -> Status
    requires bounds { IsBounded job }
    ensures did { (given : Input) × MayGive (I.left input.old) given × DidRun
        (RunsJob (IsFound (shelved F.files F.read_faults F.write_faults shelf.old shelf.new)) naming given job) given
        (shelved F.files F.read_faults F.write_faults shelf.old shelf.new)
        (reported R.held R.faults report.old report.new)
        (flowed I.left I.faults O.held O.faults input.old input.new out.old out.new)
        result
        × Flows given (RunOfJob (Holds (F.files shelf.old)) given job)
        (flowed I.left I.faults O.held O.faults input.old input.new out.old out.new)
        result }
    // A run that has come to an end is that of the job, and was safe.
    ensures safe { IsEnd result → RanSafely (F.files shelf.old)
        (shelved F.files F.read_faults F.write_faults shelf.old shelf.new)
        (reported R.held R.faults report.old report.new)
        (flowed I.left I.faults O.held O.faults input.old input.new out.old out.new)
        job result }
{
    let modules = match load_all(alloc, naming, job.modules.as_slice(), shelf, report) {
        Ok(modules) => modules,
        Err(status) => return status,
    };
    let schedule = match schedule_of(alloc, &job, shelf, report) {
        Ok(schedule) => schedule,
        Err(status) => return status,
    };
    let tasks = job.tasks.into_vec();
    let telling = Telling {
        trace: job.trace,
        counts: job.counts,
        dump: job.dump,
        reach: job.reach,
        each: job.each,
    };
    execute::<G, T, F, I, O, R>(
        alloc, modules, tasks, &schedule, job.budget, job.memory, &telling, shelf, input, out,
        report,
    )
}

/// The job of one module, whose task is its export `main`; `counts` says whether the numbers of what it does are told.
pub fn job_of(
    alloc: Global,
    file: &str,
    budget: u64,
    memory: u32,
    counts: bool,
) -> Result<Job, AllocError>
    ensures { IfOk result (λ job. job ≡ record (exec_job file.now budget memory) { counts = counts }) }
{
    let name = Name::new(alloc, "")?;
    let file = Name::new(alloc, file)?;
    let main = Name::new(alloc, "main")?;
    Ok(Job {
        modules: Vector::from_vec(vec![in alloc; (name, file)]?),
        tasks: Vector::from_vec(vec![in alloc; (0, main)]?),
        turns: MOST_TURNS as u32,
        schedule: None,
        budget,
        memory,
        trace: None,
        dump: false,
        reach: Vector::new(alloc),
        each: false,
        only: None,
        counts,
    })
}

/// `exec FILE`: reads a module from the shelf, validates it, links it with the host and runs its start function and then its
/// `main`, at most `budget` steps (up to 10^12) with `memory` bytes of segment memory (up to 2^30). The end of the run goes to
/// the report.
///
/// The run takes from `input` and puts to `out`: after its end `out` has grown by exactly its bytes, and `input` has lost
/// exactly those that it takes. Where one of them failed the answer is a read fault or a write fault, `out` has grown by a
/// front of the run's bytes, and `input` has lost only bytes that the run takes.
#[allow(clippy::too_many_arguments)]
pub fn exec<F: Shelf, I: Source, O: Sink, R: Sink>(
    alloc: Global,
    file: &str,
    budget: u64,
    memory: u32,
    shelf: &mut F,
    input: &mut I,
    out: &mut O,
    report: &mut R,
) -> Status
    requires budget { budget ≤ options.budget.most }
    requires memory { memory ≤ options.memory.most }
    ensures did { (given : Input) × MayGive (I.left input.old) given × DidRun
        (RunsJob (IsFound (shelved F.files F.read_faults F.write_faults shelf.old shelf.new)) Only given (exec_job file.now budget memory)) given
        (shelved F.files F.read_faults F.write_faults shelf.old shelf.new)
        (reported R.held R.faults report.old report.new)
        (flowed I.left I.faults O.held O.faults input.old input.new out.old out.new)
        result
        × Flows given (RunOfJob (Holds (F.files shelf.old)) given (exec_job file.now budget memory))
        (flowed I.left I.faults O.held O.faults input.old input.new out.old out.new)
        result }
    // A run that has come to an end is that of the job, and was safe.
    ensures safe { IsEnd result → RanSafely (F.files shelf.old)
        (shelved F.files F.read_faults F.write_faults shelf.old shelf.new)
        (reported R.held R.faults report.old report.new)
        (flowed I.left I.faults O.held O.faults input.old input.new out.old out.new)
        (exec_job file.now budget memory) result }
{
    match job_of(alloc, file, budget, memory, false) {
        Ok(job) => run_parsed::<TreeGaps, Granules, F, I, O, R>(
            alloc,
            Naming::Only,
            job,
            shelf,
            input,
            out,
            report,
        ),
        Err(_) => Status::OutOfMemory,
    }
}

/// `run JOB`: reads a job from the shelf and the files that it names, validates its modules, links them in order with the host,
/// and runs their start functions and then the tasks by the job's schedule. The end of the run goes to the report: a line for
/// each task.
///
/// What becomes of `input` and `out` is as `exec` says.
pub fn run_job<F: Shelf, I: Source, O: Sink, R: Sink>(
    alloc: Global,
    job: &str,
    shelf: &mut F,
    input: &mut I,
    out: &mut O,
    report: &mut R,
) -> Status
    ensures did { (given : Input) × MayGive (I.left input.old) given × DidRun
        (RunsFile (IsFound (shelved F.files F.read_faults F.write_faults shelf.old shelf.new)) given job.now) given
        (shelved F.files F.read_faults F.write_faults shelf.old shelf.new)
        (reported R.held R.faults report.old report.new)
        (flowed I.left I.faults O.held O.faults input.old input.new out.old out.new)
        result
        × Flows given (RunOfFile (Holds (F.files shelf.old)) given job.now)
        (flowed I.left I.faults O.held O.faults input.old input.new out.old out.new)
        result }
    // A run that has come to an end is that of the job that the file has, and was safe.
    ensures safe { IsEnd result → (asked : Job) × HasJob (Holds (F.files shelf.old)) job.now asked × RanSafely (F.files shelf.old)
        (shelved F.files F.read_faults F.write_faults shelf.old shelf.new)
        (reported R.held R.faults report.old report.new)
        (flowed I.left I.faults O.held O.faults input.old input.new out.old out.new)
        asked result }
{
    let bytes = match fetch(alloc, job, shelf, report) {
        Ok(bytes) => bytes,
        Err(status) => return status,
    };
    match parse(alloc, bytes.as_slice()) {
        Ok(parsed) => run_parsed::<TreeGaps, Granules, F, I, O, R>(
            alloc,
            Naming::Numbered,
            parsed,
            shelf,
            input,
            out,
            report,
        ),
        Err(fault) => answer_job_fault(alloc, fault, report),
    }
}
