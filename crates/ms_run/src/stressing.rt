//! `stress`: a program of C that allocates and frees by random numbers.

ghost use Rattle.std.specs.Prelude.{◌≡◌, IfOk, None, Some, string_bytes};
ghost use Rattle.ms_machine.specs.Crews.{Input};
ghost use Rattle.ms_machine.specs.Running.{MayGive};
ghost use Rattle.ms_run.specs.Flows.{DidRun, Flows};
ghost use Rattle.ms_run.specs.Jobs.{RunOfJob, RunsJob};
ghost use Rattle.ms_run.specs.Observed.{flowed, reported, shelved};
ghost use Rattle.ms_run.specs.Reporting.{Holds};
ghost use Rattle.ms_run.specs.SafeRuns.{IsEnd, RanSafely};
ghost use Rattle.ms_run.specs.Stress.{stress_files, stress_job, stress_text};
ghost use Rattle.ms_run.specs.declared.gathering.Naming.TheVariants.{Only};

use crate::gathering::Naming;
use crate::running::{job_of, run_parsed};
use crate::status::Status;
use ms_command_line::{BUDGET, DEFAULT_MEMORY};
use ms_live::{Gaps, TreeGaps};
use ms_outside::{Shelf, Sink, Source, SureShelf};
use ms_tagged::{Granules, Tagged};
use std::alloc::{AllocError, Global};

/// The name of the program's file.
const FILE: &str = "stress.c";

/// The text of the program.
fn stress_text(alloc: Global, seed: u64, count: u64) -> Result<String, AllocError>
    ensures { IfOk result (λ t. string_bytes t ≡ stress_text seed count) }
{
    format!(in alloc;
        "int main(void){{int *t[4096]; int *p; long long x={seed}; int i; int k; int s=0;\nfor(i=0;i<{count};i=i+1){{x=x*48271%2147483647; k=x%4096;\nif(t[k]!=0){{s=s*31+*t[k]; free(t[k]);}}\np=malloc(4*(1+x/4096%32)); if(p!=0) *p=i; t[k]=p;}}\nfor(k=0;k<4096;k=k+1) if(t[k]!=0){{s=s*31+*t[k]; free(t[k]);}}\nreturn s;}}\n"
    )
}

/// The shelf that has its file alone.
fn stress_shelf(alloc: Global, seed: u64, count: u64) -> Result<SureShelf, AllocError>
    ensures { IfOk result (λ shelf. shelf ≡ stress_files seed count) }
{
    let text = stress_text(alloc, seed, count)?;
    let mut files = SureShelf::new(alloc);
    files.add(alloc, FILE, text.into_bytes())?;
    Ok(files)
}

/// `stress` over stores whose segments are placed by `G` and kept by `T`; which ones they are makes no difference to its answer.
#[allow(clippy::too_many_arguments)]
pub fn stress_over<G: Gaps, T: Tagged, F: Shelf, I: Source, O: Sink, R: Sink>(
    alloc: Global,
    seed: u64,
    count: u64,
    shelf: &mut F,
    input: &mut I,
    out: &mut O,
    report: &mut R,
) -> Status
    ensures did { (given : Input) × MayGive (I.left input.old) given × DidRun
        (RunsJob (Holds (Some (stress_files seed count))) Only given stress_job) given
        (shelved F.files F.read_faults F.write_faults shelf.old shelf.new)
        (reported R.held R.faults report.old report.new)
        (flowed I.left I.faults O.held O.faults input.old input.new out.old out.new)
        result
        × Flows given (RunOfJob (Holds (Some (stress_files seed count))) given stress_job)
        (flowed I.left I.faults O.held O.faults input.old input.new out.old out.new)
        result }
    // A run that has come to an end is that of the job, and was safe.
    ensures safe { IsEnd result → RanSafely (Some (stress_files seed count))
        (shelved F.files F.read_faults F.write_faults shelf.old shelf.new)
        (reported R.held R.faults report.old report.new)
        (flowed I.left I.faults O.held O.faults input.old input.new out.old out.new)
        stress_job result }
{
    let Ok(mut files) = stress_shelf(alloc, seed, count) else {
        return Status::OutOfMemory;
    };
    match job_of(alloc, FILE, BUDGET.most, DEFAULT_MEMORY, true) {
        Ok(job) => run_parsed::<G, T, SureShelf, I, O, R>(
            alloc,
            Naming::Only,
            job,
            &mut files,
            input,
            out,
            report,
        ),
        Err(_) => Status::OutOfMemory,
    }
}

/// `stress SEED COUNT`: compiles and runs a program of C that allocates and frees segments by `count` random numbers, which begin with
/// `seed`, within the greatest budget and 1,048,576 bytes of segment memory. The numbers of steps and of events go to the report, and
/// then the end of the run.
///
/// The files of the shelf stay as they are. What becomes of `input` and `out` is as `exec` says.
#[allow(clippy::too_many_arguments)]
pub fn stress<F: Shelf, I: Source, O: Sink, R: Sink>(
    alloc: Global,
    seed: u64,
    count: u64,
    shelf: &mut F,
    input: &mut I,
    out: &mut O,
    report: &mut R,
) -> Status
    ensures did { (given : Input) × MayGive (I.left input.old) given × DidRun
        (RunsJob (Holds (Some (stress_files seed count))) Only given stress_job) given
        (shelved F.files F.read_faults F.write_faults shelf.old shelf.new)
        (reported R.held R.faults report.old report.new)
        (flowed I.left I.faults O.held O.faults input.old input.new out.old out.new)
        result
        × Flows given (RunOfJob (Holds (Some (stress_files seed count))) given stress_job)
        (flowed I.left I.faults O.held O.faults input.old input.new out.old out.new)
        result }
    // A run that has come to an end is that of the job, and was safe.
    ensures safe { IsEnd result → RanSafely (Some (stress_files seed count))
        (shelved F.files F.read_faults F.write_faults shelf.old shelf.new)
        (reported R.held R.faults report.old report.new)
        (flowed I.left I.faults O.held O.faults input.old input.new out.old out.new)
        stress_job result }
{
    stress_over::<TreeGaps, Granules, F, I, O, R>(alloc, seed, count, shelf, input, out, report)
}
