//! The program, over the objects outside.

ghost use Rattle.std.specs.Prelude.{map};
ghost use Rattle.ms_run.specs.Observed.{flowed, reported, shelved};
ghost use Rattle.ms_tool.specs.Outside.{seen};
ghost use Rattle.ms_tool.specs.refinement.Responding.{Responded};
ghost use Rattle.ms_tool.specs.Top.{Keeps};

use ms_command_line::{Request, WordsFault, parse_words, usage};
use ms_outside::{Shelf, Sink, Source};
use ms_run::{
    Status, answer, asm_file, check_file, compile_file, dis_file, exec, judge, run_job, stress,
};
use std::alloc::Global;

/// Does what the words of the command line ask for, of which the first is the program's name: `exec` reads a file from
/// the shelf, validates the module that it spells and runs it; `run` does so with the modules and the tasks that a job
/// names; `check` validates a module; `asm` and `dis` write it in the other form; `compile`
/// writes that of a unit of C; `judge` judges the trace of a run; `stress` runs a program that allocates and frees at random.
///
/// The line of what came of it goes to the report. `input` and `out` are those of the module that is run.
pub fn tool<F: Shelf, I: Source, O: Sink, R: Sink>(
    alloc: Global,
    words: &[&str],
    shelf: &mut F,
    input: &mut I,
    out: &mut O,
    report: &mut R,
) -> Status
    ensures { Keeps (map (λ w. w.now) words.now)
        (seen F.files F.read_faults F.write_faults I.left I.faults O.held O.faults R.held R.faults shelf.old input.old out.old report.old)
        (seen F.files F.read_faults F.write_faults I.left I.faults O.held O.faults R.held R.faults shelf.new input.new out.new report.new)
        result }
{
    respond(alloc, words, shelf, input, out, report)
}

/// Reads the words, and carries out what they ask for.
fn respond<F: Shelf, I: Source, O: Sink, R: Sink>(
    alloc: Global,
    words: &[&str],
    shelf: &mut F,
    input: &mut I,
    out: &mut O,
    report: &mut R,
) -> Status
    ensures { Responded (map (λ w. w.now) words.now)
        (shelved F.files F.read_faults F.write_faults shelf.old shelf.new)
        (reported R.held R.faults report.old report.new)
        (flowed I.left I.faults O.held O.faults input.old input.new out.old out.new)
        result }
{
    match parse_words(alloc, words) {
        Ok(
            Request::Exec {
                file,
                budget,
                memory,
            },
        ) => { exec(alloc, file, budget, memory, shelf, input, out, report) }
        Ok(Request::Run { job }) => run_job(alloc, job, shelf, input, out, report),
        Ok(Request::Check { file }) => check_file(alloc, file, shelf, input, out, report),
        Ok(Request::Asm { file, out: target }) => {
            asm_file(alloc, file, target, shelf, input, out, report)
        }
        Ok(Request::Dis { file, out: target }) => {
            dis_file(alloc, file, target, shelf, input, out, report)
        }
        Ok(Request::Compile { file, out: target }) => {
            compile_file(alloc, file, target, shelf, input, out, report)
        }
        Ok(Request::Judge { file, memory }) => {
            judge(alloc, file, memory, shelf, input, out, report)
        }
        Ok(Request::Stress { seed, count }) => {
            stress(alloc, seed, count, shelf, input, out, report)
        }
        Err(WordsFault::Refused) => answer(report, Status::Usage, usage().as_bytes()),
        Err(WordsFault::Memory) => Status::OutOfMemory,
    }
}

#[cfg(test)]
mod tests;
