//! Linking modules and running tasks, and the answer of how that ended.

ghost use Rattle.std.specs.Prelude.{◌≡◌, ℕ, ◌+◌, ◌<◌, ◌≤◌, ◌^◌, ◌++◌, List, IfOk, OnOk, length, map, string_bytes};
ghost use Rattle.ms_machine.specs.Crews.{results, run_of};
ghost use Rattle.ms_machine.specs.refinement.Holding.{StoreFits};
ghost use Rattle.ms_machine.specs.Linked.{StartsTyped};
ghost use Rattle.ms_machine.specs.Typing.{StoreTyped, outline_of};
ghost use Rattle.ms_rules.specs.Modules.{AreDistinct};
ghost use Rattle.ms_run.specs.Executions.{execution, in_store};
ghost use Rattle.ms_run.specs.Flows.{TellsEnd, TellsExecution};
ghost use Rattle.ms_run.specs.Lines.{result_lines};
ghost use Rattle.ms_run.specs.Observed.{flowed, reported, shelved};
ghost use Rattle.ms_run.specs.Reporting.{Delivers};
ghost use Rattle.ms_run.specs.Telling.{count_lines, dumped, traced};
ghost use Rattle.ms_run.specs.refinement.Counts.{logged_lines};
ghost use Rattle.ms_run.specs.refinement.Told.{AreListed, AreTasks, IsTold, whole_report};
ghost use Rattle.ms_outside.specs.Shelf.{SameCounts};
ghost use Rattle.ms_tasks.specs.Tasks.{AreAddresses};
ghost use Rattle.ms_tasks.specs.refinement.Ready.{IsReady};
ghost use Rattle.ms_tasks.specs.refinement.Schedules.{HasTurns, entries_of};

use crate::dump::dump_all;
use crate::lines::{budget_line, input_fault_line, link_line, result_line, task_line, trap_line};
use crate::reached::reach_all;
use crate::report::{answer, answer_line, write_and_answer};
use crate::standing::add_standing;
use crate::status::Status;
use crate::telling::Telling;
use ms_link::{LinkFault, link};
use ms_live::Gaps;
use ms_machine::Store;
use ms_module::Name;
use ms_monitor::print_trace;
use ms_outside::{Shelf, Sink, Source};
use ms_segment::Segments;
use ms_tagged::Tagged;
use ms_tasks::{Crew, Log, Ran, Refusal, Schedule};
use ms_valid::Valid;
use std::alloc::{AllocError, Global};

/// A line for each of so many tasks, which have ended.
fn result_lines<G: Gaps, T: Tagged>(
    alloc: Global,
    crew: &Crew<Segments<G, T>>,
    tasks: u32,
) -> Result<String, AllocError>
    requires { tasks ≡ length crew.now.tasks }
    ensures { IfOk result (λ t. string_bytes t ≡ result_lines (results crew.now.tasks)) }
{
    let mut lines = String::new(alloc);
    for number in 0..tasks {
        let line = result_line(alloc, crew.task(number).operands.last())?;
        lines.push_str(line.as_str())?;
    }
    Ok(lines)
}

/// So many steps and events.
fn number_lines(
    alloc: Global,
    steps: u64,
    allocs: u64,
    frees: u64,
    reads: u64,
    writes: u64,
) -> Result<String, AllocError>
    ensures { IfOk result (λ t. string_bytes t ≡ count_lines steps allocs frees reads writes) }
{
    format!(in alloc;
        "steps {steps}\nallocs {allocs}\nfrees {frees}\nreads {reads}\nwrites {writes}\n"
    )
}

/// The numbers of what a run did, as its log tells them, if they are asked for.
fn counts(alloc: Global, telling: &Telling, log: &Log) -> Result<String, AllocError>
    ensures { IfOk result (λ t. string_bytes t ≡ logged_lines telling.now log.now) }
{
    if !telling.counts {
        return Ok(String::new(alloc));
    }
    number_lines(
        alloc,
        log.entries(),
        log.allocs(),
        log.frees(),
        log.reads(),
        log.writes(),
    )
}

/// The lines of the live segments, if they are asked for, behind others.
fn add_dump<G: Gaps, T: Tagged>(
    alloc: Global,
    telling: &Telling,
    segments: &Segments<G, T>,
    text: &mut Vec<u8>,
) -> Result<(), AllocError>
    ensures { OnOk result (text.new.items ≡ text.old.items ++ dumped telling.now segments.now) }
{
    if !telling.dump {
        return Ok(());
    }
    dump_all(alloc, segments, text)
}

/// The report of a run: the numbers of what it did, the lines of its end, those of the live segments, of what is reached, and of how
/// each task stands, all but the second where they are asked for.
fn report_of<G: Gaps, T: Tagged>(
    alloc: Global,
    telling: &Telling,
    lines: Result<String, AllocError>,
    log: &Log,
    crew: &Crew<Segments<G, T>>,
) -> Result<Vec<u8>, AllocError>
    requires ready { IsReady crew.now.crew }
    requires tasks { AreTasks (length crew.now.tasks) telling.now.reach }
    requires addresses { length crew.now.addresses ≡ length crew.now.tasks }
    requires few { length crew.now.tasks < 2 ^ 32 }
    ensures { (text : List ℕ) → IfOk lines (λ t. string_bytes t ≡ text) → IfOk result (λ t. (left : List ℕ) × AreListed telling.now crew.now left × (t.items ≡ whole_report telling.now crew.now log.now text left)) }
{
    let mut text = counts(alloc, telling, log)?.into_bytes();
    text.extend_from_slice(lines?.as_bytes())?;
    add_dump(alloc, telling, crew.store().segments(), &mut text)?;
    reach_all(alloc, crew, telling.reach.as_slice(), &mut text)?;
    add_standing(alloc, crew, telling.each, &mut text)?;
    Ok(text)
}

/// Writes the events of a run to the file of the trace, if there is one, and then puts its report. There is memory for the events
/// before anything is written.
fn put_report<F: Shelf, R: Sink>(
    alloc: Global,
    telling: &Telling,
    status: Status,
    text: &[u8],
    log: &Log,
    shelf: &mut F,
    report: &mut R,
) -> Status
    ensures printed { Delivers
        (record { status = status; report = text.now; file = traced telling.now log.now.trace.events })
        (shelved F.files F.read_faults F.write_faults shelf.old shelf.new)
        (reported R.held R.faults report.old report.new)
        result }
    ensures reads { SameCounts (F.read_faults shelf.old) (F.read_faults shelf.new) }
{
    let Some(name) = &telling.trace else {
        return answer(report, status, text);
    };
    let Ok(trace) = print_trace(alloc, log.events()) else {
        return Status::OutOfMemory;
    };
    write_and_answer(
        alloc,
        name.as_str(),
        trace.as_slice(),
        status,
        text,
        shelf,
        report,
    )
}

/// Tells of a run that came to an end: its events are written to the file of the trace, if there is one, and then its report
/// is put. There is memory for both before anything is written.
#[allow(clippy::too_many_arguments)]
fn tell_run<G: Gaps, T: Tagged, F: Shelf, R: Sink>(
    alloc: Global,
    telling: &Telling,
    status: Status,
    lines: Result<String, AllocError>,
    crew: &Crew<Segments<G, T>>,
    log: &Log,
    shelf: &mut F,
    report: &mut R,
) -> Status
    requires ready { IsReady crew.now.crew }
    requires tasks { AreTasks (length crew.now.tasks) telling.now.reach }
    requires addresses { length crew.now.addresses ≡ length crew.now.tasks }
    requires few { length crew.now.tasks < 2 ^ 32 }
    ensures printed { (text : List ℕ) → IfOk lines (λ t. string_bytes t ≡ text) → IsTold telling.now crew.now log.now status text
        (shelved F.files F.read_faults F.write_faults shelf.old shelf.new)
        (reported R.held R.faults report.old report.new)
        result }
    ensures reads { SameCounts (F.read_faults shelf.old) (F.read_faults shelf.new) }
{
    let Ok(text) = report_of(alloc, telling, lines, log, crew) else {
        return Status::OutOfMemory;
    };
    put_report(alloc, telling, status, text.as_slice(), log, shelf, report)
}

/// Runs the start functions and so many tasks of a crew, and tells how that ended.
#[allow(clippy::too_many_arguments)]
fn run_crew<G: Gaps, T: Tagged, F: Shelf, I: Source, O: Sink, R: Sink>(
    alloc: Global,
    crew: &mut Crew<Segments<G, T>>,
    tasks: u32,
    schedule: &Schedule,
    budget: u64,
    telling: &Telling,
    shelf: &mut F,
    input: &mut I,
    out: &mut O,
    report: &mut R,
) -> Status
    requires ready { IsReady crew.old.crew }
    requires tasks { (tasks ≡ length crew.old.tasks) × (0 < tasks) }
    requires addresses { length crew.old.addresses ≡ length crew.old.tasks }
    requires reach { AreTasks tasks telling.now.reach }
    requires turns { HasTurns schedule.now }
    requires few { crew.old.store.segments.made + budget < 2 ^ 63 }
    ensures printed { (named : List (ℕ × List ℕ)) → AreAddresses crew.old.store named crew.old.addresses
        → TellsEnd (record { telling = telling.now; tasks = named }) (run_of (entries_of schedule.now (length crew.old.tasks) budget) crew.old.crew)
        (shelved F.files F.read_faults F.write_faults shelf.old shelf.new)
        (reported R.held R.faults report.old report.new)
        (flowed I.left I.faults O.held O.faults input.old input.new out.old out.new)
        result }
    ensures reads { SameCounts (F.read_faults shelf.old) (F.read_faults shelf.new) }
{
    let mut log = Log::new(alloc, telling.trace.is_some());
    match crew.run(schedule, budget, input, out, &mut log) {
        Ran::Results => {
            let lines = result_lines(alloc, crew, tasks);
            tell_run(
                alloc,
                telling,
                Status::Done,
                lines,
                crew,
                &log,
                shelf,
                report,
            )
        }
        Ran::Trap(_, kind) => {
            let lines = trap_line(alloc, kind);
            tell_run(
                alloc,
                telling,
                Status::Trapped,
                lines,
                crew,
                &log,
                shelf,
                report,
            )
        }
        Ran::Budget => {
            let lines = budget_line(alloc);
            tell_run(
                alloc,
                telling,
                Status::OutOfBudget,
                lines,
                crew,
                &log,
                shelf,
                report,
            )
        }
        Ran::ReadFault => answer(report, Status::ReadFault, input_fault_line()),
        Ran::WriteFault => Status::WriteFault,
        Ran::Memory => Status::OutOfMemory,
    }
}

/// Runs the tasks of a store, and tells how that ended, or which task has no function.
#[allow(clippy::too_many_arguments)]
fn run_store<G: Gaps, T: Tagged, F: Shelf, I: Source, O: Sink, R: Sink>(
    alloc: Global,
    store: Store<Segments<G, T>>,
    tasks: Vec<(u32, Name)>,
    schedule: &Schedule,
    budget: u64,
    telling: &Telling,
    shelf: &mut F,
    input: &mut I,
    out: &mut O,
    report: &mut R,
) -> Status
    requires typed { StoreTyped (outline_of store) }
    requires fits { StoreFits store }
    requires starts { StartsTyped store }
    requires tasks { (0 < length tasks.items) × (length tasks.items < 2 ^ 32) }
    requires reach { AreTasks (length tasks.items) telling.now.reach }
    requires turns { HasTurns schedule.now }
    requires few { store.segments.made + budget < 2 ^ 63 }
    ensures printed { TellsExecution (record { telling = telling.now; tasks = tasks.items }) (in_store tasks.items (entries_of schedule.now (length tasks.items) budget) store)
        (shelved F.files F.read_faults F.write_faults shelf.old shelf.new)
        (reported R.held R.faults report.old report.new)
        (flowed I.left I.faults O.held O.faults input.old input.new out.old out.new)
        result }
    ensures reads { SameCounts (F.read_faults shelf.old) (F.read_faults shelf.new) }
{
    let count = tasks.as_slice().len() as u32;
    match Crew::new(alloc, store, tasks) {
        Ok(mut crew) => run_crew(
            alloc, &mut crew, count, schedule, budget, telling, shelf, input, out, report,
        ),
        Err(Refusal::Task(number)) => {
            answer_line(report, Status::Refused, task_line(alloc, number))
        }
        Err(Refusal::Memory) => Status::OutOfMemory,
    }
}

/// Links modules, each with its name, runs their tasks with a segment memory of so many bytes, and tells how that ended, or what
/// isn't linked, or which task has no function.
#[allow(clippy::too_many_arguments)]
pub fn execute<G: Gaps, T: Tagged, F: Shelf, I: Source, O: Sink, R: Sink>(
    alloc: Global,
    modules: Vec<(Name, Valid)>,
    tasks: Vec<(u32, Name)>,
    schedule: &Schedule,
    budget: u64,
    memory: u32,
    telling: &Telling,
    shelf: &mut F,
    input: &mut I,
    out: &mut O,
    report: &mut R,
) -> Status
    requires names { AreDistinct (map (λ m. m.0) modules.items) }
    requires tasks { (0 < length tasks.items) × (length tasks.items < 2 ^ 32) }
    requires reach { AreTasks (length tasks.items) telling.now.reach }
    requires turns { HasTurns schedule.now }
    requires few { budget < 2 ^ 63 }
    ensures printed { TellsExecution (record { telling = telling.now; tasks = tasks.items }) (execution modules.items tasks.items (entries_of schedule.now (length tasks.items) budget) memory)
        (shelved F.files F.read_faults F.write_faults shelf.old shelf.new)
        (reported R.held R.faults report.old report.new)
        (flowed I.left I.faults O.held O.faults input.old input.new out.old out.new)
        result }
    ensures reads { SameCounts (F.read_faults shelf.old) (F.read_faults shelf.new) }
{
    match link::<G, T>(alloc, modules, memory) {
        Ok(store) => run_store(
            alloc, store, tasks, schedule, budget, telling, shelf, input, out, report,
        ),
        Err(LinkFault::Refused { module, item, why }) => {
            answer_line(report, Status::Refused, link_line(alloc, module, item, why))
        }
        Err(LinkFault::Memory) => Status::OutOfMemory,
    }
}
