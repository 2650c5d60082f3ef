//! The lines of how tasks stand.

ghost use Rattle.std.specs.Prelude.{◌≡◌, ◌<◌, ◌^◌, ◌++◌, List, ℕ, IfOk, OnOk, codes, length, string_bytes};
ghost use Rattle.std.specs.Fmt.{decimal};
ghost use Rattle.ms_run.specs.Lines.{line};
ghost use Rattle.ms_run.specs.Standing.{AreStanding, apart_word, standing_line, standing_lines, state_line};
ghost use Rattle.ms_run.specs.refinement.Told.{state_in};
ghost use Rattle.ms_tasks.specs.refinement.Ready.{IsReady};

use crate::lines::{result_line, trap_line};
use ms_live::Gaps;
use ms_segment::Segments;
use ms_tagged::Tagged;
use ms_tasks::{Crew, TaskState};
use std::alloc::{AllocError, Global};

fn apart_word(apart: bool) -> &'static str
    ensures { result.now ≡ apart_word apart }
{
    if apart { "apart" } else { "joined" }
}

/// What a task gave, why it was stopped, or that it has more to do.
fn state_line(alloc: Global, state: TaskState) -> Result<String, AllocError>
    ensures { IfOk result (λ t. string_bytes t ≡ state_line state) }
{
    match state {
        TaskState::Unended => format!(in alloc; "open\n"),
        TaskState::Ended(value) => result_line(alloc, value),
        TaskState::Trapped(kind) => trap_line(alloc, kind),
    }
}

/// The line of these parts.
fn line_of(alloc: Global, number: usize, word: &str, end: &str) -> Result<String, AllocError>
    ensures { IfOk result (λ t. string_bytes t ≡ codes "task " ++ decimal number ++ codes " " ++ word.now ++ codes " " ++ end.now) }
{
    format!(in alloc; "task {number} {word} {end}")
}

/// The line of the task of this number.
fn standing_line(
    alloc: Global,
    number: usize,
    apart: bool,
    state: TaskState,
) -> Result<String, AllocError>
    ensures { IfOk result (λ t. string_bytes t ≡ standing_line number apart state) }
{
    let end = state_line(alloc, state)?;
    line_of(alloc, number, apart_word(apart), end.as_str())
}

/// A line for each task, whose flag says whether it is apart, behind others.
fn add_lines<G: Gaps, T: Tagged>(
    alloc: Global,
    crew: &Crew<Segments<G, T>>,
    flags: &[bool],
    lines: &mut Vec<u8>,
) -> Result<(), AllocError>
    requires each { length flags.now ≡ length crew.now.tasks }
    requires few { length crew.now.tasks < 2 ^ 32 }
    ensures { OnOk result (lines.new.items ≡ lines.old.items ++ standing_lines (state_in crew.now) 0 flags.now) }
{
    for number in 0..flags.len() {
        let apart = flags[number];
        let state = crew.state(number as u32);
        let line = standing_line(alloc, number, apart, state)?;
        lines.extend_from_slice(line.as_bytes())?;
    }
    Ok(())
}

/// A line for each task, if they are asked for, behind others.
pub fn add_standing<G: Gaps, T: Tagged>(
    alloc: Global,
    crew: &Crew<Segments<G, T>>,
    asked: bool,
    lines: &mut Vec<u8>,
) -> Result<(), AllocError>
    requires ready { IsReady crew.now.crew }
    requires addresses { length crew.now.addresses ≡ length crew.now.tasks }
    requires few { length crew.now.tasks < 2 ^ 32 }
    ensures { OnOk result ((standing : List ℕ) × AreStanding crew.now.store crew.now.addresses (state_in crew.now) asked standing × (lines.new.items ≡ lines.old.items ++ standing)) }
{
    if !asked {
        return Ok(());
    }
    let flags = crew.apart(alloc)?;
    add_lines(alloc, crew, flags.as_slice(), lines)
}
