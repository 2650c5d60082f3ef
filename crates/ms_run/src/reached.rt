//! The lines of what is reached.

ghost use Rattle.std.specs.Prelude.{◌≡◌, ◌<◌, ◌++◌, List, ℕ, IfOk, OnOk, length, string_bytes};
ghost use Rattle.ms_run.specs.Reached.{AreReached, TellsReach};
ghost use Rattle.ms_run.specs.refinement.Told.{AreTasks};
ghost use Rattle.ms_tasks.specs.refinement.Ready.{IsReady};

use crate::lines::reach_line;
use ms_live::Gaps;
use ms_reach::reach;
use ms_segment::Segments;
use ms_tagged::Tagged;
use ms_tasks::Crew;
use ms_types::Vector;
use std::alloc::{AllocError, Global};

/// The line of the set of this number, with the task of a number.
fn line_of<G: Gaps, T: Tagged>(
    alloc: Global,
    crew: &Crew<Segments<G, T>>,
    number: usize,
    task: u32,
    set: &[u32],
) -> Result<String, AllocError>
    requires ready { IsReady crew.now.crew }
    requires task { task < length crew.now.tasks }
    ensures { IfOk result (λ t. TellsReach crew.now.crew number task set.now (string_bytes t)) }
{
    let reached = reach(alloc, crew.store(), crew.task(task), set)?;
    reach_line(alloc, number, reached.segments, reached.bytes)
}

/// A line for each set that is asked what it reaches, behind others.
pub fn reach_all<G: Gaps, T: Tagged>(
    alloc: Global,
    crew: &Crew<Segments<G, T>>,
    asked: &[(u32, Vector<u32>)],
    lines: &mut Vec<u8>,
) -> Result<(), AllocError>
    requires ready { IsReady crew.now.crew }
    requires tasks { AreTasks (length crew.now.tasks) asked.now }
    ensures { OnOk result ((reached : List ℕ) × AreReached crew.now.crew 0 asked.now reached × (lines.new.items ≡ lines.old.items ++ reached)) }
{
    for number in 0..asked.len() {
        let (task, set) = &asked[number];
        let line = line_of(alloc, crew, number, *task, set.as_slice())?;
        lines.extend_from_slice(line.as_bytes())?;
    }
    Ok(())
}
