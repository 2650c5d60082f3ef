//! Which task each step is given to.

ghost use Rattle.std.specs.Prelude.{◌≡◌, ℕ, ◌≤◌, length};
ghost use Rattle.ms_tasks.specs.refinement.Schedules.{entries_of, first_of, named};

/// Entry by entry the number of a task, whose step comes next.
#[derive(Drop)]
pub enum Entries {
    /// So many entries for each task, one task after the other: at least 1.
    Turns(u32),
    /// The tasks of these numbers, an entry each.
    Listed(Vec<u32>),
}

/// A schedule.
#[derive(Drop)]
pub struct Schedule {
    /// Its entries.
    pub entries: Entries,
    /// The number of the task whose entries alone name one, if not all do: those of the others name a task that isn't there.
    pub only: Option<u32>,
}

impl Entries {
    /// How many there are within a budget.
    fn most(&self, budget: u64) -> u64
        ensures entries { (tasks : ℕ) → length (first_of self.now tasks budget) ≡ result }
        ensures within { result ≤ budget }
    {
        match self {
            Entries::Turns(_) => budget,
            Entries::Listed(entries) => budget.min(entries.len() as u64),
        }
    }
}

impl Schedule {
    /// How many entries it has within a budget.
    pub(crate) fn most(&self, budget: u64) -> u64
        ensures entries { (tasks : ℕ) → length (entries_of self.now tasks budget) ≡ result }
        ensures within { result ≤ budget }
    {
        self.entries.most(budget)
    }
}

/// The task that an entry names, of so many: the number behind the last one where another task is named alone.
pub(crate) fn named(only: Option<u32>, tasks: u32, k: u32) -> u32
    ensures { result ≡ named only tasks k }
{
    match only {
        Some(n) if n != k => tasks,
        _ => k,
    }
}
