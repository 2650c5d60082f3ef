//! A job so far, and what a line makes of it.

ghost use Rattle.std.specs.Prelude.{◌≡◌, ◌≤◌, ◌∷◌, [], length, map, position};
ghost use Rattle.std.specs.Str.{bytes_eq};
ghost use Rattle.ms_job.specs.Jobs.{new_in, no_lines, set_of, task_of, with_budget, with_dump, with_each, with_line, with_memory, with_module, with_only, with_reach, with_schedule, with_task, with_trace, with_turns, with_words};
ghost use Rattle.ms_job.specs.refinement.Reading.{Finds, Follows};
ghost use Rattle.ms_job.specs.Words.{words};

use crate::words::{is_name, number, words_of};
use ms_command_line::{BUDGET, MEMORY};
use ms_module::Name;
use ms_names::utf8;
use ms_types::Vector;
use std::alloc::{AllocError, AllocFailed, Global};

/// How many lines may name a module, how many a task, and how many ask what modules reach.
const MOST_LINES: usize = 64;

/// The greatest number of a task.
const LAST_TASK: u64 = 63;

/// How many entries in a row may name one task.
pub const MOST_TURNS: u64 = 1_000_000;

/// What the lines of a job say so far.
#[derive(Drop)]
pub(crate) struct Draft {
    pub(crate) modules: Vector<(Name, Name)>,
    pub(crate) tasks: Vector<(u32, Name)>,
    pub(crate) turns: Option<u32>,
    pub(crate) schedule: Option<Name>,
    pub(crate) budget: Option<u64>,
    pub(crate) memory: Option<u32>,
    pub(crate) trace: Option<Name>,
    pub(crate) dump: bool,
    pub(crate) reach: Vector<(u32, Vector<u32>)>,
    pub(crate) each: bool,
    pub(crate) only: Option<u32>,
}

/// Why a line isn't taken.
#[derive(Clone, Copy)]
pub(crate) enum Stop {
    /// It isn't UTF-8 or breaks a rule.
    Broken,
    /// Memory ran out.
    Memory,
}

impl From<AllocError> for Stop {
    ghost use Rattle.ms_job.specs.declared.draft.Stop.TheVariants.{Memory};

    ghost from_gives = { λ _ e. e ≡ Memory };

    fn from(_e: AllocError) -> Stop {
        Stop::Memory
    }
}

impl<T: Drop> From<AllocFailed<T>> for Stop {
    ghost use Rattle.ms_job.specs.declared.draft.Stop.TheVariants.{Memory};

    ghost from_gives = { λ _ e. e ≡ Memory };

    fn from(_e: AllocFailed<T>) -> Stop {
        Stop::Memory
    }
}

impl Draft {
    /// What no lines say.
    pub(crate) fn new(alloc: Global) -> Self
        ensures { result ≡ no_lines }
    {
        Draft {
            modules: Vector::new(alloc),
            tasks: Vector::new(alloc),
            turns: None,
            schedule: None,
            budget: None,
            memory: None,
            trace: None,
            dump: false,
            reach: Vector::new(alloc),
            each: false,
            only: None,
        }
    }

    /// Takes a line. Where memory ran out, part of it may have been taken.
    pub(crate) fn line(&mut self, alloc: Global, line: &[u8]) -> Result<(), Stop>
        ensures { Follows (with_line self.old line.now) self.new result }
    {
        let Some(text) = utf8(line) else {
            return Err(Stop::Broken);
        };
        match line {
            [] | [b'#', ..] => Ok(()),
            [b' ', ..] | [.., b' '] => Err(Stop::Broken),
            _ => self.rule(alloc, text),
        }
    }

    /// Takes a line of words.
    #[tactic(auto, using(crate::proofs::ManyWords::first_words))]
    fn rule(&mut self, alloc: Global, line: &str) -> Result<(), Stop>
        ensures { Follows (with_words self.old (words line.now)) self.new result }
    {
        let words = words_of(alloc, line)?;
        self.words(alloc, words.as_slice())
    }

    /// Takes the words of a line.
    #[tactic(auto, using(crate::proofs::TextsOf::two_texts, crate::proofs::TextsOf::three_texts, crate::proofs::TextsOf::more_texts))]
    fn words(&mut self, alloc: Global, words: &[&str]) -> Result<(), Stop>
        ensures { Follows (with_words self.old (map (λ word. word.now) words.now)) self.new result }
    {
        match words {
            [word] => self.word(word),
            [word, argument] => self.option(alloc, word, argument),
            [word, first, second] => self.entry(alloc, word, first, second),
            [word, first, more @ ..] => self.list(alloc, word, first, more),
            _ => Err(Stop::Broken),
        }
    }

    /// A line of one word.
    fn word(&mut self, word: &str) -> Result<(), Stop>
        ensures { Follows (with_words self.old (word.now ∷ [])) self.new result }
    {
        match word {
            "dump" => self.dump(),
            "each" => self.each(),
            _ => Err(Stop::Broken),
        }
    }

    /// A line of two words.
    fn option(&mut self, alloc: Global, word: &str, argument: &str) -> Result<(), Stop>
        ensures { Follows (with_words self.old (word.now ∷ argument.now ∷ [])) self.new result }
    {
        match word {
            "turns" => self.turns(argument),
            "schedule" => self.schedule(alloc, argument),
            "budget" => self.budget(argument),
            "memory" => self.memory(argument),
            "trace" => self.trace(alloc, argument),
            "only" => self.only(argument),
            _ => Err(Stop::Broken),
        }
    }

    /// A line of three words.
    fn entry(&mut self, alloc: Global, word: &str, first: &str, second: &str) -> Result<(), Stop>
        ensures { Follows (with_words self.old (word.now ∷ first.now ∷ second.now ∷ [])) self.new result }
    {
        match word {
            "module" => self.module(alloc, first, second),
            "task" => self.task(alloc, first, second),
            "reach" => self.reach(alloc, first, &[second]),
            _ => Err(Stop::Broken),
        }
    }

    /// A line of four words or more.
    fn list(&mut self, alloc: Global, word: &str, first: &str, more: &[&str]) -> Result<(), Stop>
        requires { 2 ≤ length more.now }
        ensures { Follows (with_words self.old (word.now ∷ first.now ∷ map (λ x. x.now) more.now)) self.new result }
    {
        match word {
            "reach" => self.reach(alloc, first, more),
            _ => Err(Stop::Broken),
        }
    }

    /// `module NAME FILE`
    fn module(&mut self, alloc: Global, name: &str, file: &str) -> Result<(), Stop>
        ensures { Follows (with_module self.old name.now file.now) self.new result }
    {
        if !is_name(name.as_bytes())
            || place_of(self.modules.as_slice(), name).is_some()
            || self.modules.len() >= MOST_LINES
        {
            return Err(Stop::Broken);
        }
        let entry = (Name::new(alloc, name)?, Name::new(alloc, file)?);
        self.modules.push(entry)?;
        Ok(())
    }

    /// `task MODULE EXPORT`
    fn task(&mut self, alloc: Global, name: &str, export: &str) -> Result<(), Stop>
        ensures { Follows (with_task self.old name.now export.now) self.new result }
    {
        if self.tasks.len() >= MOST_LINES {
            return Err(Stop::Broken);
        }
        let Some(place) = place_of(self.modules.as_slice(), name) else {
            return Err(Stop::Broken);
        };
        let number = u32::try_from(place).map_err(|_| AllocError)?;
        self.tasks.push((number, Name::new(alloc, export)?))?;
        Ok(())
    }

    /// `turns Q`
    fn turns(&mut self, word: &str) -> Result<(), Stop>
        ensures { Follows (with_turns self.old word.now) self.new result }
    {
        if self.schedule.is_some() || self.turns.is_some() {
            return Err(Stop::Broken);
        }
        let Some(turns) = number(word.as_bytes(), 1, MOST_TURNS) else {
            return Err(Stop::Broken);
        };
        self.turns = Some(turns as u32);
        Ok(())
    }

    /// `schedule FILE`
    fn schedule(&mut self, alloc: Global, file: &str) -> Result<(), Stop>
        ensures { Follows (with_schedule self.old file.now) self.new result }
    {
        if self.turns.is_some() || self.schedule.is_some() {
            return Err(Stop::Broken);
        }
        self.schedule = Some(Name::new(alloc, file)?);
        Ok(())
    }

    /// `budget N`
    fn budget(&mut self, word: &str) -> Result<(), Stop>
        ensures { Follows (with_budget self.old word.now) self.new result }
    {
        if self.budget.is_some() {
            return Err(Stop::Broken);
        }
        let Some(budget) = number(word.as_bytes(), BUDGET.least, BUDGET.most) else {
            return Err(Stop::Broken);
        };
        self.budget = Some(budget);
        Ok(())
    }

    /// `memory N`
    fn memory(&mut self, word: &str) -> Result<(), Stop>
        ensures { Follows (with_memory self.old word.now) self.new result }
    {
        if self.memory.is_some() {
            return Err(Stop::Broken);
        }
        let Some(memory) = number(word.as_bytes(), MEMORY.least, MEMORY.most) else {
            return Err(Stop::Broken);
        };
        self.memory = Some(memory as u32);
        Ok(())
    }

    /// `trace FILE`
    fn trace(&mut self, alloc: Global, file: &str) -> Result<(), Stop>
        ensures { Follows (with_trace self.old file.now) self.new result }
    {
        if self.trace.is_some() {
            return Err(Stop::Broken);
        }
        self.trace = Some(Name::new(alloc, file)?);
        Ok(())
    }

    /// `dump`
    fn dump(&mut self) -> Result<(), Stop>
        ensures { Follows (with_dump self.old) self.new result }
    {
        if self.dump {
            return Err(Stop::Broken);
        }
        self.dump = true;
        Ok(())
    }

    /// `each`
    fn each(&mut self) -> Result<(), Stop>
        ensures { Follows (with_each self.old) self.new result }
    {
        if self.each {
            return Err(Stop::Broken);
        }
        self.each = true;
        Ok(())
    }

    /// `only N`
    fn only(&mut self, word: &str) -> Result<(), Stop>
        ensures { Follows (with_only self.old word.now) self.new result }
    {
        if self.only.is_some() {
            return Err(Stop::Broken);
        }
        let Some(task) = self.task_of(word) else {
            return Err(Stop::Broken);
        };
        self.only = Some(task);
        Ok(())
    }

    /// The number of a task that stands above.
    fn task_of(&self, word: &str) -> Option<u32>
        ensures { result ≡ task_of self.now word.now }
    {
        let number = number(word.as_bytes(), 0, LAST_TASK)?;
        (number < self.tasks.len() as u64).then_some(number as u32)
    }

    /// `reach T MODULE ..`
    fn reach(&mut self, alloc: Global, task: &str, names: &[&str]) -> Result<(), Stop>
        ensures { Follows (with_reach self.old task.now (map (λ name. name.now) names.now)) self.new result }
    {
        if self.reach.len() >= MOST_LINES {
            return Err(Stop::Broken);
        }
        if names.len() > MOST_LINES {
            return Err(Stop::Broken);
        }
        let Some(task) = self.task_of(task) else {
            return Err(Stop::Broken);
        };
        let modules = self.set_of(alloc, names)?;
        self.reach.push((task, modules))?;
        Ok(())
    }

    /// The numbers of the modules of these names.
    fn set_of(&self, alloc: Global, names: &[&str]) -> Result<Vector<u32>, Stop>
        ensures { Finds (set_of self.now [] (map (λ name. name.now) names.now)) result }
    {
        let mut set = Vector::new(alloc);
        for name in names {
            let number = self.new_in(set.as_slice(), name)?;
            set.push(number)?;
        }
        Ok(set)
    }

    /// The number of the module of this name, which isn't in the set yet.
    fn new_in(&self, set: &[u32], name: &str) -> Result<u32, Stop>
        ensures { Finds (new_in self.now set.now name.now) result }
    {
        let Some(place) = place_of(self.modules.as_slice(), name) else {
            return Err(Stop::Broken);
        };
        let number = u32::try_from(place).map_err(|_| AllocError)?;
        if set.contains(&number) {
            return Err(Stop::Broken);
        }
        Ok(number)
    }
}

/// The place of the module of this name.
fn place_of(modules: &[(Name, Name)], name: &str) -> Option<usize>
    ensures { result ≡ position (λ entry. bytes_eq entry.0 name.now) modules.now }
{
    modules.iter().position(|entry| entry.0.as_str() == name)
}
