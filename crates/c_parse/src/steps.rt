//! Single steps of the table.

ghost use Rattle.std.specs.Prelude.{◌≡◌, IfOk};
ghost use Rattle.c_productions.specs.refinement.Table.{first_frame, opened, symbols, with_part};
ghost use Rattle.c_productions.specs.refinement.Meaning.{lowest};
ghost use Rattle.c_parse.specs.refinement.Calls.{IsLast, Resumes, Steps, Sticks, goal_of, state};

use crate::waiting::{Waiting, higher, sum};
use c_parse_steps::{Outcome, action, least, rests};
use c_productions::{Frame, Kind, Parts, Production, Symbol, Terminal, Value, build};
use c_token::Word;
use c_tree::{ExternalForm, OuterSpecifier};
use std::alloc::{AllocError, Global};

/// What comes next.
#[derive(Drop)]
pub enum Goal {
    /// More behind what is in hand.
    Made(Kind, Value),
    /// A terminal of the production.
    Expects(Terminal, Frame),
}

/// What becomes of a value to which no word belongs.
#[derive(Drop)]
pub enum Resumed {
    /// The production that waited for it goes on.
    Goes(Goal),
    /// It is an external declaration, and no production waits.
    Whole(OuterSpecifier, ExternalForm),
    /// It isn't complete, or isn't wanted.
    Stops,
}

/// What a word makes of what is in hand.
#[derive(Drop)]
pub enum Step {
    /// The word is taken.
    Taken(Goal),
    /// The word comes next.
    Goes(Goal),
    /// An external declaration is whole, and the word doesn't belong to it.
    Whole(OuterSpecifier, ExternalForm),
    /// The word can't come.
    Stops,
}

/// Goes on with a production, of which this is still to come.
fn open(alloc: Global, waiting: &mut Waiting, frame: Frame) -> Result<Goal, AllocError>
    ensures { IfOk result (λ goal. opened frame frame.rest waiting.old ≡ state goal waiting.new) }
{
    let Frame {
        kind,
        production,
        rest,
        mut parts,
        base,
    } = frame;
    match rest.split() {
        None => Ok(Goal::Made(kind, build(alloc, production, &mut parts)?)),
        Some((Symbol::Word(terminal), rest)) => Ok(Goal::Expects(
            terminal,
            Frame {
                kind,
                production,
                rest,
                parts,
                base,
            },
        )),
        Some((Symbol::Part(part), rest)) => {
            waiting.push(Frame {
                kind,
                production,
                rest,
                parts,
                base,
            })?;
            Ok(Goal::Made(part, Value::Start))
        }
    }
}

/// Begins a production with a value.
fn begin(
    alloc: Global,
    waiting: &mut Waiting,
    kind: Kind,
    production: Production,
    value: Value,
) -> Result<Goal, AllocError>
    ensures { IfOk result (λ goal. opened (first_frame kind production value) (symbols production) waiting.old ≡ state goal waiting.new) }
{
    let base = sum(value.height()?, production.lift())?;
    let parts = Parts::new(alloc, value)?;
    open(
        alloc,
        waiting,
        Frame {
            kind,
            production,
            rest: production.symbols(),
            parts,
            base,
        },
    )
}

/// Gives a part to the production that waited for it.
fn give(
    alloc: Global,
    waiting: &mut Waiting,
    mut frame: Frame,
    value: Value,
) -> Result<Goal, AllocError>
    ensures { IfOk result (λ goal. opened (with_part frame value) frame.rest waiting.old ≡ state goal waiting.new) }
{
    let base = higher(frame.base, sum(value.height()?, frame.production.rise())?);
    frame.base = base;
    frame.parts.push(value)?;
    open(alloc, waiting, frame)
}

/// A value for which no production waits.
fn last(kind: Kind, value: Value) -> Resumed
    ensures { IsLast kind value result }
{
    match kind {
        Kind::External => match value {
            Value::External(outer, form) => Resumed::Whole(outer, form),
            other => incomplete(other),
        },
        _ => incomplete(value),
    }
}

/// A value that wants more.
fn incomplete(_value: Value) -> Resumed
    ensures { result ≡ Resumed.Stops }
{
    Resumed::Stops
}

/// Gives a value to which no word belongs to what waits for it.
pub fn resume(
    alloc: Global,
    waiting: &mut Waiting,
    kind: Kind,
    value: Value,
) -> Result<Resumed, AllocError>
    ensures { Resumes kind value waiting.old waiting.new result }
{
    let Some(frame) = waiting.pop() else {
        return Ok(last(kind, value));
    };
    let Some(part) = rests(alloc, kind, value)? else {
        return Ok(Resumed::Stops);
    };
    Ok(Resumed::Goes(give(alloc, waiting, frame, part)?))
}

/// What a word makes of a terminal that is wanted.
fn said(
    alloc: Global,
    waiting: &mut Waiting,
    terminal: Terminal,
    frame: Frame,
    word: &Word,
) -> Result<Step, AllocError>
    ensures { Steps (state (Goal.Expects terminal frame) waiting.old) word.now waiting.new result }
{
    if !terminal.is(word) {
        return Ok(Step::Stops);
    }
    Ok(Step::Taken(open(alloc, waiting, frame)?))
}

/// What becomes of a value to which a word doesn't belong.
fn stuck(alloc: Global, waiting: &mut Waiting, kind: Kind, value: Value) -> Result<Step, AllocError>
    ensures { Sticks kind value waiting.old waiting.new result }
{
    match resume(alloc, waiting, kind, value)? {
        Resumed::Goes(goal) => Ok(Step::Goes(goal)),
        Resumed::Whole(outer, form) => Ok(Step::Whole(outer, form)),
        Resumed::Stops => Ok(Step::Stops),
    }
}

/// What a word makes of a value.
fn acted(
    alloc: Global,
    waiting: &mut Waiting,
    kind: Kind,
    value: Value,
    word: &Word,
) -> Result<Step, AllocError>
    ensures { Steps (state (Goal.Made kind value) waiting.old) word.now waiting.new result }
{
    match action(alloc, kind, value, word)? {
        Outcome::Joined(grown) => Ok(Step::Taken(Goal::Made(kind, grown))),
        Outcome::Opens(production, first) => Ok(Step::Taken(begin(
            alloc, waiting, kind, production, first,
        )?)),
        Outcome::Begins(production, first) => Ok(Step::Goes(begin(
            alloc, waiting, kind, production, first,
        )?)),
        Outcome::Stuck(same) => stuck(alloc, waiting, kind, same),
    }
}

/// What a word makes of what is in hand.
pub fn advance(
    alloc: Global,
    waiting: &mut Waiting,
    goal: Goal,
    word: &Word,
) -> Result<Step, AllocError>
    ensures { Steps (state goal waiting.old) word.now waiting.new result }
{
    match goal {
        Goal::Expects(terminal, frame) => said(alloc, waiting, terminal, frame, word),
        Goal::Made(kind, value) => acted(alloc, waiting, kind, value, word),
    }
}

impl Goal {
    /// The least height of the external declaration that goes on so.
    pub fn lowest(&self, waiting: &Waiting) -> Result<usize, AllocError>
        ensures { IfOk result (λ n. n ≡ lowest (goal_of self.now) waiting.now) }
    {
        match self {
            Goal::Made(kind, value) => waiting.over(least(*kind, value)?),
            Goal::Expects(_, frame) => {
                let rest = sum(frame.rest.least(), frame.production.rise())?;
                waiting.over(higher(frame.base, rest))
            }
        }
    }
}
