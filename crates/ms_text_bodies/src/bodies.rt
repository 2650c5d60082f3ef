//! Bodies (WebAssembly 1.0, 6.5.8 and 6.6.5).

ghost use Rattle.std.specs.Prelude.{◌≡◌, length};
ghost use Rattle.ms_text_grammar.specs.Bounds.{usual};
ghost use Rattle.ms_text_grammar.specs.Bodies.{body, body_goes, folded_body, inside_goes, advance};
ghost use Rattle.ms_bytes.specs.Runs.{run_at};
ghost use Rattle.ms_text_grammar.specs.Faults.{bad};
ghost use Rattle.ms_text_grammar.specs.Advances.{first_state, folded};
ghost use Rattle.ms_text_parts.specs.refinement.Readers.{Reads};

use crate::advances::{advance_on, folded};
use crate::heads::sign_of;
use crate::work::Work;
use ms_text_grammar::{Body, TextFault};
use ms_text_parts::{Steps, Words, next_closes, run};
use std::alloc::Global;
use std::marker::Model;

/// Takes a turn.
#[tactic(auto, unfolding(ms_text_grammar::specs::Bodies::advance))]
fn advanced(work: Work, c: &mut Words) -> Result<Work, TextFault>
    ensures { Reads c.old c.new result ((advance c.old.source usual.blocks work).read (length c.old.source) c.old.left) }
{
    let mut work = work;
    let sign = sign_of(c);
    advance_on(&mut work, sign, c)?;
    Ok(work)
}

/// A body, up to the parenthesis that closes what it is in.
#[derive(Drop)]
struct Whole {
    work: Work,
}

impl Model for Whole {
    ghost use Rattle.ms_text_grammar.specs.Advances.{State};

    ghost Value = { State };

    ghost view = { λ w. w.work };
}

impl Steps for Whole {
    ghost going = { λ source st s. body_goes source usual.blocks st s };

    ghost step = { λ source st. advance source usual.blocks st };

    fn goes(&self, c: &Words) -> bool {
        !(self.work.is_closed() && next_closes(c))
    }

    fn step(self, c: &mut Words) -> Result<Self, TextFault> {
        let Whole { work } = self;
        let work = advanced(work, c)?;
        Ok(Whole { work })
    }
}

/// What is read while frames are open.
#[derive(Drop)]
struct Inside {
    work: Work,
}

impl Model for Inside {
    ghost use Rattle.ms_text_grammar.specs.Advances.{State};

    ghost Value = { State };

    ghost view = { λ i. i.work };
}

impl Steps for Inside {
    ghost going = { λ source st s. inside_goes source usual.blocks st s };

    ghost step = { λ source st. advance source usual.blocks st };

    fn goes(&self, _c: &Words) -> bool {
        !self.work.is_closed()
    }

    fn step(self, c: &mut Words) -> Result<Self, TextFault> {
        let Inside { work } = self;
        let work = advanced(work, c)?;
        Ok(Inside { work })
    }
}

/// Takes a body, up to the parenthesis that closes what it stands in. At most 500 blocks are in one another.
#[tactic(auto, unfolding(ms_text_grammar::specs::Bodies::body))]
pub fn body(alloc: Global, c: &mut Words) -> Result<Body, TextFault>
    ensures { Reads c.old c.new result ((body c.old.source usual.blocks).read (length c.old.source) c.old.left) }
{
    let first = Whole {
        work: Work::new(alloc),
    };
    let Whole { work } = run(first, c)?;
    Ok(work.finish())
}

/// Takes a parenthesis and what stands behind it, in a body of its own.
fn first_folded(alloc: Global, c: &mut Words) -> Result<Work, TextFault>
    ensures { Reads c.old c.new result ((folded c.old.source usual.blocks first_state).read (length c.old.source) c.old.left) }
{
    let mut work = Work::new(alloc);
    folded(&mut work, c)?;
    Ok(work)
}

/// Takes turns while frames are open.
fn to_the_end(work: Work, c: &mut Words) -> Result<Work, TextFault>
    ensures { Reads c.old c.new result (run_at (bad c.old.source) (inside_goes c.old.source usual.blocks) (advance c.old.source usual.blocks) (length c.old.left) work (length c.old.source) c.old.left) }
{
    let Inside { work } = run(Inside { work }, c)?;
    Ok(work)
}

/// Takes one folded instruction, with its operands.
#[tactic(auto, unfolding(ms_text_grammar::specs::Bodies::folded_body))]
pub fn folded_body(alloc: Global, c: &mut Words) -> Result<Body, TextFault>
    ensures { Reads c.old c.new result ((folded_body c.old.source usual.blocks).read (length c.old.source) c.old.left) }
{
    let first = first_folded(alloc, c)?;
    let last = to_the_end(first, c)?;
    Ok(last.finish())
}
