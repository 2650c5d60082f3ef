//! Steps, one after the other, as long as there is another one to take.

ghost use Rattle.std.specs.Prelude.{◌≡◌, ℕ, Bool, List, length};
ghost use Rattle.ms_bytes.specs.Runs.{run_at};
ghost use Rattle.ms_bin_grammar.specs.Faults.{Binary, malformed};
ghost use Rattle.ms_bin_read.specs.refinement.Readers.{Reads, StepsTo};

use ms_bin_grammar::ReadFault;
use ms_bytes::Cursor;
use std::alloc::Global;

/// A state that steps change.
pub trait Steps: Sized + Drop {
    ghost going: { Self → List ℕ → Bool };

    ghost step: { Self → Binary Self };

    /// Whether there is another step.
    fn goes(&self, c: &Cursor) -> bool
        ensures { result ≡ going self.now c.now.left };

    /// Takes a step.
    fn step(&mut self, alloc: Global, c: &mut Cursor) -> Result<(), ReadFault>
        ensures { StepsTo self.new c.old c.new result ((step self.old).read c.old.end c.old.left) };
}

/// Takes all steps from a state on. Each takes a byte.
pub fn run<S: Steps>(alloc: Global, first: S, c: &mut Cursor) -> Result<S, ReadFault>
    ensures { Reads c.old c.new result (run_at malformed S.going S.step (length c.old.left) first c.old.end c.old.left) }
{
    let mut state = first;
    let most = c.len();
    for _ in 0..most {
        if !state.goes(c) {
            return Ok(state);
        }
        state.step(alloc, c)?;
    }
    if state.goes(c) {
        return Err(ReadFault::Malformed { at: c.at() });
    }
    Ok(state)
}
