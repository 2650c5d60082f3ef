//! Steps, one after the other, as long as there is another one to take.

ghost use Rattle.std.specs.Prelude.{◌≡◌, ℕ, Bool, List, length};
ghost use Rattle.ms_bytes.specs.Runs.{run_at};
ghost use Rattle.ms_text_lex.specs.declared.token.Token.{Token};
ghost use Rattle.ms_text_grammar.specs.Faults.{Textual, bad};
ghost use Rattle.ms_text_parts.specs.refinement.Readers.{Reads};

use crate::words::{Words, bad};
use ms_text_grammar::TextFault;

/// A state that steps change.
pub trait Steps: Sized + Drop {
    ghost going: { List ℕ → Self → List Token → Bool };

    ghost step: { List ℕ → Self → Textual Self };

    /// Whether there is another step.
    fn goes(&self, c: &Words) -> bool
        ensures { result ≡ going c.now.source self.now c.now.left };

    /// Takes a step.
    fn step(self, c: &mut Words) -> Result<Self, TextFault>
        ensures { Reads c.old c.new result ((step c.old.source self).read (length c.old.source) c.old.left) };
}

/// Takes all steps from a state on. Each takes a token.
pub fn run<S: Steps>(first: S, c: &mut Words) -> Result<S, TextFault>
    ensures { Reads c.old c.new result (run_at (bad c.old.source) (S.going c.old.source) (S.step c.old.source) (length c.old.left) first (length c.old.source) c.old.left) }
{
    let mut state = first;
    let most = c.len();
    for _ in 0..most {
        if !state.goes(c) {
            return Ok(state);
        }
        state = state.step(c)?;
    }
    if state.goes(c) {
        return Err(bad(c));
    }
    Ok(state)
}
