//! Steps, one after the other, as long as there is another one to take.

ghost use Rattle.std.specs.Prelude.{◌≡◌, ℕ, Bool, List, length};
ghost use Rattle.ms_bytes.specs.Format.{Format};
ghost use Rattle.ms_bytes.specs.Items.{item_at};
ghost use Rattle.ms_bytes.specs.Runs.{run_at};
ghost use Rattle.c_lex.specs.Fault.{Fault, any, char_here};
ghost use Rattle.c_lex.specs.Readers.{Reads, StepsTo};

use crate::fault::CLex;
use ms_bytes::Cursor;

/// A state that steps change.
pub trait Steps: Sized + Drop {
    ghost going: { Self → List ℕ → Bool };

    ghost step: { ℕ → Self → Format ℕ Fault Self };

    /// Whether there is another step.
    fn goes(&self, c: &Cursor) -> bool
        ensures { result ≡ going self.now c.now.left };

    /// Takes a step.
    fn step(&mut self, c: &mut Cursor) -> Result<(), CLex>
        ensures { StepsTo self.new c.old c.new result ((step c.old.end self.old).read c.old.end c.old.left) };
}

/// Takes all steps from a state on.
pub fn run<S: Steps>(first: S, c: &mut Cursor) -> Result<S, CLex>
    ensures { Reads c.old c.new result (run_at char_here S.going (S.step c.old.end) (length c.old.left) first c.old.end c.old.left) }
{
    let mut state = first;
    let most = c.len();
    for _ in 0..most {
        if !state.goes(c) {
            return Ok(state);
        }
        state.step(c)?;
    }
    if state.goes(c) {
        return Err(CLex::Char { at: c.at() });
    }
    Ok(state)
}

/// Takes any byte.
pub fn any(c: &mut Cursor) -> Result<u8, CLex>
    ensures { Reads c.old c.new result (item_at char_here any c.old.end c.old.left) }
{
    let at = c.at();
    match c.take() {
        None => Err(CLex::Char { at }),
        Some(next) => Ok(next),
    }
}
