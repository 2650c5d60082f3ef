//! Steps, one after the other, as long as there is another one to take.

ghost use Rattle.std.specs.Prelude.{◌≡◌, ℕ, Bool, List, length, IfOk, Some};
ghost use Rattle.ms_bytes.specs.Format.{Format};
ghost use Rattle.ms_bytes.specs.Items.{item_at};
ghost use Rattle.ms_bytes.specs.Runs.{run_at};
ghost use Rattle.ms_bytes.specs.Texts.{text_before};
ghost use Rattle.ms_text_lex.specs.Fault.{Fault, any, broken, char_here, this};
ghost use Rattle.ms_text_lex.specs.Readers.{Reads, StepsTo, fault_of};

use crate::fault::LexFault;
use ms_bytes::Cursor;

/// A state that steps change.
pub trait Steps: Sized + Drop {
    ghost going: { Self → List ℕ → Bool };

    ghost step: { ℕ → Self → Format ℕ Fault Self };

    /// What holds of the state and of what is left before and after each step.
    ghost fits: { Self → List ℕ → Type 0 } = { λ _ _. Unit {0} };

    /// Whether there is another step.
    fn goes(&self, c: &Cursor) -> bool
        ensures { result ≡ going self.now c.now.left };

    /// Takes a step.
    fn step(&mut self, c: &mut Cursor) -> Result<(), LexFault>
        requires { fits self.old c.old.left }
        ensures turns { StepsTo self.new c.old c.new result ((step c.old.end self.old).read c.old.end c.old.left) }
        ensures fits { IfOk result (λ _. fits self.new c.new.left) };
}

/// Where the text ends, or a byte is wrong.
pub fn broken(c: &Cursor) -> LexFault
    ensures { fault_of result ≡ Some (broken c.now.end c.now.left) }
{
    let at = c.at();
    if c.is_empty() {
        return LexFault::Unclosed { at };
    }
    LexFault::Char { at }
}

/// Takes all steps from a state on.
pub fn run<S: Steps>(first: S, c: &mut Cursor) -> Result<S, LexFault>
    requires { S.fits first c.old.left }
    ensures { Reads c.old c.new result (run_at broken S.going (S.step c.old.end) (length c.old.left) first c.old.end c.old.left) }
{
    let mut state = first;
    let most = c.len();
    for _ in 0..most {
        if !state.goes(c) {
            return Ok(state);
        }
        state.step(c)?;
    }
    if state.goes(c) {
        return Err(broken(c));
    }
    Ok(state)
}

/// Takes any byte where a token begins.
pub fn first(c: &mut Cursor) -> Result<u8, LexFault>
    ensures { Reads c.old c.new result (item_at char_here any c.old.end c.old.left) }
{
    let at = c.at();
    match c.take() {
        None => Err(LexFault::Char { at }),
        Some(next) => Ok(next),
    }
}

/// Takes any byte of a string or a comment.
pub fn any(c: &mut Cursor) -> Result<u8, LexFault>
    ensures { Reads c.old c.new result (item_at broken any c.old.end c.old.left) }
{
    let at = c.at();
    match c.take() {
        None => Err(LexFault::Unclosed { at }),
        Some(next) => Ok(next),
    }
}

/// Takes this byte.
pub fn this(byte: u8, c: &mut Cursor) -> Result<u8, LexFault>
    ensures { Reads c.old c.new result (item_at broken (this byte) c.old.end c.old.left) }
{
    let at = c.at();
    match c.take() {
        None => Err(LexFault::Unclosed { at }),
        Some(next) => {
            if next != byte {
                return Err(LexFault::Char { at });
            }
            Ok(next)
        }
    }
}

/// What a cursor has gone over.
pub fn text_before<'a>(before: &'a [u8], c: &Cursor) -> &'a [u8]
    ensures { result.now ≡ text_before before.now c.now.left }
{
    &before[..before.len().saturating_sub(c.len())]
}
