//! Groups: a parenthesis, a word, what is inside, a parenthesis; as many as there are of a word.

ghost use Rattle.std.specs.Prelude.{◌≡◌, List, ℕ, length};
ghost use Rattle.ms_text_lex.specs.declared.token.Token.{Token};
ghost use Rattle.ms_text_grammar.specs.declared.word.Word.{Word};
ghost use Rattle.ms_text_grammar.specs.Faults.{Textual};
ghost use Rattle.ms_text_grammar.specs.Parts.{group, group_goes, groups};
ghost use Rattle.ms_text_parts.specs.refinement.Readers.{Reads};

use crate::parts::{closing, next_begins, opening, the};
use crate::steps::{Steps, run};
use crate::words::Words;
use ms_text_grammar::{TextFault, Word};
use std::marker::Model;

/// What groups of one word are read into.
pub trait Grouped: Sized + Drop {
    ghost word: { Word };

    ghost inside: { List ℕ → Self → Textual Self };

    /// The word.
    fn word(&self) -> Word
        ensures { result ≡ word };

    /// Takes what is in a group, behind what was in those before.
    fn inside(self, c: &mut Words) -> Result<Self, TextFault>
        ensures { Reads c.old c.new result ((inside c.old.source self).read (length c.old.source) c.old.left) };
}

/// Takes a group.
#[tactic(auto, unfolding(ms_text_grammar::specs::Parts::group))]
fn take_group<G: Grouped>(so_far: G, c: &mut Words) -> Result<G, TextFault>
    ensures { Reads c.old c.new result ((group c.old.source G.word (G.inside c.old.source) so_far).read (length c.old.source) c.old.left) }
{
    opening(c)?;
    the(so_far.word(), c)?;
    let new = so_far.inside(c)?;
    closing(c)?;
    Ok(new)
}

/// What the groups so far were read into.
#[derive(Drop)]
struct Groups<G> {
    so_far: G,
}

impl<G> Model for Groups<G> {
    ghost Value = { G };

    ghost view = { λ g. g.so_far };
}

impl<G: Grouped> Steps for Groups<G> {
    ghost going = { λ source x s. group_goes source G.word (G.inside source) x s };

    ghost step = { λ source x. group source G.word (G.inside source) x };

    fn goes(&self, c: &Words) -> bool {
        next_begins(self.so_far.word(), c)
    }

    fn step(self, c: &mut Words) -> Result<Self, TextFault> {
        let so_far = take_group(self.so_far, c)?;
        Ok(Groups { so_far })
    }
}

/// Takes groups, as many as there are.
#[tactic(auto, unfolding(ms_text_grammar::specs::Parts::groups))]
pub fn take_groups<G: Grouped>(first: G, c: &mut Words) -> Result<G, TextFault>
    ensures { Reads c.old c.new result ((groups c.old.source G.word (G.inside c.old.source) first).read (length c.old.source) c.old.left) }
{
    let Groups { so_far } = run(Groups { so_far: first }, c)?;
    Ok(so_far)
}
