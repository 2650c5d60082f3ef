//! All steps at a word, and at the end.

ghost use Rattle.c_parse.specs.refinement.Calls.{Advances, Ends, state};

use crate::steps::{Goal, Resumed, Step, advance, resume};
use crate::waiting::Waiting;
use c_token::Word;
use c_tree::{ExternalForm, OuterSpecifier};
use std::alloc::{AllocError, Global};

/// What all steps at a word make of what is in hand.
#[derive(Drop)]
pub enum Taking {
    /// The word is taken.
    Taken(Goal),
    /// An external declaration is whole, and the word doesn't belong to it.
    Whole(OuterSpecifier, ExternalForm),
    /// The word can't come.
    Refused,
}

/// What all steps at a word make of what is in hand.
pub fn take(
    alloc: Global,
    waiting: &mut Waiting,
    goal: Goal,
    word: &Word,
) -> Result<Taking, AllocError>
    ensures { Advances (state goal waiting.old) word.now waiting.new result }
{
    let mut goal = goal;
    'coming: loop {
        match advance(alloc, waiting, goal, word)? {
            Step::Taken(next) => return Ok(Taking::Taken(next)),
            Step::Whole(outer, form) => return Ok(Taking::Whole(outer, form)),
            Step::Stops => return Ok(Taking::Refused),
            Step::Goes(next) => goal = next,
        }
    }
}

/// The external declaration that is whole where the tokens end, if there is one.
pub fn finish(
    alloc: Global,
    waiting: &mut Waiting,
    goal: Goal,
) -> Result<Option<(OuterSpecifier, ExternalForm)>, AllocError>
    ensures { Ends (state goal waiting.old) result }
{
    let mut goal = goal;
    'coming: loop {
        let Goal::Made(kind, value) = goal else {
            return Ok(None);
        };
        match resume(alloc, waiting, kind, value)? {
            Resumed::Goes(next) => goal = next,
            Resumed::Whole(outer, form) => return Ok(Some((outer, form))),
            Resumed::Stops => return Ok(None),
        }
    }
}
