//! LocalGroups (WebAssembly 1.0, 6.6.5), of which a function declares 50,000 at most.

ghost use Rattle.std.specs.Prelude.{◌≡◌, ◌++◌, length, List, Option};
ghost use Rattle.ms_text_grammar.specs.Bounds.{usual};
ghost use Rattle.ms_text_grammar.specs.declared.word.Word.TheVariants as word;
ghost use Rattle.ms_text_grammar.specs.Parts.{list_goes};
ghost use Rattle.ms_text_grammar.specs.Types.{local_type, locals, locals_by, locals_inside, next_local};
ghost use Rattle.ms_text_parts.specs.refinement.Readers.{Reads};

use crate::groups::{Grouped, take_groups};
use crate::parts::{next_closes, optional_id};
use crate::steps::{Steps, run};
use crate::types::type_of;
use crate::words::{Words, bad};
use ms_module::MOST_LOCALS;
use ms_text_grammar::{Counted, Param, TextFault, Word};
use ms_text_lex::Token;
use ms_types::{ValType, Vector};
use std::alloc::Global;
use std::marker::Model;

/// Takes the type of a local where so many are declared.
#[tactic(auto, unfolding(ms_text_grammar::specs::Types::local_type))]
fn local_type(count: usize, c: &mut Words) -> Result<ValType, TextFault>
    ensures { Reads c.old c.new result ((local_type c.old.source usual.locals count).read (length c.old.source) c.old.left) }
{
    let [token, ..] = c.rest() else {
        return Err(bad(c));
    };
    let token = *token;
    let Some(ty) = type_of(c.source(), token) else {
        return Err(bad(c));
    };
    if count >= MOST_LOCALS {
        return Err(TextFault::Limit {
            which: Counted::Locals,
            at: token.at,
        });
    }
    c.skip();
    Ok(ty)
}

/// LocalGroups without identifiers up to a parenthesis.
#[derive(Drop)]
struct LocalList {
    locals: Vector<Param>,
}

impl Model for LocalList {
    ghost use Rattle.std.specs.Prelude.{List};
    ghost use Rattle.ms_text_grammar.specs.declared.surface.Param.{Param};

    ghost Value = { List Param };

    ghost view = { λ l. l.locals };
}

impl Steps for LocalList {
    ghost going = { λ source ls s. list_goes source ls s };

    ghost step = { λ source ls. next_local source usual.locals ls };

    fn goes(&self, c: &Words) -> bool {
        !next_closes(c)
    }

    #[tactic(auto, unfolding(ms_text_grammar::specs::Types::next_local))]
    fn step(self, c: &mut Words) -> Result<Self, TextFault> {
        let LocalList { mut locals } = self;
        let ty = local_type(locals.len(), c)?;
        locals.push(Param { id: None, ty })?;
        Ok(LocalList { locals })
    }
}

/// Takes one local, whose identifier was there, or any number of them without identifiers.
#[tactic(auto, unfolding(ms_text_grammar::specs::Types::locals_by, ms_text_grammar::specs::Parts::listed))]
fn locals_by(
    so_far: Vector<Param>,
    id: Option<Token>,
    c: &mut Words,
) -> Result<Vector<Param>, TextFault>
    ensures { Reads c.old c.new result ((locals_by c.old.source usual.locals so_far id).read (length c.old.source) c.old.left) }
{
    let mut locals = so_far;
    match id {
        Some(id) => {
            let ty = local_type(locals.len(), c)?;
            locals.push(Param { id: Some(id), ty })?;
            Ok(locals)
        }
        None => {
            let LocalList { locals } = run(LocalList { locals }, c)?;
            Ok(locals)
        }
    }
}

/// Takes what is in a group of locals.
#[tactic(auto, unfolding(ms_text_grammar::specs::Types::locals_inside))]
fn locals_inside(so_far: Vector<Param>, c: &mut Words) -> Result<Vector<Param>, TextFault>
    ensures { Reads c.old c.new result ((locals_inside c.old.source usual.locals so_far).read (length c.old.source) c.old.left) }
{
    let id = optional_id(c)?;
    locals_by(so_far, id, c)
}

/// Groups of locals.
#[derive(Drop)]
struct LocalGroups {
    locals: Vector<Param>,
}

impl Model for LocalGroups {
    ghost use Rattle.std.specs.Prelude.{List};
    ghost use Rattle.ms_text_grammar.specs.declared.surface.Param.{Param};

    ghost Value = { List Param };

    ghost view = { λ l. l.locals };
}

impl Grouped for LocalGroups {
    ghost word = { word.Local };

    ghost inside = { λ source ls. locals_inside source usual.locals ls };

    fn word(&self) -> Word {
        Word::Local
    }

    fn inside(self, c: &mut Words) -> Result<Self, TextFault> {
        let locals = locals_inside(self.locals, c)?;
        Ok(LocalGroups { locals })
    }
}

/// Takes groups of locals, as many as there are.
#[tactic(auto, unfolding(ms_text_grammar::specs::Types::locals))]
pub fn all_locals(alloc: Global, c: &mut Words) -> Result<Vector<Param>, TextFault>
    ensures { Reads c.old c.new result ((locals c.old.source usual.locals).read (length c.old.source) c.old.left) }
{
    let first = LocalGroups {
        locals: Vector::new(alloc),
    };
    let LocalGroups { locals } = take_groups(first, c)?;
    Ok(locals)
}
