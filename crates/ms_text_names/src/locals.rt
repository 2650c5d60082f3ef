//! The identifiers of a function's locals (WebAssembly 1.0, 6.6.5).

ghost use Rattle.std.specs.Prelude.{◌≡◌, ◌++◌, ◌==◌, [], IfOk, length, if◌then◌else◌};
ghost use Rattle.ms_text_grammar.specs.Identifiers.{found, identified, repeats};
ghost use Rattle.ms_text_grammar.specs.TypeUses.{local_ids};
ghost use Rattle.ms_text_names.specs.refinement.Answers.{Adds};

use crate::context::Context;
use crate::names::{enter_all, number};
use crate::space::Space;
use ms_text_grammar::{Param, TypeUse};
use ms_text_lex::Token;
use std::alloc::{AllocError, Global};
use std::marker::Model;

/// The index space of locals: some without identifiers, and those behind them. Contracts see the source and the identifiers
/// of all.
#[derive(Drop)]
pub struct LocalIds<'a> {
    unnamed: usize,
    behind: Space<'a>,
}

impl<'a> Model for LocalIds<'a> {
    ghost use Rattle.std.specs.Prelude.{◌++◌, None, replicate};
    ghost use Rattle.ms_text_names.specs.refinement.Spaces.{Entries};

    ghost Value = { Entries };

    ghost view = { λ l. record { source = l.behind.source; ids = replicate l.unnamed None ++ l.behind.ids } };
}

impl<'a> LocalIds<'a> {
    /// No locals, as in a constant expression. Takes no memory.
    pub fn none(alloc: Global, source: &'a [u8]) -> Self
        ensures source { result.source ≡ source.now }
        ensures ids { result.ids ≡ [] }
    {
        LocalIds {
            unnamed: 0,
            behind: Space::new(alloc, source),
        }
    }

    /// Those of a function: behind the parameters that are written, or, where none is, behind those of its type. The places
    /// of repeated ones are wrong.
    pub fn of_func(
        alloc: Global,
        context: &Context<'a>,
        index: u32,
        sig: &TypeUse,
        locals: &[Param],
        wrong: &mut Vec<usize>,
    ) -> Result<Self, AllocError>
        ensures source { IfOk result (λ l. l.source ≡ context.now.source) }
        ensures ids { IfOk result (λ l. l.ids ≡ local_ids context.now.scope index sig.now locals.now) }
        ensures wrong { IfOk result (λ l. wrong.new.items ≡ wrong.old.items ++ repeats context.now.source [] (local_ids context.now.scope index sig.now locals.now)) }
    {
        let mut behind = Space::new(alloc, context.source());
        if sig.params.is_empty() {
            enter_all(&mut behind, locals, wrong)?;
            return Ok(LocalIds {
                unnamed: context.params_len(index),
                behind,
            });
        }
        enter_all(&mut behind, sig.params.as_slice(), wrong)?;
        enter_all(&mut behind, locals, wrong)?;
        Ok(LocalIds { unnamed: 0, behind })
    }

    /// The first local of this identifier.
    fn find(&self, id: Token) -> Result<Option<u32>, AllocError>
        ensures { IfOk result (λ n. n ≡ found self.now.source self.now.ids id 0) }
    {
        let Some(n) = self.behind.find(id) else {
            return Ok(None);
        };
        let Some(n) = self.unnamed.checked_add(n as usize) else {
            return Err(AllocError);
        };
        Ok(Some(number(n)?))
    }

    /// The index of an identifier; where it is unknown, its place is wrong.
    pub fn identified(&self, id: Token, wrong: &mut Vec<usize>) -> Result<u32, AllocError>
        ensures { IfOk result (λ n. Adds wrong.old.items wrong.new.items n (identified self.now.source self.now.ids id)) }
    {
        match self.find(id)? {
            Some(n) => Ok(n),
            None => {
                wrong.push(id.at)?;
                Ok(0)
            }
        }
    }
}
