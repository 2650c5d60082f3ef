//! An index space.

ghost use Rattle.std.specs.Prelude.{◌≡◌, ◌++◌, ◌∷◌, [], length, is_some, IfOk, OnErr, OnOk};
ghost use Rattle.ms_text_grammar.specs.Identifiers.{found};
ghost use Rattle.ms_text_names.specs.refinement.Spaces.{first_or, number_of, numbered, stands_before};

use ms_text_lex::{Token, text_of};
use std::alloc::{AllocError, Global};
use std::collections::BTreeMap;
use std::marker::Model;

/// An index space of a source while it is filled, at most 2^32 entries. Contracts see the source and the identifiers of the
/// entries.
#[derive(Drop)]
pub struct Space<'a> {
    source: &'a [u8],
    ids: Vec<Option<Token>>,
    first: BTreeMap<&'a [u8], u32>,
}

impl<'a> Model for Space<'a> {
    ghost use Rattle.std.specs.Prelude.{◌≡◌};
    ghost use Rattle.ms_text_names.specs.refinement.Spaces.{Entries, first_of, number_of};

    ghost Value = { Entries };

    ghost view = { λ s. record { source = s.source.now; ids = s.ids.items } };

    ghost invariant = { λ s. (q : _) → number_of s.first q ≡ first_of s.source.now s.ids.items q.now 0 };
}

impl<'a> Space<'a> {
    /// No entries. Takes no memory.
    pub fn new(alloc: Global, source: &'a [u8]) -> Self
        ensures source { result.source ≡ source.now }
        ensures ids { result.ids ≡ [] }
    {
        Space {
            source,
            ids: Vec::new(alloc),
            first: BTreeMap::new(alloc),
        }
    }

    /// How many entries there are.
    pub fn len(&self) -> usize
        ensures { result ≡ length self.now.ids }
    {
        self.ids.len()
    }

    /// Adds an entry, and tells whether one before it has its identifier. After an error nothing has changed.
    pub fn add(&mut self, id: Option<Token>) -> Result<bool, AllocError>
        ensures repeated { IfOk result (λ repeated. repeated ≡ stands_before self.old.source self.old.ids id) }
        ensures ok { OnOk result (self.new.ids ≡ self.old.ids ++ id ∷ []) }
        ensures err { OnErr result (self.new.ids ≡ self.old.ids) }
        ensures source { self.new.source ≡ self.old.source }
    {
        let Ok(number) = u32::try_from(self.ids.len()) else {
            return Err(AllocError);
        };
        self.ids.reserve(1)?;
        match id {
            None => {
                self.ids.push_reserved(None);
                Ok(false)
            }
            Some(id) => {
                let repeated = name(&mut self.first, text_of(self.source, id), number)?;
                self.ids.push_reserved(Some(id));
                Ok(repeated)
            }
        }
    }

    /// The first entry of this identifier.
    pub fn find(&self, id: Token) -> Option<u32>
        ensures { result ≡ found self.now.source self.now.ids id 0 }
    {
        self.first.get(&text_of(self.source, id)).copied()
    }
}

/// Keeps the number of a text where it has none, and tells whether it has one.
fn name<'a>(
    first: &mut BTreeMap<&'a [u8], u32>,
    text: &'a [u8],
    number: u32,
) -> Result<bool, AllocError>
    ensures known { IfOk result (λ known. known ≡ is_some (number_of first.old text.entry)) }
    ensures ok { OnOk result ((q : _) → number_of first.new q ≡ first_or (number_of first.old q) (numbered (text.entry).now q.now number)) }
    ensures err { OnErr result ((q : _) → number_of first.new q ≡ number_of first.old q) }
{
    if first.contains_key(&text) {
        return Ok(true);
    }
    let _ = first.insert(text, number)?;
    Ok(false)
}
