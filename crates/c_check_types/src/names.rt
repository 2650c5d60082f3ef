//! Names with numbers.

ghost use Rattle.std.specs.Prelude.{◌≡◌, ◌∷◌, ◌++◌, [], length, map, None, IfOk, OnOk};
ghost use Rattle.c_check_types.specs.State.{number_of};

use c_token::Bytes;
use indexmap::IndexSet;
use std::alloc::{AllocError, Global};
use std::marker::Model;

/// Bytes in memory of their own.
pub fn owned(alloc: Global, name: &[u8]) -> Result<Bytes, AllocError>
    ensures { IfOk result (λ b. b ≡ name.now) }
{
    let mut bytes = Vec::new(alloc);
    bytes.extend_from_slice(name)?;
    Ok(Bytes::new(bytes))
}

/// Names in memory of their own.
fn copied(alloc: Global, names: &[&[u8]]) -> Result<Vec<Bytes>, AllocError>
    ensures { IfOk result (λ v. v.items ≡ map (λ b. b.now) names.now) }
{
    let mut kept = Vec::new(alloc);
    for name in names {
        kept.push(owned(alloc, name)?)?;
    }
    Ok(kept)
}

/// Names, each with the number of the names before it; a look-up is no scan. Contracts see the list of them.
#[derive(Drop)]
pub struct Names<'a> {
    names: IndexSet<&'a [u8]>,
}

impl<'a> Model for Names<'a> {
    ghost use Rattle.std.specs.Prelude.{List, ℕ, map};

    ghost Value = { List (List ℕ) };

    ghost view = { λ n. map (λ b. b.now) n.names.keys };
}

impl<'a> Names<'a> {
    /// No names. Takes no memory.
    pub fn new(alloc: Global) -> Self
        ensures { result ≡ [] }
    {
        Names {
            names: IndexSet::new(alloc),
        }
    }

    /// Adds a name that isn't there.
    pub fn add(&mut self, name: &'a [u8]) -> Result<(), AllocError>
        requires { number_of self.old name.now ≡ None }
        ensures { OnOk result (self.new ≡ self.old ++ name.now ∷ []) }
    {
        self.names.insert_full(name)?;
        Ok(())
    }

    /// The names, in order, in memory of their own.
    pub fn to_vec(&self, alloc: Global) -> Result<Vec<Bytes>, AllocError>
        ensures { IfOk result (λ v. v.items ≡ self.now) }
    {
        copied(alloc, self.names.as_slice())
    }

    /// The number of a name.
    pub fn find(&self, name: &[u8]) -> Option<usize>
        ensures { result ≡ number_of self.now name.now }
    {
        self.names.get_index_of(&name)
    }
}
