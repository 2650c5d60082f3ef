//! Names by their numbers.

ghost use Rattle.std.specs.Prelude.{◌≡◌, ◌∷◌, ◌++◌, [], length, None, IfOk, OnErr, OnOk};
ghost use Rattle.ms_names.specs.Numbered.{number_of, Puts};

use indexmap::IndexSet;
use std::alloc::{AllocError, Global};
use std::marker::Model;

/// What putting a name came to, with its number.
#[derive(Clone, Copy, PartialEq, Eq)]
pub enum Seen {
    /// The name was not there.
    New(u32),
    /// The name was put before.
    Old(u32),
}

/// Names, numbered from 0 in the order in which they were first put, at most 2^32. Contracts see the list of them.
#[derive(Drop)]
pub struct NameTable {
    names: IndexSet<String>,
    alloc: Global,
}

impl Model for NameTable {
    ghost use Rattle.std.specs.Prelude.{ℕ, ◌≤◌, ◌^◌, List, length, map};
    ghost use Rattle.std.specs.String.{string_bytes};

    ghost Value = { List (List ℕ) };

    ghost view = { λ t. map string_bytes t.names.keys };

    ghost invariant = { λ t. length t.names.keys ≤ 2 ^ 32 };
}

impl NameTable {
    /// No names.
    pub fn new(alloc: Global) -> Result<Self, AllocError>
        ensures { IfOk result (λ t. t ≡ []) }
    {
        Ok(NameTable {
            names: IndexSet::new(alloc),
            alloc,
        })
    }

    /// The number of a name, and whether it is put now for the first time. After an error nothing has changed.
    pub fn put(&mut self, name: &str) -> Result<Seen, AllocError>
        ensures { Puts self.old self.new name.now result }
    {
        match self.find(name) {
            Some(number) => Ok(Seen::Old(number)),
            None => Ok(Seen::New(self.add(name)?)),
        }
    }

    /// Adds a name that is not there. After an error nothing has changed.
    fn add(&mut self, name: &str) -> Result<u32, AllocError>
        requires { number_of self.old name.now ≡ None }
        ensures number { IfOk result (λ n. n ≡ length self.old) }
        ensures ok { OnOk result (self.new ≡ self.old ++ name.now ∷ []) }
        ensures err { OnErr result (self.new ≡ self.old) }
    {
        let number = u32::try_from(self.names.len()).map_err(|_| AllocError)?;
        let owned = String::from_str(self.alloc, name)?;
        self.names.insert_full(owned)?;
        Ok(number)
    }

    /// The number of a name, or `None` where it was never put. Takes no memory.
    pub fn find(&self, name: &str) -> Option<u32>
        ensures { result ≡ number_of self.now name.now }
    {
        match self.names.get_index_of(name) {
            Some(index) => Some(index as u32),
            None => None,
        }
    }
}
