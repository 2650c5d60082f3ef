//! The numbers of a switch's labels.

ghost use Rattle.std.specs.Prelude.{◌≡◌, ◌∷◌, ◌++◌, [], false, OnOk};
ghost use Rattle.c_check.specs.Statements.{is_among};

use indexmap::IndexSet;
use std::alloc::{AllocError, Global};
use std::marker::Model;

/// Numbers, each of them once; a look-up is no scan. Contracts see the list of them.
#[derive(Drop)]
pub struct Labels {
    numbers: IndexSet<u64>,
}

impl Model for Labels {
    ghost use Rattle.std.specs.Prelude.{List, ℕ};

    ghost Value = { List ℕ };

    ghost view = { λ l. l.numbers.keys };
}

impl Labels {
    /// No numbers. Takes no memory.
    pub fn new(alloc: Global) -> Self
        ensures { result ≡ [] }
    {
        Labels {
            numbers: IndexSet::new(alloc),
        }
    }

    /// Adds a number that isn't there.
    pub fn add(&mut self, n: u64) -> Result<(), AllocError>
        requires { is_among self.old n ≡ false }
        ensures { OnOk result (self.new ≡ self.old ++ n ∷ []) }
    {
        self.numbers.insert_full(n)?;
        Ok(())
    }

    /// Whether a number is there.
    pub fn contains(&self, n: u64) -> bool
        ensures { result ≡ is_among self.now n }
    {
        self.numbers.contains(&n)
    }
}
