//! The enumerators of enumerations (C11, 6.7.2.2).

ghost use Rattle.std.specs.Prelude.{◌≡◌, [], ◌∷◌, ◌++◌, IfOk};
ghost use Rattle.c_tree.specs.StatementHeights.{clause_height};
ghost use Rattle.c_tree.specs.EnumeratorHeights.{enumerator_height};
ghost use Rattle.c_tree.specs.Heights.{tallest_of};

use crate::tree::Expr;
use c_token::Bytes;
use std::alloc::{AllocError, Global};
use std::marker::Model;

/// A name, and the constant expression that is its value, if one is written.
#[derive(Drop)]
pub struct Enumerator {
    pub name: Bytes,
    pub value: Option<Expr>,
}

/// The enumerators in braces, in order. Contracts see a list.
#[derive(Drop)]
pub struct Enumerators {
    items: Vec<Enumerator>,
    height: usize,
}

impl Model for Enumerators {
    ghost use Rattle.std.specs.Prelude.{List};
    ghost use Rattle.c_tree.specs.declared.enumerator.Enumerator.{Enumerator};
    ghost use Rattle.c_tree.specs.refinement.EnumeratorCodes.{coded_enumerators};

    ghost Value = { List Enumerator };

    ghost coded = { coded_enumerators };

    ghost view = { λ a. a.items.items };

    ghost use Rattle.std.specs.Prelude.{◌≡◌};
    ghost use Rattle.c_tree.specs.Heights.{tallest_of};
    ghost use Rattle.c_tree.specs.EnumeratorHeights.{enumerator_height};

    ghost invariant = { λ a. a.height ≡ tallest_of enumerator_height a.items.items };
}

/// The height of an expression, if there is one.
fn clause_height(clause: &Option<Expr>) -> usize
    ensures { result ≡ clause_height clause.now }
{
    match clause {
        Some(e) => e.height(),
        None => 0,
    }
}

impl Enumerators {
    /// No enumerators. Takes no memory.
    pub fn new(alloc: Global) -> Self
        ensures { result ≡ [] }
    {
        Enumerators {
            items: Vec::new(alloc),
            height: 0,
        }
    }

    /// The enumerators, in order.
    pub fn items(&self) -> &[Enumerator]
        ensures { result.now ≡ self.now }
    {
        self.items.as_slice()
    }

    /// The height of the tallest.
    pub fn height(&self) -> usize
        ensures { result ≡ tallest_of enumerator_height self.now }
    {
        self.height
    }

    /// With one more at the end.
    #[tactic(auto, using(crate::proofs::Lists::tallest_of_last))]
    pub fn with(self, enumerator: Enumerator) -> Result<Self, AllocError>
        ensures { IfOk result (λ xs. xs ≡ self ++ enumerator ∷ []) }
    {
        let height = self.height.max(clause_height(&enumerator.value));
        let mut items = self.items;
        items.push(enumerator)?;
        Ok(Enumerators { items, height })
    }
}
