//! Initializers and the declarations that they stand in.

ghost use Rattle.std.specs.Prelude.{◌≡◌, ◌+◌, [], ◌∷◌, ◌++◌, IfOk};
ghost use Rattle.c_tree.specs.Heights.{init_height, initialiser_height, tallest_initialiser, tallest_of, value_height};
ghost use Rattle.c_tree.specs.refinement.InitialiserViews.{initialiser_of, initialisers_of, with_initialiser};
ghost use Rattle.c_tree.specs.Tree.{no_initialisers};

use crate::tree::{Declarator, Expr, above};
use std::alloc::{AllocError, Global};
use std::marker::Model;

/// An initializer (C11, 6.7.9).
#[cycle(initialiser)]
#[derive(Drop)]
pub struct Initialiser {
    node: Box<InitialiserNode>,
    height: usize,
}

/// The forms of initializers.
#[cycle(initialiser)]
#[derive(Drop)]
pub enum InitialiserNode {
    Single(Expr),
    /// In braces, and whether a comma stands before the closing one.
    Braces(Initialisers, bool),
}

impl Model for Initialiser {
    ghost use Rattle.c_tree.specs.Tree.{Initialiser as Meaning};
    ghost use Rattle.c_tree.specs.refinement.Codes.{coded_initialiser};

    ghost Value = { Meaning };

    ghost coded = { coded_initialiser };

    ghost use Rattle.c_tree.specs.refinement.InitialiserViews.{initialiser_of, initialiser_nodes};

    ghost view = { λ v. initialiser_of v.node.value };

    ghost use Rattle.std.specs.Prelude.{◌≡◌};
    ghost use Rattle.c_tree.specs.Heights.{initialiser_height};

    ghost invariant = { λ v. v.height ≡ initialiser_height (initialiser_of v.node.value) };

    ghost size = { initialiser_nodes };

    ghost use Rattle.c_tree.specs.refinement.InitialiserFalls.{initialiser_falls};

    ghost size_decreases = { λ a h. initialiser_falls a.node.value };
}

/// The initializers in braces, in order.
#[cycle(initialiser)]
#[derive(Drop)]
pub struct Initialisers {
    items: Vec<Initialiser>,
    height: usize,
}

impl Model for Initialisers {
    ghost use Rattle.c_tree.specs.Tree.{Initialisers as Meaning};
    ghost use Rattle.c_tree.specs.refinement.Codes.{coded_initialisers};

    ghost Value = { Meaning };

    ghost coded = { coded_initialisers };

    ghost use Rattle.c_tree.specs.refinement.InitialiserViews.{initialisers_of, initialisers_nodes};

    ghost view = { λ a. initialisers_of a.items.items };

    ghost use Rattle.std.specs.Prelude.{◌≡◌};
    ghost use Rattle.c_tree.specs.Heights.{tallest_initialiser};

    ghost invariant = { λ a. a.height ≡ tallest_initialiser (initialisers_of a.items.items) };

    ghost size = { initialisers_nodes };

    ghost use Rattle.c_tree.specs.refinement.InitialiserFalls.{initialisers_fall};

    ghost size_decreases = { λ a h. initialisers_fall a.items.items };
}

impl Initialiser {
    /// The initializer of this form.
    pub fn new(alloc: Global, node: InitialiserNode) -> Result<Self, AllocError>
        ensures { IfOk result (λ v. v ≡ initialiser_of node) }
    {
        let height = match &node {
            InitialiserNode::Single(e) => e.height(),
            InitialiserNode::Braces(vs, _) => above(vs.height())?,
        };
        let node = Box::new(alloc, node)?;
        Ok(Initialiser { node, height })
    }

    /// Its form.
    pub fn node(&self) -> &InitialiserNode
        ensures { initialiser_of result.now ≡ self.now }
    {
        &*self.node
    }

    /// Its height.
    pub fn height(&self) -> usize
        ensures { result ≡ initialiser_height self.now }
    {
        self.height
    }
}

impl Initialisers {
    /// No initializers. Takes no memory.
    pub fn new(alloc: Global) -> Self
        ensures { result ≡ no_initialisers }
    {
        Initialisers {
            items: Vec::new(alloc),
            height: 0,
        }
    }

    /// The initializers, in order.
    pub fn items(&self) -> &[Initialiser]
        ensures { initialisers_of result.now ≡ self.now }
    {
        self.items.as_slice()
    }

    /// The height of the tallest.
    pub fn height(&self) -> usize
        ensures { result ≡ tallest_initialiser self.now }
    {
        self.height
    }

    /// With one more at the end.
    #[tactic(auto, using(crate::proofs::Lists::initialisers_last, crate::proofs::Lists::tallest_initialiser_last))]
    pub fn with(self, value: Initialiser) -> Result<Self, AllocError>
        ensures { IfOk result (λ vs. vs ≡ with_initialiser self value) }
    {
        let height = self.height.max(value.height());
        let mut items = self.items;
        items.push(value)?;
        Ok(Initialisers { items, height })
    }
}

/// A declarator with its initializer, if it has one (C11, 6.7).
#[derive(Drop)]
pub struct Init {
    pub declarator: Declarator,
    pub value: Option<Initialiser>,
}

/// The declarators of a declaration, in order (C11, 6.7). Contracts see a list.
#[derive(Drop)]
pub struct Inits {
    items: Vec<Init>,
    height: usize,
}

impl Model for Inits {
    ghost use Rattle.std.specs.Prelude.{List};
    ghost use Rattle.c_tree.specs.declared.initialiser.Init.{Init};
    ghost use Rattle.c_tree.specs.refinement.InitCodes.{coded_inits};

    ghost Value = { List Init };

    ghost coded = { coded_inits };

    ghost view = { λ a. a.items.items };

    ghost use Rattle.std.specs.Prelude.{◌≡◌};
    ghost use Rattle.c_tree.specs.Heights.{init_height, tallest_of};

    ghost invariant = { λ a. a.height ≡ tallest_of init_height a.items.items };
}

/// The height of an initializer, if there is one.
fn value_height(value: &Option<Initialiser>) -> usize
    ensures { result ≡ value_height value.now }
{
    match value {
        Some(v) => v.height(),
        None => 0,
    }
}

impl Inits {
    /// No declarators. Takes no memory.
    pub fn new(alloc: Global) -> Self
        ensures { result ≡ [] }
    {
        Inits {
            items: Vec::new(alloc),
            height: 0,
        }
    }

    /// The declarators, in order.
    pub fn items(&self) -> &[Init]
        ensures { result.now ≡ self.now }
    {
        self.items.as_slice()
    }

    /// The height of the tallest.
    pub fn height(&self) -> usize
        ensures { result ≡ tallest_of init_height self.now }
    {
        self.height
    }

    /// With one more at the end.
    #[tactic(auto, using(crate::proofs::Lists::tallest_of_last))]
    pub fn with(self, init: Init) -> Result<Self, AllocError>
        ensures { IfOk result (λ xs. xs ≡ self ++ init ∷ []) }
    {
        let height = self
            .height
            .max(init.declarator.height().max(value_height(&init.value)));
        let mut items = self.items;
        items.push(init)?;
        Ok(Inits { items, height })
    }
}
