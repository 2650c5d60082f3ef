//! Small parts of statements.

ghost use Rattle.std.specs.Prelude.{◌≡◌, IfOk};
ghost use Rattle.c_tree.specs.StatementHeights.{first_height};

use crate::initialiser::Inits;
use crate::specifier::Specifier;
use crate::tree::Expr;
use std::alloc::{AllocError, Global};
use std::marker::Model;

/// `break` or `continue` (C11, 6.8.6).
#[derive(Clone, Copy)]
pub enum Jump {
    Break,
    Continue,
}

/// What stands first in the parentheses of a `for` (C11, 6.8.5.3).
#[derive(Drop)]
pub struct ForFirst {
    node: Box<ForFirstNode>,
    height: usize,
}

/// The forms of what stands first.
#[derive(Drop)]
pub enum ForFirstNode {
    Nothing,
    Expr(Expr),
    Declaration(Specifier, Inits),
}

impl Model for ForFirst {
    ghost use Rattle.c_tree.specs.declared.first.ForFirstNode.{ForFirstNode};
    ghost use Rattle.c_tree.specs.contracts.first.ForFirstNode as node_row;

    ghost Value = { ForFirstNode };

    ghost coded = { node_row.the_row.coded };

    ghost view = { λ a. a.node.value };

    ghost use Rattle.std.specs.Prelude.{◌≡◌};
    ghost use Rattle.c_tree.specs.StatementHeights.{first_height};

    ghost invariant = { λ a. a.height ≡ first_height a.node.value };
}

impl ForFirst {
    /// What stands first, of this form.
    pub fn new(alloc: Global, node: ForFirstNode) -> Result<Self, AllocError>
        ensures { IfOk result (λ a. a ≡ node) }
    {
        let height = match &node {
            ForFirstNode::Nothing => 0,
            ForFirstNode::Expr(e) => e.height(),
            ForFirstNode::Declaration(_, inits) => inits.height(),
        };
        let node = Box::new(alloc, node)?;
        Ok(ForFirst { node, height })
    }

    /// Its form.
    pub fn node(&self) -> &ForFirstNode
        ensures { result.now ≡ self.now }
    {
        &*self.node
    }

    /// Its height.
    pub fn height(&self) -> usize
        ensures { result ≡ first_height self.now }
    {
        self.height
    }
}
