//! Statements and blocks.

ghost use Rattle.std.specs.Prelude.{◌≡◌, ◌+◌, IfOk};
ghost use Rattle.c_tree.specs.Statements.{no_items};
ghost use Rattle.c_tree.specs.StatementHeights.{clause_height, ends_open, statement_height, tallest_item};
ghost use Rattle.c_tree.specs.refinement.StatementViews.{item_height, items_of, statement_of, with_item};

use crate::first::{ForFirst, Jump};
use crate::initialiser::Inits;
use crate::specifier::Specifier;
use crate::tree::{Expr, above};
use std::alloc::{AllocError, Global};
use std::marker::Model;

/// A statement (C11, 6.8).
#[cycle(statement)]
#[derive(Drop)]
pub struct Statement {
    node: Box<StatementNode>,
    height: usize,
    takes_else: bool,
}

/// The forms of statements.
#[cycle(statement)]
#[derive(Drop)]
pub enum StatementNode {
    Block(Block),
    /// An expression and a semicolon.
    Plain(Expr),
    Empty,
    IfThen(Expr, Statement),
    IfElse(Expr, Statement, Statement),
    While(Expr, Statement),
    /// The body and the test.
    DoWhile(Statement, Expr),
    /// What stands first, the test, the step and the body.
    For(ForFirst, Option<Expr>, Option<Expr>, Statement),
    /// The operand, and what stands in the braces, labels among it.
    Switch(Expr, Block),
    ReturnNone,
    ReturnValue(Expr),
    Jump(Jump),
}

impl Model for Statement {
    ghost use Rattle.c_tree.specs.Statements.{Statement as Meaning};
    ghost use Rattle.c_tree.specs.refinement.StatementCodes.{coded_statement};

    ghost Value = { Meaning };

    ghost coded = { coded_statement };

    ghost use Rattle.c_tree.specs.refinement.StatementViews.{statement_of, statement_nodes};

    ghost view = { λ s. statement_of s.node.value };

    ghost use Rattle.std.specs.Prelude.{◌≡◌};
    ghost use Rattle.c_tree.specs.StatementHeights.{statement_height, ends_open};

    ghost invariant = { λ s. (s.height ≡ statement_height (statement_of s.node.value)) × (s.takes_else ≡ ends_open (statement_of s.node.value)) };

    ghost size = { statement_nodes };

    ghost use Rattle.c_tree.specs.refinement.StatementFalls.{statement_falls};

    ghost size_decreases = { λ a h. statement_falls a.node.value };
}

/// A statement or a declaration in a block (C11, 6.8.2), or a label of a switch (C11, 6.8.1).
#[cycle(statement)]
#[derive(Drop)]
pub enum Item {
    Statement(Statement),
    Declaration(Specifier, Inits),
    /// `case`, its expression and a colon.
    Case(Expr),
    /// `default` and a colon.
    Default,
}

/// What stands in the braces of a block or of a switch, in order.
#[cycle(statement)]
#[derive(Drop)]
pub struct Block {
    items: Vec<Item>,
    height: usize,
}

impl Model for Block {
    ghost use Rattle.c_tree.specs.Statements.{Items};
    ghost use Rattle.c_tree.specs.refinement.StatementCodes.{coded_items};

    ghost Value = { Items };

    ghost coded = { coded_items };

    ghost use Rattle.c_tree.specs.refinement.StatementViews.{items_of, items_nodes};

    ghost view = { λ a. items_of a.items.items };

    ghost use Rattle.std.specs.Prelude.{◌≡◌};
    ghost use Rattle.c_tree.specs.StatementHeights.{tallest_item};

    ghost invariant = { λ a. a.height ≡ tallest_item (items_of a.items.items) };

    ghost size = { items_nodes };

    ghost use Rattle.c_tree.specs.refinement.StatementFalls.{items_fall};

    ghost size_decreases = { λ a h. items_fall a.items.items };
}

/// The height of an expression, if there is one.
fn clause_height(clause: &Option<Expr>) -> usize
    ensures { result ≡ clause_height clause.now }
{
    match clause {
        Some(e) => e.height(),
        None => 0,
    }
}

/// The height of a statement of this form.
fn height_of(node: &StatementNode) -> Result<usize, AllocError>
    ensures { IfOk result (λ n. n ≡ statement_height (statement_of node.now)) }
{
    match node {
        StatementNode::Block(items) => above(items.height()),
        StatementNode::Plain(e) => above(e.height()),
        StatementNode::Empty => Ok(1),
        StatementNode::IfThen(c, a) => above(c.height().max(a.height())),
        StatementNode::IfElse(c, a, b) => above(c.height().max(a.height()).max(b.height())),
        StatementNode::While(c, s) => above(c.height().max(s.height())),
        StatementNode::DoWhile(s, c) => above(s.height().max(c.height())),
        StatementNode::For(a, c, b, s) => {
            let head = a.height().max(clause_height(c)).max(clause_height(b));
            above(head.max(s.height()))
        }
        StatementNode::Switch(e, items) => above(e.height().max(items.height())),
        StatementNode::ReturnNone => Ok(1),
        StatementNode::ReturnValue(e) => above(e.height()),
        StatementNode::Jump(_) => Ok(1),
    }
}

impl Statement {
    /// The statement of this form.
    pub fn new(alloc: Global, node: StatementNode) -> Result<Self, AllocError>
        ensures { IfOk result (λ s. s ≡ statement_of node) }
    {
        let height = height_of(&node)?;
        let takes_else = match &node {
            StatementNode::IfThen(_, _) => true,
            StatementNode::IfElse(_, _, b) => b.ends_open(),
            StatementNode::While(_, s) => s.ends_open(),
            StatementNode::For(_, _, _, s) => s.ends_open(),
            _ => false,
        };
        let node = Box::new(alloc, node)?;
        Ok(Statement {
            node,
            height,
            takes_else,
        })
    }

    /// Its form.
    pub fn node(&self) -> &StatementNode
        ensures { statement_of result.now ≡ self.now }
    {
        &*self.node
    }

    /// Its height.
    pub fn height(&self) -> usize
        ensures { result ≡ statement_height self.now }
    {
        self.height
    }

    /// Whether it ends with an `if` without an `else`, which would take an `else` that follows.
    pub fn ends_open(&self) -> bool
        ensures { result ≡ ends_open self.now }
    {
        self.takes_else
    }
}

/// The height of an item.
fn item_height(item: &Item) -> usize
    ensures { result ≡ item_height item.now }
{
    match item {
        Item::Statement(s) => s.height(),
        Item::Declaration(_, inits) => inits.height(),
        Item::Case(e) => e.height(),
        Item::Default => 0,
    }
}

impl Block {
    /// An empty block. Takes no memory.
    pub fn new(alloc: Global) -> Self
        ensures { result ≡ no_items }
    {
        Block {
            items: Vec::new(alloc),
            height: 0,
        }
    }

    /// The items, in order.
    pub fn items(&self) -> &[Item]
        ensures { items_of result.now ≡ self.now }
    {
        self.items.as_slice()
    }

    /// The height of the tallest.
    pub fn height(&self) -> usize
        ensures { result ≡ tallest_item self.now }
    {
        self.height
    }

    /// With one more at the end.
    #[tactic(auto, using(crate::proofs::Lists::items_last, crate::proofs::Lists::tallest_item_last))]
    pub fn with(self, item: Item) -> Result<Self, AllocError>
        ensures { IfOk result (λ b. b ≡ with_item self item) }
    {
        let height = self.height.max(item_height(&item));
        let mut items = self.items;
        items.push(item)?;
        Ok(Block { items, height })
    }
}
