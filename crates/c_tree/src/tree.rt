//! Expressions and declarators.

ghost use Rattle.std.specs.Prelude.{◌≡◌, ◌+◌, IfOk};
ghost use Rattle.c_tree.specs.Grammar.{level};
ghost use Rattle.c_tree.specs.Heights.{declarator_height, expr_height, tallest, tallest_parameter};
ghost use Rattle.c_tree.specs.Tree.{no_exprs, no_parameters};
ghost use Rattle.c_tree.specs.refinement.Views.{are_none, declarator_of, expr_of, exprs_of, parameters_of, with_expr, with_parameter};

use crate::operators::{Access, Infix, StepOp, UnaryOp};
use crate::specifier::Specifier;
use c_token::{Bytes, IntegerType};
use std::alloc::{AllocError, Global};
use std::marker::Model;

/// An expression (C11, 6.5). Contracts see it without the places in memory.
#[cycle(tree)]
#[derive(Drop)]
pub struct Expr {
    node: Box<ExprNode>,
    height: usize,
}

/// The forms of expressions.
#[cycle(tree)]
#[derive(Drop)]
pub enum ExprNode {
    Name(Bytes),
    Integer(u64, IntegerType),
    Character(u8),
    String(Bytes),
    /// In parentheses.
    Paren(Expr),
    Index(Expr, Expr),
    Call(Expr, Args),
    Member(Access, Expr, Bytes),
    /// `++` or `--` behind its operand.
    After(StepOp, Expr),
    Unary(UnaryOp, Expr),
    SizeOfType(Specifier, Declarator),
    Cast(Specifier, Declarator, Expr),
    Between(Infix, Expr, Expr),
    /// The test, and what stands before and behind the colon.
    Choice(Expr, Expr, Expr),
}

impl Model for Expr {
    ghost use Rattle.c_tree.specs.Tree.{Expr as Meaning};
    ghost use Rattle.c_tree.specs.refinement.Codes.{coded_expr};

    ghost Value = { Meaning };

    ghost coded = { coded_expr };

    ghost use Rattle.c_tree.specs.refinement.Views.{expr_of, expr_nodes};

    ghost view = { λ e. expr_of e.node.value };

    ghost use Rattle.std.specs.Prelude.{◌≡◌};
    ghost use Rattle.c_tree.specs.Heights.{expr_height};

    ghost invariant = { λ e. e.height ≡ expr_height (expr_of e.node.value) };

    ghost size = { expr_nodes };

    ghost use Rattle.c_tree.specs.refinement.Falls.{expr_falls};

    ghost size_decreases = { λ a h. expr_falls a.node.value };
}

/// The arguments of a call, in order (C11, 6.5.2).
#[cycle(tree)]
#[derive(Drop)]
pub struct Args {
    items: Vec<Expr>,
    height: usize,
}

impl Model for Args {
    ghost use Rattle.c_tree.specs.Tree.{Exprs};
    ghost use Rattle.c_tree.specs.refinement.Codes.{coded_exprs};

    ghost Value = { Exprs };

    ghost coded = { coded_exprs };

    ghost use Rattle.c_tree.specs.refinement.Views.{exprs_of, exprs_nodes};

    ghost view = { λ a. exprs_of a.items.items };

    ghost use Rattle.std.specs.Prelude.{◌≡◌};
    ghost use Rattle.c_tree.specs.Heights.{tallest};

    ghost invariant = { λ a. a.height ≡ tallest (exprs_of a.items.items) };

    ghost size = { exprs_nodes };

    ghost use Rattle.c_tree.specs.refinement.Falls.{exprs_fall};

    ghost size_decreases = { λ a h. exprs_fall a.items.items };
}

/// What a declarator has in the name's place (C11, 6.7.6 and 6.7.7).
#[derive(Clone, Copy)]
pub enum Core {
    /// A name, where something is declared.
    Name,
    /// Nothing, in the name of a type.
    Nothing,
    /// In a parameter, the one or the other.
    Either,
}

/// A declarator, or an abstract one (C11, 6.7.6 and 6.7.7).
#[cycle(tree)]
#[derive(Drop)]
pub struct Declarator {
    node: Box<DeclaratorNode>,
    height: usize,
}

/// The forms of declarators, from the outside in: `*a[1]` is a pointer behind an array.
#[cycle(tree)]
#[derive(Drop)]
pub enum DeclaratorNode {
    Named(Bytes),
    /// Nothing in the name's place.
    Nothing,
    Pointer(Declarator),
    /// An array without a length.
    Array(Declarator),
    /// An array with a length.
    Sized(Declarator, Expr),
    /// In parentheses.
    Wrapped(Declarator),
    Function(Declarator, Parameters),
    /// A function with `void` alone in the parentheses.
    FunctionVoid(Declarator),
}

impl Model for Declarator {
    ghost use Rattle.c_tree.specs.Tree.{Declarator as Meaning};
    ghost use Rattle.c_tree.specs.refinement.Codes.{coded_declarator};

    ghost Value = { Meaning };

    ghost coded = { coded_declarator };

    ghost use Rattle.c_tree.specs.refinement.Views.{declarator_of, declarator_nodes};

    ghost view = { λ d. declarator_of d.node.value };

    ghost use Rattle.std.specs.Prelude.{◌≡◌};
    ghost use Rattle.c_tree.specs.Heights.{declarator_height};

    ghost invariant = { λ d. d.height ≡ declarator_height (declarator_of d.node.value) };

    ghost size = { declarator_nodes };

    ghost use Rattle.c_tree.specs.refinement.Falls.{declarator_falls};

    ghost size_decreases = { λ a h. declarator_falls a.node.value };
}

/// A parameter of a function's declarator (C11, 6.7.6.3).
#[cycle(tree)]
#[derive(Drop)]
pub struct Parameter {
    pub specifier: Specifier,
    pub declarator: Declarator,
}

/// The parameters, in order.
#[cycle(tree)]
#[derive(Drop)]
pub struct Parameters {
    items: Vec<Parameter>,
    height: usize,
}

impl Model for Parameters {
    ghost use Rattle.c_tree.specs.Tree.{Parameters as Meaning};
    ghost use Rattle.c_tree.specs.refinement.Codes.{coded_parameters};

    ghost Value = { Meaning };

    ghost coded = { coded_parameters };

    ghost use Rattle.c_tree.specs.refinement.Views.{parameters_of, parameters_nodes};

    ghost view = { λ a. parameters_of a.items.items };

    ghost use Rattle.std.specs.Prelude.{◌≡◌};
    ghost use Rattle.c_tree.specs.Heights.{tallest_parameter};

    ghost invariant = { λ a. a.height ≡ tallest_parameter (parameters_of a.items.items) };

    ghost size = { parameters_nodes };

    ghost use Rattle.c_tree.specs.refinement.Falls.{parameters_fall};

    ghost size_decreases = { λ a h. parameters_fall a.items.items };
}

/// One more. A height that passes a usize, which no memory could hold, is want of memory.
pub fn above(height: usize) -> Result<usize, AllocError>
    ensures { IfOk result (λ more. more ≡ height + 1) }
{
    height.checked_add(1).ok_or(AllocError)
}

/// The height of an expression of this form.
fn height_of(node: &ExprNode) -> Result<usize, AllocError>
    ensures { IfOk result (λ n. n ≡ expr_height (expr_of node.now)) }
{
    match node {
        ExprNode::Name(_) => Ok(1),
        ExprNode::Integer(_, _) => Ok(1),
        ExprNode::Character(_) => Ok(1),
        ExprNode::String(_) => Ok(1),
        ExprNode::Paren(e) => above(e.height()),
        ExprNode::Index(a, i) => above(a.height().max(i.height())),
        ExprNode::Call(f, args) => above(f.height().max(args.height())),
        ExprNode::Member(_, e, _) => above(e.height()),
        ExprNode::After(_, e) => above(e.height()),
        ExprNode::Unary(_, e) => above(e.height()),
        ExprNode::SizeOfType(_, d) => above(d.height()),
        ExprNode::Cast(_, d, e) => above(d.height().max(e.height())),
        ExprNode::Between(_, a, b) => above(a.height().max(b.height())),
        ExprNode::Choice(c, a, b) => above(c.height().max(a.height()).max(b.height())),
    }
}

impl Expr {
    /// The expression of this form.
    pub fn new(alloc: Global, node: ExprNode) -> Result<Self, AllocError>
        ensures { IfOk result (λ e. e ≡ expr_of node) }
    {
        let height = height_of(&node)?;
        let node = Box::new(alloc, node)?;
        Ok(Expr { node, height })
    }

    /// Its form.
    pub fn node(&self) -> &ExprNode
        ensures { expr_of result.now ≡ self.now }
    {
        &*self.node
    }

    /// Its height: the greatest number of nodes in one another.
    pub fn height(&self) -> usize
        ensures { result ≡ expr_height self.now }
    {
        self.height
    }

    /// How tightly it holds together.
    pub fn level(&self) -> u8
        ensures { result ≡ level self.now }
    {
        match &*self.node {
            ExprNode::Unary(_, _) => 14,
            ExprNode::SizeOfType(_, _) => 14,
            ExprNode::Cast(_, _, _) => 13,
            ExprNode::Between(op, _, _) => op.makes(),
            ExprNode::Choice(_, _, _) => 2,
            _ => 15,
        }
    }
}

impl Declarator {
    /// The declarator of this form.
    pub fn new(alloc: Global, node: DeclaratorNode) -> Result<Self, AllocError>
        ensures { IfOk result (λ d. d ≡ declarator_of node) }
    {
        let height = match &node {
            DeclaratorNode::Named(_) => 1,
            DeclaratorNode::Nothing => 0,
            DeclaratorNode::Pointer(d) => above(d.height())?,
            DeclaratorNode::Array(d) => above(d.height())?,
            DeclaratorNode::Sized(d, e) => above(d.height().max(e.height()))?,
            DeclaratorNode::Wrapped(d) => above(d.height())?,
            DeclaratorNode::Function(d, ps) => above(d.height().max(ps.height()))?,
            DeclaratorNode::FunctionVoid(d) => above(d.height())?,
        };
        let node = Box::new(alloc, node)?;
        Ok(Declarator { node, height })
    }

    /// Its form.
    pub fn node(&self) -> &DeclaratorNode
        ensures { declarator_of result.now ≡ self.now }
    {
        &*self.node
    }

    /// Its height. Nothing has none.
    pub fn height(&self) -> usize
        ensures { result ≡ declarator_height self.now }
    {
        self.height
    }
}

impl Args {
    /// No arguments. Takes no memory.
    pub fn new(alloc: Global) -> Self
        ensures { result ≡ no_exprs }
    {
        Args {
            items: Vec::new(alloc),
            height: 0,
        }
    }

    /// The arguments, in order.
    pub fn items(&self) -> &[Expr]
        ensures { exprs_of result.now ≡ self.now }
    {
        self.items.as_slice()
    }

    /// The height of the tallest.
    pub fn height(&self) -> usize
        ensures { result ≡ tallest self.now }
    {
        self.height
    }

    /// With one more at the end.
    #[tactic(auto, using(crate::proofs::Lists::exprs_last, crate::proofs::Lists::tallest_last))]
    pub fn with(self, arg: Expr) -> Result<Self, AllocError>
        ensures { IfOk result (λ a. a ≡ with_expr self arg) }
    {
        let height = self.height.max(arg.height());
        let mut items = self.items;
        items.push(arg)?;
        Ok(Args { items, height })
    }
}

impl Parameters {
    /// No parameters. Takes no memory.
    pub fn new(alloc: Global) -> Self
        ensures { result ≡ no_parameters }
    {
        Parameters {
            items: Vec::new(alloc),
            height: 0,
        }
    }

    /// The parameters, in order.
    pub fn items(&self) -> &[Parameter]
        ensures { parameters_of result.now ≡ self.now }
    {
        self.items.as_slice()
    }

    /// Whether there are none.
    #[tactic(auto, using(crate::proofs::Lists::none_if_empty))]
    pub fn is_empty(&self) -> bool
        ensures { result ≡ are_none self.now }
    {
        self.items.is_empty()
    }

    /// The height of the tallest.
    pub fn height(&self) -> usize
        ensures { result ≡ tallest_parameter self.now }
    {
        self.height
    }

    /// With one more at the end.
    #[tactic(auto, using(crate::proofs::Lists::parameters_last, crate::proofs::Lists::tallest_parameter_last))]
    pub fn with(self, specifier: Specifier, declarator: Declarator) -> Result<Self, AllocError>
        ensures { IfOk result (λ ps. ps ≡ with_parameter self specifier declarator) }
    {
        let height = self.height.max(declarator.height());
        let mut items = self.items;
        items.push(Parameter {
            specifier,
            declarator,
        })?;
        Ok(Parameters { items, height })
    }
}
