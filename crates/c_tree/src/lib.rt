//! Syntax trees of C (C11, 6.5 to 6.9), with what was written: parentheses, which form, each operator.
//!
//! A tree knows its height and how it is spelled; which trees may stand where is the grammar. It stands on `c_token`.
//! `specs/Grammar.antt` is the definition to read first, beside `specs/Tree.antt`.
#![tactic(auto)]

mod enumerator;
mod external;
mod first;
mod initialiser;
mod operators;
mod specifier;
mod statement;
mod tree;

pub use enumerator::{Enumerator, Enumerators};
pub use external::{
    Declarators, External, ExternalForm, MemberHead, Members, OuterSpecifier, Piece, Unit,
};
pub use first::{ForFirst, ForFirstNode, Jump};
pub use initialiser::{Init, Initialiser, InitialiserNode, Initialisers, Inits};
pub use operators::{Access, AssignOp, BinaryOp, Infix, StepOp, UnaryOp};
pub use specifier::{
    Combination, IntegerWord, IntegerWords, Sign, Specifier, SpecifierNode, Width,
};
pub use statement::{Block, Item, Statement, StatementNode};
pub use tree::{
    Args, Core, Declarator, DeclaratorNode, Expr, ExprNode, Parameter, Parameters, above,
};
