//! The typed tree of C: what typing gives, and what the meaning of C and the compiler read.
//!
//! Names are resolved, and each conversion, decay, reading and test is a node of its own. Sizes and places of members
//! aren't in it: they are what the table of structs says. Statements and the places of variables' parts are put together.
//! What is well typed is said of the tree alone: what an expression's type is, and what its parts have to be (C11, 6.5), what a
//! statement may do (6.8), and what holds of the tables of a unit (6.9). `Typed` is a unit that is well typed, so that what goes over
//! typed trees has no condition, and knows nothing of the syntax that they came from; typing gives it (`check` of `c_check`).
//!
//! It stands on `c_types`, the types, and `c_token`, the bytes of names. Read `specs/Tree.antt` first, then
//! `specs/refinement/Expressions.antt`, `specs/Statements.antt` and `specs/Units.antt`.
#![tactic(auto)]

mod build;
mod constant;
mod form;
mod identifier;
mod integers;
mod jumps;
mod make;
mod ops;
mod path;
mod tree;
mod typed;
mod unit;

pub use build::{
    add, assign, copy, do_while, fill, if_else, loop_of, perform, return_value, scope, switch,
    while_loop,
};
pub use constant::give_constants;
pub use form::{Amount, Form};
pub use identifier::is_identifier;
pub use integers::{arithmetic, compared, promoted_value, shift};
pub use jumps::Jumps;
pub use make::{at_type, boxed, discarded, null_at, null_of, number, pointer_scalar, zero_of};
pub use ops::{BinaryOp, RelOp, UnaryOp, Variable};
pub use path::Path;
pub use tree::{Case, Expr, Place, Sized, Stmt};
pub use typed::Typed;
pub use unit::{Addition, Enumeration, Enumerator, Function, Made, Subject, TypedUnit};
