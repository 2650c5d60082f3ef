//! What is in hand.

use c_token::Bytes;
use c_tree::{
    Access, Args, Block, Declarator, Declarators, Enumerator, Enumerators, Expr, ExternalForm,
    ForFirst, Init, Initialiser, Initialisers, Inits, Jump, MemberHead, Members, OuterSpecifier,
    Parameters, Specifier, Statement,
};

/// What the braces of items stand behind.
#[derive(Drop)]
pub enum Holder {
    /// Nothing: they are a block.
    Block,
    /// The declarator of a function, whose body they are.
    Function(Declarator),
    /// `switch` and its operand.
    Switch(Expr),
}

/// What is in hand: a tree, or what has been read of one.
#[derive(Drop)]
pub enum Value {
    /// Nothing yet.
    Start,
    Expr(Expr),
    /// An opening parenthesis where an expression is wanted.
    Paren,
    /// A call up to its last argument.
    Call(Expr, Args),
    /// An expression and `.` or `->`.
    Access(Access, Expr),
    /// The name of a type in parentheses.
    TypeName(Specifier, Declarator),
    Declarator(Declarator),
    /// A declarator and an opening bracket.
    Array(Declarator),
    /// An opening parenthesis where a declarator is wanted.
    OpenDeclarator,
    /// A declarator, an opening parenthesis and parameters.
    Function(Declarator, Parameters),
    Specifier(Specifier),
    /// `struct`.
    Tag,
    /// `struct`, a tag and an opening brace, where a member is wanted.
    Opens(Bytes),
    /// `enum`.
    EnumTag,
    /// `enum`, a tag if there is one, an opening brace, enumerators each with a comma, and one more if there is one.
    Enumerators(Option<Bytes>, Enumerators, Option<Enumerator>),
    /// The definition of an enumeration, and whether a comma stands before the closing brace.
    Enum(Option<Bytes>, Enumerators, bool),
    Initialiser(Initialiser),
    /// An opening brace, initializers, and whether a comma stands behind them.
    Braces(Initialisers, bool),
    /// Declarators with initializers, and the last one.
    Inits(Inits, Init),
    Statement(Statement),
    /// An `if` without an `else` so far.
    If(Expr, Statement),
    /// An opening brace and items up to the last one.
    Items(Holder, Block),
    /// `break` or `continue` before its semicolon.
    Jump(Jump),
    /// What stands first in a `for`, with its semicolon.
    ForFirst(ForFirst),
    /// An expression or none, and a semicolon.
    Test(Option<Expr>),
    /// An expression or none, and a closing parenthesis.
    Step(Option<Expr>),
    Outer(OuterSpecifier),
    /// A structure up to its last member: how many are open in it, and whether the innermost has a member.
    Members(Bytes, Members, usize, bool),
    /// A structure, and a member up to its last declarator. So many are open behind it.
    Member(Bytes, Members, usize, MemberHead, Declarators),
    Form(ExternalForm),
    External(OuterSpecifier, ExternalForm),
}
