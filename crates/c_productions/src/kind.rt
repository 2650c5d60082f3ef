//! The kinds of parts, the productions and the words that they want.

use c_tree::{Core, Infix, UnaryOp};

/// What a part may be: the nonterminals of the grammar.
#[derive(Clone, Copy)]
pub enum Kind {
    /// An expression of at least this level (C11, 6.5), at most 14.
    Expr(u8),
    /// The operand of `sizeof`: a unary expression, or the name of a type in parentheses (6.5.3).
    SizeofOperand,
    /// A declarator (6.7.6, 6.7.7), and whether it must be something.
    Declarator(Core, bool),
    /// A specifier without braces (6.7.2).
    Specifier,
    /// The specifier of an external declaration, which may define a structure (6.7.2.1).
    OuterSpecifier,
    /// What a member of a structure begins with: a specifier, or the opening of a structure.
    MemberSpecifier,
    /// An initializer (6.7.9).
    Initialiser,
    /// The declarators of a declaration with their initializers (6.7).
    Inits,
    /// A statement (6.8).
    Statement,
    /// What stands first in the parentheses of a `for`, with its semicolon (6.8.5).
    ForFirst,
    /// An expression or none, and a semicolon.
    Test,
    /// An expression or none, and a closing parenthesis.
    Step,
    /// What stands behind the specifier of an external declaration, to its end (6.9).
    Form,
    /// An external declaration (6.9).
    External,
}

/// The productions of which a part is read by itself.
#[derive(Clone, Copy)]
pub enum Production {
    Unary(UnaryOp),
    Sizeof,
    Cast,
    Parenthesised,
    /// The name of a type in parentheses.
    TypeName,
    /// One more argument of a call.
    Argument,
    Between(Infix),
    Choice,
    Index,
    Pointer(Core),
    /// The length of an array.
    Sized,
    /// One more parameter.
    Parameter,
    /// A declarator in parentheses.
    Wrap(Core),
    /// An initializer that is an expression.
    Single,
    /// One more initializer in braces.
    Element,
    FirstInit,
    /// The initializer of the last declarator.
    InitValue,
    NextInit,
    If,
    While,
    Do,
    For,
    /// A switch up to its opening brace.
    Switch,
    Return,
    /// An expression and a semicolon.
    Plain,
    Else,
    /// One more statement in a block.
    Item,
    /// One more declaration in a block.
    Declaration,
    /// `case`, its expression and a colon.
    Case,
    /// `default` and a colon.
    Default,
    ForDeclaration,
    ForExpr,
    TestExpr,
    StepExpr,
    /// The value of an enumerator.
    EnumValue,
    /// The specifier of a structure's next member.
    MemberSpecifier,
    /// One more declarator of a member.
    MemberDeclarator,
    External,
}

/// The words that the table asks for one by one: punctuators, and the `while` of a `do` (C11, 6.4.1, 6.4.6).
#[derive(Clone, Copy)]
pub enum Terminal {
    OpenParen,
    CloseParen,
    OpenBracket,
    CloseBracket,
    OpenBrace,
    CloseBrace,
    Semicolon,
    Comma,
    Colon,
    Equals,
    Question,
    Star,
    While,
}

/// What a production wants next.
#[derive(Clone, Copy)]
pub enum Symbol {
    Word(Terminal),
    Part(Kind),
}
