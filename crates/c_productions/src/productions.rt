//! What productions want.

ghost use Rattle.std.specs.Prelude.{◌≡◌};
ghost use Rattle.c_productions.specs.refinement.Table.{lift, rise, symbols};

use crate::frame::Rest;
use crate::kind::{Kind, Production, Symbol, Terminal};
use c_tree::Core;

/// A part of this kind.
const fn part(kind: Kind) -> Symbol
    ensures { result ≡ Symbol.Part kind }
{
    Symbol::Part(kind)
}

/// An expression of at least this level.
const fn expr(level: u8) -> Symbol
    ensures { result ≡ Symbol.Part (Kind.Expr level) }
{
    Symbol::Part(Kind::Expr(level))
}

/// A declarator.
const fn declarator(core: Core, something: bool) -> Symbol
    ensures { result ≡ Symbol.Part (Kind.Declarator core something) }
{
    Symbol::Part(Kind::Declarator(core, something))
}

/// This word.
const fn said(terminal: Terminal) -> Symbol
    ensures { result ≡ Symbol.Word terminal }
{
    Symbol::Word(terminal)
}

impl Production {
    /// What it wants, in order, behind what it begins with.
    pub fn symbols(self) -> Rest
        ensures { result ≡ symbols self }
    {
        match self {
            Production::Unary(op) => Rest::one(expr(op.operand())),
            Production::Sizeof => Rest::one(part(Kind::SizeofOperand)),
            Production::Cast => Rest::four(
                part(Kind::Specifier),
                declarator(Core::Nothing, false),
                said(Terminal::CloseParen),
                expr(13),
            ),
            Production::Parenthesised => Rest::two(expr(0), said(Terminal::CloseParen)),
            Production::TypeName => Rest::three(
                part(Kind::Specifier),
                declarator(Core::Nothing, false),
                said(Terminal::CloseParen),
            ),
            Production::Argument => Rest::one(expr(1)),
            Production::Between(op) => Rest::one(expr(op.right())),
            Production::Choice => Rest::three(expr(0), said(Terminal::Colon), expr(2)),
            Production::Index => Rest::two(expr(0), said(Terminal::CloseBracket)),
            Production::Pointer(core) => Rest::one(declarator(core, false)),
            Production::Sized => Rest::two(expr(2), said(Terminal::CloseBracket)),
            Production::Parameter => Rest::two(
                part(Kind::Specifier),
                declarator(Core::Either, false),
            ),
            Production::Wrap(core) => Rest::two(declarator(core, true), said(Terminal::CloseParen)),
            Production::Single => Rest::one(expr(1)),
            Production::Element => Rest::one(part(Kind::Initialiser)),
            Production::FirstInit => Rest::one(declarator(Core::Name, false)),
            Production::InitValue => Rest::one(part(Kind::Initialiser)),
            Production::NextInit => Rest::one(declarator(Core::Name, false)),
            Production::If => Rest::four(
                said(Terminal::OpenParen),
                expr(0),
                said(Terminal::CloseParen),
                part(Kind::Statement),
            ),
            Production::While => Rest::four(
                said(Terminal::OpenParen),
                expr(0),
                said(Terminal::CloseParen),
                part(Kind::Statement),
            ),
            Production::Do => Rest::six(
                part(Kind::Statement),
                said(Terminal::While),
                said(Terminal::OpenParen),
                expr(0),
                said(Terminal::CloseParen),
                said(Terminal::Semicolon),
            ),
            Production::Switch => Rest::four(
                said(Terminal::OpenParen),
                expr(0),
                said(Terminal::CloseParen),
                said(Terminal::OpenBrace),
            ),
            Production::For => Rest::five(
                said(Terminal::OpenParen),
                part(Kind::ForFirst),
                part(Kind::Test),
                part(Kind::Step),
                part(Kind::Statement),
            ),
            Production::Return => Rest::one(part(Kind::Test)),
            Production::Plain => Rest::two(expr(0), said(Terminal::Semicolon)),
            Production::Else => Rest::one(part(Kind::Statement)),
            Production::Item => Rest::one(part(Kind::Statement)),
            Production::Declaration => Rest::three(
                part(Kind::Specifier),
                part(Kind::Inits),
                said(Terminal::Semicolon),
            ),
            Production::Case => Rest::two(expr(2), said(Terminal::Colon)),
            Production::Default => Rest::one(said(Terminal::Colon)),
            Production::ForDeclaration => Rest::three(
                part(Kind::Specifier),
                part(Kind::Inits),
                said(Terminal::Semicolon),
            ),
            Production::ForExpr => Rest::two(expr(0), said(Terminal::Semicolon)),
            Production::TestExpr => Rest::two(expr(0), said(Terminal::Semicolon)),
            Production::StepExpr => Rest::two(expr(0), said(Terminal::CloseParen)),
            Production::EnumValue => Rest::one(expr(2)),
            Production::MemberSpecifier => Rest::one(part(Kind::MemberSpecifier)),
            Production::MemberDeclarator => Rest::one(declarator(Core::Name, false)),
            Production::External => Rest::two(part(Kind::OuterSpecifier), part(Kind::Form)),
        }
    }

    /// How much higher it is than what it begins with.
    pub fn lift(self) -> usize
        ensures { result ≡ lift self }
    {
        match self {
            Production::Between(_) => 1,
            Production::Choice => 1,
            Production::Index => 1,
            _ => 0,
        }
    }

    /// How much higher it is than its other parts.
    pub fn rise(self) -> usize
        ensures { result ≡ rise self }
    {
        match self {
            Production::TypeName => 0,
            Production::Single => 0,
            Production::FirstInit => 0,
            Production::InitValue => 0,
            Production::NextInit => 0,
            Production::ForDeclaration => 0,
            Production::ForExpr => 0,
            Production::TestExpr => 0,
            Production::StepExpr => 0,
            Production::EnumValue => 0,
            Production::MemberSpecifier => 0,
            Production::MemberDeclarator => 0,
            Production::External => 0,
            _ => 1,
        }
    }
}
