//! The words that begin each kind.

ghost use Rattle.std.specs.Prelude.{◌≡◌, Ok};
ghost use Rattle.c_parse_steps.specs.refinement.Calls.{Acted};
ghost use Rattle.c_productions.specs.refinement.Classes.{specifier_at};
ghost use Rattle.c_productions.specs.refinement.Table.{begin, if_said, declarator_mark, declarator_word, first_word, on_keyword, operand, operand_mark, specifier_keyword, statement_keyword, statement_mark, statement_word};
ghost use Rattle.c_tree.specs.Grammar.{may_be_nothing, may_name};

use crate::acting::Outcome;
use c_productions::{
    Holder, Kind, Production, Terminal, Value, is_enum, is_sizeof, is_specifier, is_struct,
    prefix_at,
};
use c_token::{Keyword, Mark, Word};
use c_tree::{
    Block, Core, Declarator, DeclaratorNode, Expr, ExprNode, ExternalForm, ForFirst, ForFirstNode,
    Initialisers, IntegerWord, IntegerWords, Jump, Specifier, SpecifierNode, Statement,
    StatementNode,
};
use std::alloc::{AllocError, Global};

/// The beginning of an expression, at a mark.
fn operand_mark(mark: Mark) -> Result<Outcome, AllocError>
    ensures { Acted (operand_mark mark) Value.Start result }
{
    if let Some(op) = prefix_at(mark) {
        return Ok(Outcome::Opens(Production::Unary(op), Value::Start));
    }
    if Terminal::OpenParen.is_mark(mark) {
        return Ok(Outcome::Joined(Value::Paren));
    }
    Ok(Outcome::Stuck(Value::Start))
}

/// The beginning of an expression (C11, 6.5).
fn operand(alloc: Global, word: &Word) -> Result<Outcome, AllocError>
    ensures { Acted (operand word.now) Value.Start result }
{
    match word {
        Word::Name(name) => {
            let name = name.copy(alloc)?;
            let whole = Expr::new(alloc, ExprNode::Name(name))?;
            Ok(Outcome::Joined(Value::Expr(whole)))
        }
        Word::Integer(value, kind) => {
            let whole = Expr::new(alloc, ExprNode::Integer(*value, *kind))?;
            Ok(Outcome::Joined(Value::Expr(whole)))
        }
        Word::Character(byte) => {
            let whole = Expr::new(alloc, ExprNode::Character(*byte))?;
            Ok(Outcome::Joined(Value::Expr(whole)))
        }
        Word::String(bytes) => {
            let bytes = bytes.copy(alloc)?;
            let whole = Expr::new(alloc, ExprNode::String(bytes))?;
            Ok(Outcome::Joined(Value::Expr(whole)))
        }
        Word::Mark(mark) => operand_mark(*mark),
        Word::Keyword(keyword) => {
            if is_sizeof(*keyword) {
                return Ok(Outcome::Opens(Production::Sizeof, Value::Start));
            }
            Ok(Outcome::Stuck(Value::Start))
        }
    }
}

/// Whether a name may stand there.
fn may_name(core: Core) -> bool
    ensures { result ≡ may_name core }
{
    matches!(core, Core::Name | Core::Either)
}

/// Whether nothing may stand in the name's place.
pub fn may_be_nothing(core: Core) -> bool
    ensures { result ≡ may_be_nothing core }
{
    matches!(core, Core::Nothing | Core::Either)
}

/// The beginning of a declarator, at a mark.
fn declarator_mark(alloc: Global, core: Core, mark: Mark) -> Result<Outcome, AllocError>
    ensures { Acted (declarator_mark core mark) Value.Start result }
{
    if Terminal::Star.is_mark(mark) {
        return Ok(Outcome::Opens(Production::Pointer(core), Value::Start));
    }
    if Terminal::OpenParen.is_mark(mark) {
        return Ok(Outcome::Joined(Value::OpenDeclarator));
    }
    if Terminal::OpenBracket.is_mark(mark) && may_be_nothing(core) {
        let nothing = Declarator::new(alloc, DeclaratorNode::Nothing)?;
        return Ok(Outcome::Joined(Value::Array(nothing)));
    }
    Ok(Outcome::Stuck(Value::Start))
}

/// The beginning of a declarator (C11, 6.7.6 and 6.7.7).
fn declarator_word(alloc: Global, core: Core, word: &Word) -> Result<Outcome, AllocError>
    ensures { Acted (declarator_word core word.now) Value.Start result }
{
    match word {
        Word::Name(name) => {
            if !may_name(core) {
                return Ok(Outcome::Stuck(Value::Start));
            }
            let name = name.copy(alloc)?;
            let whole = Declarator::new(alloc, DeclaratorNode::Named(name))?;
            Ok(Outcome::Joined(Value::Declarator(whole)))
        }
        Word::Mark(mark) => declarator_mark(alloc, core, *mark),
        Word::Integer(_, _) => Ok(Outcome::Stuck(Value::Start)),
        Word::Character(_) => Ok(Outcome::Stuck(Value::Start)),
        Word::String(_) => Ok(Outcome::Stuck(Value::Start)),
        Word::Keyword(_) => Ok(Outcome::Stuck(Value::Start)),
    }
}

/// The specifier that a keyword is by itself.
fn specifier_at(keyword: Keyword) -> Option<SpecifierNode>
    ensures { result ≡ specifier_at keyword }
{
    match keyword {
        Keyword::Void => Some(SpecifierNode::Void),
        Keyword::SizeT => Some(SpecifierNode::SizeT),
        Keyword::PtrdiffT => Some(SpecifierNode::PtrdiffT),
        Keyword::Char => Some(SpecifierNode::Integer(IntegerWords::One(IntegerWord::Char))),
        Keyword::Short => Some(SpecifierNode::Integer(IntegerWords::One(IntegerWord::Short))),
        Keyword::Int => Some(SpecifierNode::Integer(IntegerWords::One(IntegerWord::Int))),
        Keyword::Long => Some(SpecifierNode::Integer(IntegerWords::One(IntegerWord::Long))),
        Keyword::Signed => Some(SpecifierNode::Integer(IntegerWords::One(IntegerWord::Signed))),
        Keyword::Unsigned => Some(SpecifierNode::Integer(IntegerWords::One(IntegerWord::Unsigned))),
        _ => None,
    }
}

/// The beginning of a specifier, at a keyword.
fn specifier_keyword(alloc: Global, keyword: Keyword) -> Result<Outcome, AllocError>
    ensures { Acted (specifier_keyword keyword) Value.Start result }
{
    if let Some(node) = specifier_at(keyword) {
        let whole = Specifier::new(alloc, node)?;
        return Ok(Outcome::Joined(Value::Specifier(whole)));
    }
    if is_struct(keyword) {
        return Ok(Outcome::Joined(Value::Tag));
    }
    if is_enum(keyword) {
        return Ok(Outcome::Joined(Value::EnumTag));
    }
    Ok(Outcome::Stuck(Value::Start))
}

/// The beginning of a specifier (C11, 6.7.2).
fn specifier_word(alloc: Global, word: &Word) -> Result<Outcome, AllocError>
    ensures { Acted (on_keyword word.now specifier_keyword) Value.Start result }
{
    match word {
        Word::Keyword(keyword) => specifier_keyword(alloc, *keyword),
        _ => Ok(Outcome::Stuck(Value::Start)),
    }
}

/// The beginning of a statement, at a mark.
fn statement_mark(alloc: Global, mark: Mark) -> Result<Outcome, AllocError>
    ensures { Acted (statement_mark mark) Value.Start result }
{
    if Terminal::Semicolon.is_mark(mark) {
        let whole = Statement::new(alloc, StatementNode::Empty)?;
        return Ok(Outcome::Joined(Value::Statement(whole)));
    }
    if Terminal::OpenBrace.is_mark(mark) {
        return Ok(Outcome::Joined(Value::Items(Holder::Block, Block::new(alloc))));
    }
    Ok(Outcome::Begins(Production::Plain, Value::Start))
}

/// The beginning of a statement, at a keyword.
fn statement_keyword(keyword: Keyword) -> Result<Outcome, AllocError>
    ensures { Acted (statement_keyword keyword) Value.Start result }
{
    match keyword {
        Keyword::If => Ok(Outcome::Opens(Production::If, Value::Start)),
        Keyword::While => Ok(Outcome::Opens(Production::While, Value::Start)),
        Keyword::Do => Ok(Outcome::Opens(Production::Do, Value::Start)),
        Keyword::For => Ok(Outcome::Opens(Production::For, Value::Start)),
        Keyword::Switch => Ok(Outcome::Opens(Production::Switch, Value::Start)),
        Keyword::Return => Ok(Outcome::Opens(Production::Return, Value::Start)),
        Keyword::Break => Ok(Outcome::Joined(Value::Jump(Jump::Break))),
        Keyword::Continue => Ok(Outcome::Joined(Value::Jump(Jump::Continue))),
        _ => Ok(Outcome::Begins(Production::Plain, Value::Start)),
    }
}

/// The beginning of a statement (C11, 6.8).
fn statement_word(alloc: Global, word: &Word) -> Result<Outcome, AllocError>
    ensures { Acted (statement_word word.now) Value.Start result }
{
    match word {
        Word::Mark(mark) => statement_mark(alloc, *mark),
        Word::Keyword(keyword) => statement_keyword(*keyword),
        _ => Ok(Outcome::Begins(Production::Plain, Value::Start)),
    }
}

/// The beginning of what stands first in a `for` (C11, 6.8.5).
fn first_word(alloc: Global, word: &Word) -> Result<Outcome, AllocError>
    ensures { Acted (first_word word.now) Value.Start result }
{
    if Terminal::Semicolon.is(word) {
        let whole = ForFirst::new(alloc, ForFirstNode::Nothing)?;
        return Ok(Outcome::Joined(Value::ForFirst(whole)));
    }
    if is_specifier(word) {
        return Ok(Outcome::Begins(Production::ForDeclaration, Value::Start));
    }
    Ok(Outcome::Begins(Production::ForExpr, Value::Start))
}

/// What is whole at this terminal, or else the production that begins.
fn whole_or(whole: Value, terminal: Terminal, production: Production, word: &Word) -> Outcome
    ensures { Acted (if_said terminal word.now whole production) Value.Start (Ok result) }
{
    if terminal.is(word) {
        return Outcome::Joined(whole);
    }
    Outcome::Begins(production, Value::Start)
}

/// What becomes of nothing yet at a word.
pub fn begin(alloc: Global, kind: Kind, word: &Word) -> Result<Outcome, AllocError>
    ensures { Acted (begin kind word.now) Value.Start result }
{
    match kind {
        Kind::Expr(_) => operand(alloc, word),
        Kind::SizeofOperand => operand(alloc, word),
        Kind::Declarator(core, _) => declarator_word(alloc, core, word),
        Kind::Specifier => specifier_word(alloc, word),
        Kind::OuterSpecifier => specifier_word(alloc, word),
        Kind::MemberSpecifier => specifier_word(alloc, word),
        Kind::Initialiser => {
            let empty = Value::Braces(Initialisers::new(alloc), false);
            Ok(whole_or(empty, Terminal::OpenBrace, Production::Single, word))
        }
        Kind::Inits => Ok(Outcome::Begins(Production::FirstInit, Value::Start)),
        Kind::Statement => statement_word(alloc, word),
        Kind::ForFirst => first_word(alloc, word),
        Kind::Test => Ok(whole_or(
            Value::Test(None),
            Terminal::Semicolon,
            Production::TestExpr,
            word,
        )),
        Kind::Step => Ok(whole_or(
            Value::Step(None),
            Terminal::CloseParen,
            Production::StepExpr,
            word,
        )),
        Kind::Form => {
            let alone = Value::Form(ExternalForm::Alone);
            Ok(whole_or(alone, Terminal::Semicolon, Production::FirstInit, word))
        }
        Kind::External => Ok(Outcome::Begins(Production::External, Value::Start)),
    }
}
