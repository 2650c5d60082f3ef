//! The nodes of trees, with ample memory.

use c_token::{Bytes, IntegerType};
use c_tree::{
    Args, BinaryOp, Block, Declarator, DeclaratorNode, Declarators, Expr, ExprNode, External,
    ExternalForm, ForFirst, ForFirstNode, Infix, Init, Initialiser, InitialiserNode, Initialisers,
    Inits, Item, Members, OuterSpecifier, Parameters, Piece, Specifier, SpecifierNode, Statement,
    StatementNode, Unit,
};
use std::alloc::{AllocError, Global};
use std::test::Fail;

/// The constant 7.
fn seven(alloc: Global) -> Result<Expr, AllocError> {
    Expr::new(alloc, ExprNode::Integer(7, IntegerType::Int))
}

/// A declarator without a name.
fn nothing(alloc: Global) -> Result<Declarator, AllocError> {
    Declarator::new(alloc, DeclaratorNode::Nothing)
}

/// `void`.
fn void(alloc: Global) -> Result<Specifier, AllocError> {
    Specifier::new(alloc, SpecifierNode::Void)
}

/// 7 + 7, or with more behind it.
fn sum(alloc: Global, left: Expr) -> Result<Expr, AllocError> {
    Expr::new(
        alloc,
        ExprNode::Between(Infix::Binary(BinaryOp::Add), left, seven(alloc)?),
    )
}

/// `= { 7 }`.
fn braces(alloc: Global) -> Result<Initialiser, AllocError> {
    let single = Initialiser::new(alloc, InitialiserNode::Single(seven(alloc)?))?;
    let values = Initialisers::new(alloc).with(single)?;
    Initialiser::new(alloc, InitialiserNode::Braces(values, false))
}

/// One declarator with an initializer.
fn inits(alloc: Global) -> Result<Inits, AllocError> {
    let declarator = nothing(alloc)?;
    Inits::new(alloc).with(Init {
        declarator,
        value: Some(braces(alloc)?),
    })
}

/// `for (..;;) ;` with a declaration.
fn repeated(alloc: Global) -> Result<Statement, AllocError> {
    let first = ForFirst::new(
        alloc,
        ForFirstNode::Declaration(void(alloc)?, inits(alloc)?),
    )?;
    let body = Statement::new(alloc, StatementNode::Empty)?;
    Statement::new(alloc, StatementNode::For(first, None, None, body))
}

/// The members of a structure.
fn members(alloc: Global) -> Result<Members, AllocError> {
    let tag = Bytes::new(Vec::new(alloc));
    Members::new(alloc).with(Piece::Opens(tag))
}

#[test]
fn expressions_and_declarators(rt: HostRuntime) -> Result<(), Fail> {
    let alloc = rt.alloc();
    let three = sum(alloc, sum(alloc, seven(alloc)?)?)?;
    assert_eq!(rt; three.height(), 3);
    let args = Args::new(alloc).with(three)?;
    assert_eq!(rt; args.height(), 3);
    let parameters = Parameters::new(alloc).with(void(alloc)?, nothing(alloc)?)?;
    assert_eq!(rt; parameters.items().len(), 1);
    let declarators = Declarators::new(alloc).with(nothing(alloc)?)?;
    assert_eq!(rt; declarators.height(), 0);
    Ok(())
}

#[test]
fn statements_and_units(rt: HostRuntime) -> Result<(), Fail> {
    let alloc = rt.alloc();
    let block = Block::new(alloc).with(Item::Statement(repeated(alloc)?))?;
    assert_eq!(rt; block.height(), 3);
    let unit = Unit::new(alloc).with(External {
        at: 0,
        specifier: OuterSpecifier::Struct(Bytes::new(Vec::new(alloc)), members(alloc)?),
        form: ExternalForm::Function(nothing(alloc)?, block),
    })?;
    assert_eq!(rt; unit.height(), 4);
    Ok(())
}
