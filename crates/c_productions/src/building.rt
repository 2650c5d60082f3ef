//! What is built of a production's parts, the latest of which is taken first.

ghost use Rattle.std.specs.Prelude.{◌≡◌, ◌∷◌, IfOk};
ghost use Rattle.c_productions.specs.refinement.Table.{argument_of, build, element_of, else_of, enum_value_of, init_value_of, item_of, member_declarator_of, member_head_of, member_specifier_of, next_init_of, opened_of, parameter_of, returned, sized_of, sizeof_of};
ghost use Rattle.c_productions.specs.refinement.Built.{AreInits};

use crate::frame::{Parts, unexpected};
use crate::kind::Production;
use crate::value::{Holder, Value};
use c_token::Bytes;
use c_tree::{
    Block, Core, Declarator, DeclaratorNode, Declarators, Enumerator, Expr, ExprNode, ForFirst,
    ForFirstNode, Infix, Init, Initialiser, InitialiserNode, Inits, Item, MemberHead, Parameters,
    Piece, Statement, StatementNode, UnaryOp, above,
};
use std::alloc::{AllocError, Global};

/// An operator in front of its operand.
fn unary(alloc: Global, parts: &mut Parts, op: UnaryOp) -> Result<Value, AllocError>
    ensures { IfOk result (λ v. v ≡ build (Production.Unary op) parts.old) }
{
    let e = parts.expr()?;
    let whole = Expr::new(alloc, ExprNode::Unary(op, e))?;
    Ok(Value::Expr(whole))
}

/// `sizeof` with its operand.
fn sizeof_operand(alloc: Global, parts: &mut Parts) -> Result<Value, AllocError>
    ensures { IfOk result (λ v. v ≡ build Production.Sizeof parts.old) }
{
    match parts.last()? {
        Value::Expr(e) => {
            let whole = Expr::new(alloc, ExprNode::Unary(UnaryOp::SizeOf, e))?;
            Ok(Value::Expr(whole))
        }
        Value::TypeName(s, d) => {
            let whole = Expr::new(alloc, ExprNode::SizeOfType(s, d))?;
            Ok(Value::Expr(whole))
        }
        other => Err(unexpected(other)),
    }
}

/// A cast.
fn cast(alloc: Global, parts: &mut Parts) -> Result<Value, AllocError>
    ensures { IfOk result (λ v. v ≡ build Production.Cast parts.old) }
{
    let e = parts.expr()?;
    let d = parts.declarator()?;
    let s = parts.specifier()?;
    let whole = Expr::new(alloc, ExprNode::Cast(s, d, e))?;
    Ok(Value::Expr(whole))
}

/// An expression in parentheses.
fn parenthesised(alloc: Global, parts: &mut Parts) -> Result<Value, AllocError>
    ensures { IfOk result (λ v. v ≡ build Production.Parenthesised parts.old) }
{
    let e = parts.expr()?;
    let whole = Expr::new(alloc, ExprNode::Paren(e))?;
    Ok(Value::Expr(whole))
}

/// The name of a type.
fn type_name(alloc: Global, parts: &mut Parts) -> Result<Value, AllocError>
    ensures { IfOk result (λ v. v ≡ build Production.TypeName parts.old) }
{
    let _ = &alloc;
    let d = parts.declarator()?;
    let s = parts.specifier()?;
    Ok(Value::TypeName(s, d))
}

/// One more argument.
fn argument(alloc: Global, parts: &mut Parts) -> Result<Value, AllocError>
    ensures { IfOk result (λ v. v ≡ build Production.Argument parts.old) }
{
    let _ = &alloc;
    let e = parts.expr()?;
    match parts.last()? {
        Value::Call(callee, args) => Ok(Value::Call(callee, args.with(e)?)),
        other => Err(unexpected(other)),
    }
}

/// Two operands.
fn between(alloc: Global, parts: &mut Parts, op: Infix) -> Result<Value, AllocError>
    ensures { IfOk result (λ v. v ≡ build (Production.Between op) parts.old) }
{
    let b = parts.expr()?;
    let a = parts.expr()?;
    let whole = Expr::new(alloc, ExprNode::Between(op, a, b))?;
    Ok(Value::Expr(whole))
}

/// A choice.
fn choice(alloc: Global, parts: &mut Parts) -> Result<Value, AllocError>
    ensures { IfOk result (λ v. v ≡ build Production.Choice parts.old) }
{
    let b = parts.expr()?;
    let a = parts.expr()?;
    let c = parts.expr()?;
    let whole = Expr::new(alloc, ExprNode::Choice(c, a, b))?;
    Ok(Value::Expr(whole))
}

/// An element of an array.
fn index(alloc: Global, parts: &mut Parts) -> Result<Value, AllocError>
    ensures { IfOk result (λ v. v ≡ build Production.Index parts.old) }
{
    let i = parts.expr()?;
    let a = parts.expr()?;
    let whole = Expr::new(alloc, ExprNode::Index(a, i))?;
    Ok(Value::Expr(whole))
}

/// A pointer's declarator.
fn pointer(alloc: Global, parts: &mut Parts, core: Core) -> Result<Value, AllocError>
    ensures { IfOk result (λ v. v ≡ build (Production.Pointer core) parts.old) }
{
    let d = parts.declarator()?;
    let whole = Declarator::new(alloc, DeclaratorNode::Pointer(d))?;
    Ok(Value::Declarator(whole))
}

/// An array's declarator with its length.
fn sized(alloc: Global, parts: &mut Parts) -> Result<Value, AllocError>
    ensures { IfOk result (λ v. v ≡ build Production.Sized parts.old) }
{
    let e = parts.expr()?;
    match parts.last()? {
        Value::Array(d) => {
            let whole = Declarator::new(alloc, DeclaratorNode::Sized(d, e))?;
            Ok(Value::Declarator(whole))
        }
        other => Err(unexpected(other)),
    }
}

/// One more parameter.
fn parameter(alloc: Global, parts: &mut Parts) -> Result<Value, AllocError>
    ensures { IfOk result (λ v. v ≡ build Production.Parameter parts.old) }
{
    let d = parts.declarator()?;
    let s = parts.specifier()?;
    match parts.last()? {
        Value::Function(of, parameters) => Ok(Value::Function(of, parameters.with(s, d)?)),
        Value::OpenDeclarator => {
            let of = Declarator::new(alloc, DeclaratorNode::Nothing)?;
            let parameters = Parameters::new(alloc).with(s, d)?;
            Ok(Value::Function(of, parameters))
        }
        other => Err(unexpected(other)),
    }
}

/// A declarator in parentheses.
fn wrap(alloc: Global, parts: &mut Parts, core: Core) -> Result<Value, AllocError>
    ensures { IfOk result (λ v. v ≡ build (Production.Wrap core) parts.old) }
{
    let d = parts.declarator()?;
    let whole = Declarator::new(alloc, DeclaratorNode::Wrapped(d))?;
    Ok(Value::Declarator(whole))
}

/// An initializer that is an expression.
fn single(alloc: Global, parts: &mut Parts) -> Result<Value, AllocError>
    ensures { IfOk result (λ v. v ≡ build Production.Single parts.old) }
{
    let e = parts.expr()?;
    let whole = Initialiser::new(alloc, InitialiserNode::Single(e))?;
    Ok(Value::Initialiser(whole))
}

/// One more initializer in braces.
fn element(alloc: Global, parts: &mut Parts) -> Result<Value, AllocError>
    ensures { IfOk result (λ v. v ≡ build Production.Element parts.old) }
{
    let _ = &alloc;
    let v = parts.initialiser()?;
    match parts.last()? {
        Value::Braces(values, _) => Ok(Value::Braces(values.with(v)?, false)),
        other => Err(unexpected(other)),
    }
}

/// The first declarator of a declaration.
fn first_init(alloc: Global, parts: &mut Parts) -> Result<Value, AllocError>
    ensures { IfOk result (λ v. v ≡ build Production.FirstInit parts.old) }
{
    let declarator = parts.declarator()?;
    let last = Init {
        declarator,
        value: None,
    };
    Ok(Value::Inits(Inits::new(alloc), last))
}

/// The initializer of the last declarator.
fn init_value(alloc: Global, parts: &mut Parts) -> Result<Value, AllocError>
    ensures { IfOk result (λ v. v ≡ build Production.InitValue parts.old) }
{
    let _ = &alloc;
    let v = parts.initialiser()?;
    match parts.last()? {
        Value::Inits(inits, last) => {
            let last = Init {
                declarator: last.declarator,
                value: Some(v),
            };
            Ok(Value::Inits(inits, last))
        }
        other => Err(unexpected(other)),
    }
}

/// The next declarator of a declaration.
fn next_init(alloc: Global, parts: &mut Parts) -> Result<Value, AllocError>
    ensures { IfOk result (λ v. v ≡ build Production.NextInit parts.old) }
{
    let _ = &alloc;
    let declarator = parts.declarator()?;
    match parts.last()? {
        Value::Inits(inits, last) => {
            let inits = inits.with(last)?;
            let last = Init {
                declarator,
                value: None,
            };
            Ok(Value::Inits(inits, last))
        }
        other => Err(unexpected(other)),
    }
}

/// An `if` without an `else` so far.
fn condition(alloc: Global, parts: &mut Parts) -> Result<Value, AllocError>
    ensures { IfOk result (λ v. v ≡ build Production.If parts.old) }
{
    let _ = &alloc;
    let a = parts.statement()?;
    let c = parts.expr()?;
    Ok(Value::If(c, a))
}

/// A `while`.
fn repetition(alloc: Global, parts: &mut Parts) -> Result<Value, AllocError>
    ensures { IfOk result (λ v. v ≡ build Production.While parts.old) }
{
    let s = parts.statement()?;
    let c = parts.expr()?;
    let whole = Statement::new(alloc, StatementNode::While(c, s))?;
    Ok(Value::Statement(whole))
}

/// A `do`.
fn do_loop(alloc: Global, parts: &mut Parts) -> Result<Value, AllocError>
    ensures { IfOk result (λ v. v ≡ build Production.Do parts.old) }
{
    let c = parts.expr()?;
    let s = parts.statement()?;
    let whole = Statement::new(alloc, StatementNode::DoWhile(s, c))?;
    Ok(Value::Statement(whole))
}

/// A `switch` without items so far.
fn switch(alloc: Global, parts: &mut Parts) -> Result<Value, AllocError>
    ensures { IfOk result (λ v. v ≡ build Production.Switch parts.old) }
{
    let e = parts.expr()?;
    Ok(Value::Items(Holder::Switch(e), Block::new(alloc)))
}

/// A `for`.
fn for_loop(alloc: Global, parts: &mut Parts) -> Result<Value, AllocError>
    ensures { IfOk result (λ v. v ≡ build Production.For parts.old) }
{
    let s = parts.statement()?;
    let b = parts.step()?;
    let c = parts.test()?;
    let a = parts.for_first()?;
    let whole = Statement::new(alloc, StatementNode::For(a, c, b, s))?;
    Ok(Value::Statement(whole))
}

/// A `return`.
fn returned(alloc: Global, parts: &mut Parts) -> Result<Value, AllocError>
    ensures { IfOk result (λ v. v ≡ build Production.Return parts.old) }
{
    let node = match parts.test()? {
        None => StatementNode::ReturnNone,
        Some(e) => StatementNode::ReturnValue(e),
    };
    let whole = Statement::new(alloc, node)?;
    Ok(Value::Statement(whole))
}

/// An expression and a semicolon.
fn plain(alloc: Global, parts: &mut Parts) -> Result<Value, AllocError>
    ensures { IfOk result (λ v. v ≡ build Production.Plain parts.old) }
{
    let e = parts.expr()?;
    let whole = Statement::new(alloc, StatementNode::Plain(e))?;
    Ok(Value::Statement(whole))
}

/// An `if` with its `else`.
fn alternative(alloc: Global, parts: &mut Parts) -> Result<Value, AllocError>
    ensures { IfOk result (λ v. v ≡ build Production.Else parts.old) }
{
    let b = parts.statement()?;
    match parts.last()? {
        Value::If(c, a) => {
            let whole = Statement::new(alloc, StatementNode::IfElse(c, a, b))?;
            Ok(Value::Statement(whole))
        }
        other => Err(unexpected(other)),
    }
}

/// A block with one more item.
fn with_item(parts: &mut Parts, item: Item) -> Result<Value, AllocError>
    ensures { IfOk result (λ v. v ≡ item_of item parts.old) }
{
    match parts.last()? {
        Value::Items(holder, block) => Ok(Value::Items(holder, block.with(item)?)),
        other => Err(unexpected(other)),
    }
}

/// One more statement in a block.
fn item(alloc: Global, parts: &mut Parts) -> Result<Value, AllocError>
    ensures { IfOk result (λ v. v ≡ build Production.Item parts.old) }
{
    let _ = &alloc;
    let s = parts.statement()?;
    with_item(parts, Item::Statement(s))
}

/// The declarators of a declaration.
fn all_inits(parts: &mut Parts) -> Result<Inits, AllocError>
    ensures { IfOk result (λ xs. AreInits parts.old xs parts.new) }
{
    match parts.last()? {
        Value::Inits(inits, last) => inits.with(last),
        other => Err(unexpected(other)),
    }
}

/// One more declaration in a block.
fn declaration(alloc: Global, parts: &mut Parts) -> Result<Value, AllocError>
    ensures { IfOk result (λ v. v ≡ build Production.Declaration parts.old) }
{
    let _ = &alloc;
    let xs = all_inits(parts)?;
    let s = parts.specifier()?;
    with_item(parts, Item::Declaration(s, xs))
}

/// A `case`.
fn case(alloc: Global, parts: &mut Parts) -> Result<Value, AllocError>
    ensures { IfOk result (λ v. v ≡ build Production.Case parts.old) }
{
    let _ = &alloc;
    let e = parts.expr()?;
    with_item(parts, Item::Case(e))
}

/// A `default`.
fn default(alloc: Global, parts: &mut Parts) -> Result<Value, AllocError>
    ensures { IfOk result (λ v. v ≡ build Production.Default parts.old) }
{
    let _ = &alloc;
    with_item(parts, Item::Default)
}

/// A declaration that stands first in a `for`.
fn for_declaration(alloc: Global, parts: &mut Parts) -> Result<Value, AllocError>
    ensures { IfOk result (λ v. v ≡ build Production.ForDeclaration parts.old) }
{
    let xs = all_inits(parts)?;
    let s = parts.specifier()?;
    let whole = ForFirst::new(alloc, ForFirstNode::Declaration(s, xs))?;
    Ok(Value::ForFirst(whole))
}

/// An expression that stands first in a `for`.
fn for_expr(alloc: Global, parts: &mut Parts) -> Result<Value, AllocError>
    ensures { IfOk result (λ v. v ≡ build Production.ForExpr parts.old) }
{
    let e = parts.expr()?;
    let whole = ForFirst::new(alloc, ForFirstNode::Expr(e))?;
    Ok(Value::ForFirst(whole))
}

/// An expression and a semicolon in a `for` or `return`.
fn test_expr(alloc: Global, parts: &mut Parts) -> Result<Value, AllocError>
    ensures { IfOk result (λ v. v ≡ build Production.TestExpr parts.old) }
{
    let _ = &alloc;
    let e = parts.expr()?;
    Ok(Value::Test(Some(e)))
}

/// An expression and a closing parenthesis in a `for`.
fn step_expr(alloc: Global, parts: &mut Parts) -> Result<Value, AllocError>
    ensures { IfOk result (λ v. v ≡ build Production.StepExpr parts.old) }
{
    let _ = &alloc;
    let e = parts.expr()?;
    Ok(Value::Step(Some(e)))
}

/// The value of the last enumerator.
fn enum_value(alloc: Global, parts: &mut Parts) -> Result<Value, AllocError>
    ensures { IfOk result (λ v. v ≡ build Production.EnumValue parts.old) }
{
    let _ = &alloc;
    let e = parts.expr()?;
    match parts.last()? {
        Value::Enumerators(tag, enumerators, last) => match last {
            Some(last) => {
                let last = Enumerator {
                    name: last.name,
                    value: Some(e),
                };
                Ok(Value::Enumerators(tag, enumerators, Some(last)))
            }
            None => Err(AllocError),
        },
        other => Err(unexpected(other)),
    }
}

/// A member that begins so.
fn member_head(alloc: Global, parts: &mut Parts, head: MemberHead) -> Result<Value, AllocError>
    ensures { IfOk result (λ v. v ≡ member_head_of head parts.old) }
{
    match parts.last()? {
        Value::Members(tag, members, depth, _) => Ok(Value::Member(
            tag,
            members,
            depth,
            head,
            Declarators::new(alloc),
        )),
        other => Err(unexpected(other)),
    }
}

/// A structure in which another one is opened.
fn opened(parts: &mut Parts, inner: Bytes) -> Result<Value, AllocError>
    ensures { IfOk result (λ v. v ≡ opened_of inner parts.old) }
{
    match parts.last()? {
        Value::Members(tag, members, depth, _) => {
            let members = members.with(Piece::Opens(inner))?;
            Ok(Value::Members(tag, members, above(depth)?, false))
        }
        other => Err(unexpected(other)),
    }
}

/// The specifier of a structure's next member.
fn member_specifier(alloc: Global, parts: &mut Parts) -> Result<Value, AllocError>
    ensures { IfOk result (λ v. v ≡ build Production.MemberSpecifier parts.old) }
{
    match parts.last()? {
        Value::Specifier(s) => member_head(alloc, parts, MemberHead::Specifier(s)),
        Value::Enum(tag, enumerators, comma) => {
            member_head(alloc, parts, MemberHead::Enum(tag, enumerators, comma))
        }
        Value::Opens(tag) => opened(parts, tag),
        other => Err(unexpected(other)),
    }
}

/// One more declarator of a member.
fn member_declarator(alloc: Global, parts: &mut Parts) -> Result<Value, AllocError>
    ensures { IfOk result (λ v. v ≡ build Production.MemberDeclarator parts.old) }
{
    let _ = &alloc;
    let d = parts.declarator()?;
    match parts.last()? {
        Value::Member(tag, members, depth, head, declarators) => {
            let declarators = declarators.with(d)?;
            Ok(Value::Member(tag, members, depth, head, declarators))
        }
        other => Err(unexpected(other)),
    }
}

/// An external declaration.
fn external(alloc: Global, parts: &mut Parts) -> Result<Value, AllocError>
    ensures { IfOk result (λ v. v ≡ build Production.External parts.old) }
{
    let _ = &alloc;
    let form = parts.form()?;
    let outer = parts.outer()?;
    Ok(Value::External(outer, form))
}

/// What a production is with its parts.
pub fn build(alloc: Global, production: Production, parts: &mut Parts) -> Result<Value, AllocError>
    ensures { IfOk result (λ v. v ≡ build production parts.old) }
{
    match production {
        Production::Unary(op) => unary(alloc, parts, op),
        Production::Sizeof => sizeof_operand(alloc, parts),
        Production::Cast => cast(alloc, parts),
        Production::Parenthesised => parenthesised(alloc, parts),
        Production::TypeName => type_name(alloc, parts),
        Production::Argument => argument(alloc, parts),
        Production::Between(op) => between(alloc, parts, op),
        Production::Choice => choice(alloc, parts),
        Production::Index => index(alloc, parts),
        Production::Pointer(core) => pointer(alloc, parts, core),
        Production::Sized => sized(alloc, parts),
        Production::Parameter => parameter(alloc, parts),
        Production::Wrap(core) => wrap(alloc, parts, core),
        Production::Single => single(alloc, parts),
        Production::Element => element(alloc, parts),
        Production::FirstInit => first_init(alloc, parts),
        Production::InitValue => init_value(alloc, parts),
        Production::NextInit => next_init(alloc, parts),
        Production::If => condition(alloc, parts),
        Production::While => repetition(alloc, parts),
        Production::Do => do_loop(alloc, parts),
        Production::For => for_loop(alloc, parts),
        Production::Switch => switch(alloc, parts),
        Production::Return => returned(alloc, parts),
        Production::Plain => plain(alloc, parts),
        Production::Else => alternative(alloc, parts),
        Production::Item => item(alloc, parts),
        Production::Declaration => declaration(alloc, parts),
        Production::Case => case(alloc, parts),
        Production::Default => default(alloc, parts),
        Production::ForDeclaration => for_declaration(alloc, parts),
        Production::ForExpr => for_expr(alloc, parts),
        Production::TestExpr => test_expr(alloc, parts),
        Production::StepExpr => step_expr(alloc, parts),
        Production::EnumValue => enum_value(alloc, parts),
        Production::MemberSpecifier => member_specifier(alloc, parts),
        Production::MemberDeclarator => member_declarator(alloc, parts),
        Production::External => external(alloc, parts),
    }
}
