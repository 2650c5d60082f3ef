//! The typing of an expression (C11, 6.5).

ghost use Rattle.std.specs.Prelude.{◌≡◌, [], IfOk};
ghost use Rattle.c_types.specs.Types.{function, type_of};
ghost use Rattle.c_types.specs.refinement.Views.{types_in};
ghost use Rattle.c_typed.specs.refinement.Views.{expr_of};
ghost use Rattle.c_tree.specs.Tree as tree;
ghost use Rattle.c_check_types.specs.TypeEquality.{tys_of};
ghost use Rattle.c_check_types.specs.declared.operators.Operator.TheVariants.{And, Equality, Or};
ghost use Rattle.c_check_types.specs.refinement.Views.{Obeys, state_of};
ghost use Rattle.c_typed.specs.refinement.FormViews.{boxed_expr, form_of, integer_pair, place_pair, value_pair};
ghost use Rattle.c_check_exprs.specs.Expressions as words;
ghost use Rattle.c_check_exprs.specs.refinement.Views.{exprs_in};

use crate::assign::{assign_operator, assigning, step_operator, stepped};
use crate::call::{allocating, call_of, cast, freeing, putting};
use crate::member::{element, member};
use crate::name::{name_form, number};
use crate::unary::{address, deref, not, plus, signed, size, sized};
use c_check_types::{
    Checker, LibraryName, Operator, Stop, character_bits, constant_bits, constant_type, library,
    operator_of,
};
use c_conversions::{
    as_place, assigned_to, condition_of, integer_of, operand, pointer_of, thrown_away, value_of,
};
use c_operators::{choice, equality, minus, order, sum};
use c_tree::{Args, Expr as Written, ExprNode, Infix};
use c_typed::{Amount, Expr, Form, Made, Place, RelOp, Sized, UnaryOp, arithmetic, boxed, shift};
use c_types::{CType, IntType, Signature};
use std::alloc::{AllocError, Global};
use std::mem;
use std::rc::Rc;

/// What an expression is (C11, 6.5). Its conversions, decays, readings and tests are nodes.
#[cycle(typing)]
pub fn typing<'a>(checker: &mut Checker<'a>, e: &'a Written) -> Result<Form<'a>, Stop>
    ensures { Obeys form_of (words.typing e.now) (state_of checker.old) (state_of checker.new) result }
{
    match e.node() {
        ExprNode::Name(n) => name_form(checker, n.as_slice()),
        ExprNode::Integer(n, t) => {
            let t = constant_type(*t);
            Ok(constant_form(checker.alloc, constant_bits(t, *n), t)?)
        }
        ExprNode::Character(c) => Ok(number(checker.alloc, character_bits(*c), IntType::Int)?),
        ExprNode::String(bytes) => Ok(Form::Text(bytes.as_slice())),
        ExprNode::Paren(e) => typing(checker, e),
        ExprNode::Index(a, i) => {
            let p = typed_pointer(checker, a)?;
            let j = typed_integer(checker, i)?;
            element(checker, p, j)
        }
        ExprNode::Call(f, es) => call(checker, f, es),
        ExprNode::Member(op, e, n) => {
            let x = typing(checker, e)?;
            member(checker, *op, x, n.as_slice())
        }
        ExprNode::After(op, e) => step(checker, true, step_operator(*op), e),
        ExprNode::Unary(op, e) => unary(checker, *op, e),
        ExprNode::SizeOfType(s, d) => {
            let t = checker.type_name(s, d)?;
            let n = checker.size_of(&t)?;
            Ok(sized(checker.alloc, n as u32, Sized::Nothing)?)
        }
        ExprNode::Cast(s, d, e) => {
            let t = checker.type_name(s, d)?;
            let x = typing(checker, e)?;
            cast(checker, t, x)
        }
        ExprNode::Between(op, a, b) => between(checker, *op, a, b),
        ExprNode::Choice(c, a, b) => choosing(checker, c, a, b),
    }
}

/// The form of an integer constant: 0 is a null constant, too (C11, 6.3.2.3).
fn constant_form<'a>(alloc: Global, n: u64, t: IntType) -> Result<Form<'a>, AllocError>
    ensures { IfOk result (λ f. form_of f ≡ words.constant_form n t) }
{
    if n == 0 {
        Ok(Form::Zero(t))
    } else {
        number(alloc, n, t)
    }
}

/// An expression as an operand: a value, the constant 0 or NULL.
#[cycle(typing)]
fn typed_operand<'a>(checker: &mut Checker<'a>, e: &'a Written) -> Result<Form<'a>, Stop>
    ensures { Obeys form_of (words.an_operand (words.typing e.now)) (state_of checker.old) (state_of checker.new) result }
{
    let x = typing(checker, e)?;
    operand(checker, x)
}

/// An expression as a value, with its type.
#[cycle(typing)]
fn typed_value<'a>(checker: &mut Checker<'a>, e: &'a Written) -> Result<(Box<Expr>, CType), Stop>
    ensures { Obeys value_pair (words.a_value (words.typing e.now)) (state_of checker.old) (state_of checker.new) result }
{
    let x = typing(checker, e)?;
    value_of(checker, x)
}

/// An expression as an integer, with its type.
#[cycle(typing)]
pub fn typed_integer<'a>(
    checker: &mut Checker<'a>,
    e: &'a Written,
) -> Result<(Box<Expr>, IntType), Stop>
    ensures { Obeys integer_pair (words.an_integer (words.typing e.now)) (state_of checker.old) (state_of checker.new) result }
{
    let x = typing(checker, e)?;
    integer_of(checker, x)
}

/// An expression as a pointer, with what it leads to.
#[cycle(typing)]
fn typed_pointer<'a>(checker: &mut Checker<'a>, e: &'a Written) -> Result<(Box<Expr>, CType), Stop>
    ensures { Obeys value_pair (words.a_pointer (words.typing e.now)) (state_of checker.old) (state_of checker.new) result }
{
    let x = typing(checker, e)?;
    pointer_of(checker, x)
}

/// An expression as a place, with its type.
#[cycle(typing)]
pub fn typed_place<'a>(
    checker: &mut Checker<'a>,
    e: &'a Written,
) -> Result<(Box<Place>, CType), Stop>
    ensures { Obeys place_pair (words.a_place (words.typing e.now)) (state_of checker.old) (state_of checker.new) result }
{
    let x = typing(checker, e)?;
    as_place(x)
}

/// An expression as a condition (C11, 6.8.4.1).
#[cycle(typing)]
pub fn typed_condition<'a>(checker: &mut Checker<'a>, e: &'a Written) -> Result<Box<Expr>, Stop>
    ensures { Obeys boxed_expr (words.a_condition (words.typing e.now)) (state_of checker.old) (state_of checker.new) result }
{
    let x = typing(checker, e)?;
    condition_of(checker, x)
}

/// An expression whose value is thrown away (C11, 6.3.2.2).
#[cycle(typing)]
pub fn performed<'a>(checker: &mut Checker<'a>, e: &'a Written) -> Result<Box<Expr>, Stop>
    ensures { Obeys boxed_expr (words.performed (words.typing e.now)) (state_of checker.old) (state_of checker.new) result }
{
    let x = typing(checker, e)?;
    thrown_away(checker, x)
}

/// An expression as a type, as if by assignment (C11, 6.5.16.1).
#[cycle(typing)]
pub fn typed_as<'a>(checker: &mut Checker<'a>, e: &'a Written, t: &CType) -> Result<Box<Expr>, Stop>
    ensures { Obeys boxed_expr (words.as_assigned (type_of t.now) (words.typing e.now)) (state_of checker.old) (state_of checker.new) result }
{
    let x = typing(checker, e)?;
    assigned_to(checker, t, x)
}

/// `++` or `--`, on either side (C11, 6.5.2.4 and 6.5.3.1); whether it gives the old value.
#[cycle(typing)]
fn step<'a>(
    checker: &mut Checker<'a>,
    old: bool,
    op: Operator,
    e: &'a Written,
) -> Result<Form<'a>, Stop>
    ensures { Obeys form_of (words.a_step old op (words.typing e.now)) (state_of checker.old) (state_of checker.new) result }
{
    let x = typing(checker, e)?;
    stepped(checker, old, op, x)
}

/// What stands between two operands (C11, 6.5.5 to 6.5.14, 6.5.16 and 6.5.17).
#[cycle(typing)]
fn between<'a>(
    checker: &mut Checker<'a>,
    op: Infix,
    a: &'a Written,
    b: &'a Written,
) -> Result<Form<'a>, Stop>
    ensures { Obeys form_of (words.typing (tree.between op a.now b.now)) (state_of checker.old) (state_of checker.new) result }
{
    match op {
        Infix::Comma => {
            let e = performed(checker, a)?;
            let (v, t) = typed_value(checker, b)?;
            let e = boxed(checker.alloc, Expr::Comma(e, v))?;
            Ok(Form::Value(e, t))
        }
        Infix::Assign(op) => {
            let p = typed_place(checker, a)?;
            let y = typing(checker, b)?;
            assigning(checker, assign_operator(op), p, y)
        }
        Infix::Binary(op) => {
            let x = typing(checker, a)?;
            operating(checker, operator_of(op), x, b)
        }
    }
}

/// `c ? a : b` (C11, 6.5.15).
#[cycle(typing)]
fn choosing<'a>(
    checker: &mut Checker<'a>,
    c: &'a Written,
    a: &'a Written,
    b: &'a Written,
) -> Result<Form<'a>, Stop>
    ensures { Obeys form_of (words.typing (tree.choice c.now a.now b.now)) (state_of checker.old) (state_of checker.new) result }
{
    let test = typed_condition(checker, c)?;
    let u = typed_operand(checker, a)?;
    let v = typed_operand(checker, b)?;
    choice(checker.alloc, test, u, v)
}

/// An operator before its operand (C11, 6.5.3).
#[cycle(typing)]
fn unary<'a>(
    checker: &mut Checker<'a>,
    op: c_tree::UnaryOp,
    e: &'a Written,
) -> Result<Form<'a>, Stop>
    ensures { Obeys form_of (words.typing (tree.unary op e.now)) (state_of checker.old) (state_of checker.new) result }
{
    match op {
        c_tree::UnaryOp::AddressOf => {
            let x = typing(checker, e)?;
            address(checker, x)
        }
        c_tree::UnaryOp::Deref => {
            let x = typing(checker, e)?;
            deref(checker, x)
        }
        c_tree::UnaryOp::Plus => {
            let x = typing(checker, e)?;
            plus(checker, x)
        }
        c_tree::UnaryOp::Minus => {
            let x = typing(checker, e)?;
            signed(checker, UnaryOp::Negate, x)
        }
        c_tree::UnaryOp::Complement => {
            let x = typing(checker, e)?;
            signed(checker, UnaryOp::Complement, x)
        }
        c_tree::UnaryOp::Not => {
            let x = typing(checker, e)?;
            not(checker, x)
        }
        c_tree::UnaryOp::Increment => step(checker, false, Operator::Plus, e),
        c_tree::UnaryOp::Decrement => step(checker, false, Operator::Minus, e),
        c_tree::UnaryOp::SizeOf => size_of(checker, e),
    }
}

/// `sizeof e`: what is made in it is forgotten (C11, 6.5.3.4).
#[cycle(typing)]
fn size_of<'a>(checker: &mut Checker<'a>, e: &'a Written) -> Result<Form<'a>, Stop>
    ensures { Obeys form_of (words.unevaluated (words.size_of_value (words.typing e.now))) (state_of checker.old) (state_of checker.new) result }
{
    let literals = checker.literals;
    let made = mem::replace(&mut checker.made, Vec::new(checker.alloc));
    checker.literals = 0;
    let x = typing(checker, e)?;
    let f = size(checker, x)?;
    checker.made = made;
    checker.literals = literals;
    Ok(f)
}

/// An operator between two operands, the left one first (C11, 6.5.5 to 6.5.14).
#[cycle(typing)]
fn operating<'a>(
    checker: &mut Checker<'a>,
    op: Operator,
    x: Form<'a>,
    b: &'a Written,
) -> Result<Form<'a>, Stop>
    ensures { Obeys form_of (words.operating op (form_of x.entry) (words.typing b.now)) (state_of checker.old) (state_of checker.new) result }
{
    match op {
        Operator::And => both(checker, x, b),
        Operator::Or => either(checker, x, b),
        Operator::Equality(op) => equal(checker, op, x, b),
        Operator::Order(op) => {
            let u = value_of(checker, x)?;
            let v = typed_value(checker, b)?;
            order(checker.alloc, op, u, v)
        }
        Operator::Arithmetic(op) => {
            let u = integer_of(checker, x)?;
            let v = typed_integer(checker, b)?;
            Ok(arithmetic(checker.alloc, op, u, v)?)
        }
        Operator::Shift(op) => {
            let u = integer_of(checker, x)?;
            let v = typed_integer(checker, b)?;
            Ok(shift(checker.alloc, op, u, v)?)
        }
        Operator::Plus => {
            let u = value_of(checker, x)?;
            let v = typed_value(checker, b)?;
            sum(checker, u, v)
        }
        Operator::Minus => {
            let u = value_of(checker, x)?;
            let v = typed_value(checker, b)?;
            minus(checker, u, v)
        }
    }
}

/// `x && b` (C11, 6.5.13).
#[cycle(typing)]
fn both<'a>(checker: &mut Checker<'a>, x: Form<'a>, b: &'a Written) -> Result<Form<'a>, Stop>
    ensures { Obeys form_of (words.operating And (form_of x.entry) (words.typing b.now)) (state_of checker.old) (state_of checker.new) result }
{
    let c = condition_of(checker, x)?;
    let d = typed_condition(checker, b)?;
    let e = boxed(checker.alloc, Expr::And(c, d))?;
    Ok(Form::Value(e, CType::Int(IntType::Int)))
}

/// `x || b` (C11, 6.5.14).
#[cycle(typing)]
fn either<'a>(checker: &mut Checker<'a>, x: Form<'a>, b: &'a Written) -> Result<Form<'a>, Stop>
    ensures { Obeys form_of (words.operating Or (form_of x.entry) (words.typing b.now)) (state_of checker.old) (state_of checker.new) result }
{
    let c = condition_of(checker, x)?;
    let d = typed_condition(checker, b)?;
    let e = boxed(checker.alloc, Expr::Or(c, d))?;
    Ok(Form::Value(e, CType::Int(IntType::Int)))
}

/// `x == b` and `x != b` (C11, 6.5.9).
#[cycle(typing)]
fn equal<'a>(
    checker: &mut Checker<'a>,
    op: RelOp,
    x: Form<'a>,
    b: &'a Written,
) -> Result<Form<'a>, Stop>
    ensures { Obeys form_of (words.operating (Equality op) (form_of x.entry) (words.typing b.now)) (state_of checker.old) (state_of checker.new) result }
{
    let u = operand(checker, x)?;
    let v = typed_operand(checker, b)?;
    equality(checker.alloc, op, u, v)
}

/// The library's function that a call names, if it does.
fn called_library(f: &Written) -> Option<LibraryName>
    ensures { result ≡ words.called_library f.now }
{
    match f.node() {
        ExprNode::Name(n) => library(n.as_slice()),
        ExprNode::Integer(_, _) => None,
        ExprNode::Character(_) => None,
        ExprNode::String(_) => None,
        ExprNode::Paren(_) => None,
        ExprNode::Index(_, _) => None,
        ExprNode::Call(_, _) => None,
        ExprNode::Member(_, _, _) => None,
        ExprNode::After(_, _) => None,
        ExprNode::Unary(_, _) => None,
        ExprNode::SizeOfType(_, _) => None,
        ExprNode::Cast(_, _, _) => None,
        ExprNode::Between(_, _, _) => None,
        ExprNode::Choice(_, _, _) => None,
    }
}

/// A call: of the library, or of a function or a pointer to one (C11, 6.5.2.2).
#[cycle(typing)]
fn call<'a>(checker: &mut Checker<'a>, f: &'a Written, es: &'a Args) -> Result<Form<'a>, Stop>
    ensures { Obeys form_of (words.typing (tree.call f.now es.now)) (state_of checker.old) (state_of checker.new) result }
{
    match called_library(f) {
        Some(l) => library_call(checker, l, es),
        None => {
            let (e, t) = typed_pointer(checker, f)?;
            called(checker, e, t, es)
        }
    }
}

/// Whether there are no arguments.
#[tactic(auto, using(crate::proofs::Lists::none_if_empty))]
fn has_no_arguments(es: &Args) -> bool
    ensures { result ≡ words.no_arguments es.now }
{
    es.items().is_empty()
}

/// A call of the library.
#[cycle(typing)]
fn library_call<'a>(
    checker: &mut Checker<'a>,
    l: LibraryName,
    es: &'a Args,
) -> Result<Form<'a>, Stop>
    ensures { Obeys form_of (words.library_call l es.now (words.sole es.now) (words.factors es.now)) (state_of checker.old) (state_of checker.new) result }
{
    match l {
        LibraryName::Putchar => {
            let x = sole(checker, es)?;
            putting(checker, x)
        }
        LibraryName::Getchar => {
            if has_no_arguments(es) {
                let e = boxed(checker.alloc, Expr::Getchar)?;
                Ok(Form::Value(e, CType::Int(IntType::Int)))
            } else {
                Err(Stop::NoTyping)
            }
        }
        LibraryName::Abort => {
            if has_no_arguments(es) {
                let e = boxed(checker.alloc, Expr::Abort)?;
                Ok(Form::Value(e, CType::Void))
            } else {
                Err(Stop::NoTyping)
            }
        }
        LibraryName::Malloc => {
            let x = sole(checker, es)?;
            allocating(checker, x)
        }
        LibraryName::Calloc => factors(checker, es),
        LibraryName::Free => {
            let x = sole(checker, es)?;
            freeing(checker, x)
        }
        LibraryName::Null => Err(Stop::NoTyping),
        LibraryName::Eof => Err(Stop::NoTyping),
    }
}

/// The sole argument.
#[cycle(typing)]
fn sole<'a>(checker: &mut Checker<'a>, es: &'a Args) -> Result<Form<'a>, Stop>
    ensures { Obeys form_of (words.sole es.now) (state_of checker.old) (state_of checker.new) result }
{
    let items = es.items();
    if items.len() != 1 {
        return Err(Stop::NoTyping);
    }
    let e = &items[0];
    typing(checker, e)
}

/// The two arguments of calloc.
#[cycle(typing)]
fn factors<'a>(checker: &mut Checker<'a>, es: &'a Args) -> Result<Form<'a>, Stop>
    ensures { Obeys form_of (words.factors es.now) (state_of checker.old) (state_of checker.new) result }
{
    let items = es.items();
    if items.len() != 2 {
        return Err(Stop::NoTyping);
    }
    let a = &items[0];
    let b = &items[1];
    multiplying(checker, a, b)
}

/// `calloc(a, b)`, whose type is to come.
#[cycle(typing)]
fn multiplying<'a>(
    checker: &mut Checker<'a>,
    a: &'a Written,
    b: &'a Written,
) -> Result<Form<'a>, Stop>
    ensures { Obeys form_of (words.multiplying (words.typing a.now) (words.typing b.now)) (state_of checker.old) (state_of checker.new) result }
{
    let t = CType::Int(IntType::UnsignedInt);
    let n = typed_as(checker, a, &t)?;
    let e = typed_as(checker, b, &t)?;
    Ok(Form::Allocation(Amount::Product(n, e)))
}

/// A call of what a pointer leads to.
#[cycle(typing)]
fn called<'a>(
    checker: &mut Checker<'a>,
    e: Box<Expr>,
    t: CType,
    es: &'a Args,
) -> Result<Form<'a>, Stop>
    ensures { Obeys form_of (words.called (expr_of e.value, type_of t) (λ ts. words.arguments es.now ts [])) (state_of checker.old) (state_of checker.new) result }
{
    match t {
        CType::Function(s) => called_function(checker, e, s, es),
        CType::Void => Err(Stop::NoTyping),
        CType::Int(_) => Err(Stop::NoTyping),
        CType::Struct(_) => Err(Stop::NoTyping),
        CType::Pointer(_) => Err(Stop::NoTyping),
        CType::Array(_, _) => Err(Stop::NoTyping),
    }
}

/// A call of what a pointer to a function of this type leads to.
#[cycle(typing)]
fn called_function<'a>(
    checker: &mut Checker<'a>,
    e: Box<Expr>,
    s: Rc<Signature>,
    es: &'a Args,
) -> Result<Form<'a>, Stop>
    ensures { Obeys form_of (words.called (expr_of e.value, function (type_of s.value.result) (tys_of (types_in s.value.params.items))) (λ ts. words.arguments es.now ts [])) (state_of checker.old) (state_of checker.new) result }
{
    let vs = arguments(checker, es, s.params.as_slice())?;
    let scalar = s.result.scalar();
    let r = s.result.share()?;
    let e = call_of(checker.alloc, e, s, scalar, vs)?;
    Ok(Form::Value(e, r))
}

/// Arguments, converted to the types of parameters, as many as there are (C11, 6.5.2.2, paragraph 2).
#[cycle(typing)]
fn arguments<'a>(
    checker: &mut Checker<'a>,
    es: &'a Args,
    types: &[CType],
) -> Result<Vec<Expr>, Stop>
    ensures { Obeys (λ v. exprs_in v.items) (words.arguments es.now (tys_of (types_in types.now)) []) (state_of checker.old) (state_of checker.new) result }
{
    let items = es.items();
    let mut values = Vec::new(checker.alloc);
    if items.len() != types.len() {
        return Err(Stop::NoTyping);
    }
    for i in 0..items.len() {
        let e = &items[i];
        let t = &types[i];
        match typed_as(checker, e, t) {
            Ok(v) => values.push(Box::into_inner(v))?,
            Err(e) => return Err(e),
        }
    }
    Ok(values)
}
