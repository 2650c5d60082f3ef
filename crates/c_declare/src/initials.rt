//! What an initializer says by its form (C11, 6.7.9): addresses, strings, and the lengths of arrays.

ghost use Rattle.std.specs.Prelude.{◌≡◌, Some};
ghost use Rattle.c_types.specs.Types.{type_of};
ghost use Rattle.c_check_types.specs.refinement.Views.{Obeys, derived_of, name_of, state_of};
ghost use Rattle.c_declare.specs.Initials as words;

use c_check_types::{Checker, Derived, Stop};
use c_tree::{Expr as Written, ExprNode, Initialiser, InitialiserNode, Initialisers, UnaryOp};
use c_types::{CType, IntType, same_integer};

/// An expression without its parentheses.
pub fn bare<'a>(e: &'a Written) -> &'a Written
    ensures { result.now ≡ words.bare e.now }
{
    match e.node() {
        ExprNode::Paren(inner) => bare(inner),
        _ => e,
    }
}

/// Whether an expression is a name.
fn is_name(e: &Written) -> bool
    ensures { result ≡ words.is_name e.now }
{
    matches!(e.node(), ExprNode::Name(_))
}

/// Whether an operator takes an address.
fn takes_address(op: UnaryOp) -> bool
    ensures { result ≡ words.takes_address op }
{
    match op {
        UnaryOp::AddressOf => true,
        UnaryOp::Deref => false,
        UnaryOp::Plus => false,
        UnaryOp::Minus => false,
        UnaryOp::Complement => false,
        UnaryOp::Not => false,
        UnaryOp::Increment => false,
        UnaryOp::Decrement => false,
        UnaryOp::SizeOf => false,
    }
}

/// Whether an expression has the form of an address that is known before `main`.
pub fn is_address(e: &Written) -> bool
    ensures { result ≡ words.is_address e.now }
{
    match e.node() {
        ExprNode::Unary(op, e) => takes_address(*op) && is_name(bare(e)),
        ExprNode::Name(_) => true,
        ExprNode::String(_) => true,
        ExprNode::Integer(_, _) => true,
        _ => false,
    }
}

/// Whether an expression is an `&` and its operand.
pub fn is_reference(e: &Written) -> bool
    ensures { result ≡ words.is_reference e.now }
{
    match e.node() {
        ExprNode::Unary(op, _) => takes_address(*op),
        _ => false,
    }
}

/// Whether a type is `char`.
fn is_char(t: &CType) -> bool
    ensures { result ≡ words.is_char (type_of t.now) }
{
    match t {
        CType::Int(t) => same_integer(*t, IntType::Char),
        CType::Void => false,
        CType::Struct(_) => false,
        CType::Pointer(_) => false,
        CType::Array(_, _) => false,
        CType::Function(_) => false,
    }
}

/// The bytes of a string literal, if an expression is one.
fn string_of<'a>(e: &'a Written) -> Option<&'a [u8]>
    ensures { name_of result ≡ words.string_of e.now }
{
    match e.node() {
        ExprNode::String(bytes) => Some(bytes.as_slice()),
        _ => None,
    }
}

/// The bytes of a string that initializes an array of `char` (C11, 6.7.9, paragraph 14).
pub fn fills<'a>(t: &CType, n: u32, e: &'a Written) -> Option<&'a [u8]>
    ensures { name_of result ≡ words.fills (type_of t.now) n e.now }
{
    if !is_char(t) {
        return None;
    }
    let Some(bytes) = string_of(e) else {
        return None;
    };
    if bytes.len() <= n as usize {
        Some(bytes)
    } else {
        None
    }
}

/// How many initializers there are.
fn count(vs: &Initialisers) -> u64
    ensures { result ≡ words.count vs.now }
{
    vs.items().len() as u64
}

/// The length that an initializer gives to an array (C11, 6.7.9, paragraph 22).
fn given_length(t: &CType, v: &Option<Initialiser>) -> Option<u64>
    ensures { result ≡ words.given_length (type_of t.now) v.now }
{
    match v {
        Some(v) => length_of(t, v),
        None => None,
    }
}

/// The same of an initializer that is there.
fn length_of(t: &CType, v: &Initialiser) -> Option<u64>
    ensures { result ≡ words.given_length (type_of t.now) (Some v.now) }
{
    match v.node() {
        InitialiserNode::Braces(vs, _) => Some(count(vs)),
        InitialiserNode::Single(e) => { if is_char(t) { with_zero(e) } else { None } }
    }
}

/// The bytes of a string literal and its zero, if an expression is one.
fn with_zero(e: &Written) -> Option<u64>
    ensures { result ≡ words.with_zero (words.string_of e.now) }
{
    match string_of(e) {
        Some(bytes) => Some(bytes.len() as u64 + 1),
        None => None,
    }
}

/// The type of a variable, which has a size.
pub fn variable_type<'a>(
    checker: &mut Checker<'a>,
    d: Derived,
    v: &Option<Initialiser>,
) -> Result<CType, Stop>
    ensures { Obeys type_of (words.variable_type (derived_of d) v.now) (state_of checker.old) (state_of checker.new) result }
{
    match d {
        Derived::Whole(t) => {
            checker.size_of(&t)?;
            Ok(t)
        }
        Derived::Lengthless(t) => {
            let Some(n) = given_length(&t, v) else {
                return Err(Stop::NoTyping);
            };
            checker.array(t, n)
        }
    }
}
