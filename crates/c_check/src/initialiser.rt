//! Initializers (C11, 6.7.9), flattened to assignments of leaves.

ghost use Rattle.std.specs.Prelude.{◌≡◌, false};
ghost use Rattle.c_types.specs.Types.{integer, type_of};
ghost use Rattle.c_typed.specs.refinement.Views.{list_of, path_place};
ghost use Rattle.c_tree.specs.Tree as tree;
ghost use Rattle.c_check_types.specs.refinement.Views.{Obeys, Gives, state_of};
ghost use Rattle.c_typed.specs.refinement.FormViews.{boxed_expr, form_of, place_pair};
ghost use Rattle.c_check.specs.Initialisers as words;

use c_check_exprs::{member_type, typed_as, typed_place, typing};
use c_check_types::{Checker, Stop, same_type, value_at};
use c_conversions::pointer_from;
use c_declare::{bare, fills, is_address, is_reference};
use c_tree::{Expr as Written, Initialiser, InitialiserNode, Initialisers};
use c_typed::{Expr, Form, Path, Place, Stmt, add, assign, boxed, copy, fill};
use c_types::{CType, IntType};
use std::alloc::Global;

/// Whether a type is that of an array.
fn is_array(t: &CType) -> bool
    ensures { result ≡ words.is_array (type_of t.now) }
{
    match t {
        CType::Array(_, _) => true,
        CType::Void => false,
        CType::Int(_) => false,
        CType::Struct(_) => false,
        CType::Pointer(_) => false,
        CType::Function(_) => false,
    }
}

/// Whether a form is an address that is known before `main`.
fn names_address(f: &Form) -> bool
    ensures { result ≡ words.names_address (form_of f.now) }
{
    match f {
        Form::Place(_, t) => is_array(t),
        Form::Designator(_, _) => true,
        Form::Text(_) => true,
        Form::Zero(_) => true,
        Form::Null => true,
        Form::Value(_, _) => false,
        Form::Allocation(_) => false,
    }
}

/// Whether an expression of this form is an address that is known before `main`.
fn is_known(e: &Written, f: &Form) -> bool
    ensures { result ≡ words.is_known e.now (form_of f.now) }
{
    if is_reference(e) {
        true
    } else {
        names_address(f)
    }
}

/// A pointer at file scope (C11, 6.6, paragraph 9).
fn pointer_constant<'a>(
    checker: &mut Checker<'a>,
    t: &CType,
    e: &'a Written,
) -> Result<Box<Expr>, Stop>
    ensures { Obeys boxed_expr (words.pointer_constant (type_of t.now) e.now) (state_of checker.old) (state_of checker.new) result }
{
    if !is_address(e) {
        return Err(Stop::NoTyping);
    }
    let x = typing(checker, e)?;
    if !is_known(e, &x) {
        return Err(Stop::NoTyping);
    }
    pointer_from(checker, t, x)
}

/// An integer at file scope.
fn integer_constant<'a>(
    checker: &mut Checker<'a>,
    t: IntType,
    e: &'a Written,
) -> Result<Box<Expr>, Stop>
    ensures { Obeys boxed_expr (words.static_value (integer t) e.now) (state_of checker.old) (state_of checker.new) result }
{
    let c = checker.constant(e)?;
    let Some(n) = value_at(t, c) else {
        return Err(Stop::NoTyping);
    };
    Ok(boxed(checker.alloc, Expr::Number(t, n))?)
}

/// A value at file scope (C11, 6.7.9, paragraph 4).
fn static_value<'a>(checker: &mut Checker<'a>, t: &CType, e: &'a Written) -> Result<Box<Expr>, Stop>
    ensures { Obeys boxed_expr (words.static_value (type_of t.now) e.now) (state_of checker.old) (state_of checker.new) result }
{
    match t {
        CType::Int(t) => integer_constant(checker, *t, e),
        CType::Pointer(t) => pointer_constant(checker, t, bare(e)),
        CType::Void => Err(Stop::NoTyping),
        CType::Struct(_) => Err(Stop::NoTyping),
        CType::Array(_, _) => Err(Stop::NoTyping),
        CType::Function(_) => Err(Stop::NoTyping),
    }
}

/// The value of a leaf: at file scope, or in a function.
fn leaf<'a>(
    checker: &mut Checker<'a>,
    is_static: bool,
    t: &CType,
    e: &'a Written,
) -> Result<Box<Expr>, Stop>
    ensures { Obeys boxed_expr (words.leaf is_static (type_of t.now) e.now) (state_of checker.old) (state_of checker.new) result }
{
    if is_static {
        static_value(checker, t, e)
    } else {
        typed_as(checker, e, t)
    }
}

/// An array that a string initializes.
fn string_value<'a>(
    alloc: Global,
    path: &Path,
    t: &CType,
    n: u32,
    e: &'a Written,
    done: &mut Vec<Stmt>,
) -> Result<(), Stop>
    ensures { Gives (λ _. list_of done.new.items) (words.string_value (path_place path.now) (type_of t.now) n e.now (list_of done.old.items)) result }
{
    let Some(bytes) = fills(t, n, e) else {
        return Err(Stop::NoTyping);
    };
    let s = fill(alloc, path, n, bytes)?;
    add(done, s)?;
    Ok(())
}

/// A leaf that is initialized.
fn scalar_value<'a>(
    checker: &mut Checker<'a>,
    is_static: bool,
    path: &Path,
    t: &CType,
    e: &'a Written,
    done: &mut Vec<Stmt>,
) -> Result<(), Stop>
    ensures { Obeys (λ _. list_of done.new.items) (words.scalar_value is_static (path_place path.now) (type_of t.now) e.now (list_of done.old.items)) (state_of checker.old) (state_of checker.new) result }
{
    let Some(scalar) = t.scalar() else {
        return Err(Stop::NoTyping);
    };
    let v = leaf(checker, is_static, t, e)?;
    let s = assign(checker.alloc, scalar, path, v)?;
    add(done, s)?;
    Ok(())
}

/// An initializer without braces.
fn single_value<'a>(
    checker: &mut Checker<'a>,
    is_static: bool,
    path: &Path,
    t: &CType,
    e: &'a Written,
    done: &mut Vec<Stmt>,
) -> Result<(), Stop>
    ensures { Obeys (λ _. list_of done.new.items) (words.single_value is_static (path_place path.now) (type_of t.now) e.now (list_of done.old.items)) (state_of checker.old) (state_of checker.new) result }
{
    match t {
        CType::Array(t, n) => string_value(checker.alloc, path, t, *n, e, done),
        CType::Void => scalar_value(checker, is_static, path, t, e, done),
        CType::Int(_) => scalar_value(checker, is_static, path, t, e, done),
        CType::Struct(_) => scalar_value(checker, is_static, path, t, e, done),
        CType::Pointer(_) => scalar_value(checker, is_static, path, t, e, done),
        CType::Function(_) => scalar_value(checker, is_static, path, t, e, done),
    }
}

/// An initializer of a part: in braces, or alone.
#[cycle(values)]
fn inside<'a>(
    checker: &mut Checker<'a>,
    v: &'a Initialiser,
    is_static: bool,
    path: &Path,
    t: &CType,
    done: &mut Vec<Stmt>,
) -> Result<(), Stop>
    ensures { Obeys (λ _. list_of done.new.items) (words.inside v.now is_static (path_place path.now) (type_of t.now) (list_of done.old.items)) (state_of checker.old) (state_of checker.new) result }
{
    match v.node() {
        InitialiserNode::Single(e) => single_value(checker, is_static, path, t, e, done),
        InitialiserNode::Braces(vs, _) => match t {
            CType::Array(t, n) => elements(checker, vs, is_static, path, t, *n, done),
            CType::Struct(m) => members(checker, vs, is_static, path, *m, done),
            CType::Void => Err(Stop::NoTyping),
            CType::Int(_) => Err(Stop::NoTyping),
            CType::Pointer(_) => Err(Stop::NoTyping),
            CType::Function(_) => Err(Stop::NoTyping),
        },
    }
}

/// The elements of an array, from the first on, no more than it has.
#[cycle(values)]
fn elements<'a>(
    checker: &mut Checker<'a>,
    vs: &'a Initialisers,
    is_static: bool,
    path: &Path,
    t: &CType,
    n: u32,
    done: &mut Vec<Stmt>,
) -> Result<(), Stop>
    ensures { Obeys (λ _. list_of done.new.items) (words.elements vs.now is_static (path_place path.now) (type_of t.now) n 0 (list_of done.old.items)) (state_of checker.old) (state_of checker.new) result }
{
    let items = vs.items();
    for i in 0..items.len() {
        let v = &items[i];
        match element(checker, v, is_static, path, t, n, i, done) {
            Ok(()) => (),
            Err(e) => return Err(e),
        }
    }
    Ok(())
}

/// An element of an array, which has so many.
#[cycle(values)]
fn element<'a>(
    checker: &mut Checker<'a>,
    v: &'a Initialiser,
    is_static: bool,
    path: &Path,
    t: &CType,
    n: u32,
    i: usize,
    done: &mut Vec<Stmt>,
) -> Result<(), Stop>
    ensures { Obeys (λ _. list_of done.new.items) (words.element (λ q so_far. words.inside v.now is_static q (type_of t.now) so_far) (path_place path.now) (type_of t.now) n i (list_of done.old.items)) (state_of checker.old) (state_of checker.new) result }
{
    if n as usize <= i {
        return Err(Stop::NoTyping);
    }
    inside(
        checker,
        v,
        is_static,
        &Path::Element(&*path, &*t, n, i as u32),
        &*t,
        done,
    )
}

/// The members of a struct, from the first on, no more than it has.
#[cycle(values)]
fn members<'a>(
    checker: &mut Checker<'a>,
    vs: &'a Initialisers,
    is_static: bool,
    path: &Path,
    m: u32,
    done: &mut Vec<Stmt>,
) -> Result<(), Stop>
    ensures { Obeys (λ _. list_of done.new.items) (words.members vs.now is_static (path_place path.now) m 0 (list_of done.old.items)) (state_of checker.old) (state_of checker.new) result }
{
    let items = vs.items();
    for i in 0..items.len() {
        let v = &items[i];
        match member(checker, v, is_static, path, m, i, done) {
            Ok(()) => (),
            Err(e) => return Err(e),
        }
    }
    Ok(())
}

/// A member of a struct, by the struct's number and its own.
#[cycle(values)]
fn member<'a>(
    checker: &mut Checker<'a>,
    v: &'a Initialiser,
    is_static: bool,
    path: &Path,
    m: u32,
    i: usize,
    done: &mut Vec<Stmt>,
) -> Result<(), Stop>
    ensures { Obeys (λ _. list_of done.new.items) (words.member (λ q t so_far. words.inside v.now is_static q t so_far) (path_place path.now) m i (list_of done.old.items)) (state_of checker.old) (state_of checker.new) result }
{
    let Ok(i) = u32::try_from(i) else {
        return Err(Stop::Memory);
    };
    let t = member_type(&checker.structs, m, i)?;
    inside(checker, v, is_static, &Path::Member(&*path, m, i), &t, done)
}

/// A struct that is initialized from a place of that struct (C11, 6.7.9, paragraph 13).
fn from_place<'a>(
    checker: &mut Checker<'a>,
    m: u32,
    path: &Path,
    q: (Box<Place>, CType),
    done: &mut Vec<Stmt>,
) -> Result<(), Stop>
    ensures { Obeys (λ _. list_of done.new.items) (words.from_place m (path_place path.now) (place_pair q) (list_of done.old.items)) (state_of checker.old) (state_of checker.new) result }
{
    let (q, t) = q;
    if !same_type(&CType::Struct(m), &t) {
        return Err(Stop::NoTyping);
    }
    checker.size_of(&t)?;
    let s = copy(checker.alloc, m, path, q)?;
    add(done, s)?;
    Ok(())
}

/// A struct that is initialized by an expression.
fn copied_from<'a>(
    checker: &mut Checker<'a>,
    m: u32,
    path: &Path,
    e: &'a Written,
    done: &mut Vec<Stmt>,
) -> Result<(), Stop>
    ensures { Obeys (λ _. list_of done.new.items) (words.copied_from m (path_place path.now) e.now (list_of done.old.items)) (state_of checker.old) (state_of checker.new) result }
{
    let q = typed_place(checker, e)?;
    from_place(checker, m, path, q, done)
}

/// An initializer without braces, of a variable of a function.
fn single_in_function<'a>(
    checker: &mut Checker<'a>,
    e: &'a Written,
    path: &Path,
    t: &CType,
    done: &mut Vec<Stmt>,
) -> Result<(), Stop>
    ensures { Obeys (λ _. list_of done.new.items) (words.initialised (tree.single e.now) false (path_place path.now) (type_of t.now) (list_of done.old.items)) (state_of checker.old) (state_of checker.new) result }
{
    match t {
        CType::Struct(m) => copied_from(checker, *m, path, e, done),
        CType::Void => single_value(checker, false, path, t, e, done),
        CType::Int(_) => single_value(checker, false, path, t, e, done),
        CType::Pointer(_) => single_value(checker, false, path, t, e, done),
        CType::Array(_, _) => single_value(checker, false, path, t, e, done),
        CType::Function(_) => single_value(checker, false, path, t, e, done),
    }
}

/// A variable's initializer, at file scope or in a function, behind what is done so far.
pub fn initialised<'a>(
    checker: &mut Checker<'a>,
    v: &'a Initialiser,
    is_static: bool,
    path: &Path,
    t: &CType,
    done: &mut Vec<Stmt>,
) -> Result<(), Stop>
    ensures { Obeys (λ _. list_of done.new.items) (words.initialised v.now is_static (path_place path.now) (type_of t.now) (list_of done.old.items)) (state_of checker.old) (state_of checker.new) result }
{
    if is_static {
        return inside(checker, v, true, path, t, done);
    }
    match v.node() {
        InitialiserNode::Single(e) => single_in_function(checker, e, path, t, done),
        InitialiserNode::Braces(_, _) => inside(checker, v, false, path, t, done),
    }
}
