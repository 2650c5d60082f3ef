//! Declarations in functions (C11, 6.7).

ghost use Rattle.std.specs.Prelude.{◌≡◌, ◌++◌, ◌∷◌, [], IfOk, OnOk};
ghost use Rattle.c_types.specs.Types.{type_of};
ghost use Rattle.c_typed.specs.refinement.Views.{list_of, stmt_of};
ghost use Rattle.c_check_types.specs.Types.{whole};
ghost use Rattle.c_check_types.specs.refinement.Views.{Obeys, Gives, derived_of, name_of, state_of};
ghost use Rattle.c_check.specs.Statements as words;
ghost use Rattle.c_check.specs.refinement.Views.{declaring_of};

use crate::initialiser::initialised;
use crate::labels::Labels;
use c_check_types::{Checker, Derived, Stop};
use c_declare::{declares_function, enters_local, variable_type};
use c_tree::{Init, Initialiser, Inits, SpecifierNode};
use c_typed::{Case, Path, Stmt, Variable, add, scope};
use c_types::CType;
use std::alloc::{AllocError, Global};

/// What is declared in a block, by slot, and what is done there; in a switch behind its last label. There the numbers of its
/// labels, whether one is `default`, its labels, and the groups of statements in front of the last one.
#[derive(Drop)]
pub struct Declaring {
    pub slots: Vec<u32>,
    pub done: Vec<Stmt>,
    pub labels: Labels,
    pub has_default: bool,
    pub cases: Vec<Case>,
    pub groups: Vec<Stmt>,
}

/// Nothing declared, and nothing done. Takes no memory.
pub fn nothing_done(alloc: Global) -> Declaring
    ensures { declaring_of result ≡ words.nothing_done }
{
    Declaring {
        slots: Vec::new(alloc),
        done: Vec::new(alloc),
        labels: Labels::new(alloc),
        has_default: false,
        cases: Vec::new(alloc),
        groups: Vec::new(alloc),
    }
}

/// One statement more that is done.
pub fn and_done(d: &mut Declaring, s: Box<Stmt>) -> Result<(), AllocError>
    ensures { OnOk result (declaring_of d.new ≡ words.and_done (declaring_of d.old) (stmt_of s.value)) }
{
    add(&mut d.done, s)
}

/// The scope, as a statement.
pub fn scope_of(alloc: Global, d: Declaring) -> Result<Box<Stmt>, AllocError>
    ensures { IfOk result (λ s. stmt_of s.value ≡ words.scope_of (declaring_of d)) }
{
    scope(alloc, d.slots, d.done)
}

/// The initializer of a variable of a function, if it has one.
fn local_value<'a>(
    checker: &mut Checker<'a>,
    n: u32,
    t: &CType,
    v: &'a Option<Initialiser>,
    done: &mut Vec<Stmt>,
) -> Result<(), Stop>
    ensures { Obeys (λ _. list_of done.new.items) (words.local_value n (type_of t.now) v.now (list_of done.old.items)) (state_of checker.old) (state_of checker.new) result }
{
    match v {
        None => Ok(()),
        Some(v) => initialised(
            checker,
            v,
            false,
            &Path::Variable(Variable::Local(n)),
            t,
            done,
        ),
    }
}

/// A variable of a function, whose name is in scope in its own initializer (C11, 6.2.1, paragraph 7).
fn declares_variable<'a>(
    checker: &mut Checker<'a>,
    name: &'a [u8],
    d: Derived,
    v: &'a Option<Initialiser>,
    so_far: &mut Declaring,
) -> Result<(), Stop>
    ensures { Obeys (λ _. declaring_of so_far.new) (words.declares_variable name.now (derived_of d) v.now (declaring_of so_far.old)) (state_of checker.old) (state_of checker.new) result }
{
    let t = variable_type(checker, d, v)?;
    let n = enters_local(checker, name, t.share()?)?;
    local_value(checker, n, &t, v, &mut so_far.done)?;
    so_far.slots.push(n)?;
    Ok(())
}

/// Whether there is no initializer.
pub fn is_missing(v: &Option<Initialiser>) -> bool
    ensures { result ≡ words.is_missing v.now }
{
    match v {
        None => true,
        Some(_) => false,
    }
}

/// A function that is declared in a block.
fn declares_function_there<'a>(
    checker: &mut Checker<'a>,
    name: &'a [u8],
    t: CType,
    v: &'a Option<Initialiser>,
    so_far: &mut Declaring,
) -> Result<(), Stop>
    ensures { Obeys (λ _. declaring_of so_far.new) (words.declares_function_there name.now (type_of t) v.now (declaring_of so_far.old)) (state_of checker.old) (state_of checker.new) result }
{
    let _so_far = &so_far;
    if !is_missing(v) {
        return Err(Stop::NoTyping);
    }
    declares_function(checker, name, t)?;
    Ok(())
}

/// A name of this type that is declared in a block.
fn declares_whole<'a>(
    checker: &mut Checker<'a>,
    name: &'a [u8],
    t: CType,
    v: &'a Option<Initialiser>,
    so_far: &mut Declaring,
) -> Result<(), Stop>
    ensures { Obeys (λ _. declaring_of so_far.new) (words.declares name.now (whole (type_of t)) v.now (declaring_of so_far.old)) (state_of checker.old) (state_of checker.new) result }
{
    if t.is_function() {
        declares_function_there(checker, name, t, v, so_far)
    } else {
        declares_variable(checker, name, Derived::Whole(t), v, so_far)
    }
}

/// A name that is declared in a block.
fn declares<'a>(
    checker: &mut Checker<'a>,
    name: &'a [u8],
    d: Derived,
    v: &'a Option<Initialiser>,
    so_far: &mut Declaring,
) -> Result<(), Stop>
    ensures { Obeys (λ _. declaring_of so_far.new) (words.declares name.now (derived_of d) v.now (declaring_of so_far.old)) (state_of checker.old) (state_of checker.new) result }
{
    match d {
        Derived::Whole(t) => declares_whole(checker, name, t, v, so_far),
        Derived::Lengthless(t) => {
            declares_variable(checker, name, Derived::Lengthless(t), v, so_far)
        }
    }
}

/// A declarator of this type, with its initializer.
fn declares_one<'a>(
    checker: &mut Checker<'a>,
    b: &CType,
    x: &'a Init,
    so_far: &mut Declaring,
) -> Result<(), Stop>
    ensures { Obeys (λ _. declaring_of so_far.new) (words.declares_one (type_of b.now) x.now.declarator x.now.value (declaring_of so_far.old)) (state_of checker.old) (state_of checker.new) result }
{
    let declared = checker.declared(
        &x.declarator,
        Derived::Whole(b.share()?),
        Vec::new(checker.alloc),
    )?;
    let Some(name) = declared.name else {
        return Err(Stop::NoTyping);
    };
    declares(checker, name, declared.derived, &x.value, so_far)
}

/// Declarators of this type, in order.
fn declaration<'a>(
    checker: &mut Checker<'a>,
    b: &CType,
    xs: &'a [Init],
    so_far: &mut Declaring,
) -> Result<(), Stop>
    ensures { Obeys (λ _. declaring_of so_far.new) (words.declaration (type_of b.now) xs.now (declaring_of so_far.old)) (state_of checker.old) (state_of checker.new) result }
{
    for x in xs {
        match declares_one(checker, b, x, so_far) {
            Ok(()) => (),
            Err(e) => return Err(e),
        }
    }
    Ok(())
}

/// A declaration in a block (C11, 6.7).
pub fn declaration_of<'a>(
    checker: &mut Checker<'a>,
    s: &'a SpecifierNode,
    xs: &'a Inits,
    so_far: &mut Declaring,
) -> Result<(), Stop>
    ensures { Obeys (λ _. declaring_of so_far.new) (words.declaration_of s.now xs.now (declaring_of so_far.old)) (state_of checker.old) (state_of checker.new) result }
{
    let b = checker.specified(s)?;
    declaration(checker, &b, xs.items(), so_far)
}
