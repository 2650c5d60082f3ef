//! Declarations at file scope (C11, 6.7 and 6.9.2).

ghost use Rattle.std.specs.Prelude.{◌≡◌, slice_set};
ghost use Rattle.c_types.specs.Types.{type_of};
ghost use Rattle.c_typed.specs.refinement.Views.{list_of};
ghost use Rattle.c_check_types.specs.Types.{whole};
ghost use Rattle.c_check_types.specs.refinement.Views.{Obeys, derived_of, state_of};
ghost use Rattle.c_check.specs.Declarations as words;

use crate::declaring::is_missing;
use crate::initialiser::initialised;
use c_check_types::{Checker, Derived, Stop};
use c_declare::{declares_function, enters_global, variable_type};
use c_tree::{Init, Initialiser};
use c_typed::{Made, Path, Stmt, Variable, give_constants};
use c_types::CType;
use std::mem;

/// Another thing in place of what is made there.
fn put(made: &mut Vec<Made>, m: usize, x: Made)
    ensures { made.new.items ≡ slice_set made.old.items m x }
{
    if m < made.len() {
        let _none = mem::replace(&mut made[m], x);
    }
}

/// The values of a variable, made at this place.
#[tactic(auto, using(crate::proofs::Places::put_there))]
fn with_values<'a>(
    checker: &mut Checker<'a>,
    m: usize,
    n: u32,
    values: Vec<Stmt>,
) -> Result<(), Stop>
    ensures { Obeys (λ _. tt) (words.with_values m n (list_of values.items)) (state_of checker.old) (state_of checker.new) result }
{
    put(&mut checker.made, m, Made::Global(n, values));
    Ok(())
}

/// The initializer of a variable at file scope, if it has one.
fn global_value<'a>(
    checker: &mut Checker<'a>,
    m: usize,
    n: u32,
    t: &CType,
    v: &'a Option<Initialiser>,
) -> Result<(), Stop>
    ensures { Obeys (λ _. tt) (words.global_value m n (type_of t.now) v.now) (state_of checker.old) (state_of checker.new) result }
{
    match v {
        None => Ok(()),
        Some(v) => {
            let mut values = Vec::new(checker.alloc);
            let path = Path::Variable(Variable::Global(n));
            initialised(checker, v, true, &path, t, &mut values)?;
            if !give_constants(&values) {
                return Err(Stop::NoTyping);
            }
            with_values(checker, m, n, values)
        }
    }
}

/// A variable is made before `main`; its place among what is made.
fn made_there<'a>(checker: &mut Checker<'a>, n: u32) -> Result<usize, Stop>
    ensures { Obeys (λ m. m) (words.made_there n) (state_of checker.old) (state_of checker.new) result }
{
    let m = checker.made.len();
    checker.made.push(Made::Global(n, Vec::new(checker.alloc)))?;
    Ok(m)
}

/// A variable at file scope.
fn declares_global<'a>(
    checker: &mut Checker<'a>,
    name: &'a [u8],
    d: Derived,
    v: &'a Option<Initialiser>,
) -> Result<(), Stop>
    ensures { Obeys (λ _. tt) (words.declares_global name.now (derived_of d) v.now) (state_of checker.old) (state_of checker.new) result }
{
    let t = variable_type(checker, d, v)?;
    let n = enters_global(checker, name, t.share()?)?;
    let m = made_there(checker, n)?;
    global_value(checker, m, n, &t, v)
}

/// A function whose name is declared.
fn names_function<'a>(checker: &mut Checker<'a>, name: &'a [u8], t: CType) -> Result<(), Stop>
    ensures { Obeys (λ _. tt) (words.names_function name.now (type_of t)) (state_of checker.old) (state_of checker.new) result }
{
    declares_function(checker, name, t)?;
    Ok(())
}

/// A function that is declared alone.
fn declares_alone<'a>(
    checker: &mut Checker<'a>,
    name: &'a [u8],
    t: CType,
    v: &'a Option<Initialiser>,
) -> Result<(), Stop>
    ensures { Obeys (λ _. tt) (words.declares_alone name.now (type_of t) v.now) (state_of checker.old) (state_of checker.new) result }
{
    if is_missing(v) {
        names_function(checker, name, t)
    } else {
        Err(Stop::NoTyping)
    }
}

/// A name of this type that is declared at file scope.
fn declares_whole<'a>(
    checker: &mut Checker<'a>,
    name: &'a [u8],
    t: CType,
    v: &'a Option<Initialiser>,
) -> Result<(), Stop>
    ensures { Obeys (λ _. tt) (words.declares name.now (whole (type_of t)) v.now) (state_of checker.old) (state_of checker.new) result }
{
    if t.is_function() {
        declares_alone(checker, name, t, v)
    } else {
        declares_global(checker, name, Derived::Whole(t), v)
    }
}

/// A name that is declared at file scope.
fn declares<'a>(
    checker: &mut Checker<'a>,
    name: &'a [u8],
    d: Derived,
    v: &'a Option<Initialiser>,
) -> Result<(), Stop>
    ensures { Obeys (λ _. tt) (words.declares name.now (derived_of d) v.now) (state_of checker.old) (state_of checker.new) result }
{
    match d {
        Derived::Whole(t) => declares_whole(checker, name, t, v),
        Derived::Lengthless(t) => declares_global(checker, name, Derived::Lengthless(t), v),
    }
}

/// A declarator of this type, with its initializer.
fn declares_one<'a>(checker: &mut Checker<'a>, b: &CType, x: &'a Init) -> Result<(), Stop>
    ensures { Obeys (λ _. tt) (words.declares_one (type_of b.now) x.now.declarator x.now.value) (state_of checker.old) (state_of checker.new) result }
{
    let declared = checker.declared(
        &x.declarator,
        Derived::Whole(b.share()?),
        Vec::new(checker.alloc),
    )?;
    let Some(name) = declared.name else {
        return Err(Stop::NoTyping);
    };
    declares(checker, name, declared.derived, &x.value)
}

/// Declarators of this type at file scope, in order.
pub fn declaration<'a>(checker: &mut Checker<'a>, b: &CType, xs: &'a [Init]) -> Result<(), Stop>
    ensures { Obeys (λ _. tt) (words.declaration (type_of b.now) xs.now) (state_of checker.old) (state_of checker.new) result }
{
    for x in xs {
        match declares_one(checker, b, x) {
            Ok(()) => (),
            Err(e) => return Err(e),
        }
    }
    Ok(())
}
